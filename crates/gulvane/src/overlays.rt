// The overlay call.
ghost use Rattle.overlay.specs.Calls.{areas, Outcome};
ghost use Rattle.gulvane.specs.Results.{BareCount, said_count};

use crate::GulvaneCount;
use overlay::{Work, overlay};
use road::{Graph, GraphMut};

// Builds the overlay of the set.
#[unsafe(no_mangle)]
pub extern "C" fn gulvane_overlay<'w>(
    starts: &[u32],
    heads: &[u32],
    weights: &[u32],
    set: &[u8],
    over_starts: &'w mut [u32],
    over_heads: &'w mut [u32],
    over_weights: &'w mut [u32],
    labels: &'w mut [u64],
    heap: &'w mut [u32],
    places: &'w mut [u32],
    touched: &'w mut [u32],
) -> GulvaneCount
    ensures outcome { Outcome starts.now heads.now weights.now set.now (areas over_starts.old over_heads.old over_weights.old labels.old heap.old places.old touched.old) (said_count result) (areas over_starts.new over_heads.new over_weights.new labels.new heap.new places.new touched.new) }
    ensures bare_count { BareCount result }
{
    let graph = Graph {
        starts,
        heads,
        weights,
    };
    let mut rooms = GraphMut {
        starts: over_starts,
        heads: over_heads,
        weights: over_weights,
    };
    let mut work = Work {
        labels,
        heap,
        places,
        touched,
    };
    overlay(&graph, set, &mut rooms, &mut work)
        .map(|m| m.0)
        .into()
}
