// The cover call.
ghost use Rattle.cover.specs.Calls.{areas, Outcome};
ghost use Rattle.gulvane.specs.Results.{BareCount, said_count};

use crate::GulvaneCount;
use cover::{Work, cover};
use road::{Graph, GraphMut, NodeCount};

// Picks the points.
#[unsafe(no_mangle)]
pub extern "C" fn gulvane_cover<'w>(
    starts: &[u32],
    heads: &[u32],
    weights: &[u32],
    k: usize,
    order: &[u32],
    points: &mut [u8],
    starts_back: &'w mut [u32],
    heads_back: &'w mut [u32],
    weights_back: &'w mut [u32],
    marks: &'w mut [u8],
    pieces: &'w mut [u32],
    sizes: &'w mut [u32],
) -> GulvaneCount
    ensures outcome { Outcome starts.now heads.now weights.now k order.now (areas points.old starts_back.old heads_back.old weights_back.old marks.old pieces.old sizes.old) (said_count result) (areas points.new starts_back.new heads_back.new weights_back.new marks.new pieces.new sizes.new) }
    ensures bare_count { BareCount result }
{
    let graph = Graph {
        starts,
        heads,
        weights,
    };
    let mut back = GraphMut {
        starts: starts_back,
        heads: heads_back,
        weights: weights_back,
    };
    let mut work = Work {
        back: &mut back,
        marks,
        pieces,
        sizes,
    };
    cover(&graph, NodeCount(k), order, points, &mut work)
        .map(|c| c.0)
        .into()
}
