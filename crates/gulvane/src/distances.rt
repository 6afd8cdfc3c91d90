// The two questions.
ghost use Rattle.distance.specs.Calls.{pair_areas, hand_areas, HandOutcome, PairOutcome};
ghost use Rattle.gulvane.specs.Results.{BareDistance, said_distance};

use crate::GulvaneDistance;
use distance::{HandWork, PairWork, any_pair, handheld};
use road::Graph;

// The handheld question.
#[unsafe(no_mangle)]
pub extern "C" fn gulvane_handheld<'w>(
    set: &[u8],
    over_starts: &[u32],
    over_heads: &[u32],
    over_weights: &[u32],
    s: u32,
    t: u32,
    labels: &'w mut [u64],
    heap: &'w mut [u32],
    places: &'w mut [u32],
    touched: &'w mut [u32],
    blocked: &'w mut [u8],
) -> GulvaneDistance
    ensures hand_outcome { HandOutcome set.now over_starts.now over_heads.now over_weights.now s t (hand_areas labels.old heap.old places.old touched.old blocked.old) (said_distance result) (hand_areas labels.new heap.new places.new touched.new blocked.new) }
    ensures bare_distance { BareDistance result }
{
    let overlay = Graph {
        starts: over_starts,
        heads: over_heads,
        weights: over_weights,
    };
    let mut work = HandWork {
        labels,
        heap,
        places,
        touched,
        blocked,
    };
    handheld(set, &overlay, s, t, &mut work).into()
}

// The any-pair question.
#[unsafe(no_mangle)]
pub extern "C" fn gulvane_any_pair<'w>(
    starts: &[u32],
    heads: &[u32],
    weights: &[u32],
    set: &[u8],
    over_starts: &[u32],
    over_heads: &[u32],
    over_weights: &[u32],
    s: u32,
    t: u32,
    starts_back: &'w mut [u32],
    heads_back: &'w mut [u32],
    weights_back: &'w mut [u32],
    outward: &'w mut [u64],
    inward: &'w mut [u64],
    labels: &'w mut [u64],
    heap: &'w mut [u32],
    places: &'w mut [u32],
    touched: &'w mut [u32],
    blocked: &'w mut [u8],
) -> GulvaneDistance
    ensures pair_outcome { PairOutcome starts.now heads.now weights.now set.now over_starts.now over_heads.now over_weights.now s t (pair_areas starts_back.old heads_back.old weights_back.old outward.old inward.old labels.old heap.old places.old touched.old blocked.old) (said_distance result) (pair_areas starts_back.new heads_back.new weights_back.new outward.new inward.new labels.new heap.new places.new touched.new blocked.new) }
    ensures bare_distance { BareDistance result }
{
    let graph = Graph {
        starts,
        heads,
        weights,
    };
    let overlay = Graph {
        starts: over_starts,
        heads: over_heads,
        weights: over_weights,
    };
    let mut work = PairWork {
        starts: starts_back,
        heads: heads_back,
        weights: weights_back,
        outward,
        inward,
        labels,
        heap,
        places,
        touched,
        blocked,
    };
    any_pair(&graph, set, &overlay, s, t, &mut work).into()
}
