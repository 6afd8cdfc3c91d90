// The two calls.
ghost use Rattle.distance.specs.Calls.{HandOutcome, PairOutcome, said_of};
ghost use Rattle.distance.specs.Lent.{SameHand, SamePair, hand_areas_of, pair_areas_of};

use crate::asking::{ask_overlay, ask_pair};
use crate::checking::{check_hand_input, check_hand_lengths, check_pair_input, check_pair_lengths};
use crate::{HandWork, PairWork};
use road::{ArcCount, Graph, GraphMut, NodeCount, Refusal};

// The handheld question: the distance from s to t in the overlay, lent the set and the overlay
// alone.
pub fn handheld(
    set: &[u8],
    overlay: &Graph,
    s: u32,
    t: u32,
    work: &mut HandWork,
) -> Result<Option<u64>, Refusal>
    ensures outcome { HandOutcome set.now overlay.now.starts.now overlay.now.heads.now overlay.now.weights.now s t (hand_areas_of work.old) (said_of result) (hand_areas_of work.new) }
    ensures same_slices { SameHand work.old work.new }
{
    check_hand_input(set, overlay, s, t)?;
    check_hand_lengths(NodeCount(set.len()), work)?;
    Ok(ask_overlay(overlay, s as usize, t as usize, work))
}

// The any-pair question: the least of the road's ways past the set and of the ways through the
// overlay, lent the road graph too.
pub fn any_pair(
    graph: &Graph,
    set: &[u8],
    overlay: &Graph,
    s: u32,
    t: u32,
    work: &mut PairWork,
) -> Result<Option<u64>, Refusal>
    ensures outcome { PairOutcome graph.now.starts.now graph.now.heads.now graph.now.weights.now set.now overlay.now.starts.now overlay.now.heads.now overlay.now.weights.now s t (pair_areas_of work.old) (said_of result) (pair_areas_of work.new) }
    ensures same_slices { SamePair work.old work.new }
{
    check_pair_input(graph, set, overlay, s, t)?;
    check_pair_lengths(graph.node_count(), ArcCount(graph.heads.len()), work)?;
    let mut back = GraphMut {
        starts: &mut *work.starts,
        heads: &mut *work.heads,
        weights: &mut *work.weights,
    };
    let mut hand = HandWork {
        labels: &mut *work.labels,
        heap: &mut *work.heap,
        places: &mut *work.places,
        touched: &mut *work.touched,
        blocked: &mut *work.blocked,
    };
    Ok(ask_pair(
        graph,
        set,
        overlay,
        s as usize,
        t as usize,
        &mut back,
        work.outward,
        work.inward,
        &mut hand,
    ))
}
