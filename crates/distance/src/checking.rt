// What the questions check: what they are asked, then the lengths of their work.
ghost use Rattle.std.specs.Prelude.{◌≤◌};
ghost use Rattle.road.specs.Faults.{lengths_fault};
ghost use Rattle.road.specs.workings.Verdicts.{Judged, Judges};
ghost use Rattle.distance.specs.Calls.{hand_input, hand_lengths, pair_input, pair_lengths};
ghost use Rattle.distance.specs.Lent.{hand_areas_of, pair_areas_of};

use crate::{HandWork, PairWork};
use overlay::check_overlay;
use road::{
    ArcCount, Graph, NodeCount, Refusal, check_in_set, check_lengths, check_lone_set, check_nodes,
    check_road_and_set,
};

// The handheld question: 1 6 7 8 9.
pub fn check_hand_input(set: &[u8], overlay: &Graph, s: u32, t: u32) -> Result<(), Refusal>
    ensures { Judges (hand_input set.now overlay.now.starts.now overlay.now.heads.now overlay.now.weights.now s t) result }
{
    check_lone_set(set)?;
    check_overlay(set, overlay)?;
    check_nodes(NodeCount(set.len()), s, t)?;
    check_in_set(set, s, t)
}

// The any-pair question: 1 2 3 6 7 8.
pub fn check_pair_input(
    graph: &Graph,
    set: &[u8],
    overlay: &Graph,
    s: u32,
    t: u32,
) -> Result<(), Refusal>
    ensures { Judges (pair_input graph.now.starts.now graph.now.heads.now graph.now.weights.now set.now overlay.now.starts.now overlay.now.heads.now overlay.now.weights.now s t) result }
{
    check_road_and_set(graph, set)?;
    check_overlay(set, overlay)?;
    check_nodes(graph.node_count(), s, t)
}

// Check 11 of the handheld question, over n nodes.
pub fn check_hand_lengths(n: NodeCount, work: &HandWork) -> Result<(), Refusal>
    requires { n.0 ≤ 4096 }
    ensures { Judged (lengths_fault (hand_lengths n.0 (hand_areas_of work.now))) result }
{
    check_lengths(&[
        (work.labels.len(), n.0),
        (work.heap.len(), 2 * n.0),
        (work.places.len(), n.0),
        (work.touched.len(), n.0),
        (work.blocked.len(), n.0),
    ])
}

// Check 11 of the any-pair question, over n nodes and m arcs: the graph turned round and the rows,
// then what the handheld question is lent too, once more: `PairWork` has no `HandWork` to lend.
pub fn check_pair_lengths(n: NodeCount, m: ArcCount, work: &PairWork) -> Result<(), Refusal>
    requires { n.0 ≤ 4096 }
    ensures { Judged (lengths_fault (pair_lengths n.0 m.0 (pair_areas_of work.now))) result }
{
    check_lengths(&[
        (work.starts.len(), n.0 + 1),
        (work.heads.len(), m.0),
        (work.weights.len(), m.0),
        (work.outward.len(), n.0),
        (work.inward.len(), n.0),
        (work.labels.len(), n.0),
        (work.heap.len(), 2 * n.0),
        (work.places.len(), n.0),
        (work.touched.len(), n.0),
        (work.blocked.len(), n.0),
    ])
}
