// Check 3: the arcs, by ascending place.
ghost use Rattle.std.specs.Prelude.{◌<◌};
ghost use Rattle.road.specs.Faults.{ArcFault, arc_faults, HeadFalls};
ghost use Rattle.road.specs.workings.Verdicts.{Judged, Judges, Tells};
ghost use Rattle.road.specs.workings.Sound.{Listed};
ghost use Rattle.road.specs.Roads.{nodes_of};
ghost use Rattle.road.specs.workings.Scans.{Clear, Placed, Scanned};

use crate::{Graph, Limits, Refusal};

// Whether the head at place p is not above that of the arc before it of the same tail.
fn head_falls(graph: &Graph, tail: usize, p: usize) -> bool
    requires { Placed graph.now.starts.now graph.now.heads.now graph.now.weights.now tail p }
    ensures { Tells result (HeadFalls graph.now.starts.now graph.now.heads.now p) }
{
    (graph.starts[tail] as usize) < p && graph.heads[p] <= graph.heads[p - 1]
}

// The faults of the arc at place p, one of tail's.
fn check_arc(graph: &Graph, limits: Limits, tail: usize, p: usize) -> Result<(), Refusal>
    requires { Placed graph.now.starts.now graph.now.heads.now graph.now.weights.now tail p }
    ensures { Judges (arc_faults limits graph.now.starts.now graph.now.heads.now graph.now.weights.now p) result }
{
    let head = graph.heads[p] as usize;
    let outside = graph.node_count().0 <= head;
    if outside || head == tail || head_falls(graph, tail, p) || limits.weight < graph.weights[p] {
        return Err(Refusal::Arcs);
    }
    Ok(())
}

// The arcs of one tail, those of the tails before it being without fault.
fn check_row(graph: &Graph, limits: Limits, tail: usize) -> Result<(), Refusal>
    requires listed { Listed graph.now.starts.now graph.now.heads.now graph.now.weights.now }
    requires tail_bound { tail < nodes_of graph.now.starts.now }
    requires clear { Clear limits graph.now.starts.now graph.now.heads.now graph.now.weights.now tail }
    ensures { Scanned limits graph.now.starts.now graph.now.heads.now graph.now.weights.now tail result }
{
    let row = graph.row(tail);
    for p in row.first..row.end {
        check_arc(graph, limits, tail, p)?;
    }
    Ok(())
}

// Check 3, under either limits.
pub fn check_arcs(graph: &Graph, limits: Limits) -> Result<(), Refusal>
    requires { Listed graph.now.starts.now graph.now.heads.now graph.now.weights.now }
    ensures { Judged (ArcFault limits graph.now.starts.now graph.now.heads.now graph.now.weights.now) result }
{
    for tail in 0..graph.node_count().0 {
        check_row(graph, limits, tail)?;
    }
    Ok(())
}
