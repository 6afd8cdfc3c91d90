// The checks in their order, each chain for any input.
ghost use Rattle.road.specs.Chains.{cover_faults, road_and_set_faults, lone_set_faults, drive_faults};
ghost use Rattle.road.specs.Faults.{graph_faults};
ghost use Rattle.road.specs.workings.Verdicts.{Judges};

use crate::arcs::check_arcs;
use crate::bounds::{check_k, road_limits};
use crate::drive::check_drive;
use crate::lengths::{check_set_size, check_sizes};
use crate::order::check_order;
use crate::sets::check_set;
use crate::starts::check_starts;
use crate::{Graph, Limits, NodeCount, Refusal};

// Checks 1, 2 and 3, under either limits.
pub fn check_graph(graph: &Graph, limits: Limits) -> Result<(), Refusal>
    ensures { Judges (graph_faults limits graph.now.starts.now graph.now.heads.now graph.now.weights.now) result }
{
    check_sizes(graph, limits)?;
    check_starts(graph)?;
    check_arcs(graph, limits)
}

// What the cover call checks before its lengths: 1 2 3 4 5.
pub fn check_cover_input(graph: &Graph, k: NodeCount, order: &[u32]) -> Result<(), Refusal>
    ensures { Judges (cover_faults graph.now.starts.now graph.now.heads.now graph.now.weights.now k.0 order.now) result }
{
    check_graph(graph, road_limits())?;
    check_k(k)?;
    check_order(graph.node_count(), order)
}

// What the overlay call and the any-pair question check first: 1 2 3 6.
pub fn check_road_and_set(graph: &Graph, set: &[u8]) -> Result<(), Refusal>
    ensures { Judges (road_and_set_faults graph.now.starts.now graph.now.heads.now graph.now.weights.now set.now) result }
{
    check_graph(graph, road_limits())?;
    check_set(graph.node_count(), set)
}

// What the handheld question checks first: 1 6, n being the set's length.
pub fn check_lone_set(set: &[u8]) -> Result<(), Refusal>
    ensures { Judges (lone_set_faults set.now) result }
{
    check_set_size(set)?;
    check_set(NodeCount(set.len()), set)
}

// What the thinning call checks before its lengths: 1 2 3 6 10.
pub fn check_drive_input(graph: &Graph, set: &[u8], drive: &[u32]) -> Result<(), Refusal>
    ensures { Judges (drive_faults graph.now.starts.now graph.now.heads.now graph.now.weights.now set.now drive.now) result }
{
    check_road_and_set(graph, set)?;
    check_drive(graph, drive)
}
