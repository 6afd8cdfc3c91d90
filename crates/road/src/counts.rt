// Counts of nodes and of arcs.
ghost use Rattle.std.specs.Prelude.{◌≡◌};
ghost use Rattle.paths.specs.Graphs.{arcs_of};

use crate::{ArcCount, NodeCount};

// The arcs of a path of so many nodes: the one place where a count of nodes becomes one of arcs.
pub fn arcs_on_path(k: NodeCount) -> ArcCount
    ensures { result.0 ≡ arcs_of k.0 }
{
    ArcCount(k.0.saturating_sub(1))
}
