// Check 2: the starts.
ghost use Rattle.std.specs.Prelude.{◌≤◌, length};
ghost use Rattle.road.specs.Faults.{starts_fault};
ghost use Rattle.road.specs.workings.Verdicts.{Judged};

use crate::{Graph, Refusal};

// A loop, as in check 6: tried `is_sorted` here and `any` there, and the handheld question takes 5 in
// 100 longer.
pub fn check_starts(graph: &Graph) -> Result<(), Refusal>
    requires { 2 ≤ length graph.now.starts.now }
    ensures { Judged (starts_fault graph.now.starts.now graph.now.heads.now) result }
{
    let starts = graph.starts;
    let last = starts.len() - 1;
    if starts[0] != 0 {
        return Err(Refusal::Starts);
    }
    for u in 0..last {
        if starts[u + 1] < starts[u] {
            return Err(Refusal::Starts);
        }
    }
    if starts[last] as usize != graph.heads.len() {
        return Err(Refusal::Starts);
    }
    Ok(())
}
