// Check 5: the order.
ghost use Rattle.std.specs.Prelude.{◌≤◌};
ghost use Rattle.road.specs.Faults.{order_fault};
ghost use Rattle.road.specs.Limits.{most_nodes};
ghost use Rattle.road.specs.workings.Verdicts.{Judged};

use crate::{NodeCount, Refusal};

// Each node is marked in an array of our own, since a check changes no lent slice.
pub fn check_order(n: NodeCount, order: &[u32]) -> Result<(), Refusal>
    requires { n.0 ≤ most_nodes }
    ensures { Judged (order_fault n.0 order.now) result }
{
    if order.len() != n.0 {
        return Err(Refusal::Order);
    }
    let mut seen = [false; 4096];
    for node in order {
        let v = *node as usize;
        if n.0 <= v || seen[v] {
            return Err(Refusal::Order);
        }
        seen[v] = true;
    }
    Ok(())
}
