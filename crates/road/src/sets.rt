// Checks 6, 8 and 9: the set and a question's two nodes.
ghost use Rattle.std.specs.Prelude.{◌<◌, length};
ghost use Rattle.road.specs.Faults.{set_fault, node_fault, outside_fault};
ghost use Rattle.road.specs.workings.Verdicts.{Judged};

use crate::{NodeCount, Refusal};

// Check 6. A set is bytes, as C lends it.
pub fn check_set(n: NodeCount, set: &[u8]) -> Result<(), Refusal>
    ensures { Judged (set_fault n.0 set.now) result }
{
    if set.len() != n.0 {
        return Err(Refusal::Set);
    }
    // A loop and not `any`: see check 2.
    for byte in set {
        if 1 < *byte {
            return Err(Refusal::Set);
        }
    }
    Ok(())
}

// Check 8.
pub fn check_nodes(n: NodeCount, from: u32, to: u32) -> Result<(), Refusal>
    ensures { Judged (node_fault n.0 from to) result }
{
    if n.0 <= from as usize || n.0 <= to as usize {
        return Err(Refusal::Node);
    }
    Ok(())
}

// Check 9.
pub fn check_in_set(set: &[u8], from: u32, to: u32) -> Result<(), Refusal>
    requires from_in_bounds { from < length set.now }
    requires to_in_bounds { to < length set.now }
    ensures { Judged (outside_fault set.now from to) result }
{
    if set[from as usize] != 1 || set[to as usize] != 1 {
        return Err(Refusal::Outside);
    }
    Ok(())
}
