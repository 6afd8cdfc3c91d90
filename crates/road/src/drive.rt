// Check 10: the drive.
ghost use Rattle.std.specs.Prelude.{◌<◌, length};
ghost use Rattle.road.specs.Drives.{drive_fault};
ghost use Rattle.road.specs.workings.Scans.{Entered, JudgesPosition};
ghost use Rattle.road.specs.workings.Verdicts.{Judged};
ghost use Rattle.road.specs.workings.Sound.{Sorted};

use crate::{Graph, Refusal};

// The node at position i, and the arc that leads to it. The nodes before it are nodes.
fn check_position(graph: &Graph, drive: &[u32], i: usize) -> Result<(), Refusal>
    requires sorted { Sorted graph.now.starts.now graph.now.heads.now }
    requires i_in_bounds { i < length drive.now }
    requires entered { Entered graph.now.starts.now graph.now.heads.now drive.now i }
    ensures { JudgesPosition graph.now.starts.now graph.now.heads.now drive.now i result }
{
    if graph.node_count().0 <= drive[i] as usize {
        return Err(Refusal::Drive);
    }
    if i == 0 || graph.joined(drive[i - 1] as usize, drive[i]) {
        return Ok(());
    }
    Err(Refusal::Drive)
}

// Check 10.
pub fn check_drive(graph: &Graph, drive: &[u32]) -> Result<(), Refusal>
    requires { Sorted graph.now.starts.now graph.now.heads.now }
    ensures { Judged (drive_fault graph.now.starts.now graph.now.heads.now drive.now) result }
{
    if drive.len() == 0 || 4096 < drive.len() {
        return Err(Refusal::Drive);
    }
    for i in 0..drive.len() {
        check_position(graph, drive, i)?;
    }
    Ok(())
}
