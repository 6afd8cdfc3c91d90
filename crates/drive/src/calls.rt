// The thinning call.
ghost use Rattle.drive.specs.Calls.{Outcome, said_of};

use crate::PositionCount;
use crate::picking::pick;
use road::{Graph, Refusal, check_drive_input, check_length};

// Thins the drive: the ascending list of the positions, from 0, whose node is in the set, at the
// front of `positions`, and how many they are.
pub fn thin(
    graph: &Graph,
    set: &[u8],
    drive: &[u32],
    positions: &mut [u32],
) -> Result<PositionCount, Refusal>
    ensures { Outcome graph.now.starts.now graph.now.heads.now graph.now.weights.now set.now drive.now positions.old (said_of result) positions.new }
{
    check_drive_input(graph, set, drive)?;
    check_length(positions.len(), drive.len())?;
    Ok(pick(set, drive, positions))
}
