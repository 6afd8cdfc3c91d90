// The thinning call.
ghost use Rattle.drive.specs.Calls.{Outcome};
ghost use Rattle.gulvane.specs.Results.{BareCount, said_count};

use crate::GulvaneCount;
use drive::thin;
use road::Graph;

// Thins a drive.
#[unsafe(no_mangle)]
pub extern "C" fn gulvane_thin(
    starts: &[u32],
    heads: &[u32],
    weights: &[u32],
    set: &[u8],
    drive: &[u32],
    positions: &mut [u32],
) -> GulvaneCount
    ensures outcome { Outcome starts.now heads.now weights.now set.now drive.now positions.old (said_count result) positions.new }
    ensures bare_count { BareCount result }
{
    let graph = Graph {
        starts,
        heads,
        weights,
    };
    thin(&graph, set, drive, positions).map(|c| c.0).into()
}
