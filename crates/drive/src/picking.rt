// The pass over a drive that picks the positions to keep.
ghost use Rattle.std.specs.Prelude.{◌<◌, length, get_or};
ghost use Rattle.road.specs.workings.Verdicts.{Tells};
ghost use Rattle.drive.specs.workings.Picking.{Fits, Picking};
ghost use Rattle.drive.specs.Thinning.{Kept};

use crate::PositionCount;

// Whether position i is kept.
fn is_kept(set: &[u8], drive: &[u32], i: usize) -> bool
    requires i_in_bounds { i < length drive.now }
    requires i_in_bounds_2 { get_or drive.now i 0 < length set.now }
    ensures { Tells result (Kept set.now drive.now i) }
{
    set[drive[i] as usize] == 1
}

// Writes the kept positions from the front on, ascending, and gives their count.
pub fn pick(set: &[u8], drive: &[u32], positions: &mut [u32]) -> PositionCount
    requires { Fits set.now drive.now positions.old }
    ensures { Picking set.now drive.now positions.old (length drive.now) positions.new result.0 }
{
    // Counted by hand: it grows at the kept positions alone, and the next one is written there.
    let mut count = 0;
    for i in 0..drive.len() {
        if is_kept(set, drive, i) {
            positions[count] = i as u32;
            count += 1;
        }
    }
    PositionCount(count)
}
