// Check 7: an overlay that is lent.
ghost use Rattle.std.specs.Prelude.{◌≡◌, ◌+◌, ◌<◌, length};
ghost use Rattle.road.specs.Limits.{overlay_limits};
ghost use Rattle.road.specs.workings.Verdicts.{Judged};
ghost use Rattle.road.specs.workings.Sound.{Sound};
ghost use Rattle.overlay.specs.workings.Ends.{JudgesRow};
ghost use Rattle.overlay.specs.Lent.{overlay_fault};

use road::{Graph, Refusal, check_graph, overlay_limits};

// The arcs of one tail end in the set, at both ends.
fn check_row(set: &[u8], overlay: &Graph, tail: usize) -> Result<(), Refusal>
    requires sound { Sound overlay_limits overlay.now.starts.now overlay.now.heads.now overlay.now.weights.now }
    requires starts_len { length overlay.now.starts.now ≡ length set.now + 1 }
    requires tail_in_bounds { tail < length set.now }
    ensures { JudgesRow set.now overlay.now.starts.now overlay.now.heads.now overlay.now.weights.now tail result }
{
    let heads = overlay.heads;
    let row = overlay.row(tail);
    for p in row.first..row.end {
        if set[tail] != 1 || set[heads[p] as usize] != 1 {
            return Err(Refusal::Overlay);
        }
    }
    Ok(())
}

// Check 7, n being the set's length.
pub fn check_overlay(set: &[u8], overlay: &Graph) -> Result<(), Refusal>
    ensures { Judged (overlay_fault set.now overlay.now.starts.now overlay.now.heads.now overlay.now.weights.now) result }
{
    check_graph(overlay, overlay_limits()).map_err(|_| Refusal::Overlay)?;
    if overlay.node_count().0 != set.len() {
        return Err(Refusal::Overlay);
    }
    for tail in 0..set.len() {
        check_row(set, overlay, tail)?;
    }
    Ok(())
}
