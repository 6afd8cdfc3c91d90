// The limits, and check 4.
ghost use Rattle.std.specs.Prelude.{◌≡◌};
ghost use Rattle.road.specs.Faults.{k_fault};
ghost use Rattle.road.specs.Limits.{road_limits, overlay_limits};
ghost use Rattle.road.specs.workings.Verdicts.{Judged};

use crate::{ArcCount, Limits, NodeCount, Refusal};

pub fn road_limits() -> Limits
    ensures { result ≡ road_limits }
{
    Limits {
        arcs: ArcCount(16384),
        weight: 1000000,
    }
}

pub fn overlay_limits() -> Limits
    ensures { result ≡ overlay_limits }
{
    Limits {
        arcs: ArcCount(65536),
        weight: 4095000000,
    }
}

// Check 4.
pub fn check_k(k: NodeCount) -> Result<(), Refusal>
    ensures { Judged (k_fault k.0) result }
{
    if k.0 == 0 || 32 < k.0 {
        return Err(Refusal::K);
    }
    Ok(())
}
