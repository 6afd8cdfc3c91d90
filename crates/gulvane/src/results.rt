// What the calls answer, as structs.
ghost use Rattle.gulvane.specs.Results.{CountOf, DistanceOf};

use crate::{GulvaneCount, GulvaneDistance};
use road::Refusal;

impl From<Result<usize, Refusal>> for GulvaneCount {
    ghost from_gives = { λ answer x. CountOf answer x };

    fn from(answer: Result<usize, Refusal>) -> GulvaneCount {
        match answer {
            Ok(count) => GulvaneCount { refusal: 0, count },
            Err(r) => GulvaneCount {
                refusal: u32::from(u8::from(r)),
                count: 0,
            },
        }
    }
}

impl From<Result<Option<u64>, Refusal>> for GulvaneDistance {
    ghost from_gives = { λ answer x. DistanceOf answer x };

    fn from(answer: Result<Option<u64>, Refusal>) -> GulvaneDistance {
        match answer {
            Ok(Some(weight)) => GulvaneDistance {
                refusal: 0,
                way: 1,
                weight,
            },
            Ok(None) => GulvaneDistance {
                refusal: 0,
                way: 0,
                weight: 0,
            },
            Err(r) => GulvaneDistance {
                refusal: u32::from(u8::from(r)),
                way: 0,
                weight: 0,
            },
        }
    }
}
