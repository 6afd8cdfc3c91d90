// The refusals.
ghost use Rattle.std.specs.Prelude.{◌≡◌, ◌++◌, Some, codes, decimal};
ghost use Rattle.road.specs.Refusals.{number_of};

use crate::Refusal;
use std::fmt;

// The number that is told for a refusal.
impl From<Refusal> for u8 {
    ghost from_gives = { λ r number. number ≡ number_of r };

    fn from(r: Refusal) -> u8 {
        r as u8
    }
}

impl fmt::Display for Refusal {
    ghost output = { λ r. Some (codes "refused " ++ decimal (number_of r)) };

    fn fmt<W: fmt::Write>(&self, f: &mut fmt::Formatter<W>) -> fmt::Result {
        let number = u8::from(*self);
        write!(f, "refused {number}")
    }
}
