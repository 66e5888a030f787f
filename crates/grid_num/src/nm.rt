// A length as a whole number of nanometres.
ghost use Rattle.std.specs.Prelude.{◌≡◌, ◌↔◌, ◌≤ℤ◌, pos, neg_ℤ, IsSome, IfSome};
ghost use Rattle.grid_num.specs.Length.{IsInRange};

use std::marker::Model;

/// The longest length that is read or kept: 500 mm.
pub(crate) const MOST: u64 = 500_000_000;

/// A length of at most 500 mm to either side, in nanometres. Contracts see the number.
#[derive(Clone, Copy, PartialEq, Eq, PartialOrd, Ord, Debug)]
pub struct Nm {
    nm: i64,
}

impl Model for Nm {
    ghost use Rattle.std.specs.Prelude.{ℤ};
    ghost use Rattle.grid_num.specs.Length.{IsInRange};

    ghost Value = { ℤ };

    ghost view = { λ s. s.nm };

    ghost invariant = { λ s. IsInRange s.nm };

    ghost inverse = { λ z. record { nm = z } };
}

impl Nm {
    /// The length of so many nanometres, if it is at most 500 mm to either side.
    pub fn new(nm: i64) -> Option<Nm>
        ensures some { IsSome result ↔ IsInRange nm }
        ensures value { IfSome result (λ length. length ≡ nm) }
    {
        if nm.unsigned_abs() <= MOST {
            Some(Nm { nm })
        } else {
            None
        }
    }

    pub(crate) fn within(nm: i64) -> Nm
        requires { IsInRange nm }
        ensures { result ≡ nm }
    {
        Nm { nm }
    }

    /// The nanometres.
    pub fn get(&self) -> i64
        ensures value { result ≡ self.now }
        ensures range { IsInRange result }
    {
        self.nm
    }
}
