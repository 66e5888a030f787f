//! Tight octagons on the grid, and what they do to all points of the plane: sums, moves, meeting, keeping a distance.
//! The layer above uses what each call says of points, the laws of `laws`, and `IsOct` for the ranges of the bounds.
//! A coordinate is a unit of the grid (2 nm). x grows to the right and y downward; s is x + y and d is x - y.
#![tactic(auto)]

ghost use Rattle.std.specs.Prelude.{◌≡◌};
ghost use Rattle.plane.specs.Plane.{IsOct};

mod ask;
mod combine;
mod eight;
pub mod laws;
mod make;
mod narrow;

use std::marker::Model;

/// A tight octagon: lower and upper bounds on x, y, x + y and x - y, each attained by one of its grid points, with x
/// and y within 2^40. Contracts see it as the record of its bounds.
#[derive(Clone, Copy, PartialEq, Eq, Debug)]
pub struct Oct {
    x0: i64,
    x1: i64,
    y0: i64,
    y1: i64,
    s0: i64,
    s1: i64,
    d0: i64,
    d1: i64,
}

impl Model for Oct {
    ghost use Rattle.plane.specs.Plane.{Bounds, IsOct};

    ghost Value = { Bounds };

    ghost view = { λ a. record { x0 = a.x0; x1 = a.x1; y0 = a.y0; y1 = a.y1; s0 = a.s0; s1 = a.s1; d0 = a.d0; d1 = a.d1 } };

    ghost inverse = { λ b. record { x0 = b.x0; x1 = b.x1; y0 = b.y0; y1 = b.y1; s0 = b.s0; s1 = b.s1; d0 = b.d0; d1 = b.d1 } };

    ghost invariant = { λ a. IsOct (record { x0 = a.x0; x1 = a.x1; y0 = a.y0; y1 = a.y1; s0 = a.s0; s1 = a.s1; d0 = a.d0; d1 = a.d1 }) };
}

// The bounds. Each call also hands out what every octagon is, so that a caller can prove ranges.
impl Oct {
    /// The least x.
    pub fn x0(&self) -> i64
        ensures value { result ≡ self.now.x0 }
        ensures oct { IsOct self.now }
    {
        self.x0
    }

    /// The greatest x.
    pub fn x1(&self) -> i64
        ensures value { result ≡ self.now.x1 }
        ensures oct { IsOct self.now }
    {
        self.x1
    }

    /// The least y.
    pub fn y0(&self) -> i64
        ensures value { result ≡ self.now.y0 }
        ensures oct { IsOct self.now }
    {
        self.y0
    }

    /// The greatest y.
    pub fn y1(&self) -> i64
        ensures value { result ≡ self.now.y1 }
        ensures oct { IsOct self.now }
    {
        self.y1
    }

    /// The least x + y.
    pub fn s0(&self) -> i64
        ensures value { result ≡ self.now.s0 }
        ensures oct { IsOct self.now }
    {
        self.s0
    }

    /// The greatest x + y.
    pub fn s1(&self) -> i64
        ensures value { result ≡ self.now.s1 }
        ensures oct { IsOct self.now }
    {
        self.s1
    }

    /// The least x - y.
    pub fn d0(&self) -> i64
        ensures value { result ≡ self.now.d0 }
        ensures oct { IsOct self.now }
    {
        self.d0
    }

    /// The greatest x - y.
    pub fn d1(&self) -> i64
        ensures value { result ≡ self.now.d1 }
        ensures oct { IsOct self.now }
    {
        self.d1
    }
}
