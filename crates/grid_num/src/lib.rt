//! Whole numbers on the grid: lengths, points, and the two roundings that geometry rests on.
//! The layer above uses the values as stated: what a length's spelling means, the least whole numbers that reach.
//! A length is in nanometres; a point has the unit that its user names.
#![tactic(auto)]

ghost use Rattle.std.specs.Prelude.{◌≡◌, ℕ, ◌*◌, ◌+◌, ◌^◌, ◌≤◌, ℤ, pos, ◌+ℤ◌, ◌*ℤ◌, ◌≤ℤ◌, ◌<ℤ◌, neg_ℤ};
ghost use Rattle.grid_num.specs.Roots.{up2_of, IsUp2};

mod area;
mod memory;
mod nm;
mod read;
mod write;

pub use area::{one_area, one_area_fault, read_area};
pub use memory::Memory;
pub use nm::Nm;
pub use read::{
    NumFault, fraction_of, one_fault, one_length, one_spelling, place, read_mm, starts_with,
    whole_of,
};
pub use write::{MmText, shortest_spelling, write_mm};

/// A plain pair of whole numbers. Each user says its unit.
#[derive(Clone, Copy, PartialEq, Eq, Debug)]
pub struct Point {
    pub x: i64,
    pub y: i64,
}

/// The least m with `m * m >= 2 * a * a`: the reach along the diagonals of the octagon round a disc of radius a.
pub fn up2(a: u64) -> u64
    requires { a ≤ 2 ^ 31 }
    ensures { result ≡ up2_of a }
{
    let square = 2 * (a * a);
    let root = square.isqrt();
    if root * root == square {
        root
    } else {
        root + 1
    }
}

/// The reach of a disc of radius a along x + y is the least number whose square is at least `2 * a * a`.
pub fn up2_law()
    ensures { (a : ℕ) → IsUp2 a (up2_of a) }
{}

/// The least m with `m * d >= a`.
pub fn ceil_div(a: i64, d: i64) -> i64
    requires { pos 0 <ℤ d }
    ensures reaches { a ≤ℤ (result *ℤ d) }
    ensures least { (m : ℤ) → a ≤ℤ (m *ℤ d) → result ≤ℤ m }
{
    let quotient = a / d;
    if a % d > 0 { quotient + 1 } else { quotient }
}
