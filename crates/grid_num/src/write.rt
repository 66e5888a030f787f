// Writes a length in millimetres.
ghost use Rattle.std.specs.Prelude.{◌≡◌, ℕ, ℤ, suc, ◌+◌, ◌*◌, ◌^◌, ◌<◌, ◌≤◌, ◌++◌, ◌∷◌, [], length, decimal};
ghost use Rattle.grid_num.specs.Length.{IsInRange};
ghost use Rattle.grid_num.specs.Written.{mm_of, with_point, last_places, IsShortest};

use crate::nm::Nm;
use std::marker::Model;

/// The bytes of a longest length, as `-499.999999`.
const ROOM: usize = 11;

/// Room for the text of one length. It takes no memory. Contracts see the text.
#[derive(Drop)]
pub struct MmText {
    room: [u8; ROOM],
    len: usize,
}

impl Model for MmText {
    ghost use Rattle.std.specs.Prelude.{List, ℕ, take, ◌≤◌};

    ghost Value = { List ℕ };

    ghost view = { λ s. take s.len s.room };

    ghost invariant = { λ s. s.len ≤ 11 };
}

impl MmText {
    /// An empty text.
    pub fn new() -> MmText
        ensures { result ≡ [] }
    {
        MmText {
            room: [0; ROOM],
            len: 0,
        }
    }

    /// The text.
    pub fn bytes(&self) -> &[u8]
        ensures { result.now ≡ self.now }
    {
        &self.room[..self.len]
    }

    fn clear(&mut self)
        ensures { self.new ≡ [] }
    {
        self.len = 0;
    }

    fn put(&mut self, byte: u8)
        requires { length self.old < 11 }
        ensures { self.new ≡ self.old ++ byte ∷ [] }
    {
        self.room[self.len] = byte;
        self.len += 1;
    }
}

fn put_digit(digit: u64, into: &mut MmText)
    requires digit { digit < 10 }
    requires room { length into.old < 11 }
    ensures { into.new ≡ into.old ++ (48 + digit) ∷ [] }
{
    into.put(b'0' + digit as u8);
}

fn put_whole(n: u64, into: &mut MmText)
    requires small { n < 1000 }
    requires room { length into.old ≤ 8 }
    ensures text { into.new ≡ into.old ++ decimal n }
    ensures room { length into.new ≤ length into.old + 3 }
{
    if n >= 100 {
        put_digit(n / 100, into);
    }
    if n >= 10 {
        put_digit(n / 10 % 10, into);
    }
    put_digit(n % 10, into);
}

/// Writes the next place of what is left, unless nothing is, and says what is then left.
fn put_place(left: u64, unit: u64, into: &mut MmText) -> u64
    requires unit { 0 < unit }
    requires left { left < 10 * unit }
    requires room { length into.old < 11 }
    ensures left { result < unit }
    ensures text { (k : ℕ) → unit ≡ 10 ^ k
        → into.new ++ last_places k result ≡ into.old ++ last_places (suc k) left }
    ensures room { length into.new ≤ length into.old + 1 }
{
    if left > 0 {
        put_digit(left / unit, into);
    }
    left % unit
}

fn put_places(millionths: u64, into: &mut MmText)
    requires small { millionths < 1000000 }
    requires room { length into.old ≤ 4 }
    ensures { into.new ≡ into.old ++ with_point millionths }
{
    if millionths == 0 {
        return;
    }
    into.put(b'.');
    let left = put_place(millionths, 100_000, into);
    let left = put_place(left, 10_000, into);
    let left = put_place(left, 1_000, into);
    let left = put_place(left, 100, into);
    let left = put_place(left, 10, into);
    put_place(left, 1, into);
}

/// The written length is the shortest of the spellings that have a digit before the point, and no other is as short.
pub fn shortest_spelling()
    ensures { (nm : ℤ) → IsInRange nm → IsShortest (mm_of nm) nm }
{}

/// Writes so many nanometres into an empty text.
fn put_length(nm: i64, into: &mut MmText)
    requires range { IsInRange nm }
    requires empty { into.old ≡ [] }
    ensures { into.new ≡ mm_of nm }
{
    if nm < 0 {
        into.put(b'-');
    }
    let size = nm.unsigned_abs();
    put_whole(size / 1_000_000, into);
    put_places(size % 1_000_000, into);
}

/// Writes a length in millimetres, in place of what the text was: its shortest spelling with a digit before the point.
/// It is read as the same length.
pub fn write_mm(value: Nm, into: &mut MmText)
    ensures text { into.new ≡ mm_of value }
    ensures shortest { IsShortest into.new value }
{
    into.clear();
    put_length(value.get(), into);
}
