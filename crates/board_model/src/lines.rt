// The lines of places in a text.
ghost use Rattle.std.specs.Prelude.{◌≡◌, ◌+◌, ◌≤◌, length};
ghost use Rattle.board_text.specs.Items.{line_of};

use std::marker::Model;

/// The lines of places in a text, which are best asked for in rising order. Contracts see the text.
#[derive(Drop)]
pub struct Lines<'a> {
    bytes: &'a [u8],
    at: usize,
    line: u64,
}

impl<'a> Model for Lines<'a> {
    ghost use Rattle.std.specs.Prelude.{◌≡◌, ◌+◌, ◌≤◌, ℕ, List, length};
    ghost use Rattle.board_text.specs.Items.{line_of};

    ghost Value = { List ℕ };

    ghost view = { λ l. l.bytes.now };

    ghost invariant = { λ l. (l.at ≤ length l.bytes.now) × (l.line ≡ line_of l.bytes.now l.at) × (l.line ≤ l.at + 1) };
}

impl<'a> Lines<'a> {
    /// The lines of this text.
    pub fn of(bytes: &'a [u8]) -> Lines<'a>
        ensures { result ≡ bytes.now }
    {
        Lines {
            bytes,
            at: 0,
            line: 1,
        }
    }

    /// The line of a place, from 1.
    pub fn line_of(&mut self, place: usize) -> u64
        ensures line { result ≡ line_of self.old place }
        ensures same { self.new ≡ self.old }
    {
        let end = place_within(self.bytes, place);
        let line = if end < self.at {
            first_lines(self.bytes, end)
        } else {
            line_behind(self.bytes, self.at, end, self.line)
        };
        self.at = end;
        self.line = line;
        line
    }
}

/// The place, or the end of the text where it lies behind that: both are on one line.
#[tactic(auto, unfolding(board_text::specs::Items::line_of))]
fn place_within(bytes: &[u8], place: usize) -> usize
    ensures most { result ≤ length bytes.now }
    ensures line { line_of bytes.now result ≡ line_of bytes.now place }
{
    if place < bytes.len() {
        place
    } else {
        bytes.len()
    }
}

/// The line of a place, counted from the front.
#[tactic(auto, unfolding(board_text::specs::Items::line_of))]
fn first_lines(bytes: &[u8], to: usize) -> u64
    requires { to ≤ length bytes.now }
    ensures value { result ≡ line_of bytes.now to }
    ensures most { result ≤ to + 1 }
{
    line_behind(bytes, 0, to, 1)
}

/// The line of a place, where that of a place before it is known.
fn line_behind(bytes: &[u8], from: usize, to: usize, line: u64) -> u64
    requires order { from ≤ to }
    requires within { to ≤ length bytes.now }
    requires line { line ≡ line_of bytes.now from }
    requires most { line ≤ from + 1 }
    ensures value { result ≡ line_of bytes.now to }
    ensures most { result ≤ to + 1 }
{
    let mut line = line;
    'each: for place in from..to {
        if bytes[place] == b'\n' {
            line += 1;
        }
    }
    line
}
