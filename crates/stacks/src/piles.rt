// Stacks that grow from band to band.
ghost use Rattle.std.specs.Prelude.{◌≡◌, ◌<◌, [], false, length, IsTrue, IsNone, IfOk, IfSome};
ghost use Rattle.plane.specs.Plane.{IsOct};
ghost use Rattle.stacks.specs.Inner.Piles.{IsPutTo};

use crate::joins::join;
use grid_num::Memory;
use octagon::Oct;
use std::alloc::Global;
use std::marker::Model;

// How many stacks of the band above are tried for a piece.
const TRIES: usize = 8;

// A stack that may go on: its place, and the greatest x of its last piece.
#[derive(Clone, Copy, Drop)]
pub struct Open {
    pub place: usize,
    pub end: i64,
}

// The stacks so far; those that went on in the band above and in this one, from left to right; how many of those above are passed by;
// and where this band begins. Contracts see the stacks: all else is a matter of speed.
#[derive(Drop)]
pub struct Piles {
    stacks: Vec<Oct>,
    above: Vec<Open>,
    here: Vec<Open>,
    passed: usize,
    row: i64,
}

impl Model for Piles {
    ghost use Rattle.std.specs.Prelude.{List};
    ghost use Rattle.plane.specs.Plane.{Bounds};

    ghost Value = { List Bounds };

    ghost view = { λ a. a.stacks.items };
}

impl Piles {
    // No stacks.
    pub fn new(alloc: Global) -> Piles
        ensures { result ≡ [] }
    {
        Piles {
            stacks: Vec::new(alloc),
            above: Vec::new(alloc),
            here: Vec::new(alloc),
            passed: 0,
            row: 0,
        }
    }

    // The stacks.
    pub fn into_stacks(self) -> Vec<Oct>
        ensures { result.items ≡ self }
    {
        self.stacks
    }

    // Puts the piece to a stack with which it makes one octagon, or begins a stack, and tells the stack's number. Refuses for
    // want of memory alone.
    pub fn put(&mut self, piece: &Oct) -> Result<usize, Memory>
        ensures put { IfOk result (λ place. IsPutTo self.old piece.now place self.new) }
        ensures oct { IfOk result (λ _. IsOct piece.now) }
    {
        self.turn_to(piece.y0());
        self.passed = first_reaching(&self.above, self.passed, piece.x0());
        match grow(&mut self.stacks, &self.above, self.passed, piece) {
            Some((i, place)) => {
                self.passed = i + 1;
                self.note(place, piece.x1())?;
                Ok(place)
            }
            None => self.begin(piece),
        }
    }

    // Begins a stack, and tells its number.
    fn begin(&mut self, piece: &Oct) -> Result<usize, Memory>
        ensures { IfOk result (λ place. IsPutTo self.old piece.now place self.new) }
    {
        let place = self.stacks.len();
        self.stacks.push(*piece)?;
        self.note(place, piece.x1())?;
        Ok(place)
    }

    // Notes that a stack may go on.
    fn note(&mut self, place: usize, end: i64) -> Result<(), Memory>
        ensures { self.new ≡ self.old }
    {
        self.here.push(Open { place, end })?;
        Ok(())
    }

    // Turns to the next band, where the row is another one.
    fn turn_to(&mut self, row: i64)
        ensures { self.new ≡ self.old }
    {
        if row != self.row {
            self.row = row;
            std::mem::swap(&mut self.above, &mut self.here);
            self.here.clear();
            self.passed = 0;
        }
    }
}

// The first of the open stacks whose last piece reaches so far to the right.
fn first_reaching(ways: &[Open], from: usize, start: i64) -> usize {
    'each: for i in from..ways.len() {
        if ways[i].end >= start {
            return i;
        }
    }
    ways.len()
}

// Puts the piece to one of the next open stacks, and tells to which, and that stack's number.
fn grow(stacks: &mut Vec<Oct>, ways: &[Open], from: usize, piece: &Oct) -> Option<(usize, usize)>
    ensures within { IfSome result (λ found. found.0 < length ways.now) }
    ensures put { IfSome result (λ found. IsPutTo stacks.old.items piece.now found.1 stacks.new.items) }
    ensures same { IsNone result → stacks.new.items ≡ stacks.old.items }
{
    'tries: for i in from..ways.len() {
        if i - from >= TRIES {
            return None;
        }
        let place = ways[i].place;
        if put_at(stacks, place, piece) {
            return Some((i, place));
        }
    }
    None
}

// Puts the piece to the stack at the place, where the two meet and make one octagon.
fn put_at(stacks: &mut Vec<Oct>, place: usize, piece: &Oct) -> bool
    ensures put { IsTrue result → IsPutTo stacks.old.items piece.now place stacks.new.items }
    ensures same { result ≡ false → stacks.new.items ≡ stacks.old.items }
{
    if place >= stacks.len() || !stacks[place].meets(piece) {
        return false;
    }
    match join(&stacks[place], piece) {
        Some(stack) => {
            stacks[place] = stack;
            true
        }
        None => false,
    }
}
