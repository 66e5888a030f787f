// A desk in memory that was reserved before, whose calls never fail.
ghost use Rattle.std.specs.Prelude.{◌≡◌, ◌<◌, ◌≤◌, ◌-◌, ◌+◌, ◌++◌, min, List, [], take, drop, length, Some, Ok, refl, option_copied, IsOk, IfOk, OnOk, OnErr};
ghost use Rattle.std.specs.FinMap.{get};
ghost use Rattle.desk.specs.Seen.{ReadsFrom, nothing, content, with_file, appended, with_said, with_complained};
ghost use Rattle.desk.specs.Room.{cost_in};
ghost use Rattle.desk.specs.Faults.{no_faults};
ghost use Rattle.desk.specs.Never.{spent};

use crate::arena::Arena;
use crate::pieces::{copy_some, first_of, push_all};
use crate::{Desk, Failed};
use grid_num::Memory;
use std::alloc::Global;
use std::marker::Model;

/// A desk in memory whose calls never fail.
///
/// It reserves the memory for all that its room allows when it is made, so its five calls take none. Each byte that is
/// taken, and each of a name that is made, lowers the room by one.
#[derive(Drop)]
pub struct NeverFails {
    arena: Arena,
    said: Vec<u8>,
    complained: Vec<u8>,
    step: usize,
}

impl Model for NeverFails {
    ghost use Rattle.std.specs.Prelude.{◌<◌, ◌≤◌, ◌+◌, vec_len, vec_capacity};
    ghost use Rattle.desk.specs.Never.{NeverState, never_code};

    ghost Value = { NeverState };

    ghost coded = { never_code };

    ghost view = { λ d. record {
      seen = record { files = d.arena.files; said = d.said.items; complained = d.complained.items };
      step = d.step;
      room = d.arena.room;
    } };

    ghost invariant = { λ d. (0 < d.step)
        × (vec_len d.said + d.arena.room ≤ vec_capacity d.said)
        × (vec_len d.complained + d.arena.room ≤ vec_capacity d.complained) };
}

impl NeverFails {
    /// A desk without names, whose calls take and give at most `step` bytes, with room for `room` bytes.
    pub fn new(alloc: Global, step: usize, room: usize) -> Result<Self, Memory>
        requires { 0 < step }
        ensures { IfOk result (λ d. d ≡ record { seen = nothing; step = step; room = room }) }
    {
        let arena = Arena::new(alloc, room)?;
        let said = Vec::with_capacity(alloc, room)?;
        let complained = Vec::with_capacity(alloc, room)?;
        Ok(NeverFails {
            arena,
            said,
            complained,
            step,
        })
    }

    /// Puts bytes in place of the contents of a name, and leaves the room as it was. Refused it leaves the desk as it was.
    pub fn put(&mut self, name: &str, bytes: &[u8]) -> Result<(), Memory>
        ensures ok { OnOk result
            (self.new ≡ record self.old { seen = with_file name.now bytes.now self.old.seen }) }
        ensures err { OnErr result (self.new ≡ self.old) }
    {
        self.arena.put(name, bytes)?;
        Ok(())
    }

    /// The contents of a name, or None where it isn't there.
    pub fn contents(&self, name: &str) -> Option<&[u8]>
        ensures { option_copied result ≡ get self.now.seen.files name.now }
    {
        self.arena.get(name)
    }

    /// The bytes that were said.
    pub fn said(&self) -> &[u8]
        ensures { result.now ≡ self.now.seen.said }
    {
        self.said.as_slice()
    }

    /// The bytes that were complained.
    pub fn complained(&self) -> &[u8]
        ensures { result.now ≡ self.now.seen.complained }
    {
        self.complained.as_slice()
    }

    /// How many bytes may still be taken.
    pub fn room(&self) -> usize
        ensures { result ≡ self.now.room }
    {
        self.arena.room()
    }
}

impl Desk for NeverFails {
    ghost seen = { λ d. Some d.seen };

    ghost counts = { λ _. no_faults };

    ghost room = { λ d. Some d.room };

    ghost room_is_told = { λ _ _ _. refl };

    /// It gives the least of the step, the length of `into` and the bytes that are left, and leaves the rest of `into`. Of a
    /// name that isn't there it gives 0.
    fn read_at(&mut self, name: &str, from: u64, into: &mut [u8]) -> Result<usize, Failed>
        requires { 0 < length into.old }
        ensures given { result ≡ Ok (min (min self.old.step (length into.old))
            (length (content name.now self.old.seen) - from)) }
        ensures filled { IfOk result (λ n. into.new
            ≡ take n (drop from (content name.now self.old.seen)) ++ drop n into.old) }
        ensures after { self.new ≡ self.old }
        ensures bytes { IfOk result (ReadsFrom (Some self.old.seen) name.now from into.new) }
    {
        let bytes = self.arena.get(name).unwrap_or(&[]);
        Ok(copy_some(bytes, from, self.step, into))
    }

    /// It never fails.
    fn create(&mut self, name: &str) -> Result<(), Failed>
        requires { cost_in self.old.seen.files name.now ≤ self.old.room }
        ensures done { IsOk result }
        ensures after { self.new
            ≡ spent (with_file name.now []) (cost_in self.old.seen.files name.now) self.old }
    {
        self.arena.clear(name);
        Ok(())
    }

    /// It takes the least of the step and the piece's length, and never fails.
    fn append(&mut self, name: &str, bytes: &[u8]) -> Result<usize, Failed>
        requires { cost_in self.old.seen.files name.now + length bytes.now ≤ self.old.room }
        ensures count { result ≡ Ok (min self.old.step (length bytes.now)) }
        ensures some { IfOk result (λ n. 0 < length bytes.now → 0 < n) }
        ensures after { IfOk result (λ n. self.new
            ≡ spent (appended name.now (take n bytes.now))
            (cost_in self.old.seen.files name.now + n) self.old) }
    {
        let piece = first_of(bytes, self.step);
        self.arena.append(name, piece);
        Ok(piece.len())
    }

    /// It takes the least of the step and the piece's length, and never fails.
    fn say(&mut self, bytes: &[u8]) -> Result<usize, Failed>
        requires { length bytes.now ≤ self.old.room }
        ensures count { result ≡ Ok (min self.old.step (length bytes.now)) }
        ensures some { IfOk result (λ n. 0 < length bytes.now → 0 < n) }
        ensures after { IfOk result
            (λ n. self.new ≡ spent (with_said (take n bytes.now)) n self.old) }
    {
        let piece = first_of(bytes, self.step);
        push_all(&mut self.said, piece);
        self.arena.spend(piece.len());
        Ok(piece.len())
    }

    /// It takes the least of the step and the piece's length, and never fails.
    fn complain(&mut self, bytes: &[u8]) -> Result<usize, Failed>
        requires { length bytes.now ≤ self.old.room }
        ensures count { result ≡ Ok (min self.old.step (length bytes.now)) }
        ensures some { IfOk result (λ n. 0 < length bytes.now → 0 < n) }
        ensures after { IfOk result
            (λ n. self.new ≡ spent (with_complained (take n bytes.now)) n self.old) }
    {
        let piece = first_of(bytes, self.step);
        push_all(&mut self.complained, piece);
        self.arena.spend(piece.len());
        Ok(piece.len())
    }
}
