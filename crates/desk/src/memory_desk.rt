// A desk in memory, which tells everything and fails where it is told to.
ghost use Rattle.std.specs.Prelude.{◌≡◌, ◌<◌, ◌-◌, ◌+◌, ◌++◌, ◌==◌, ◌&&◌, not, min, List, [], take, drop, length, Some, None, is_some, is_ok, refl, option_copied, if◌then◌else◌, IsTrue, IsErr, IfOk, OnOk, OnErr};
ghost use Rattle.std.specs.List.{list_any};
ghost use Rattle.std.specs.List.Sorted.{IsStrictlyIncreasing};
ghost use Rattle.std.specs.FinMap.{get};
ghost use Rattle.desk.specs.Seen.{ReadsFrom, nothing, content, with_file, appended, with_said, with_complained};
ghost use Rattle.desk.specs.Faults.{HasCause, no_faults};
ghost use Rattle.desk.specs.Memory.{raised, is_listed, done, failed, refused, reading_raised, writing_raised, saying_raised, complaining_raised};

use crate::folder::Folder;
use crate::pieces::{copy_some, first_of};
use crate::{Counts, Desk, Failed};
use grid_num::Memory;
use std::alloc::Global;
use std::marker::Model;

/// A desk in memory.
///
/// Its calls are numbered from 1, and those of given numbers fail. A call fails otherwise only where it reads a name that
/// isn't there or wanted memory, which `starved` counts. A counter at its last value stays there.
#[derive(Drop)]
pub struct MemoryDesk {
    folder: Folder,
    said: Vec<u8>,
    complained: Vec<u8>,
    step: usize,
    failing: Vec<u64>,
    calls: u64,
    starved: u64,
    faults: Counts,
}

impl Model for MemoryDesk {
    ghost use Rattle.std.specs.Prelude.{◌<◌};
    ghost use Rattle.std.specs.List.Sorted.{IsStrictlyIncreasing};
    ghost use Rattle.desk.specs.Memory.{MemoryState, memory_code};

    ghost Value = { MemoryState };

    ghost coded = { memory_code };

    ghost view = { λ d. record {
      seen = record { files = d.folder; said = d.said.items; complained = d.complained.items };
      step = d.step;
      failing = d.failing.items;
      calls = d.calls;
      starved = d.starved;
      faults = d.faults;
    } };

    ghost invariant = { λ d. (0 < d.step) × IsStrictlyIncreasing d.failing.items };
}

/// One more fault.
fn fail(count: &mut u64) -> Failed
    ensures { count.new ≡ raised count.old }
{
    *count = count.saturating_add(1);
    Failed
}

/// One more fault, by want of memory.
fn starve(starved: &mut u64, count: &mut u64) -> Failed
    ensures starved { starved.new ≡ raised starved.old }
    ensures count { count.new ≡ raised count.old }
{
    *starved = starved.saturating_add(1);
    fail(count)
}

/// Counts a call, and says whether it is one that is to fail.
fn count_call(failing: &[u64], calls: &mut u64) -> bool
    requires { IsStrictlyIncreasing failing.now }
    ensures counted { calls.new ≡ raised calls.old }
    ensures listed { result ≡ list_any (λ n. n == calls.new) failing.now }
{
    *calls = calls.saturating_add(1);
    failing.binary_search(&*calls).is_ok()
}

impl MemoryDesk {
    /// A desk without names, whose calls take and give at most `step` bytes and fail at these numbers, which ascend.
    pub fn new(alloc: Global, step: usize, failing: &[u64]) -> Result<Self, Memory>
        requires step { 0 < step }
        requires ascend { IsStrictlyIncreasing failing.now }
        ensures { IfOk result (λ d. d
            ≡ record {
              seen = nothing;
              step = step;
              failing = failing.now;
              calls = 0;
              starved = 0;
              faults = no_faults;
            }) }
    {
        let failing = Vec::from_slice(alloc, failing)?;
        Ok(MemoryDesk {
            folder: Folder::new(alloc),
            said: Vec::new(alloc),
            complained: Vec::new(alloc),
            step,
            failing,
            calls: 0,
            starved: 0,
            faults: Counts {
                reading: 0,
                writing: 0,
                saying: 0,
                complaining: 0,
            },
        })
    }

    /// Puts bytes in place of the contents of a name. This is no numbered call, and refused it leaves the desk as it was.
    pub fn put(&mut self, name: &str, bytes: &[u8]) -> Result<(), Memory>
        ensures ok { OnOk result
            (self.new ≡ record self.old { seen = with_file name.now bytes.now self.old.seen }) }
        ensures err { OnErr result (self.new ≡ self.old) }
    {
        self.folder.put(name, bytes)?;
        Ok(())
    }

    /// The contents of a name, or None where it isn't there.
    pub fn contents(&self, name: &str) -> Option<&[u8]>
        ensures { option_copied result ≡ get self.now.seen.files name.now }
    {
        self.folder.get(name)
    }

    /// The bytes that were said.
    pub fn said(&self) -> &[u8]
        ensures { result.now ≡ self.now.seen.said }
    {
        self.said.as_slice()
    }

    /// The bytes that were complained.
    pub fn complained(&self) -> &[u8]
        ensures { result.now ≡ self.now.seen.complained }
    {
        self.complained.as_slice()
    }

    /// How many calls were made.
    pub fn calls(&self) -> u64
        ensures { result ≡ self.now.calls }
    {
        self.calls
    }

    /// How many calls wanted memory for the desk's own vectors.
    pub fn starved(&self) -> u64
        ensures { result ≡ self.now.starved }
    {
        self.starved
    }

    /// How often calls of each kind have failed.
    pub fn faults(&self) -> Counts
        ensures { result ≡ self.now.faults }
    {
        self.faults
    }
}

impl Desk for MemoryDesk {
    ghost seen = { λ d. Some d.seen };

    ghost counts = { λ d. d.faults };

    ghost room = { λ _. None };

    ghost room_is_told = { λ _ _ _. refl };

    /// It fails exactly where its number is listed or the name isn't there, and takes no memory. It gives the least of the
    /// step, the length of `into` and the bytes that are left, and leaves the rest of `into`.
    fn read_at(&mut self, name: &str, from: u64, into: &mut [u8]) -> Result<usize, Failed>
        requires { 0 < length into.old }
        ensures answered { is_ok result
            ≡ (not (is_listed self.old) && is_some (get self.old.seen.files name.now)) }
        ensures count { IfOk result (λ n. n ≡ min (min self.old.step (length into.old))
            (length (content name.now self.old.seen) - from)) }
        ensures filled { IfOk result (λ n. into.new
            ≡ take n (drop from (content name.now self.old.seen)) ++ drop n into.old) }
        ensures untouched { OnErr result (into.new ≡ into.old) }
        ensures after { self.new
            ≡ (if is_ok result then done (λ s. s) self.old else failed reading_raised self.old) }
        ensures bytes { IfOk result (ReadsFrom (Some self.old.seen) name.now from into.new) }
        ensures cause { HasCause self.old.faults.reading self.new.faults.reading result }
    {
        if count_call(&self.failing, &mut self.calls) {
            return Err(fail(&mut self.faults.reading));
        }
        match self.folder.get(name) {
            Some(bytes) => Ok(copy_some(bytes, from, self.step, into)),
            None => Err(fail(&mut self.faults.reading)),
        }
    }

    /// It fails exactly where its number is listed or it wanted memory.
    fn create(&mut self, name: &str) -> Result<(), Failed>
        ensures done { OnOk result (self.new ≡ done (with_file name.now []) self.old) }
        ensures listed { IsTrue (is_listed self.old) → IsErr result }
        ensures refused { OnErr result (self.new ≡ refused writing_raised self.old) }
        ensures cause { HasCause self.old.faults.writing self.new.faults.writing result }
    {
        if count_call(&self.failing, &mut self.calls) {
            return Err(fail(&mut self.faults.writing));
        }
        match self.folder.clear(name) {
            Ok(()) => Ok(()),
            Err(_) => Err(starve(&mut self.starved, &mut self.faults.writing)),
        }
    }

    /// It fails exactly where its number is listed or it wanted memory, and takes the least of the step and the piece's length.
    fn append(&mut self, name: &str, bytes: &[u8]) -> Result<usize, Failed>
        ensures count { IfOk result (λ n. n ≡ min self.old.step (length bytes.now)) }
        ensures done { IfOk result
            (λ n. self.new ≡ done (appended name.now (take n bytes.now)) self.old) }
        ensures listed { IsTrue (is_listed self.old) → IsErr result }
        ensures refused { OnErr result (self.new ≡ refused writing_raised self.old) }
        ensures some { IfOk result (λ n. 0 < length bytes.now → 0 < n) }
        ensures cause { HasCause self.old.faults.writing self.new.faults.writing result }
    {
        if count_call(&self.failing, &mut self.calls) {
            return Err(fail(&mut self.faults.writing));
        }
        let piece = first_of(bytes, self.step);
        match self.folder.append(name, piece) {
            Ok(()) => Ok(piece.len()),
            Err(_) => Err(starve(&mut self.starved, &mut self.faults.writing)),
        }
    }

    /// It fails exactly where its number is listed or it wanted memory, and takes the least of the step and the piece's length.
    fn say(&mut self, bytes: &[u8]) -> Result<usize, Failed>
        ensures count { IfOk result (λ n. n ≡ min self.old.step (length bytes.now)) }
        ensures done { IfOk result (λ n. self.new ≡ done (with_said (take n bytes.now)) self.old) }
        ensures listed { IsTrue (is_listed self.old) → IsErr result }
        ensures refused { OnErr result (self.new ≡ refused saying_raised self.old) }
        ensures some { IfOk result (λ n. 0 < length bytes.now → 0 < n) }
        ensures cause { HasCause self.old.faults.saying self.new.faults.saying result }
    {
        if count_call(&self.failing, &mut self.calls) {
            return Err(fail(&mut self.faults.saying));
        }
        let piece = first_of(bytes, self.step);
        match self.said.extend_from_slice(piece) {
            Ok(()) => Ok(piece.len()),
            Err(_) => Err(starve(&mut self.starved, &mut self.faults.saying)),
        }
    }

    /// It fails exactly where its number is listed or it wanted memory, and takes the least of the step and the piece's length.
    fn complain(&mut self, bytes: &[u8]) -> Result<usize, Failed>
        ensures count { IfOk result (λ n. n ≡ min self.old.step (length bytes.now)) }
        ensures done { IfOk result
            (λ n. self.new ≡ done (with_complained (take n bytes.now)) self.old) }
        ensures listed { IsTrue (is_listed self.old) → IsErr result }
        ensures refused { OnErr result (self.new ≡ refused complaining_raised self.old) }
        ensures some { IfOk result (λ n. 0 < length bytes.now → 0 < n) }
        ensures cause { HasCause self.old.faults.complaining self.new.faults.complaining result }
    {
        if count_call(&self.failing, &mut self.calls) {
            return Err(fail(&mut self.faults.complaining));
        }
        let piece = first_of(bytes, self.step);
        match self.complained.extend_from_slice(piece) {
            Ok(()) => Ok(piece.len()),
            Err(_) => Err(starve(&mut self.starved, &mut self.faults.complaining)),
        }
    }
}
