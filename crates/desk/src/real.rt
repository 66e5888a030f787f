// The real outside. It tells neither contents nor room.
ghost use Rattle.std.specs.Prelude.{◌≡◌, ◌≤◌, length, None, IfOk};
ghost use Rattle.desk.specs.Faults.{no_faults};
ghost use Rattle.std.proofs.Common.{rules};

use crate::{Counts, Desk, Failed};
use std::fs;
use std::fs::OpenOptions;
use std::io::{self, Read, Seek, SeekFrom, Write};
use std::rt::Files;

/// Files, standard output and standard error of the system.
///
/// No clause says what they hold or take: this type is trusted. It counts its faults.
#[derive(Drop)]
pub struct RealDesk<'a, R: Files + Print + Eprint> {
    rt: &'a R,
    counts: Counts,
}

impl<'a, R: Files + Print + Eprint> RealDesk<'a, R> {
    /// A desk over this runtime, with no faults yet. It takes no memory.
    pub fn new(rt: &'a R) -> Self
        ensures { result.counts ≡ no_faults }
    {
        RealDesk {
            rt,
            counts: Counts {
                reading: 0,
                writing: 0,
                saying: 0,
                complaining: 0,
            },
        }
    }
}

/// Some bytes of a file from a place on. The file is opened and closed in each call.
fn read_some<R: Files>(rt: &R, name: &str, from: u64, into: &mut [u8]) -> io::Result<usize>
    ensures { IfOk result (λ n. n ≤ length into.new) }
{
    let mut file = fs::open(rt, name)?;
    file.seek(SeekFrom::Start(from))?;
    file.read(into)
}

/// Some first bytes at the end of a file.
fn append_some<R: Files>(rt: &R, name: &str, bytes: &[u8]) -> io::Result<usize>
    ensures { IfOk result (λ n. n ≤ length bytes.now) }
{
    let mut file = OpenOptions::new().append(true).create(true).open(rt, name)?;
    file.write(bytes)
}

/// All bytes to standard error, or none: standard error takes text.
fn complain_all<R: Eprint>(rt: &R, bytes: &[u8]) -> Result<(), Failed> {
    let Ok(text) = str::from_utf8(bytes) else {
        return Err(Failed);
    };
    rt.eprint(text).map_err(|_| Failed)
}

impl<'a, R: Files + Print + Eprint> Desk for RealDesk<'a, R> {
    ghost seen = { λ _. None };

    ghost counts = { λ d. d.counts };

    ghost room = { λ _. None };

    ghost room_is_told = { Prim.search rules };

    fn read_at(&mut self, name: &str, from: u64, into: &mut [u8]) -> Result<usize, Failed> {
        match read_some(self.rt, name, from, into) {
            Ok(count) => Ok(count),
            Err(_) => {
                self.counts.reading = self.counts.reading.saturating_add(1);
                Err(Failed)
            }
        }
    }

    fn create(&mut self, name: &str) -> Result<(), Failed> {
        match fs::create(self.rt, name) {
            Ok(_) => Ok(()),
            Err(_) => {
                self.counts.writing = self.counts.writing.saturating_add(1);
                Err(Failed)
            }
        }
    }

    fn append(&mut self, name: &str, bytes: &[u8]) -> Result<usize, Failed> {
        match append_some(self.rt, name, bytes) {
            Ok(count) if count > 0 || bytes.is_empty() => Ok(count),
            _ => {
                self.counts.writing = self.counts.writing.saturating_add(1);
                Err(Failed)
            }
        }
    }

    fn say(&mut self, bytes: &[u8]) -> Result<usize, Failed> {
        match self.rt.write_some(bytes) {
            Ok(count) if count > 0 || bytes.is_empty() => Ok(count),
            _ => {
                self.counts.saying = self.counts.saying.saturating_add(1);
                Err(Failed)
            }
        }
    }

    fn complain(&mut self, bytes: &[u8]) -> Result<usize, Failed> {
        match complain_all(self.rt, bytes) {
            Ok(()) => Ok(bytes.len()),
            Err(Failed) => {
                self.counts.complaining = self.counts.complaining.saturating_add(1);
                Err(Failed)
            }
        }
    }
}
