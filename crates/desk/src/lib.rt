//! The outside: files by name, standard output and standard error, with counts of their faults.
//! The layer above calls a `Desk` and may use what it tells, its counts and its room; `MemoryDesk`, `NeverFails` and
//! `RealDesk` are the three kinds; `read_all`, `write_all`, `say_all` and `complain_all` are for whole files and lines. All lengths and
//! places are in bytes.
#![tactic(auto)]

ghost use Rattle.std.specs.Prelude.{◌≡◌, ◌+◌, ◌<◌, ◌≤◌, ℕ, List, [], length, take, Option, Some, IsSome, IfOk, OnOk, OnErr};
ghost use Rattle.desk.specs.declared.Counts.{Counts};
ghost use Rattle.desk.specs.Seen.{Seen, Changes, ReadsFrom, with_file, appended, with_said, with_complained};
ghost use Rattle.desk.specs.Faults.{HasCause, TakesSome, OnlyReading, OnlyWriting, OnlySaying, OnlyComplaining};
ghost use Rattle.desk.specs.Room.{cost_of, HasRoomTold, Spends};

mod arena;
mod folder;
mod memory_desk;
mod never_fails;
mod pieces;
mod real;
mod whole_files;

pub use memory_desk::MemoryDesk;
pub use never_fails::NeverFails;
pub use real::RealDesk;
pub use whole_files::{MOST, ReadStop, complain_all, read_all, say_all, write_all};

/// A call of a desk failed.
#[derive(Clone, Copy, Debug, PartialEq, Eq)]
pub struct Failed;

/// How often calls of each kind have failed. A count that reached its last value stays there.
#[derive(Clone, Copy, Debug, PartialEq, Eq)]
pub struct Counts {
    /// Faults of `read_at`.
    pub reading: u64,
    /// Faults of `create` and `append`.
    pub writing: u64,
    /// Faults of `say`.
    pub saying: u64,
    /// Faults of `complain`.
    pub complaining: u64,
}

/// The outside as a program sees it.
///
/// A desk may tell what it holds, and it may tell its room, the bytes that it will still take. Whether it tells these never
/// changes. A call fails only where the count of its own kind rose in it, and a failed call changes nothing that is told.
pub trait Desk {
    /// The contents by name, the said and the complained bytes, where it tells them.
    ghost seen: { Self → Option Seen };

    /// How often it has failed.
    ghost counts: { Self → Counts };

    /// The bytes that it will still take, where it tells them.
    ghost room: { Self → Option ℕ };

    /// Reads some bytes of a name, from a place on, into the front of `into`. It gives 0 only where the place isn't before
    /// their end. Of a name that isn't there it fails or gives 0.
    fn read_at(&mut self, name: &str, from: u64, into: &mut [u8]) -> Result<usize, Failed>
        requires { 0 < length into.old }
        ensures within { IfOk result (λ n. n ≤ length into.new) }
        ensures bytes { IfOk result (ReadsFrom (seen self.old) name.now from into.new) }
        ensures seen { seen self.new ≡ seen self.old }
        ensures room { room self.new ≡ room self.old }
        ensures cause { HasCause (counts self.old).reading (counts self.new).reading result }
        ensures others { OnlyReading (counts self.old) (counts self.new) };

    /// Makes the contents of a name empty, and the name where it isn't there.
    fn create(&mut self, name: &str) -> Result<(), Failed>
        requires { HasRoomTold (room self.old) (cost_of (seen self.old) name.now) }
        ensures ok { OnOk result (Changes (seen self.old) (seen self.new) (with_file name.now [])) }
        ensures err { OnErr result (seen self.new ≡ seen self.old) }
        ensures spent { OnOk result
            (Spends (room self.old) (room self.new) (cost_of (seen self.old) name.now)) }
        ensures unspent { OnErr result (room self.new ≡ room self.old) }
        ensures cause { HasCause (counts self.old).writing (counts self.new).writing result }
        ensures others { OnlyWriting (counts self.old) (counts self.new) };

    /// Adds as many first bytes of the piece as it answers to the contents of a name. It makes a name that isn't there.
    fn append(&mut self, name: &str, bytes: &[u8]) -> Result<usize, Failed>
        requires { HasRoomTold (room self.old) (cost_of (seen self.old) name.now + length bytes.now) }
        ensures within { IfOk result (λ n. n ≤ length bytes.now) }
        ensures ok { IfOk result
            (λ n. Changes (seen self.old) (seen self.new) (appended name.now (take n bytes.now))) }
        ensures err { OnErr result (seen self.new ≡ seen self.old) }
        ensures spent { IfOk result
            (λ n. Spends (room self.old) (room self.new) (cost_of (seen self.old) name.now + n)) }
        ensures unspent { OnErr result (room self.new ≡ room self.old) }
        ensures some { TakesSome (counts self.old).writing (counts self.new).writing
            (seen self.old) (seen self.new) bytes.now result }
        ensures cause { HasCause (counts self.old).writing (counts self.new).writing result }
        ensures others { OnlyWriting (counts self.old) (counts self.new) };

    /// Says as many first bytes of the piece as it answers.
    fn say(&mut self, bytes: &[u8]) -> Result<usize, Failed>
        requires { HasRoomTold (room self.old) (length bytes.now) }
        ensures within { IfOk result (λ n. n ≤ length bytes.now) }
        ensures ok { IfOk result
            (λ n. Changes (seen self.old) (seen self.new) (with_said (take n bytes.now))) }
        ensures err { OnErr result (seen self.new ≡ seen self.old) }
        ensures spent { IfOk result (Spends (room self.old) (room self.new)) }
        ensures unspent { OnErr result (room self.new ≡ room self.old) }
        ensures some { TakesSome (counts self.old).saying (counts self.new).saying
            (seen self.old) (seen self.new) bytes.now result }
        ensures cause { HasCause (counts self.old).saying (counts self.new).saying result }
        ensures others { OnlySaying (counts self.old) (counts self.new) };

    /// Complains as many first bytes of the piece as it answers.
    fn complain(&mut self, bytes: &[u8]) -> Result<usize, Failed>
        requires { HasRoomTold (room self.old) (length bytes.now) }
        ensures within { IfOk result (λ n. n ≤ length bytes.now) }
        ensures ok { IfOk result
            (λ n. Changes (seen self.old) (seen self.new) (with_complained (take n bytes.now))) }
        ensures err { OnErr result (seen self.new ≡ seen self.old) }
        ensures spent { IfOk result (Spends (room self.old) (room self.new)) }
        ensures unspent { OnErr result (room self.new ≡ room self.old) }
        ensures some { TakesSome (counts self.old).complaining (counts self.new).complaining
            (seen self.old) (seen self.new) bytes.now result }
        ensures cause { HasCause
            (counts self.old).complaining (counts self.new).complaining result }
        ensures others { OnlyComplaining (counts self.old) (counts self.new) };

    /// A desk that tells a room tells its contents too.
    ghost room_is_told: { (d : Self) (n : ℕ) → room d ≡ Some n → IsSome (seen d) };
}
