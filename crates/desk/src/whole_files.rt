// Whole files over a desk: reading one, making one, saying many lines, and complaining of one. What is told of the contents before and after
// stands in one clause a call, beside the count that tells a fault.
ghost use Rattle.std.specs.Prelude.{◌≡◌, ◌+◌, ◌<◌, ◌≤◌, ℕ, length, take, drop, Some, IfOk, IfErr, OnOk, IsErrOf};
ghost use Rattle.desk.specs.Seen.{Told, content, with_file, with_said, with_complained};
ghost use Rattle.desk.specs.Faults.{Rose, OnlyReading, OnlyWriting, OnlySaying, OnlyComplaining};
ghost use Rattle.desk.specs.Room.{cost_of, HasRoomTold, Spends};
ghost use Rattle.desk.specs.Whole.{IsCut, IsSaidShort, IsComplained};

use crate::{Desk, Failed};
use std::alloc::{AllocError, Global};

/// The most bytes that a file may have.
pub const MOST: usize = 67_108_864;

/// The most bytes that go in or out by one call.
const PIECE: usize = 65_536;

/// Why a file wasn't read.
#[derive(Clone, Copy, Debug, PartialEq, Eq)]
pub enum ReadStop {
    /// Want of memory.
    Memory,
    /// A call of the desk failed.
    Failed,
    /// It has more bytes than a file may have.
    TooLong,
}

impl From<AllocError> for ReadStop {
    ghost use Rattle.std.specs.Prelude.{◌≡◌};
    ghost use Rattle.desk.specs.declared.whole_files.ReadStop.TheVariants.{Memory};

    ghost from_gives = { λ _ e. e ≡ Memory };

    fn from(_: AllocError) -> Self {
        ReadStop::Memory
    }
}

impl From<Failed> for ReadStop {
    ghost use Rattle.std.specs.Prelude.{◌≡◌};
    ghost use Rattle.desk.specs.declared.whole_files.ReadStop.TheVariants.{Failed};

    ghost from_gives = { λ _ e. e ≡ Failed };

    fn from(_: Failed) -> Self {
        ReadStop::Failed
    }
}

/// All bytes of a name. It reads at most one byte more than a file may have.
pub fn read_all<D: Desk>(alloc: Global, name: &str, desk: &mut D) -> Result<Vec<u8>, ReadStop>
    ensures bytes { IfOk result (λ v. Told (D.seen desk.old) (λ s. v.items ≡ content name.now s)) }
    ensures within { IfOk result (λ v. length v.items ≤ 67108864) }
    ensures seen { D.seen desk.new ≡ D.seen desk.old }
    ensures room { D.room desk.new ≡ D.room desk.old }
    ensures failed { IsErrOf result ReadStop.Failed
        → Rose (D.counts desk.old).reading (D.counts desk.new).reading }
    ensures long { IsErrOf result ReadStop.TooLong
        → Told (D.seen desk.old) (λ s. 67108864 < length (content name.now s)) }
    ensures others { OnlyReading (D.counts desk.old) (D.counts desk.new) }
{
    let mut buffer = Vec::new(alloc);
    buffer.resize(PIECE, 0)?;
    let piece = buffer.as_mut_slice();
    let mut all: Vec<u8> = Vec::new(alloc);
    'reads: while all.len() <= MOST {
        let from = all.len() as u64;
        let size = (MOST + 1 - all.len()).min(PIECE);
        let part = &mut piece[..size];
        let count = desk.read_at(name, from, part)?;
        if count == 0 {
            return Ok(all);
        }
        all.extend_from_slice(&part[..count])?;
    }
    Err(ReadStop::TooLong)
}

/// The next bytes to go out.
fn piece_at(bytes: &[u8], given: usize) -> &[u8]
    requires { given < length bytes.now }
    ensures piece { (n : ℕ) → n ≤ length result.now
        → take n result.now ≡ take n (drop given bytes.now) }
    ensures some { 0 < length result.now }
    ensures within { given + length result.now ≤ length bytes.now }
{
    let size = (bytes.len() - given).min(PIECE);
    &bytes[given..given + size]
}

/// Makes a file of these bytes. An `Err` tells how many of them it has.
pub fn write_all<D: Desk>(name: &str, bytes: &[u8], desk: &mut D) -> Result<(), u64>
    requires { HasRoomTold (D.room desk.old) (cost_of (D.seen desk.old) name.now + length bytes.now) }
    ensures ok { OnOk result
        (Told (D.seen desk.old) (λ s. D.seen desk.new ≡ Some (with_file name.now bytes.now s))) }
    ensures cut { IfErr result (λ given. Told (D.seen desk.old)
        (λ s. IsCut name.now bytes.now given s (D.seen desk.new))) }
    ensures failed { IfErr result
        (λ given. Rose (D.counts desk.old).writing (D.counts desk.new).writing) }
    ensures spent { Spends (D.room desk.old) (D.room desk.new)
        (cost_of (D.seen desk.old) name.now + length bytes.now) }
    ensures others { OnlyWriting (D.counts desk.old) (D.counts desk.new) }
{
    let Ok(()) = desk.create(name) else {
        return Err(0);
    };
    let mut given = 0;
    'writes: while given < bytes.len() {
        match desk.append(name, piece_at(bytes, given)) {
            Ok(0) => return Err(given as u64),
            Ok(count) => given += count,
            Err(_) => return Err(given as u64),
        }
    }
    Ok(())
}

/// Says these bytes. An `Err` tells how many of them were said.
pub fn say_all<D: Desk>(bytes: &[u8], desk: &mut D) -> Result<(), u64>
    requires { HasRoomTold (D.room desk.old) (length bytes.now) }
    ensures ok { OnOk result
        (Told (D.seen desk.old) (λ s. D.seen desk.new ≡ Some (with_said bytes.now s))) }
    ensures short { IfErr result (λ given. Told (D.seen desk.old)
        (λ s. IsSaidShort bytes.now given s (D.seen desk.new))) }
    ensures failed { IfErr result
        (λ given. Rose (D.counts desk.old).saying (D.counts desk.new).saying) }
    ensures spent { Spends (D.room desk.old) (D.room desk.new) (length bytes.now) }
    ensures others { OnlySaying (D.counts desk.old) (D.counts desk.new) }
{
    let mut given = 0;
    'sayings: while given < bytes.len() {
        match desk.say(piece_at(bytes, given)) {
            Ok(0) | Err(_) => return Err(given as u64),
            Ok(count) => given += count,
        }
    }
    Ok(())
}

/// Complains these bytes. A fault ends it.
pub fn complain_all<D: Desk>(bytes: &[u8], desk: &mut D)
    requires { HasRoomTold (D.room desk.old) (length bytes.now) }
    ensures said { Told (D.seen desk.old) (λ s. IsComplained bytes.now s (D.seen desk.new)) }
    ensures whole { Told (D.seen desk.old) (λ s.
        ¬ (Rose (D.counts desk.old).complaining (D.counts desk.new).complaining)
        → D.seen desk.new ≡ Some (with_complained bytes.now s)) }
    ensures others { OnlyComplaining (D.counts desk.old) (D.counts desk.new) }
{
    let mut given = 0;
    'complaints: while given < bytes.len() {
        match desk.complain(piece_at(bytes, given)) {
            Ok(0) | Err(_) => return,
            Ok(count) => given += count,
        }
    }
}
