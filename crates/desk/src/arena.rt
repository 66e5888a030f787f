// Names with their contents, in memory that was reserved before, so that no change within the room takes memory.
ghost use Rattle.std.specs.Prelude.{◌≡◌, ◌≢◌, true, false, ◌<◌, ◌≤◌, ◌+◌, ◌-◌, ◌++◌, [], ◌∷◌, length, vec_len, vec_capacity, option_copied, IfSome, IfNone, IfOk, OnOk, OnErr};
ghost use Rattle.std.specs.FinMap.{empty, get, insert};
ghost use Rattle.desk.specs.Folder.{bytes_of, entry_at, IsFirst, IsNowhere, IsReplaced, IsExtended};
ghost use Rattle.desk.specs.Room.{cost_in};
ghost use Rattle.desk.specs.Arena.{entries_of, offset_of, IsTable, IsSpotIn};

use crate::pieces::{push_all, splice};
use grid_num::Memory;
use std::alloc::Global;
use std::marker::Model;

/// The lengths of a name and of its contents.
#[derive(Clone, Copy)]
struct Lengths {
    name: usize,
    contents: usize,
}

/// A place of the table, and where the bytes of its name begin.
#[derive(Clone, Copy)]
struct Spot {
    index: usize,
    at: usize,
}

/// Contents by name, with room for more.
///
/// Names and contents stand side by side in one vector, in the order of the table, so growing what isn't last moves what
/// is behind it.
#[derive(Drop)]
pub struct Arena {
    bytes: Vec<u8>,
    table: Vec<Lengths>,
    room: usize,
}

impl Model for Arena {
    ghost use Rattle.std.specs.Prelude.{vec_len, vec_capacity};
    ghost use Rattle.desk.specs.Arena.{Reserved, reserved_code, stored, IsTable, IsReserved};

    ghost Value = { Reserved };

    ghost coded = { reserved_code };

    ghost view = { λ a. record { files = stored a.table.items a.bytes.items; room = a.room } };

    ghost invariant = { λ a. IsTable a.table.items a.bytes.items
        × IsReserved (stored a.table.items a.bytes.items) (vec_len a.table) (vec_capacity a.table)
        (vec_len a.bytes) (vec_capacity a.bytes) a.room };
}

fn is_name(bytes: &[u8], name: &str) -> bool
    ensures yes { result ≡ true → bytes.now ≡ name.now }
    ensures no { result ≡ false → bytes.now ≢ name.now }
{
    bytes == name.as_bytes()
}

/// The first place of a name.
fn place_of(table: &[Lengths], bytes: &[u8], name: &str) -> Option<Spot>
    requires { IsTable table.now bytes.now }
    ensures place { IfSome result (IsSpotIn table.now) }
    ensures found { IfSome result (λ s. IsFirst name.now (entries_of table.now bytes.now) s.index) }
    ensures none { IfNone result (IsNowhere name.now (entries_of table.now bytes.now)) }
{
    let mut index = 0;
    let mut at = 0;
    'each: while index < table.len() {
        let own = table[index];
        if is_name(&bytes[at..at + own.name], name) {
            return Some(Spot { index, at });
        }
        at += own.name + own.contents;
        index += 1;
    }
    None
}

/// The contents at a place.
fn contents_at<'a>(table: &[Lengths], bytes: &'a [u8], spot: Spot) -> &'a [u8]
    requires table { IsTable table.now bytes.now }
    requires place { IsSpotIn table.now spot }
    ensures { result.now ≡ (entry_at (entries_of table.now bytes.now) spot.index).1 }
{
    let own = table[spot.index];
    let start = spot.at + own.name;
    &bytes[start..start + own.contents]
}

/// Adds bytes to the contents at a place, within the capacity.
fn grow(table: &mut Vec<Lengths>, bytes: &mut Vec<u8>, spot: Spot, piece: &[u8])
    requires table { IsTable table.old.items bytes.old.items }
    requires place { IsSpotIn table.old.items spot }
    requires fits { vec_len bytes.old + length piece.now ≤ vec_capacity bytes.old }
    ensures table { IsTable table.new.items bytes.new.items }
    ensures entries { IsExtended (entries_of table.old.items bytes.old.items) spot.index piece.now
        (entries_of table.new.items bytes.new.items) }
    ensures len { vec_len bytes.new ≡ vec_len bytes.old + length piece.now }
    ensures capacity { vec_capacity bytes.old ≤ vec_capacity bytes.new }
    ensures names { vec_len table.new ≡ vec_len table.old }
    ensures names_capacity { vec_capacity table.new ≡ vec_capacity table.old }
{
    let own = table[spot.index];
    let contents = own.contents + piece.len();
    splice(bytes, spot.at + own.name + own.contents, 0, piece);
    table[spot.index] = Lengths {
        name: own.name,
        contents,
    };
}

/// Puts bytes in place of the contents at a place, within the capacity.
fn refill(table: &mut Vec<Lengths>, bytes: &mut Vec<u8>, spot: Spot, fresh: &[u8])
    requires table { IsTable table.old.items bytes.old.items }
    requires place { IsSpotIn table.old.items spot }
    requires fits { vec_len bytes.old + length fresh.now ≤ vec_capacity bytes.old }
    ensures table { IsTable table.new.items bytes.new.items }
    ensures entries { IsReplaced (entries_of table.old.items bytes.old.items) spot.index fresh.now
        (entries_of table.new.items bytes.new.items) }
    ensures len { vec_len bytes.new ≤ vec_len bytes.old + length fresh.now }
    ensures capacity { vec_capacity bytes.old ≤ vec_capacity bytes.new }
    ensures names { vec_len table.new ≡ vec_len table.old }
    ensures names_capacity { vec_capacity table.new ≡ vec_capacity table.old }
{
    let own = table[spot.index];
    splice(bytes, spot.at + own.name, own.contents, fresh);
    table[spot.index] = Lengths {
        name: own.name,
        contents: fresh.len(),
    };
}

/// Adds a name with its contents, within the capacity.
fn add(table: &mut Vec<Lengths>, bytes: &mut Vec<u8>, name: &str, contents: &[u8])
    requires table { IsTable table.old.items bytes.old.items }
    requires names_fit { vec_len table.old < vec_capacity table.old }
    requires fits { vec_len bytes.old + (length name.now + length contents.now)
        ≤ vec_capacity bytes.old }
    ensures table { IsTable table.new.items bytes.new.items }
    ensures entries { entries_of table.new.items bytes.new.items
        ≡ entries_of table.old.items bytes.old.items ++ (name.now, contents.now) ∷ [] }
    ensures len { vec_len bytes.new ≡ vec_len bytes.old + (length name.now + length contents.now) }
    ensures capacity { vec_capacity bytes.old ≤ vec_capacity bytes.new }
    ensures names { vec_len table.new ≡ vec_len table.old + 1 }
    ensures names_capacity { vec_capacity table.old ≤ vec_capacity table.new }
{
    push_all(bytes, name.as_bytes());
    push_all(bytes, contents);
    let _ = table.push(Lengths {
        name: name.len(),
        contents: contents.len(),
    });
}

impl Arena {
    /// No names, and this room.
    pub fn new(alloc: Global, room: usize) -> Result<Self, Memory>
        ensures { IfOk result (λ a. a ≡ record { files = empty; room = room }) }
    {
        // A place in the table for each name that the room allows: each but the empty name takes a byte.
        let Some(names) = room.checked_add(1) else {
            return Err(Memory);
        };
        let bytes = Vec::with_capacity(alloc, room)?;
        let table = Vec::with_capacity(alloc, names)?;
        Ok(Arena { bytes, table, room })
    }

    /// How many bytes may still be taken.
    pub fn room(&self) -> usize
        ensures { result ≡ self.now.room }
    {
        self.room
    }

    /// Takes some of the room.
    pub fn spend(&mut self, count: usize)
        requires { count ≤ self.old.room }
        ensures { self.new ≡ record { files = self.old.files; room = self.old.room - count } }
    {
        self.room -= count;
    }

    /// The contents of a name, or None where it isn't there.
    pub fn get(&self, name: &str) -> Option<&[u8]>
        ensures { option_copied result ≡ get self.now.files name.now }
    {
        match place_of(&self.table, &self.bytes, name) {
            Some(spot) => Some(contents_at(&self.table, &self.bytes, spot)),
            None => None,
        }
    }

    /// Adds bytes to the contents of a name, and makes it where it isn't there.
    pub fn append(&mut self, name: &str, piece: &[u8])
        requires { cost_in self.old.files name.now + length piece.now ≤ self.old.room }
        ensures { self.new
            ≡ record {
              files = insert self.old.files name.now
                  (bytes_of self.old.files name.now ++ piece.now);
              room = self.old.room - (cost_in self.old.files name.now + length piece.now);
            } }
    {
        match place_of(&self.table, &self.bytes, name) {
            Some(spot) => {
                grow(&mut self.table, &mut self.bytes, spot, piece);
                self.room -= piece.len();
            }
            None => {
                add(&mut self.table, &mut self.bytes, name, piece);
                self.room -= name.len() + piece.len();
            }
        }
    }

    /// Makes the contents of a name empty, and makes it where it isn't there.
    pub fn clear(&mut self, name: &str)
        requires { cost_in self.old.files name.now ≤ self.old.room }
        ensures { self.new
            ≡ record {
              files = insert self.old.files name.now [];
              room = self.old.room - cost_in self.old.files name.now;
            } }
    {
        match place_of(&self.table, &self.bytes, name) {
            Some(spot) => refill(&mut self.table, &mut self.bytes, spot, &[]),
            None => {
                add(&mut self.table, &mut self.bytes, name, &[]);
                self.room -= name.len();
            }
        }
    }

    /// Puts bytes in place of the contents of a name, and makes it where it isn't there. It takes memory for them, and
    /// leaves the room as it was.
    pub fn put(&mut self, name: &str, bytes: &[u8]) -> Result<(), Memory>
        ensures ok { OnOk result (self.new
            ≡ record { files = insert self.old.files name.now bytes.now; room = self.old.room }) }
        ensures err { OnErr result (self.new ≡ self.old) }
    {
        let more = sum_of(self.room, name.len(), bytes.len())?;
        // One for this name, and one for the empty name.
        let names = sum_of(self.room, 1, 1)?;
        self.bytes.reserve(more)?;
        self.table.reserve(names)?;
        match place_of(&self.table, &self.bytes, name) {
            Some(spot) => refill(&mut self.table, &mut self.bytes, spot, bytes),
            None => add(&mut self.table, &mut self.bytes, name, bytes),
        }
        Ok(())
    }
}

/// The sum of three lengths. What is longer than any memory is refused.
fn sum_of(a: usize, b: usize, c: usize) -> Result<usize, Memory>
    ensures { IfOk result (λ n. n ≡ a + (b + c)) }
{
    match a.checked_add(b) {
        Some(sum) => sum.checked_add(c).ok_or(Memory),
        None => Err(Memory),
    }
}
