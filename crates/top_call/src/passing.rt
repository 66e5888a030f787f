// What a command that isn't refused passes on to the desk.
ghost use Rattle.std.specs.Prelude.{◌≡◌, ◌+◌, Some, IfErr, OnOk};
ghost use Rattle.desk.specs.Seen.{Seen, Told};
ghost use Rattle.desk.specs.Faults.{Rose, OnlyWriting};
ghost use Rattle.desk.specs.Room.{HasRoomTold, Spends};
ghost use Rattle.run_rules.specs.Due.{File};
ghost use Rattle.run_rules.specs.Leaves.{IsCutShort, with_output, file_size};
ghost use Rattle.top_call.specs.Passed.{file_of, wanted_room, HasSome, Passes, IsPassedBy};

use desk::{Desk, say_all, write_all};
use run_rules::{Ended, FileName};

/// A file that is to be written.
#[derive(Drop)]
pub struct OutFile {
    pub name: FileName,
    pub bytes: Vec<u8>,
}

/// What is to be written, if anything, what is to be said then, and how many lines are wanted between clusters.
#[derive(Drop)]
pub struct Passing {
    pub file: Option<OutFile>,
    pub said: Vec<u8>,
    pub unjoined: u64,
}

/// Writes the file, if there is one. An `Err` tells how many of its bytes it has.
fn write_out<D: Desk>(passing: &Passing, desk: &mut D) -> Result<(), u64>
    requires room { HasRoomTold (D.room desk.old) (file_size (file_of passing.now)) }
    requires some { HasSome (file_of passing.now) }
    ensures ok { OnOk result (Told (D.seen desk.old)
        (λ s. D.seen desk.new ≡ Some (with_output (file_of passing.now) s))) }
    ensures cut { IfErr result (λ given. Told (D.seen desk.old) (λ s. (file : File) × (t : Seen)
        × (file_of passing.now ≡ Some file) × IsCutShort file given s t
        × (D.seen desk.new ≡ Some t))) }
    ensures failed { IfErr result
        (λ given. Rose (D.counts desk.old).writing (D.counts desk.new).writing) }
    ensures spent { Spends (D.room desk.old) (D.room desk.new) (file_size (file_of passing.now)) }
    ensures others { OnlyWriting (D.counts desk.old) (D.counts desk.new) }
{
    match &passing.file {
        Some(file) => write_all(file.name.text(), &file.bytes, desk),
        None => Ok(()),
    }
}

/// Writes the file, if there is one, and then says what is to be said.
pub fn pass_on<D: Desk>(passing: &Passing, desk: &mut D) -> Ended
    requires room { HasRoomTold (D.room desk.old) (wanted_room passing.now + 256) }
    requires some { HasSome (file_of passing.now) }
    ensures cause { IsPassedBy result (D.counts desk.old) (D.counts desk.new) }
    ensures passes { Told (D.seen desk.old) (λ s. (t : Seen)
        × Passes result (file_of passing.now) passing.now.said.items passing.now.unjoined s t
        × (D.seen desk.new ≡ Some t)) }
    ensures room { HasRoomTold (D.room desk.new) 256 }
    ensures quiet { (D.counts desk.new).complaining ≡ (D.counts desk.old).complaining }
{
    if let Err(given) = write_out(passing, desk) {
        return Ended::Unwritten { given };
    }
    match say_all(&passing.said, desk) {
        Ok(()) => Ended::Done {
            unjoined: passing.unjoined,
        },
        Err(given) => Ended::Unsaid { given },
    }
}
