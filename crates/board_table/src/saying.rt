// Bytes are said over a desk.
ghost use Rattle.std.specs.Prelude.{◌≡◌, length, Some, OnOk, OnErr};
ghost use Rattle.desk.specs.Seen.{Told, with_said};
ghost use Rattle.desk.specs.Faults.{Rose, OnlySaying};
ghost use Rattle.desk.specs.Room.{HasRoomTold};

use desk::{Desk, Failed};

/// Says these bytes. A fault ends it.
pub fn say_all<D: Desk>(bytes: &[u8], desk: &mut D) -> Result<(), Failed>
    requires { HasRoomTold (D.room desk.old) (length bytes.now) }
    ensures said { OnOk result (Told (D.seen desk.old) (λ s. D.seen desk.new ≡ Some (with_said bytes.now s))) }
    ensures failed { OnErr result (Rose (D.counts desk.old).saying (D.counts desk.new).saying) }
    ensures others { OnlySaying (D.counts desk.old) (D.counts desk.new) }
{
    let mut given = 0;
    'sayings: while given < bytes.len() {
        let (_, rest) = bytes.split_at(given);
        match desk.say(rest) {
            Ok(0) => return Err(Failed),
            Ok(count) => given += count,
            Err(_) => return Err(Failed),
        }
    }
    Ok(())
}
