// What the desk of real files does.
use desk::{Desk, Failed, RealDesk};
use std::test::Fail;
use std::{env, fs, process};

#[test]
fn real_files_are_made_grown_and_read(rt: HostRuntime) -> Result<(), Fail> {
    // The process's number keeps runs side by side apart.
    let file = format!(in rt.alloc(); "zonefill_desk_{}", process::id(rt.process()))?;
    let path = env::temp_dir(&rt)?
        .as_path()
        .join(rt.alloc(), file.as_str())?;
    let name = path.as_str();
    let mut desk = RealDesk::new(&rt);
    let mut into = [0u8; 8];
    assert!(rt; desk.create(name) == Ok(()));
    assert!(rt; desk.append(name, b"hel") == Ok(3) && desk.append(name, b"lo") == Ok(2));
    assert!(rt; desk.read_at(name, 1, &mut into) == Ok(4) && into.starts_with(b"ello"));
    assert!(rt; desk.read_at(name, 5, &mut into) == Ok(0));
    assert!(rt; desk.create(name) == Ok(()) && desk.read_at(name, 0, &mut into) == Ok(0));
    assert!(rt; desk.say(b"") == Ok(0) && desk.complain(b"") == Ok(0));
    // A directory can't be made empty, and a name that isn't there can't be read.
    assert!(rt; desk.create("/") == Err(Failed));
    fs::remove_file(&rt, name)?;
    assert!(rt; desk.read_at(name, 0, &mut into) == Err(Failed));
    Ok(())
}
