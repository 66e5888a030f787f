// What no clause says: that fills can be sent to other threads and shared with them.
use fills::{Fill, Task};
use std::sync::Arc;
use std::test::Fail;

fn is_send_and_sync<T: Send + Sync>(_value: &T) {}

// A fill without copper, as that of a zone whose islands were all removed.
#[test]
fn fills_are_sent_and_shared(rt: HostRuntime) -> Result<(), Fail> {
    let task = Task { zone: 2, layer: 1 };
    let fill = Fill {
        task,
        pieces: Vec::new(rt.alloc()),
        spokes: 0,
        parts: Vec::new(rt.alloc()),
    };
    is_send_and_sync(&task);
    is_send_and_sync(&fill);
    let shared = Arc::new(rt.alloc(), fill)?;
    is_send_and_sync(&shared);
    assert!(rt; shared.task == Task { zone: 2, layer: 1 });
    Ok(())
}
