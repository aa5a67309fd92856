//! Thirty-two frames, one more, and all of them taken.

use safe_stack::{Frame, Full, SafeStack};
use std::test::Fail;

/// The frame of a call that comes back to the unit `back`.
fn frame(back: u16) -> Frame {
    Frame {
        domain: 3,
        back,
        base: 0x10F0,
        bound: 0x10FF,
        cross: true,
    }
}

#[test]
fn holds_thirty_two(rt: HostRuntime) -> Result<(), Fail> {
    let mut stack = SafeStack::new();
    assert_eq!(rt; stack.pop_frame(), None);
    for back in 0..32 {
        assert_eq!(rt; stack.push_frame(frame(back)), Ok(()));
    }
    assert_eq!(rt; stack.push_frame(frame(32)), Err(Full));
    assert_eq!(rt; stack.depth(), 32);
    assert_eq!(rt; stack.pop_frame(), Some(frame(31)));
    assert_eq!(rt; stack.pop_frame(), Some(frame(30)));
    assert_eq!(rt; stack.depth(), 30);
    stack.drop_all();
    assert_eq!(rt; stack.pop_frame(), None);
    Ok(())
}
