//! Timers replaced, refused, fired in order, repeated and purged.

use sos_timer::{Fired, Started, TimerRow, Timers};
use std::test::Fail;

#[test]
fn starts_and_refuses(rt: HostRuntime) -> Result<(), Fail> {
    let mut timers = Timers::new();
    for id in 0..16 {
        assert_eq!(rt; timers.start(1, id, 100, 50, false), Started::Set);
    }
    for (module, id, ticks, started) in [
        (2, 0, 0, Started::Zero),
        (2, 0, 9, Started::Full),
        (1, 3, 9, Started::Set),
    ] {
        assert_eq!(rt; timers.start(module, id, 100, ticks, false), started);
    }
    let first = TimerRow {
        module: 1,
        id: 3,
        due: 109,
    };
    assert_eq!(rt; timers.row(0), Some(first), "replaced");
    assert_eq!(rt; timers.row(16), None);
    assert_eq!(rt; timers.next_due(), Some(109));
    assert!(rt; timers.stop(1, 3));
    assert!(rt; !timers.stop(1, 3));
    assert_eq!(rt; timers.next_due(), Some(150));
    Ok(())
}

#[test]
fn fires_in_order(rt: HostRuntime) -> Result<(), Fail> {
    let mut timers = Timers::new();
    for (module, id, ticks, again) in [
        (4, 1, 10, false),
        (2, 9, 10, true),
        (2, 5, 10, false),
        (3, 0, 8, false),
    ] {
        assert_eq!(rt; timers.start(module, id, 0, ticks, again), Started::Set);
    }
    assert_eq!(rt; timers.due(7), None);
    for (module, id) in [(3, 0), (2, 5), (2, 9), (4, 1)] {
        assert_eq!(rt; timers.due(12), Some(Fired { module, id }));
    }
    assert_eq!(rt; timers.due(12), None);
    assert_eq!(rt; timers.next_due(), Some(22), "the one that repeats");
    assert_eq!(rt; timers.start(5, 9, 12, 1, false), Started::Set);
    timers.purge(2);
    assert_eq!(rt; timers.next_due(), Some(13));
    timers.purge(5);
    assert_eq!(rt; timers.next_due(), None);
    Ok(())
}
