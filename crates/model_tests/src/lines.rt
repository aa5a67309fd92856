//! The lines of a turn, kept and cleared.

use domain_model::{Lines, TraceLine};

#[test]
fn keeps_lines_in_order(rt: HostRuntime) {
    let first = TraceLine::Say {
        time: 3,
        id: 5,
        byte: 79,
    };
    let second = TraceLine::Done { time: 4, id: 5 };
    let mut lines = Lines::new(rt.alloc()).expect(&rt, "memory is ample");
    lines.add(first);
    lines.add(second);
    assert!(rt;
        matches!(
            lines.items(),
            [
                TraceLine::Say {
                    time: 3,
                    id: 5,
                    byte: 79
                },
                TraceLine::Done { time: 4, id: 5 }
            ]
        )
    );
    lines.clear();
    assert!(rt; lines.items().is_empty());
}
