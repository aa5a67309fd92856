//! The edges of a block, of the window and of the stack.

use memory_map::MemoryMap;
use mote_layout::KERNEL;
use std::test::Fail;
use store_check::{SpCheck, Window, check_load, check_sp, check_store};

#[test]
fn checks_the_edges(rt: HostRuntime) -> Result<(), Fail> {
    let mut map = MemoryMap::new(rt.alloc())?;
    map.set_segment(1, 1, 2);
    let win = Window {
        sp: 0x10F0,
        base: 0x10F8,
        bound: 0x10FC,
    };
    for (d, a, permitted) in [
        (2, 0x0207, false),
        (2, 0x0208, true),
        (2, 0x020F, true),
        (2, 0x0210, false),
        (3, 0x0208, false),
        (KERNEL, 0x0210, false),
        (2, 0x10F0, false),
        (2, 0x10F1, true),
        (3, 0x10FC, true),
        (2, 0x10FD, false),
    ] {
        assert_eq!(rt;
            check_store(&map, &win, d, a),
            permitted,
            "domain {d} at {a:04x}"
        );
    }
    for (new, check) in [
        (0x0000, SpCheck::Over),
        (0x0E0E, SpCheck::Over),
        (0x0E0F, SpCheck::Fine),
        (0x10F8, SpCheck::Fine),
        (0x10F9, SpCheck::Under),
        (0xFFFF, SpCheck::Under),
    ] {
        assert_eq!(rt; check_sp(&win, new), check, "at {new:04x}");
    }
    Ok(())
}

/// Domain 2 has the blocks 1 and 2, domain 3 has block 4, and the kernel has the blocks 8 and 9, which begin at 0x0240,
/// and block 12.
#[test]
fn checks_loads(rt: HostRuntime) -> Result<(), Fail> {
    let mut map = MemoryMap::new(rt.alloc())?;
    map.set_segment(1, 2, 2);
    map.set_segment(4, 1, 3);
    map.set_segment(8, 2, KERNEL);
    map.set_segment(12, 1, KERNEL);
    let win = Window {
        sp: 0x10F0,
        base: 0x10F8,
        bound: 0x10FC,
    };
    for (frame, constants, a, permitted) in [
        (false, 0, 0x0000, true),
        (false, 0, 0x00FF, true),
        (false, 0x0240, 0x0100, false),
        (true, 0x0240, 0x0100, true),
        (false, 0x0240, 0x010F, false),
        (true, 0x0240, 0x010F, true),
        (true, 0x0240, 0x0110, false),
        (true, 0x0240, 0x0207, false),
        (false, 0, 0x0208, true),
        (false, 0, 0x0217, true),
        (true, 0x0240, 0x0218, false),
        (true, 0x0240, 0x0220, false),
        (true, 0x0220, 0x0220, false),
        (true, 0x0240, 0x0228, false),
        (true, 0x0240, 0x023F, false),
        (false, 0x0240, 0x0240, true),
        (false, 0x0240, 0x024F, true),
        (true, 0x0240, 0x0250, false),
        (true, 0x0240, 0x0260, false),
        (true, 0x0248, 0x0248, false),
        (true, 0, 0x0240, false),
        (true, 0x0240, 0x10F0, false),
        (false, 0, 0x10F1, true),
        (false, 0, 0x10FC, true),
        (true, 0x0240, 0x10FD, false),
        (true, 0x0240, 0x1100, false),
        (true, 0x0240, 0xFFFF, false),
    ] {
        assert_eq!(rt;
            check_load(&map, &win, 2, frame, constants, a),
            permitted,
            "frame {frame}, constants {constants:04x}, at {a:04x}"
        );
    }
    Ok(())
}
