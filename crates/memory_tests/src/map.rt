//! The whole heap as one segment, and the edges of it.

use memory_map::{MemoryMap, Segment};
use mote_layout::KERNEL;
use std::test::Fail;

#[test]
fn tells_segments(rt: HostRuntime) -> Result<(), Fail> {
    let mut map = MemoryMap::new(rt.alloc())?;
    map.set_segment(0, 384, KERNEL);
    let whole = Segment {
        first: 0,
        count: 384,
        owner: KERNEL,
    };
    for (a, segment) in [
        (0x01FF, None),
        (0x0200, Some(whole)),
        (0x0DFF, Some(whole)),
        (0x0E00, None),
    ] {
        assert_eq!(rt; map.segment_at(a), segment, "at {a:04x}");
    }
    map.clear_segment(0);
    assert_eq!(rt; map.segment_at(0x0DFF), None);
    map.set_segment(1, 2, 3);
    for (a, owner) in [(0x0207, KERNEL), (0x0208, 3), (0x0217, 3), (0x0218, KERNEL)] {
        assert_eq!(rt; map.owner_at(a), owner, "at {a:04x}");
    }
    Ok(())
}
