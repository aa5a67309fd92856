//! Entries of two domains, and one domain cleared.

use jump_table::JumpTable;
use std::test::Fail;

#[test]
fn keeps_domains_apart(rt: HostRuntime) -> Result<(), Fail> {
    let mut table = JumpTable::new();
    assert_eq!(rt; table.enter(6, 15), None);
    for (d, i, unit) in [
        (2, 0, 9),
        (2, 15, 20),
        (6, 0, 30),
        (6, 15, 65535),
        (2, 0, 10),
    ] {
        table.set(d, i, unit);
    }
    for (d, i, unit) in [
        (2, 0, Some(10)),
        (2, 15, Some(20)),
        (2, 1, None),
        (6, 0, Some(30)),
        (6, 15, Some(65535)),
    ] {
        assert_eq!(rt; table.enter(d, i), unit, "entry {i} of {d}");
    }
    table.clear(2);
    for (d, i, unit) in [
        (2, 0, None),
        (2, 15, None),
        (6, 0, Some(30)),
        (6, 15, Some(65535)),
    ] {
        assert_eq!(rt; table.enter(d, i), unit, "entry {i} of {d} after the clear");
    }
    Ok(())
}
