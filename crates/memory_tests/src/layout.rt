//! The edges of each row of the entry page, and of the blocks of the heap.

use mote_layout::{Entry, block_address, block_of, entry_of};

#[test]
fn finds_the_blocks(rt: HostRuntime) {
    let rows = [
        (0x0000, None),
        (0x01FF, None),
        (0x0200, Some(0)),
        (0x0207, Some(0)),
        (0x0208, Some(1)),
        (0x0DFF, Some(383)),
        (0x0E00, None),
        (0xFFFF, None),
    ];
    for (address, block) in rows {
        assert_eq!(rt; block_of(address), block, "at {address:04x}");
    }
    assert_eq!(rt; block_address(1), 0x0208);
    assert_eq!(rt; block_address(384), 0x0E00);
}

#[test]
fn finds_the_entries(rt: HostRuntime) {
    let rows = [
        (0x0000, None),
        (0xEFFF, None),
        (0xF000, Some(Entry::StoreX)),
        (0xF001, Some(Entry::StoreXInc)),
        (0xF002, Some(Entry::StoreXDec)),
        (0xF003, Some(Entry::StoreYInc)),
        (0xF004, Some(Entry::StoreYDec)),
        (0xF005, Some(Entry::StoreZInc)),
        (0xF006, Some(Entry::StoreZDec)),
        (0xF007, None),
        (0xF00F, None),
        (0xF010, Some(Entry::StoreY(0))),
        (0xF04F, Some(Entry::StoreY(63))),
        (0xF050, Some(Entry::StoreZ(0))),
        (0xF08F, Some(Entry::StoreZ(63))),
        (0xF090, Some(Entry::StoreSts)),
        (0xF091, Some(Entry::PushGuard)),
        (0xF092, Some(Entry::PopGuard)),
        (0xF093, Some(Entry::SpGuard)),
        (0xF094, Some(Entry::LocalCall)),
        (0xF095, Some(Entry::SlotIndirect)),
        (0xF096, Some(Entry::Return)),
        (0xF097, Some(Entry::Reserve)),
        (0xF098, None),
        (0xF0FF, None),
        (0xF100, Some(Entry::Kernel(0))),
        (0xF10B, Some(Entry::Kernel(11))),
        (0xF10C, None),
        (0xF1FF, None),
        (0xF200, Some(Entry::Slot(0))),
        (0xF20F, Some(Entry::Slot(15))),
        (0xF210, None),
        (0xF2FF, None),
        (0xF300, Some(Entry::LoadY(0))),
        (0xF33F, Some(Entry::LoadY(63))),
        (0xF340, Some(Entry::LoadZ(0))),
        (0xF37F, Some(Entry::LoadZ(63))),
        (0xF380, Some(Entry::LoadLds)),
        (0xF381, Some(Entry::LoadX)),
        (0xF382, Some(Entry::LoadXInc)),
        (0xF383, Some(Entry::LoadXDec)),
        (0xF384, Some(Entry::LoadYInc)),
        (0xF385, Some(Entry::LoadYDec)),
        (0xF386, Some(Entry::LoadZInc)),
        (0xF387, Some(Entry::LoadZDec)),
        (0xF388, None),
        (0xFFFF, None),
    ];
    for (address, entry) in rows {
        assert_eq!(rt; entry_of(address), entry, "at {address:04x}");
    }
}
