//! The check of a store.

ghost use Rattle.std.specs.Prelude.{◌≡◌, ◌↔◌, IsTrue};
ghost use Rattle.mote_layout.specs.Blocks.{Owns, owns};
ghost use Rattle.mote_layout.specs.Store.{MayStore, may_store};

use crate::Window;
use memory_map::MemoryMap;
use mote_layout::KERNEL;

/// Whether domain `d` may store to the address `a`.
///
/// A free block has no owner, so it is not the kernel's here: its address is refused for every `d`.
pub fn check_store(map: &MemoryMap, win: &Window, d: u8, a: u16) -> bool
    ensures permitted { IsTrue result ↔ MayStore map.now d win.now.sp win.now.bound a }
    ensures value { result ≡ may_store map.now d win.now.sp win.now.bound a }
{
    owns(map, d, a) || (win.sp < a && a <= win.bound)
}

/// Whether an address lies in a block of domain `d`. What is free counts as the kernel's in the map, so a domain's
/// blocks are told by one look, and the kernel's own by their segment.
fn owns(map: &MemoryMap, d: u8, a: u16) -> bool
    ensures owned { IsTrue result ↔ Owns map.now d a }
    ensures value { result ≡ owns map.now d a }
{
    if d < KERNEL {
        map.owner_at(a) == d
    } else {
        map.segment_at(a).is_some_and(|segment| segment.owner == d)
    }
}
