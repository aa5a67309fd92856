//! The check of a load.

ghost use Rattle.std.specs.Prelude.{◌≡◌, ◌↔◌, IsTrue};
ghost use Rattle.mote_layout.specs.Load.{is_open, IsConstant, is_constant, MayLoad, may_load};

use crate::{Window, check_store};
use memory_map::MemoryMap;
use mote_layout::{KERNEL, MESSAGE_FRAME, MESSAGE_FRAME_BYTES, RAM_START, block_address};

/// Whether domain `d` may load from the address `a`, in a sealed image.
///
/// `frame` says that its module is the receiver of the message in hand, and `constants` is the address of the module's
/// block of constants, or 0 where it has none.
pub fn check_load(map: &MemoryMap, win: &Window, d: u8, frame: bool, constants: u16, a: u16) -> bool
    ensures permitted { IsTrue result ↔ MayLoad map.now d frame constants win.now.sp win.now.bound a }
    ensures value { result ≡ may_load map.now d frame constants win.now.sp win.now.bound a }
{
    is_open(frame, a) || check_store(map, win, d, a) || is_constant(map, constants, a)
}

/// Whether an address is the processor's own, or in the message frame where that may be read.
fn is_open(frame: bool, a: u16) -> bool
    ensures { result ≡ is_open frame a }
{
    a < RAM_START || (frame && MESSAGE_FRAME <= a && a < MESSAGE_FRAME + MESSAGE_FRAME_BYTES)
}

/// Whether an address lies in the block of the kernel's that begins at the address of the constants.
fn is_constant(map: &MemoryMap, constants: u16, a: u16) -> bool
    ensures held { IsTrue result ↔ IsConstant map.now constants a }
    ensures value { result ≡ is_constant map.now constants a }
{
    let Some(segment) = map.segment_at(a) else {
        return false;
    };
    segment.owner == KERNEL && block_address(segment.first) == constants
}
