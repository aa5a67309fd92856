//! The check of a new stack pointer.

ghost use Rattle.std.specs.Prelude.{◌≡◌, ◌≤◌, ◌<◌, ◌↔◌};

use crate::Window;
use mote_layout::FLOOR;

/// Whether the stack pointer may be set.
#[derive(Clone, Copy, PartialEq, Eq, Debug)]
pub enum SpCheck {
    /// It may.
    Fine,
    /// It would fall below the floor of the stack.
    Over,
    /// It would rise above the base of the running call.
    Under,
}

/// Whether the stack pointer may be set to `new`. The floor is looked at first.
pub fn check_sp(win: &Window, new: u16) -> SpCheck
    ensures over { (result ≡ SpCheck.Over) ↔ (new < FLOOR) }
    ensures under { (result ≡ SpCheck.Under) ↔ ((FLOOR ≤ new) × (win.now.base < new)) }
    ensures fine { (result ≡ SpCheck.Fine) ↔ ((FLOOR ≤ new) × (new ≤ win.now.base)) }
{
    if new < FLOOR {
        SpCheck::Over
    } else if win.base < new {
        SpCheck::Under
    } else {
        SpCheck::Fine
    }
}
