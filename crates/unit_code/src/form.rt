//! The templates of rewritten code.

use crate::unit::Unit;
use avr_isa::Instr;

/// What the template of a unit tells by itself: the unit, or the offset by which it leads on, since unit numbers
/// don't stand in words.
#[derive(Clone, Copy)]
pub enum Form {
    /// The template of a unit that has one shape and no target.
    Whole(Unit),
    /// A skip alone.
    ShortSkip(Instr),
    /// A skip, a jump over one word, and a jump with this offset.
    LongSkip(Instr, i16),
    /// A branch alone.
    ShortBranch { set: bool, bit: u8, offset: i16 },
    /// The inverse branch over one word, and a jump with this offset.
    LongBranch { set: bool, bit: u8, offset: i16 },
    /// A jump.
    Jumping(i16),
    /// The call of the entry of local calls, and a jump.
    Calling(i16),
}
