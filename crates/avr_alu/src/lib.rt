//! The arithmetic and logic unit of an AVR: the result of an operation on bytes or words, and the
//! status register SREG after it.
//!
//! The contract of each function says what both are for every input: `value` and `flags` are
//! equations over whole numbers, and their definitions in `specs/` follow the AVR Instruction Set
//! Manual. There a carry is a sum that doesn't fit, a half carry one of the low halves that doesn't,
//! and an overflow a signed value that leaves its range. The code computes the same flags by the
//! manual's formulas over bits. A flag that an operation doesn't name stays as it was.
#![tactic(auto)]

mod bits;
mod flags;
mod logic;
mod mul;
mod one;
mod sum;
mod word;

pub use bits::{is_set, with_bit};
pub use flags::Flags;
pub use logic::{Logic, logic8};
pub use mul::{Mul, mul8};
pub use one::{One, one8};
pub use sum::{add8, sub8};
pub use word::{word_add, word_sub};
