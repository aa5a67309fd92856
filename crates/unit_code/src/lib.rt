//! The units of a module's code: what a list of words stands for, or why it is refused.
//!
//! A unit is one instruction, or one group of instructions that sets the stack pointer. [`units`] reads words from the
//! first one on. It answers with the units, the first word of each, and the unit numbers of the marks (the words at
//! which the module is entered), exactly where no condition of [`CodeError`] holds. Where one does, it answers with the
//! first of them in their order, at its least word. The definitions state each condition of the whole list of words,
//! and the law that an answer meets is a clause of its own. [`spelled_len`] is the length of a unit in rewritten code.
//! The definitions also say which rewritten words spell which units: the template of each unit in its shapes, as
//! instructions, and templates side by side. The units, their kinds, the conditions and the templates are this
//! project's own.
#![tactic(auto)]

mod bank;
mod error;
mod form;
mod items;
mod kinds;
mod laws;
mod list;
mod reading;
mod refusals;
mod targets;
mod unit;

pub use bank::BankCode;
pub use error::CodeError;
pub use form::Form;
pub use kinds::{Aim, Piece, Standing, standing_of};
pub use laws::{entries_stand, one_reading};
pub use list::UnitList;
pub use reading::units;
pub use targets::{number_of, number_reached, reached};
pub use unit::{Shape, Unit, is_load, spelled_len};
