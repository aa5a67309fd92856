//! The listing of a module's code, a line for each unit.
//!
//! [`list_line`] gives an empty line the text of one unit: its number, its place and what it is. The whole text is
//! `listing_line` of the definitions, for every unit that is of its kind with operands in range. [`add_unit`] adds what
//! a unit is to a line that has room. The names of the instructions and of their operands are those of the AVR
//! Instruction Set Manual, in lower case; the form of the line, and the names of the units that are several
//! instructions or calls, are this project's own.
#![tactic(auto)]

mod instruction;
mod laws;
mod line;
mod operand;

pub use laws::{lines_tell, seal_is_unseen};
pub use line::{add_unit, list_line};
