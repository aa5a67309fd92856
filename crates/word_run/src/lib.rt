//! The run of rewritten words: what the processor does with the templates of a unit, one instruction of the bank after
//! the other, and what is done at each entry of the page to which they lead.
//!
//! The definitions in `specs/` say it without a look at the unit: an instruction is what `avr_machine` says, an entry
//! is its row, and a unit ends where the template of one starts.
//!
//! - `FlashValue`: what a runner of words keeps, and what holds of it: each bank's words spell its units.
//! - `Entries`: the row of each entry. Its test is the need of the unit, with SP as it was before the CALL.
//! - `WordRun`: the words of a unit, with a line for each instruction where these are told.
//! - `CanRun`: when the instructions can be run. `Writing`: which bytes they write. `Laws`: what holds of them.
//!
//! The laws of `laws` tie them to the units of `domain_model`. A runner over them stands in `unit_run`.
#![tactic(auto)]

mod laws;
mod telling;

pub use laws::{words_run_as_units, words_write_inside};
pub use telling::telling_adds_lines;
