//! An assembler: a module as text.
#![tactic(auto)]

mod assembling;
mod cut;
mod encoding;
mod error;
mod fields;
mod instruction;
mod judge;
mod laws;
mod operand;
mod reading;
mod row;
mod rows;
mod sourcing;
mod stage;
mod units;
mod words;
mod writing;

pub use assembling::assemble;
pub use error::{AsmError, SourceError};
pub use laws::{
    images_are_one, images_pass, lines_are_read_in_one_way, refusals_are_least, source_is_canonical,
};
pub use sourcing::source;
