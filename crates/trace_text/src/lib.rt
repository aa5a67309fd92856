//! The text of a trace, line by line.
//!
//! [`put_line`] gives an empty line the text of one line of a trace, `text` of the definitions: the words of the line
//! with single spaces between them, and a line feed. The form is this project's own.
#![tactic(auto)]

mod event;
mod field;
mod laws;
mod line;
mod state;

pub use field::add_field;
pub use laws::lines_tell;
pub use line::put_line;
