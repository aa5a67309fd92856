//! What every crate of the mote stands on: texts, words of code, lines, statuses, and the outside.
//!
//! The outside is a shelf of files to read and a sink to write to. Each is a trait whose contract says what a call
//! gives, when it may fail, what its count of faults tells, and which calls were made. Four types meet the traits in
//! memory: two fail exactly where they are told to, and two never fail.
#![tactic(auto)]

mod digits;
mod fault;
mod files;
mod frame;
mod limits;
mod line;
mod memory;
mod message;
mod number;
mod outside;
mod sure;
mod timer;
mod word;
mod words;

pub use digits::{add_byte, add_bytes, add_number, add_short, add_text, add_word};
pub use fault::{Failed, NoMemory, Status};
pub use frame::{FRAMES, Frame};
pub use limits::limits_are_as_defined;
pub use line::{LINE_BYTES, Line};
pub use memory::{MemShelf, MemSink};
pub use message::{Msg, QUEUE_MESSAGES};
pub use number::number_in;
pub use outside::{Shelf, Sink};
pub use sure::{SureShelf, SureSink};
pub use timer::{TIMERS, Timer};
pub use word::Word;
pub use words::Words;
