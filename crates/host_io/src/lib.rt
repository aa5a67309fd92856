//! The edge of the program: the files of the system as a shelf, and a writer as a sink.
//!
//! What the system gives and takes is trusted. No clause can say it, so shelf and sink tell no content. What they
//! promise is when a call may fail: only where their count rose.
#![tactic(auto)]

mod shelf;
mod sink;

pub use shelf::FileShelf;
pub use sink::WriterSink;
