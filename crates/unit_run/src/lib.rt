//! Runs the units of the loaded modules.
//!
//! [`PlainRunner`] keeps the units of each domain's module and runs them themselves, over the processor that the kernel
//! lends. It is a [`Runner`] of `kernel_call`: what it does is a unit of the machine (`act` of `domain_model`) itself,
//! also in the bytes that other runners may leave open, and it writes no line of its own.
//!
//! [`FlashRunner`] keeps the words of each domain's bank, and runs them on the processor one instruction after the
//! other. What that comes to `word_run` defines, and has as its law that it is a unit of the machine but for the free
//! bytes. Where the words enter the page, the entry's row is done by calls of the kernel (`entries`, `guards`). Where a
//! unit ends is told by the starts of the templates. Where it is asked to, it writes a line for each instruction that
//! runs.
#![tactic(auto)]

mod arrived;
mod bank;
mod entries;
mod flash;
mod flash_run;
mod guards;
mod plain;
mod runner;
mod stack;
mod starts;
mod tests_of_units;
mod words;

pub use flash::FlashRunner;
pub use plain::PlainRunner;
