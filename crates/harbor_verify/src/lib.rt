//! Whether rewritten words spell units.
//!
//! Whoever takes rewritten code from another can trust it as far as [`verify`] says yes: it says Ok exactly where the
//! words spell units, with their number and the starts of their templates, and otherwise the first condition of
//! [`VerifyError`] that stands against it. The words are read three times from the left: as instructions, as templates
//! side by side, and as units with their targets. [`read_units`] gives the units of words that were accepted.
#![tactic(auto)]

mod bank;
mod ends;
mod error;
mod instructions;
mod laws;
mod several;
mod single;
mod starts;
mod targets;
mod templates;
mod verdict;
mod walks;

pub use bank::read_units;
pub use error::VerifyError;
pub use laws::words_are_judged;
pub use starts::Starts;
pub use verdict::verify;
