//! The command line: what its words mean.
//!
//! `Command` in `specs/` says by rules which words are a command, which command they are and which files it takes, and
//! what a reader makes of the words from the left. The law [`commands_are_by_rules`] says that both are the same.
#![tactic(auto)]

mod command;

pub use command::{Kind, Place, Setting, Tool, commands_are_by_rules};
