//! The script of a run: a text that says what comes to the mote, and when.
//!
//! A script is read line by line, and each line by its words; nothing of the text is copied but the bytes of packets.
//! What a line says, and what stands against it, is defined over the list of the lines (`specs/Lines`, `Events`,
//! `Refusals`): `parse_script` gives the events of the lines, or the refusal of the first line that something stands
//! against. `a_refusal_is_the_first` says above that definition which condition holds at which line.
#![tactic(auto)]

mod error;
mod hex;
mod laws;
mod line;
mod script;
mod text;

pub use error::ScriptError;
pub use laws::{a_refusal_is_the_first, scripts_have_such_events, spelled_events_are_read};
pub use script::{Script, parse_script};
