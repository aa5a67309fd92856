//! The events of a script.

use crate::payload::PayloadBytes;

/// What an event of the script asks for.
#[derive(Drop)]
pub enum What {
    /// Load the image with this number, counted from 0.
    Load(u8),
    /// Unload the module with this id.
    Unload(u8),
    /// A packet comes by radio, for the module with the id `to`.
    Radio {
        to: u8,
        /// The type of the message that it becomes.
        sort: u8,
        bytes: PayloadBytes,
    },
    /// Print the state.
    Dump,
}

/// A line of the script.
#[derive(Drop)]
pub struct Event {
    /// The clock from which on the event is due, in units.
    pub time: u64,
    pub what: What,
}
