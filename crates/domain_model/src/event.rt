//! What the loader is asked to do, and the turns of a run.

use crate::handler::Running;
use crate::payload::PayloadBytes;

/// What an event of the script asks of the loader.
#[derive(Clone, Copy, Debug, PartialEq, Eq)]
pub enum LoaderOrder {
    /// Load the image with this number, counted from 0.
    Load(u8),
    /// Unload the module with this id.
    Unload(u8),
    /// Print the state.
    Dump,
}

/// An event of the script that is for the loader.
#[derive(Clone, Copy, Debug, PartialEq, Eq)]
pub struct LoaderEvent {
    /// The clock from which on the event is due, in units.
    pub time: u64,
    pub what: LoaderOrder,
}

/// A packet of the script that comes by radio.
#[derive(Drop)]
pub struct Packet {
    /// The clock from which on it is due, in units. It is then an interrupt, also in the middle of a handler.
    pub time: u64,
    /// The id of the module that it is for.
    pub to: u8,
    /// The type of the message that it becomes.
    pub sort: u8,
    pub bytes: PayloadBytes,
}

/// How a run stands after a turn.
#[derive(Clone, Copy, Debug, PartialEq, Eq)]
pub enum Turned {
    /// There is more to come.
    More,
    /// Nothing was left to do.
    EndIdle,
    /// The budget of units was spent in a handler.
    EndBudget,
}

/// Which turn comes next.
#[derive(Clone, Copy, Debug, PartialEq, Eq)]
pub enum Choice {
    /// The run has ended, and stays so.
    Stays,
    /// A packet is due: the first comes, in a handler too.
    Hears,
    /// A timer is due: the first fires, in a handler too.
    Fires,
    /// An event of the script is due for the loader.
    Comes(LoaderEvent),
    /// A message waits: the first is dispatched.
    Dispatches,
    /// Nothing is due and no message waits: the clock becomes this time, the next of the script's and the timers'.
    Jumps(u64),
    /// Nothing is due, waits or is to come: the run ends.
    Idles,
    /// The budget of units is spent: the run ends.
    Budgets,
    /// The handler has run as many units as it may: the watchdog stops it.
    Watches(Running),
    /// One unit runs.
    Acts(Running),
}
