//! The timers of the modules.
//!
//! After the timers of SOS (Han et al., MobiSys 2005). They are seen as the list of the running timers in the order
//! in which they fire: by due moment, then by module, then by id (`specs/Timers.antt` of `mote_base`). A module has
//! at most one timer of each id, at most `TIMERS` of `mote_base` run at once, and no call takes memory.
#![tactic(auto)]

mod timers;

pub use timers::{Fired, Started, TimerRow, Timers};
