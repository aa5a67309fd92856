//! One mote: a kernel, a runner of units, and the turns that they make together.
//!
//! [`Mote::turn`] is a turn of the machine of domains and writes its lines; [`Mote::new`] gives the state in which a
//! run begins. A mote takes any [`kernel_call::Runner`]: what it says of a turn rests on the law of runners alone. Its
//! images are prepared, loaded and refused by `mod_loader`.
#![tactic(auto)]

mod agenda;
mod laws;
mod limits;
mod mote;
mod turns;

pub use laws::turns_are_seen;
pub use limits::Limits;
pub use mote::Mote;
