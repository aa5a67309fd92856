//! The generator: a large valid input for the mote, made from a seed.
//!
//! A seed gives seven modules, which pass each packet on to one another, and a script that loads them and brings 10,000
//! packets. All that is chosen is drawn from one list of numbers (`specs/Numbers`): `specs/Modules` says which numbers
//! a module has, `specs/Packets` which a packet has. `make` gives the images and the events of these definitions, such
//! as a mote takes, and the laws say more of them: each image has units, and a script spells the events.
//! `specs/Generated` has the run of a seed: its images and its events, within the limits [`GENERATED_UNITS`] and
//! [`GENERATED_HANDLER`].
#![tactic(auto)]

mod bundle;
mod laws;
mod limits;
mod modules;
mod numbers;
mod packets;

pub use bundle::{Bundle, make};
pub use laws::{events_are_of_a_script, events_are_read, images_are_accepted};
pub use limits::{GENERATED_HANDLER, GENERATED_UNITS, generated_limits_are_as_defined};
