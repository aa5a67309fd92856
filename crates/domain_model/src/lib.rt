//! The machine of domains: what a run of the mote is, apart from the code that makes one.
//!
//! The definitions in `specs/` say what a state is, what one unit of a module's code does, which turn comes
//! next, what it makes of the state, and which lines a run of turns writes. The code above is proved against
//! them, and nothing in them speaks of that code.
//!
//! - `State`: the processor, the kernel's lists, the units of the loaded modules, and what is still to come.
//! - `Services`: the kernel calls by number. `Prepared`: what the file of an image comes to. `Files`: what such a file
//!   is, in the words of images and of code. `Events`: the lines of a script that come by radio and those for the
//!   loader.
//! - `Modules`: the loaded modules by domain and id. `Given`: the blocks that a request is given. `Payloads`: the
//!   blocks that messages carry, and those of the modules' constants. `Calls`: what each kernel call does. `Others`:
//!   what it leaves to others. `Radio`: what a packet does that comes. `Firing`: what a timer does that fires. `Dump`:
//!   what is printed of the state.
//! - `Act`: what one unit does, its instruction by the effect that `avr_machine` gives it. `Frames`: calls within a
//!   domain and of slots, and how they come back. `Free`: the bytes whose values a run leaves open. `Runners`: what a
//!   unit does where a runner keeps the units in its own way.
//! - `Turn`: which turn comes next, what it does, and the runs of turns.
//! - `Good`: what every turn keeps. `Facts`: what each choice of a turn says of the state. `Remaining`: how many
//!   turns may still come. `Laws`: what holds of each turn of each run.
//!
//! The types here are plain data that definitions and code share. The laws of the machine are the contracts
//! of the functions of `laws`.
#![tactic(auto)]

mod event;
mod fault;
mod handler;
mod laws;
mod line;
mod lines;
mod payload;
mod refusal;
mod script;

pub use event::{Choice, LoaderEvent, LoaderOrder, Packet, Turned};
pub use fault::{FaultNote, Rule, Served, UnitEnd};
pub use handler::Running;
pub use laws::{
    every_good_state_runs_to_an_end, every_turn_is_lawful, files_are_as_prepared,
    kernel_calls_leave_others, no_block_is_lost, turns_come_as_the_state_says,
    units_act_as_instructions,
};
pub use line::{TraceLine, Why};
pub use lines::Lines;
pub use payload::PayloadBytes;
pub use refusal::Refusal;
pub use script::{Event, What};
