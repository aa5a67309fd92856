//! The kernel: the processor, the owned blocks, the loaded modules, the messages, and what runs.
//!
//! A [`Kernel`] is seen as the machine's `KernelState` of `domain_model`, and each of its calls is one equation on it:
//! `Kernel::serve` is a kernel call of the running module (`Calls` there), and the turn calls are the kernel's parts of
//! the turns (`Turn`). `Kernel::cpu_mut` lends the processor, and nothing else changes through it. The kernel keeps of
//! itself what its calls need (`specs/Sound.antt`), and nothing of the processor's values.
//!
//! Inside it `Mail` has the heap, the messages that wait, the one in hand, and what is kept of the modules' constants.
//! It keeps that the kernel's blocks are exactly the payloads of these messages and the blocks of the constants, each
//! once. So a parcel stays with its message until it is settled to the domain that takes it, or scrapped at the end of
//! the handler or with a module that goes; and one of constants stays as long as its module.
//!
//! `Modules` has the list of the modules, and beside it their links and entries, which nothing outside sees: a slot is
//! bound to what the list says, computed anew at each load and unload, and each entry is the unit of the provided
//! function.
//!
//! `Kernel::local_call`, `Kernel::slot_call` and `Kernel::come_back` are the calls within a domain and between domains,
//! and their returns (`Frames` there). A call's frame is kept apart from the memory, so no module can write it.
//!
//! `Kernel::radio` is a packet that comes (`Radio` there), `Kernel::fire` the first timer that is due (`Firing`), and
//! `Kernel::dump` prints the state (`Dump`).
//!
//! [`Runner`] is what runs the units of the loaded modules over a kernel. Its law ties it to the machine's step of a
//! unit, which leaves the free bytes open: a runner may do with those what it likes.
#![tactic(auto)]

mod admitted;
mod calls;
mod dump;
mod frame;
mod kept;
mod kernel;
mod loaded;
mod mail;
mod modules;
mod place;
mod radio;
mod runner;
mod serve;
mod timers;
mod turns;

pub use admitted::Admitted;
pub use calls::{Returned, SlotEnd};
pub use kernel::Kernel;
pub use loaded::ModuleRow;
pub use runner::Runner;
