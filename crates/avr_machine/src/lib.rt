//! The processor of the mote, an ATmega128: its registers, its memory, and the effect of one instruction.
//!
//! [`Cpu::rd`] is the read of the data space. [`Cpu::plain`] runs one given instruction that leads to the next one, and
//! [`Cpu::step`] the instruction that stands in [`Flash`] at PC. Both are proved to leave exactly the effect that the
//! AVR Instruction Set Manual gives the instruction: the registers, SREG, SP, PC and bytes of the memory that it names
//! get their new values, and everything else stays. The effect is stated in `specs/` as a list of changes, one line for
//! each instruction. [`Flash`] has a bank of words for each domain; everything else in it reads as 0.
#![tactic(auto)]

mod arithmetic;
mod cpu;
mod flash;
mod flow;
mod laws;
mod parts;
mod plain;
mod step;
mod transfer;

pub use cpu::Cpu;
pub use flash::Flash;
pub use laws::{bank_laws, counter_laws, memory_laws, mode_laws, return_laws};
pub use step::Stepped;
