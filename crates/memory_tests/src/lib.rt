//! Tests of the public calls of the crates below the kernel's: texts and files, the numbers of the machine, the memory
//! map, its checks and the heap.
//!
//! Each module tests one crate. What is expected comes from the description of the mote, or from an example worked by
//! hand.
#![tactic(auto)]

#[cfg(test)]
mod base;
#[cfg(test)]
mod checks;
#[cfg(test)]
mod heap;
#[cfg(test)]
mod layout;
#[cfg(test)]
mod map;
