//! Tests of the public calls of what the kernel keeps and of the kernel: messages, frames, entries, links, timers,
//! kernel calls, parcels, constants, calls between domains.
#![tactic(auto)]

#[cfg(test)]
mod calls;
#[cfg(test)]
mod kernel;
#[cfg(test)]
mod links;
#[cfg(test)]
mod parcels;
#[cfg(test)]
mod queues;
#[cfg(test)]
mod stack;
#[cfg(test)]
mod steps;
#[cfg(test)]
mod table;
#[cfg(test)]
mod timers;
#[cfg(test)]
mod timers_in_the_kernel;
