//! Tests of the public calls of the mote and the program.
//!
//! - `tables`: calls of `mote_sim`'s top call told as text, read and checked; `files`: the files that they tell.
//! - `rows`: runs and listings, with their faults and limits.
//! - `rewritten`: runs of images that a rewriter made.
//! - `words`: which words of the command line are a command, and its options.
//! - `generating`: runs of what a seed makes, summed up.
//! - `images`: images that the top call writes by `upgrade` and `seal`.
//! - `turns`: turns of a mote of `mote_core` under small limits.
//! - `units`: runs of modules with units and kernel calls of each kind.
//! - `told`: runs whose instructions are told.
//! - `runs`: each run of the tables again, with its instructions told, and by two further runners.
//! - `parcels`: runs with payloads, packets and dumps.
//! - `constants`: runs of images with constants; `sealed`: runs of sealed ones; `calls`: runs with calls of functions;
//!   `timers`: runs with timers.
//! - `scribble`: a second runner, which leaves other values in every byte that a unit leaves open.
//! - `modules`: modules as text, and the text of an image.
//! - `verdicts`: verdicts on rewritten images, and their listings.
#![tactic(auto)]

mod scribble;

pub use scribble::ScribbleRunner;

#[cfg(test)]
mod calls;
#[cfg(test)]
mod constants;
#[cfg(test)]
mod files;
#[cfg(test)]
mod generating;
#[cfg(test)]
mod images;
#[cfg(test)]
mod modules;
#[cfg(test)]
mod parcels;
#[cfg(test)]
mod rewritten;
#[cfg(test)]
mod rows;
#[cfg(test)]
mod runs;
#[cfg(test)]
mod sealed;
#[cfg(test)]
mod tables;
#[cfg(test)]
mod timers;
#[cfg(test)]
mod told;
#[cfg(test)]
mod turns;
#[cfg(test)]
mod units;
#[cfg(test)]
mod verdicts;
#[cfg(test)]
mod words;
