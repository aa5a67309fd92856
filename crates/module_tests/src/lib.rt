//! Tests of the crates that read and write modules, and of the generator: of their public calls alone.
#![tactic(auto)]

#[cfg(test)]
mod assembler;
#[cfg(test)]
mod bundles;
#[cfg(test)]
mod image;
#[cfg(test)]
mod lines;
#[cfg(test)]
mod rewritten;
#[cfg(test)]
mod short;
#[cfg(test)]
mod spelled;
#[cfg(test)]
mod units;
#[cfg(test)]
mod verified;
