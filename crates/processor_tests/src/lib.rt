//! Tests of the processor's crates: of their public calls alone.
#![tactic(auto)]

#[cfg(test)]
mod alu;
#[cfg(test)]
mod clients;
#[cfg(test)]
mod isa;
#[cfg(test)]
mod machine;
