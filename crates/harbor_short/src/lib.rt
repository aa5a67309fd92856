//! The shapes of rewritten code.
//!
//! A skip or a branch has a long template and a short one. The shapes are chosen in rounds: all begin long, each round
//! makes short what can be short with the places that the shapes before it give, and the rounds end when one changes
//! nothing. [`choose`] gives the shapes to which they come, [`measure`] where templates in these shapes start. Which
//! choice is shortest is not claimed.
#![tactic(auto)]

mod laws;
mod rounds;

pub use laws::{chosen_in_reach, distances_stay, one_choice, some_choice};
pub use rounds::{choose, measure};
