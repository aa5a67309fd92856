//! Rewriting: the code of a module with each store, stack change and call checked.
//!
//! [`bank_code`] gives the words of units: their templates, one after the other, in the shapes to which the rounds of
//! `harbor_short` come. [`rewrite`] makes a whole image file of an image: its words are those of its units, and it is
//! entered at the starts of their templates. That such words exist, are determined and spell the units are laws.
#![tactic(auto)]

mod bank;
mod error;
mod image;
mod laws;

pub use bank::bank_code;
pub use error::RewriteError;
pub use image::rewrite;
pub use laws::{emitted_spell, one_emission, rewritten_is_accepted, words_exist};
