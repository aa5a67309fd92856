//! The loader: images prepared for their loads, and modules that come in and go.
//!
//! A [`Ready`] is what the file of an image comes to: the module that it holds, or the first refusal of its fields, of
//! its code or of its rewritten words (`Prepared` of `domain_model`). It keeps the words of the module's bank beside
//! the units that they spell: the image's own where a rewriter made it, and else those that the rewriter gives to its
//! units (`specs/Banks.antt`). [`load`] brings its module into a kernel and [`unload`] takes one out; neither starts a
//! handler (`specs/Loads.antt`).
#![tactic(auto)]

mod loadable;
mod loading;
mod preparing;
mod ready;
mod refusal;

pub use loading::{load, unload};
pub use ready::Ready;
pub use refusal::{LoadRefusal, NotLoaded};
