//! How rewritten code spells units.
//!
//! [`spell_unit`] gives the words of one unit's template. The definitions of templates, and of which words spell which
//! units, stand with the units; here are the laws that words spell at most one list of units and that templates side by
//! side spell theirs.
#![tactic(auto)]

mod forms;
mod guards;
mod laws;
mod spelling;

pub use guards::{address_of, guard_of};
pub use laws::{one_spelling, one_wording, templates_spell};
pub use spelling::{Template, spell_unit};
