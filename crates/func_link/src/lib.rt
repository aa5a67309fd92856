//! The links between modules: what each slot of each module leads to.
//!
//! After SOS (Han et al., MobiSys 2005), where a module subscribes to functions of others by the module's id and the
//! function's, and a link is made only where the prototypes are equal. The links are seen as the list of the modules
//! that are in, a domain and a face each, in the order in which they came. `bound` is *Bound slot* of that list
//! (`module_image`'s `bound_slot`), after every list of `module_in` and `module_out`. An entry for each domain and slot
//! is kept beside the faces, and each entry is that value, so a call reads one entry. After `new` no call takes memory.
//!
//! `bound_slot_laws` says of the definition that a slot leads exactly to the function that its module subscribes to.
#![tactic(auto)]

mod laws;
mod links;
mod seat;
mod slots;

pub use laws::bound_slot_laws;
pub use links::Links;
