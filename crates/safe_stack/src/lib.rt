//! The safe stack: the frames of the calls that have not returned.
//!
//! After Harbor's safe stack (Kumar et al., IPSN 2007). A return address on the stack of a module could be written
//! over by that module, so where a call comes back to is kept here, apart from the memory of the mote. The stack is
//! seen as the list of its frames, of which the first is the top. It has room for `FRAMES` of `mote_base`, and takes no
//! memory.
#![tactic(auto)]

mod stack;

pub use mote_base::Frame;
pub use stack::{Full, SafeStack};
