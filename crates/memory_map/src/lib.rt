//! The memory map: which blocks of the heap belong to whom.
//!
//! After Harbor's memory map (Kumar et al., IPSN 2007). A map is seen as *Blocks* of `mote_layout`: the
//! sorted list of its segments. `new` is the empty list, `set_segment` and `clear_segment` put one segment
//! into the list and take one out, and `owner_at` and `segment_at` read it by address. Every clause speaks
//! of that list alone. The map keeps one byte a block (`marks`), which stand for the list (`specs/Marks.antt`), so
//! that the owner of an address costs one look.
#![tactic(auto)]

mod map;
mod marks;

pub use map::MemoryMap;
pub use mote_layout::Segment;
