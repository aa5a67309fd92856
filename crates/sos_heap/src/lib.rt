//! The heap: who gets which blocks, and the parcels that the kernel passes on.
//!
//! After the dynamic memory of SOS (Han et al., MobiSys 2005), in which a block has an owner and can be handed over,
//! with the owners of Harbor's memory map. A heap is seen as *Blocks* of `mote_layout`, the sorted list of its
//! segments: `give` and `issue` place a request exactly by *Least fit*, and each other call changes exactly the
//! entry that it names. A `Parcel` stands for one block of the kernel's; it is made by `issue` and `lift` alone, can't
//! be copied, and ends in `settle` or `scrap`. Beside its exact clause each call has one, `kernel`, that says how
//! the kernel's entries change, by which the layer above keeps them to be exactly the parcels that it holds.
//!
//! The lowest place for a request is found by an index (`tree`), which each call keeps: a tree over the blocks, in
//! which each node has the runs of free blocks of its stretch. `blocks` has the map and the index together, with the
//! map's clauses.
//!
//! The heap knows whose the bytes are and not what they are: to clear a block is the kernel's work.
#![tactic(auto)]

mod blocks;
mod fit;
mod heap;
mod held;
mod parcel;
mod runs;
mod tree;

pub use heap::Heap;
pub use held::NotOwner;
pub use parcel::Parcel;
