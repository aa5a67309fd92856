//! The memory of the mote and its entry page: every number on which two crates have to agree.
//!
//! - `memory` has the addresses of the data space, the blocks of the heap, the stack with its floor,
//!   the domains and their flash banks.
//! - `blocks` has the two ways between an address and its block.
//! - `limits` has how much of each thing there may be.
//! - `page` has the entries, the program addresses by which rewritten code enters the kernel.
//! - `segment` has the run of blocks with one owner, of which a memory map is a list.
//!
//! The definitions of `specs/` write each number themselves, and the laws `memory_is_as_defined`,
//! `limits_are_as_defined` and `page_is_as_defined` say that the constants are those numbers.
//! `entry_of` is exact. *Blocks* (`specs/Blocks.antt`), *Least fit* (`specs/Fit.antt`), *Permitted store*
//! (`specs/Store.antt`), *Permitted load* (`specs/Load.antt`) and the parcels of the kernel (`specs/Parcels.antt`) are
//! defined here over lists, for the crates above, with their laws in `blocks_laws`, `segment_laws`, `load_laws` and
//! `least_fit_laws`.
#![tactic(auto)]

mod blocks;
mod laws;
mod limits;
mod memory;
mod page;
mod segment;

pub use blocks::{block_address, block_of};
pub use laws::{blocks_laws, least_fit_laws, load_laws, segment_laws};
pub use limits::{
    DEFAULT_HANDLER_UNITS, DEFAULT_UNITS, EVENTS, IMAGE_BYTES, IMAGES, LINES_PER_TURN,
    MAX_HANDLER_UNITS, MAX_UNITS, PAYLOAD_BYTES, PROVIDED, SCRIPT_BYTES, SUBSCRIBED,
    limits_are_as_defined,
};
pub use memory::{
    BANK_WORDS, BANKS_START, BLOCK_BYTES, BLOCKS, DOMAINS, FIRST_PORT, FLOOR, HEAP_END, HEAP_START,
    KERNEL, KERNEL_BYTES_END, KERNEL_BYTES_START, MESSAGE_FRAME, MESSAGE_FRAME_BYTES, POINTER_X,
    POINTER_Y, POINTER_Z, RAM_BYTES, RAM_END, RAM_START, RED_ZONE_END, RED_ZONE_START, REGISTERS,
    SPH, SPH_PORT, SPL, SPL_PORT, SREG, SREG_PORT, STACK_START, STACK_TOP, memory_is_as_defined,
};
pub use page::{
    DISPLACEMENTS, Entry, KERNEL_CALLS, KERNEL_ENTRIES, LOAD_LDS_GUARD, LOAD_X_DEC_GUARD,
    LOAD_X_GUARD, LOAD_X_INC_GUARD, LOAD_Y_DEC_GUARD, LOAD_Y_GUARDS, LOAD_Y_INC_GUARD,
    LOAD_Z_DEC_GUARD, LOAD_Z_GUARDS, LOAD_Z_INC_GUARD, LOCAL_CALL_ENTRY, PAGE_START, POP_GUARD,
    PUSH_GUARD, RESERVE_ENTRY, RETURN_ENTRY, SLOT_ENTRIES, SLOT_INDIRECT_ENTRY, SLOTS, SP_GUARD,
    STORE_STS_GUARD, STORE_X_DEC_GUARD, STORE_X_GUARD, STORE_X_INC_GUARD, STORE_Y_DEC_GUARD,
    STORE_Y_GUARDS, STORE_Y_INC_GUARD, STORE_Z_DEC_GUARD, STORE_Z_GUARDS, STORE_Z_INC_GUARD,
    entry_of, page_is_as_defined,
};
pub use segment::Segment;
