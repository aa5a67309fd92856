//! The blocks of the heap and their addresses.

ghost use Rattle.std.specs.Prelude.{◌≡◌, ◌≤◌, ◌<◌, ◌⊎◌, ◌↔◌, None, IfSome};
ghost use Rattle.mote_layout.specs.Blocks.{block_address, block_of};

use crate::memory::{BLOCK_BYTES, BLOCKS, HEAP_END, HEAP_START};

/// The first address of a block. That of the number behind the last block is the address behind the heap.
pub fn block_address(block: u16) -> u16
    requires { block ≤ BLOCKS }
    ensures { result ≡ block_address block }
{
    HEAP_START + BLOCK_BYTES * block
}

/// The block in which an address lies, or None outside the heap.
pub fn block_of(address: u16) -> Option<u16>
    ensures block { IfSome result (λ block. block ≡ block_of address) }
    ensures within { IfSome result (λ block. block < BLOCKS) }
    ensures none { (result ≡ None) ↔ ((address < HEAP_START) ⊎ (HEAP_END < address)) }
{
    if address < HEAP_START || HEAP_END < address {
        return None;
    }
    Some((address - HEAP_START) / BLOCK_BYTES)
}
