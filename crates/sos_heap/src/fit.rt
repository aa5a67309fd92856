//! Where a request is placed.

ghost use Rattle.std.specs.Prelude.{◌≡◌, ◌≤◌};
ghost use Rattle.mote_layout.specs.Blocks.{AreBlocks};
ghost use Rattle.mote_layout.specs.Requests.{place_for, served};

use crate::blocks::Blocks;
use mote_layout::{BLOCK_BYTES, KERNEL};

/// Gives an owner the blocks of a request for `size` bytes, and answers the first of them.
pub fn serve(blocks: &mut Blocks, size: u16, owner: u8) -> Option<u16>
    requires owner { owner ≤ KERNEL }
    requires blocks { AreBlocks blocks.old }
    ensures place { result ≡ place_for blocks.old size }
    ensures served { blocks.new ≡ served owner size blocks.old }
    ensures blocks { AreBlocks blocks.new }
{
    if size == 0 {
        return None;
    }
    let count = size.div_ceil(BLOCK_BYTES);
    let first = blocks.lowest_fit(count)?;
    blocks.set_segment(first, count, owner);
    Some(first)
}
