//! What the heap asks of its blocks, and the changes of single entries.

ghost use Rattle.std.specs.Prelude.{◌≡◌, ◌≤◌, ◌*◌, Some, IfOk, IsErr, ◌↔◌, MatchResult};
ghost use Rattle.mote_layout.specs.Blocks.{AreBlocks, without_owner};
ghost use Rattle.mote_layout.specs.Memory.{block_bytes};
ghost use Rattle.mote_layout.specs.Requests.{beginning_at, Holds, HoldsBytes};

use crate::blocks::Blocks;
use memory_map::Segment;
use mote_layout::{BLOCK_BYTES, BLOCKS, block_address};
use thiserror::Error;

/// The address is not the start of a block of the domain, or the block has too few bytes.
#[derive(Clone, Copy, Debug, PartialEq, Eq, Error)]
#[error("not the start of a block of the domain")]
pub struct NotOwner;

/// The segment that begins at an address.
pub fn beginning_at(blocks: &Blocks, a: u16) -> Option<Segment>
    ensures segment { result ≡ beginning_at blocks.now a }
    ensures blocks { AreBlocks blocks.now }
{
    let segment = blocks.segment_at(a)?;
    if block_address(segment.first) == a {
        Some(segment)
    } else {
        None
    }
}

/// The segment of a domain that begins at an address.
pub fn held(blocks: &Blocks, d: u8, a: u16) -> Result<Segment, NotOwner>
    ensures held { MatchResult result (λ s. (beginning_at blocks.now a ≡ Some s) × (s.owner ≡ d))
        (λ _. ¬ Holds blocks.now d a) }
    ensures blocks { AreBlocks blocks.now }
{
    match beginning_at(blocks, a) {
        Some(segment) if segment.owner == d => Ok(segment),
        _ => Err(NotOwner),
    }
}

/// The segment of a domain that begins at an address and has at least `len` bytes.
pub fn held_bytes(blocks: &Blocks, d: u8, a: u16, len: u16) -> Result<Segment, NotOwner>
    ensures held { IfOk result (λ s.
        (beginning_at blocks.now a ≡ Some s) × (s.owner ≡ d) × (len ≤ block_bytes * s.count)) }
    ensures refused { IsErr result ↔ (¬ HoldsBytes blocks.now d a len) }
    ensures blocks { AreBlocks blocks.now }
{
    let segment = held(blocks, d, a)?;
    if BLOCK_BYTES * segment.count < len {
        return Err(NotOwner);
    }
    Ok(segment)
}

/// Frees the blocks of a domain.
pub fn clear_owner(blocks: &mut Blocks, d: u8)
    ensures cleared { blocks.new ≡ without_owner d blocks.old }
{
    for block in 0..BLOCKS {
        if let Ok(segment) = held(blocks, d, block_address(block)) {
            blocks.clear_segment(segment);
        }
    }
}
