//! The byte of each block: four bits of owner, one that says that a segment starts there, and one that says that the
//! block is used.

ghost use Rattle.std.specs.Prelude.{◌≡◌, ℕ, ◌+◌, ◌≤◌, ◌<◌, Option, length, get_or};
ghost use Rattle.std.specs.Option.{option_map_or};
ghost use Rattle.mote_layout.specs.Memory.{kernel, block_count};
ghost use Rattle.mote_layout.specs.declared.segment.Segment.{Segment};
ghost use Rattle.memory_map.specs.Marks.{EndsBefore, StandsIn, Tells, goes_on, painted, wiped};

use mote_layout::{BLOCKS, KERNEL, Segment, block_of};

/// A map has a byte for each block of the heap.
pub const MARKS: usize = BLOCKS as usize;

/// The bit of a block with which a segment starts. The owner stands in the bits below it.
const START: u8 = 16;

/// The bit of a block that is used.
const USED: u8 = 32;

/// Writes the bytes of a segment.
pub fn paint(bytes: &mut [u8; MARKS], first: u16, count: u16, owner: u8)
    requires some { 1 ≤ count }
    requires within { first + count ≤ BLOCKS }
    requires size { length bytes.old ≡ block_count }
    requires owner { owner ≤ KERNEL }
    ensures size { length bytes.new ≡ length bytes.old }
    ensures each { (block : ℕ)
        → get_or bytes.new block 0 ≡ painted (record { first = first; count = count; owner = owner }) bytes.old block }
{
    let first = usize::from(first);
    bytes[first] = USED + START + owner;
    for block in first + 1..first + usize::from(count) {
        bytes[block] = USED + owner;
    }
}

/// Frees the blocks of the segment that starts with a block.
pub fn wipe(bytes: &mut [u8; MARKS], first: u16)
    requires size { length bytes.old ≡ block_count }
    requires within { first < BLOCKS }
    ensures size { length bytes.new ≡ length bytes.old }
    ensures each { (end : ℕ) → EndsBefore bytes.old first end
        → (block : ℕ) → get_or bytes.new block 0 ≡ wiped first end bytes.old block }
{
    let first = usize::from(first);
    let end = end_of(bytes, first);
    free_blocks(bytes, first, end);
}

/// Frees the blocks from `first` on, below `end`.
fn free_blocks(bytes: &mut [u8; MARKS], first: usize, end: usize)
    requires size { length bytes.old ≡ block_count }
    requires order { first ≤ end }
    requires within { end ≤ BLOCKS }
    ensures size { length bytes.new ≡ length bytes.old }
    ensures each { (block : ℕ) → get_or bytes.new block 0 ≡ wiped first end bytes.old block }
{
    for block in first..end {
        bytes[block] = 0;
    }
}

/// The owner of an address, by the byte of its block.
pub fn owner_in(bytes: &[u8; MARKS], a: u16) -> u8
    requires size { length bytes.now ≡ block_count }
    ensures { (told : Option Segment) → Tells bytes.now a told
        → result ≡ option_map_or (λ (s : Segment). s.owner) told kernel }
{
    let Some(block) = block_of(a) else {
        return KERNEL;
    };
    let byte = bytes[usize::from(block)];
    if byte < USED { KERNEL } else { byte % START }
}

/// The segment in which an address lies, by its ends.
pub fn segment_in(bytes: &[u8; MARKS], a: u16) -> Option<Segment>
    requires size { length bytes.now ≡ block_count }
    ensures { (told : Option Segment) → Tells bytes.now a told → result ≡ told }
{
    let block = usize::from(block_of(a)?);
    if bytes[block] < USED {
        return None;
    }
    let first = start_of(bytes, block);
    let end = end_of(bytes, first);
    Some(Segment {
        first: first as u16,
        count: (end - first) as u16,
        owner: bytes[first] % START,
    })
}

/// The block with which the segment of a block starts.
fn start_of(bytes: &[u8; MARKS], block: usize) -> usize
    requires size { length bytes.now ≡ block_count }
    requires within { block < BLOCKS }
    ensures within { result ≤ block }
    ensures start { (s : Segment) → StandsIn bytes.now s → s.first ≤ block → block < s.first + s.count
        → result ≡ s.first }
{
    let mut first = block;
    while 0 < first && is_further(bytes[first]) {
        first -= 1;
    }
    first
}

/// The block behind the segment that starts with a block.
fn end_of(bytes: &[u8; MARKS], first: usize) -> usize
    requires size { length bytes.now ≡ block_count }
    requires within { first < BLOCKS }
    ensures some { first < result }
    ensures within { result ≤ BLOCKS }
    ensures end { (end : ℕ) → EndsBefore bytes.now first end → result ≡ end }
{
    let mut end = first + 1;
    while end < MARKS && is_further(bytes[end]) {
        end += 1;
    }
    end
}

/// Whether a byte is that of a further block of a segment.
fn is_further(byte: u8) -> bool
    ensures { result ≡ goes_on byte }
{
    USED <= byte && byte < USED + START
}
