//! The map of the blocks, and the index of its holes.

ghost use Rattle.std.specs.Prelude.{◌≡◌, ◌≤◌, Some, [], IfOk};
ghost use Rattle.mote_layout.specs.Blocks.{AreBlocks, Fits, handed_over, inserted, segment_at, starting_at, without};
ghost use Rattle.mote_layout.specs.Fit.{fit};

use crate::runs::Runs;
use crate::tree::{LEAVES, NODES, lowest, mend, set_blocks};
use memory_map::{MemoryMap, Segment};
use mote_base::NoMemory;
use mote_layout::{BLOCKS, KERNEL};
use std::alloc::Global;
use std::marker::Model;

/// The runs of a block that is taken.
const TAKEN: Runs = Runs {
    width: 1,
    left: 0,
    right: 0,
    longest: 0,
};

/// The blocks of the heap: who holds them, and where free ones stand side by side.
///
/// It has the calls of the map with the map's clauses, and keeps the index after each change.
#[derive(Drop)]
pub struct Blocks {
    map: MemoryMap,
    nodes: Box<[Runs; NODES]>,
}

impl Model for Blocks {
    ghost use Rattle.std.specs.Prelude.{List};
    ghost use Rattle.mote_layout.specs.declared.segment.Segment.{Segment};
    ghost use Rattle.sos_heap.specs.Tree.{IsIndexed};

    ghost Value = { List Segment };

    ghost view = { λ b. b.map };

    ghost invariant = { λ b. IsIndexed b.map b.nodes.value };
}

impl Blocks {
    /// Blocks that are all free.
    pub fn new(alloc: Global) -> Result<Blocks, NoMemory>
        ensures { IfOk result (λ blocks. blocks ≡ []) }
    {
        let map = MemoryMap::new(alloc)?;
        let mut nodes = Box::new(alloc, [TAKEN; NODES])?;
        mend(&mut *nodes, 0, LEAVES);
        set_blocks(&mut *nodes, 0, usize::from(BLOCKS), true);
        Ok(Blocks { map, nodes })
    }

    /// The map of these blocks.
    pub fn map(&self) -> &MemoryMap
        ensures map { result.now ≡ self.now }
    {
        &self.map
    }

    /// The segment in which an address lies, or None where its block is free or it is outside the heap.
    pub fn segment_at(&self, a: u16) -> Option<Segment>
        ensures segment { result ≡ segment_at self.now a }
        ensures blocks { AreBlocks self.now }
    {
        self.map.segment_at(a)
    }

    /// The first block of the lowest run of `count` free blocks.
    pub fn lowest_fit(&self, count: u16) -> Option<u16>
        requires { 1 ≤ count }
        ensures { result ≡ fit self.now count }
    {
        lowest(&*self.nodes, count)
    }

    /// Gives the `count` blocks from `first` on to an owner, as one segment.
    pub fn set_segment(&mut self, first: u16, count: u16, owner: u8)
        requires some { 1 ≤ count }
        requires free { Fits self.old first count }
        requires owner { owner ≤ KERNEL }
        ensures set { self.new ≡ inserted (record { first = first; count = count; owner = owner }) self.old }
        ensures blocks { AreBlocks self.old × AreBlocks self.new }
    {
        self.map.set_segment(first, count, owner);
        let block = usize::from(first);
        let number = usize::from(count);
        set_blocks(&mut *self.nodes, block, number, false);
    }

    /// Frees the blocks of a segment.
    pub fn clear_segment(&mut self, segment: Segment)
        requires { starting_at self.old segment.first ≡ Some segment }
        ensures cleared { self.new ≡ without segment.first self.old }
        ensures blocks { AreBlocks self.old × AreBlocks self.new }
    {
        self.map.clear_segment(segment.first);
        let block = usize::from(segment.first);
        let number = usize::from(segment.count);
        set_blocks(&mut *self.nodes, block, number, true);
    }

    /// Gives a segment to another owner. No other block is free afterwards, so the index stays as it is.
    pub fn hand_over(&mut self, segment: Segment, owner: u8)
        requires there { starting_at self.old segment.first ≡ Some segment }
        requires owner { owner ≤ KERNEL }
        ensures handed_over { self.new ≡ handed_over segment.first owner self.old }
        ensures blocks { AreBlocks self.old × AreBlocks self.new }
    {
        self.map.clear_segment(segment.first);
        self.map.set_segment(segment.first, segment.count, owner);
    }
}
