//! The map, over the bytes of its blocks.

ghost use Rattle.std.specs.Prelude.{◌≡◌, ◌≤◌, ◌↔◌, [], None, IfOk, IsSome};
ghost use Rattle.mote_layout.specs.Blocks.{AreBlocks, IsFreeAddress, owner_at, segment_at, starting_at, Fits, inserted, without};

use crate::marks::{MARKS, owner_in, paint, segment_in, wipe};
use mote_base::NoMemory;
use mote_layout::{KERNEL, Segment};
use std::alloc::Global;
use std::marker::Model;

/// The owners of the blocks of the heap, a byte a block. What no segment has is free.
#[derive(Drop)]
pub struct MemoryMap {
    bytes: Box<[u8; MARKS]>,
}

impl Model for MemoryMap {
    ghost use Rattle.std.specs.Prelude.{List};
    ghost use Rattle.mote_layout.specs.declared.segment.Segment.{Segment};
    ghost use Rattle.memory_map.specs.Marks.{segments_from, StandFor};

    ghost Value = { List Segment };

    ghost view = { λ m. segments_from 0 m.bytes.value };

    ghost invariant = { λ m. StandFor (segments_from 0 m.bytes.value) m.bytes.value };
}

impl MemoryMap {
    /// A map of which every block is free.
    pub fn new(alloc: Global) -> Result<MemoryMap, NoMemory>
        ensures { IfOk result (λ map. map ≡ []) }
    {
        let bytes = Box::new(alloc, [0; MARKS])?;
        Ok(MemoryMap { bytes })
    }

    /// Gives the `count` blocks from `first` on to an owner, as one segment.
    pub fn set_segment(&mut self, first: u16, count: u16, owner: u8)
        requires some { 1 ≤ count }
        requires free { Fits self.old first count }
        requires owner { owner ≤ KERNEL }
        ensures set { self.new ≡ inserted (record { first = first; count = count; owner = owner }) self.old }
        ensures blocks { AreBlocks self.old × AreBlocks self.new }
    {
        paint(&mut *self.bytes, first, count, owner);
    }

    /// Frees the blocks of the segment that begins with the block `first`.
    pub fn clear_segment(&mut self, first: u16)
        requires { IsSome (starting_at self.old first) }
        ensures cleared { self.new ≡ without first self.old }
        ensures blocks { AreBlocks self.old × AreBlocks self.new }
    {
        wipe(&mut *self.bytes, first);
    }

    /// The owner of an address. What is free or outside the heap counts as the kernel's.
    pub fn owner_at(&self, a: u16) -> u8
        ensures owner { result ≡ owner_at self.now a }
        ensures blocks { AreBlocks self.now }
    {
        owner_in(&*self.bytes, a)
    }

    /// The segment in which an address lies, or None where its block is free or it is outside the heap.
    pub fn segment_at(&self, a: u16) -> Option<Segment>
        ensures segment { result ≡ segment_at self.now a }
        ensures none { (result ≡ None) ↔ IsFreeAddress self.now a }
        ensures blocks { AreBlocks self.now }
    {
        segment_in(&*self.bytes, a)
    }
}
