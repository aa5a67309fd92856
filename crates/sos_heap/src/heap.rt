//! The heap and its calls.

ghost use Rattle.std.specs.Prelude.{◌≡◌, ◌<◌, ◌↔◌, [], None, IfOk, IfSome, OnOk, OnErr, IsErr, IsTrue, MatchOption};
ghost use Rattle.mote_layout.specs.Memory.{kernel};
ghost use Rattle.mote_layout.specs.Blocks.{AreBlocks, block_address, block_of, without, without_owner, handed_over};
ghost use Rattle.mote_layout.specs.Requests.{address_for, HasNoPlace, LiesInHeap, payload_for, served, Holds, HoldsBytes};
ghost use Rattle.mote_layout.specs.Parcels.{IsParcelOf};
ghost use Rattle.mote_layout.specs.Parcels.{KernelStays, KernelGains, KernelLoses};

use crate::Parcel;
use crate::blocks::Blocks;
use crate::fit::serve;
use crate::held::{NotOwner, beginning_at, clear_owner, held, held_bytes};
use memory_map::MemoryMap;
use mote_base::NoMemory;
use mote_layout::{DOMAINS, KERNEL, block_address};
use std::alloc::Global;
use std::marker::Model;

/// The blocks of the heap and who holds them.
#[derive(Drop)]
pub struct Heap {
    blocks: Blocks,
}

impl Model for Heap {
    ghost use Rattle.std.specs.Prelude.{List};
    ghost use Rattle.mote_layout.specs.Blocks.{AreBlocks};
    ghost use Rattle.mote_layout.specs.declared.segment.Segment.{Segment};

    ghost Value = { List Segment };

    ghost view = { λ h. h.blocks };

    ghost invariant = { λ h. AreBlocks h.blocks };
}

impl Heap {
    /// A heap of which every block is free. No later call takes memory.
    pub fn new(alloc: Global) -> Result<Heap, NoMemory>
        ensures { IfOk result (λ heap. heap ≡ []) }
    {
        let blocks = Blocks::new(alloc)?;
        Ok(Heap { blocks })
    }

    /// Gives a domain a block for `size` bytes, and answers its address: None exactly where `size` is 0 or
    /// no run of free blocks is long enough.
    pub fn give(&mut self, d: u8, size: u16) -> Option<u16>
        requires domain { d < DOMAINS }
        ensures address { result ≡ address_for self.old size }
        ensures none { (result ≡ None) ↔ HasNoPlace self.old size }
        ensures within { IfSome result (λ a. LiesInHeap size a) }
        ensures given { self.new ≡ served d size self.old }
        ensures blocks { AreBlocks self.old × AreBlocks self.new }
        ensures kernel { KernelStays self.old self.new }
    {
        let block = serve(&mut self.blocks, size, d)?;
        Some(block_address(block))
    }

    /// Gives the kernel a block for `size` bytes, as a parcel of that length: None as in `give`.
    pub fn issue(&mut self, size: u16) -> Option<Parcel>
        ensures parcel { result ≡ payload_for self.old size }
        ensures none { (result ≡ None) ↔ HasNoPlace self.old size }
        ensures within { IfSome result (λ p. LiesInHeap size (block_address p.block)) }
        ensures issued { self.new ≡ served kernel size self.old }
        ensures blocks { AreBlocks self.old × AreBlocks self.new }
        ensures kernel { MatchOption result (KernelStays self.old self.new) (λ p. KernelGains p self.old self.new) }
    {
        let block = serve(&mut self.blocks, size, KERNEL)?;
        Some(Parcel::new(block, size))
    }

    /// Frees the block of a domain that begins at an address.
    pub fn release(&mut self, d: u8, a: u16) -> Result<(), NotOwner>
        requires domain { d < DOMAINS }
        ensures refused { IsErr result ↔ (¬ Holds self.old d a) }
        ensures held { OnOk result (Holds self.old d a) }
        ensures released { OnOk result (self.new ≡ without (block_of a) self.old) }
        ensures unchanged { OnErr result (self.new ≡ self.old) }
        ensures blocks { AreBlocks self.old × AreBlocks self.new }
        ensures kernel { KernelStays self.old self.new }
    {
        let segment = held(&self.blocks, d, a)?;
        self.blocks.clear_segment(segment);
        Ok(())
    }

    /// Hands the block of a domain that begins at an address to another domain.
    pub fn change(&mut self, d: u8, a: u16, to: u8) -> Result<(), NotOwner>
        requires domain { d < DOMAINS }
        requires to { to < DOMAINS }
        ensures refused { IsErr result ↔ (¬ Holds self.old d a) }
        ensures held { OnOk result (Holds self.old d a) }
        ensures changed { OnOk result (self.new ≡ handed_over (block_of a) to self.old) }
        ensures unchanged { OnErr result (self.new ≡ self.old) }
        ensures blocks { AreBlocks self.old × AreBlocks self.new }
        ensures kernel { KernelStays self.old self.new }
    {
        let segment = held(&self.blocks, d, a)?;
        self.blocks.hand_over(segment, to);
        Ok(())
    }

    /// Makes the block of a domain that begins at an address the kernel's, as a parcel of its first `len` bytes.
    pub fn lift(&mut self, d: u8, a: u16, len: u16) -> Result<Parcel, NotOwner>
        requires domain { d < DOMAINS }
        ensures refused { IsErr result ↔ (¬ HoldsBytes self.old d a len) }
        ensures held { OnOk result (HoldsBytes self.old d a len) }
        ensures parcel { IfOk result (λ p. (block_address p.block ≡ a) × (p.len ≡ len)) }
        ensures lifted { IfOk result (λ p. self.new ≡ handed_over p.block kernel self.old) }
        ensures unchanged { OnErr result (self.new ≡ self.old) }
        ensures blocks { AreBlocks self.old × AreBlocks self.new }
        ensures kernel { IfOk result (λ p. KernelGains p self.old self.new) }
    {
        let segment = held_bytes(&self.blocks, d, a, len)?;
        self.blocks.hand_over(segment, KERNEL);
        Ok(Parcel::new(segment.first, len))
    }

    /// Gives the block of a parcel to a domain, and answers its address.
    pub fn settle(&mut self, p: Parcel, d: u8) -> u16
        requires parcel { IsParcelOf self.old p }
        requires domain { d < DOMAINS }
        ensures address { result ≡ block_address p.block }
        ensures settled { self.new ≡ handed_over p.block d self.old }
        ensures blocks { AreBlocks self.old × AreBlocks self.new }
        ensures kernel { KernelLoses p self.old self.new }
    {
        let address = p.addr();
        let Some(segment) = beginning_at(&self.blocks, address) else {
            unreachable!()
        };
        self.blocks.hand_over(segment, d);
        address
    }

    /// Frees the block of a parcel.
    pub fn scrap(&mut self, p: Parcel)
        requires parcel { IsParcelOf self.old p }
        ensures scrapped { self.new ≡ without p.block self.old }
        ensures blocks { AreBlocks self.old × AreBlocks self.new }
        ensures kernel { KernelLoses p self.old self.new }
    {
        let address = p.addr();
        let Some(segment) = beginning_at(&self.blocks, address) else {
            unreachable!()
        };
        self.blocks.clear_segment(segment);
    }

    /// Frees all blocks of a domain.
    pub fn purge(&mut self, d: u8)
        requires domain { d < DOMAINS }
        ensures purged { self.new ≡ without_owner d self.old }
        ensures blocks { AreBlocks self.old × AreBlocks self.new }
        ensures kernel { KernelStays self.old self.new }
    {
        clear_owner(&mut self.blocks, d);
    }

    /// Whether what a domain has begins at an address and has at least `len` bytes. It changes nothing.
    pub fn holds(&self, d: u8, a: u16, len: u16) -> bool
        ensures held { IsTrue result ↔ HoldsBytes self.now d a len }
        ensures blocks { AreBlocks self.now }
    {
        held_bytes(&self.blocks, d, a, len).is_ok()
    }

    /// The map of these blocks.
    pub fn map(&self) -> &MemoryMap
        ensures map { result.now ≡ self.now }
        ensures blocks { AreBlocks result.now }
    {
        self.blocks.map()
    }
}
