//! The heap, the messages that wait, the message in hand, and what is kept of the modules' constants.
ghost use Rattle.std.specs.Prelude.{◌≡◌, ◌≢◌, ◌<◌, ◌≤◌, ◌+◌, ◌↔◌, [], None, Some, true, length, nat_lt, option_copied, option_map, slice_get, slice_set, IfOk, IfSome, OnOk, OnErr, IsErr};
ghost use Rattle.mote_base.specs.Messages.{appended, front, in_order, list_of, posted, queue_limit, unnamed, without_front, AreWithinLimit};
ghost use Rattle.mote_layout.specs.Memory.{domain_count, heap_start, heap_end, kernel};
ghost use Rattle.mote_layout.specs.Blocks.{AreBlocks, block_of, handed_over, without};
ghost use Rattle.mote_layout.specs.Parcels.{IsParcelOf, KernelStays};
ghost use Rattle.mote_layout.specs.Requests.{Holds, HoldsBytes, LiesInHeap, address_for, served};
ghost use Rattle.domain_model.specs.State.{payload_address};
ghost use Rattle.domain_model.specs.Calls.{carrying};
ghost use Rattle.domain_model.specs.Payloads.{IsHeld, holds_bytes, load_of, without_load, without_payloads};
ghost use Rattle.kernel_call.specs.Mail.{begins, cleared, kept_for, laid_down, none_kept, placed, places, sent_in, settled_to, unloaded};

use crate::kept::Kept;
use crate::place::Place;
use memory_map::MemoryMap;
use mote_base::{Msg, NoMemory, QUEUE_MESSAGES};
use msg_queue::Queues;
use sos_heap::{Heap, NotOwner, Parcel};
use std::alloc::Global;
use std::marker::Model;

/// The blocks of the heap, the messages that wait, the message in hand, and the parcels of the modules' constants.
///
/// The kernel's blocks are exactly the payloads of these messages and these parcels, each once. So a parcel goes on
/// with its message or stays with its module, and ends with the domain that takes it or in the heap.
#[derive(Drop)]
pub struct Mail {
    heap: Heap,
    kept: Kept,
    queues: Queues<Parcel>,
    hand: Option<Msg<Parcel>>,
}

impl Model for Mail {
    ghost use Rattle.domain_model.specs.Payloads.{HoldsPayloads};
    ghost use Rattle.kernel_call.specs.Mail.{MailState};

    ghost Value = { MailState };

    ghost view = { λ m. record { blocks = m.heap; queues = m.queues; hand = m.hand; kept = m.kept } };

    ghost invariant = { λ m. HoldsPayloads m.heap m.queues m.hand m.kept };
}

impl Mail {
    /// Every block is free, no message waits, none is in hand, and nothing is kept.
    pub fn new(alloc: Global) -> Result<Mail, NoMemory>
        ensures { IfOk result (λ m. m ≡
            record { blocks = []; queues = record { high = []; low = [] }; hand = None; kept = none_kept }) }
    {
        let heap = Heap::new(alloc)?;
        let queues = Queues::new(alloc)?;
        let kept = Kept::new(alloc)?;
        Ok(Mail {
            heap,
            kept,
            queues,
            hand: None,
        })
    }

    /// The segments of the blocks are sorted, and no two share a block.
    fn known(&self)
        ensures { AreBlocks self.now.blocks }
    {
        let _map = self.heap.map();
    }

    /// The map of the blocks.
    pub fn map(&self) -> &MemoryMap
        ensures map { result.now ≡ self.now.blocks }
        ensures blocks { AreBlocks self.now.blocks }
    {
        self.heap.map()
    }

    /// The message in hand.
    pub fn hand(&self) -> Option<&Msg<Parcel>>
        ensures { option_copied result ≡ self.now.hand }
    {
        self.hand.as_ref()
    }

    /// How many messages wait in one of the queues.
    pub fn count(&self, high: bool) -> usize
        ensures count { result ≡ length (list_of high self.now.queues) }
        ensures limit { AreWithinLimit self.now.queues }
    {
        self.queues.count(high)
    }

    /// A message of one of the queues by its place, counted from 0 at the front.
    pub fn at(&self, high: bool, i: usize) -> Option<&Msg<Parcel>>
        ensures { option_copied result ≡ slice_get (list_of high self.now.queues) i }
    {
        self.queues.at(high, i)
    }

    /// Whether one of the queues takes one more.
    pub fn has_room(&self, high: bool) -> bool
        ensures { result ≡ nat_lt (length (list_of high self.now.queues)) queue_limit }
    {
        self.queues.count(high) < QUEUE_MESSAGES
    }

    /// Whether what a domain has begins at an address and has at least `len` bytes.
    pub fn holds(&self, d: u8, a: u16, len: u16) -> bool
        ensures held { result ≡ holds_bytes self.now.blocks d a len }
        ensures within { result ≡ true → (heap_start ≤ a) × (a + len ≤ heap_end + 1) }
    {
        self.heap.holds(d, a, len)
    }

    /// Gives a domain a block for `size` bytes, and answers its address.
    pub fn give(&mut self, d: u8, size: u16) -> Option<u16>
        requires domain { d < domain_count }
        ensures address { result ≡ address_for self.old.blocks size }
        ensures within { IfSome result (λ a. LiesInHeap size a) }
        ensures given { self.new ≡ record self.old { blocks = served d size self.old.blocks } }
    {
        self.heap.give(d, size)
    }

    /// Frees a domain's block, which begins at an address.
    pub fn release(&mut self, d: u8, a: u16) -> Result<(), NotOwner>
        requires domain { d < domain_count }
        ensures refused { IsErr result ↔ (¬ Holds self.old.blocks d a) }
        ensures released { OnOk result (self.new ≡ record self.old { blocks = without (block_of a) self.old.blocks }) }
        ensures unchanged { OnErr result (self.new ≡ self.old) }
    {
        self.heap.release(d, a)
    }

    /// Hands a block of a domain to another domain.
    pub fn change(&mut self, d: u8, a: u16, to: u8) -> Result<(), NotOwner>
        requires domain { d < domain_count }
        requires to { to < domain_count }
        ensures refused { IsErr result ↔ (¬ Holds self.old.blocks d a) }
        ensures changed { OnOk result
            (self.new ≡ record self.old { blocks = handed_over (block_of a) to self.old.blocks }) }
        ensures unchanged { OnErr result (self.new ≡ self.old) }
    {
        self.heap.change(d, a, to)
    }

    /// Posts a message that has no payload. False where its queue is full.
    pub fn post(&mut self, m: Msg<Parcel>) -> bool
        requires plain { m.load ≡ None }
        ensures room { result ≡ nat_lt (length (list_of m.high self.old.queues)) queue_limit }
        ensures posted { self.new ≡ record self.old { queues = posted m.high m self.old.queues } }
    {
        self.queues.post(m).is_ok()
    }

    /// Posts a message with the block of a domain that begins at an address, which is the kernel's then. False where
    /// its queue is full: the block stays the domain's.
    pub fn send(&mut self, m: Msg<Parcel>, d: u8, a: u16) -> bool
        requires domain { d < domain_count }
        requires held { HoldsBytes self.old.blocks d a m.len }
        ensures room { result ≡ nat_lt (length (list_of m.high self.old.queues)) queue_limit }
        ensures sent { self.new ≡ sent_in result m (block_of a) self.old }
    {
        if self.queues.count(m.high) >= QUEUE_MESSAGES {
            return false;
        }
        let Ok(parcel) = self.heap.lift(d, a, m.len) else {
            unreachable!()
        };
        append(&mut self.queues, carrying(m, parcel));
        true
    }

    /// Posts a message with a new block of the kernel's for its bytes, and answers the block's address. None where
    /// there is no place for it.
    pub fn issue(&mut self, m: Msg<Parcel>) -> Option<u16>
        requires room { nat_lt (length (list_of m.high self.old.queues)) queue_limit ≡ true }
        ensures address { result ≡ address_for self.old.blocks m.len }
        ensures within { IfSome result (λ a. LiesInHeap m.len a) }
        ensures issued { IfSome result (λ a. self.new ≡ record self.old {
          blocks = served kernel m.len self.old.blocks;
          queues = appended m.high (carrying m (block_of a)) self.old.queues;
        }) }
        ensures same { result ≡ None → self.new ≡ self.old }
    {
        let parcel = self.heap.issue(m.len)?;
        let address = parcel.addr();
        append(&mut self.queues, carrying(m, parcel));
        Some(address)
    }

    /// Takes the first message that waits in hand, and answers its receiver.
    pub fn next(&mut self) -> Option<u8>
        requires free { self.old.hand ≡ None }
        ensures receiver { result ≡ option_map (λ m. m.to) (front self.old.queues) }
        ensures none { (result ≡ None) ↔ (front self.old.queues ≡ None) }
        ensures next { self.new ≡ record self.old {
          queues = without_front self.old.queues;
          hand = front self.old.queues;
        } }
        ensures same { result ≡ None → self.new ≡ self.old }
    {
        self.hand = self.queues.next();
        receiver_of(&self.hand)
    }

    /// Holds a message that has no payload.
    pub fn hold(&mut self, message: Msg<Parcel>)
        requires free { self.old.hand ≡ None }
        requires plain { message.load ≡ None }
        ensures { self.new ≡ record self.old { hand = Some message } }
    {
        self.hand = Some(message);
    }

    /// Gives the payload in hand, where there is one, to a domain, and answers its address, or 0.
    pub fn take(&mut self, d: u8) -> u16
        requires domain { d < domain_count }
        ensures address { result ≡ payload_address (load_of self.old.hand) }
        ensures taken { self.new ≡ settled_to (load_of self.old.hand) d self.old }
    {
        match unload(&mut self.hand) {
            None => 0,
            Some(parcel) => self.heap.settle(parcel, d),
        }
    }

    /// Lays down what is in hand. A payload that was not taken is free.
    pub fn lay_down(&mut self)
        ensures { self.new ≡ laid_down self.old }
    {
        if let Some(message) = self.hand.take() {
            free_load(&mut self.heap, message.load);
        }
    }

    /// Where the block of the constants of a domain's module begins, or 0.
    pub fn constants_at(&self, d: u8) -> u16
        ensures { result ≡ payload_address (kept_for self.now.kept d) }
    {
        self.kept.address(d)
    }

    /// Gives a domain a block for so many bytes of state, and keeps one of the kernel's for so many bytes of constants
    /// in what is left, where bytes are asked for. None where one of the two has no place.
    pub fn place(&mut self, d: u8, state: u16, constants: u16) -> Option<Place>
        requires domain { d < domain_count }
        requires free { kept_for self.old.kept d ≡ None }
        ensures place { result ≡ places self.old.blocks d state constants }
        ensures within { IfSome result (λ p. (state ≢ 0 → LiesInHeap state p.state)
            × (constants ≢ 0 → LiesInHeap constants p.constants)) }
        ensures placed { IfSome result (λ p. self.new ≡ placed d state constants self.old) }
        ensures same { result ≡ None → self.new ≡ self.old }
        ensures domains { length self.old.kept ≡ domain_count }
    {
        self.kept.known();
        let first = give_asked(&mut self.heap, d, state)?;
        if constants == 0 {
            return Some(Place {
                state: first,
                constants: 0,
            });
        }
        match self.heap.issue(constants) {
            Some(parcel) => {
                let second = parcel.addr();
                self.kept.keep(d, parcel);
                Some(Place {
                    state: first,
                    constants: second,
                })
            }
            None => {
                take_back(&mut self.heap, d, state, first);
                None
            }
        }
    }

    /// Takes out every message from or to a module, with its payload, and frees the blocks of its domain and that of
    /// its constants.
    pub fn clear(&mut self, id: u8, d: u8)
        requires domain { d < domain_count }
        ensures { self.new ≡ cleared id d self.old }
    {
        self.let_go(d);
        self.known();
        self.clear_named(id);
        self.heap.purge(d);
    }

    /// Frees what is kept for a domain.
    fn let_go(&mut self, d: u8)
        requires { d < domain_count }
        ensures { self.new ≡ record self.old {
          blocks = without_load (kept_for self.old.kept d) self.old.blocks;
          kept = slice_set self.old.kept d None;
        } }
    {
        self.kept.known();
        let parcel = self.kept.hand_out(d);
        free_load(&mut self.heap, parcel);
    }

    /// Takes out every message from or to a module, with its payload.
    fn clear_named(&mut self, id: u8)
        requires { AreBlocks self.old.blocks }
        ensures { self.new ≡ record self.old {
          blocks = without_payloads id (in_order self.old.queues) self.old.blocks;
          queues = unnamed id self.old.queues;
        } }
    {
        'named: loop {
            match self.queues.take_named(id) {
                Some(message) => free_load(&mut self.heap, message.load),
                None => return,
            }
        }
    }
}

/// Gives a domain a block where it asks for bytes, and tells where it begins, or 0. None where there is no place.
fn give_asked(heap: &mut Heap, d: u8, size: u16) -> Option<u16>
    requires domain { d < domain_count }
    ensures address { result ≡ begins heap.old size }
    ensures within { IfSome result (λ a. size ≢ 0 → LiesInHeap size a) }
    ensures given { heap.new ≡ served d size heap.old }
    ensures blocks { AreBlocks heap.old × AreBlocks heap.new }
    ensures kernel { KernelStays heap.old heap.new }
{
    if size == 0 {
        let _map = heap.map();
        return Some(0);
    }
    heap.give(d, size)
}

/// Frees a block again that a domain was given for so many bytes.
fn take_back(heap: &mut Heap, d: u8, size: u16, address: u16)
    requires domain { d < domain_count }
    requires held { size ≢ 0 → Holds heap.old d address }
    ensures none { size ≡ 0 → heap.new ≡ heap.old }
    ensures back { size ≢ 0 → heap.new ≡ without (block_of address) heap.old }
{
    if size > 0 && heap.release(d, address).is_err() {
        unreachable!()
    }
}

/// The message with a payload.
fn carrying(message: Msg<Parcel>, parcel: Parcel) -> Msg<Parcel>
    ensures { result ≡ record message { load = Some parcel } }
{
    let load = Some(parcel);
    Msg { load, ..message }
}

/// Takes the payload out of the message in hand.
fn unload(hand: &mut Option<Msg<Parcel>>) -> Option<Parcel>
    ensures load { result ≡ load_of hand.old }
    ensures rest { hand.new ≡ unloaded hand.old }
{
    let message = hand.as_mut()?;
    message.load.take()
}

/// Frees the block of a parcel, if there is one.
fn free_load(heap: &mut Heap, load: Option<Parcel>)
    requires { IsHeld heap.old load }
    ensures load { heap.new ≡ without_load load heap.old }
    ensures blocks { AreBlocks heap.old × AreBlocks heap.new }
{
    match load {
        Some(parcel) => heap.scrap(parcel),
        None => {
            let _map = heap.map();
        }
    }
}

/// The receiver of a message.
fn receiver_of(m: &Option<Msg<Parcel>>) -> Option<u8>
    ensures { result ≡ option_map (λ m. m.to) m.now }
{
    m.as_ref().map(|message| message.to)
}

/// Posts a message to a queue that has room.
fn append(queues: &mut Queues<Parcel>, message: Msg<Parcel>)
    requires { nat_lt (length (list_of message.high queues.old)) queue_limit ≡ true }
    ensures { queues.new ≡ appended message.high message queues.old }
{
    let posted = queues.post(message);
    prove!(posted.is_ok());
}
