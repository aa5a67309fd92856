//! Packets that come by radio.
ghost use Rattle.std.specs.Prelude.{◌≡◌, ◌<◌, ◌≤◌, ◌++◌, ◌∷◌, [], ℕ, IfNone, IfSome, None, Some, false, length, nat_lt, true, ◌==◌};
ghost use Rattle.mote_base.specs.Messages.{appended, queue_limit};
ghost use Rattle.mote_layout.specs.Limits.{payload_limit, turn_lines};
ghost use Rattle.mote_layout.specs.Memory.{kernel};
ghost use Rattle.mote_layout.specs.Blocks.{block_of};
ghost use Rattle.mote_layout.specs.Requests.{LiesInHeap};
ghost use Rattle.domain_model.specs.Calls.{carrying};
ghost use Rattle.domain_model.specs.Given.{given, with_given};
ghost use Rattle.domain_model.specs.Modules.{is_loaded};
ghost use Rattle.domain_model.specs.Radio.{heard, heard_bytes, message_by_radio};
ghost use Rattle.kernel_call.specs.Values.{given_as, packet, packet_line};

use crate::frame::empty_message;
use crate::kernel::Kernel;
use domain_model::{Lines, TraceLine, Why};
use mote_base::Msg;
use mote_layout::BLOCK_BYTES;
use sos_heap::Parcel;

/// The radio as a sender of messages.
const RADIO: u8 = 255;

impl Kernel {
    /// A packet of at most 96 bytes comes, in a handler too: it becomes a message in the low queue, with its bytes in a
    /// new block of the kernel's, or is dropped. Its line tells which. The time at which it was due means nothing any
    /// more.
    #[tactic(auto, using(crate::proofs::Packets::heard_at))]
    pub fn radio(&mut self, to: u8, sort: u8, bytes: &[u8], lines: &mut Lines)
        requires short { length bytes.now ≤ payload_limit }
        requires room { length lines.old < turn_lines }
        ensures kernel { (time : ℕ) → self.new ≡ (heard (packet time to sort bytes.now) self.old).kernel }
        ensures lines { (time : ℕ) → lines.new ≡ lines.old ++ (heard (packet time to sort bytes.now) self.old).lines }
    {
        let time = self.clock;
        let dropped = self.hear(to, sort, bytes);
        lines.add(packet_line(time, dropped, to, sort));
    }

    /// Takes a packet in, or tells why it is dropped: the first of the reasons that holds.
    fn hear(&mut self, to: u8, sort: u8, bytes: &[u8]) -> Option<Why>
        requires { length bytes.now ≤ payload_limit }
        ensures kernel { self.new ≡ (heard (packet 0 to sort bytes.now) self.old).kernel }
        ensures lines { packet_line self.old.clock result to sort
            ≡ (heard (packet 0 to sort bytes.now) self.old).lines }
    {
        if !self.modules.is_loaded(to) {
            return Some(Why::Module);
        }
        if !self.mail.has_room(false) {
            return Some(Why::Queue);
        }
        self.hear_bytes(to, sort, bytes)
    }

    /// Takes a packet in for a module that is loaded, where its queue has room.
    fn hear_bytes(&mut self, to: u8, sort: u8, bytes: &[u8]) -> Option<Why>
        requires short { length bytes.now ≤ payload_limit }
        requires loaded { is_loaded self.old.modules to ≡ true }
        requires room { nat_lt (length self.old.queues.low) queue_limit ≡ true }
        ensures kernel { self.new ≡ (heard_bytes (length bytes.now == 0) (packet 0 to sort bytes.now) self.old).kernel }
        ensures lines { packet_line self.old.clock result to sort
            ≡ (heard_bytes (length bytes.now == 0) (packet 0 to sort bytes.now) self.old).lines }
    {
        let message = message_by_radio(to, sort, bytes);
        if bytes.is_empty() {
            self.queue(message);
            return None;
        }
        match self.issue(message) {
            Some(address) => {
                self.cpu.put(address, bytes);
                None
            }
            None => Some(Why::Room),
        }
    }

    /// Lets a message without a payload wait in the low queue.
    fn queue(&mut self, message: Msg<Parcel>)
        requires plain { message.load ≡ None }
        requires low { message.high ≡ false }
        requires loaded { is_loaded self.old.modules message.to ≡ true }
        requires room { nat_lt (length self.old.queues.low) queue_limit ≡ true }
        ensures { self.new ≡ record self.old { queues = appended false message self.old.queues } }
    {
        self.mail.post(message);
    }

    /// Lets a message wait in the low queue with a new cleared block of the kernel's for its bytes, and tells the
    /// block's address.
    fn issue(&mut self, message: Msg<Parcel>) -> Option<u16>
        requires low { message.high ≡ false }
        requires loaded { is_loaded self.old.modules message.to ≡ true }
        requires room { nat_lt (length self.old.queues.low) queue_limit ≡ true }
        ensures none { IfNone result (given self.old kernel message.len ≡ None) }
        ensures same { IfNone result (self.new ≡ self.old) }
        ensures given { IfSome result
            (λ address. given self.old kernel message.len ≡ Some (given_as self.new address)) }
        ensures rest { IfSome result (λ address. self.new ≡ record (with_given self.old (given_as self.new address)) {
          queues = appended false (carrying message (block_of address)) self.old.queues;
        }) }
        ensures within { IfSome result (λ address. LiesInHeap message.len address) }
    {
        let len = message.len;
        let address = self.mail.issue(message)?;
        self.cpu
            .clear(address, BLOCK_BYTES * len.div_ceil(BLOCK_BYTES));
        Some(address)
    }
}

/// The message that a packet becomes, without its payload.
fn message_by_radio(to: u8, sort: u8, bytes: &[u8]) -> Msg<Parcel>
    requires { length bytes.now ≤ payload_limit }
    ensures { result ≡ message_by_radio (packet 0 to sort bytes.now) None }
{
    let len = bytes.len() as u16;
    Msg {
        from: RADIO,
        long: true,
        len,
        ..empty_message(to, sort)
    }
}

/// The line of a packet: why it was dropped, or that it waits.
fn packet_line(time: u64, dropped: Option<Why>, id: u8, sort: u8) -> TraceLine
    ensures { packet_line time dropped id sort ≡ result ∷ [] }
{
    match dropped {
        Some(why) => TraceLine::Dropped {
            time,
            why,
            id,
            sort,
        },
        None => TraceLine::Queued { time, id, sort },
    }
}
