//! The calls by which a running module asks the kernel for something.
ghost use Rattle.std.specs.Prelude.{◌≡◌, ◌<◌, ◌≤◌, ◌+◌, ◌++◌, ◌==◌, IfSome, IfNone, IsSome, Some, None, true, false, length};
ghost use Rattle.mote_layout.specs.Memory.{heap_start, heap_end};
ghost use Rattle.mote_layout.specs.Limits.{payload_limit, turn_lines};
ghost use Rattle.mote_layout.specs.Memory.{domain_count};
ghost use Rattle.mote_layout.specs.Page.{kernel_call_count};
ghost use Rattle.domain_model.specs.Services.{service_of};
ghost use Rattle.domain_model.specs.Calls.{answered, change_own, free, malloc, message_of, long_message_of, long_to, my_id, clock, post_long, post_short, say, send, serve, take_payload};
ghost use Rattle.domain_model.specs.Modules.{in_use, is_loaded};
ghost use Rattle.domain_model.specs.Payloads.{holds_bytes};
ghost use Rattle.domain_model.specs.State.{bytes_at, without_counter};
ghost use Rattle.domain_model.specs.Given.{given, with_given};
ghost use Rattle.mote_layout.specs.Blocks.{block_of, handed_over};
ghost use Rattle.mote_layout.specs.Requests.{Holds};
ghost use Rattle.kernel_call.specs.Values.{given_as};

use crate::frame::{ANSWER_PAIR, answer};
use crate::kernel::Kernel;
use avr_machine::Cpu;
use domain_model::{FaultNote, Lines, PayloadBytes, Rule, Running, Served, TraceLine};
use mote_base::Msg;
use mote_layout::{BLOCK_BYTES, PAYLOAD_BYTES};
use sos_heap::{NotOwner, Parcel};

/// The kernel calls by number.
const MALLOC: u8 = 0;

const FREE: u8 = 1;

const CHANGE_OWN: u8 = 2;

const POST_SHORT: u8 = 3;

const POST_LONG: u8 = 4;

const TAKE: u8 = 5;

const TIMER_START: u8 = 6;

const TIMER_STOP: u8 = 7;

const SAY: u8 = 8;

const CLOCK: u8 = 9;

const SEND: u8 = 10;

const MY_ID: u8 = 11;

/// The registers of the arguments: the byte of `say`, the receiver of a post and the lower one of a packet's; the new
/// owner of a block and the type of a message or a packet; the byte of a short message; the lower one of its word; the
/// flags of a message.
const FIRST: u8 = 24;

const SECOND: u8 = 22;

const BYTE: u8 = 20;

const WORD: u8 = 18;

const FLAGS: u8 = 16;

/// The lower registers of the pairs that hold how many bytes of a block are posted or sent, and where it begins.
const LENGTH: u8 = 20;

const BLOCK: u8 = 18;

/// What a post answers.
const POSTED: u16 = 0;

const FULL: u16 = 1;

const NOT_LOADED: u16 = 2;

/// What `change_own` answers where the new owner isn't loaded.
const NO_OWNER: u16 = 1;

/// What `send` answers: the packet is sent, or the bytes are too many for one.
const SENT: u16 = 0;

const TOO_LONG: u16 = 1;

/// The clock's answer is the clock modulo this.
const CLOCK_MODULUS: u64 = 65536;

impl Kernel {
    /// The kernel call of that number, of the running module. Where a block argument isn't a block of its own, or has
    /// fewer bytes than are posted or sent, the call is refused before anything else is looked at.
    pub fn serve(&mut self, n: u8, lines: &mut Lines) -> Served
        requires handler { IsSome self.old.running }
        requires number { n < kernel_call_count }
        requires room { length lines.old < turn_lines }
        ensures kernel { IfSome self.old.running (λ run. self.new ≡ (serve (service_of n) run self.old).kernel) }
        ensures lines { IfSome self.old.running
            (λ run. lines.new ≡ lines.old ++ (serve (service_of n) run self.old).lines) }
        ensures served { IfSome self.old.running (λ run. result ≡ (serve (service_of n) run self.old).served) }
    {
        let run = self.run();
        self.serve_running(n, &run, lines)
    }

    fn serve_running(&mut self, n: u8, run: &Running, lines: &mut Lines) -> Served
        requires domain { run.now.domain < domain_count }
        requires used { in_use self.old.modules run.now.domain ≡ true }
        requires number { n < kernel_call_count }
        requires room { length lines.old < turn_lines }
        ensures kernel { self.new ≡ (serve (service_of n) run.now self.old).kernel }
        ensures lines { lines.new ≡ lines.old ++ (serve (service_of n) run.now self.old).lines }
        ensures served { result ≡ (serve (service_of n) run.now self.old).served }
    {
        match n {
            MALLOC => self.malloc(run),
            FREE => return self.free(run),
            CHANGE_OWN => return self.change_own(run),
            POST_SHORT => self.post_short(run),
            POST_LONG => return self.post_long(run),
            TAKE => self.take(run),
            TIMER_START => self.timer_start(run),
            TIMER_STOP => self.timer_stop(run),
            SAY => self.say(run, lines),
            CLOCK => self.tell_clock(),
            SEND => return self.send(run, lines),
            MY_ID => self.tell_id(run),
            _ => unreachable!(),
        }
        Served::Back
    }

    fn malloc(&mut self, run: &Running)
        requires { run.now.domain < domain_count }
        ensures { self.new ≡ malloc self.old run.now }
    {
        let size = self.cpu.pair(ANSWER_PAIR);
        let address = self.give(run.domain, size).unwrap_or(0);
        answer(&mut self.cpu, address);
    }

    /// Gives a domain a cleared block for so many bytes, and tells its address.
    pub(crate) fn give(&mut self, domain: u8, size: u16) -> Option<u16>
        requires { domain < domain_count }
        ensures none { IfNone result (given self.old domain size ≡ None) }
        ensures same { IfNone result (self.new ≡ self.old) }
        ensures given { IfSome result (λ address. given self.old domain size ≡ Some (given_as self.new address)) }
        ensures rest { IfSome result (λ address. self.new ≡ with_given self.old (given_as self.new address)) }
    {
        let address = self.mail.give(domain, size)?;
        let bytes = BLOCK_BYTES * size.div_ceil(BLOCK_BYTES);
        self.cpu.clear(address, bytes);
        Some(address)
    }

    fn free(&mut self, run: &Running) -> Served
        requires { run.now.domain < domain_count }
        ensures kernel { self.new ≡ (free self.old run.now).kernel }
        ensures served { result ≡ (free self.old run.now).served }
    {
        let address = self.cpu.pair(ANSWER_PAIR);
        match self.mail.release(run.domain, address) {
            Ok(()) => {
                answer(&mut self.cpu, 0);
                Served::Back
            }
            Err(NotOwner) => refused(address),
        }
    }

    fn change_own(&mut self, run: &Running) -> Served
        requires { run.now.domain < domain_count }
        ensures kernel { self.new ≡ (change_own self.old run.now).kernel }
        ensures served { result ≡ (change_own self.old run.now).served }
    {
        let address = self.cpu.pair(ANSWER_PAIR);
        if !self.mail.holds(run.domain, address, 0) {
            return refused(address);
        }
        match self.modules.named(self.cpu.register(SECOND)) {
            Some(owner) => {
                self.hand_over(run.domain, address, owner.domain);
                answer(&mut self.cpu, 0);
            }
            None => answer(&mut self.cpu, NO_OWNER),
        }
        Served::Back
    }

    /// Hands a block of one domain to another.
    fn hand_over(&mut self, domain: u8, address: u16, to: u8)
        requires domain { domain < domain_count }
        requires to { to < domain_count }
        requires held { Holds self.old.blocks domain address }
        ensures { self.new ≡ record self.old { blocks = handed_over (block_of address) to self.old.blocks } }
    {
        if self.mail.change(domain, address, to).is_err() {
            unreachable!()
        }
    }

    fn post_short(&mut self, run: &Running)
        ensures { self.new ≡ post_short self.old run.now }
    {
        let message = self.message_of(run);
        if !self.modules.is_loaded(message.to) {
            return answer(&mut self.cpu, NOT_LOADED);
        }
        if self.mail.post(message) {
            answer(&mut self.cpu, POSTED);
        } else {
            answer(&mut self.cpu, FULL);
        }
    }

    /// The short message that the registers of a post ask for.
    fn message_of(&self, run: &Running) -> Msg<Parcel>
        ensures { result ≡ message_of self.now run.now }
    {
        Msg {
            to: self.cpu.register(FIRST),
            from: self.modules.id_at(run.domain),
            sort: self.cpu.register(SECOND),
            byte: self.cpu.register(BYTE),
            word: self.cpu.pair(WORD),
            long: false,
            len: 0,
            load: None,
            high: self.cpu.register(FLAGS) % 2 == 1,
        }
    }

    fn post_long(&mut self, run: &Running) -> Served
        requires { run.now.domain < domain_count }
        ensures kernel { self.new ≡ (post_long self.old run.now).kernel }
        ensures served { result ≡ (post_long self.old run.now).served }
    {
        let address = self.cpu.pair(BLOCK);
        let message = self.long_message_of(run);
        if !self.mail.holds(run.domain, address, message.len) {
            return refused(address);
        }
        self.send_block(run, message, address);
        Served::Back
    }

    /// Posts a message with the running module's block that begins at an address.
    fn send_block(&mut self, run: &Running, message: Msg<Parcel>, address: u16)
        requires domain { run.now.domain < domain_count }
        requires held { holds_bytes self.old.blocks run.now.domain address message.len ≡ true }
        ensures { self.new ≡ long_to (is_loaded self.old.modules message.to) message address self.old }
    {
        if !self.modules.is_loaded(message.to) {
            return answer(&mut self.cpu, NOT_LOADED);
        }
        if self.mail.send(message, run.domain, address) {
            answer(&mut self.cpu, POSTED);
        } else {
            answer(&mut self.cpu, FULL);
        }
    }

    /// The long message that the registers of a post ask for, without its payload.
    fn long_message_of(&self, run: &Running) -> Msg<Parcel>
        ensures { result ≡ long_message_of self.now run.now }
    {
        Msg {
            byte: 0,
            word: 0,
            long: true,
            len: self.cpu.pair(LENGTH),
            ..self.message_of(run)
        }
    }

    fn take(&mut self, run: &Running)
        requires { run.now.domain < domain_count }
        ensures { self.new ≡ take_payload self.old run.now }
    {
        let mut address = 0;
        if self.is_receiver(run) {
            address = self.mail.take(run.domain);
        }
        answer(&mut self.cpu, address);
    }

    fn send(&mut self, run: &Running, lines: &mut Lines) -> Served
        requires { length lines.old < turn_lines }
        ensures kernel { self.new ≡ (send self.old run.now).kernel }
        ensures lines { lines.new ≡ lines.old ++ (send self.old run.now).lines }
        ensures served { result ≡ (send self.old run.now).served }
    {
        let address = self.cpu.pair(BLOCK);
        let len = self.cpu.pair(LENGTH);
        if !self.mail.holds(run.domain, address, len) {
            return refused(address);
        }
        if usize::from(len) > PAYLOAD_BYTES {
            answer(&mut self.cpu, TOO_LONG);
            return Served::Back;
        }
        lines.add(TraceLine::Send {
            time: self.clock,
            id: self.modules.id_at(run.domain),
            dest: self.cpu.pair(FIRST),
            sort: self.cpu.register(SECOND),
            bytes: bytes_at(&self.cpu, address, len),
        });
        answer(&mut self.cpu, SENT);
        Served::Back
    }

    fn say(&mut self, run: &Running, lines: &mut Lines)
        requires { length lines.old < turn_lines }
        ensures kernel { self.new ≡ (say self.old run.now).kernel }
        ensures lines { lines.new ≡ lines.old ++ (say self.old run.now).lines }
    {
        lines.add(TraceLine::Say {
            time: self.clock,
            id: self.modules.id_at(run.domain),
            byte: self.cpu.register(FIRST),
        });
        answer(&mut self.cpu, 0);
    }

    fn tell_clock(&mut self)
        ensures { self.new ≡ clock self.old }
    {
        answer(&mut self.cpu, (self.clock % CLOCK_MODULUS) as u16);
    }

    fn tell_id(&mut self, run: &Running)
        ensures { self.new ≡ my_id self.old run.now }
    {
        let id = self.modules.id_at(run.domain);
        answer(&mut self.cpu, u16::from(id));
    }
}

/// A block argument that isn't the caller's.
fn refused(address: u16) -> Served
    ensures { result ≡ Served.Fault (record { rule = Rule.Owner; address = address }) }
{
    Served::Fault(FaultNote {
        rule: Rule::Owner,
        address,
    })
}

/// Bytes of the heap, from an address on.
fn bytes_at(cpu: &Cpu, address: u16, len: u16) -> PayloadBytes
    requires few { len ≤ payload_limit }
    requires start { heap_start ≤ address }
    requires end { address + len ≤ heap_end + 1 }
    ensures { result ≡ bytes_at (without_counter cpu.now) address len }
{
    let mut bytes = PayloadBytes::new();
    for place in 0..len {
        bytes.push(cpu.rd(address + place));
    }
    bytes
}
