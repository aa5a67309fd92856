//! What the kernel does to the processor.
ghost use Rattle.std.specs.Prelude.{◌≡◌, ◌≢◌, ◌≤◌, ◌+◌, ◌==◌, ◌∷◌, [], length};
ghost use Rattle.avr_machine.specs.Processor.{low, high};
ghost use Rattle.domain_model.specs.State.{without_counter, dispatched, frame_of, payload_address, with_pair};
ghost use Rattle.module_image.specs.Contents.{constants_limit};
ghost use Rattle.mote_layout.specs.Requests.{LiesInHeap};
ghost use Rattle.mote_layout.specs.Memory.{floor, stack_top};
ghost use Rattle.domain_model.specs.Frames.{reserved};
ghost use Rattle.domain_model.specs.Turn.{kernel_message};
ghost use Rattle.kernel_call.specs.Values.{framed, readied, with_cleared};

use crate::place::Place;
use avr_machine::Cpu;
use mote_base::Msg;
use mote_layout::{BLOCK_BYTES, MESSAGE_FRAME, MESSAGE_FRAME_BYTES, REGISTERS, STACK_TOP};
use sos_heap::Parcel;

/// The lower registers of the pairs that hold the address of the constants and that of the message frame at a dispatch.
const CONSTANTS_PAIR: u8 = 20;

const FRAME_PAIR: u8 = 22;

/// The lower register of the pair that holds the state address at a dispatch, and a kernel call's answer.
pub const ANSWER_PAIR: u8 = 24;

const FRAME_BYTES: usize = MESSAGE_FRAME_BYTES as usize;

const REGISTER_COUNT: usize = REGISTERS as usize;

/// A short message without a byte in it, from sender 0, for the low queue.
pub fn empty_message(to: u8, sort: u8) -> Msg<Parcel>
    ensures { result ≡ kernel_message to sort }
{
    Msg {
        high: false,
        long: false,
        load: None,
        from: 0,
        to,
        sort,
        word: 0,
        byte: 0,
        len: 0,
    }
}

/// Pushes two bytes 0, those that a call leaves for its return to pop.
pub fn push_zeros(cpu: &mut Cpu)
    requires low { floor + 2 ≤ cpu.old.sp }
    requires high { cpu.old.sp ≤ stack_top }
    ensures { without_counter cpu.new ≡ reserved (without_counter cpu.old) }
{
    cpu.set_ram(cpu.sp, 0);
    cpu.set_ram(cpu.sp - 1, 0);
    cpu.sp -= 2;
}

/// Puts a kernel call's answer into R25:R24.
pub fn answer(cpu: &mut Cpu, word: u16)
    ensures { without_counter cpu.new ≡ with_pair (without_counter cpu.old) ANSWER_PAIR word }
{
    cpu.set_pair(ANSWER_PAIR, word);
}

/// Sets all up for a handler: the message frame, the registers, and an empty stack.
pub fn dispatch(cpu: &mut Cpu, state: u16, constants: u16, message: &Msg<Parcel>)
    ensures { without_counter cpu.new ≡ dispatched (without_counter cpu.old) state constants message.now }
{
    put_frame(cpu, message);
    cpu.regs = [0; REGISTER_COUNT];
    cpu.sreg = 0;
    cpu.sp = STACK_TOP;
    cpu.set_pair(CONSTANTS_PAIR, constants);
    cpu.set_pair(FRAME_PAIR, MESSAGE_FRAME);
    cpu.set_pair(ANSWER_PAIR, state);
}

/// Writes the frame of a message into the memory.
fn put_frame(cpu: &mut Cpu, message: &Msg<Parcel>)
    ensures { without_counter cpu.new ≡ framed (without_counter cpu.old) message.now }
{
    let frame = frame_of(message);
    cpu.put(MESSAGE_FRAME, &frame);
}

/// The address of a message's payload, or 0.
pub fn address_of(message: &Msg<Parcel>) -> u16
    ensures { result ≡ payload_address message.now.load }
{
    match &message.load {
        Some(parcel) => parcel.addr(),
        None => 0,
    }
}

/// The frame's bytes for a message.
fn frame_of(message: &Msg<Parcel>) -> [u8; FRAME_BYTES]
    ensures { result ≡ frame_of message.now }
{
    let kind = u8::from(message.long);
    let (sort, from, to) = (message.sort, message.from, message.to);
    let byte = message.byte;
    let [w0, w1] = bytes_of(message.word);
    let [n0, n1] = bytes_of(message.len);
    let [a0, a1] = bytes_of(address_of(message));
    [
        sort, from, to, kind, byte, w0, w1, n0, n1, a0, a1, 0, 0, 0, 0, 0,
    ]
}

/// The bytes of a word, low byte first.
fn bytes_of(word: u16) -> [u8; 2]
    ensures { result ≡ low word ∷ high word ∷ [] }
{
    [(word % 256) as u8, (word / 256) as u8]
}

/// Readies the blocks of a module that comes in: the bytes of its state are cleared, and its constants are put into
/// theirs.
pub fn ready(cpu: &mut Cpu, place: &Place, size: u16, constants: &[u8])
    requires state { size ≢ 0 → LiesInHeap size place.now.state }
    requires constants { length constants.now ≢ 0 → LiesInHeap (length constants.now) place.now.constants }
    requires few { length constants.now ≤ constants_limit }
    ensures { without_counter cpu.new ≡ readied place.now size constants.now (without_counter cpu.old) }
{
    clear_block(cpu, place.state, size);
    if !constants.is_empty() {
        clear_block(cpu, place.constants, constants.len() as u16);
        cpu.put(place.constants, constants);
    }
}

/// Clears the block for so many bytes at an address. None is where none are asked for.
fn clear_block(cpu: &mut Cpu, address: u16, size: u16)
    requires { size ≢ 0 → LiesInHeap size address }
    ensures { without_counter cpu.new ≡ with_cleared (size == 0) address size (without_counter cpu.old) }
{
    if size > 0 {
        cpu.clear(address, BLOCK_BYTES * size.div_ceil(BLOCK_BYTES));
    }
}
