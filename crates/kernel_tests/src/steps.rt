//! Steps of a kernel, told as text: a line is `STEP: ANSWER`, where the lines of the trace stand behind the answer,
//! each behind a `;`. `N*STEP` is N such steps one after the other. All numbers of a step and of its answer are
//! hexadecimal.
//!
//! - `load ID STATE CONSTANTS` and `seal ID STATE CONSTANTS` load a module, and `user` and `provider` the two that are
//!   linked; they are answered by the domain or the refusal. `unload D`, `begin D` and `finish D` are answered by yes
//!   where they can be made.
//! - `call N A B` makes kernel call N with A in R25:R24 and B in R23:R22, and is answered by R25:R24 or the fault.
//! - `local UNIT`, `slot I UNIT` and `back` are calls that come back to a unit, and a return, answered by what comes of
//!   them.
//! - `end` ends the handler and tells the module that ends with it, `next` starts that of the next message and tells
//!   its domain.
//! - `radio ID BYTES` is a packet, `dump` a dump, `fire` lets the first timer fire that is due, and `due` tells the
//!   first due moment.
//! - `set R WORD`, `put ADDRESS BYTE`, `sp WORD`, `wait HIGH LOW` set a pair of registers, a byte of the memory, the
//!   stack pointer, the clock by its two words.
//! - `bytes ADDRESSES`, `stores ADDRESS`, `loads ADDRESS`, `row D`, `waiting` read bytes, whether a store or a load may
//!   be made, what the kernel has in a domain, and whether a message waits.

ghost use Rattle.std.specs.Prelude.{◌≡◌, ◌≤◌, [], IsSome, IsSomeAnd, true};
ghost use Rattle.mote_layout.specs.Memory.{floor};
ghost use Rattle.module_image.specs.Contents.{FaceRules, IsModuleId};

use arrayvec::ArrayVec;
use domain_model::{FaultNote, Lines, Rule, Served, TraceLine};
use kernel_call::{Admitted, Kernel, Returned, SlotEnd};
use module_image::{CONSTANTS, Face, parse};
use mote_base::Line;
use mote_layout::{FLOOR, KERNEL_CALLS, PAYLOAD_BYTES};
use std::alloc::Global;
use std::process::Abort;
use std::test::Fail;
use trace_text::put_line;

/// The unit at which the handler of each module begins.
const HANDLER: u16 = 3;

/// Module 1 provides functions 3 and 4 as `vv00`, and subscribes to its own function 4, to function 7 of module 2 by
/// two prototypes, and to function 1 of module 2.
const USER: &[u8] =
    b"SOSM\x01\x01\0\0\0\0\0\x02\x04\0\0\x03vv00\0\0\x04vv00\0\0\x01\x04vv00\x02\x07iv00\x02\x07iv01\x02\x01iv01";

/// Module 2 provides function 1 as `iv01` and function 7 as `iv00`.
const PROVIDER: &[u8] = b"SOSM\x01\x02\0\0\0\0\0\x02\0\0\0\x01iv01\0\0\x07iv00\0\0";

/// What a step comes to.
#[derive(Clone, Copy)]
enum Answer {
    /// The step tells nothing, or can't be made.
    Nothing,
    Number(u64),
    Word(&'static str),
    /// A domain and one of its units.
    Place(&'static str, u8, u16),
    Fault(FaultNote),
}

/// A module that provides nothing and subscribes to nothing.
fn plain(id: u8) -> Face
    requires { IsModuleId id }
    ensures face { FaceRules result }
    ensures nothing { result.provided.items ≡ [] }
{
    Face {
        id,
        provided: ArrayVec::new(),
        subscribed: ArrayVec::new(),
    }
}

fn yes_or_no(holds: bool) -> Answer {
    Answer::Word(if holds { "yes" } else { "no" })
}

fn admitted(answer: Admitted) -> Answer {
    match answer {
        Admitted::Placed(d) => Answer::Number(u64::from(d)),
        Admitted::Duplicate => Answer::Word("duplicate"),
        Admitted::Domain => Answer::Word("domain"),
        Admitted::Room => Answer::Word("room"),
    }
}

fn load(k: &mut Kernel, id: u8, state_size: u16, constants: &[u8], sealed: bool) -> Answer {
    if k.running().is_some() || id == 0 || id == 255 || constants.len() > CONSTANTS as usize {
        return Answer::Nothing;
    }
    admitted(k.admit(&plain(id), state_size, HANDLER, &[], constants, sealed))
}

/// Loads a module with the face of an image, whose functions begin at units 16 and 17.
fn link(k: &mut Kernel, file: &[u8]) -> Answer {
    let Ok(image) = parse(file) else {
        return Answer::Nothing;
    };
    let face = image.face();
    let entries = [16, 17];
    if k.running().is_some() || face.provided.len() != entries.len() {
        return Answer::Nothing;
    }
    admitted(k.admit(&face, 0, HANDLER, &entries, &[], false))
}

fn unload(k: &mut Kernel, d: u8) -> Answer {
    if k.running().is_some() || k.module_at(d).is_none() {
        return Answer::Nothing;
    }
    k.purge(d);
    Answer::Word("yes")
}

fn begin(k: &mut Kernel, d: u8, lines: &mut Lines) -> Answer {
    if k.running().is_some() || k.module_at(d).is_none() {
        return Answer::Nothing;
    }
    lines.clear();
    k.begin(d, lines);
    Answer::Word("yes")
}

fn finish(k: &mut Kernel, d: u8, lines: &mut Lines) -> Answer {
    if k.running().is_some() || k.module_at(d).is_none() {
        return Answer::Nothing;
    }
    lines.clear();
    k.finish(d, lines);
    Answer::Word("yes")
}

fn call(k: &mut Kernel, n: u8, lines: &mut Lines) -> Answer {
    if k.running().is_none() || u16::from(n) >= KERNEL_CALLS {
        return Answer::Nothing;
    }
    lines.clear();
    match k.serve(n, lines) {
        Served::Back => Answer::Number(u64::from(k.cpu().pair(24))),
        Served::Fault(note) => Answer::Fault(note),
    }
}

fn end(k: &mut Kernel) -> Answer {
    if k.running().is_none() {
        return Answer::Nothing;
    }
    match k.end_handler() {
        Some(id) => Answer::Number(u64::from(id)),
        None => Answer::Word("none"),
    }
}

fn next(k: &mut Kernel, lines: &mut Lines) -> Answer {
    if k.running().is_some() {
        return Answer::Nothing;
    }
    lines.clear();
    match k.next_message(lines) {
        Some(d) => Answer::Number(u64::from(d)),
        None => Answer::Word("none"),
    }
}

/// Whether a handler runs, and SP is between the floor and its base.
fn stands(k: &Kernel) -> bool
    ensures { result ≡ true → IsSomeAnd k.now.running
        (λ run. (floor ≤ k.now.processor.sp) × (k.now.processor.sp ≤ run.base)) }
{
    if k.running().is_none() {
        return false;
    }
    let window = k.window();
    FLOOR <= window.sp && window.sp <= window.base
}

fn local(k: &mut Kernel, back: u16) -> Answer {
    if !stands(k) {
        return Answer::Nothing;
    }
    match k.local_call(back) {
        Some(note) => Answer::Fault(note),
        None => Answer::Word("enters"),
    }
}

fn slot(k: &mut Kernel, i: u8, back: u16, lines: &mut Lines) -> Answer {
    if !stands(k) {
        return Answer::Nothing;
    }
    lines.clear();
    match k.slot_call(i, back, lines) {
        SlotEnd::Entered(d, unit) => Answer::Place("enters", d, unit),
        SlotEnd::Unbound => Answer::Word("unbound"),
        SlotEnd::Fault(note) => Answer::Fault(note),
    }
}

fn back(k: &mut Kernel) -> Answer {
    if !stands(k) {
        return Answer::Nothing;
    }
    match k.come_back() {
        Returned::To(d, unit) => Answer::Place("to", d, unit),
        Returned::Over => Answer::Word("over"),
        Returned::Fault(note) => Answer::Fault(note),
    }
}

fn fire(k: &mut Kernel, lines: &mut Lines) -> Answer {
    lines.clear();
    yes_or_no(k.fire(lines))
}

fn due(k: &Kernel) -> Answer {
    match k.next_due() {
        Some(moment) => Answer::Number(moment),
        None => Answer::Word("none"),
    }
}

fn radio(k: &mut Kernel, to: u8, bytes: &[u8], lines: &mut Lines) {
    if bytes.len() <= PAYLOAD_BYTES {
        lines.clear();
        k.radio(to, 7, bytes, lines);
    }
}

fn dump(k: &Kernel, lines: &mut Lines) {
    lines.clear();
    k.dump(lines);
}

fn set(k: &mut Kernel, d: u8, word: u16) {
    if d < 31 {
        k.cpu_mut().set_pair(d, word);
    }
}

fn put(k: &mut Kernel, a: u16, byte: u8) {
    if a >= 0x0100 && a < 0x1100 {
        k.cpu_mut().set_ram(a, byte);
    }
}

fn wait(k: &mut Kernel, high: u16, low: u16) {
    let now = u64::from(high) << 16 | u64::from(low);
    if k.clock() <= now && now < 1 << 32 {
        k.set_clock(now);
    }
}

fn set_sp(k: &mut Kernel, word: u16) {
    k.cpu_mut().sp = word;
}

fn may_store(k: &Kernel, a: u16) -> Answer {
    if k.running().is_none() {
        return Answer::Nothing;
    }
    yes_or_no(k.may_store(a))
}

fn may_load(k: &Kernel, a: u16) -> Answer {
    if k.running().is_none() {
        return Answer::Nothing;
    }
    yes_or_no(k.may_load(a))
}

/// What stands at these addresses.
fn tell_bytes(k: &Kernel, addresses: &[u16], text: &mut String) -> Result<(), Fail> {
    for a in addresses {
        write!(text, " {:x}", k.cpu().rd(*a))?;
    }
    Ok(())
}

/// The id, the state's address and the handler's unit of the module in a domain.
fn tell_row(k: &Kernel, d: u8, text: &mut String) -> Result<(), Fail> {
    match k.module_at(d) {
        Some(row) => write!(text, " {:x} {:x} {:x}", row.id, row.state, row.handler)?,
        None => text.push_str(" none")?,
    }
    Ok(())
}

fn rule_word(rule: Rule) -> &'static str {
    match rule {
        Rule::Owner => "owner",
        Rule::StackOver => "stackover",
        Rule::Depth => "depth",
        Rule::Balance => "balance",
        _ => "another rule",
    }
}

fn tell(answer: Answer, text: &mut String) -> Result<(), Fail> {
    match answer {
        Answer::Nothing => (),
        Answer::Number(number) => write!(text, " {number:x}")?,
        Answer::Word(word) => write!(text, " {word}")?,
        Answer::Place(word, d, unit) => write!(text, " {word} {d:x} {unit:x}")?,
        Answer::Fault(note) => write!(text, " {} {:x}", rule_word(note.rule), note.address)?,
    }
    Ok(())
}

fn low_byte(number: u16) -> u8 {
    number.to_le_bytes()[0]
}

fn number_at(numbers: &[u16], place: usize) -> u16 {
    match numbers.get(place) {
        Some(number) => *number,
        None => 0,
    }
}

/// What stands behind the first of these bytes.
fn constants_in(bytes: &[u8]) -> &[u8] {
    match bytes.split_first() {
        Some((_, constants)) => constants,
        None => &[],
    }
}

/// A step with its operands, and what it comes to.
fn make(k: &mut Kernel, lines: &mut Lines, head: &str, numbers: &[u16], packet: &[u8]) -> Answer {
    let first = number_at(numbers, 0);
    let second = number_at(numbers, 1);
    match head {
        "load" => return load(k, low_byte(first), second, constants_in(packet), false),
        "seal" => return load(k, low_byte(first), second, constants_in(packet), true),
        "user" => return link(k, USER),
        "provider" => return link(k, PROVIDER),
        "unload" => return unload(k, low_byte(first)),
        "begin" => return begin(k, low_byte(first), lines),
        "finish" => return finish(k, low_byte(first), lines),
        "call" => {
            set(k, 24, second);
            set(k, 22, number_at(numbers, 2));
            return call(k, low_byte(first), lines);
        }
        "local" => return local(k, first),
        "slot" => return slot(k, low_byte(first), second, lines),
        "back" => return back(k),
        "end" => return end(k),
        "next" => return next(k, lines),
        "fire" => return fire(k, lines),
        "due" => return due(k),
        "stores" => return may_store(k, first),
        "loads" => return may_load(k, first),
        "waiting" => return yes_or_no(k.has_message()),
        "radio" => radio(k, low_byte(first), packet, lines),
        "dump" => dump(k, lines),
        "set" => set(k, low_byte(first), second),
        "put" => put(k, first, low_byte(second)),
        "sp" => set_sp(k, first),
        "wait" => wait(k, first, second),
        _ => return Answer::Word("no step"),
    }
    Answer::Nothing
}

/// The numbers of a step, and the low bytes of all but the first.
fn operands(told: &str, numbers: &mut Vec<u16>, bytes: &mut Vec<u8>) -> Result<(), Fail> {
    for word in told.split(' ') {
        if !word.is_empty() {
            let number = u16::from_str_radix(word, 16)?;
            if !numbers.is_empty() {
                bytes.push(low_byte(number))?;
            }
            numbers.push(number)?;
        }
    }
    Ok(())
}

/// A line without its line feed, behind a mark.
fn add_line(text: &mut Vec<u8>, line: &TraceLine) -> Result<(), Fail> {
    let mut told: Line = ArrayVec::new();
    put_line(line, &mut told);
    text.push(b';')?;
    if let Some((_, front)) = told.as_slice().split_last() {
        text.extend_from_slice(front)?;
    }
    Ok(())
}

/// What a step comes to and writes.
fn step(alloc: Global, k: &mut Kernel, lines: &mut Lines, told: &str) -> Result<Vec<u8>, Fail> {
    let (head, rest) = told.split_once(' ').unwrap_or((told, ""));
    let mut numbers = Vec::new(alloc);
    let mut bytes = Vec::new(alloc);
    operands(rest, &mut numbers, &mut bytes)?;
    let mut text = String::new(alloc);
    lines.clear();
    match head {
        "bytes" => tell_bytes(k, numbers.as_slice(), &mut text)?,
        "row" => tell_row(k, low_byte(number_at(numbers.as_slice(), 0)), &mut text)?,
        _ => tell(
            make(k, lines, head, numbers.as_slice(), bytes.as_slice()),
            &mut text,
        )?,
    }
    let mut text = Vec::from_slice(alloc, text.as_bytes())?;
    for line in lines.items() {
        add_line(&mut text, line)?;
    }
    Ok(text)
}

/// Each step of a new kernel comes to what is told behind it.
pub(crate) fn check_steps(rt: &impl Abort, alloc: Global, table: &str) -> Result<(), Fail> {
    let mut k = Kernel::new(alloc)?;
    let mut lines = Lines::new(alloc)?;
    for row in table.split('\n') {
        if row.is_empty() || row.starts_with('#') {
            continue;
        }
        let (told, answer) = row.split_once(':').unwrap_or((row, ""));
        let (times, told) = told.split_once('*').unwrap_or(("1", told));
        for _ in 0..u32::from_str_radix(times, 16)? {
            let found = step(alloc, &mut k, &mut lines, told)?;
            assert_eq!(rt; found.as_slice(), answer.as_bytes(), "{row}");
        }
    }
    Ok(())
}
