//! Templates of several instructions.

ghost use Rattle.std.specs.Prelude.{◌≡◌, ◌≤◌, IfNone, IfSome, Option, drop, false, length, true};
ghost use Rattle.harbor_verify.specs.Reading.{checked, group, group_low, guarded, guarded_by, is_out, is_over_one, jump_first, jumps_over, long_branch, long_skip, offset_of_jump, out_first, several_by, several_called, several_entered, several_first};
ghost use Rattle.harbor_verify.specs.Walks.{instructions};

use crate::instructions::{entry_called, instruction_at};
use avr_isa::Instr;
use harbor_spell::{address_of, guard_of};
use mote_base::Words;
use mote_layout::{Entry, POINTER_Y, SPH_PORT, SPL_PORT, SREG_PORT};
use unit_code::{Aim, Form, Piece, Standing, Unit, is_load, standing_of};

/// The template of several instructions that stands at a place, if one does.
pub fn several_at(code: &Words<'_>, place: usize) -> Option<Form>
    requires { place ≤ length code.now }
    ensures { result ≡ several_first (instructions (drop place code.now)) }
{
    let first = instruction_at(code, place)?;
    several_by(
        code,
        first.instruction,
        standing_of(first.instruction),
        first.next,
    )
}

/// The same, by what its first instruction stands for.
pub fn several_by(code: &Words<'_>, first: Instr, standing: Standing, next: usize) -> Option<Form>
    requires { next ≤ length code.now }
    ensures { result ≡ several_by first standing (instructions (drop next code.now)) }
{
    match standing {
        Standing::Barred(_) => several_called(code, first, next),
        Standing::Part(Piece::Whole(Unit::Skip(_))) => long_skip(code, first, next),
        Standing::Part(Piece::Aimed(Aim::Branching { set, bit }, offset)) => {
            long_branch(code, set, bit, offset, next)
        }
        _ => None,
    }
}

fn long_skip(code: &Words<'_>, skip: Instr, next: usize) -> Option<Form>
    requires { next ≤ length code.now }
    ensures { result ≡ long_skip skip (instructions (drop next code.now)) }
{
    let over = instruction_at(code, next)?;
    if !jumps_over(offset_of_jump(over.instruction)) {
        return None;
    }
    let offset = jump_at(code, over.next)?;
    Some(Form::LongSkip(skip, offset))
}

fn long_branch(code: &Words<'_>, set: bool, bit: u8, offset: i16, next: usize) -> Option<Form>
    requires { next ≤ length code.now }
    ensures { result ≡ long_branch set bit offset (instructions (drop next code.now)) }
{
    if !is_over_one(offset) {
        return None;
    }
    let offset = jump_at(code, next)?;
    Some(Form::LongBranch {
        set: !set,
        bit,
        offset,
    })
}

fn several_called(code: &Words<'_>, first: Instr, next: usize) -> Option<Form>
    requires { next ≤ length code.now }
    ensures { result ≡ several_called first (instructions (drop next code.now)) }
{
    match first {
        Instr::Call(address) => several_entered(code, address, entry_called(address), next),
        _ => None,
    }
}

/// What stands behind the call of an entry.
fn several_entered(
    code: &Words<'_>,
    address: u32,
    entry: Option<Entry>,
    next: usize,
) -> Option<Form>
    requires { next ≤ length code.now }
    ensures { result ≡ several_entered address entry (instructions (drop next code.now)) }
{
    match entry {
        None | Some(Entry::SlotIndirect) | Some(Entry::Reserve) => None,
        Some(Entry::SpGuard) => group(code, next),
        Some(Entry::LocalCall) => {
            let offset = jump_at(code, next)?;
            Some(Form::Calling(offset))
        }
        Some(_) => guarded(code, address, next),
    }
}

/// The instruction at a place whose guard has the address.
fn guarded(code: &Words<'_>, address: u32, place: usize) -> Option<Form>
    requires { place ≤ length code.now }
    ensures { result ≡ guarded address (instructions (drop place code.now)) }
{
    let found = instruction_at(code, place)?;
    guarded_by(
        address,
        checked(found.instruction, standing_of(found.instruction)),
    )
}

fn guarded_by(address: u32, checked: Option<(Unit, Entry)>) -> Option<Form>
    ensures { result ≡ guarded_by address checked }
{
    let (unit, guard) = checked?;
    if address == u32::from(address_of(guard)) {
        Some(Form::Whole(unit))
    } else {
        None
    }
}

/// The unit that an instruction is behind its guard, with the guard.
fn checked(instruction: Instr, standing: Standing) -> Option<(Unit, Entry)>
    ensures { result ≡ checked instruction standing }
{
    match standing {
        Standing::Part(Piece::Whole(Unit::Store(_))) => {
            Some((Unit::Store(instruction), guard_of(&instruction)))
        }
        Standing::Part(Piece::Whole(Unit::Plain(_))) => {
            if is_load(&instruction) {
                Some((Unit::Load(instruction), guard_of(&instruction)))
            } else {
                None
            }
        }
        Standing::Part(Piece::Whole(Unit::Push(register))) => {
            Some((Unit::Push(register), Entry::PushGuard))
        }
        Standing::Part(Piece::Whole(Unit::Pop(register))) => {
            Some((Unit::Pop(register), Entry::PopGuard))
        }
        _ => None,
    }
}

/// The writes of SP's bytes behind the call of their guard, with or without a write of SREG between them.
fn group(code: &Words<'_>, place: usize) -> Option<Form>
    requires { place ≤ length code.now }
    ensures { result ≡ group (instructions (drop place code.now)) }
{
    let second = behind_out(code, place, POINTER_Y + 1, SPH_PORT)?;
    match behind_out(code, second, 0, SREG_PORT) {
        Some(third) => group_low(code, true, third),
        None => group_low(code, false, second),
    }
}

fn group_low(code: &Words<'_>, with_sreg: bool, place: usize) -> Option<Form>
    requires { place ≤ length code.now }
    ensures { result ≡ group_low with_sreg (instructions (drop place code.now)) }
{
    match behind_out(code, place, POINTER_Y, SPL_PORT) {
        Some(_) => Some(Form::Whole(Unit::SpGroup { with_sreg })),
        None => None,
    }
}

/// The place behind an OUT of the register to the port, if one stands there.
fn behind_out(code: &Words<'_>, place: usize, register: u8, port: u8) -> Option<usize>
    requires { place ≤ length code.now }
    ensures none { IfNone result (out_first register port (instructions (drop place code.now)) ≡ false) }
    ensures some { IfSome result (λ next. out_first register port (instructions (drop place code.now)) ≡ true) }
    ensures behind { IfSome result (λ next. drop 1 (instructions (drop place code.now)) ≡ instructions (drop next code.now)) }
    ensures within { IfSome result (λ next. next ≤ length code.now) }
{
    let found = instruction_at(code, place)?;
    if is_out(register, port, found.instruction) {
        Some(found.next)
    } else {
        None
    }
}

fn is_out(register: u8, port: u8, instruction: Instr) -> bool
    ensures { result ≡ is_out register port instruction }
{
    match instruction {
        Instr::Out(from, to) => from == register && to == port,
        _ => false,
    }
}

/// The offset of the RJMP at a place, if one stands there.
pub fn jump_at(code: &Words<'_>, place: usize) -> Option<i16>
    requires { place ≤ length code.now }
    ensures { result ≡ jump_first (instructions (drop place code.now)) }
{
    let found = instruction_at(code, place)?;
    offset_of_jump(found.instruction)
}

fn offset_of_jump(instruction: Instr) -> Option<i16>
    ensures { result ≡ offset_of_jump instruction }
{
    if let Instr::Rjmp(offset) = instruction {
        Some(offset)
    } else {
        None
    }
}

/// Whether it is the offset of a jump over one word.
pub fn jumps_over(offset: Option<i16>) -> bool
    ensures { result ≡ jumps_over offset }
{
    match offset {
        Some(offset) => is_over_one(offset),
        None => false,
    }
}

fn is_over_one(offset: i16) -> bool
    ensures { result ≡ is_over_one offset }
{
    offset == 1
}
