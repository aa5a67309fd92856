//! What each instruction stands for in a module's code.

ghost use Rattle.std.specs.Prelude.{◌≡◌, ◌<◌};
ghost use Rattle.mote_layout.specs.Memory.{register_count};
ghost use Rattle.unit_code.specs.Kinds.{off_pointer, standing_call, standing_in, standing_of, standing_out};

use crate::unit::Unit;
use avr_isa::Instr;
use mote_layout::{
    Entry, POINTER_X, POINTER_Y, POINTER_Z, SPH_PORT, SPL_PORT, SREG_PORT, entry_of,
};

/// What stands at a word.
#[derive(Clone, Copy)]
pub enum Standing {
    /// No instruction, or the first word of one that is cut short.
    NoInstruction,
    /// An instruction of a refused kind.
    Barred(u8),
    /// A unit, or one whose target isn't known yet.
    Part(Piece),
}

/// A unit as it is read.
#[derive(Clone, Copy)]
pub enum Piece {
    /// A unit without a target.
    Whole(Unit),
    /// A unit with a target, by its offset in words from the word behind it.
    Aimed(Aim, i16),
}

/// A unit that lacks its target.
#[derive(Clone, Copy)]
pub enum Aim {
    Branching { set: bool, bit: u8 },
    Jumping,
    Calling,
}

/// What an instruction outside of a group stands for.
#[tactic(auto, unfolding(crate::specs::Kinds::standing_of))]
pub fn standing_of(instruction: Instr) -> Standing
    ensures { result ≡ standing_of instruction }
{
    let plain = Unit::Plain(instruction);
    let store = Unit::Store(instruction);
    match instruction {
        Instr::Brbs(bit, offset) => aimed(Aim::Branching { set: true, bit }, i16::from(offset)),
        Instr::Brbc(bit, offset) => aimed(Aim::Branching { set: false, bit }, i16::from(offset)),
        Instr::Rjmp(offset) => aimed(Aim::Jumping, offset),
        Instr::Rcall(0) => whole(Unit::Reserve),
        Instr::Rcall(offset) => aimed(Aim::Calling, offset),
        Instr::Call(address) => standing_call(address),
        Instr::Icall => whole(Unit::SlotIndirect),
        Instr::Ret => whole(Unit::Return),
        Instr::Cpse(_, _) | Instr::Sbrc(_, _) | Instr::Sbrs(_, _) => whole(Unit::Skip(instruction)),
        Instr::Push(r) => whole(Unit::Push(r)),
        Instr::Pop(d) => whole(Unit::Pop(d)),
        Instr::StX(_) | Instr::StdY(_, _) | Instr::StdZ(_, _) | Instr::Sts(_, _) => whole(store),
        Instr::StXInc(r) | Instr::StXDec(r) => off_pointer(POINTER_X, r, store),
        Instr::StYInc(r) | Instr::StYDec(r) => off_pointer(POINTER_Y, r, store),
        Instr::StZInc(r) | Instr::StZDec(r) => off_pointer(POINTER_Z, r, store),
        Instr::LdXInc(d) | Instr::LdXDec(d) => off_pointer(POINTER_X, d, plain),
        Instr::LdYInc(d) | Instr::LdYDec(d) => off_pointer(POINTER_Y, d, plain),
        Instr::LdZInc(d) | Instr::LdZDec(d) => off_pointer(POINTER_Z, d, plain),
        Instr::In(_, port) => standing_in(port, plain),
        Instr::Out(_, port) => standing_out(port, plain),
        Instr::Ijmp | Instr::Jmp(_) => Standing::Barred(1),
        Instr::LpmR0 | Instr::LpmZ(_) | Instr::LpmZInc(_) | Instr::Spm => Standing::Barred(2),
        Instr::ElpmR0 | Instr::ElpmZ(_) | Instr::ElpmZInc(_) => Standing::Barred(2),
        Instr::Reti | Instr::Sleep | Instr::Wdr | Instr::Break => Standing::Barred(3),
        Instr::Sbi(_, _) | Instr::Cbi(_, _) => Standing::Barred(4),
        Instr::Sbic(_, _) | Instr::Sbis(_, _) => Standing::Barred(4),
        _ => whole(plain),
    }
}

fn whole(unit: Unit) -> Standing
    ensures { result ≡ Standing.Part (Piece.Whole unit) }
{
    Standing::Part(Piece::Whole(unit))
}

fn aimed(aim: Aim, offset: i16) -> Standing
    ensures { result ≡ Standing.Part (Piece.Aimed aim offset) }
{
    Standing::Part(Piece::Aimed(aim, offset))
}

/// A load or store that changes its pointer has no defined effect on the pointer's own registers.
fn off_pointer(low: u8, register: u8, unit: Unit) -> Standing
    requires { low < register_count }
    ensures { result ≡ off_pointer low register unit }
{
    if register == low || register == low + 1 {
        Standing::Barred(6)
    } else {
        whole(unit)
    }
}

fn standing_in(port: u8, unit: Unit) -> Standing
    ensures { result ≡ standing_in port unit }
{
    match port {
        SPL_PORT | SPH_PORT | SREG_PORT => whole(unit),
        _ => Standing::Barred(4),
    }
}

fn standing_out(port: u8, unit: Unit) -> Standing
    ensures { result ≡ standing_out port unit }
{
    match port {
        SREG_PORT => whole(unit),
        SPL_PORT | SPH_PORT => Standing::Barred(5),
        _ => Standing::Barred(4),
    }
}

/// A call leads to a kernel call or a subscription slot, by the entry page.
fn standing_call(address: u32) -> Standing
    ensures { result ≡ standing_call address }
{
    let Ok(address) = u16::try_from(address) else {
        return Standing::Barred(7);
    };
    match entry_of(address) {
        Some(Entry::Kernel(call)) => whole(Unit::KernelCall(call)),
        Some(Entry::Slot(slot)) => whole(Unit::SlotCall(slot)),
        _ => Standing::Barred(7),
    }
}
