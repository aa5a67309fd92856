//! The text of an instruction that stands in a unit as it is, one arm for each.
#![tactic(auto, unfolding(crate::specs::Instructions::instruction_text))]

ghost use Rattle.std.specs.Prelude.{◌≡◌, ◌≤◌, ◌+◌, ◌++◌};
ghost use Rattle.arrayvec.specs.ArrayVec.{array_vec_len};
ghost use Rattle.mote_base.specs.Lines.{line_bytes};
ghost use Rattle.avr_isa.specs.Place.{place};
ghost use Rattle.avr_list.specs.Instructions.{HasText, instruction_text};
ghost use Rattle.avr_list.specs.Widths.{unit_width};

use crate::operand::Operand::{Address, At, Behind, Lowered, Number, Raised, Register};
use crate::operand::Pointer::{X, Y, Z};
use crate::operand::{add_one, add_two};
use avr_isa::Instr;
use mote_base::{Line, add_text};

/// Adds an instruction.
///
/// The instructions come in the order of the table of opcodes; each function takes the next lines, and passes the later
/// ones on. Here are those of two registers, or of a register and a constant.
pub fn add_instruction(line: &mut Line, instruction: &Instr)
    requires room { array_vec_len line.old + unit_width ≤ line_bytes }
    requires text { HasText instruction.now }
    ensures items { line.new.items ≡ line.old.items ++ instruction_text instruction.now }
    ensures len { array_vec_len line.new ≤ array_vec_len line.old + unit_width }
{
    match *instruction {
        Instr::Nop => add_text(line, b"nop"),
        Instr::Movw(d, r) => add_two(line, b"movw", Register(d), Register(r)),
        Instr::Muls(d, r) => add_two(line, b"muls", Register(d), Register(r)),
        Instr::Mulsu(d, r) => add_two(line, b"mulsu", Register(d), Register(r)),
        Instr::Fmul(d, r) => add_two(line, b"fmul", Register(d), Register(r)),
        Instr::Fmuls(d, r) => add_two(line, b"fmuls", Register(d), Register(r)),
        Instr::Fmulsu(d, r) => add_two(line, b"fmulsu", Register(d), Register(r)),
        Instr::Cpc(d, r) => add_two(line, b"cpc", Register(d), Register(r)),
        Instr::Sbc(d, r) => add_two(line, b"sbc", Register(d), Register(r)),
        Instr::Add(d, r) => add_two(line, b"add", Register(d), Register(r)),
        Instr::Cpse(d, r) => add_two(line, b"cpse", Register(d), Register(r)),
        Instr::Cp(d, r) => add_two(line, b"cp", Register(d), Register(r)),
        Instr::Sub(d, r) => add_two(line, b"sub", Register(d), Register(r)),
        Instr::Adc(d, r) => add_two(line, b"adc", Register(d), Register(r)),
        Instr::And(d, r) => add_two(line, b"and", Register(d), Register(r)),
        Instr::Eor(d, r) => add_two(line, b"eor", Register(d), Register(r)),
        Instr::Or(d, r) => add_two(line, b"or", Register(d), Register(r)),
        Instr::Mov(d, r) => add_two(line, b"mov", Register(d), Register(r)),
        Instr::Cpi(d, constant) => add_two(line, b"cpi", Register(d), Number(constant)),
        Instr::Sbci(d, constant) => add_two(line, b"sbci", Register(d), Number(constant)),
        Instr::Subi(d, constant) => add_two(line, b"subi", Register(d), Number(constant)),
        Instr::Ori(d, constant) => add_two(line, b"ori", Register(d), Number(constant)),
        Instr::Andi(d, constant) => add_two(line, b"andi", Register(d), Number(constant)),
        _ => add_from_loads(line, instruction),
    }
}

/// The loads and stores, and what comes later.
fn add_from_loads(line: &mut Line, instruction: &Instr)
    requires room { array_vec_len line.old + unit_width ≤ line_bytes }
    requires text { HasText instruction.now }
    requires further { 23 ≤ place instruction.now }
    ensures items { line.new.items ≡ line.old.items ++ instruction_text instruction.now }
    ensures len { array_vec_len line.new ≤ array_vec_len line.old + unit_width }
{
    match *instruction {
        Instr::LddZ(d, q) => add_two(line, b"ldd", Register(d), Behind(Z, q)),
        Instr::LddY(d, q) => add_two(line, b"ldd", Register(d), Behind(Y, q)),
        Instr::StdZ(r, q) => add_two(line, b"std", Behind(Z, q), Register(r)),
        Instr::StdY(r, q) => add_two(line, b"std", Behind(Y, q), Register(r)),
        Instr::Lds(d, address) => add_two(line, b"lds", Register(d), Address(address)),
        Instr::LdZInc(d) => add_two(line, b"ld", Register(d), Raised(Z)),
        Instr::LdZDec(d) => add_two(line, b"ld", Register(d), Lowered(Z)),
        Instr::LdYInc(d) => add_two(line, b"ld", Register(d), Raised(Y)),
        Instr::LdYDec(d) => add_two(line, b"ld", Register(d), Lowered(Y)),
        Instr::LdX(d) => add_two(line, b"ld", Register(d), At(X)),
        Instr::LdXInc(d) => add_two(line, b"ld", Register(d), Raised(X)),
        Instr::LdXDec(d) => add_two(line, b"ld", Register(d), Lowered(X)),
        Instr::Sts(r, address) => add_two(line, b"sts", Address(address), Register(r)),
        Instr::StZInc(r) => add_two(line, b"st", Raised(Z), Register(r)),
        Instr::StZDec(r) => add_two(line, b"st", Lowered(Z), Register(r)),
        Instr::StYInc(r) => add_two(line, b"st", Raised(Y), Register(r)),
        Instr::StYDec(r) => add_two(line, b"st", Lowered(Y), Register(r)),
        Instr::StX(r) => add_two(line, b"st", At(X), Register(r)),
        Instr::StXInc(r) => add_two(line, b"st", Raised(X), Register(r)),
        Instr::StXDec(r) => add_two(line, b"st", Lowered(X), Register(r)),
        _ => add_from_one_register(line, instruction),
    }
}

/// The operations on one register, on a flag, a port or a bit, and what else comes later in the table.
fn add_from_one_register(line: &mut Line, instruction: &Instr)
    requires room { array_vec_len line.old + unit_width ≤ line_bytes }
    requires text { HasText instruction.now }
    requires further { 49 ≤ place instruction.now }
    ensures items { line.new.items ≡ line.old.items ++ instruction_text instruction.now }
    ensures len { array_vec_len line.new ≤ array_vec_len line.old + unit_width }
{
    match *instruction {
        Instr::Com(d) => add_one(line, b"com", Register(d)),
        Instr::Neg(d) => add_one(line, b"neg", Register(d)),
        Instr::Swap(d) => add_one(line, b"swap", Register(d)),
        Instr::Inc(d) => add_one(line, b"inc", Register(d)),
        Instr::Asr(d) => add_one(line, b"asr", Register(d)),
        Instr::Lsr(d) => add_one(line, b"lsr", Register(d)),
        Instr::Ror(d) => add_one(line, b"ror", Register(d)),
        Instr::Dec(d) => add_one(line, b"dec", Register(d)),
        Instr::Bset(flag) => add_one(line, b"bset", Number(flag)),
        Instr::Bclr(flag) => add_one(line, b"bclr", Number(flag)),
        Instr::Adiw(d, constant) => add_two(line, b"adiw", Register(d), Number(constant)),
        Instr::Sbiw(d, constant) => add_two(line, b"sbiw", Register(d), Number(constant)),
        Instr::Mul(d, r) => add_two(line, b"mul", Register(d), Register(r)),
        Instr::In(d, port) => add_two(line, b"in", Register(d), Number(port)),
        Instr::Out(r, port) => add_two(line, b"out", Number(port), Register(r)),
        Instr::Ldi(d, constant) => add_two(line, b"ldi", Register(d), Number(constant)),
        Instr::Bld(d, bit) => add_two(line, b"bld", Register(d), Number(bit)),
        Instr::Bst(d, bit) => add_two(line, b"bst", Register(d), Number(bit)),
        Instr::Sbrc(r, bit) => add_two(line, b"sbrc", Register(r), Number(bit)),
        Instr::Sbrs(r, bit) => add_two(line, b"sbrs", Register(r), Number(bit)),
        _ => unreachable!(),
    }
}
