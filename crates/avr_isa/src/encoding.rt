//! From the instruction to its words.
#![tactic(auto, using(crate::proofs::Rows::Registers::registers, crate::proofs::Rows::Constants::constants, crate::proofs::Rows::Memory::memory, crate::proofs::Rows::Single::single, crate::proofs::Rows::Jumps::jumps, crate::proofs::Rows::Bits::bits), unfolding(crate::specs::Operands::IsEncodable))]

ghost use Rattle.std.specs.Prelude.{◌≡◌, ◌≤◌, ℕ, Option};
ghost use Rattle.avr_isa.specs.Decoded.{decoded};
ghost use Rattle.avr_isa.specs.Laws.{AreWords, kept};
ghost use Rattle.avr_isa.specs.Operands.{IsEncodable};
ghost use Rattle.avr_isa.specs.Place.{IsFirstWordOf, place, second_word};
ghost use Rattle.avr_isa.specs.Table.{Row, word_count};

use crate::formats::{
    branch, far_jump, one_register, pair_and_constant, port_bit, register_and_constant,
    register_and_port, register_bit, relative_jump, two_halves, two_registers, with_displacement,
};
use crate::instruction::Instr;
use crate::opcode;

/// The words of an instruction. The second is `None` where it has one word.
#[tactic(auto, using(crate::proofs::Spelled::spelled))]
pub fn encode(i: &Instr) -> (u16, Option<u16>)
    requires { IsEncodable i.now }
    ensures row { Row result.0 result.1 i.now (word_count result.1) }

    // Decoded, they give the instruction again; and no other words do.
    ensures decodes { decoded result.0 result.1 ≡ Ok (i.now, word_count result.1) }
    ensures only { (first : ℕ) (second : Option ℕ) (n : ℕ) → AreWords first second → Row first second i.now n
        → result ≡ (first, kept n second) }
{
    words(i)
}

fn words(i: &Instr) -> (u16, Option<u16>)
    requires { IsEncodable i.now }
    ensures row { Row result.0 result.1 i.now (word_count result.1) }
    ensures words { AreWords result.0 result.1 }
{
    (first_word(i), second(i))
}

/// The second word of an instruction that has one.
fn second(i: &Instr) -> Option<u16>
    ensures { result ≡ second_word i.now }
{
    match *i {
        Instr::Lds(_, k) | Instr::Sts(_, k) => Some(k),
        Instr::Jmp(k) | Instr::Call(k) => Some((k % 0x1_0000) as u16),
        _ => None,
    }
}

/// The first word. The instructions come in the order of the table; each function below takes the next
/// lines, and passes the later ones on. Here are those of two registers, or of a register and a constant.
fn first_word(i: &Instr) -> u16
    requires { IsEncodable i.now }
    ensures { IsFirstWordOf result i.now }
{
    match *i {
        Instr::Nop => 0,
        Instr::Movw(d, r) => two_halves(opcode::MOVW, d / 2, r / 2),
        Instr::Muls(d, r) => two_halves(opcode::MULS, d - 16, r - 16),
        Instr::Mulsu(d, r) => two_halves(opcode::MIDDLE_PRODUCT, d - 16, r - 16),
        Instr::Fmul(d, r) => two_halves(opcode::MIDDLE_PRODUCT, d - 16, r - 8),
        Instr::Fmuls(d, r) => two_halves(opcode::MIDDLE_PRODUCT, d - 8, r - 16),
        Instr::Fmulsu(d, r) => two_halves(opcode::MIDDLE_PRODUCT, d - 8, r - 8),
        Instr::Cpc(d, r) => two_registers(opcode::CPC, d, r),
        Instr::Sbc(d, r) => two_registers(opcode::SBC, d, r),
        Instr::Add(d, r) => two_registers(opcode::ADD, d, r),
        Instr::Cpse(d, r) => two_registers(opcode::CPSE, d, r),
        Instr::Cp(d, r) => two_registers(opcode::CP, d, r),
        Instr::Sub(d, r) => two_registers(opcode::SUB, d, r),
        Instr::Adc(d, r) => two_registers(opcode::ADC, d, r),
        Instr::And(d, r) => two_registers(opcode::AND, d, r),
        Instr::Eor(d, r) => two_registers(opcode::EOR, d, r),
        Instr::Or(d, r) => two_registers(opcode::OR, d, r),
        Instr::Mov(d, r) => two_registers(opcode::MOV, d, r),
        Instr::Cpi(d, constant) => register_and_constant(opcode::CPI, d, constant),
        Instr::Sbci(d, constant) => register_and_constant(opcode::SBCI, d, constant),
        Instr::Subi(d, constant) => register_and_constant(opcode::SUBI, d, constant),
        Instr::Ori(d, constant) => register_and_constant(opcode::ORI, d, constant),
        Instr::Andi(d, constant) => register_and_constant(opcode::ANDI, d, constant),
        _ => first_word_from_loads(i),
    }
}

/// The first word from the loads on. Here are the loads and stores.
fn first_word_from_loads(i: &Instr) -> u16
    requires operands { IsEncodable i.now }
    requires further { 23 ≤ place i.now }
    ensures { IsFirstWordOf result i.now }
{
    match *i {
        Instr::LddZ(d, q) => with_displacement(0, 0, d, q),
        Instr::LddY(d, q) => with_displacement(0, 1, d, q),
        Instr::StdZ(r, q) => with_displacement(1, 0, r, q),
        Instr::StdY(r, q) => with_displacement(1, 1, r, q),
        Instr::Lds(d, _) => one_register(opcode::LOAD, d, opcode::FAR),
        Instr::LdZInc(d) => one_register(opcode::LOAD, d, opcode::Z_INC),
        Instr::LdZDec(d) => one_register(opcode::LOAD, d, opcode::Z_DEC),
        Instr::LpmZ(d) => one_register(opcode::LOAD, d, opcode::LPM_Z),
        Instr::LpmZInc(d) => one_register(opcode::LOAD, d, opcode::LPM_Z_INC),
        Instr::ElpmZ(d) => one_register(opcode::LOAD, d, opcode::ELPM_Z),
        Instr::ElpmZInc(d) => one_register(opcode::LOAD, d, opcode::ELPM_Z_INC),
        Instr::LdYInc(d) => one_register(opcode::LOAD, d, opcode::Y_INC),
        Instr::LdYDec(d) => one_register(opcode::LOAD, d, opcode::Y_DEC),
        Instr::LdX(d) => one_register(opcode::LOAD, d, opcode::X),
        Instr::LdXInc(d) => one_register(opcode::LOAD, d, opcode::X_INC),
        Instr::LdXDec(d) => one_register(opcode::LOAD, d, opcode::X_DEC),
        Instr::Pop(d) => one_register(opcode::LOAD, d, opcode::STACK),
        Instr::Sts(r, _) => one_register(opcode::STORE, r, opcode::FAR),
        Instr::StZInc(r) => one_register(opcode::STORE, r, opcode::Z_INC),
        Instr::StZDec(r) => one_register(opcode::STORE, r, opcode::Z_DEC),
        Instr::StYInc(r) => one_register(opcode::STORE, r, opcode::Y_INC),
        Instr::StYDec(r) => one_register(opcode::STORE, r, opcode::Y_DEC),
        Instr::StX(r) => one_register(opcode::STORE, r, opcode::X),
        Instr::StXInc(r) => one_register(opcode::STORE, r, opcode::X_INC),
        Instr::StXDec(r) => one_register(opcode::STORE, r, opcode::X_DEC),
        Instr::Push(r) => one_register(opcode::STORE, r, opcode::STACK),
        _ => first_word_from_one_register(i),
    }
}

/// The first word from COM on. Here are those of one register, of a flag, and of no operand.
fn first_word_from_one_register(i: &Instr) -> u16
    requires operands { IsEncodable i.now }
    requires further { 49 ≤ place i.now }
    ensures { IsFirstWordOf result i.now }
{
    match *i {
        Instr::Com(d) => one_register(opcode::ONE_REGISTER, d, opcode::COM),
        Instr::Neg(d) => one_register(opcode::ONE_REGISTER, d, opcode::NEG),
        Instr::Swap(d) => one_register(opcode::ONE_REGISTER, d, opcode::SWAP),
        Instr::Inc(d) => one_register(opcode::ONE_REGISTER, d, opcode::INC),
        Instr::Asr(d) => one_register(opcode::ONE_REGISTER, d, opcode::ASR),
        Instr::Lsr(d) => one_register(opcode::ONE_REGISTER, d, opcode::LSR),
        Instr::Ror(d) => one_register(opcode::ONE_REGISTER, d, opcode::ROR),
        Instr::Dec(d) => one_register(opcode::ONE_REGISTER, d, opcode::DEC),
        Instr::Bset(s) => one_register(opcode::ONE_REGISTER, s, opcode::CONTROL),
        Instr::Bclr(s) => one_register(opcode::ONE_REGISTER, 8 + s, opcode::CONTROL),
        Instr::Ijmp => 0x9409,
        Instr::Icall => 0x9509,
        Instr::Ret => 0x9508,
        Instr::Reti => 0x9518,
        Instr::Sleep => 0x9588,
        Instr::Break => 0x9598,
        Instr::Wdr => 0x95A8,
        Instr::LpmR0 => 0x95C8,
        Instr::ElpmR0 => 0x95D8,
        Instr::Spm => 0x95E8,
        Instr::Jmp(k) => far_jump(6, (k / 0x1_0000) as u16),
        Instr::Call(k) => far_jump(7, (k / 0x1_0000) as u16),
        _ => first_word_from_pairs(i),
    }
}

/// The first word from ADIW on.
fn first_word_from_pairs(i: &Instr) -> u16
    requires operands { IsEncodable i.now }
    requires further { 71 ≤ place i.now }
    ensures { IsFirstWordOf result i.now }
{
    match *i {
        Instr::Adiw(d, constant) => pair_and_constant(opcode::ADIW, d, constant),
        Instr::Sbiw(d, constant) => pair_and_constant(opcode::SBIW, d, constant),
        Instr::Cbi(port, bit) => port_bit(opcode::CBI, port, bit),
        Instr::Sbic(port, bit) => port_bit(opcode::SBIC, port, bit),
        Instr::Sbi(port, bit) => port_bit(opcode::SBI, port, bit),
        Instr::Sbis(port, bit) => port_bit(opcode::SBIS, port, bit),
        Instr::Mul(d, r) => two_registers(opcode::MUL, d, r),
        Instr::In(d, port) => register_and_port(opcode::IN, d, port),
        Instr::Out(r, port) => register_and_port(opcode::OUT, r, port),
        Instr::Rjmp(offset) => relative_jump(opcode::RJMP, offset),
        Instr::Rcall(offset) => relative_jump(opcode::RCALL, offset),
        Instr::Ldi(d, constant) => register_and_constant(opcode::LDI, d, constant),
        Instr::Brbs(bit, offset) => branch(opcode::BRBS, bit, offset),
        Instr::Brbc(bit, offset) => branch(opcode::BRBC, bit, offset),
        Instr::Bld(d, bit) => register_bit(opcode::BLD, d, bit),
        Instr::Bst(d, bit) => register_bit(opcode::BST, d, bit),
        Instr::Sbrc(r, bit) => register_bit(opcode::SBRC, r, bit),
        Instr::Sbrs(r, bit) => register_bit(opcode::SBRS, r, bit),
        _ => unreachable!(),
    }
}
