//! What the first word of an instruction tells, by groups of its bits.
#![tactic(auto, using(crate::proofs::Rows::Registers::registers, crate::proofs::Rows::Constants::constants, crate::proofs::Rows::Memory::memory, crate::proofs::Rows::Single::single, crate::proofs::Rows::Jumps::jumps, crate::proofs::Rows::Bits::bits, crate::proofs::Undefined::undefined_words))]

ghost use Rattle.std.specs.Prelude.{◌≡◌, ◌/◌, ◌%◌, ◌^◌, ◌<◌, ◌≤◌};
ghost use Rattle.avr_isa.specs.FirstWord.{IsFirstWord, IsWordOf, completed};

use crate::fields::{
    bits, branch_offset, constant, displacement, high_address, jump_offset, pair_constant, port,
    register, second_register, upper_pair, upper_register,
};
use crate::instruction::Instr;
use crate::opcode;

/// What a first word is.
#[derive(Clone, Copy)]
pub(crate) enum FirstWord {
    /// An instruction of one word.
    Whole(Instr),
    /// The first word of an instruction of two.
    Begun(Long),
    /// The first word of no instruction.
    Undefined,
}

/// An instruction of two words by what its first one says.
#[derive(Clone, Copy)]
pub(crate) enum Long {
    /// LDS to a register.
    Load(u8),
    /// STS of a register.
    Store(u8),
    /// JMP with the high six bits of its address.
    Jump(u8),
    /// CALL with the high six bits of its address.
    Call(u8),
}

impl Long {
    /// The instruction whose second word is `second`.
    pub(crate) fn completed(self, second: u16) -> Instr
        ensures { result ≡ completed self second }
    {
        match self {
            Long::Load(d) => Instr::Lds(d, second),
            Long::Store(r) => Instr::Sts(r, second),
            Long::Jump(high) => Instr::Jmp(u32::from(high) * 65_536 + u32::from(second)),
            Long::Call(high) => Instr::Call(u32::from(high) * 65_536 + u32::from(second)),
        }
    }
}

/// What the table says of a first word.
pub(crate) fn first_word(word: u16) -> FirstWord
    ensures { IsFirstWord word result }
{
    match bits(word, 12, 4) {
        opcode::CPI => FirstWord::Whole(Instr::Cpi(upper_register(word), constant(word))),
        opcode::SBCI => FirstWord::Whole(Instr::Sbci(upper_register(word), constant(word))),
        opcode::SUBI => FirstWord::Whole(Instr::Subi(upper_register(word), constant(word))),
        opcode::ORI => FirstWord::Whole(Instr::Ori(upper_register(word), constant(word))),
        opcode::ANDI => FirstWord::Whole(Instr::Andi(upper_register(word), constant(word))),
        8 | 10 => FirstWord::Whole(displaced(word)),
        9 => begins_with_nine(word),
        11 => FirstWord::Whole(port_access(word)),
        opcode::RJMP => FirstWord::Whole(Instr::Rjmp(jump_offset(word))),
        opcode::RCALL => FirstWord::Whole(Instr::Rcall(jump_offset(word))),
        opcode::LDI => FirstWord::Whole(Instr::Ldi(upper_register(word), constant(word))),
        15 => begins_with_fifteen(word),
        _ => of_two_registers(word),
    }
}

/// The first words that begin with 00: two registers, for the most part.
fn of_two_registers(word: u16) -> FirstWord
    requires { word / 2 ^ 12 % 2 ^ 4 < 3 }
    ensures { IsFirstWord word result }
{
    let d = register(word);
    let r = second_register(word);
    match bits(word, 10, 6) {
        0 => begins_with_six_zeros(word),
        opcode::CPC => FirstWord::Whole(Instr::Cpc(d, r)),
        opcode::SBC => FirstWord::Whole(Instr::Sbc(d, r)),
        opcode::ADD => FirstWord::Whole(Instr::Add(d, r)),
        opcode::CPSE => FirstWord::Whole(Instr::Cpse(d, r)),
        opcode::CP => FirstWord::Whole(Instr::Cp(d, r)),
        opcode::SUB => FirstWord::Whole(Instr::Sub(d, r)),
        opcode::ADC => FirstWord::Whole(Instr::Adc(d, r)),
        opcode::AND => FirstWord::Whole(Instr::And(d, r)),
        opcode::EOR => FirstWord::Whole(Instr::Eor(d, r)),
        opcode::OR => FirstWord::Whole(Instr::Or(d, r)),
        _ => FirstWord::Whole(Instr::Mov(d, r)),
    }
}

/// The first words that begin with 0000 00: no operation, a pair to a pair, or a product.
fn begins_with_six_zeros(word: u16) -> FirstWord
    requires { word / 2 ^ 10 % 2 ^ 6 ≡ 0 }
    ensures { IsFirstWord word result }
{
    match bits(word, 8, 8) {
        0 => {
            if word == 0 {
                FirstWord::Whole(Instr::Nop)
            } else {
                FirstWord::Undefined
            }
        }
        opcode::MOVW => FirstWord::Whole(Instr::Movw(2 * bits(word, 4, 4), 2 * bits(word, 0, 4))),
        opcode::MULS => FirstWord::Whole(Instr::Muls(16 + bits(word, 4, 4), 16 + bits(word, 0, 4))),
        _ => FirstWord::Whole(product_of_middle_registers(word)),
    }
}

/// Products of two of R16 to R23, `0000 0011 xddd xrrr`.
fn product_of_middle_registers(word: u16) -> Instr
    requires { word / 2 ^ 8 % 2 ^ 8 ≡ 3 }
    ensures { IsWordOf word result }
{
    let d = 16 + bits(word, 4, 3);
    let r = 16 + bits(word, 0, 3);
    match (bits(word, 7, 1), bits(word, 3, 1)) {
        (0, 0) => Instr::Mulsu(d, r),
        (0, _) => Instr::Fmul(d, r),
        (_, 0) => Instr::Fmuls(d, r),
        _ => Instr::Fmulsu(d, r),
    }
}

/// Loads and stores with a displacement, `10q0 qqxd dddd xqqq`.
fn displaced(word: u16) -> Instr
    requires top { word / 2 ^ 14 % 2 ^ 2 ≡ 2 }
    requires even { word / 2 ^ 12 % 2 ^ 1 ≡ 0 }
    ensures { IsWordOf word result }
{
    let register = register(word);
    let q = displacement(word);
    match (bits(word, 9, 1), bits(word, 3, 1)) {
        (0, 0) => Instr::LddZ(register, q),
        (0, _) => Instr::LddY(register, q),
        (_, 0) => Instr::StdZ(register, q),
        _ => Instr::StdY(register, q),
    }
}

/// The first words that begin with 1001.
fn begins_with_nine(word: u16) -> FirstWord
    requires { word / 2 ^ 12 % 2 ^ 4 ≡ 9 }
    ensures { IsFirstWord word result }
{
    match bits(word, 9, 7) {
        opcode::LOAD => load(word),
        opcode::STORE => store(word),
        opcode::ONE_REGISTER => of_one_register(word),
        _ => FirstWord::Whole(of_small_constant(word)),
    }
}

/// Loads without a displacement, from the program memory too, and POP: `1001 000d dddd xxxx`.
fn load(word: u16) -> FirstWord
    requires { word / 2 ^ 9 % 2 ^ 7 ≡ 72 }
    ensures { IsFirstWord word result }
{
    let d = register(word);
    match bits(word, 0, 4) {
        opcode::FAR => FirstWord::Begun(Long::Load(d)),
        opcode::Z_INC => FirstWord::Whole(Instr::LdZInc(d)),
        opcode::Z_DEC => FirstWord::Whole(Instr::LdZDec(d)),
        opcode::LPM_Z => FirstWord::Whole(Instr::LpmZ(d)),
        opcode::LPM_Z_INC => FirstWord::Whole(Instr::LpmZInc(d)),
        opcode::ELPM_Z => FirstWord::Whole(Instr::ElpmZ(d)),
        opcode::ELPM_Z_INC => FirstWord::Whole(Instr::ElpmZInc(d)),
        opcode::Y_INC => FirstWord::Whole(Instr::LdYInc(d)),
        opcode::Y_DEC => FirstWord::Whole(Instr::LdYDec(d)),
        opcode::X => FirstWord::Whole(Instr::LdX(d)),
        opcode::X_INC => FirstWord::Whole(Instr::LdXInc(d)),
        opcode::X_DEC => FirstWord::Whole(Instr::LdXDec(d)),
        opcode::STACK => FirstWord::Whole(Instr::Pop(d)),
        _ => FirstWord::Undefined,
    }
}

/// Stores without a displacement, and PUSH: `1001 001r rrrr xxxx`.
fn store(word: u16) -> FirstWord
    requires { word / 2 ^ 9 % 2 ^ 7 ≡ 73 }
    ensures { IsFirstWord word result }
{
    let r = register(word);
    match bits(word, 0, 4) {
        opcode::FAR => FirstWord::Begun(Long::Store(r)),
        opcode::Z_INC => FirstWord::Whole(Instr::StZInc(r)),
        opcode::Z_DEC => FirstWord::Whole(Instr::StZDec(r)),
        opcode::Y_INC => FirstWord::Whole(Instr::StYInc(r)),
        opcode::Y_DEC => FirstWord::Whole(Instr::StYDec(r)),
        opcode::X => FirstWord::Whole(Instr::StX(r)),
        opcode::X_INC => FirstWord::Whole(Instr::StXInc(r)),
        opcode::X_DEC => FirstWord::Whole(Instr::StXDec(r)),
        opcode::STACK => FirstWord::Whole(Instr::Push(r)),
        _ => FirstWord::Undefined,
    }
}

/// The first words that begin with 1001 010: one register, a jump or a call, or no operand.
fn of_one_register(word: u16) -> FirstWord
    requires { word / 2 ^ 9 % 2 ^ 7 ≡ 74 }
    ensures { IsFirstWord word result }
{
    let d = register(word);
    match bits(word, 0, 4) {
        opcode::COM => FirstWord::Whole(Instr::Com(d)),
        opcode::NEG => FirstWord::Whole(Instr::Neg(d)),
        opcode::SWAP => FirstWord::Whole(Instr::Swap(d)),
        opcode::INC => FirstWord::Whole(Instr::Inc(d)),
        opcode::ASR => FirstWord::Whole(Instr::Asr(d)),
        opcode::LSR => FirstWord::Whole(Instr::Lsr(d)),
        opcode::ROR => FirstWord::Whole(Instr::Ror(d)),
        opcode::CONTROL => control(word),
        opcode::INDIRECT => indirect(word),
        opcode::DEC => FirstWord::Whole(Instr::Dec(d)),
        12 | 13 => FirstWord::Begun(Long::Jump(high_address(word))),
        14 | 15 => FirstWord::Begun(Long::Call(high_address(word))),
        _ => FirstWord::Undefined,
    }
}

/// Flags of the status register, returns, and the processor's states: the words that end with 1000.
fn control(word: u16) -> FirstWord
    requires top { word / 2 ^ 9 % 2 ^ 7 ≡ 74 }
    requires low { word / 2 ^ 0 % 2 ^ 4 ≡ 8 }
    ensures { IsFirstWord word result }
{
    if bits(word, 8, 1) == 0 {
        let s = bits(word, 4, 3);
        return FirstWord::Whole(if bits(word, 7, 1) == 0 {
            Instr::Bset(s)
        } else {
            Instr::Bclr(s)
        });
    }
    match bits(word, 4, 5) {
        16 => FirstWord::Whole(Instr::Ret),
        17 => FirstWord::Whole(Instr::Reti),
        24 => FirstWord::Whole(Instr::Sleep),
        25 => FirstWord::Whole(Instr::Break),
        26 => FirstWord::Whole(Instr::Wdr),
        28 => FirstWord::Whole(Instr::LpmR0),
        29 => FirstWord::Whole(Instr::ElpmR0),
        30 => FirstWord::Whole(Instr::Spm),
        _ => FirstWord::Undefined,
    }
}

/// Jumps and calls to where Z points: the words that end with 1001.
fn indirect(word: u16) -> FirstWord
    requires top { word / 2 ^ 9 % 2 ^ 7 ≡ 74 }
    requires low { word / 2 ^ 0 % 2 ^ 4 ≡ 9 }
    ensures { IsFirstWord word result }
{
    match bits(word, 4, 5) {
        0 => FirstWord::Whole(Instr::Ijmp),
        16 => FirstWord::Whole(Instr::Icall),
        _ => FirstWord::Undefined,
    }
}

/// A pair and a constant, a bit of a port, or an unsigned product: 1001 011 and what is above it.
fn of_small_constant(word: u16) -> Instr
    requires nine { word / 2 ^ 12 % 2 ^ 4 ≡ 9 }
    requires above { 75 ≤ word / 2 ^ 9 % 2 ^ 7 }
    ensures { IsWordOf word result }
{
    let bit = bits(word, 0, 3);
    let low_port = bits(word, 3, 5);
    match bits(word, 8, 8) {
        opcode::ADIW => Instr::Adiw(upper_pair(word), pair_constant(word)),
        opcode::SBIW => Instr::Sbiw(upper_pair(word), pair_constant(word)),
        opcode::CBI => Instr::Cbi(low_port, bit),
        opcode::SBIC => Instr::Sbic(low_port, bit),
        opcode::SBI => Instr::Sbi(low_port, bit),
        opcode::SBIS => Instr::Sbis(low_port, bit),
        _ => Instr::Mul(register(word), second_register(word)),
    }
}

/// IN and OUT, `1011 xAAd dddd AAAA`.
fn port_access(word: u16) -> Instr
    requires { word / 2 ^ 12 % 2 ^ 4 ≡ 11 }
    ensures { IsWordOf word result }
{
    if bits(word, 11, 5) == opcode::IN {
        Instr::In(register(word), port(word))
    } else {
        Instr::Out(register(word), port(word))
    }
}

/// The first words that begin with 1111: a branch, or a bit of a register.
fn begins_with_fifteen(word: u16) -> FirstWord
    requires { word / 2 ^ 12 % 2 ^ 4 ≡ 15 }
    ensures { IsFirstWord word result }
{
    match bits(word, 10, 6) {
        opcode::BRBS => FirstWord::Whole(Instr::Brbs(bits(word, 0, 3), branch_offset(word))),
        opcode::BRBC => FirstWord::Whole(Instr::Brbc(bits(word, 0, 3), branch_offset(word))),
        _ => of_a_register_bit(word),
    }
}

/// A bit of a register, `1111 1xxd dddd 0bbb`.
fn of_a_register_bit(word: u16) -> FirstWord
    requires { word / 2 ^ 11 % 2 ^ 5 ≡ 31 }
    ensures { IsFirstWord word result }
{
    if bits(word, 3, 1) == 1 {
        return FirstWord::Undefined;
    }
    let register = register(word);
    let bit = bits(word, 0, 3);
    FirstWord::Whole(match bits(word, 9, 7) {
        opcode::BLD => Instr::Bld(register, bit),
        opcode::BST => Instr::Bst(register, bit),
        opcode::SBRC => Instr::Sbrc(register, bit),
        _ => Instr::Sbrs(register, bit),
    })
}
