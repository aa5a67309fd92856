//! Instructions by their names and operands.
ghost use Rattle.std.specs.Prelude.{◌≡◌};
ghost use Rattle.avr_asm.specs.Reading.{compared, constant, controlled, load, load_behind, loaded, named_instruction, single, store, store_behind, wide};

use crate::cut::begins;
use crate::operand::{
    address, behind_two, bit, byte, middle, pair, register, six_bits, upper, upper_pair,
};
use avr_isa::Instr;

/// The instruction of a name and its operands. The names come in groups; each function takes the next ones, and passes the
/// others on.
#[tactic(auto, unfolding(crate::specs::Reading::named_instruction))]
pub fn named_instruction(name: &[u8], a: &[u8], b: &[u8]) -> Instr
    ensures { result ≡ named_instruction name.now a.now b.now }
{
    if name == b"movw".as_slice() {
        return Instr::Movw(pair(a), pair(b));
    }
    if name == b"muls".as_slice() {
        return Instr::Muls(upper(a), upper(b));
    }
    if name == b"mulsu".as_slice() {
        return Instr::Mulsu(middle(a), middle(b));
    }
    if name == b"fmul".as_slice() {
        return Instr::Fmul(middle(a), middle(b));
    }
    if name == b"fmuls".as_slice() {
        return Instr::Fmuls(middle(a), middle(b));
    }
    if name == b"fmulsu".as_slice() {
        return Instr::Fmulsu(middle(a), middle(b));
    }
    if name == b"cpc".as_slice() {
        return Instr::Cpc(register(a), register(b));
    }
    if name == b"sbc".as_slice() {
        return Instr::Sbc(register(a), register(b));
    }
    if name == b"add".as_slice() {
        return Instr::Add(register(a), register(b));
    }
    if name == b"cpse".as_slice() {
        return Instr::Cpse(register(a), register(b));
    }
    compared(name, a, b)
}

#[tactic(auto, unfolding(crate::specs::Reading::compared))]
fn compared(name: &[u8], a: &[u8], b: &[u8]) -> Instr
    ensures { result ≡ compared name.now a.now b.now }
{
    if name == b"cp".as_slice() {
        return Instr::Cp(register(a), register(b));
    }
    if name == b"sub".as_slice() {
        return Instr::Sub(register(a), register(b));
    }
    if name == b"adc".as_slice() {
        return Instr::Adc(register(a), register(b));
    }
    if name == b"and".as_slice() {
        return Instr::And(register(a), register(b));
    }
    if name == b"eor".as_slice() {
        return Instr::Eor(register(a), register(b));
    }
    if name == b"or".as_slice() {
        return Instr::Or(register(a), register(b));
    }
    if name == b"mov".as_slice() {
        return Instr::Mov(register(a), register(b));
    }
    constant(name, a, b)
}

#[tactic(auto, unfolding(crate::specs::Reading::constant))]
fn constant(name: &[u8], a: &[u8], b: &[u8]) -> Instr
    ensures { result ≡ constant name.now a.now b.now }
{
    if name == b"cpi".as_slice() {
        return Instr::Cpi(upper(a), byte(b));
    }
    if name == b"sbci".as_slice() {
        return Instr::Sbci(upper(a), byte(b));
    }
    if name == b"subi".as_slice() {
        return Instr::Subi(upper(a), byte(b));
    }
    if name == b"ori".as_slice() {
        return Instr::Ori(upper(a), byte(b));
    }
    if name == b"andi".as_slice() {
        return Instr::Andi(upper(a), byte(b));
    }
    loaded(name, a, b)
}

#[tactic(auto, unfolding(crate::specs::Reading::loaded))]
fn loaded(name: &[u8], a: &[u8], b: &[u8]) -> Instr
    ensures { result ≡ loaded name.now a.now b.now }
{
    if name == b"ldd".as_slice() {
        return load_behind(b, register(a));
    }
    if name == b"std".as_slice() {
        return store_behind(a, register(b));
    }
    if name == b"lds".as_slice() {
        return Instr::Lds(register(a), address(b));
    }
    if name == b"sts".as_slice() {
        return Instr::Sts(register(b), address(a));
    }
    if name == b"ld".as_slice() {
        return load(b, register(a));
    }
    if name == b"st".as_slice() {
        return store(a, register(b));
    }
    single(name, a, b)
}

#[tactic(auto, unfolding(crate::specs::Reading::single))]
fn single(name: &[u8], a: &[u8], b: &[u8]) -> Instr
    ensures { result ≡ single name.now a.now b.now }
{
    if name == b"com".as_slice() {
        return Instr::Com(register(a));
    }
    if name == b"neg".as_slice() {
        return Instr::Neg(register(a));
    }
    if name == b"swap".as_slice() {
        return Instr::Swap(register(a));
    }
    if name == b"inc".as_slice() {
        return Instr::Inc(register(a));
    }
    if name == b"asr".as_slice() {
        return Instr::Asr(register(a));
    }
    if name == b"lsr".as_slice() {
        return Instr::Lsr(register(a));
    }
    if name == b"ror".as_slice() {
        return Instr::Ror(register(a));
    }
    if name == b"dec".as_slice() {
        return Instr::Dec(register(a));
    }
    wide(name, a, b)
}

#[tactic(auto, unfolding(crate::specs::Reading::wide))]
fn wide(name: &[u8], a: &[u8], b: &[u8]) -> Instr
    ensures { result ≡ wide name.now a.now b.now }
{
    if name == b"bset".as_slice() {
        return Instr::Bset(bit(a));
    }
    if name == b"bclr".as_slice() {
        return Instr::Bclr(bit(a));
    }
    if name == b"adiw".as_slice() {
        return Instr::Adiw(upper_pair(a), six_bits(b));
    }
    if name == b"sbiw".as_slice() {
        return Instr::Sbiw(upper_pair(a), six_bits(b));
    }
    if name == b"mul".as_slice() {
        return Instr::Mul(register(a), register(b));
    }
    if name == b"in".as_slice() {
        return Instr::In(register(a), six_bits(b));
    }
    if name == b"out".as_slice() {
        return Instr::Out(register(b), six_bits(a));
    }
    if name == b"ldi".as_slice() {
        return Instr::Ldi(upper(a), byte(b));
    }
    controlled(name, a, b)
}

#[tactic(auto, unfolding(crate::specs::Reading::controlled))]
fn controlled(name: &[u8], a: &[u8], b: &[u8]) -> Instr
    ensures { result ≡ controlled name.now a.now b.now }
{
    if name == b"bld".as_slice() {
        return Instr::Bld(register(a), bit(b));
    }
    if name == b"bst".as_slice() {
        return Instr::Bst(register(a), bit(b));
    }
    if name == b"sbrc".as_slice() {
        return Instr::Sbrc(register(a), bit(b));
    }
    if name == b"sbrs".as_slice() {
        return Instr::Sbrs(register(a), bit(b));
    }
    if name == b"push".as_slice() {
        return Instr::Push(register(a));
    }
    if name == b"pop".as_slice() {
        return Instr::Pop(register(a));
    }
    if name == b"icall".as_slice() {
        return Instr::Icall;
    }
    if name == b"ret".as_slice() {
        return Instr::Ret;
    }
    Instr::Nop
}

/// By how the pointer is written.
#[tactic(auto, unfolding(crate::specs::Reading::load))]
fn load(pointer: &[u8], d: u8) -> Instr
    ensures { result ≡ load pointer.now d }
{
    if pointer == b"x".as_slice() {
        return Instr::LdX(d);
    }
    if pointer == b"x+".as_slice() {
        return Instr::LdXInc(d);
    }
    if pointer == b"-x".as_slice() {
        return Instr::LdXDec(d);
    }
    if pointer == b"y+".as_slice() {
        return Instr::LdYInc(d);
    }
    if pointer == b"-y".as_slice() {
        return Instr::LdYDec(d);
    }
    if pointer == b"z+".as_slice() {
        return Instr::LdZInc(d);
    }
    Instr::LdZDec(d)
}

/// By how the pointer is written.
#[tactic(auto, unfolding(crate::specs::Reading::store))]
fn store(pointer: &[u8], r: u8) -> Instr
    ensures { result ≡ store pointer.now r }
{
    if pointer == b"x".as_slice() {
        return Instr::StX(r);
    }
    if pointer == b"x+".as_slice() {
        return Instr::StXInc(r);
    }
    if pointer == b"-x".as_slice() {
        return Instr::StXDec(r);
    }
    if pointer == b"y+".as_slice() {
        return Instr::StYInc(r);
    }
    if pointer == b"-y".as_slice() {
        return Instr::StYDec(r);
    }
    if pointer == b"z+".as_slice() {
        return Instr::StZInc(r);
    }
    Instr::StZDec(r)
}

fn load_behind(pointer: &[u8], d: u8) -> Instr
    ensures { result ≡ load_behind pointer.now d }
{
    let displacement = six_bits(behind_two(pointer));
    if begins(pointer, b'y') {
        Instr::LddY(d, displacement)
    } else {
        Instr::LddZ(d, displacement)
    }
}

fn store_behind(pointer: &[u8], r: u8) -> Instr
    ensures { result ≡ store_behind pointer.now r }
{
    let displacement = six_bits(behind_two(pointer));
    if begins(pointer, b'y') {
        Instr::StdY(r, displacement)
    } else {
        Instr::StdZ(r, displacement)
    }
}
