//! From units to words of code.
ghost use Rattle.std.specs.Prelude.{◌≡◌, ◌≤◌, ◌<◌, ◌^◌, ◌∷◌, [], IfOk, true, false, length, slice_index, sum_by};
ghost use Rattle.std.specs.List.{AllByRecursion};
ghost use Rattle.avr_isa.specs.Operands.{IsBranchOffset, IsEncodable, IsJumpOffset};
ghost use Rattle.mote_layout.specs.Memory.{bank_words};
ghost use Rattle.unit_code.specs.Proper.{IsOfKind};
ghost use Rattle.unit_code.specs.Spelled.{AreInstructionsOf, Spell, offset_to};
ghost use Rattle.avr_asm.specs.Encoding.{AreEncodable, Grows, GrowsBy, HasTarget, Reaches, places_from};
ghost use Rattle.avr_asm.specs.Rows.{unit_words};

use crate::rows::unit_words;
use avr_isa::{Instr, encode};
use mote_layout::{KERNEL_ENTRIES, POINTER_Y, SLOT_ENTRIES, SPH_PORT, SPL_PORT, SREG_PORT};
use std::alloc::{AllocError, Global};
use unit_code::Unit;

/// Adds the words of an instruction.
#[tactic(auto, using(crate::proofs::Encoded::one_word, crate::proofs::Encoded::two_words))]
fn put(words: &mut Vec<u16>, instruction: &Instr) -> Result<(), AllocError>
    requires { IsEncodable instruction.now }
    ensures { IfOk result (λ _. Grows instruction.now words.old.items words.new.items) }
{
    let (first, second) = encode(instruction);
    match second {
        None => words.extend_from_slice(&[first]),
        Some(second) => words.extend_from_slice(&[first, second]),
    }
}

/// The offset that leads from a place to a word.
fn offset_to(place: u16, word: u16) -> i16
    requires place { place < bank_words }
    requires word { word < bank_words }
    ensures { result ≡ offset_to place word }
{
    if place < word {
        (word - place - 1) as i16
    } else {
        -((place - word + 1) as i16)
    }
}

/// Adds OUT of the register to a port.
#[tactic(auto, unfolding(avr_isa::specs::Operands::IsEncodable))]
fn put_out(words: &mut Vec<u16>, register: u8, port: u8) -> Result<(), AllocError>
    requires register { register < 32 }
    requires port { port < 64 }
    ensures { IfOk result (λ _. Grows (Instr.Out register port) words.old.items words.new.items) }
{
    put(words, &Instr::Out(register, port))
}

#[tactic(auto, using(crate::proofs::Encoded::group_without))]
fn put_group(words: &mut Vec<u16>, firsts: &[u16], place: u16) -> Result<(), AllocError>
    ensures { IfOk result (λ _. GrowsBy firsts.now place (Unit.SpGroup false) words.old.items words.new.items) }
{
    put_out(words, POINTER_Y + 1, SPH_PORT)?;
    put_out(words, POINTER_Y, SPL_PORT)
}

#[tactic(auto, using(crate::proofs::Encoded::group_with))]
fn put_group_with_sreg(words: &mut Vec<u16>, firsts: &[u16], place: u16) -> Result<(), AllocError>
    ensures { IfOk result (λ _. GrowsBy firsts.now place (Unit.SpGroup true) words.old.items words.new.items) }
{
    put_out(words, POINTER_Y + 1, SPH_PORT)?;
    put_out(words, 0, SREG_PORT)?;
    put_out(words, POINTER_Y, SPL_PORT)
}

/// Adds a unit of one instruction.
#[tactic(auto, using(crate::proofs::Encoded::alone))]
fn put_alone(
    words: &mut Vec<u16>,
    instruction: &Instr,
    unit: &Unit,
    firsts: &[u16],
    place: u16,
) -> Result<(), AllocError>
    requires encodable { IsEncodable instruction.now }
    requires own { AreInstructionsOf firsts.now place unit.now (instruction.now ∷ []) }
    ensures { IfOk result (λ _. GrowsBy firsts.now place unit.now words.old.items words.new.items) }
{
    put(words, instruction)
}

/// Adds a unit that leads to another.
#[tactic(auto, unfolding(avr_isa::specs::Operands::IsEncodable))]
fn put_aimed(
    words: &mut Vec<u16>,
    unit: &Unit,
    firsts: &[u16],
    place: u16,
    target: u16,
) -> Result<(), AllocError>
    requires place { place < bank_words }
    requires firsts { AllByRecursion (λ first. first < bank_words) firsts.now }
    requires reaches { Reaches firsts.now place unit.now }
    requires kind { IsOfKind unit.now }
    requires target { HasTarget target unit.now }
    ensures { IfOk result (λ _. GrowsBy firsts.now place unit.now words.old.items words.new.items) }
{
    let offset = offset_to(place, firsts[usize::from(target)]);
    match unit {
        Unit::Branch { set: true, bit, .. } => put_alone(
            words,
            &Instr::Brbs(*bit, offset as i8),
            unit,
            firsts,
            place,
        ),
        Unit::Branch {
            set: false,
            bit,
            ..
        } => put_alone(words, &Instr::Brbc(*bit, offset as i8), unit, firsts, place),
        Unit::LocalCall(_) => put_alone(words, &Instr::Rcall(offset), unit, firsts, place),
        _ => put_alone(words, &Instr::Rjmp(offset), unit, firsts, place),
    }
}

#[tactic(auto, unfolding(avr_isa::specs::Operands::IsEncodable))]
fn put_call(
    words: &mut Vec<u16>,
    address: u16,
    unit: &Unit,
    firsts: &[u16],
    place: u16,
) -> Result<(), AllocError>
    requires { AreInstructionsOf firsts.now place unit.now (Instr.Call address ∷ []) }
    ensures { IfOk result (λ _. GrowsBy firsts.now place unit.now words.old.items words.new.items) }
{
    put_alone(words, &Instr::Call(u32::from(address)), unit, firsts, place)
}

/// Adds the instructions of a unit that stands at the place.
#[tactic(auto, unfolding(avr_isa::specs::Operands::IsEncodable))]
fn put_unit(words: &mut Vec<u16>, unit: &Unit, firsts: &[u16], place: u16) -> Result<(), AllocError>
    requires place { place < bank_words }
    requires firsts { AllByRecursion (λ first. first < bank_words) firsts.now }
    requires reaches { Reaches firsts.now place unit.now }
    requires kind { IsOfKind unit.now }
    ensures { IfOk result (λ _. GrowsBy firsts.now place unit.now words.old.items words.new.items) }
{
    match unit {
        Unit::Plain(i) => put_alone(words, i, unit, firsts, place),
        Unit::Store(i) => put_alone(words, i, unit, firsts, place),
        Unit::Load(i) => put_alone(words, i, unit, firsts, place),
        Unit::Skip(i) => put_alone(words, i, unit, firsts, place),
        Unit::Push(r) => put_alone(words, &Instr::Push(*r), unit, firsts, place),
        Unit::Pop(d) => put_alone(words, &Instr::Pop(*d), unit, firsts, place),
        Unit::SpGroup { with_sreg: true } => put_group_with_sreg(words, firsts, place),
        Unit::SpGroup { with_sreg: false } => put_group(words, firsts, place),
        Unit::Reserve => put_alone(words, &Instr::Rcall(0), unit, firsts, place),
        Unit::Branch { target, .. } => put_aimed(words, unit, firsts, place, *target),
        Unit::Jump(target) => put_aimed(words, unit, firsts, place, *target),
        Unit::LocalCall(target) => put_aimed(words, unit, firsts, place, *target),
        Unit::KernelCall(n) => put_call(words, KERNEL_ENTRIES + u16::from(*n), unit, firsts, place),
        Unit::SlotCall(n) => put_call(words, SLOT_ENTRIES + u16::from(*n), unit, firsts, place),
        Unit::SlotIndirect => put_alone(words, &Instr::Icall, unit, firsts, place),
        Unit::Return => put_alone(words, &Instr::Ret, unit, firsts, place),
    }
}

/// The first word of each unit.
pub fn first_words(alloc: Global, units: &[Unit]) -> Result<Vec<u16>, AllocError>
    requires { sum_by unit_words units.now ≤ bank_words }
    ensures { IfOk result (λ firsts. firsts.items ≡ places_from 0 units.now) }
{
    let mut firsts = Vec::new(alloc);
    let mut place = 0;
    for unit in units {
        firsts.push(place)?;
        place += unit_words(unit) as u16;
    }
    Ok(firsts)
}

/// The words of units, whose first words are given.
#[tactic(auto, using(crate::proofs::Encoded::ahead_start, crate::proofs::Encoded::ahead_few))]
pub fn words_of(alloc: Global, units: &[Unit], firsts: &[u16]) -> Result<Vec<u16>, AllocError>
    requires firsts { AllByRecursion (λ first. first < bank_words) firsts.now }
    requires few { sum_by unit_words units.now ≤ bank_words }
    requires units { AreEncodable firsts.now 0 units.now }
    ensures spelled { IfOk result (λ words. Spell firsts.now 0 (places_from 0 units.now) units.now words.items) }
    ensures few { IfOk result (λ words. length words.items ≤ bank_words) }
{
    let mut words = Vec::new(alloc);
    let mut place = 0;
    for unit in units {
        let further = unit_words(unit) as u16;
        put_unit(&mut words, unit, firsts, place)?;
        place += further;
    }
    Ok(words)
}
