//! The words of templates.

ghost use Rattle.std.specs.Prelude.{ℕ, Bool, List, Some, [], ◌≡◌, ◌<◌, ◌≤◌, ◌+◌, ◌++◌, ◌∷◌, length, slice_get};
ghost use Rattle.std.specs.List.{AllByRecursion};
ghost use Rattle.avr_isa.specs.Operands.{IsBranchOffset, IsEncodable};
ghost use Rattle.avr_isa.specs.declared.instruction.Instr.{Instr};
ghost use Rattle.unit_code.specs.declared.unit.Shape.{Shape};
ghost use Rattle.unit_code.specs.declared.unit.Unit.{Unit};
ghost use Rattle.unit_code.specs.Beside.{AreWordsOf, form_words, words_in};
ghost use Rattle.unit_code.specs.Lengths.{instruction_length};
ghost use Rattle.unit_code.specs.Proper.{IsProper};
ghost use Rattle.unit_code.specs.Spelling.{AreShapesOf, form_of, start_of, starts_of};
ghost use Rattle.unit_code.specs.Templates.{IsForm, branch, enter, template};

use crate::forms::form_of;
use crate::guards::{address_of, guard_of};
use arrayvec::ArrayVec;
use avr_isa::{Instr, encode};
use mote_layout::{Entry, POINTER_Y, SPH_PORT, SPL_PORT, SREG_PORT};
use unit_code::{Form, Shape, Unit};

/// The words of one template.
pub type Template = ArrayVec<u16, 5>;

/// Writes the words of the i-th unit's template in its shape, where templates start so.
pub fn spell_unit(units: &[Unit], starts: &[u16], shapes: &[Shape], i: usize, out: &mut Template)
    requires proper { (sealed : Bool) × IsProper units.now sealed }
    requires shapes { AreShapesOf units.now shapes.now }
    requires starts { starts.now ≡ starts_of units.now shapes.now }
    requires inside { i < length units.now }
    ensures { (unit : Unit) (shape : Shape) → slice_get units.now i ≡ Some unit → slice_get shapes.now i ≡ Some shape
        → AreWordsOf (template (form_of starts.now i (start_of starts.now i) unit shape)) out.new.items }
{
    let form = form_of(starts, i, &units[i], shapes[i]);
    spell_form(&form, out);
}

/// Writes the words of a form's template.
fn spell_form(form: &Form, out: &mut Template)
    requires kind { IsForm form.now }
    requires encodable { AllByRecursion IsEncodable (template form.now) }
    requires room { form_words form.now ≤ 5 }
    ensures { AreWordsOf (template form.now) out.new.items }
{
    match *form {
        Form::Whole(unit) => spell_whole(&unit, out),
        Form::ShortSkip(skip) => spell(&[skip], out),
        Form::LongSkip(skip, offset) => spell(&[skip, Instr::Rjmp(1), Instr::Rjmp(offset)], out),
        Form::ShortBranch { set, bit, offset } => spell(&[branch(set, bit, offset)], out),
        Form::LongBranch { set, bit, offset } => {
            spell(&[branch(!set, bit, 1), Instr::Rjmp(offset)], out)
        }
        Form::Jumping(offset) => spell(&[Instr::Rjmp(offset)], out),
        Form::Calling(offset) => spell(&[enter(Entry::LocalCall), Instr::Rjmp(offset)], out),
    }
}

/// Writes the words of the template of a unit that has one shape and no target.
fn spell_whole(unit: &Unit, out: &mut Template)
    requires encodable { AllByRecursion IsEncodable (template (Form.Whole unit.now)) }
    requires room { form_words (Form.Whole unit.now) ≤ 5 }
    ensures { AreWordsOf (template (Form.Whole unit.now)) out.new.items }
{
    let sph = Instr::Out(POINTER_Y + 1, SPH_PORT);
    let sreg = Instr::Out(0, SREG_PORT);
    let spl = Instr::Out(POINTER_Y, SPL_PORT);
    match *unit {
        Unit::Plain(instruction) => spell(&[instruction], out),
        Unit::Store(store) => spell(&[enter(guard_of(&store)), store], out),
        Unit::Load(load) => spell(&[enter(guard_of(&load)), load], out),
        Unit::Push(r) => spell(&[enter(Entry::PushGuard), Instr::Push(r)], out),
        Unit::Pop(d) => spell(&[enter(Entry::PopGuard), Instr::Pop(d)], out),
        Unit::SpGroup { with_sreg: true } => spell(&[enter(Entry::SpGuard), sph, sreg, spl], out),
        Unit::SpGroup { with_sreg: false } => spell(&[enter(Entry::SpGuard), sph, spl], out),
        Unit::Reserve => spell(&[enter(Entry::Reserve)], out),
        Unit::KernelCall(call) => spell(&[enter(Entry::Kernel(call))], out),
        Unit::SlotCall(slot) => spell(&[enter(Entry::Slot(slot))], out),
        Unit::SlotIndirect => spell(&[enter(Entry::SlotIndirect)], out),
        Unit::Return => spell(&[Instr::Jmp(u32::from(address_of(Entry::Return)))], out),
        _ => out.clear(),
    }
}

/// The call of an entry.
fn enter(entry: Entry) -> Instr
    ensures { result ≡ enter entry }
{
    Instr::Call(u32::from(address_of(entry)))
}

/// The branch where a bit of SREG is 1, or where it is 0.
fn branch(set: bool, bit: u8, offset: i16) -> Instr
    requires { IsBranchOffset offset }
    ensures { result ≡ branch set bit offset }
{
    let offset = offset as i8;
    if set {
        Instr::Brbs(bit, offset)
    } else {
        Instr::Brbc(bit, offset)
    }
}

/// Writes the words of instructions, one behind the other.
fn spell(instructions: &[Instr], out: &mut Template)
    requires room { words_in instructions.now ≤ 5 }
    requires encodable { AllByRecursion IsEncodable instructions.now }
    ensures { AreWordsOf instructions.now out.new.items }
{
    out.clear();
    for instruction in instructions {
        put(instruction, out);
    }
}

/// Puts the words of an instruction behind the others.
fn put(instruction: &Instr, out: &mut Template)
    requires encodable { IsEncodable instruction.now }
    requires room { length out.old.items + instruction_length instruction.now ≤ 5 }
    ensures { (words : List ℕ) × (out.new.items ≡ out.old.items ++ words) × AreWordsOf (instruction.now ∷ []) words }
{
    let (first, second) = encode(instruction);
    out.push(first);
    if let Some(second) = second {
        out.push(second);
    }
}
