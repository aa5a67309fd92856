//! Which template stands at a place, and how long it is.

ghost use Rattle.std.specs.Prelude.{◌≡◌, ◌≤◌, drop, length};
ghost use Rattle.unit_code.specs.Beside.{form_words};
ghost use Rattle.unit_code.specs.Lengths.{instruction_length};
ghost use Rattle.harbor_verify.specs.Reading.{is_allowed};
ghost use Rattle.harbor_verify.specs.Walks.{allowed_first, form_first};

use crate::instructions::instruction_at;
use crate::several::several_by;
use crate::single::single_by;
use avr_isa::Instr;
use mote_base::Words;
use unit_code::{Form, Shape, Unit, is_load, spelled_len, standing_of};

/// The form whose template stands at a place, in whatever image.
pub fn form_at(code: &Words<'_>, place: usize) -> Option<Form>
    requires { place ≤ length code.now }
    ensures { result ≡ form_first (drop place code.now) }
{
    let first = instruction_at(code, place)?;
    let standing = standing_of(first.instruction);
    match several_by(code, first.instruction, standing, first.next) {
        Some(form) => Some(form),
        None => single_by(code, first.instruction, standing, first.next),
    }
}

/// The same, in an image that is sealed or not.
pub fn allowed_at(code: &Words<'_>, place: usize, sealed: bool) -> Option<Form>
    requires { place ≤ length code.now }
    ensures { result ≡ allowed_first sealed (drop place code.now) }
{
    let form = form_at(code, place)?;
    if is_allowed(sealed, &form) {
        Some(form)
    } else {
        None
    }
}

/// Whether the form may stand in an image that is sealed or not: loads are checked exactly in a sealed one.
fn is_allowed(sealed: bool, form: &Form) -> bool
    ensures { result ≡ is_allowed sealed form.now }
{
    match *form {
        Form::Whole(Unit::Load(_)) => sealed,
        Form::Whole(Unit::Plain(instruction)) => !(sealed && is_load(&instruction)),
        _ => true,
    }
}

/// How many words the template of a form has.
#[tactic(auto, using(crate::proofs::FormWords::lengths))]
pub fn words_of(form: Form) -> u16
    ensures words { result ≡ form_words form }
    ensures few { result ≤ 5 }
{
    match form {
        Form::Jumping(_) | Form::ShortBranch { .. } => 1,
        Form::LongBranch { .. } => 2,
        Form::Calling(_) => 3,
        Form::ShortSkip(skip) => words_of_instruction(skip),
        Form::LongSkip(skip, _) => 2 + words_of_instruction(skip),
        Form::Whole(unit) => words_of_unit(unit),
    }
}

/// The template of a unit that has a target, or two shapes, is not told by the unit alone.
#[tactic(auto, using(crate::proofs::FormWords::unit_lengths))]
fn words_of_unit(unit: Unit) -> u16
    ensures words { result ≡ form_words (Form.Whole unit) }
    ensures few { result ≤ 5 }
{
    match unit {
        Unit::Plain(instruction) => words_of_instruction(instruction),
        Unit::Store(instruction) | Unit::Load(instruction) => 2 + words_of_instruction(instruction),
        Unit::Skip(_) | Unit::Branch { .. } | Unit::Jump(_) | Unit::LocalCall(_) => 0,
        _ => spelled_len(&unit, Shape::Long),
    }
}

#[tactic(auto, using(crate::proofs::FormWords::instruction_lengths))]
fn words_of_instruction(instruction: Instr) -> u16
    ensures words { result ≡ instruction_length instruction }
    ensures few { result ≤ 2 }
{
    spelled_len(&Unit::Plain(instruction), Shape::Long)
}
