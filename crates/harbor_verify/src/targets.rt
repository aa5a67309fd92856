//! The units of templates side by side, or where one leads astray.

ghost use Rattle.std.specs.Prelude.{◌≡◌, ◌+◌, ◌<◌, ◌≤◌, ◌∷◌, drop, length};
ghost use Rattle.unit_code.specs.Beside.{form_words};
ghost use Rattle.unit_code.specs.Spelling.{start_of};
ghost use Rattle.unit_code.specs.Targets.{AreFirstWords};
ghost use Rattle.unit_code.specs.declared.form.Form.{Form};
ghost use Rattle.harbor_verify.specs.Parts.{ArePartsOf, HaveUnits};
ghost use Rattle.harbor_verify.specs.Resolved.{astray_at, can_skip, is_group, landed, led, no_more, resolve, resolve_from};
ghost use Rattle.harbor_verify.specs.Verdict.{units_in};
ghost use Rattle.harbor_verify.specs.Walks.{forms_in};

use crate::templates::form_at;
use avr_isa::Instr;
use mote_base::Words;
use unit_code::{Form, Unit, number_reached};

/// The first place, template by template, that leads astray.
pub fn first_astray(code: &Words<'_>, starts: &[u16]) -> Option<u16>
    requires { ArePartsOf code.now starts.now }
    ensures { result ≡ astray_at (resolve_from starts.now 0 (forms_in code.now)) }
{
    for n in 0..starts.len() {
        if let Err(place) = unit_or_place(code, starts, n) {
            return Some(place);
        }
    }
    None
}

/// The n-th unit, where no template leads astray.
pub fn unit_at(code: &Words<'_>, starts: &[u16], n: usize) -> Unit
    requires parts { ArePartsOf code.now starts.now }
    requires units { HaveUnits code.now }
    requires inside { n < length starts.now }
    ensures { drop n (units_in code.now) ≡ result ∷ drop (n + 1) (units_in code.now) }
{
    match unit_or_place(code, starts, n) {
        Ok(unit) => unit,
        Err(_) => unreachable!(),
    }
}

/// The unit of the n-th template, or the first place in it that leads astray.
fn unit_or_place(code: &Words<'_>, starts: &[u16], n: usize) -> Result<Unit, u16>
    requires parts { ArePartsOf code.now starts.now }
    requires inside { n < length starts.now }
    ensures { (form : Form) → drop n (forms_in code.now) ≡ form ∷ drop (n + 1) (forms_in code.now)
        → result ≡ resolve starts.now n (start_of starts.now n) form (drop (n + 1) (forms_in code.now)) }
{
    resolve(code, starts, n, nth_form(code, starts, n))
}

/// The form of the n-th template.
fn nth_form(code: &Words<'_>, starts: &[u16], n: usize) -> Form
    requires parts { ArePartsOf code.now starts.now }
    requires inside { n < length starts.now }
    ensures form { drop n (forms_in code.now) ≡ result ∷ drop (n + 1) (forms_in code.now) }
    ensures within { start_of starts.now n + form_words result ≤ length code.now }
{
    match form_at(code, usize::from(starts[n])) {
        None => unreachable!(),
        Some(form) => form,
    }
}

fn resolve(code: &Words<'_>, starts: &[u16], n: usize, form: Form) -> Result<Unit, u16>
    requires parts { ArePartsOf code.now starts.now }
    requires inside { n < length starts.now }
    requires within { start_of starts.now n + form_words form ≤ length code.now }
    ensures { result ≡ resolve starts.now n (start_of starts.now n) form (drop (n + 1) (forms_in code.now)) }
{
    let place = starts[n];
    match form {
        Form::Whole(unit) => Ok(unit),
        Form::ShortSkip(skip) => {
            if can_skip(code, starts, n + 1) {
                Ok(Unit::Skip(skip))
            } else {
                Err(place)
            }
        }
        Form::LongSkip(skip, offset) => {
            if can_skip(code, starts, n + 1) {
                landed(
                    skip,
                    n + 2,
                    place + 2,
                    number_reached(starts, place + 2, offset),
                )
            } else {
                Err(place)
            }
        }
        Form::ShortBranch { set, bit, offset } => branch_to(starts, place, set, bit, offset),
        Form::LongBranch { set, bit, offset } => long_branch(code, starts, n, set, bit, offset),
        Form::Jumping(offset) => jump_to(starts, place, offset),
        Form::Calling(offset) => call_to(starts, place + 2, offset),
    }
}

/// The branch with its target, by where a jump leads from a place; the place where that is no start.
fn branch_to(starts: &[u16], from: u16, set: bool, bit: u8, offset: i16) -> Result<Unit, u16>
    requires { AreFirstWords starts.now }
    ensures { result ≡ led (λ target. Unit.Branch set bit target) starts.now from offset }
{
    match number_reached(starts, from, offset) {
        Some(target) => Ok(Unit::Branch { set, bit, target }),
        None => Err(from),
    }
}

fn jump_to(starts: &[u16], from: u16, offset: i16) -> Result<Unit, u16>
    requires { AreFirstWords starts.now }
    ensures { result ≡ led (λ target. Unit.Jump target) starts.now from offset }
{
    match number_reached(starts, from, offset) {
        Some(target) => Ok(Unit::Jump(target)),
        None => Err(from),
    }
}

fn call_to(starts: &[u16], from: u16, offset: i16) -> Result<Unit, u16>
    requires { AreFirstWords starts.now }
    ensures { result ≡ led (λ target. Unit.LocalCall target) starts.now from offset }
{
    match number_reached(starts, from, offset) {
        Some(target) => Ok(Unit::LocalCall(target)),
        None => Err(from),
    }
}

/// The jump of a long branch leads to its target, and its branch to the template behind it, if it isn't the last.
fn long_branch(
    code: &Words<'_>,
    starts: &[u16],
    n: usize,
    set: bool,
    bit: u8,
    offset: i16,
) -> Result<Unit, u16>
    requires parts { ArePartsOf code.now starts.now }
    requires inside { n < length starts.now }
    requires room { start_of starts.now n + 1 ≤ 65535 }
    ensures { result ≡ resolve starts.now n (start_of starts.now n) (Form.LongBranch set bit offset)
        (drop (n + 1) (forms_in code.now)) }
{
    let place = starts[n];
    if no_more(code, starts, n + 1) {
        return Err(place);
    }
    branch_to(starts, place + 1, set, bit, offset)
}

/// Whether there are only so many templates.
fn no_more(code: &Words<'_>, starts: &[u16], n: usize) -> bool
    requires parts { ArePartsOf code.now starts.now }
    requires inside { n ≤ length starts.now }
    ensures { result ≡ no_more (drop n (forms_in code.now)) }
{
    n == starts.len()
}

/// The jump of a long skip has to lead over one template.
fn landed(skip: Instr, over: usize, from: u16, number: Option<u16>) -> Result<Unit, u16>
    ensures { result ≡ landed skip over from number }
{
    match number {
        Some(number) => {
            if usize::from(number) == over {
                Ok(Unit::Skip(skip))
            } else {
                Err(from)
            }
        }
        None => Err(from),
    }
}

/// Whether two templates follow, from the n-th on, of which the first is no group's.
fn can_skip(code: &Words<'_>, starts: &[u16], n: usize) -> bool
    requires parts { ArePartsOf code.now starts.now }
    requires inside { n ≤ length starts.now }
    ensures { result ≡ can_skip (drop n (forms_in code.now)) }
{
    n + 1 < starts.len() && !is_group(nth_form(code, starts, n))
}

fn is_group(form: Form) -> bool
    ensures { result ≡ is_group form }
{
    matches!(form, Form::Whole(Unit::SpGroup { .. }))
}
