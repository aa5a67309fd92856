//! From an image to its canonical text.
ghost use Rattle.std.specs.Prelude.{◌≡◌, ◌⊎◌, ◌≤◌, ◌<◌, ◌∷◌, ◌++◌, [], codes, decimal, true, false, IfErr, IfOk, None, Some, length};
ghost use Rattle.std.specs.List.{AllByRecursion};
ghost use Rattle.mote_base.specs.Digits.{pairs_text};
ghost use Rattle.unit_code.specs.Proper.{IsOfKind};
ghost use Rattle.unit_code.specs.Units.{listed, refusal};
ghost use Rattle.avr_asm.specs.Assembly.{marks_of};
ghost use Rattle.avr_asm.specs.Line.{Item, Provides, Subscribes, ended};
ghost use Rattle.avr_asm.specs.Source.{aim, bare, constant_lines, lines_behind, lines_from, lines_with, opening_lines, provided_lines, seal_lines, source_of, subscribed_lines, text_of, unit_lines};
ghost use Rattle.avr_asm.specs.declared.error.SourceError.TheVariants as error;

use crate::error::SourceError;
use crate::writing::{put, put_numbered, put_subscription, put_two, put_unit};
use module_image::{ImageView, Provided, Subscribed};
use mote_base::{Line, add_byte};
use std::alloc::{AllocError, Global};
use unit_code::{CodeError, Unit, UnitList, units};

/// Adds a line of a name and a number.
fn put_number_line(out: &mut Vec<u8>, name: &[u8], number: u16) -> Result<(), AllocError>
    ensures { IfOk result (λ _. out.new.items ≡ out.old.items ++ ((name.now ++ decimal number) ++ codes "\n")) }
{
    put_numbered(out, name, number)?;
    put(out, b"\n")
}

#[tactic(auto, using(crate::proofs::Sources::listed_text))]
fn put_unit_line(out: &mut Vec<u8>, unit: &Unit) -> Result<(), AllocError>
    requires { IsOfKind unit.now }
    ensures { IfOk result (λ _. out.new.items ≡ out.old.items ++ ended (Item (bare unit.now) (aim unit.now))) }
{
    put_unit(out, unit)?;
    put(out, b"\n")
}

fn put_units(out: &mut Vec<u8>, units: &[Unit]) -> Result<(), AllocError>
    requires { AllByRecursion IsOfKind units.now }
    ensures { IfOk result (λ _. out.new.items ≡ out.old.items ++ text_of (unit_lines units.now)) }
{
    for unit in units {
        put_unit_line(out, unit)?;
    }
    Ok(())
}

fn put_provided_line(out: &mut Vec<u8>, provided: &Provided, number: u16) -> Result<(), AllocError>
    ensures { IfOk result (λ _. out.new.items
        ≡ out.old.items ++ ended (Provides provided.now.func provided.now.proto (decimal number))) }
{
    put_numbered(out, b"provides ", u16::from(provided.func))?;
    put_two(out, b" ", &provided.proto)?;
    put_numbered(out, b" .", number)?;
    put(out, b"\n")
}

fn put_provided(out: &mut Vec<u8>, provided: &[Provided], numbers: &[u16]) -> Result<(), AllocError>
    requires { length provided.now ≤ length numbers.now }
    ensures { IfOk result (λ _. out.new.items ≡ out.old.items ++ text_of (provided_lines provided.now numbers.now)) }
{
    for (i, entry) in provided.iter().enumerate() {
        put_provided_line(out, entry, numbers[i])?;
    }
    Ok(())
}

fn put_subscribed_line(out: &mut Vec<u8>, subscribed: &Subscribed) -> Result<(), AllocError>
    ensures { IfOk result (λ _. out.new.items
        ≡ out.old.items ++ ended (Subscribes subscribed.now.module subscribed.now.func subscribed.now.proto)) }
{
    put_subscription(
        out,
        b"subscribes ",
        subscribed.module,
        subscribed.func,
        &subscribed.proto,
    )?;
    put(out, b"\n")
}

fn put_subscribed(out: &mut Vec<u8>, subscribed: &[Subscribed]) -> Result<(), AllocError>
    ensures { IfOk result (λ _. out.new.items ≡ out.old.items ++ text_of (subscribed_lines subscribed.now)) }
{
    for entry in subscribed {
        put_subscribed_line(out, entry)?;
    }
    Ok(())
}

fn put_byte(out: &mut Vec<u8>, byte: u8) -> Result<(), AllocError>
    ensures { IfOk result (λ _. out.new.items ≡ out.old.items ++ pairs_text (byte ∷ [])) }
{
    let mut digits = Line::new();
    add_byte(&mut digits, byte);
    put(out, digits.as_slice())
}

fn put_pairs(out: &mut Vec<u8>, bytes: &[u8]) -> Result<(), AllocError>
    ensures { IfOk result (λ _. out.new.items ≡ out.old.items ++ pairs_text bytes.now) }
{
    for byte in bytes {
        put_byte(out, *byte)?;
    }
    Ok(())
}

#[tactic(auto, using(crate::proofs::Sources::constants_text))]
fn put_constants(out: &mut Vec<u8>, constants: &[u8]) -> Result<(), AllocError>
    ensures { IfOk result (λ _. out.new.items ≡ out.old.items ++ text_of (constant_lines constants.now)) }
{
    if constants.is_empty() {
        return Ok(());
    }
    put(out, b"const ")?;
    put_pairs(out, constants)?;
    put(out, b"\n")
}

fn put_seal(out: &mut Vec<u8>, sealed: bool) -> Result<(), AllocError>
    ensures { IfOk result (λ _. out.new.items ≡ out.old.items ++ text_of (seal_lines sealed)) }
{
    if sealed {
        put(out, b"sealed\n")
    } else {
        Ok(())
    }
}

/// Adds the lines behind the handler's.
#[tactic(auto, using(crate::proofs::Sources::behind_text))]
fn put_behind(
    out: &mut Vec<u8>,
    image: &ImageView<'_>,
    numbers: &[u16],
    units: &[Unit],
) -> Result<(), AllocError>
    requires kinds { AllByRecursion IsOfKind units.now }
    requires numbers { length image.now.face.provided.items ≤ length numbers.now }
    ensures { IfOk result (λ _. out.new.items ≡ out.old.items ++ text_of (lines_behind image.now numbers.now units.now)) }
{
    let face = image.face();
    put_seal(out, image.sealed())?;
    put_provided(out, &face.provided, numbers)?;
    put_subscribed(out, &face.subscribed)?;
    put_constants(out, image.constants())?;
    put(out, b"code\n")?;
    put_units(out, units)
}

/// Adds the first four lines.
#[tactic(auto, using(crate::proofs::Sources::opening_text))]
fn put_opening(out: &mut Vec<u8>, image: &ImageView<'_>, handler: u16) -> Result<(), AllocError>
    ensures { IfOk result (λ _. out.new.items ≡ out.old.items ++ text_of (opening_lines image.now handler)) }
{
    put_number_line(out, b"module ", u16::from(image.id()))?;
    put_number_line(out, b"version ", u16::from(image.version()))?;
    put_number_line(out, b"state ", image.state_size())?;
    put_number_line(out, b"handler .", handler)
}

/// Adds the lines of an image with these units, which is entered at the units with these numbers.
#[tactic(auto, using(crate::proofs::Sources::whole_text))]
fn put_lines(
    out: &mut Vec<u8>,
    image: &ImageView<'_>,
    marks: &[u16],
    units: &[Unit],
) -> Result<(), AllocError>
    requires kinds { AllByRecursion IsOfKind units.now }
    requires marks { length marks.now ≡ length (marks_of image.now) }
    ensures { IfOk result (λ _. out.new.items ≡ out.old.items ++ text_of (lines_with image.now marks.now units.now)) }
{
    match marks {
        [] => Ok(()),
        [handler, numbers @ ..] => {
            put_opening(out, image, *handler)?;
            put_behind(out, image, numbers, units)
        }
    }
}

/// The units of an original image, or why there is no source.
fn listing(alloc: Global, image: &ImageView<'_>) -> Result<UnitList, SourceError>
    ensures ok { IfOk result (λ list. (refusal image.now.code (marks_of image.now) image.now.sealed ≡ None)
        × (list ≡ listed image.now.code (marks_of image.now) image.now.sealed)) }
    ensures proper { IfOk result (λ list. AllByRecursion IsOfKind list.units) }
    ensures marks { IfOk result (λ list. length list.marks ≡ length (marks_of image.now)) }
    ensures err { IfErr result (λ e. (e ≡ error.NoMemory) ⊎ ((reason : CodeError) × (e ≡ error.Code reason)
        × (refusal image.now.code (marks_of image.now) image.now.sealed ≡ Some reason))) }
{
    let marks = image.marks();
    match units(alloc, &image.code(), marks.as_slice(), image.sealed()) {
        Ok(list) => Ok(list),
        Err(CodeError::NoMemory) => Err(SourceError::NoMemory),
        Err(reason) => Err(SourceError::Code(reason)),
    }
}

/// The canonical text of an original image: each field and each unit in a line of its own, and every target by the number of
/// its unit. An image that a rewriter made has none, nor has one whose code has no units.
#[tactic(auto, unfolding(crate::specs::Source::source_of))]
pub fn source(alloc: Global, image: &ImageView<'_>) -> Result<Vec<u8>, SourceError>
    ensures ok { IfOk result (λ text. (image.now.rewritten ≡ false)
        × (refusal image.now.code (marks_of image.now) image.now.sealed ≡ None) × (text.items ≡ source_of image.now)) }
    ensures err { IfErr result (λ e. (e ≡ error.NoMemory)
        ⊎ ((e ≡ error.Rewritten) × (image.now.rewritten ≡ true))
        ⊎ ((image.now.rewritten ≡ false) × (reason : CodeError) × (e ≡ error.Code reason)
        × (refusal image.now.code (marks_of image.now) image.now.sealed ≡ Some reason))) }
{
    if image.rewritten() {
        return Err(SourceError::Rewritten);
    }
    let list = listing(alloc, image)?;
    let mut text = Vec::new(alloc);
    put_lines(&mut text, image, &list.marks, &list.units)?;
    Ok(text)
}
