//! The listing of an image's code.
ghost use Rattle.std.specs.Prelude.{◌≡◌, ◌≤◌, ℕ, Bool, List, Ok, length};
ghost use Rattle.std.specs.List.{AllByRecursion};
ghost use Rattle.mote_layout.specs.Memory.{bank_words};
ghost use Rattle.avr_list.specs.Lines.{listing_from, listing_line};
ghost use Rattle.mote_base.specs.Written.{Puts};
ghost use Rattle.module_image.specs.Reading.{image_of};
ghost use Rattle.unit_code.specs.Proper.{IsOfKind};
ghost use Rattle.unit_code.specs.declared.unit.Unit.{Unit};
ghost use Rattle.unit_code.specs.Spelling.{Spells};
ghost use Rattle.unit_code.specs.Units.{refusal};
ghost use Rattle.harbor_verify.specs.Parts.{IsAccepted};
ghost use Rattle.domain_model.specs.Prepared.{marks_of};
ghost use Rattle.mote_sim.specs.Ending.{Ends};
ghost use Rattle.mote_sim.specs.Pieces.{LeadsBySome};
ghost use Rattle.mote_sim.specs.Tools.{TellsBy, Tells, AreRead, Lists, IsListBy, IsListWhere, list_with};

use crate::one_line::{put_code, put_image, put_words};
use arrayvec::ArrayVec;
use avr_list::list_line;
use harbor_verify::{Starts, read_units, verify};
use module_image::{ImageView, parse};
use mote_base::{Failed, Line, Sink, Status, Words};
use std::alloc::Global;
use unit_code::{CodeError, Unit, units};

// Puts the line of a unit by one put.
fn put_unit<K: Sink>(out: &mut K, number: u16, place: u16, unit: &Unit) -> Result<(), Failed>
    requires { IsOfKind unit.now }
    ensures { Puts K.written K.faults (LeadsBySome K.leads) out.old out.new
        (listing_line number place unit.now) result }
{
    let mut line: Line = ArrayVec::new();
    list_line(number, place, unit, &mut line);
    out.put(line.as_slice())
}

// Puts the lines of the units in their order, up to the first put that fails.
fn put_units<K: Sink>(out: &mut K, units: &[Unit], places: &[u16]) -> Result<(), Failed>
    requires fits { length units.now ≤ bank_words }
    requires kinds { AllByRecursion IsOfKind units.now }
    requires placed { length places.now ≡ length units.now }
    ensures { Puts K.written K.faults (LeadsBySome K.leads) out.old out.new
        (listing_from 0 units.now places.now) result }
{
    for (number, unit) in units.iter().enumerate() {
        put_unit(out, number as u16, places[number], unit)?;
    }
    Ok(())
}

// Lists the units that accepted words spell, with the starts of their templates. All memory is taken before the first
// line is put.
fn list_accepted<K: Sink>(alloc: Global, code: &Words<'_>, starts: &Starts, out: &mut K) -> Status
    requires few { length code.now ≤ 65535 }
    requires accepted { IsAccepted code.now starts.now }
    ensures { (marks : List ℕ) (sealed : Bool) (units : List Unit) → Spells code.now marks sealed units starts.now →
        Ends K.written K.faults (LeadsBySome K.leads) out.old out.new 0 0 (Tells (Ok (Lists units starts.now))) result }
{
    let bank = match read_units(alloc, code, starts) {
        Err(_) => return Status::NoMemory,
        Ok(bank) => bank,
    };
    match put_units(out, &bank.units, &bank.starts) {
        Ok(()) => Status::Done,
        Err(_) => Status::WriteFault,
    }
}

// Lists the units that the words of a rewriter's image spell.
fn list_spelled<K: Sink>(alloc: Global, image: &ImageView<'_>, out: &mut K) -> Status
    requires { length image.now.code ≤ 65535 }
    ensures { Ends K.written K.faults (LeadsBySome K.leads) out.old out.new 0 0
        (TellsBy (AreRead image.now (λ units starts. Lists units starts))) result }
{
    let mut starts = match Starts::new(alloc) {
        Err(_) => return Status::NoMemory,
        Ok(starts) => starts,
    };
    let code = image.code();
    let marks = image.marks();
    match verify(&code, marks.as_slice(), image.sealed(), &mut starts) {
        Ok(_) => list_accepted(alloc, &code, &starts, out),
        Err(refusal) => put_words(out, &refusal),
    }
}

// Lists the units of the code of an original image. All memory is taken before the first line is put.
fn list_original<K: Sink>(alloc: Global, image: &ImageView<'_>, out: &mut K) -> Status
    requires { length image.now.code ≤ 65535 }
    ensures { Ends K.written K.faults (LeadsBySome K.leads) out.old out.new 0 0
        (Tells (list_with image.now (refusal image.now.code (marks_of image.now) image.now.sealed))) result }
{
    let code = image.code();
    let marks = image.marks();
    let list = match units(alloc, &code, marks.as_slice(), image.sealed()) {
        Ok(list) => list,
        Err(CodeError::NoMemory) => return Status::NoMemory,
        Err(refusal) => return put_code(out, &refusal),
    };
    match put_units(out, &list.units, &list.places) {
        Ok(()) => Status::Done,
        Err(_) => Status::WriteFault,
    }
}

// Lists an image that was read.
fn list_contents<K: Sink>(alloc: Global, image: &ImageView<'_>, out: &mut K) -> Status
    requires { length image.now.code ≤ 65535 }
    ensures { Ends K.written K.faults (LeadsBySome K.leads) out.old out.new 0 0
        (TellsBy (IsListWhere image.now.rewritten image.now)) result }
{
    if image.rewritten() {
        list_spelled(alloc, image, out)
    } else {
        list_original(alloc, image, out)
    }
}

/// Lists the units of the image that the file holds.
pub fn list<K: Sink>(alloc: Global, file: &[u8], out: &mut K) -> Status
    ensures { Ends K.written K.faults (LeadsBySome K.leads) out.old out.new 0 0
        (TellsBy (IsListBy (image_of file.now))) result }
{
    match parse(file) {
        Ok(image) => list_contents(alloc, &image, out),
        Err(refusal) => put_image(out, &refusal),
    }
}
