//! Modules as text.
ghost use Rattle.std.specs.Prelude.{◌≡◌};
ghost use Rattle.avr_asm.specs.Refusals.{refusal_of};
ghost use Rattle.module_image.specs.Reading.{image_of};
ghost use Rattle.mote_sim.specs.Ending.{Ends};
ghost use Rattle.mote_sim.specs.Pieces.{LeadsBySome};
ghost use Rattle.mote_sim.specs.Tools.{Tells, asm_by, source_by, source_where};

use crate::one_line::{put_answer, put_code, put_image, put_text};
use avr_asm::{AsmError, SourceError, assemble, source};
use module_image::{ImageView, parse};
use mote_base::{Sink, Status};
use std::alloc::Global;

/// Writes the image of the module that the text is. All memory is taken before the one put.
pub fn write_module<K: Sink>(alloc: Global, text: &[u8], out: &mut K) -> Status
    ensures { Ends K.written K.faults (LeadsBySome K.leads) out.old out.new 0 0
        (Tells (asm_by text.now (refusal_of text.now))) result }
{
    match assemble(alloc, text) {
        Ok(image) => put_answer(out, &image, Status::Done),
        Err(AsmError::NoMemory) => Status::NoMemory,
        Err(refusal) => put_text(out, &refusal),
    }
}

// Writes the text of an image that was read. All memory is taken before the one put.
fn write_image_text<K: Sink>(alloc: Global, image: &ImageView<'_>, out: &mut K) -> Status
    ensures { Ends K.written K.faults (LeadsBySome K.leads) out.old out.new 0 0
        (Tells (source_where image.now.rewritten image.now)) result }
{
    match source(alloc, image) {
        Ok(text) => put_answer(out, &text, Status::Done),
        Err(SourceError::Rewritten) => put_answer(out, b"refused already\n", Status::Refused),
        Err(SourceError::Code(refusal)) => put_code(out, &refusal),
        Err(SourceError::NoMemory) => Status::NoMemory,
    }
}

/// Writes the canonical text of the image that the file holds.
pub fn write_text<K: Sink>(alloc: Global, file: &[u8], out: &mut K) -> Status
    ensures { Ends K.written K.faults (LeadsBySome K.leads) out.old out.new 0 0
        (Tells (source_by (image_of file.now))) result }
{
    match parse(file) {
        Ok(image) => write_image_text(alloc, &image, out),
        Err(refusal) => put_image(out, &refusal),
    }
}
