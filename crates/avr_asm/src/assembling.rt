//! From a text to its image.
ghost use Rattle.std.specs.Prelude.{◌≡◌, ◌⊎◌, ◌<◌, ◌≤◌, ◌^◌, IfErr, IfOk, None, Some, length, map};
ghost use Rattle.mote_layout.specs.Memory.{bank_words};
ghost use Rattle.module_image.specs.Spelling.{Image};
ghost use Rattle.module_image.specs.Contents.{FaceRules};
ghost use Rattle.unit_code.specs.Spelled.{Spell};
ghost use Rattle.avr_asm.specs.Assembly.{IsImageOf, contents_of, id_of, provided_of, subscribed_of};
ghost use Rattle.avr_asm.specs.Encoding.{IsClear, IsWritten, own_units, places_from};
ghost use Rattle.avr_asm.specs.Refusals.{is_sealed, refusal_of};
ghost use Rattle.avr_asm.specs.Seen.{row_seen};

use crate::encoding::{first_words, words_of};
use crate::error::AsmError;
use crate::fields::{
    constants_of, handler_of, id_of, provided_of, size_of, subscribed_of, version_of, word_of,
};
use crate::judge::{is_sealed, refused};
use crate::row::Row;
use crate::rows::read_rows;
use crate::units::{kinds, units};
use module_image::{FIRST_VERSION, Face, write_image, write_image2};
use mote_base::NoMemory;
use std::alloc::{AllocError, Global};

/// The words of the rows' code.
fn code_of(alloc: Global, rows: &[Row<'_>], sealed: bool) -> Result<Vec<u16>, AllocError>
    requires clear { IsClear (map row_seen rows.now) }
    requires sealed { sealed ≡ is_sealed (map row_seen rows.now) }
    ensures spelled { IfOk result (λ code. Spell (places_from 0 (own_units (map row_seen rows.now))) 0
        (places_from 0 (own_units (map row_seen rows.now))) (own_units (map row_seen rows.now)) code.items) }
    ensures few { IfOk result (λ code. length code.items ≤ bank_words) }
{
    let units = units(alloc, rows, sealed)?;
    let firsts = first_words(alloc, &units)?;
    words_of(alloc, &units, &firsts)
}

/// What the module of the rows shows.
fn face_of(rows: &[Row<'_>]) -> Face
    requires { IsClear (map row_seen rows.now) }
    ensures face { result ≡ record {
      id = id_of (map row_seen rows.now);
      provided = record { items = provided_of (map row_seen rows.now) (map row_seen rows.now) };
      subscribed = record { items = subscribed_of (map row_seen rows.now) };
    } }
    ensures rules { FaceRules result }
{
    Face {
        id: id_of(rows),
        provided: provided_of(rows),
        subscribed: subscribed_of(rows),
    }
}

/// The file of rows that nothing is refused of, with their code.
fn written(alloc: Global, rows: &[Row<'_>], sealed: bool, code: &[u16]) -> Result<Vec<u8>, NoMemory>
    requires clear { IsClear (map row_seen rows.now) }
    requires sealed { sealed ≡ is_sealed (map row_seen rows.now) }
    requires code { length code.now < 2 ^ 16 }
    ensures { IfOk result (λ v. Image v.items (contents_of (map row_seen rows.now) code.now)) }
{
    let face = face_of(rows);
    let size = size_of(rows);
    let handler = word_of(rows, handler_of(rows));
    if version_of(rows) == FIRST_VERSION {
        return write_image(alloc, &face, false, size, handler, code);
    }
    let constants = constants_of(alloc, rows)?;
    let flags = if sealed { 2 } else { 0 };
    write_image2(alloc, &face, flags, size, handler, code, &constants)
}

/// The image of rows that nothing is refused of.
fn image_of(alloc: Global, rows: &[Row<'_>], sealed: bool) -> Result<Vec<u8>, NoMemory>
    requires clear { IsClear (map row_seen rows.now) }
    requires sealed { sealed ≡ is_sealed (map row_seen rows.now) }
    ensures { IfOk result (λ v. IsWritten (map row_seen rows.now) v.items) }
{
    let code = code_of(alloc, rows, sealed)?;
    written(alloc, rows, sealed, &code)
}

/// The image of a module's text, or the first of the four conditions that holds, with its least line.
///
/// The text is the file of a module as its author writes it: lines that end with a line feed. The image is an original one. A text
/// that is too long to be counted is out of memory.
#[tactic(auto, unfolding(crate::specs::Refusals::refusal_of), using(crate::proofs::Images::clear_rows, crate::proofs::Images::image_is))]
pub fn assemble(alloc: Global, text: &[u8]) -> Result<Vec<u8>, AsmError>
    ensures ok { IfOk result (λ image. (refusal_of text.now ≡ None) × IsImageOf text.now image.items) }
    ensures err { IfErr result (λ e. (e ≡ AsmError.NoMemory) ⊎ (refusal_of text.now ≡ Some e)) }
{
    let (rows, end) = read_rows(alloc, text)?;
    let sealed = is_sealed(&rows);
    let kinds = kinds(alloc, &rows, sealed)?;
    match refused(&rows, end, &kinds) {
        Some(refusal) => Err(refusal),
        None => Ok(image_of(alloc, &rows, sealed)?),
    }
}
