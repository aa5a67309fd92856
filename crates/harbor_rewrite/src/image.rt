//! Whole images.

ghost use Rattle.std.specs.Prelude.{◌≡◌, ◌≤◌, ◌<◌, ◌^◌, true, false, None, length, map, IfOk, IfErr};
ghost use Rattle.std.specs.List.{AllByRecursion};
ghost use Rattle.mote_layout.specs.Memory.{bank_words};
ghost use Rattle.unit_code.specs.Listing.{FitsTogether};
ghost use Rattle.unit_code.specs.Proper.{IsProper};
ghost use Rattle.unit_code.specs.Spelling.{start_of};
ghost use Rattle.unit_code.specs.Units.{listed, refusal};
ghost use Rattle.module_image.specs.Contents.{FaceRules, Rules};
ghost use Rattle.module_image.specs.Spelling.{Image, flags};
ghost use Rattle.harbor_rewrite.specs.Errors.{IsRefused};
ghost use Rattle.harbor_rewrite.specs.Rewritten.{IsRewritten, SpellsOriginal, entered_at, listing_of, marks_of, moved, with_code, with_entries};

use crate::bank::{are_words, bank_code};
use crate::error::RewriteError;
use arrayvec::ArrayVec;
use module_image::{FIRST_VERSION, Face, ImageView, MARKS, Provided, write_image, write_image2};
use mote_base::NoMemory;
use mote_layout::PROVIDED;
use std::alloc::Global;
use unit_code::{BankCode, CodeError, UnitList, units};

/// The file of the rewritten image: of the same version, with the same face but for the words of the provided
/// functions, the same state size, constants and seal.
pub fn rewrite(alloc: Global, image: &ImageView<'_>) -> Result<Vec<u8>, RewriteError>
    ensures rewritten { IfOk result (λ file. IsRewritten image.now file.items) }
    ensures spelled { IfOk result (λ file. SpellsOriginal image.now file.items) }
    ensures accepted { IfOk result (λ _. (image.now.rewritten ≡ false)
        × (refusal image.now.code (marks_of image.now) image.now.sealed ≡ None)) }
    ensures refused { IfErr result (λ e. IsRefused image.now e) }
{
    if image.rewritten() {
        return Err(RewriteError::Already);
    }
    let list = units_of(alloc, image)?;
    let code = bank_code(alloc, &list)?;
    Ok(write(alloc, image, &list.marks, &code)?)
}

/// The units of the code of an image that is not rewritten, with the unit numbers of its marks.
fn units_of(alloc: Global, image: &ImageView<'_>) -> Result<UnitList, RewriteError>
    requires { image.now.rewritten ≡ false }
    ensures listed { IfOk result (λ list. list ≡ listing_of image.now) }
    ensures accepted { IfOk result (λ _. refusal image.now.code (marks_of image.now) image.now.sealed ≡ None) }
    ensures proper { IfOk result (λ list. IsProper list.units image.now.sealed) }
    ensures together { IfOk result (λ list. FitsTogether list (marks_of image.now)) }
    ensures refused { IfErr result (λ e. IsRefused image.now e) }
    ensures image { Rules image.now }
{
    let marks = image.marks();
    let code = image.code();
    match units(alloc, &code, &marks, image.sealed()) {
        Ok(list) => Ok(list),
        Err(CodeError::NoMemory) => Err(RewriteError::NoMemory),
        Err(refusal) => Err(RewriteError::Code(refusal)),
    }
}

/// The file of the image with these words as its code, entered at the starts of the marks' units.
fn write(
    alloc: Global,
    image: &ImageView<'_>,
    marks: &[u16],
    code: &BankCode,
) -> Result<Vec<u8>, NoMemory>
    requires image { Rules image.now }
    requires marks { length marks.now ≡ length (marks_of image.now) }
    requires entered { AllByRecursion (λ number. number < length code.now.starts) marks.now }
    requires room { length code.now.words ≤ bank_words }
    ensures { IfOk result (λ file. Image file.items
        (with_code (entered_at image.now (map (start_of code.now.starts) marks.now)) code.now.words)) }
{
    let entries = entries(&code.starts, marks);
    let face = moved_face(image, &entries[1..]);
    write_as_read(alloc, image, &face, entries[0], &code.words)
}

/// The starts of the units with these numbers.
fn entries(starts: &[u16], numbers: &[u16]) -> ArrayVec<u16, MARKS>
    requires entered { AllByRecursion (λ number. number < length starts.now) numbers.now }
    requires room { length numbers.now ≤ MARKS }
    ensures { result.items ≡ map (start_of starts.now) numbers.now }
{
    let mut entries = ArrayVec::new();
    for number in numbers {
        entries.push(starts[usize::from(*number)]);
    }
    entries
}

/// The image's face, with the provided functions at other words.
fn moved_face(image: &ImageView<'_>, words: &[u16]) -> Face
    requires { length words.now ≡ length image.now.face.provided.items }
    ensures face { result ≡ with_entries image.now.face words.now }
    ensures rules { FaceRules result }
{
    let Face {
        id,
        provided: old,
        subscribed,
    } = image.face();
    let provided = moved(&old, words);
    are_words(words);
    Face {
        id,
        provided,
        subscribed,
    }
}

/// The provided functions, each at another word.
fn moved(functions: &[Provided], words: &[u16]) -> ArrayVec<Provided, PROVIDED>
    requires each { length words.now ≡ length functions.now }
    requires room { length functions.now ≤ PROVIDED }
    ensures { result.items ≡ moved functions.now words.now }
{
    let mut provided = ArrayVec::new();
    for i in 0..words.len() {
        provided.push(Provided {
            word: words[i],
            ..functions[i]
        });
    }
    provided
}

/// The file of the image in its own version, rewritten, with this face, handler and code.
fn write_as_read(
    alloc: Global,
    image: &ImageView<'_>,
    face: &Face,
    handler: u16,
    words: &[u16],
) -> Result<Vec<u8>, NoMemory>
    requires image { Rules image.now }
    requires face { FaceRules face.now }
    requires room { length words.now ≤ bank_words }
    ensures { IfOk result (λ file. Image file.items
        (record image.now { face = face.now; handler = handler; rewritten = true; code = words.now })) }
{
    if image.version() == FIRST_VERSION {
        write_image(alloc, face, true, image.state_size(), handler, words)
    } else {
        let flags = flags_of(image.sealed());
        write_image2(
            alloc,
            face,
            flags,
            image.state_size(),
            handler,
            words,
            image.constants(),
        )
    }
}

/// The flags of a rewritten image.
fn flags_of(sealed: bool) -> u8
    ensures { result ≡ flags true sealed }
{
    if sealed { 3 } else { 1 }
}
