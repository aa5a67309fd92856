//! Preparing an image whose fields were read.
ghost use Rattle.std.specs.Prelude.{◌≡◌, ◌≤◌, ◌<◌, ◌+◌, ◌^◌, IfOk, None, false, length, true};
ghost use Rattle.std.specs.List.{AllByRecursion, filter_map};
ghost use Rattle.mote_layout.specs.Limits.{provided_limit};
ghost use Rattle.unit_code.specs.Targets.{AreFirstWords, number_of};
ghost use Rattle.unit_code.specs.Listing.{FitsTogether};
ghost use Rattle.unit_code.specs.Proper.{IsProper};
ghost use Rattle.unit_code.specs.Units.{listed, refusal};
ghost use Rattle.harbor_verify.specs.Parts.{IsAccepted};
ghost use Rattle.harbor_verify.specs.Verdict.{refusal as verify_refusal};
ghost use Rattle.harbor_verify.specs.Walks.{starts_in};
ghost use Rattle.module_image.specs.Contents.{FaceRules, constants_limit};
ghost use Rattle.domain_model.specs.Prepared.{marks_of, module_of, prepared_code, prepared_contents, prepared_words};
ghost use Rattle.domain_model.specs.Good.{GoodImage, IsGoodImage};
ghost use Rattle.mod_loader.specs.Banks.{AreWordsFor, HasItsWords, SpellUnits, code_of, prepared_of};
ghost use Rattle.mod_loader.specs.Listed.{AreNumbersOf, listing_of};

use crate::loadable::Loadable;
use arrayvec::ArrayVec;
use domain_model::Refusal;
use harbor_rewrite::bank_code;
use harbor_verify::{Starts, read_units, verify};
use module_image::ImageView;
use mote_base::{NoMemory, Words};
use mote_layout::PROVIDED;
use std::alloc::Global;
use unit_code::{BankCode, CodeError, UnitList, number_of, units};

// What an image comes to: a module or a refusal.
type Prepared = Result<Loadable, Refusal>;

/// Prepares an image whose fields were read.
pub fn prepared_contents(alloc: Global, image: &ImageView<'_>) -> Result<Prepared, NoMemory>
    requires face { FaceRules image.now.face }
    requires constants { length image.now.constants ≤ constants_limit }
    requires code { length image.now.code ≤ 65535 }
    ensures prepared { IfOk result (λ p. prepared_of p ≡ prepared_contents image.now.rewritten image.now) }
    ensures good { IfOk result (λ p. IsGoodImage (prepared_of p)) }
    ensures words { IfOk result (λ p. HasItsWords p image.now) }
{
    if image.rewritten() {
        prepared_words(alloc, image)
    } else {
        prepared_code(alloc, image)
    }
}

// Prepares an image that no rewriter made.
fn prepared_code(alloc: Global, image: &ImageView<'_>) -> Result<Prepared, NoMemory>
    requires face { FaceRules image.now.face }
    requires constants { length image.now.constants ≤ constants_limit }
    requires code { length image.now.code ≤ 65535 }
    requires original { image.now.rewritten ≡ false }
    ensures prepared { IfOk result (λ p. prepared_of p ≡
        prepared_code image.now (refusal image.now.code (marks_of image.now) image.now.sealed)) }
    ensures good { IfOk result (λ p. IsGoodImage (prepared_of p)) }
    ensures words { IfOk result (λ p. HasItsWords p image.now) }
{
    let marks = image.marks();
    match units(alloc, &image.code(), marks.as_slice(), image.sealed()) {
        Ok(list) => prepared_list(alloc, image, &list),
        Err(CodeError::NoMemory) => Err(NoMemory),
        Err(error) => Ok(Err(Refusal::Code(error))),
    }
}

// Prepares an image that no rewriter made and whose units are listed.
fn prepared_list(
    alloc: Global,
    image: &ImageView<'_>,
    list: &UnitList,
) -> Result<Prepared, NoMemory>
    requires face { FaceRules image.now.face }
    requires constants { length image.now.constants ≤ constants_limit }
    requires original { image.now.rewritten ≡ false }
    requires none { refusal image.now.code (marks_of image.now) image.now.sealed ≡ None }
    requires listed { list.now ≡ listed image.now.code (marks_of image.now) image.now.sealed }
    requires proper { IsProper list.now.units image.now.sealed }
    requires together { FitsTogether list.now (marks_of image.now) }
    ensures prepared { IfOk result (λ p. prepared_of p ≡
        prepared_code image.now (refusal image.now.code (marks_of image.now) image.now.sealed)) }
    ensures good { IfOk result (λ p. IsGoodImage (prepared_of p)) }
    ensures words { IfOk result (λ p. HasItsWords p image.now) }
{
    let bank = bank_code(alloc, list)?;
    let found = prepared_module(alloc, image, bank, &list.marks)?;
    Ok(Ok(found))
}

// Prepares an image that a rewriter made.
fn prepared_words(alloc: Global, image: &ImageView<'_>) -> Result<Prepared, NoMemory>
    requires face { FaceRules image.now.face }
    requires constants { length image.now.constants ≤ constants_limit }
    requires code { length image.now.code ≤ 65535 }
    requires rewritten { image.now.rewritten ≡ true }
    ensures prepared { IfOk result (λ p. prepared_of p ≡
        prepared_words image.now (verify_refusal image.now.code (marks_of image.now) image.now.sealed)) }
    ensures good { IfOk result (λ p. IsGoodImage (prepared_of p)) }
    ensures words { IfOk result (λ p. HasItsWords p image.now) }
{
    let marks = image.marks();
    let code = image.code();
    let mut starts = Starts::new(alloc)?;
    match verify(&code, marks.as_slice(), image.sealed(), &mut starts) {
        Ok(_) => prepared_starts(alloc, image, &code, marks.as_slice(), &starts),
        Err(error) => Ok(Err(Refusal::Verify(error))),
    }
}

// Prepares an image whose words were accepted, with these starts.
#[tactic(auto, using(crate::proofs::Prepared::spelled_words))]
fn prepared_starts(
    alloc: Global,
    image: &ImageView<'_>,
    code: &Words<'_>,
    marks: &[u16],
    starts: &Starts,
) -> Result<Prepared, NoMemory>
    requires face { FaceRules image.now.face }
    requires constants { length image.now.constants ≤ constants_limit }
    requires rewritten { image.now.rewritten ≡ true }
    requires small { AllByRecursion (λ w. w < 2 ^ 16) code.now }
    requires few { length code.now ≤ 65535 }
    requires code { code.now ≡ image.now.code }
    requires marks { marks.now ≡ marks_of image.now }
    requires accepted { IsAccepted code.now starts.now }
    requires none { verify_refusal code.now marks.now image.now.sealed ≡ None }
    requires starts { starts.now ≡ starts_in code.now }
    ensures prepared { IfOk result (λ p. prepared_of p ≡
        prepared_words image.now (verify_refusal image.now.code (marks_of image.now) image.now.sealed)) }
    ensures good { IfOk result (λ p. IsGoodImage (prepared_of p)) }
    ensures words { IfOk result (λ p. HasItsWords p image.now) }
{
    let numbers = numbers_at(alloc, starts.as_slice(), marks)?;
    let bank = read_units(alloc, code, starts)?;
    let found = prepared_module(alloc, image, bank, &numbers)?;
    Ok(Ok(found))
}

// The numbers of the units whose templates start at the marks.
fn numbers_at(alloc: Global, starts: &[u16], marks: &[u16]) -> Result<Vec<u16>, NoMemory>
    requires { AreFirstWords starts.now }
    ensures { IfOk result (λ numbers. numbers.items ≡ filter_map (number_of starts.now) marks.now) }
{
    let mut numbers = Vec::new(alloc);
    for mark in marks {
        if let Some(number) = number_of(starts, usize::from(*mark)) {
            numbers.push(number)?;
        }
    }
    Ok(numbers)
}

// The module of an image whose units were read, with the words of its bank, and which is entered at the units with
// these numbers.
fn prepared_module(
    alloc: Global,
    image: &ImageView<'_>,
    code: BankCode,
    marks: &[u16],
) -> Result<Loadable, NoMemory>
    requires face { FaceRules image.now.face }
    requires constants { length image.now.constants ≤ constants_limit }
    requires spelled { SpellUnits code image.now.sealed }
    requires words { AreWordsFor code image.now }
    requires together { AreNumbersOf marks.now code.units (marks_of image.now) }
    ensures loadable { IfOk result (λ b. b.loadable ≡ module_of image.now (listing_of code marks.now)) }
    ensures good { IfOk result (λ b. GoodImage b.loadable) }
    ensures words { IfOk result (λ b. AreWordsFor (code_of b) image.now) }
{
    let constants = constants_of(alloc, image)?;
    Ok(module_of(image, code, marks, constants))
}

// The constant bytes of an image, in memory of their own.
fn constants_of(alloc: Global, image: &ImageView<'_>) -> Result<Vec<u8>, NoMemory>
    ensures same { IfOk result (λ copy. copy.items ≡ image.now.constants) }
    ensures bytes { AllByRecursion (λ byte. byte < 256) image.now.constants }
{
    let constants = image.constants();
    are_bytes(constants);
    let mut copy = Vec::new(alloc);
    copy.extend_from_slice(constants)?;
    Ok(copy)
}

// Bytes are below 256.
fn are_bytes(bytes: &[u8])
    ensures { AllByRecursion (λ byte. byte < 256) bytes.now }
{}

// The module of an image with these units and constants.
fn module_of(image: &ImageView<'_>, code: BankCode, marks: &[u16], constants: Vec<u8>) -> Loadable
    requires marks { length marks.now ≡ length image.now.face.provided.items + 1 }
    requires provided { length image.now.face.provided.items ≤ provided_limit }
    requires constants { constants.items ≡ image.now.constants }
    requires spelled { SpellUnits code image.now.sealed }
    requires good { GoodImage (module_of image.now (listing_of code marks.now)) }
    ensures loadable { result.loadable ≡ module_of image.now (listing_of code marks.now) }
    ensures words { (result.words ≡ code.words) × (result.starts ≡ code.starts) }
{
    Loadable {
        face: image.face(),
        state_size: image.state_size(),
        handler: marks[0],
        entries: numbers(&marks[1..]),
        code,
        constants,
        sealed: image.sealed(),
    }
}

// The numbers of a module's entries.
fn numbers(units: &[u16]) -> ArrayVec<u16, PROVIDED>
    requires { length units.now ≤ provided_limit }
    ensures { result.items ≡ units.now }
{
    let mut numbers = ArrayVec::new();
    numbers.try_extend_from_slice(units).unwrap();
    numbers
}
