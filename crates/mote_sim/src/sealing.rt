//! Images written anew: in the second version of the format, or sealed.
ghost use Rattle.std.specs.Prelude.{◌≡◌, ◌≤◌, ◌||◌, ◌==◌, [], length, IfOk};
ghost use Rattle.module_image.specs.Contents.{constants_limit, first_version};
ghost use Rattle.module_image.specs.Reading.{image_of};
ghost use Rattle.module_image.specs.Spelling.{Image, flags};
ghost use Rattle.mote_sim.specs.Ending.{Ends};
ghost use Rattle.mote_sim.specs.Pieces.{LeadsBySome};
ghost use Rattle.mote_sim.specs.Tools.{Tells, in_second, seal_by, seal_where, upgrade_by, upgrade_where};

use crate::one_line::{put_answer, put_image};
use module_image::{FIRST_VERSION, ImageView, parse, write_image2};
use mote_base::{NoMemory, Sink, Status, Words};
use std::alloc::Global;

// The flags of an image.
fn flags_of(rewritten: bool, sealed: bool) -> u8
    ensures { result ≡ flags rewritten sealed }
{
    match (rewritten, sealed) {
        (false, false) => 0,
        (true, false) => 1,
        (false, true) => 2,
        (true, true) => 3,
    }
}

// The words of the code, outside of their file.
fn words_of(alloc: Global, code: &Words<'_>) -> Result<Vec<u16>, NoMemory>
    ensures { IfOk result (λ v. v.items ≡ code.now) }
{
    let mut words = Vec::new(alloc);
    for place in 0..code.len() {
        words.push(code.at(place))?;
    }
    Ok(words)
}

// The file of the image in the second version of the format, with this seal and these constants.
fn write_second(
    alloc: Global,
    image: &ImageView<'_>,
    sealed: bool,
    constants: &[u8],
) -> Result<Vec<u8>, NoMemory>
    requires { length constants.now ≤ constants_limit }
    ensures { IfOk result (λ v. Image v.items (in_second image.now sealed constants.now)) }
{
    let face = image.face();
    let code = words_of(alloc, &image.code())?;
    let marks = image.marks();
    write_image2(
        alloc,
        &face,
        flags_of(image.rewritten(), sealed),
        image.state_size(),
        marks[0],
        &code,
        constants,
    )
}

// Writes an image that was read in the second version. All memory is taken before the one put.
fn upgrade_image<K: Sink>(alloc: Global, image: &ImageView<'_>, out: &mut K) -> Status
    ensures { Ends K.written K.faults (LeadsBySome K.leads) out.old out.new 0 0
        (Tells (upgrade_where (image.now.version == first_version) image.now)) result }
{
    if image.version() != FIRST_VERSION {
        return put_answer(out, b"refused upgraded\n", Status::Refused);
    }
    match write_second(alloc, image, image.sealed(), &[]) {
        Ok(file) => put_answer(out, &file, Status::Done),
        Err(_) => Status::NoMemory,
    }
}

/// Writes the image that the file holds in the second version. It doesn't look at the code.
pub fn upgrade<K: Sink>(alloc: Global, file: &[u8], out: &mut K) -> Status
    ensures { Ends K.written K.faults (LeadsBySome K.leads) out.old out.new 0 0
        (Tells (upgrade_by (image_of file.now))) result }
{
    match parse(file) {
        Ok(image) => upgrade_image(alloc, &image, out),
        Err(refusal) => put_image(out, &refusal),
    }
}

// Writes an image that was read with the seal. All memory is taken before the one put.
fn seal_image<K: Sink>(alloc: Global, image: &ImageView<'_>, out: &mut K) -> Status
    requires { length image.now.constants ≤ constants_limit }
    ensures { Ends K.written K.faults (LeadsBySome K.leads) out.old out.new 0 0
        (Tells (seal_where (image.now.rewritten || image.now.sealed) image.now)) result }
{
    if image.rewritten() || image.sealed() {
        return put_answer(out, b"refused already\n", Status::Refused);
    }
    match write_second(alloc, image, true, image.constants()) {
        Ok(file) => put_answer(out, &file, Status::Done),
        Err(_) => Status::NoMemory,
    }
}

/// Writes the image that the file holds with the seal. It doesn't look at the code.
pub fn seal<K: Sink>(alloc: Global, file: &[u8], out: &mut K) -> Status
    ensures { Ends K.written K.faults (LeadsBySome K.leads) out.old out.new 0 0
        (Tells (seal_by (image_of file.now))) result }
{
    match parse(file) {
        Ok(image) => seal_image(alloc, &image, out),
        Err(refusal) => put_image(out, &refusal),
    }
}
