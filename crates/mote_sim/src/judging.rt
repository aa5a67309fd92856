//! The verdict on rewritten words.
ghost use Rattle.std.specs.Prelude.{◌≡◌, ◌≤◌, length};
ghost use Rattle.module_image.specs.Reading.{image_of};
ghost use Rattle.mote_sim.specs.Ending.{Ends};
ghost use Rattle.mote_sim.specs.Pieces.{LeadsBySome};
ghost use Rattle.mote_sim.specs.Tools.{TellsBy, IsVerdictBy, IsVerdictWhere};

use crate::one_line::{put_answer, put_image, put_verdict, put_words};
use harbor_verify::{Starts, verify};
use module_image::{ImageView, parse};
use mote_base::{Sink, Status};
use std::alloc::Global;

// Says what the words of an image that was read come to. All memory is taken before the one put.
fn judge_image<K: Sink>(alloc: Global, image: &ImageView<'_>, out: &mut K) -> Status
    requires { length image.now.code ≤ 65535 }
    ensures { Ends K.written K.faults (LeadsBySome K.leads) out.old out.new 0 0
        (TellsBy (IsVerdictWhere image.now.rewritten image.now)) result }
{
    if !image.rewritten() {
        return put_answer(out, b"refused original\n", Status::Refused);
    }
    let mut starts = match Starts::new(alloc) {
        Err(_) => return Status::NoMemory,
        Ok(starts) => starts,
    };
    let code = image.code();
    let marks = image.marks();
    match verify(&code, marks.as_slice(), image.sealed(), &mut starts) {
        Ok(count) => put_verdict(out, count),
        Err(refusal) => put_words(out, &refusal),
    }
}

/// Says how many units the words of the image that the file holds spell.
pub fn judge<K: Sink>(alloc: Global, file: &[u8], out: &mut K) -> Status
    ensures { Ends K.written K.faults (LeadsBySome K.leads) out.old out.new 0 0
        (TellsBy (IsVerdictBy (image_of file.now))) result }
{
    match parse(file) {
        Ok(image) => judge_image(alloc, &image, out),
        Err(refusal) => put_image(out, &refusal),
    }
}
