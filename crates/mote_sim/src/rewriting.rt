//! Images rewritten.
ghost use Rattle.std.specs.Prelude.{◌≡◌};
ghost use Rattle.module_image.specs.Reading.{image_of};
ghost use Rattle.mote_sim.specs.Ending.{Ends};
ghost use Rattle.mote_sim.specs.Pieces.{LeadsBySome};
ghost use Rattle.mote_sim.specs.Tools.{Tells, rewrite_by, rewrite_where};

use crate::one_line::{put_answer, put_code, put_image};
use harbor_rewrite::{RewriteError, rewrite};
use module_image::{ImageView, parse};
use mote_base::{Sink, Status};
use std::alloc::Global;

// Rewrites an image that was read. All memory is taken before the one put.
fn rewrite_image<K: Sink>(alloc: Global, image: &ImageView<'_>, out: &mut K) -> Status
    ensures { Ends K.written K.faults (LeadsBySome K.leads) out.old out.new 0 0
        (Tells (rewrite_where image.now.rewritten image.now)) result }
{
    match rewrite(alloc, image) {
        Ok(file) => put_answer(out, &file, Status::Done),
        Err(RewriteError::Already) => put_answer(out, b"refused already\n", Status::Refused),
        Err(RewriteError::Code(refusal)) => put_code(out, &refusal),
        Err(RewriteError::NoMemory) => Status::NoMemory,
    }
}

/// Writes the image that the file holds with each store, stack change and call of its code checked.
pub fn write_rewritten<K: Sink>(alloc: Global, file: &[u8], out: &mut K) -> Status
    ensures { Ends K.written K.faults (LeadsBySome K.leads) out.old out.new 0 0
        (Tells (rewrite_by (image_of file.now))) result }
{
    match parse(file) {
        Ok(image) => rewrite_image(alloc, &image, out),
        Err(refusal) => put_image(out, &refusal),
    }
}
