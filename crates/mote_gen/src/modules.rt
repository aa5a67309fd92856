//! The modules of a bundle.
ghost use Rattle.std.specs.Prelude.{◌≡◌, ◌≤◌, ◌*◌, IfOk, OnOk};
ghost use Rattle.module_image.specs.Contents.{IsModuleId};
ghost use Rattle.module_image.specs.Spelling.{Image};
ghost use Rattle.mote_gen.specs.Bundle.{files_of, images_of};
ghost use Rattle.mote_gen.specs.Modules.{code_of, contents_of, count_bound, module_of, receiver_bound};
ghost use Rattle.mote_gen.specs.Numbers.{behind, draw_count, module_count, module_draws, number, numbers_of};

use crate::numbers::Numbers;
use arrayvec::ArrayVec;
use module_image::{Face, write_image};
use mote_base::NoMemory;
use std::alloc::Global;

/// How many modules a bundle has. Their ids begin at 1.
pub const MODULES: u8 = 7;

/// Below which bound it is drawn how far a module counts down.
const COUNTS: u16 = 15;

/// The words of a module. On a message of the packets' type it counts down, takes the payload and posts it.
fn code(count: u16, receiver: u16) -> [u16; 18]
    requires count { count ≤ count_bound }
    requires receiver { receiver ≤ receiver_bound }
    ensures { result ≡ code_of count receiver }
{
    [
        0x9120, // lds r18,0x0100
        0x0100,
        0x3027, // cpi r18,7
        0xF009, // brbs 1: over the next
        0x9508, // ret
        0xE000 + count, // ldi r16,count
        0x950A, // dec r16
        0xF7F1, // brbc 1: back to dec
        0x940E, // call take
        0xF105,
        0x019C, // movw r18,r24
        0xE080 + receiver, // ldi r24,receiver
        0xE069, // ldi r22,9
        0xE048, // ldi r20,8
        0xE050, // ldi r21,0
        0x940E, // call post_long
        0xF104,
        0x9508, // ret
    ]
}

fn image(alloc: Global, id: u8, count: u16, receiver: u16) -> Result<Vec<u8>, NoMemory>
    requires id { IsModuleId id }
    requires count { count ≤ count_bound }
    requires receiver { receiver ≤ receiver_bound }
    ensures { IfOk result (λ v. Image v.items (contents_of id count receiver)) }
{
    let face = Face {
        id,
        provided: ArrayVec::new(),
        subscribed: ArrayVec::new(),
    };
    write_image(alloc, &face, false, 0, 0, &code(count, receiver))
}

/// The image of the module with an id, which the next two numbers choose.
#[tactic(auto, unfolding(crate::specs::Numbers::number))]
fn module(alloc: Global, id: u8, numbers: &mut Numbers) -> Result<Vec<u8>, NoMemory>
    requires { IsModuleId id }
    ensures last { numbers.new.last ≡ number numbers.old.last module_draws }
    ensures image { IfOk result (λ v. Image v.items (module_of (behind numbers.old.last) id)) }
{
    let count = 1 + numbers.draw(COUNTS);
    let receiver = 1 + numbers.draw(MODULES.into());
    image(alloc, id, count, receiver)
}

/// The images of all modules, which the first numbers behind the seed choose.
pub fn modules(alloc: Global, numbers: &mut Numbers) -> Result<Vec<Vec<u8>>, NoMemory>
    ensures last { OnOk result (numbers.new.last ≡ number numbers.old.last (module_count * module_draws)) }
    ensures images { IfOk result (λ images. files_of images.items ≡ images_of (numbers_of numbers.old.last)) }
{
    let mut images = Vec::new(alloc);
    for place in 0..MODULES {
        images.push(module(alloc, place + 1, numbers)?)?;
    }
    Ok(images)
}
