//! Bundles of the generator. What is expected of them was worked out apart from it, by the formula of its numbers.

use domain_model::{Event, What};
use module_image::parse;
use mote_base::NoMemory;
use mote_gen::make;
use std::alloc::Global;
use std::test::Fail;

/// The two words of a module's code that are drawn: they load how far it counts down, and to which module it posts.
type Drawn = (u16, u16);

/// A packet's time, its receiver and its bytes.
type Packet = (u64, u8, [u8; 8]);

fn drawn(file: &[u8]) -> Option<Drawn> {
    let image = parse(file).ok()?;
    let code = image.code();
    if code.len() != 18 {
        return None;
    }
    Some((code.at(5), code.at(11)))
}

fn is_packet(event: &Event, packet: &Packet) -> bool {
    let (time, receiver, expected) = packet;
    match &event.what {
        What::Radio { to, sort, bytes } => {
            event.time == *time
                && *to == *receiver
                && *sort == 7
                && bytes.as_slice() == expected.as_slice()
        }
        _ => false,
    }
}

/// Whether the bundle of a seed has seven images and 10,007 events, and of the modules and of the packets these are
/// the first and the last.
fn is_made(
    alloc: Global,
    seed: u32,
    modules: [Drawn; 2],
    first: &Packet,
    last: &Packet,
) -> Result<bool, NoMemory> {
    let bundle = make(alloc, seed)?;
    let images = &bundle.images;
    let events = &bundle.script.events;
    if images.len() != 7 || events.len() != 10_007 {
        return Ok(false);
    }
    Ok(
        drawn(&images[0]) == Some(modules[0])
            && drawn(&images[6]) == Some(modules[1])
            && is_packet(&events[7], first)
            && is_packet(&events[10_006], last),
    )
}

#[test]
fn bundles_are_drawn_by_the_formula(rt: HostRuntime) -> Result<(), Fail> {
    let alloc = rt.alloc();
    let modules = [(0xE002, 0xE082), (0xE00C, 0xE085)];
    let first = (61, 7, [99, 174, 191, 13, 71, 194, 15, 162]);
    let last = (497_382, 5, [179, 90, 254, 184, 237, 35, 192, 76]);
    assert!(rt; is_made(alloc, 1, modules, &first, &last)?);

    let modules = [(0xE006, 0xE081), (0xE00D, 0xE085)];
    let first = (47, 2, [45, 201, 79, 9, 92, 173, 122, 70]);
    let last = (501_042, 3, [241, 125, 194, 61, 154, 110, 95, 82]);
    assert!(rt; is_made(alloc, 0, modules, &first, &last)?);

    let modules = [(0xE00B, 0xE086), (0xE00F, 0xE086)];
    let first = (30, 4, [248, 229, 223, 5, 113, 151, 230, 235]);
    let last = (503_975, 1, [47, 160, 133, 193, 70, 185, 255, 88]);
    assert!(rt; is_made(alloc, 4_294_967_295, modules, &first, &last)?);
    Ok(())
}
