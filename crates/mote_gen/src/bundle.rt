//! What a seed makes.
ghost use Rattle.std.specs.Prelude.{◌≡◌, ◌≤◌, length, IfOk};
ghost use Rattle.mote_layout.specs.Limits.{event_limit};
ghost use Rattle.domain_model.specs.Events.{event_times, loader_events, packet_times, packets_in};
ghost use Rattle.domain_model.specs.Good.{ArePackets, AreTimes};
ghost use Rattle.mote_gen.specs.Bundle.{files_of, images_of};
ghost use Rattle.mote_gen.specs.Numbers.{numbers_of};
ghost use Rattle.mote_gen.specs.Packets.{events_of};

use crate::modules::modules;
use crate::numbers::Numbers;
use crate::packets::{PACKETS, loads, packet};
use event_script::Script;
use mote_base::NoMemory;
use std::alloc::Global;

/// What a run is given: the files of seven images, and the events that load them and bring the packets.
#[derive(Drop)]
pub struct Bundle {
    pub images: Vec<Vec<u8>>,
    pub script: Script,
}

/// The bundle of a seed.
pub fn make(alloc: Global, seed: u32) -> Result<Bundle, NoMemory>
    ensures images { IfOk result (λ bundle. files_of bundle.images.items ≡ images_of (numbers_of seed)) }
    ensures events { IfOk result (λ bundle. bundle.script.events.items ≡ events_of (numbers_of seed)) }

    // A mote takes the events.
    ensures packets { IfOk result (λ bundle. ArePackets (packets_in bundle.script.events.items)) }
    ensures packet_times { IfOk result (λ bundle. AreTimes (packet_times (packets_in bundle.script.events.items))) }
    ensures times { IfOk result (λ bundle. AreTimes (event_times (loader_events bundle.script.events.items))) }
    ensures few { IfOk result (λ bundle. length bundle.script.events.items ≤ event_limit) }
{
    let mut numbers = Numbers { last: seed };
    let images = modules(alloc, &mut numbers)?;
    let mut events = loads(alloc)?;
    let mut time = 0;
    for place in 0..PACKETS {
        let event = packet(time, &mut numbers);
        time = event.time;
        events.push(event)?;
    }
    Ok(Bundle {
        images,
        script: Script { events },
    })
}
