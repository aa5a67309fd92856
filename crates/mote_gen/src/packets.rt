//! The events of a bundle's script.
ghost use Rattle.std.specs.Prelude.{◌≡◌, ◌≤◌, ◌+◌, ◌^◌, ◌<◌, IfOk};
ghost use Rattle.mote_gen.specs.Numbers.{behind, number, packet_draws};
ghost use Rattle.mote_gen.specs.Packets.{bytes_of, loads, packet_bytes, rise_bound, rise_of, what_of};

use crate::modules::MODULES;
use crate::numbers::Numbers;
use domain_model::{Event, PayloadBytes, What};
use mote_base::NoMemory;
use std::alloc::Global;

/// How many packets come.
pub const PACKETS: u32 = 10_000;

/// The type of a packet, and how many bytes it has.
const PACKET_TYPE: u8 = 7;

const PACKET_BYTES: u8 = 8;

/// Below which bounds the rise of the time and each byte are drawn.
const RISES: u16 = 99;

const BYTES: u16 = 256;

/// The loads of all images, at time 0.
pub fn loads(alloc: Global) -> Result<Vec<Event>, NoMemory>
    ensures { IfOk result (λ events. events.items ≡ loads) }
{
    let mut events = Vec::new(alloc);
    for image in 0..MODULES {
        events.push(Event {
            time: 0,
            what: What::Load(image),
        })?;
    }
    Ok(events)
}

fn payload(numbers: &mut Numbers) -> PayloadBytes
    ensures last { numbers.new.last ≡ number numbers.old.last packet_bytes }
    ensures bytes { result ≡ bytes_of (behind numbers.old.last) }
{
    let mut bytes = PayloadBytes::new();
    for place in 0..PACKET_BYTES {
        bytes.push(numbers.draw(BYTES) as u8);
    }
    bytes
}

/// The packet that the next numbers choose, behind one that came at a time.
#[tactic(auto, unfolding(crate::specs::Numbers::number))]
pub fn packet(before: u64, numbers: &mut Numbers) -> Event
    requires { before < 2 ^ 32 }
    ensures last { numbers.new.last ≡ number numbers.old.last packet_draws }
    ensures time { result.time ≡ before + rise_of (behind numbers.old.last) }
    ensures what { result.what ≡ what_of (behind numbers.old.last) }
    ensures rise { result.time ≤ before + rise_bound }
{
    let time = before + 1 + u64::from(numbers.draw(RISES));
    let to = 1 + numbers.draw(MODULES.into());
    let what = What::Radio {
        to: to as u8,
        sort: PACKET_TYPE,
        bytes: payload(numbers),
    };
    Event { time, what }
}
