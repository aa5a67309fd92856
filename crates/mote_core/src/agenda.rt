//! The lines of a script that are still to come.
ghost use Rattle.std.specs.Prelude.{◌≡◌, ◌<◌, [], ◌++◌, IfOk, MatchOption, None, OnOk, Some, drop, length, slice_get};
ghost use Rattle.domain_model.specs.Events.{earlier, event_times, is_due, loader_event, loader_events, onto_events, onto_packets, packet_of, packet_times, packets_in};

use domain_model::{Event, LoaderEvent, LoaderOrder, Packet, What};
use event_script::Script;
use mote_base::NoMemory;
use std::alloc::Global;
use std::marker::Model;

/// The lines of a script that have not come, in their order: the packets, and the events that are for the loader.
#[derive(Drop)]
pub struct Agenda {
    packets: Vec<Packet>,
    /// How many packets have come.
    heard: usize,
    events: Vec<LoaderEvent>,
    /// How many events have come.
    passed: usize,
}

impl Model for Agenda {
    ghost use Rattle.std.specs.Prelude.{◌≤◌, drop, length};
    ghost use Rattle.mote_core.specs.Value.{Plan};

    ghost Value = { Plan };

    ghost view = { λ a. record { packets = drop a.heard a.packets.items; events = drop a.passed a.events.items } };

    ghost invariant = { λ a. (a.heard ≤ length a.packets.items) × (a.passed ≤ length a.events.items) };
}

// Puts a line of the script where it belongs.
fn push_line(
    packets: &mut Vec<Packet>,
    events: &mut Vec<LoaderEvent>,
    line: Event,
) -> Result<(), NoMemory>
    ensures packets { OnOk result (packets.new.items ≡ packets.old.items ++ onto_packets (packet_of line) []) }
    ensures events { OnOk result (events.new.items ≡ events.old.items ++ onto_events (loader_event line) []) }
{
    let time = line.time;
    let what = match line.what {
        What::Load(image) => LoaderOrder::Load(image),
        What::Unload(id) => LoaderOrder::Unload(id),
        What::Dump => LoaderOrder::Dump,
        What::Radio { to, sort, bytes } => {
            packets.push(Packet {
                time,
                to,
                sort,
                bytes,
            })?;
            return Ok(());
        }
    };
    events.push(LoaderEvent { time, what })?;
    Ok(())
}

impl Agenda {
    /// All lines of a script.
    pub fn new(alloc: Global, script: Script) -> Result<Agenda, NoMemory>
        ensures packets { IfOk result (λ agenda. agenda.packets ≡ packets_in script.events.items) }
        ensures events { IfOk result (λ agenda. agenda.events ≡ loader_events script.events.items) }
    {
        let mut packets = Vec::new(alloc);
        let mut events = Vec::new(alloc);
        for line in script.events {
            push_line(&mut packets, &mut events, line)?;
        }
        Ok(Agenda {
            packets,
            heard: 0,
            events,
            passed: 0,
        })
    }

    /// The next packet, if there is one.
    pub fn packet(&self) -> Option<&Packet>
        ensures { MatchOption result (slice_get self.now.packets 0 ≡ None) (λ p. slice_get self.now.packets 0 ≡ Some p.now) }
    {
        self.packets.get(self.heard)
    }

    /// Whether a packet has come by now.
    pub fn is_packet_due(&self, now: u64) -> bool
        ensures { result ≡ is_due (packet_times self.now.packets) now }
    {
        match self.packet() {
            Some(packet) => packet.time <= now,
            None => false,
        }
    }

    /// The next packet has come.
    pub fn pass_packet(&mut self)
        requires { 0 < length self.old.packets }
        ensures { self.new ≡ record self.old { packets = drop 1 self.old.packets } }
    {
        self.heard += 1;
    }

    /// The next event, if there is one.
    pub fn event(&self) -> Option<LoaderEvent>
        ensures { result ≡ slice_get self.now.events 0 }
    {
        self.events.get(self.passed).copied()
    }

    /// The next event has come.
    pub fn pass_event(&mut self)
        requires { 0 < length self.old.events }
        ensures { self.new ≡ record self.old { events = drop 1 self.old.events } }
    {
        self.passed += 1;
    }

    /// When the next line of the script is due, if one is to come.
    pub fn next_time(&self) -> Option<u64>
        ensures { result ≡ earlier (slice_get (packet_times self.now.packets) 0) (slice_get (event_times self.now.events) 0) }
    {
        match (self.packet(), self.event()) {
            (Some(packet), Some(event)) => Some(packet.time.min(event.time)),
            (Some(packet), None) => Some(packet.time),
            (None, Some(event)) => Some(event.time),
            (None, None) => None,
        }
    }
}
