//! The events of a script, line by line.
ghost use Rattle.std.specs.Prelude.{◌≡◌, ◌⊎◌, ◌<◌, ◌+◌, None, Some, IfErr, IfOk, length};
ghost use Rattle.domain_model.specs.Good.{ArePackets, AreTimes};
ghost use Rattle.domain_model.specs.Events.{event_times, loader_events, packet_times, packets_in};
ghost use Rattle.event_script.specs.Admitted.{admitted};
ghost use Rattle.event_script.specs.Refusals.{asks_beyond, refusal_of, events_of};

use crate::error::ScriptError;
use crate::line::event_of;
use crate::text::{cut, is_blank};
use domain_model::{Event, What};
use mote_layout::EVENTS;
use std::alloc::Global;

/// The events of a script, in its order.
#[derive(Drop)]
pub struct Script {
    pub events: Vec<Event>,
}

// Whether an event is for an image that isn't given.
fn asks_beyond(what: &What, images: usize) -> bool
    ensures { result ≡ asks_beyond images what.now }
{
    match what {
        What::Load(image) => images <= usize::from(*image),
        _ => false,
    }
}

// Whether an event can stand in its line, behind `count` others of which the last has the time `latest`.
fn admit(
    event: &Event,
    latest: u64,
    count: usize,
    images: usize,
    line: u64,
) -> Result<(), ScriptError>
    ensures { result ≡ admitted latest count images line event.now }
{
    if event.time < latest {
        return Err(ScriptError::Order(line));
    }
    if asks_beyond(&event.what, images) {
        return Err(ScriptError::ImageIndex(line));
    }
    if EVENTS <= count {
        return Err(ScriptError::TooMany(line));
    }
    Ok(())
}

/// The events of a script, or the first condition that holds at its least line where one does. `images` is how many
/// images the run is given.
pub fn parse_script(alloc: Global, text: &[u8], images: usize) -> Result<Script, ScriptError>
    ensures ok { IfOk result (λ script.
        (refusal_of images text.now ≡ None) × (script.events.items ≡ events_of text.now)) }
    ensures times { IfOk result (λ script. AreTimes (event_times (loader_events script.events.items))) }
    ensures packet_times { IfOk result (λ script. AreTimes (packet_times (packets_in script.events.items))) }
    ensures packets { IfOk result (λ script. ArePackets (packets_in script.events.items)) }
    ensures err { IfErr result (λ e. (e ≡ ScriptError.NoMemory) ⊎ (refusal_of images text.now ≡ Some e)) }
{
    let mut events = Vec::new(alloc);
    let mut latest = 0;
    let mut line = 0;
    let mut rest = text;
    while !rest.is_empty() {
        line += 1;
        let Some((said, behind)) = cut(rest, b'\n') else {
            return Err(ScriptError::Line(line));
        };
        rest = behind;
        if is_blank(said) {
            continue;
        }
        let Some(event) = event_of(said) else {
            return Err(ScriptError::Line(line));
        };
        if let Err(refusal) = admit(&event, latest, events.len(), images, line) {
            return Err(refusal);
        }
        latest = event.time;
        events.push(event)?;
    }
    Ok(Script { events })
}
