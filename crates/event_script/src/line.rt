//! A line of a script: words that single spaces part.
ghost use Rattle.std.specs.Prelude.{◌≡◌, []};
ghost use Rattle.event_script.specs.Events.{asked_by, event_of, load_of, radio_of, unload_of, what_of};
ghost use Rattle.mote_base.specs.Spaced.{words_of};

use crate::hex::bytes_of;
use crate::text::first_word;
use domain_model::{Event, What};
use mote_base::number_in;

/// The verb of an event that loads an image.
const LOAD: &[u8] = b"load";

/// The verb of an event that unloads a module.
const UNLOAD: &[u8] = b"unload";

/// The verb of a packet that comes by radio.
const RADIO: &[u8] = b"radio";

/// The verb of an event that prints the state.
const DUMP: &[u8] = b"dump";

/// The latest time that a script names, in units.
const LAST_TIME: u64 = 4_294_967_295;

/// The greatest number of an image that a script names.
const LAST_IMAGE: u64 = 255;

/// The least id of a module.
const FIRST_ID: u64 = 1;

/// The greatest id of a module.
const LAST_ID: u64 = 254;

/// The greatest type of a message.
const LAST_TYPE: u64 = 255;

#[tactic(auto, using(crate::proofs::Words::more_than_load))]
fn load_of(operands: &[u8]) -> Option<What>
    ensures { result ≡ load_of (words_of operands.now) }
{
    let None = first_word(operands) else {
        return None;
    };
    let image = number_in(operands, 0, LAST_IMAGE)?;
    Some(What::Load(image as u8))
}

#[tactic(auto, using(crate::proofs::Words::more_than_unload))]
fn unload_of(operands: &[u8]) -> Option<What>
    ensures { result ≡ unload_of (words_of operands.now) }
{
    let None = first_word(operands) else {
        return None;
    };
    let id = number_in(operands, FIRST_ID, LAST_ID)?;
    Some(What::Unload(id as u8))
}

#[tactic(auto, using(crate::proofs::Words::more_than_radio))]
fn radio_of(operands: &[u8]) -> Option<What>
    ensures { result ≡ radio_of (words_of operands.now) }
{
    let (to, rest) = first_word(operands)?;
    let (sort, bytes) = first_word(rest)?;
    let None = first_word(bytes) else {
        return None;
    };
    let to = number_in(to, FIRST_ID, LAST_ID)?;
    let sort = number_in(sort, 0, LAST_TYPE)?;
    let bytes = bytes_of(bytes)?;
    Some(What::Radio {
        to: to as u8,
        sort: sort as u8,
        bytes,
    })
}

// What an event with operands asks for.
#[tactic(auto, using(crate::proofs::Words::more_than_dump))]
fn what_of(verb: &[u8], operands: &[u8]) -> Option<What>
    ensures { result ≡ what_of verb.now (words_of operands.now) }
{
    if verb == LOAD {
        return load_of(operands);
    }
    if verb == UNLOAD {
        return unload_of(operands);
    }
    if verb == RADIO {
        return radio_of(operands);
    }
    None
}

// What an event without operands asks for.
fn bare_what(verb: &[u8]) -> Option<What>
    ensures { result ≡ what_of verb.now [] }
{
    if verb == DUMP {
        return Some(What::Dump);
    }
    None
}

// What stands behind an event's time.
fn asked(text: &[u8]) -> Option<What>
    ensures { result ≡ asked_by (words_of text.now) }
{
    match first_word(text) {
        Some((verb, operands)) => what_of(verb, operands),
        None => bare_what(text),
    }
}

/// The event of a line that isn't blank.
pub fn event_of(line: &[u8]) -> Option<Event>
    ensures { result ≡ event_of (words_of line.now) }
{
    let (time, rest) = first_word(line)?;
    let time = number_in(time, 0, LAST_TIME)?;
    let what = asked(rest)?;
    Some(Event { time, what })
}
