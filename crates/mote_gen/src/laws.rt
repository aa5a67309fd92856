//! The laws of bundles.
ghost use Rattle.mote_gen.specs.Accepted.{EventsAreOfAScript, EventsAreRead, ImagesAreAccepted};

use event_script::spelled_events_are_read;

/// Law: each file is an image of the first version whose code has units.
pub fn images_are_accepted()
    ensures { ImagesAreAccepted }
{}

/// Law: the events are in order and in range, and as few as a script may have.
pub fn events_are_of_a_script()
    ensures { EventsAreOfAScript }
{}

/// Law: the events, spelled as a text, are a script, and it is read as these events.
pub fn events_are_read()
    ensures { EventsAreRead }
{
    spelled_events_are_read();
}
