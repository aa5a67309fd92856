//! The laws of scripts.

ghost use Rattle.event_script.specs.Law.{RefusalIsFirst, NoneIsRefused};
ghost use Rattle.event_script.specs.Spelled.{ScriptsHaveEvents, SpelledEventsAreRead};

/// Law: a text is refused as a script exactly by the first condition that holds of its lines (`Holds`): at the least
/// line where one holds, and there the first in the order of `ScriptError`. It is a script where none holds.
pub fn a_refusal_is_the_first()
    ensures first { RefusalIsFirst }
    ensures none { NoneIsRefused }
{}

/// Law: the events of a script are in order and in range, and at most 65,536.
pub fn scripts_have_such_events()
    ensures { ScriptsHaveEvents }
{}

/// Law: a list of such events, spelled as a text, is read as these events.
pub fn spelled_events_are_read()
    ensures { SpelledEventsAreRead }
{}
