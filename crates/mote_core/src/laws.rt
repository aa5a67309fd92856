//! A law of a mote's turns, over the definitions alone.
ghost use Rattle.mote_core.specs.Seen.{TurnsAreSeen};

/// Law: whatever the type of the runner, if what the machine sees of it is placed, cleared and entered as the machine
/// says, then the state seen of a mote behind its turn is the one behind the machine's turn, with what is seen of the
/// runner's unit; and the lines without those of instructions are the machine's.
pub fn turns_are_seen<R>()
    ensures { TurnsAreSeen R }
{}
