//! The laws of the machine. Each stands over the definitions alone.
ghost use Rattle.domain_model.specs.Facts.{ChoicesAreFounded};
ghost use Rattle.domain_model.specs.Files.{FilesAreAsPrepared};
ghost use Rattle.domain_model.specs.Others.{CallsLeaveOthers, RefusedCallsChangeNothing, OwnBlocksAreServed};
ghost use Rattle.domain_model.specs.Laws.{CounterComesBack, UnitsActAsInstructions, UnitsAreOfTheirSorts, SkipsPassAsInstructions, LastUnitsChangeNothing, TurnsAreLawful, RunsAreLawful, NoBlockIsLost, FewerTurnsRemain, RunsEnd};

/// Law: a unit's instruction does what the processor does by it wherever its program counter stands, for one that leads
/// to the next instruction, as that of each plain unit, of each store and of each checked load does; a skip passes over
/// a unit where the processor passes over an instruction, and does nothing else; a program counter is all that the
/// processor of this machine lacks; and a unit that ends the handler, by a fault too, changes nothing.
pub fn units_act_as_instructions()
    ensures counter { CounterComesBack }
    ensures sorts { UnitsAreOfTheirSorts }
    ensures effect { UnitsActAsInstructions }
    ensures skip { SkipsPassAsInstructions }
    ensures last { LastUnitsChangeNothing }
{}

/// Law: a kernel call leaves to others what is theirs. Every other domain keeps its blocks and every other module its
/// timers, each byte that changes is one that was given out and is cleared, and all but the answer, the queues, the
/// blocks, the timers and a payload that the receiver takes stays. A call whose block isn't the caller's or hasn't so
/// many bytes is refused, and changes nothing; one for such a block of the caller's is not refused.
pub fn kernel_calls_leave_others()
    ensures others { CallsLeaveOthers }
    ensures refused { RefusedCallsChangeNothing }
    ensures served { OwnBlocksAreServed }
{}

/// Law: which turn comes, in words. A packet that is due comes first, in a handler and outside, and then a timer that
/// is due. Else, outside a handler, an event that is due for the loader comes; else a message that waits is dispatched;
/// else the clock jumps to the next line of the script or to the next timer's moment; else the run ends. In a handler
/// the run ends where its budget is spent; else the watchdog strikes where the handler's is; else a unit runs.
pub fn turns_come_as_the_state_says()
    ensures { ChoicesAreFounded }
{}

/// Law: every turn from a good state keeps it good, is confined to what is the running domain's and to no unit, changes
/// the running domain only by a call of a slot that is bound, a return, a dispatch or the handler's end, unloads
/// cleanly and leaves the other modules and their units as they were, and leaves all else as it was where a packet
/// comes or a timer fires; and so does every turn of a run from a good state.
pub fn every_turn_is_lawful()
    ensures turns { TurnsAreLawful }
    ensures runs { RunsAreLawful }
{}

/// Law: no block of the heap is lost, and none has two holders. In every state that a run reaches each block is free,
/// or a loaded module's, or named by exactly one message that waits or is in hand, or the constants of exactly one
/// loaded module.
pub fn no_block_is_lost()
    ensures { NoBlockIsLost }
{}

/// Law: from every good state there is a run to an end, and no run goes on for ever: each turn leaves fewer to come. A
/// module whose code loops runs to the watchdog or to the end of the budget.
pub fn every_good_state_runs_to_an_end()
    ensures fewer { FewerTurnsRemain }
    ensures end { RunsEnd }
{}

/// Law: a file that came to a module is an image whose code no condition refuses, and the module has its face, its
/// constants, its seal, its units, and the units that begin at its words. The units of a rewriter's image are the one
/// list that its words spell. A file that was refused is no image, or the refusal is the first condition that its code
/// or its words meet.
pub fn files_are_as_prepared()
    ensures { FilesAreAsPrepared }
{}
