//! Over a shelf and a sink that never fail there is no fault.
ghost use Rattle.std.specs.Prelude.{◌≡◌, ◌⊎◌};
ghost use Rattle.command_line.specs.Command.{command_of};
ghost use Rattle.mote_sim.specs.Clauses.{HasStatus};
ghost use Rattle.mote_sim.specs.Outcome.{outcome};
ghost use Rattle.mote_sim.specs.Reading.{Admits};

use crate::answer::mote_main;
use mote_base::{Shelf, Sink, Status, SureShelf, SureSink, Word};
use std::alloc::Global;

/// The top call over files in memory and a sink that counts: neither can fail, so neither fault is answered, and
/// the status is that of the words and the files, unless memory ran out.
pub fn certain_status(
    alloc: Global,
    words: &[Word],
    shelf: &mut SureShelf,
    out: &mut SureSink,
) -> Status
    requires { Admits (⟦<SureShelf as Shelf>⟧.admits shelf.old) (command_of words.now) }
    ensures no_read_fault { result ≡ Status.ReadFault → ⊥ }
    ensures no_write_fault { result ≡ Status.WriteFault → ⊥ }
    ensures status { HasStatus (outcome (command_of words.now) shelf.old.files) result ⊎ (result ≡ Status.NoMemory) }
{
    mote_main(alloc, words, shelf, out)
}
