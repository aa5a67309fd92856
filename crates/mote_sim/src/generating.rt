//! A run of what a seed makes: its lines are counted, and no text is made of them.
ghost use Rattle.std.specs.Prelude.{◌≡◌, ◌<◌, ◌*◌, ◌^◌, IfOk};
ghost use Rattle.mote_layout.specs.Limits.{turn_lines};
ghost use Rattle.domain_model.specs.Remaining.{goes_on, remaining};
ghost use Rattle.word_run.specs.FlashValue.{part};
ghost use Rattle.mote_core.specs.Value.{state_of};
ghost use Rattle.mote_gen.specs.Generated.{generated};
ghost use Rattle.mote_sim.specs.Ending.{Ends};
ghost use Rattle.mote_sim.specs.Generating.{SumsUp, SumsUpFrom};
ghost use Rattle.mote_sim.specs.Outcome.{Answers, Generates};
ghost use Rattle.mote_sim.specs.Pieces.{LeadsBySome};

use crate::playing::make_turn;
use crate::preparing::prepare;
use crate::summary::{Summary, put_summary};
use crate::tally::Tally;
use domain_model::{Lines, Turned};
use mote_base::{NoMemory, Sink, Status};
use mote_core::{Limits, Mote};
use mote_gen::{GENERATED_HANDLER, GENERATED_UNITS, make};
use std::alloc::Global;
use unit_run::FlashRunner;

fn goes_on(turned: Turned) -> bool
    ensures { result ≡ goes_on turned }
{
    matches!(turned, Turned::More)
}

// Makes turns of a mote that goes on until it ends, and sums its run up.
fn sum_up(mote: &mut Mote<FlashRunner>, lines: &mut Lines) -> Summary
    requires going { mote.old.ended ≡ Turned.More }
    requires few { turn_lines * remaining (state_of part mote.old) < 2 ^ 64 }
    ensures { SumsUpFrom mote.old mote.new result }
{
    let mut tally = Tally::none();
    let mut turned = Turned::More;
    'turns: while goes_on(turned) {
        lines.clear();
        turned = make_turn(mote, lines);
        tally.count_all(lines.items());
    }
    Summary {
        units: mote.total(),
        tally,
        ended: turned,
    }
}

// Runs what a seed makes, and sums the run up.
fn run_seed(alloc: Global, seed: u32) -> Result<Summary, NoMemory>
    ensures { IfOk result (λ summary. SumsUp (generated seed) summary) }
{
    let bundle = make(alloc, seed)?;
    let limits = Limits {
        units: GENERATED_UNITS,
        handler: GENERATED_HANDLER,
    };
    let mut mote = prepare(alloc, limits, false, bundle.script, &bundle.images)?;
    let mut lines = Lines::new(alloc)?;
    Ok(sum_up(&mut mote, &mut lines))
}

/// Runs what a seed makes, and puts the summary of the run.
pub fn generate<K: Sink>(alloc: Global, seed: u32, out: &mut K) -> Status
    ensures { Ends K.written K.faults (LeadsBySome K.leads) out.old out.new 0 0 (Answers (Generates seed)) result }
{
    match run_seed(alloc, seed) {
        Ok(summary) => put_summary(out, seed, &summary),
        Err(_) => Status::NoMemory,
    }
}
