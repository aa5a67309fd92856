//! The summary of a run, and its text.
ghost use Rattle.std.specs.Prelude.{◌≡◌, ◌≤◌, ◌+◌, ◌++◌, length};
ghost use Rattle.arrayvec.specs.ArrayVec.{array_vec_len};
ghost use Rattle.mote_base.specs.Digits.{long_width};
ghost use Rattle.mote_base.specs.Lines.{line_bytes};
ghost use Rattle.domain_model.specs.declared.event.Turned.TheVariants.{EndBudget};
ghost use Rattle.mote_sim.specs.Ending.{Ends};
ghost use Rattle.mote_sim.specs.Pieces.{LeadsBySome};
ghost use Rattle.mote_sim.specs.Summary.{end_line, entry, summary_text};

use crate::one_line::put_answer;
use crate::tally::Tally;
use arrayvec::ArrayVec;
use domain_model::Turned;
use mote_base::{Line, Sink, Status, add_text};
use trace_text::add_field;

/// What a run comes to.
#[derive(Clone, Copy, Debug)]
pub struct Summary {
    /// How many units ran.
    pub units: u64,
    /// How many lines of each kind a trace of it has.
    pub tally: Tally,
    /// How it ended.
    pub ended: Turned,
}

// Adds a line of a name and a number.
fn add_entry(text: &mut Line, name: &[u8], number: u64)
    requires { array_vec_len text.old + length name.now + long_width + 2 ≤ line_bytes }
    ensures items { text.new.items ≡ text.old.items ++ entry name.now number }
    ensures len { array_vec_len text.new ≤ array_vec_len text.old + length name.now + long_width + 2 }
{
    add_text(text, name);
    add_field(text, number);
    add_text(text, b"\n");
}

// The line of the end.
fn end_line(ended: Turned) -> &'static [u8]
    ensures line { result.now ≡ end_line ended }
    ensures short { length result.now ≤ length (end_line EndBudget) }
{
    match ended {
        Turned::More => b"",
        Turned::EndIdle => b"end idle\n",
        Turned::EndBudget => b"end budget\n",
    }
}

// The text of a summary, with the seed of the run.
fn summary_text(seed: u32, summary: &Summary) -> Line
    ensures { result.items ≡ summary_text seed summary.now }
{
    let mut text: Line = ArrayVec::new();
    let tally = summary.tally;
    add_entry(&mut text, b"seed", seed.into());
    add_entry(&mut text, b"units", summary.units);
    add_entry(&mut text, b"load", tally.loads);
    add_entry(&mut text, b"run", tally.runs);
    add_entry(&mut text, b"queued", tally.queued);
    add_entry(&mut text, b"drop", tally.drops);
    add_entry(&mut text, b"fault", tally.faults);
    add_text(&mut text, end_line(summary.ended));
    text
}

/// Puts a summary, with the seed of the run, as the whole output.
pub fn put_summary<K: Sink>(out: &mut K, seed: u32, summary: &Summary) -> Status
    ensures { Ends K.written K.faults (LeadsBySome K.leads) out.old out.new 0 0
        (λ s text. (s ≡ Status.Done) × (text ≡ summary_text seed summary.now)) result }
{
    let text = summary_text(seed, summary);
    put_answer(out, text.as_slice(), Status::Done)
}
