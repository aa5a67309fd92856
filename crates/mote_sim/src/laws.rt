//! Laws of the word run of an input, over the definitions alone.
ghost use Rattle.mote_sim.specs.WordLaws.{LinesAreLeftOut, RunsAreOne, TextsAreLeft};

/// Law: an input has one word run. Where its instructions are told, its lines are the same but for theirs, and so is its text but for the lines
/// that begin with `w` and a space.
pub fn word_runs_are_one()
    ensures one { RunsAreOne }
    ensures left_out { LinesAreLeftOut }
    ensures text { TextsAreLeft }
{}
