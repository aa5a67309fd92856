//! A law of what is told.
ghost use Rattle.word_run.specs.Telling.{TellingAddsLines};

/// Law: a runner that tells its instructions does all that one does which tells none, and its lines are the same but
/// for theirs.
pub fn telling_adds_lines()
    ensures { TellingAddsLines }
{}
