//! The law of the lines of a trace.
ghost use Rattle.trace_text.specs.Law.{LinesTell};

/// Law: different lines, whose numbers are in the ranges of their types, have different texts.
pub fn lines_tell()
    ensures { LinesTell }
{}
