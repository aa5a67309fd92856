//! Laws of listings. Each is the contract of a function that does nothing.
ghost use Rattle.avr_list.specs.Laws.{LinesTell, SealIsUnseen};

/// A listing doesn't depend on the seal: a checked load has the text of its instruction.
pub fn seal_is_unseen()
    ensures { SealIsUnseen }
{}

/// Different units that may stand in one list have different lines at one place.
pub fn lines_tell()
    ensures { LinesTell }
{}
