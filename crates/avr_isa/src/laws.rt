//! Laws of the instruction table. Each is the contract of a function that does nothing.

ghost use Rattle.avr_isa.specs.Laws.{DecodesRows, LengthsAreTheRows, OneWordStandsAlone, RefusesCutShort, RefusesUndefined, RowsAreEncodable, RowsAreUnique, WordsAreUnique};

/// Words have at most one row of the table.
pub fn rows_are_unique()
    ensures { RowsAreUnique }
{}

/// An instruction of one word is the same whatever word follows.
pub fn one_word_stands_alone()
    ensures { OneWordStandsAlone }
{}

/// The number of words of an instruction is its own: two where it has a second word, else one.
pub fn lengths_are_the_rows()
    ensures { LengthsAreTheRows }
{}

/// The operands of an instruction that words stand for are in their row's ranges.
pub fn rows_are_encodable()
    ensures { RowsAreEncodable }
{}

/// An instruction has at most one row, so the words that stand for it are determined.
pub fn words_are_unique()
    ensures { WordsAreUnique }
{}

/// The function `decoded` of the definitions says of all words what the table says.
pub fn decoded_is_the_table()
    ensures rows { DecodesRows }
    ensures undefined { RefusesUndefined }
    ensures needs_second { RefusesCutShort }
{}
