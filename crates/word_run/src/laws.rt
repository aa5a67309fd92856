//! The laws of the words. Each stands over the definitions alone.
ghost use Rattle.word_run.specs.Laws.{FaultsComeFirst, FewInstructionsSuffice, LinesAreFew, WordsRunAsUnits, WritesLieInside};

/// Law: words that spell units run as these do, but for the values of free bytes and the lines of the instructions.
/// Each of at most four instructions of the bank can be run, and they write no more lines than a unit may.
pub fn words_run_as_units()
    ensures units { WordsRunAsUnits }
    ensures can { FewInstructionsSuffice }
    ensures few { LinesAreFew }
{}

/// Law: each byte that an instruction of the bank or a guard writes lies between the red zone's start and the stack
/// pointer as the unit began, or is the one that its store is permitted. In a unit that faults nothing has run but one
/// instruction, and where that has written it was the CALL of an entry.
pub fn words_write_inside()
    ensures inside { WritesLieInside }
    ensures faults { FaultsComeFirst }
{}
