//! The top call: it reads the words and the files that they name, and writes the answer.
//!
//! `mote_main` is all that the program does, over any shelf of files and any sink. With status Done the bytes
//! that it added to the sink are, of `run`, the text of the word run of the script and its images: the turns of the
//! machine of domains, with the words of each bank in place of its units. Without the lines of instructions it is a
//! run of the machine, and every turn of it is lawful. Of a tool, a command that takes one file, they are what its
//! definition makes of that file: of `list` the lines of the units of an image, of `upgrade`, `seal`, `rewrite` and `asm`
//! the file of an image, of `verify` a verdict, of `source` a text. Of `gen`, a command that takes no file, they sum up
//! a run of what its seed makes. Each other status has its cause, and every status says what was written.
//!
//! The definitions of the answers stand in `specs/`: `Outcome` and `Trace` say what the answer has to be, `Turns` and
//! `WordRun` what a word run is, `Tools` what each tool refuses, in its order, and what it makes, `Generating` and
//! `Summary` how a run is summed up, `Refusal` which line says why, `Reading` what the files come to, and `Ending` what
//! each status says of the shelf and of the sink. `play` makes the run of one mote, by which `run` makes its turns.
//!
//! A further tool is a variant of `Tool` with its name, one definition in `Tools` with its refusals in their order and
//! its output, and one function that meets it.
#![tactic(auto)]

mod answer;
mod assembling;
mod certain;
mod generating;
mod given;
mod judging;
mod laws;
mod listing;
mod one_line;
mod operands;
mod playing;
mod preparing;
mod reading;
mod request;
mod rewriting;
mod sealing;
mod summary;
mod tally;

pub use answer::mote_main;
pub use certain::certain_status;
pub use laws::word_runs_are_one;
pub use playing::play;
