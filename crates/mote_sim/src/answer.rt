//! The top call.
ghost use Rattle.std.specs.Prelude.{◌≡◌, ◌≤◌, ◌⊎◌, IsTrue, length, Some, None, Bool, true, false, List, ℕ};
ghost use Rattle.mote_base.specs.Causes.{Rose};
ghost use Rattle.mote_base.specs.Files.{Named};
ghost use Rattle.mote_base.specs.Written.{Grows};
ghost use Rattle.mote_layout.specs.Limits.{unit_limit, handler_limit};
ghost use Rattle.command_line.specs.Command.{command_of, takes, IsWithinLimits};
ghost use Rattle.domain_model.specs.Good.{ArePackets, AreTimes};
ghost use Rattle.domain_model.specs.Events.{event_times, loader_events, packet_times, packets_in};
ghost use Rattle.event_script.specs.Refusals.{events_of, refusal_of};
ghost use Rattle.mote_sim.specs.Asking.{AsksBy, AsksFront, Came};
ghost use Rattle.mote_sim.specs.Clauses.{WritesRun, WritesTool, WritesSummary, RefusesFiles, HasStatus, WritesFront};
ghost use Rattle.mote_sim.specs.Ending.{Ends, IsAnswer, Answered, CutOff};
ghost use Rattle.mote_sim.specs.Outcome.{Answers, AnswersOver, Runs, outcome, outcome_by, outcome_of_script, usage_line};
ghost use Rattle.mote_sim.specs.Reading.{Admits, AdmitsEach, bytes_of};
ghost use Rattle.mote_sim.specs.Tools.{TellsOf};
ghost use Rattle.mote_sim.specs.Trace.{run_input};
ghost use Rattle.mote_sim.specs.Pieces.{LeadsBySome};

use crate::assembling::{write_module, write_text};
use crate::generating::generate;
use crate::judging::judge;
use crate::listing::list;
use crate::one_line::{put_answer, put_script, put_size};
use crate::operands::Operands;
use crate::playing::play;
use crate::preparing::prepare;
use crate::reading::{ReadStop, read_files};
use crate::request::{Request, request_of};
use crate::rewriting::write_rewritten;
use crate::sealing::{seal, upgrade};
use command_line::{Kind, Tool};
use domain_model::Lines;
use event_script::{Script, ScriptError, parse_script};
use mote_base::{Shelf, Sink, Status, Word};
use mote_core::Limits;
use std::alloc::Global;

// Runs the events of a script over its images. All memory is taken before the first line is put.
fn run_script<K: Sink>(
    alloc: Global,
    limits: Limits,
    words: bool,
    script: Script,
    images: &[Vec<u8>],
    out: &mut K,
) -> Status
    requires units { limits.units ≤ unit_limit }
    requires handler { (1 ≤ limits.handler) × (limits.handler ≤ handler_limit) }
    requires packets { ArePackets (packets_in script.events.items) }
    requires packet_times { AreTimes (packet_times (packets_in script.events.items)) }
    requires times { AreTimes (event_times (loader_events script.events.items)) }
    ensures { Ends K.written K.faults (LeadsBySome K.leads) out.old out.new 0 0
        (Answers (Runs (run_input limits.units limits.handler (bytes_of images.now) script.events.items) words)) result }
{
    let mut mote = match prepare(alloc, limits, words, script, images) {
        Err(_) => return Status::NoMemory,
        Ok(mote) => mote,
    };
    let mut lines = match Lines::new(alloc) {
        Err(_) => return Status::NoMemory,
        Ok(lines) => lines,
    };
    match play(&mut mote, &mut lines, out) {
        Ok(()) => Status::Done,
        Err(_) => Status::WriteFault,
    }
}

// Runs a script over its images within these limits, where it is one.
fn run<K: Sink>(
    alloc: Global,
    limits: Limits,
    words: bool,
    script: &[u8],
    images: &[Vec<u8>],
    out: &mut K,
) -> Status
    requires units { limits.units ≤ unit_limit }
    requires handler { (1 ≤ limits.handler) × (limits.handler ≤ handler_limit) }
    ensures { Ends K.written K.faults (LeadsBySome K.leads) out.old out.new 0 0
        (Answers (outcome_of_script limits.units limits.handler words (refusal_of (length images.now) script.now)
        (events_of script.now) (bytes_of images.now))) result }
{
    match parse_script(alloc, script, images.len()) {
        Ok(script) => run_script(alloc, limits, words, script, images, out),
        Err(ScriptError::NoMemory) => Status::NoMemory,
        Err(refusal) => put_script(out, &refusal),
    }
}

// Makes what a tool makes of its file.
fn make<K: Sink>(alloc: Global, tool: Tool, file: &[u8], out: &mut K) -> Status
    ensures { Ends K.written K.faults (LeadsBySome K.leads) out.old out.new 0 0
        (TellsOf tool file.now) result }
{
    match tool {
        Tool::Listing => list(alloc, file, out),
        Tool::Upgrade => upgrade(alloc, file, out),
        Tool::Seal => seal(alloc, file, out),
        Tool::Rewriting => write_rewritten(alloc, file, out),
        Tool::Verdict => judge(alloc, file, out),
        Tool::Assembly => write_module(alloc, file, out),
        Tool::Source => write_text(alloc, file, out),
    }
}

// Answers a command whose files have been read.
fn perform<K: Sink>(alloc: Global, kind: Kind, files: &[Vec<u8>], out: &mut K) -> Status
    requires operands { IsTrue (takes kind (length files.now)) }
    requires limits { IsWithinLimits kind }
    ensures { Ends K.written K.faults (LeadsBySome K.leads) out.old out.new 0 0
        (Answers (outcome_by kind (bytes_of files.now))) result }
{
    match kind {
        Kind::Run {
            units,
            handler,
            words,
        } => match files {
            [script, images @ ..] => run(
                alloc,
                Limits { units, handler },
                words,
                script,
                images,
                out,
            ),
            [] => unreachable!(),
        },
        Kind::Tool(tool) => match files {
            [file] => make(alloc, tool, file, out),
            _ => unreachable!(),
        },
        Kind::Generation { seed } => generate(alloc, seed, out),
    }
}

// Reads the files of a command and answers it.
fn answer_command<F: Shelf, K: Sink>(
    alloc: Global,
    kind: Kind,
    names: &Operands<'_>,
    shelf: &mut F,
    out: &mut K,
) -> Status
    requires names { AdmitsEach (F.admits shelf.old) names.now }
    requires operands { IsTrue (takes kind (length names.now)) }
    requires limits { IsWithinLimits kind }
    ensures ends { Ends K.written K.faults (LeadsBySome K.leads) out.old out.new
        (F.faults shelf.old) (F.faults shelf.new)
        (AnswersOver (F.files shelf.old) (Came F.leads shelf.old shelf.new)
        (Some (record { kind = kind; files = names.now }))) result }
    ensures asks { AsksBy F.leads shelf.old shelf.new (Some (record { kind = kind; files = names.now })) result }
{
    match read_files(alloc, shelf, kind, names) {
        Ok(files) => perform(alloc, kind, &files, out),
        Err(ReadStop::TooLong(number)) => put_size(out, number),
        Err(ReadStop::Fault) => Status::ReadFault,
        Err(ReadStop::Memory) => Status::NoMemory,
    }
}

// The whole of the top call, by its ending.
fn answer<F: Shelf, K: Sink>(alloc: Global, words: &[Word], shelf: &mut F, out: &mut K) -> Status
    requires { Admits (F.admits shelf.old) (command_of words.now) }
    ensures ends { Ends K.written K.faults (LeadsBySome K.leads) out.old out.new
        (F.faults shelf.old) (F.faults shelf.new)
        (AnswersOver (F.files shelf.old) (Came F.leads shelf.old shelf.new) (command_of words.now)) result }
    ensures no_command { command_of words.now ≡ None → (result ≡ Status.Usage) ⊎ (result ≡ Status.WriteFault) }
    ensures asks { AsksBy F.leads shelf.old shelf.new (command_of words.now) result }
    ensures no_calls { command_of words.now ≡ None → shelf.new ≡ shelf.old }
{
    match request_of(words) {
        Request::Usage => put_answer(out, b"mote: usage\n", Status::Usage),
        Request::Command(kind, names) => answer_command(alloc, kind, &names, shelf, out),
    }
}

/// Does all that the program does: reads the words, reads the files that they name, and writes the answer.
///
/// The words are those behind the program's name. `run SCRIPT IMAGE..` runs a script over 1 to 64 images, which it loads
/// and unloads, and writes the trace. `--units N` limits the units of the run, and `--handler H` those of one handler,
/// beyond which the watchdog stops it; with `--words` the trace has a line for each instruction too. `list IMAGE` writes
/// the units of an image, a line for each. `upgrade IMAGE` writes the file of an image of the first version in the second,
/// and `seal IMAGE` that of an image which is neither rewritten nor sealed, sealed. `rewrite IMAGE` writes an original
/// image with each store, stack change and call of its code checked, and `verify IMAGE` says how many units the words of
/// such an image spell. `asm TEXT` writes the image of a module's text, and `source IMAGE` the text of an original image.
/// `gen SEED` runs the images and the script that the seed makes, and writes how many units ran, how many lines of a kind
/// a trace of the run has, and how it ended. All memory is taken before the first byte is written.
pub fn mote_main<F: Shelf, K: Sink>(
    alloc: Global,
    words: &[Word],
    shelf: &mut F,
    out: &mut K,
) -> Status
    // The shelf may be asked for the files of the command.
    requires { Admits (F.admits shelf.old) (command_of words.now) }

    // Done: every file was read whole. Of `run` the bytes added are the trace of the word run of them within its limits,
    // which is a lawful run of the machine, and of a tool they are what its definition makes of its file.
    ensures headline { result ≡ Status.Done →
        (units handler : ℕ) (told : Bool) (names : List (List ℕ)) (fs : List Named) (before : List ℕ) →
        command_of words.now ≡ Some (record { kind = Kind.Run units handler told; files = names }) →
        F.files shelf.old ≡ Some fs → K.written out.old ≡ Some before →
        WritesRun units handler told names fs before (K.written out.new) }
    ensures tools { result ≡ Status.Done →
        (tool : Tool) (names : List (List ℕ)) (fs : List Named) (before : List ℕ) →
        command_of words.now ≡ Some (record { kind = Kind.Tool tool; files = names }) →
        F.files shelf.old ≡ Some fs → K.written out.old ≡ Some before →
        WritesTool tool names fs before (K.written out.new) }

    // Of `gen` they are the summary of a lawful run of what its seed makes.
    ensures generator { result ≡ Status.Done → (seed : ℕ) (names : List (List ℕ)) (before : List ℕ) →
        command_of words.now ≡ Some (record { kind = Kind.Generation seed; files = names }) →
        K.written out.old ≡ Some before → WritesSummary seed before (K.written out.new) }

    // Usage: the words are no command. No command has another answer, but where the put of its line fails.
    ensures usage { result ≡ Status.Usage → (command_of words.now ≡ None)
        × Grows (K.written out.old) (K.written out.new) usage_line }
    ensures no_command { command_of words.now ≡ None → (result ≡ Status.Usage) ⊎ (result ≡ Status.WriteFault) }

    // Refused: a file is longer than its limit, the script of a run is refused, or a tool refuses its file.
    // What refuses it is the first of the tool's refusals, in the order of its definition.
    ensures refused { result ≡ Status.Refused → (fs : List Named) → F.files shelf.old ≡ Some fs →
        RefusesFiles (outcome (command_of words.now) fs) (K.written out.old) (K.written out.new) }

    // Where no call failed the status is the defined one, unless memory ran out.
    ensures complete { (fs : List Named) → F.files shelf.old ≡ Some fs →
        ¬ Rose (F.faults shelf.old) (F.faults shelf.new) → ¬ Rose (K.faults out.old) (K.faults out.new) →
        HasStatus (outcome (command_of words.now) fs) result ⊎ (result ≡ Status.NoMemory) }

    // Done, Usage and Refused wrote a whole output, and no call failed; also where the shelf tells no files. They
    // answer what came by the calls of the shelf, which read each file of the command to its end, or up to the first
    // that passed its limit.
    ensures answered { IsAnswer result → Answered K.written K.faults (LeadsBySome K.leads) out.old out.new
        (F.faults shelf.old) (F.faults shelf.new)
        (AnswersOver (F.files shelf.old) (Came F.leads shelf.old shelf.new) (command_of words.now)) result }
    ensures calm { IsAnswer result → (F.faults shelf.new ≡ F.faults shelf.old) × (K.faults out.new ≡ K.faults out.old) }

    // A fault of reading has its cause, and nothing was put. The last call of the shelf is the one that failed, and no
    // call was made that the words don't ask for.
    ensures read_fault { result ≡ Status.ReadFault → Rose (F.faults shelf.old) (F.faults shelf.new)
        × (out.new ≡ out.old) }
    ensures failed_call { result ≡ Status.ReadFault →
        AsksFront F.leads shelf.old shelf.new (command_of words.now) false }

    // Words that are no command ask for no call, and neither does `gen`.
    ensures no_calls { command_of words.now ≡ None → shelf.new ≡ shelf.old }
    ensures no_files { (seed : ℕ) (names : List (List ℕ)) →
        command_of words.now ≡ Some (record { kind = Kind.Generation seed; files = names }) → shelf.new ≡ shelf.old }

    // A fault of writing has its cause, a front of an output that answers was written, and no put follows.
    ensures write_fault { result ≡ Status.WriteFault → Rose (K.faults out.old) (K.faults out.new)
        × (F.faults shelf.new ≡ F.faults shelf.old) }
    ensures front { result ≡ Status.WriteFault → (fs : List Named) (before : List ℕ) →
        F.files shelf.old ≡ Some fs → K.written out.old ≡ Some before →
        WritesFront (outcome (command_of words.now) fs) before (K.written out.new) }
    ensures cut { result ≡ Status.WriteFault → CutOff K.written K.faults (LeadsBySome K.leads) out.old out.new
        (F.faults shelf.old) (F.faults shelf.new)
        (AnswersOver (F.files shelf.old) (Came F.leads shelf.old shelf.new) (command_of words.now)) }

    // Where memory ran out nothing was put, and no call of the shelf failed.
    ensures no_memory { result ≡ Status.NoMemory → out.new ≡ out.old }
    ensures no_failed_call { result ≡ Status.NoMemory →
        AsksFront F.leads shelf.old shelf.new (command_of words.now) true }

    // No count of faults falls.
    ensures later { (F.faults shelf.old ≤ F.faults shelf.new) × (K.faults out.old ≤ K.faults out.new) }
{
    answer(alloc, words, shelf, out)
}
