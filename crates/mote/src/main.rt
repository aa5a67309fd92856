//! The program: it makes the shelf of the system's files and the sink of its standard output, makes the top call,
//! and ends with its status.
#![tactic(auto)]

use host_io::{FileShelf, WriterSink};
use mote_base::{Status, Word};
use mote_sim::mote_main;
use std::alloc::Global;
use std::env;
use std::io::ErrorKind;
use std::process::ExitCode;

// Where the words of the command line can't be had: without memory the program ends as the top call does, and at
// words that are no text as at words that are no command.
fn status_of(kind: ErrorKind) -> Status {
    match kind {
        ErrorKind::OutOfMemory => Status::NoMemory,
        _ => Status::Usage,
    }
}

// The words behind the program's name.
fn words_of(rt: &(impl env::Env + AllocGlobal), alloc: Global) -> Result<Vec<Word>, Status> {
    let args = env::args(rt).map_err(|e| status_of(e.kind()))?;
    let mut words = Vec::new(alloc);
    for arg in args.skip(1) {
        let word = Word::from_text(alloc, arg.as_str()).map_err(|_| Status::NoMemory)?;
        words.push(word).map_err(|_| Status::NoMemory)?;
    }
    Ok(words)
}

fn main(rt: HostRuntime) -> ExitCode {
    let alloc = rt.alloc();
    let mut shelf = FileShelf::new(&rt);
    let mut out = WriterSink::new(rt.stdout());
    let status = match words_of(&rt, alloc) {
        Ok(words) => mote_main(alloc, &words, &mut shelf, &mut out),
        Err(status) => status,
    };
    ExitCode::from(status.code())
}
