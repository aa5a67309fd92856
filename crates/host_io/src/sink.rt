//! A writer as a sink, as the standard output is of the program.
ghost use Rattle.std.specs.Prelude.{◌≡◌, ◌≤◌, length, take, ⊤, IfOk, OnOk, OnErr};
ghost use Rattle.std.specs.Io.KnownBytes.{Appends, Keeps};
ghost use Rattle.mote_base.specs.Written.{Grows, GrowsByPart};

use mote_base::{Failed, Sink};
use std::io;
use std::io::{ErrorKind, Write};

#[cfg(test)]
mod tests;

/// A writer, with the count of its failed puts. It tells what was written where the writer tells what it holds. The
/// standard output doesn't.
#[derive(Drop)]
pub struct WriterSink<W> {
    out: W,
    faults: u64,
}

impl<W: Write> WriterSink<W> {
    pub fn new(out: W) -> WriterSink<W>
        ensures faults { ⟦<WriterSink<W> as Sink>⟧.faults result ≡ 0 }
        ensures written { ⟦<WriterSink<W> as Sink>⟧.written result ≡ W.contents out }
    {
        WriterSink { out, faults: 0 }
    }
}

// One write. One that a signal cut short is made again.
fn write_once<W: Write>(out: &mut W, piece: &[u8]) -> io::Result<usize>
    ensures bound { IfOk result (λ n. n ≤ length piece.now) }
    ensures bytes { IfOk result (λ n. Appends (W.contents out.old) (W.contents out.new) (take n piece.now)) }
    ensures kept { OnErr result (Keeps (W.contents out.old) (W.contents out.new)) }
{
    for _ in 0..u64::MAX {
        match out.write(piece) {
            Err(e) if e.kind() == ErrorKind::Interrupted => {}
            answer => return answer,
        }
    }
    Err(io::Error::from(ErrorKind::Interrupted))
}

// Writes the whole piece, each byte once and in order. A write that takes nothing of a piece that isn't empty is a
// failure, as each error is; then a front of the piece was written.
fn write_whole<W: Write>(out: &mut W, piece: &[u8]) -> Result<(), Failed>
    ensures whole { OnOk result (Grows (W.contents out.old) (W.contents out.new) piece.now) }
    ensures part { OnErr result (GrowsByPart (W.contents out.old) (W.contents out.new) piece.now) }
{
    let mut rest = piece;
    while !rest.is_empty() {
        match write_once(out, rest) {
            Ok(0) => return Err(Failed),
            Ok(count) => rest = &rest[count..],
            Err(_) => return Err(Failed),
        }
    }
    Ok(())
}

impl<W: Write> Sink for WriterSink<W> {
    ghost written = { λ s. W.contents s.out };

    ghost faults = { λ s. s.faults };

    ghost leads = { λ _ _ _ _. ⊤ };

    fn put(&mut self, piece: &[u8]) -> Result<(), Failed> {
        let answer = write_whole(&mut self.out, piece);
        if answer.is_err() {
            self.faults = self.faults.saturating_add(1);
        }
        answer
    }
}
