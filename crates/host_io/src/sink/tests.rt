//! Writers that take little, nothing, or fail, and the standard output.

use super::{WriterSink, write_whole};
use mote_base::{Failed, Sink};
use std::io;
use std::io::{ErrorKind, Write};
use std::test::Fail;

/// What a write does.
#[derive(Clone, Copy)]
enum Turn {
    /// It takes so many bytes at most.
    Takes(usize),
    Interrupted,
    Fails,
}

/// A writer that does these turns one after the other, and then takes all.
#[derive(Drop)]
struct Pipe {
    turns: &'static [Turn],
    taken: Vec<u8>,
}

impl Pipe {
    fn next_turn(&mut self) -> Turn {
        match self.turns {
            [] => Turn::Takes(usize::MAX),
            [turn, turns @ ..] => {
                self.turns = turns;
                *turn
            }
        }
    }
}

impl Write for Pipe {
    fn write(&mut self, piece: &[u8]) -> io::Result<usize> {
        match self.next_turn() {
            Turn::Takes(most) => {
                let count = piece.len().min(most);
                self.taken.extend_from_slice(&piece[..count])?;
                Ok(count)
            }
            Turn::Interrupted => Err(io::Error::from(ErrorKind::Interrupted)),
            Turn::Fails => Err(io::Error::from(ErrorKind::Other)),
        }
    }

    fn flush(&mut self) -> io::Result<()> {
        Ok(())
    }
}

/// The turns of a writer to which `0123456` is written, whether all went out, and the bytes that did.
const ROWS: &[(&[Turn], Result<(), Failed>, &str)] = &[
    (&[], Ok(()), "0123456"),
    (&[Turn::Takes(3), Turn::Takes(3)], Ok(()), "0123456"),
    (&[Turn::Takes(3), Turn::Interrupted], Ok(()), "0123456"),
    (&[Turn::Takes(0)], Err(Failed), ""),
    (&[Turn::Takes(3), Turn::Takes(0)], Err(Failed), "012"),
    (&[Turn::Takes(3), Turn::Fails], Err(Failed), "012"),
];

#[test]
fn pieces_go_out_whole_or_the_put_fails(rt: HostRuntime) {
    for (turns, answer, taken) in ROWS {
        let mut pipe = Pipe {
            turns,
            taken: Vec::new(rt.alloc()),
        };
        assert_eq!(rt; write_whole(&mut pipe, b"0123456"), *answer);
        assert!(rt; *pipe.taken.as_slice() == *taken.as_bytes());
    }
}

#[test]
fn the_standard_output_takes_a_piece(rt: HostRuntime) -> Result<(), Fail> {
    let mut out = WriterSink::new(rt.stdout());
    out.put(b"edge\n")?;
    Ok(())
}
