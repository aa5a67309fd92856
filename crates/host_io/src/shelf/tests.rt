//! Readers that give little or fail, and real files.

use super::{FileShelf, read_some};
use mote_base::{Failed, Shelf, Word};
use std::io::{ErrorKind, Read};
use std::test::Fail;
use std::{fs, io};

/// What a read does.
#[derive(Clone, Copy)]
enum Turn {
    /// It gives these bytes, as far as there is room.
    Gives(&'static [u8]),
    Interrupted,
    Fails,
}

/// A reader that does these turns one after the other, and then is at its end.
#[derive(Drop)]
struct Tape {
    turns: &'static [Turn],
}

impl Tape {
    fn next_turn(&mut self) -> Turn {
        match self.turns {
            [] => Turn::Gives(b""),
            [turn, turns @ ..] => {
                self.turns = turns;
                *turn
            }
        }
    }
}

impl Read for Tape {
    fn read(&mut self, buf: &mut [u8]) -> io::Result<usize> {
        match self.next_turn() {
            Turn::Gives(bytes) => {
                let count = bytes.len().min(buf.len());
                buf[..count].copy_from_slice(&bytes[..count]);
                Ok(count)
            }
            Turn::Interrupted => Err(io::Error::from(ErrorKind::Interrupted)),
            Turn::Fails => Err(io::Error::from(ErrorKind::Other)),
        }
    }
}

const TAPE: &[Turn] = &[
    Turn::Gives(b"abc"),
    Turn::Interrupted,
    Turn::Gives(b"de"),
    Turn::Fails,
];

/// The answers of the reads one after the other, and what stands in the buffer behind each.
const READS: &[(Result<usize, Failed>, &[u8; 4])] = &[
    (Ok(3), b"abc-"),
    (Ok(2), b"dec-"),
    (Err(Failed), b"dec-"),
    (Ok(0), b"dec-"),
];

#[test]
fn an_interrupted_read_is_made_again_and_an_error_is_no_end(rt: HostRuntime) {
    let mut tape = Tape { turns: TAPE };
    let mut buffer = [b'-'; 4];
    for (answer, bytes) in READS {
        assert_eq!(rt; read_some(&mut tape, &mut buffer), *answer);
        assert_eq!(rt; buffer, **bytes);
    }
}

#[test]
fn real_files_are_read(rt: HostRuntime) -> Result<(), Fail> {
    let alloc = rt.alloc();
    fs::write(&rt, "edge.txt", "12345")?;
    fs::write(&rt, "empty.txt", "")?;
    let name = Word::from_text(alloc, "edge.txt")?;
    let empty = Word::from_text(alloc, "empty.txt")?;
    let missing = Word::from_text(alloc, "edge/missing.txt")?;
    let mut shelf = FileShelf::new(&rt);
    let mut buffer = [b'-'; 4];

    assert_eq!(rt; shelf.start(&missing), Err(Failed));
    shelf.start(&name)?;
    assert_eq!(rt; shelf.read(&mut buffer)?, 4);
    assert_eq!(rt; shelf.read(&mut buffer)?, 1);
    assert_eq!(rt; buffer, *b"5234");
    assert_eq!(rt; shelf.read(&mut buffer)?, 0);
    shelf.start(&empty)?;
    assert_eq!(rt; shelf.read(&mut buffer)?, 0);
    Ok(())
}

/// A folder is opened as a file is, and then gives no bytes and no end.
#[test]
fn a_folder_fails_at_its_read(rt: HostRuntime) -> Result<(), Fail> {
    let folder = Word::from_text(rt.alloc(), ".")?;
    let mut shelf = FileShelf::new(&rt);
    let mut buffer = [b'-'; 4];
    shelf.start(&folder)?;
    assert_eq!(rt; shelf.read(&mut buffer), Err(Failed));
    Ok(())
}
