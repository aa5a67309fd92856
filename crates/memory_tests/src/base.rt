//! Words, files in memory and sinks, each call made once with ample memory.

use mote_base::{MemShelf, MemSink, Shelf, Sink, Status, SureShelf, SureSink, Word, Words};
use std::test::Fail;

#[test]
fn words_stand_low_byte_first(rt: HostRuntime) -> Result<(), Fail> {
    assert!(rt; Words::new(b"\x81").is_none());
    let words = Words::new(b"\x81\xe4\x0e\x94").ok_or("an even length")?;
    assert_eq!(rt; words.len(), 2);
    for (i, want) in [0xE481u16, 0x940E].into_iter().enumerate() {
        if i < words.len() {
            assert_eq!(rt; words.at(i), want, "at {i}");
        }
    }
    Ok(())
}

#[test]
fn statuses_have_their_numbers(rt: HostRuntime) {
    assert_eq!(rt; Status::Done.code(), 0);
    assert_eq!(rt; Status::Usage.code(), 2);
    assert_eq!(rt; Status::Refused.code(), 3);
    assert_eq!(rt; Status::ReadFault.code(), 4);
    assert_eq!(rt; Status::WriteFault.code(), 5);
    assert_eq!(rt; Status::NoMemory.code(), 6);
}

#[test]
fn shelf_reads_the_first_file_of_a_name(rt: HostRuntime) -> Result<(), Fail> {
    let alloc = rt.alloc();
    let name = Word::from_text(alloc, "a")?;
    assert_eq!(rt; name.text(), "a");
    let mut files = Vec::new(alloc);
    for (name, text) in [("b", "678"), ("a", "12345"), ("a", "9")] {
        let bytes = text.as_bytes().to_vec(alloc)?;
        files.push((Word::from_text(alloc, name)?, bytes))?;
    }
    let mut shelf = MemShelf::new(alloc, files, vec![in alloc; 4]?)?;

    let mut buffer = [b'-'; 4];
    shelf.start(&name)?;
    assert_eq!(rt; shelf.read(&mut buffer)?, 4);
    assert_eq!(rt; shelf.read(&mut buffer)?, 1);
    assert_eq!(rt; buffer, *b"5234");
    assert_eq!(rt; shelf.read(&mut buffer)?, 0);
    assert!(rt; shelf.read(&mut buffer).is_err());
    Ok(())
}

#[test]
fn sure_shelf_gives_what_it_holds(rt: HostRuntime) -> Result<(), Fail> {
    let alloc = rt.alloc();
    let name = Word::from_text(alloc, "a")?;
    let file = (Word::from_text(alloc, "a")?, vec![in alloc; 7]?);
    let mut shelf = SureShelf::new(alloc, vec![in alloc; file]?)?;
    let mut buffer = [0; 4];
    shelf.start(&name)?;
    assert_eq!(rt; shelf.read(&mut buffer)?, 1);
    assert_eq!(rt; buffer, [7, 0, 0, 0]);
    Ok(())
}

#[test]
fn sinks_take_pieces(rt: HostRuntime) -> Result<(), Fail> {
    let alloc = rt.alloc();
    let mut kept = MemSink::new(alloc, 4, vec![in alloc; 1]?)?;
    let mut counted = SureSink::new();
    for (piece, taken) in [("ab", true), ("c", false), ("cde", false), ("cd", true)] {
        assert_eq!(rt; kept.put(piece.as_bytes()).is_ok(), taken, "{piece}");
        counted.put(piece.as_bytes())?;
    }
    assert_eq!(rt; kept.bytes(), b"abcd".as_slice());
    assert_eq!(rt; counted.total(), 8);
    Ok(())
}
