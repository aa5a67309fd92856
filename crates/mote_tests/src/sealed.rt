//! Runs of sealed images, whose loads are checked.

use crate::files::file_bytes;
use crate::tables::{answer, check_table, load_shelf};
use mote_base::{MemSink, Status};
use std::alloc::Global;
use std::test::Fail;

/// One module each, loaded at time 0.
pub(crate) const LOADS: &str = "\
@ s lines 0 load 0

# Module 1 reads a byte of the heap that is not its own, and without the seal may.
@ a image 1 version 2 flags 2 code 9180 0300 9508
$ run s a
0 load 1 0 0000;0 run 1 0 0;0 fault load 1 0 0300;0 unload 1;1 end idle

@ a image 1 version 2 code 9180 0300 9508
$ run s a
0 load 1 0 0000;0 run 1 0 0;1 done 1;2 end idle

# It reads the message that it handles.
@ a image 1 version 2 flags 2 code 9180 0100 9508
$ run s a
0 load 1 0 0000;0 run 1 0 0;1 done 1;2 end idle

# It reads the byte at SP.
@ a image 1 version 2 flags 2 code B7AD B7BE 918C 9508
$ run s a
0 load 1 0 0000;0 run 1 0 0;2 fault load 1 2 10ff;2 unload 1;3 end idle

# It reads the byte that it pushed, and again when it has taken it back.
@ a image 1 version 2 flags 2 code E481 938F 9180 10FF 940E F108 918F 9180 10FF 9508
$ run s a
0 load 1 0 0000;0 run 1 0 0;3 say 1 65;5 fault load 1 5 10ff;5 unload 1;6 end idle

# It reads its state until it frees it.
@ a image 1 version 2 flags 2 state 8 code 9100 0207 940E F101 9180 0200 9508
$ run s a
0 load 1 0 0200;0 run 1 0 0;2 fault load 1 2 0200;2 unload 1;3 end idle

# It reads a block that it asked for, which is cleared, up to its end.
@ a image 1 version 2 flags 2 code E089 940E F100 9180 020F 940E F108 9180 0210 9508
$ run s a
0 load 1 0 0000;0 run 1 0 0;3 say 1 0;4 fault load 1 4 0210;4 unload 1;5 end idle

# It reads the bytes of its pointers by one of them, and the last byte of the page of registers.
@ a image 1 version 2 flags 2 code E1AA E0B0 918D 940E F108 918C 940E F108 9180 00FF 9508
$ run s a
0 load 1 0 0000;0 run 1 0 0;3 say 1 26;5 say 1 0;7 done 1;8 end idle
";

/// Sealed modules beside others, and in the middle of a handler.
pub(crate) const BESIDE: &str = "\
# The state of another module is not module 1's, nor are its constants; without the seal it reads both.
@ b image 2 version 2 state 8 const 42 code 9508
@ a image 1 version 2 flags 2 code 9180 0200 9508
@ c image 1 version 2 flags 2 code 9180 0208 9508
@ d image 1 version 2 code 9100 0200 9180 0208 940E F108 9508
@ s lines 0 load 0;0 load 1;0 load 2;0 load 3;0 dump
$ run s b a c d
0 load 2 0 0200;0 run 2 0 0;0 done 2;1 load 1 1 0000;1 run 1 0 0;1 fault load 1 0 0200;1 unload 1
2 load 1 1 0000;2 run 1 0 0;2 fault load 1 0 0208;2 unload 1;3 load 1 1 0000;3 run 1 0 0;5 say 1 66;6 done 1
7 dump;d module 2 0 0200;d module 1 1 0000;d block 0200 8 2;d block 0208 8 k;d end;7 end idle

# Module 1 takes a packet's payload, and says its second byte and the packet's length.
@ a image 1 version 2 flags 2 code 940E F105 01DC 918D 918D 940E F108 9180 0107 940E F108 9508
@ s lines 0 load 0;9 radio 1 7 aabb;20 dump
$ run s a
0 load 1 0 0000;0 run 1 0 0;4 say 1 0;6 say 1 0;7 done 1;9 queued 1 7;9 run 1 7 255;13 say 1 187;15 say 1 2;16 done 1
20 dump;d module 1 0 0000;d block 0200 8 1;d end;20 end idle

# It may not read a payload that it has not taken, which goes with it. The packet for module 2 stays.
@ a image 1 version 2 flags 2 code 9100 0100 3007 F429 91A0 0109 91B0 010A 918C 9508
@ b image 2 code 9508
@ s lines 0 load 0;0 load 1;9 radio 1 7 aabb;9 radio 2 7 cc;9 dump;15 dump
$ run s a b
0 load 1 0 0000;0 run 1 0 0;3 done 1;4 load 2 1 0000;4 run 2 0 0;4 done 2;9 queued 1 7;9 queued 2 7;9 dump
d module 1 0 0000;d module 2 1 0000;d block 0200 8 k;d block 0208 8 k;d low 255 1 7 0200;d low 255 2 7 0208;d end
9 run 1 7 255;14 fault load 1 5 0200;14 unload 1;15 dump;d module 2 1 0000;d block 0208 8 k;d low 255 2 7 0208;d end
15 run 2 7 255;15 done 2;16 end idle

# A seal of the first version is made with the same code.
@ a image 1 code 918C 9508
@ b image 1 version 2 flags 2 code 918C 9508
$ seal a
= b

# Rewritten, its load has a guard.
@ a image 1 version 2 flags 2 code 9180 0300 9508
@ b image 1 version 2 flags 3 code 940E F380 9180 0300 940C F096
@ s lines 0 load 0
$ rewrite a
= b

$ run s b
0 load 1 0 0000;0 run 1 0 0;0 fault load 1 0 0300;0 unload 1;1 end idle
";

#[test]
fn loads_are_the_worked_ones(rt: HostRuntime) -> Result<(), Fail> {
    check_table(&rt, rt.alloc(), LOADS)
}

#[test]
fn loads_beside_others_are_the_worked_ones(rt: HostRuntime) -> Result<(), Fail> {
    check_table(&rt, rt.alloc(), BESIDE)
}

/// The forms of a load into R24: the low register of the pointer, by how much the address is greater than it, and the
/// words. LDS has no pointer, and its address as its second word.
const FORMS: [(u16, u16, &str); 12] = [
    (26, 0, "918C"),
    (26, 0, "918D"),
    (26, 0xFFFF, "918E"),
    (28, 0, "9189"),
    (28, 0xFFFF, "918A"),
    (28, 0, "8188"),
    (28, 63, "AD8F"),
    (30, 0, "9181"),
    (30, 0xFFFF, "9182"),
    (30, 0, "8180"),
    (30, 63, "AD87"),
    (26, 0, "9180"),
];

/// The edges of what a module may load that has 8 bytes of state at 0x0200, three constants behind it, and one byte on
/// its stack, and the byte there where it may.
const EDGES: [(u16, Option<u8>); 18] = [
    (0x0000, Some(0)),
    (0x00FF, Some(0)),
    (0x0100, Some(0)),
    (0x0102, Some(1)),
    (0x010F, Some(0)),
    (0x0110, None),
    (0x01FF, None),
    (0x0200, Some(0)),
    (0x0207, Some(0)),
    (0x0208, Some(65)),
    (0x020F, Some(0)),
    (0x0210, None),
    (0x0DFF, None),
    (0x0E00, None),
    (0x10FE, None),
    (0x10FF, Some(9)),
    (0x1100, None),
    (0xFFFF, None),
];

/// The word that loads a constant into a register from R16 on.
fn ldi(register: u16, byte: u16) -> u16 {
    0xE000 | (byte & 0xF0) << 4 | (register & 0x0F) << 4 | byte & 0x0F
}

/// The image of a module that pushes a 9, puts an address into a pointer, loads by a form, and says what it loaded:
/// E009 930F, two words, the load, 940E F108 910F 9508.
fn loader(alloc: Global, form: (u16, u16, &str), address: u16) -> Result<Vec<u8>, Fail> {
    let (register, above, word) = form;
    let pointer = address.wrapping_sub(above);
    let low = ldi(register, pointer & 0xFF);
    let high = ldi(register | 1, pointer >> 8);
    let mut told = String::from_str(
        alloc,
        "image 1 version 2 flags 2 state 8 const 41 42 43 code E009 930F",
    )?;
    write!(told, " {low:04X} {high:04X} {word}")?;
    if word == "9180" {
        write!(told, " {address:04X}")?;
    }
    told.push_str(" 940E F108 910F 9508")?;
    file_bytes(alloc, &told)
}

/// Its trace, where a byte is loaded, and where the load is stopped.
fn loaded(alloc: Global, address: u16, byte: Option<u8>) -> Result<String, Fail> {
    let mut text = String::from_str(alloc, "0 load 1 0 0200\n0 run 1 0 0\n")?;
    match byte {
        Some(byte) => write!(text, "5 say 1 {byte}\n7 done 1\n8 end idle\n")?,
        None => write!(
            text,
            "4 fault load 1 4 {address:04x}\n4 unload 1\n5 end idle\n"
        )?,
    }
    Ok(text)
}

/// Each form of a load is tested at the address that it reads.
#[test]
fn loads_have_their_edges(rt: HostRuntime) -> Result<(), Fail> {
    let alloc = rt.alloc();
    for form in FORMS {
        for (address, byte) in EDGES {
            let mut shelf = load_shelf(alloc, loader(alloc, form, address)?.as_slice())?;
            let mut out = MemSink::new(alloc, 1000, vec![in alloc]?)?;
            assert_eq!(rt;
                answer(alloc, "run s a", &mut shelf, &mut out)?,
                Status::Done
            );
            let text = loaded(alloc, address, byte)?;
            assert_eq!(rt; out.bytes(), text.as_bytes(), "{} at {address:04x}", form.2);
        }
    }
    Ok(())
}
