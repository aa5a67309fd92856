//! Words of the command line: which are a command, and which limits and files it has.

use crate::tables::{Table, answer, check_table};
use mote_base::{MemSink, Status};
use mote_sim::mote_main;
use std::test::Fail;

const NO_COMMANDS: &str = "\
# The module that says 65, under three names.
@ a image 1 code E481 940E F108 9508
@ - image 1 code E481 940E F108 9508
@ -i image 1 code E481 940E F108 9508
@ s lines 0 load 0

$2
mote: usage

$2 run
mote: usage

$2 run s
mote: usage

$2 run -x s a
mote: usage

$2 run s -i
mote: usage

$2 run --units 0 s a
mote: usage

$2 run --units=5 --units=6 s a
mote: usage

$2 run --units=5 --units 5 s a
mote: usage

$2 run --handler 5 s a --handler=5
mote: usage

$2 run --units 01 s a
mote: usage

$2 run --units=007 s a
mote: usage

$2 run --units -5 s a
mote: usage

$2 run --units - s a
mote: usage

$2 run --units +5 s a
mote: usage

$2 run --units 1000000001 s a
mote: usage

$2 run --units 18446744073709551617 s a
mote: usage

$2 run --handler 0 s a
mote: usage

$2 run --handler 1000001 s a
mote: usage

$2 run --units= s a
mote: usage

$2 run s a --units
mote: usage

$2 run --units -- s a
mote: usage

$2 run --unit 5 s a
mote: usage

$2 run --units5 s a
mote: usage

$2 run ---units 5 s a
mote: usage

$2 run --words --words s a
mote: usage

$2 run --words s a --words
mote: usage

$2 run --words=1 s a
mote: usage

$2 run --words= s a
mote: usage

$2 run --word s a
mote: usage

$2 run --units --words s a
mote: usage

$2 run --words s
mote: usage

$2 --words run s a
mote: usage

$2 -- run s a
mote: usage

$2 list --units 5 a
mote: usage

$2 list --handler=5 a
mote: usage

$2 list --words a
mote: usage

$2 list a --words
mote: usage

$2 gen --words 1
mote: usage

$2 gen 1 --words
mote: usage

$2 list -i
mote: usage

$2 list -- a a
mote: usage

$2 list --
mote: usage
";

const COMMANDS: &str = "\
# The module that says 65, under four names, and a script without events, by which no word is run.
@ a image 1 code E481 940E F108 9508
@ - image 1 code E481 940E F108 9508
@ -i image 1 code E481 940E F108 9508
@ --words image 1 code E481 940E F108 9508
@ s lines 0 load 0
@ quiet lines # nothing

$ run -- s -i
0 load 1 0 0000;0 run 1 0 0;1 say 1 65;2 done 1;3 end idle

$ run s -- -i
0 load 1 0 0000;0 run 1 0 0;1 say 1 65;2 done 1;3 end idle

$ run s -
0 load 1 0 0000;0 run 1 0 0;1 say 1 65;2 done 1;3 end idle

$ run s a --
0 load 1 0 0000;0 run 1 0 0;1 say 1 65;2 done 1;3 end idle

$4 run -- s --

$4 run -- s --units=5

$ list -- -i
0 0000 ldi r24,65;1 0001 kcall 8;2 0003 ret

$ list -
0 0000 ldi r24,65;1 0001 kcall 8;2 0003 ret

$ run --units 3 s a
0 load 1 0 0000;0 run 1 0 0;1 say 1 65;2 done 1;3 end idle

$ run --units 2 s a
0 load 1 0 0000;0 run 1 0 0;1 say 1 65;2 end budget

$ run s --units=2 a
0 load 1 0 0000;0 run 1 0 0;1 say 1 65;2 end budget

$ run s a --units 2
0 load 1 0 0000;0 run 1 0 0;1 say 1 65;2 end budget

$ run --handler 3 s a
0 load 1 0 0000;0 run 1 0 0;1 say 1 65;2 done 1;3 end idle

$ run --handler 2 s a
0 load 1 0 0000;0 run 1 0 0;1 say 1 65;2 fault watchdog 1 2 10ff;2 unload 1;2 end idle

$ run --handler=2 --units 3 -- s -i
0 load 1 0 0000;0 run 1 0 0;1 say 1 65;2 fault watchdog 1 2 10ff;2 unload 1;2 end idle

$ run s --units=2 a --handler 3
0 load 1 0 0000;0 run 1 0 0;1 say 1 65;2 end budget

$ run --units 2 --handler 2 s a
0 load 1 0 0000;0 run 1 0 0;1 say 1 65;2 end budget

$ run --units 1000000000 --handler 1000000 s a
0 load 1 0 0000;0 run 1 0 0;1 say 1 65;2 done 1;3 end idle

$ run --words quiet a
0 end idle

$ run quiet --words a
0 end idle

$ run quiet a --words
0 end idle

$ run --units 2 --words quiet --handler=3 a --
0 end idle

$ run --words -- quiet --words
0 end idle

$ run -- s --words
0 load 1 0 0000;0 run 1 0 0;1 say 1 65;2 done 1;3 end idle

$ list -- --words
0 0000 ldi r24,65;1 0001 kcall 8;2 0003 ret
";

#[test]
fn words_are_no_command(rt: HostRuntime) -> Result<(), Fail> {
    check_table(&rt, rt.alloc(), NO_COMMANDS)
}

#[test]
fn words_are_commands(rt: HostRuntime) -> Result<(), Fail> {
    check_table(&rt, rt.alloc(), COMMANDS)
}

/// No words are no command.
#[test]
fn no_words_are_no_command(rt: HostRuntime) -> Result<(), Fail> {
    let alloc = rt.alloc();
    let mut shelf = Table::read(alloc, COMMANDS)?.shelf(alloc)?;
    let mut out = MemSink::new(alloc, 1000, vec![in alloc]?)?;
    assert_eq!(rt; mote_main(alloc, &[], &mut shelf, &mut out), Status::Usage);
    assert_eq!(rt; out.bytes(), b"mote: usage\n".as_slice());
    Ok(())
}

/// A run has 64 images at most.
#[test]
fn a_run_has_at_most_64_images(rt: HostRuntime) -> Result<(), Fail> {
    let alloc = rt.alloc();
    for (images, status) in [(64usize, Status::Done), (65, Status::Usage)] {
        let mut line = String::from_str(alloc, "run s")?;
        for _ in 0..images {
            line.push_str(" a")?;
        }
        let mut shelf = Table::read(alloc, COMMANDS)?.shelf(alloc)?;
        let mut out = MemSink::new(alloc, 1000, vec![in alloc]?)?;
        assert_eq!(rt; answer(alloc, &line, &mut shelf, &mut out)?, status);
    }
    Ok(())
}
