//! Runs and listings of the top call, its answers to each failing call of shelf and sink, and limits of sizes.

use crate::files::file_bytes;
use crate::tables::{Table, answer, check_table};
use mote_base::{MemSink, NoMemory, Status, SureShelf, SureSink, Word};
use mote_sim::certain_status;
use std::alloc::Global;
use std::test::Fail;

pub(crate) const RUNS: &str = "\
# Module 1 says byte 65.
@ says image 1 code E481 940E F108 9508
@ s lines 0 load 0
$ run s says
0 load 1 0 0000;0 run 1 0 0;1 say 1 65;2 done 1;3 end idle

@ s hex 00x0
$ run s says
0 end idle

@ s lines 5 dump;4 dump
$3 run s says
refused script 2 2

@ s lines 0 load 1
$3 run s says
refused script 3 1

@ s lines # one;01 dump
$3 run s says
refused script 1 2

@ s hex 78
$3 run s says
refused script 1 1

# Module 1 of the second version, sealed, reads a byte.
@ sealed image 1 version 2 flags 2 code 9180 0300 9508
@ s lines 0 load 0
$ run s sealed
0 load 1 0 0000;0 run 1 0 0;0 fault load 1 0 0300;0 unload 1;1 end idle

# The same module without the seal.
@ unsealed image 1 version 2 code 9180 0300 9508
$ run s unsealed
0 load 1 0 0000;0 run 1 0 0;1 done 1;2 end idle

@ s hex 00x0
$ list sealed
0 0000 lds r24,0x0300;1 0002 ret

$ list unsealed
0 0000 lds r24,0x0300;1 0002 ret

@ s lines 0 load 0
# Module 2 stores to register 0.
@ strays image 2 code 930C 9508
$ run s strays
0 load 2 0 0000;0 run 2 0 0;0 fault store 2 0 0000;0 unload 2;1 end idle

# Module 2 stores to the first byte of its state of 8 bytes.
@ stores image 2 state 8 code E0A0 E0B2 920C 9508
$ run s stores
0 load 2 0 0200;0 run 2 0 0;3 done 2;4 end idle

# The same module stores to the byte behind its state.
@ passes image 2 state 8 code E0A8 E0B2 920C 9508
$ run s passes
0 load 2 0 0200;0 run 2 0 0;2 fault store 2 2 0208;2 unload 2;3 end idle

# Module 3 has the same code, which stores to its own state where that lies behind the other's.
@ stores_next image 3 state 8 code E0A8 E0B2 920C 9508
@ s lines 0 load 0;0 load 1
$ run s stores stores_next
0 load 2 0 0200;0 run 2 0 0;3 done 2;4 load 3 1 0208;4 run 3 0 0;7 done 3;8 end idle

# Module 2 says byte 66 at each message.
@ says_each image 2 code E482 940E F108 9508
# Module 1 posts a message of type 9 to module 2 at each.
@ posts image 1 code E082 E069 E000 940E F103 9508
@ s lines 0 load 0;0 load 1;0 unload 1
$ run s says_each posts
0 load 2 0 0000;0 run 2 0 0;1 say 2 66;2 done 2;3 load 1 1 0000;3 run 1 0 0;7 done 1;8 run 1 1 0;12 done 1;12 unload 1
13 end idle

@ s lines 0 load 0;0 load 1;9 unload 1
$ run s says_each posts
0 load 2 0 0000;0 run 2 0 0;1 say 2 66;2 done 2;3 load 1 1 0000;3 run 1 0 0;7 done 1;8 run 2 9 1;9 say 2 66;10 done 2
11 run 1 1 0;15 done 1;15 unload 1;16 end idle

@ s lines 0 load 0;0 load 0
$ run s says
0 load 1 0 0000;0 run 1 0 0;1 say 1 65;2 done 1;3 refused 0 4 0 0 0;3 end idle

# Sixteen modules that do nothing.
@ m1 image 1 code 9508
@ m2 image 2 code 9508
@ m3 image 3 code 9508
@ m4 image 4 code 9508
@ m5 image 5 code 9508
@ m6 image 6 code 9508
@ m7 image 7 code 9508
@ m8 image 8 code 9508
@ m9 image 9 code 9508
@ m10 image 10 code 9508
@ m11 image 11 code 9508
@ m12 image 12 code 9508
@ m13 image 13 code 9508
@ m14 image 14 code 9508
@ m15 image 15 code 9508
@ m16 image 16 code 9508
@ s lines 0 load 0;0 load 1;0 load 2;0 load 3;0 load 4;0 load 5;0 load 6;0 load 7;0 load 8;0 load 9;0 load 10;\
    0 load 11;0 load 12;0 load 13;0 load 14;0 load 15
$ run s m1 m2 m3 m4 m5 m6 m7 m8 m9 m10 m11 m12 m13 m14 m15 m16
0 load 1 0 0000;0 run 1 0 0;0 done 1;1 load 2 1 0000;1 run 2 0 0;1 done 2;2 load 3 2 0000;2 run 3 0 0;2 done 3
3 load 4 3 0000;3 run 4 0 0;3 done 4;4 load 5 4 0000;4 run 5 0 0;4 done 5;5 load 6 5 0000;5 run 6 0 0;5 done 6
6 load 7 6 0000;6 run 7 0 0;6 done 7;7 load 8 7 0000;7 run 8 0 0;7 done 8;8 load 9 8 0000;8 run 9 0 0;8 done 9
9 load 10 9 0000;9 run 10 0 0;9 done 10;10 load 11 10 0000;10 run 11 0 0;10 done 11;11 load 12 11 0000;11 run 12 0 0
11 done 12;12 load 13 12 0000;12 run 13 0 0;12 done 13;13 load 14 13 0000;13 run 14 0 0;13 done 14;14 load 15 14 0000
14 run 15 0 0;14 done 15;15 refused 15 5 0 0 0;15 end idle

@ s lines 0 unload 9
$ run s says
0 absent 9;0 end idle

# Module 1 posts to module 2 and says the answer.
@ posts_and_tells image 1 code E082 E069 E000 940E F103 940E F108 9508
@ s lines 0 load 0
$ run s posts_and_tells
0 load 1 0 0000;0 run 1 0 0;4 say 1 2;5 done 1;6 end idle

# Module 2 does nothing.
@ idles image 2 code 9508
# Module 1 posts seventeen times to module 2 and says the last answer.
@ fills image 1 code E069 E000 E082 940E F103 E082 940E F103 E082 940E F103 E082 940E F103 E082 940E F103 E082 \
    940E F103 E082 940E F103 E082 940E F103 E082 940E F103 E082 940E F103 E082 940E F103 E082 940E F103 E082 940E \
    F103 E082 940E F103 E082 940E F103 E082 940E F103 E082 940E F103 940E F108 9508
@ s lines 0 load 0;0 load 1
# The queue holds sixteen: the seventeenth post answers 1.
$ run s idles fills
0 load 2 0 0000;0 run 2 0 0;0 done 2;1 load 1 1 0000;1 run 1 0 0;37 say 1 1;38 done 1;39 run 2 9 1;39 done 2
40 run 2 9 1;40 done 2;41 run 2 9 1;41 done 2;42 run 2 9 1;42 done 2;43 run 2 9 1;43 done 2;44 run 2 9 1;44 done 2
45 run 2 9 1;45 done 2;46 run 2 9 1;46 done 2;47 run 2 9 1;47 done 2;48 run 2 9 1;48 done 2;49 run 2 9 1;49 done 2
50 run 2 9 1;50 done 2;51 run 2 9 1;51 done 2;52 run 2 9 1;52 done 2;53 run 2 9 1;53 done 2;54 run 2 9 1;54 done 2
55 end idle

# The image of the module that says 65, without its last byte.
@ says_cut hex 53 4F 53 4D 01 01 00 00 00 00 00 00 00 04 00 81 E4 0E 94 08 F1 08
@ s lines 0 load 0
$ run s says_cut
0 refused 0 1 1 22 0;0 end idle

# Module 1 begins with an indirect jump, which is refused.
@ jumps image 1 code 9409 9508
$ run s jumps
0 refused 0 2 2 0 1;0 end idle

# Module 1 runs past its end.
@ falls_off image 1 code E481
$ run s falls_off
0 refused 0 2 4 0 0;0 end idle

# Module 2 asks for 4000 bytes of state, of which the heap has 3072.
@ asks_much image 2 state 4000 code 9508
$ run s asks_much
0 refused 0 6 0 0 0;0 end idle

# Module 1 provides function 1 at word 0, subscribes to function 1 of module 2, and says 65 from word 1 on.
@ has_face image 1 handler 1 provides 1/iv00/0 subscribes 2/1/iv00 code 9508 E481 940E F108 9508
$ run s has_face
0 load 1 0 0000;0 run 1 0 0;1 say 1 65;2 done 1;3 end idle

$4 run s x
";

const LISTINGS: &str = "\
# Module 1 says byte 65.
@ says image 1 code E481 940E F108 9508
$ list says
0 0000 ldi r24,65;1 0001 kcall 8;2 0003 ret

# Module 2 may pass over a store.
@ skips image 2 code FF00 931C 9508
$ list skips
0 0000 sbrs r16,0;1 0001 st x,r17;2 0002 ret

# Module 1 calls itself.
@ calls image 1 code DFFF 9508
$ list calls
0 0000 rcall .0;1 0001 ret

# Module 1 provides function 1 at word 0, subscribes to function 1 of module 2, and says 65 from word 1 on.
@ has_face image 1 handler 1 provides 1/iv00/0 subscribes 2/1/iv00 code 9508 E481 940E F108 9508
$ list has_face
0 0000 ret;1 0001 ldi r24,65;2 0002 kcall 8;3 0004 ret

# Module 1 begins with an indirect jump, which is refused.
@ jumps image 1 code 9409 9508
$3 list jumps
refused code 2 0 1

# Module 1 runs past its end.
@ falls_off image 1 code E481
$3 list falls_off
refused code 4 0 0

# The image of the module that says 65, without its last byte.
@ says_cut hex 53 4F 53 4D 01 01 00 00 00 00 00 00 00 04 00 81 E4 0E 94 08 F1 08
$3 list says_cut
refused image 1 22

# Module 1 is marked as a rewriter's.
@ rewritten image 1 flags 1 code 9508
$3 list rewritten
refused verify 2 0

$2 list
mote: usage

$4 list b
";

const FAULTS: &str = "\
# Module 1 says byte 65.
@ says image 1 code E481 940E F108 9508
@ s lines 0 load 0
!read 0
$4 run s says

!read 1
$4 run s says

!read 2
$4 run s says

!read 3
$4 run s says

!read 4
$4 run s says

!read 5
$4 run s says

!read 6
$ run s says
0 load 1 0 0000;0 run 1 0 0;1 say 1 65;2 done 1;3 end idle

# A trace of less than a piece is one put.
!put 0
$5 run s says

!put 1
$ run s says
0 load 1 0 0000;0 run 1 0 0;1 say 1 65;2 done 1;3 end idle

# No put follows one that failed.
!put 0
$5 list says

!put 1
$5 list says
0 0000 ldi r24,65

!put 2
$5 list says
0 0000 ldi r24,65;1 0001 kcall 8

!put 3
$ list says
0 0000 ldi r24,65;1 0001 kcall 8;2 0003 ret
";

const SIZES: &str = "\
# An image to list has its limit too. Bytes that are all 0 begin no image.
@ a hex 00x65536
$3 list a
refused image 2 0

@ a hex 00x65537
$3 list a
refused size 0

# Files are tested in the order of the words.
@ says image 1 code E481 940E F108 9508
@ s hex 00x1048576
@ b hex 00x65536
$3 run s says b
refused script 1 1

@ s hex 00x1048577
@ b hex 00x65537
$3 run s says b
refused size 0

@ s hex 00x1048576
$3 run s says b
refused size 2

# A script that is too long is told before the next file is asked for, which is not there.
@ s hex 00x1048577
$3 run s x
refused size 0
";

#[test]
fn runs_are_the_worked_ones(rt: HostRuntime) -> Result<(), Fail> {
    check_table(&rt, rt.alloc(), RUNS)
}

#[test]
fn listings_are_the_worked_ones(rt: HostRuntime) -> Result<(), Fail> {
    check_table(&rt, rt.alloc(), LISTINGS)
}

#[test]
fn faults_are_answered_at_each_call(rt: HostRuntime) -> Result<(), Fail> {
    check_table(&rt, rt.alloc(), FAULTS)
}

#[test]
fn sizes_have_their_limits(rt: HostRuntime) -> Result<(), Fail> {
    check_table(&rt, rt.alloc(), SIZES)
}

/// Two modules post to each other at each message, without end.
const POSTS: &str = "\
@ a image 1 code E082 E069 E000 940E F103 9508
@ b image 2 code E081 E069 E000 940E F103 9508
@ s lines 0 load 0;0 load 1
";

/// The run ends at the budget, with 400,004 lines of so many bytes.
#[test]
fn endless_posts_end_at_the_budget(rt: HostRuntime) -> Result<(), Fail> {
    let alloc = rt.alloc();
    let mut shelf = Table::read(alloc, POSTS)?.shelf(alloc)?;
    let mut out = SureSink::new();
    assert_eq!(rt;
        answer(alloc, "run s a b", &mut shelf, &mut out)?,
        Status::Done
    );
    assert_eq!(rt; out.total(), 6_155_625);
    Ok(())
}

/// Its first lines, up to this many rounds of posts, by the clock.
fn posted(alloc: Global, rounds: u64) -> Result<String, NoMemory> {
    let mut text = String::new(alloc);
    text.push_str(
        "0 load 1 0 0000\n0 run 1 0 0\n4 done 1\n5 load 2 1 0000\n5 run 2 0 0\n9 done 2\n",
    )?;
    for round in 1..rounds {
        write!(
            text,
            "{round}0 run 1 9 2\n{round}4 done 1\n{round}5 run 2 9 1\n{round}9 done 2\n"
        )?;
    }
    Ok(text)
}

/// A long trace is put in pieces of at least 4096 bytes, each of whole lines: where a put fails those before it stand,
/// and no put follows.
#[test]
fn failed_put_ends_a_trace(rt: HostRuntime) -> Result<(), Fail> {
    let alloc = rt.alloc();
    let whole = posted(alloc, 400)?;
    let table = Table::read(alloc, POSTS)?;
    for (put, least) in [(1, 4096usize), (2, 8192), (3, 12_288)] {
        let mut shelf = table.shelf(alloc)?;
        let mut out = MemSink::new(alloc, 20_000, vec![in alloc; put]?)?;
        assert_eq!(rt;
            answer(alloc, "run s a b", &mut shelf, &mut out)?,
            Status::WriteFault,
            "put {put}"
        );
        assert!(rt; out.bytes().len() >= least, "put {put}");
        assert!(rt; out.bytes().ends_with(b"\n"), "put {put}");
        assert!(rt; whole.as_bytes().starts_with(out.bytes()), "put {put}");
    }
    Ok(())
}

/// Where no call can fail a listing is whole: lines of 18, 15 and 11 bytes.
#[test]
fn certain_listing_is_whole(rt: HostRuntime) -> Result<(), Fail> {
    let alloc = rt.alloc();
    let says = file_bytes(alloc, "image 1 code E481 940E F108 9508")?;
    let image = (Word::from_text(alloc, "a")?, says);
    let mut shelf = SureShelf::new(alloc, vec![in alloc; image]?)?;
    let mut out = SureSink::new();
    let words = [
        Word::from_text(alloc, "list")?,
        Word::from_text(alloc, "a")?,
    ];
    assert_eq!(rt;
        certain_status(alloc, &words, &mut shelf, &mut out),
        Status::Done
    );
    assert_eq!(rt; out.total(), 44);
    Ok(())
}
