//! Runs whose instructions are told.

use crate::tables::check_table;
use crate::turns::SAYS;
use domain_model::Lines;
use event_script::parse_script;
use mod_loader::Ready;
use mote_base::MemSink;
use mote_core::{Limits, Mote};
use mote_sim::play;
use std::alloc::Global;
use std::test::Fail;
use unit_run::FlashRunner;

const ROOM: usize = 1000;

/// What module 1 writes that says byte 65.
const SAID: &[u8] = b"0 load 1 0 0000\n0 run 1 0 0\n1 say 1 65\n2 done 1\n3 end idle\n";

/// A mote that loads it at time 0.
fn saying(alloc: Global) -> Result<Mote<FlashRunner>, Fail> {
    let image = Ready::new(alloc, SAYS)?;
    let script = parse_script(alloc, b"0 load 0\n", 1)?;
    let limits = Limits {
        units: 100,
        handler: 100,
    };
    let runner = FlashRunner::new(alloc, false)?;
    Ok(Mote::new(alloc, vec![in alloc; image]?, script, limits, runner)?)
}

const TOLD: &str = "\
@ s lines 0 load 0

# Module 1 says byte 65.
@ says image 1 code E481 940E F108 9508
$ run --words s says
0 load 1 0 0000;0 run 1 0 0;w 4000 e481 10ff 00;w 4001 940e 10ff 00;1 say 1 65;w 4003 940c 10ff 00;2 done 1;3 end idle

# Module 2 stores to register 0: its guard is called, and the store does not run.
@ strays image 2 code 930C 9508
$ run --words s strays
0 load 2 0 0000;0 run 2 0 0;w 4000 940e 10ff 00;0 fault store 2 0 0000;0 unload 2;1 end idle

$ run --words --units 1 s says
0 load 1 0 0000;0 run 1 0 0;w 4000 e481 10ff 00;1 end budget

# Module 1 pushes a byte and pops it, and stores to its state of 8 bytes, and behind it.
@ pushes image 1 state 8 code 920F 900F E0A7 E0B2 920D 920C 9508
$ run --words s pushes
0 load 1 0 0200;0 run 1 0 0;w 4000 940e 10ff 00;w 4002 920f 10ff 00;w 4003 940e 10fe 00;w 4005 900f 10fe 00
w 4006 e0a7 10ff 00;w 4007 e0b2 10ff 00;w 4008 940e 10ff 00;w 400a 920d 10ff 00;w 400b 940e 10ff 00
5 fault store 1 5 0208;5 unload 1;6 end idle

# Module 1 has a unit of each kind but a load. Its short forms: a skip over an instruction, a branch. Its long ones: a skip over a guarded push,
# a branch before a jump.
@ kinds image 1 state 8 subscribes 9/0/iv00 code E005 01DC 930C 930F 911F D000 900F 900F FD00 0000 FF00 930F F409 0000 \
    F011 C000 D00C B7CD B7DE BFDE BFCD 940E F10B 940E F200 E0E0 EFF2 9509 9508 9508
$ run --words s kinds
0 load 1 0 0200;0 run 1 0 0;w 4000 e005 10ff 00;w 4001 01dc 10ff 00
w 4002 940e 10ff 00;w 4004 930c 10ff 00;w 4005 940e 10ff 00;w 4007 930f 10ff 00
w 4008 940e 10fe 00;w 400a 911f 10fe 00;w 400b 940e 10ff 00
w 400d 940e 10fd 00;w 400f 900f 10fd 00;w 4010 940e 10fe 00;w 4012 900f 10fe 00
w 4013 fd00 10ff 00;w 4014 0000 10ff 00;w 4015 ff00 10ff 00;w 4017 c003 10ff 00
w 401b f409 10ff 00;w 401d f409 10ff 00;w 401f c000 10ff 00
w 4020 940e 10ff 00;w 4022 c010 10fd 00;w 4033 940c 10fd 00
w 4023 b7cd 10ff 00;w 4024 b7de 10ff 00;w 4025 940e 10ff 00;w 4027 bfde 10ff 00;w 4028 bfcd 10ff 00
w 4029 940e 10ff 00;w 402b 940e 10ff 00;20 unbound 1 0;w 402d e0e0 10ff 00;w 402e eff2 10ff 00
w 402f 940e 10ff 00;23 unbound 1 0;w 4031 940c 10ff 00;24 done 1;25 end idle

# A load of a sealed module is guarded.
@ sealed image 1 version 2 flags 2 state 8 code 01DC 911C 9508
$ run --words s sealed
0 load 1 0 0200;0 run 1 0 0;w 4000 01dc 10ff 00;w 4001 940e 10ff 00;w 4003 911c 10ff 00;w 4004 940c 10ff 00;2 done 1;3 end idle

# Module 1 says the two bytes below SP after a kernel call: where its CALL would have returned to, in the words that run.
@ peeks image 1 code 940E F10B 9180 10FF 940E F108 9180 10FE 940E F108 9508
$ run s peeks
0 load 1 0 0000;0 run 1 0 0;2 say 1 2;4 say 1 64;5 done 1;6 end idle

# A script that is refused runs nothing.
@ s lines 5 dump;4 dump
$3 run --words s says
refused script 2 2
";

#[test]
fn each_instruction_is_told_before_what_it_causes(rt: HostRuntime) -> Result<(), Fail> {
    check_table(&rt, rt.alloc(), TOLD)
}

/// A mote that has been played stands at its end, and plays nothing more.
#[test]
fn a_mote_plays_to_its_end(rt: HostRuntime) -> Result<(), Fail> {
    let alloc = rt.alloc();
    let mut mote = saying(alloc)?;
    let mut lines = Lines::new(alloc)?;
    let mut out = MemSink::new(alloc, ROOM, vec![in alloc]?)?;
    assert!(rt; play(&mut mote, &mut lines, &mut out).is_ok());
    assert!(rt; out.bytes() == SAID);
    assert_eq!(rt; mote.total(), 3);
    assert!(rt; play(&mut mote, &mut lines, &mut out).is_ok());
    assert!(rt; out.bytes() == SAID);
    Ok(())
}
