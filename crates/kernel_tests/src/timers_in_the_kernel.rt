//! Timers started and stopped by kernel calls, fired in a handler, dropped, and gone with their module. The steps are
//! told as `steps` says.

use crate::steps::check_steps;
use std::test::Fail;

const STARTS: &str = "\
load 1 8: 0
load 2 0: 1
begin 0: yes;0 run 1 0 0
call 7 0: 1
call 6 0 32: 0
call 6 1 32: 0
call 6 2 32: 0
call 6 3 32: 0
call 6 4 32: 0
call 6 5 32: 0
call 6 6 32: 0
call 6 7 32: 0
call 6 8 32: 0
call 6 9 32: 0
call 6 a 32: 0
call 6 b 32: 0
call 6 c 32: 0
call 6 d 32: 0
call 6 e 32: 0
call 6 f 32: 0
# No ticks are refused before one too many, and what is replaced isn't one more.
call 6 10 0: 2
call 6 3 0: 2
call 6 10 9: 1
call 6 3 9: 0
dump:;0 dump;d module 1 0 0200;d module 2 1 0000;d block 0200 8 1;d timer 1 3 9;d timer 1 0 50;d timer 1 1 50;\
    d timer 1 2 50;d timer 1 4 50;d timer 1 5 50;d timer 1 6 50;d timer 1 7 50;d timer 1 8 50;d timer 1 9 50;\
    d timer 1 10 50;d timer 1 11 50;d timer 1 12 50;d timer 1 13 50;d timer 1 14 50;d timer 1 15 50;d end
due: 9
call 7 3: 0
call 7 3: 1
due: 32
";

const FIRES: &str = "\
load 1 8: 0
load 2 0: 1
begin 0: yes;0 run 1 0 0
due: none
set 14 1
call 6 8 5: 0
set 14 0
call 6 7 5: 0
wait 0 4
fire: no
wait 0 6
fire: yes;6 queued 1 2
fire: yes;6 queued 1 2
fire: no
# The one that repeats is due anew from the moment at which it fired.
due: b
end: none
next: 0;6 run 1 2 0
bytes 100 101 102 103 104 105: 2 0 1 0 7 0
end: none
next: 0;6 run 1 2 0
bytes 100 101 102 103 104 105: 2 0 1 0 8 0
end: none
";

const DROPS: &str = "\
load 1 8: 0
load 2 0: 1
begin 0: yes;0 run 1 0 0
set 10 1
10*call 3 2 9: 0
set 14 0
call 6 1 1: 0
set 14 ff
call 6 2 ffff: 0
wait 1 0
# One goes though its message is dropped; the other stays.
fire: yes;65536 drop queue 1 2
due: ffff
fire: yes;65536 drop queue 1 2
dump:;65536 dump;d module 1 0 0200;d module 2 1 0000;d block 0200 8 1;d high 1 2 9 0000;d high 1 2 9 0000;\
    d high 1 2 9 0000;d high 1 2 9 0000;d high 1 2 9 0000;d high 1 2 9 0000;d high 1 2 9 0000;d high 1 2 9 0000;\
    d high 1 2 9 0000;d high 1 2 9 0000;d high 1 2 9 0000;d high 1 2 9 0000;d high 1 2 9 0000;d high 1 2 9 0000;\
    d high 1 2 9 0000;d high 1 2 9 0000;d timer 1 2 131071;d end
end: none
unload 0: yes
due: none
dump:;65536 dump;d module 2 1 0000;d end
";

#[test]
fn starts_and_stops(rt: HostRuntime) -> Result<(), Fail> {
    check_steps(&rt, rt.alloc(), STARTS)
}

#[test]
fn fires_in_a_handler(rt: HostRuntime) -> Result<(), Fail> {
    check_steps(&rt, rt.alloc(), FIRES)
}

#[test]
fn drops_and_goes_with_its_module(rt: HostRuntime) -> Result<(), Fail> {
    check_steps(&rt, rt.alloc(), DROPS)
}
