//! Each kernel call with each answer, the turn calls, and what a kernel tells of itself. The steps are told as `steps`
//! says.

use crate::steps::check_steps;
use std::test::Fail;

/// Module 1, with 8 bytes of state, and module 2, with none; a handler of module 1 runs.
const GIVES: &str = "\
load 1 8: 0
load 2 0: 1
begin 0: yes;0 run 1 0 0
# What it asks for is cleared.
put 208 7
put dff 7
call 0 c00: 0
call 0 bf8: 208
call 0 0: 0
call 0 1: 0
bytes 208 dff 18 19 5d 5e: 0 0 0 0 ff 10
stores dff: yes
stores e00: no
";

const FREES: &str = "\
load 1 8: 0
load 2 0: 1
begin 0: yes;0 run 1 0 0
put 200 9
stores 200: yes
call 1 201: owner 201
# The state block goes like any other, and its module may not store there any more.
call 1 200: 0
call 1 200: owner 200
stores 200: no
bytes 200: 9
";

const HANDS_ON: &str = "\
load 1 8: 0
load 2 0: 1
begin 0: yes;0 run 1 0 0
call 2 200 1: 0
stores 200: yes
call 2 200 3: 1
stores 200: yes
call 2 200 2: 0
stores 200: no
call 2 200 1: owner 200
call 2 200 2: owner 200
call 2 200 3: owner 200
";

const TELLS: &str = "\
wait 1 5
load 1 8: 0
load 2 0: 1
begin 0: yes;65541 run 1 0 0
call 9 1 2: 5
call b 902 2: 1
call 8 941 2: 0;65541 say 1 65
";

const POSTS: &str = "\
load 1 8: 0
load 2 0: 1
begin 0: yes;0 run 1 0 0
set 14 942
set 12 1234
call 3 3 9: 2
10*call 3 2 9: 0
call 3 2 9: 1
set 10 ff01
call 3 2 a: 0
end: none
# The high queue comes before the low one.
next: 1;0 run 2 10 1
bytes 100 101 102 103 104 105 106: a 1 2 0 42 34 12
bytes 14 16 17 18 19: 0 0 1 0 0
end: none
next: 1;0 run 2 9 1
bytes 100 101 102 103 104 105 106: 9 1 2 0 42 34 12
bytes 14 16 17 18 19: 0 0 1 0 0
end: none
";

const LEAVES: &str = "\
load 1 8: 0
load 2 0: 1
begin 0: yes;0 run 1 0 0
call 3 2 9: 0
end: none
finish 0: yes;0 run 1 1 0
end: 1
waiting: yes
unload 0: yes
waiting: no
row 0: none
row 1: 2 0 3
load 1 8: 0
row 0: 1 200 3
";

const ADMITS: &str = "\
load 1 c01: room
load 1 8: 0
load 2 8: 1
load 3 8: 2
load 4 8: 3
load 5 8: 4
load 6 8: 5
load 7 8: 6
load 8 8: 7
load 9 8: 8
load a 8: 9
load b 8: a
load c 8: b
load d 8: c
load e 8: d
load f 8: e
load f 8: duplicate
load 10 c00: domain
unload 4: yes
load 10 c00: room
load 10 8: 4
row 4: 10 220 3
";

#[test]
fn gives_blocks(rt: HostRuntime) -> Result<(), Fail> {
    check_steps(&rt, rt.alloc(), GIVES)
}

#[test]
fn frees_blocks(rt: HostRuntime) -> Result<(), Fail> {
    check_steps(&rt, rt.alloc(), FREES)
}

#[test]
fn hands_blocks_on(rt: HostRuntime) -> Result<(), Fail> {
    check_steps(&rt, rt.alloc(), HANDS_ON)
}

#[test]
fn tells_what_it_is_asked(rt: HostRuntime) -> Result<(), Fail> {
    check_steps(&rt, rt.alloc(), TELLS)
}

#[test]
fn posts_and_dispatches(rt: HostRuntime) -> Result<(), Fail> {
    check_steps(&rt, rt.alloc(), POSTS)
}

#[test]
fn a_module_goes_with_its_messages(rt: HostRuntime) -> Result<(), Fail> {
    check_steps(&rt, rt.alloc(), LEAVES)
}

#[test]
fn admits_by_the_first_refusal(rt: HostRuntime) -> Result<(), Fail> {
    check_steps(&rt, rt.alloc(), ADMITS)
}
