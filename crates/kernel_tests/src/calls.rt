//! Constants, loads that may be made, and calls between domains. The steps are told as `steps` says.

use crate::steps::check_steps;
use std::test::Fail;

/// Nine constants behind 8 bytes of state.
const CONSTANTS: &str = "\
load 1 8 1 2 3 4 5 6 7 8 9: 0
dump:;0 dump;d module 1 0 0200;d block 0200 8 1;d block 0208 16 k;d end
begin 0: yes;0 run 1 0 0
bytes 14 15 208 210 211 217: 8 2 1 9 0 0
stores 200: yes
stores 208: no
call 1 208: owner 208
call 2 208 1: owner 208
set 12 208
set 14 1
call 4 1 9: owner 208
call a 1 9: owner 208
end: none
unload 0: yes
dump:;0 dump;d end
";

const ROOM: &str = "\
load 1 bf8 1 2 3 4 5 6 7 8 9: room
dump:;0 dump;d end
load 1 bf8 1 2 3 4 5 6 7 8: 0
dump:;0 dump;d module 1 0 0200;d block 0200 3064 1;d block 0df8 8 k;d end
";

const LOADS: &str = "\
seal 1 8 41 42 43: 0
load 2 8: 1
begin 0: yes;0 run 1 0 0
loads 0: yes
loads ff: yes
loads 100: yes
loads 10f: yes
loads 110: no
loads 1ff: no
loads 200: yes
loads 20f: yes
loads 210: no
loads 10ff: no
sp 10fe
loads 10fe: no
loads 10ff: yes
loads 1100: no
";

/// Module 1 in domain 0, and module 2 in domain 1, whose functions begin at units 16 and 17.
const CALLS: &str = "\
user: 0
provider: 1
begin 0: yes;0 run 1 0 0
loads 100: yes
local 5: enters
bytes 5d 5e 10fe 10ff: fd 10 0 0
slot 0 6: enters 0 11;0 call 1 0 1 4
loads 100: yes
slot 1 7: enters 1 11;0 call 1 1 2 7
# Module 2 is not the receiver, has no slot, and nothing of the stack above its bound.
loads 100: no
slot 0 9: unbound;0 unbound 2 0
bytes 18 19 5d 5e: ff ff f9 10
sp 10f7
stores 10f9: yes
stores 10fa: no
back: balance 10f7
sp 10f9
back: to 0 7
back: to 0 6
back: to 0 5
bytes 5d 5e: ff 10
slot 3 8: enters 1 10;0 call 1 3 2 1
back: to 0 8
slot 2 8: unbound;0 unbound 1 2
slot 4 8: unbound;0 unbound 1 4
back: over
# The frames are full, and then the stack as well.
20*local 5: enters
local 5: depth 10bf
slot 1 5: depth 10bf
sp e11
local 5: depth e11
sp e10
local 5: stackover e10
slot 1 5: stackover e10
# The end drops them.
end: none
unload 1: yes
begin 0: yes;0 run 1 0 0
slot 1 5: unbound;0 unbound 1 1
back: over
end: none
provider: 1
begin 0: yes;0 run 1 0 0
slot 1 5: enters 1 11;0 call 1 1 2 7
";

#[test]
fn keeps_constants(rt: HostRuntime) -> Result<(), Fail> {
    check_steps(&rt, rt.alloc(), CONSTANTS)
}

#[test]
fn keeps_no_state_without_its_constants(rt: HostRuntime) -> Result<(), Fail> {
    check_steps(&rt, rt.alloc(), ROOM)
}

#[test]
fn tells_what_may_be_loaded(rt: HostRuntime) -> Result<(), Fail> {
    check_steps(&rt, rt.alloc(), LOADS)
}

#[test]
fn calls_and_comes_back(rt: HostRuntime) -> Result<(), Fail> {
    check_steps(&rt, rt.alloc(), CALLS)
}
