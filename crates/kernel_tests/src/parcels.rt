//! Blocks that go with messages, packets by radio, and dumps. The steps are told as `steps` says.

use crate::steps::check_steps;
use std::test::Fail;

const TAKEN: &str = "\
load 1 8: 0
load 2 0: 1
begin 0: yes;0 run 1 0 0
put 200 aa
# One byte more than the block has, and a block that isn't the caller's.
set 14 9
set 12 200
call 4 2 9: owner 200
set 14 0
set 12 208
call 4 2 9: owner 208
set 14 8
set 12 200
call 4 3 9: 2
dump:;0 dump;d module 1 0 0200;d module 2 1 0000;d block 0200 8 1;d end
call 4 2 9: 0
dump:;0 dump;d module 1 0 0200;d module 2 1 0000;d block 0200 8 k;d low 1 2 9 0200;d end
call 4 2 9: owner 200
# Nothing is in hand for the sender.
call 5 5: 0
end: none
next: 1;0 run 2 9 1
bytes 103 107 108 109 10a 200: 1 8 0 0 2 aa
call 5 5: 200
call 5 5: 0
end: none
dump:;0 dump;d module 1 0 0200;d module 2 1 0000;d block 0200 8 2;d end
";

const REFUSED: &str = "\
load 1 8: 0
load 2 0: 1
begin 0: yes;0 run 1 0 0
10*radio 2:;0 queued 2 7
set 14 8
set 12 200
call 4 2 9: 1
dump:;0 dump;d module 1 0 0200;d module 2 1 0000;d block 0200 8 1;\
d low 255 2 7 0000;d low 255 2 7 0000;d low 255 2 7 0000;d low 255 2 7 0000;\
d low 255 2 7 0000;d low 255 2 7 0000;d low 255 2 7 0000;d low 255 2 7 0000;\
d low 255 2 7 0000;d low 255 2 7 0000;d low 255 2 7 0000;d low 255 2 7 0000;\
d low 255 2 7 0000;d low 255 2 7 0000;d low 255 2 7 0000;d low 255 2 7 0000;d end
";

const PACKETS: &str = "\
radio 1:;0 drop module 1 7
load 1 8: 0
load 2 0: 1
begin 0: yes;0 run 1 0 0
put 208 9
put 20a 9
radio 2 aa bb:;0 queued 2 7
bytes 208 209 20a 20b 20c 20d: aa bb 0 0 0 0
# The heap is full, and then the queue as well.
call 0 bf0: 210
radio 2 1:;0 drop room 2 7
f*radio 1:;0 queued 1 7
radio 2 1:;0 drop queue 2 7
end: none
next: 1;0 run 2 7 255
bytes 100 101 103 107 109 10a: 7 ff 1 2 8 2
";

const GO: &str = "\
load 1 8: 0
load 2 0: 1
begin 0: yes;0 run 1 0 0
radio 2 1 2 3:;0 queued 2 7
radio 2 1 2 3:;0 queued 2 7
radio 1 1 2 3:;0 queued 1 7
end: none
next: 1;0 run 2 7 255
dump:;0 dump;d module 1 0 0200;d module 2 1 0000;d block 0200 8 1;d block 0208 8 k;d block 0210 8 k;d block 0218 8 k;\
d low 255 2 7 0210;d low 255 1 7 0218;d end
# Untaken at the handler's end.
end: none
dump:;0 dump;d module 1 0 0200;d module 2 1 0000;d block 0200 8 1;d block 0210 8 k;d block 0218 8 k;\
d low 255 2 7 0210;d low 255 1 7 0218;d end
unload 1: yes
dump:;0 dump;d module 1 0 0200;d block 0200 8 1;d block 0218 8 k;d low 255 1 7 0218;d end
unload 0: yes
dump:;0 dump;d end
";

const SENDS: &str = "\
load 1 8: 0
load 2 0: 1
begin 0: yes;0 run 1 0 0
call 0 68: 208
put 208 aa
set 12 208
set 14 60
call a 304 5: 0;0 send 1 772 5 aa000000000000000000000000000000000000000000000000000000000000\
    0000000000000000000000000000000000000000000000000000000000000000000000000000000000000000000000000000000000000000000000000000000000
set 14 61
call a 304 5: 1
set 14 68
call a 304 5: 1
set 14 2
call a 304 5: 0;0 send 1 772 5 aa00
set 14 69
call a 304 5: owner 208
begin 0
finish 0
";

#[test]
fn a_posted_block_is_taken(rt: HostRuntime) -> Result<(), Fail> {
    check_steps(&rt, rt.alloc(), TAKEN)
}

#[test]
fn a_refused_post_leaves_the_block(rt: HostRuntime) -> Result<(), Fail> {
    check_steps(&rt, rt.alloc(), REFUSED)
}

#[test]
fn packets_wait_or_are_dropped(rt: HostRuntime) -> Result<(), Fail> {
    check_steps(&rt, rt.alloc(), PACKETS)
}

#[test]
fn payloads_go_with_the_handler_and_the_module(rt: HostRuntime) -> Result<(), Fail> {
    check_steps(&rt, rt.alloc(), GO)
}

#[test]
fn sends_what_a_packet_holds(rt: HostRuntime) -> Result<(), Fail> {
    check_steps(&rt, rt.alloc(), SENDS)
}
