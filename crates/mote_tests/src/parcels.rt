//! Runs with payloads, packets and dumps, by the top call.

use crate::tables::check_table;
use std::test::Fail;

/// Who has a block that is posted, and who when it is refused, taken or left.
pub(crate) const PARCELS: &str = "\
# Module 2 takes the payload of each message.
@ takes image 2 code 940E F105 9508
# Module 1 posts its state of 8 bytes to module 2.
@ posts_state image 1 state 8 code 019C E082 E069 E048 940E F104 9508
@ s lines 0 load 0;0 load 1;0 dump;20 dump
$ run s takes posts_state
0 load 2 0 0000;0 run 2 0 0;1 done 2;2 load 1 1 0200;2 run 1 0 0;7 done 1;8 dump;d module 2 0 0000;d module 1 1 0200
d block 0200 8 k;d low 1 2 9 0200;d end;8 run 2 9 1;9 done 2;20 dump;d module 2 0 0000;d module 1 1 0200
d block 0200 8 2;d end;20 end idle

# Module 5 with a state of 8 bytes fills its low queue with sixteen short messages to itself, posts its state, and says
# the answer.
@ fills_and_posts image 5 state 8 code 9120 0100 3020 F009 9508 017C E110 E085 E069 940E F103 951A F7D1 E085 E048 \
    E050 0197 940E F104 940E F108 9508
@ s lines 0 load 0;0 dump
# Sixteen messages fill the queue, so the block stays with the sender.
$ run s fills_and_posts
0 load 5 0 0200;0 run 5 0 0;90 say 5 1;91 done 5;92 dump;d module 5 0 0200;d block 0200 8 5;d low 5 5 9 0000
d low 5 5 9 0000;d low 5 5 9 0000;d low 5 5 9 0000;d low 5 5 9 0000;d low 5 5 9 0000;d low 5 5 9 0000;d low 5 5 9 0000
d low 5 5 9 0000;d low 5 5 9 0000;d low 5 5 9 0000;d low 5 5 9 0000;d low 5 5 9 0000;d low 5 5 9 0000;d low 5 5 9 0000
d low 5 5 9 0000;d end;92 run 5 9 5;95 done 5;96 run 5 9 5;99 done 5;100 run 5 9 5;103 done 5;104 run 5 9 5;107 done 5
108 run 5 9 5;111 done 5;112 run 5 9 5;115 done 5;116 run 5 9 5;119 done 5;120 run 5 9 5;123 done 5;124 run 5 9 5
127 done 5;128 run 5 9 5;131 done 5;132 run 5 9 5;135 done 5;136 run 5 9 5;139 done 5;140 run 5 9 5;143 done 5
144 run 5 9 5;147 done 5;148 run 5 9 5;151 done 5;152 run 5 9 5;155 done 5;156 end idle

# Module 1 posts its state to itself, takes it, and says the high byte of its address.
@ posts_home image 1 state 8 code 9120 0100 3020 F439 019C E081 E069 E048 940E F104 9508 940E F105 2F89 940E F108 9508
@ s lines 0 load 0;0 dump;20 dump
$ run s posts_home
0 load 1 0 0200;0 run 1 0 0;8 done 1;9 dump;d module 1 0 0200;d block 0200 8 k;d low 1 1 9 0200;d end;9 run 1 9 1
14 say 1 2;15 done 1;20 dump;d module 1 0 0200;d block 0200 8 1;d end;20 end idle

# Module 2 says the length of each message and the high byte of the address of its payload.
@ measures image 2 code 9180 0107 940E F108 940E F105 2F89 940E F108 9508
# Module 1 asks for a state of 10 bytes, which has 16, posts none of it to module 2, and says the answer.
@ posts_0 image 1 state 10 code 019C E082 E069 E040 940E F104 940E F108 9508
@ s lines 0 load 0;0 load 1;0 dump;20 dump
# A payload of length 0 has its block all the same.
$ run s measures posts_0
0 load 2 0 0000;0 run 2 0 0;1 say 2 0;4 say 2 0;5 done 2;6 load 1 1 0200;6 run 1 0 0;11 say 1 0;12 done 1;13 dump
d module 2 0 0000;d module 1 1 0200;d block 0200 16 k;d low 1 2 9 0200;d end;13 run 2 9 1;14 say 2 0;17 say 2 2
18 done 2;20 dump;d module 2 0 0000;d module 1 1 0200;d block 0200 16 2;d end;20 end idle

# The same, which posts all of its bytes.
@ posts_16 image 1 state 10 code 019C E082 E069 E140 940E F104 940E F108 9508
$ run s measures posts_16
0 load 2 0 0000;0 run 2 0 0;1 say 2 0;4 say 2 0;5 done 2;6 load 1 1 0200;6 run 1 0 0;11 say 1 0;12 done 1;13 dump
d module 2 0 0000;d module 1 1 0200;d block 0200 16 k;d low 1 2 9 0200;d end;13 run 2 9 1;14 say 2 16;17 say 2 2
18 done 2;20 dump;d module 2 0 0000;d module 1 1 0200;d block 0200 16 2;d end;20 end idle

# The same, which posts one byte more than it has.
@ posts_17 image 1 state 10 code 019C E082 E069 E141 940E F104 940E F108 9508
$ run s measures posts_17
0 load 2 0 0000;0 run 2 0 0;1 say 2 0;4 say 2 0;5 done 2;6 load 1 1 0200;6 run 1 0 0;10 fault owner 1 4 0200
10 unload 1;11 dump;d module 2 0 0000;d end;20 dump;d module 2 0 0000;d end;20 end idle

@ s lines 0 load 0;0 dump
$ run s posts_16
0 load 1 0 0200;0 run 1 0 0;5 say 1 2;6 done 1;7 dump;d module 1 0 0200;d block 0200 16 1;d end;7 end idle

# Module 2 does nothing.
@ idles image 2 code 9508
# Module 1 posts its state to module 2 and stores to it.
@ keeps_writing image 1 state 8 code 019C 01DC E082 E069 E048 940E F104 930C 9508
@ s lines 0 load 0;0 load 1;0 dump
$ run s idles keeps_writing
0 load 2 0 0000;0 run 2 0 0;0 done 2;1 load 1 1 0200;1 run 1 0 0;7 fault store 1 6 0200;7 unload 1;8 dump
d module 2 0 0000;d end;8 end idle

# Module 2 takes twice at each message, and says the high byte of what it has.
@ takes_twice image 2 code 940E F105 2F89 940E F108 940E F105 2F89 940E F108 9508
@ s lines 0 load 0;0 load 1
$ run s takes_twice posts_state
0 load 2 0 0000;0 run 2 0 0;2 say 2 0;5 say 2 0;6 done 2;7 load 1 1 0200;7 run 1 0 0;12 done 1;13 run 2 9 1;15 say 2 2
18 say 2 0;19 done 2;20 end idle

# Module 2 stores to register 0 at each message but INIT.
@ stumbles image 2 code 9120 0100 3020 F009 930C 9508
@ s lines 0 load 0;0 load 1;20 dump
$ run s stumbles posts_state
0 load 2 0 0000;0 run 2 0 0;3 done 2;4 load 1 1 0200;4 run 1 0 0;9 done 1;10 run 2 9 1;13 fault store 2 3 0000
13 unload 2;20 dump;d module 1 1 0200;d end;20 end idle

# Module 2 takes the payload of each message but INIT, and posts it to module 1.
@ relays image 2 code 9120 0100 3020 F409 9508 940E F105 019C E081 E068 E048 940E F104 9508
@ s lines 0 load 0;0 load 1;20 dump;30 dump
# A state block that comes back as a payload is no block of its module until that takes it.
$ run s relays posts_state
0 load 2 0 0000;0 run 2 0 0;3 done 2;4 load 1 1 0200;4 run 1 0 0;9 done 1;10 run 2 9 1;19 done 2;20 dump
d module 2 0 0000;d module 1 1 0200;d block 0200 8 k;d low 2 1 8 0200;d end;20 run 1 8 2;24 fault owner 1 4 0200
24 unload 1;30 dump;d module 2 0 0000;d end;30 end idle
";

/// What goes with a module that is unloaded, and what stays.
pub(crate) const GOERS: &str = "\
# Module 2 does nothing.
@ idles image 2 code 9508
# Module 1 posts five blocks of 8 bytes to module 2 at each message.
@ posts_five image 1 code E015 E088 E090 940E F100 019C E082 E069 E048 940E F104 951A F7A1 9508
@ s lines 0 load 0;0 load 1;0 dump;0 unload 1;0 dump;5 radio 2 7 aabb
# The sender's last handler posts five more. All ten go with it, and the packet stays.
$ run s idles posts_five
0 load 2 0 0000;0 run 2 0 0;0 done 2;1 load 1 1 0000;1 run 1 0 0;5 queued 2 7;52 done 1;53 dump;d module 2 0 0000
d module 1 1 0000;d block 0200 8 k;d block 0208 8 k;d block 0210 8 k;d block 0218 8 k;d block 0220 8 k
d block 0228 8 k;d low 255 2 7 0208;d low 1 2 9 0200;d low 1 2 9 0210;d low 1 2 9 0218;d low 1 2 9 0220
d low 1 2 9 0228;d end;53 run 1 1 0;104 done 1;104 unload 1;105 dump;d module 2 0 0000;d block 0208 8 k
d low 255 2 7 0208;d end;105 run 2 7 255;105 done 2;106 end idle

@ s lines 0 load 0;0 load 1;0 unload 2;0 dump;5 radio 2 7 aabb
# Whatever was for the receiver goes with it.
$ run s idles posts_five
0 load 2 0 0000;0 run 2 0 0;0 done 2;1 load 1 1 0000;1 run 1 0 0;5 queued 2 7;52 done 1;53 run 2 1 0;53 done 2
53 unload 2;54 dump;d module 1 1 0000;d end;54 end idle

# Module 2 takes the payload of each message.
@ takes image 2 code 940E F105 9508
# Module 1 posts its state of 8 bytes to module 2.
@ posts_state image 1 state 8 code 019C E082 E069 E048 940E F104 9508
@ s lines 0 load 0;0 load 1;0 unload 2;0 dump
$ run s takes posts_state
0 load 2 0 0000;0 run 2 0 0;1 done 2;2 load 1 1 0200;2 run 1 0 0;7 done 1;8 run 2 1 0;9 done 2;9 unload 2;10 dump
d module 1 1 0200;d end;10 end idle
";

/// Packets in the middle of a handler and outside one.
pub(crate) const PACKETS: &str = "\
# A module that counts down.
@ counts image 1 code E00A 950A F7F1 9508
@ s lines 0 load 0;5 radio 1 7 aabb
$ run s counts
0 load 1 0 0000;0 run 1 0 0;5 queued 1 7;21 done 1;22 run 1 7 255;43 done 1;44 end idle

# A handler runs, and seventeen empty packets come at its sixth unit.
@ s lines 0 load 0;5 radio 1 7 -;5 radio 1 7 -;5 radio 1 7 -;5 radio 1 7 -;5 radio 1 7 -;5 radio 1 7 -;\
    5 radio 1 7 -;5 radio 1 7 -;5 radio 1 7 -;5 radio 1 7 -;5 radio 1 7 -;5 radio 1 7 -;5 radio 1 7 -;\
    5 radio 1 7 -;5 radio 1 7 -;5 radio 1 7 -;5 radio 1 7 -
$ run s counts
0 load 1 0 0000;0 run 1 0 0;5 queued 1 7;5 queued 1 7;5 queued 1 7;5 queued 1 7;5 queued 1 7;5 queued 1 7;5 queued 1 7
5 queued 1 7;5 queued 1 7;5 queued 1 7;5 queued 1 7;5 queued 1 7;5 queued 1 7;5 queued 1 7;5 queued 1 7;5 queued 1 7
5 drop queue 1 7;21 done 1;22 run 1 7 255;43 done 1;44 run 1 7 255;65 done 1;66 run 1 7 255;87 done 1;88 run 1 7 255
109 done 1;110 run 1 7 255;131 done 1;132 run 1 7 255;153 done 1;154 run 1 7 255;175 done 1;176 run 1 7 255;197 done 1
198 run 1 7 255;219 done 1;220 run 1 7 255;241 done 1;242 run 1 7 255;263 done 1;264 run 1 7 255;285 done 1
286 run 1 7 255;307 done 1;308 run 1 7 255;329 done 1;330 run 1 7 255;351 done 1;352 run 1 7 255;373 done 1
374 end idle

# The same with a byte each.
@ s lines 0 load 0;5 radio 1 7 aa;5 radio 1 7 aa;5 radio 1 7 aa;5 radio 1 7 aa;5 radio 1 7 aa;5 radio 1 7 aa;\
    5 radio 1 7 aa;5 radio 1 7 aa;5 radio 1 7 aa;5 radio 1 7 aa;5 radio 1 7 aa;5 radio 1 7 aa;5 radio 1 7 aa;\
    5 radio 1 7 aa;5 radio 1 7 aa;5 radio 1 7 aa;5 radio 1 7 aa;6 dump;400 dump
# Each packet in the queue has its block until the handler that has it ends.
$ run s counts
0 load 1 0 0000;0 run 1 0 0;5 queued 1 7;5 queued 1 7;5 queued 1 7;5 queued 1 7;5 queued 1 7;5 queued 1 7;5 queued 1 7
5 queued 1 7;5 queued 1 7;5 queued 1 7;5 queued 1 7;5 queued 1 7;5 queued 1 7;5 queued 1 7;5 queued 1 7;5 queued 1 7
5 drop queue 1 7;21 done 1;22 dump;d module 1 0 0000;d block 0200 8 k;d block 0208 8 k;d block 0210 8 k
d block 0218 8 k;d block 0220 8 k;d block 0228 8 k;d block 0230 8 k;d block 0238 8 k;d block 0240 8 k;d block 0248 8 k
d block 0250 8 k;d block 0258 8 k;d block 0260 8 k;d block 0268 8 k;d block 0270 8 k;d block 0278 8 k
d low 255 1 7 0200;d low 255 1 7 0208;d low 255 1 7 0210;d low 255 1 7 0218;d low 255 1 7 0220;d low 255 1 7 0228
d low 255 1 7 0230;d low 255 1 7 0238;d low 255 1 7 0240;d low 255 1 7 0248;d low 255 1 7 0250;d low 255 1 7 0258
d low 255 1 7 0260;d low 255 1 7 0268;d low 255 1 7 0270;d low 255 1 7 0278;d end;22 run 1 7 255;43 done 1
44 run 1 7 255;65 done 1;66 run 1 7 255;87 done 1;88 run 1 7 255;109 done 1;110 run 1 7 255;131 done 1;132 run 1 7 255
153 done 1;154 run 1 7 255;175 done 1;176 run 1 7 255;197 done 1;198 run 1 7 255;219 done 1;220 run 1 7 255;241 done 1
242 run 1 7 255;263 done 1;264 run 1 7 255;285 done 1;286 run 1 7 255;307 done 1;308 run 1 7 255;329 done 1
330 run 1 7 255;351 done 1;352 run 1 7 255;373 done 1;400 dump;d module 1 0 0000;d end;400 end idle

# Module 1 has the whole heap as its state.
@ owns_heap image 1 state 3072 code 9508
# A byte, sixteen empty packets, and a byte again.
@ s lines 0 load 0;5 radio 1 7 aa;5 radio 1 7 -;5 radio 1 7 -;5 radio 1 7 -;5 radio 1 7 -;5 radio 1 7 -;\
    5 radio 1 7 -;5 radio 1 7 -;5 radio 1 7 -;5 radio 1 7 -;5 radio 1 7 -;5 radio 1 7 -;5 radio 1 7 -;\
    5 radio 1 7 -;5 radio 1 7 -;5 radio 1 7 -;5 radio 1 7 -;5 radio 1 7 aa;30 dump
# The first finds no room. The last finds the queue full, which comes first.
$ run s owns_heap
0 load 1 0 0200;0 run 1 0 0;0 done 1;5 drop room 1 7;5 queued 1 7;5 queued 1 7;5 queued 1 7;5 queued 1 7;5 queued 1 7
5 queued 1 7;5 queued 1 7;5 queued 1 7;5 queued 1 7;5 queued 1 7;5 queued 1 7;5 queued 1 7;5 queued 1 7;5 queued 1 7
5 queued 1 7;5 queued 1 7;5 drop queue 1 7;5 run 1 7 255;5 done 1;6 run 1 7 255;6 done 1;7 run 1 7 255;7 done 1
8 run 1 7 255;8 done 1;9 run 1 7 255;9 done 1;10 run 1 7 255;10 done 1;11 run 1 7 255;11 done 1;12 run 1 7 255
12 done 1;13 run 1 7 255;13 done 1;14 run 1 7 255;14 done 1;15 run 1 7 255;15 done 1;16 run 1 7 255;16 done 1
17 run 1 7 255;17 done 1;18 run 1 7 255;18 done 1;19 run 1 7 255;19 done 1;20 run 1 7 255;20 done 1;30 dump
d module 1 0 0200;d block 0200 3072 1;d end;30 end idle

# Module 1 takes a payload, and says its second byte and its length.
@ hears image 1 code 940E F105 01DC 918D 918D 940E F108 9180 0107 940E F108 9508
@ s lines 0 load 0;9 radio 1 7 aabb;20 dump
$ run s hears
0 load 1 0 0000;0 run 1 0 0;4 say 1 0;6 say 1 0;7 done 1;9 queued 1 7;9 run 1 7 255;13 say 1 187;15 say 1 2;16 done 1
20 dump;d module 1 0 0000;d block 0200 8 1;d end;20 end idle

# Module 1 says byte 65.
@ says image 1 code E481 940E F108 9508
@ s lines 0 load 0;0 radio 1 7 -
$ run s says
0 drop module 1 7;0 load 1 0 0000;0 run 1 0 0;1 say 1 65;2 done 1;3 end idle

@ s lines 0 load 0;5 radio 1 7 aabb
$ run --units 5 s counts
0 load 1 0 0000;0 run 1 0 0;5 queued 1 7;5 end budget

@ s lines 0 load 0;5 radio 1 7 aabb;5 dump
$ run --handler 5 s counts
0 load 1 0 0000;0 run 1 0 0;5 queued 1 7;5 fault watchdog 1 1 10ff;5 unload 1;5 dump;d end;5 end idle
";

/// Dumps, and bytes that are sent.
pub(crate) const DUMPS: &str = "\
# Module 1 pushes without end: 752 pushes and as many jumps.
@ pushes image 1 code 920F CFFE
@ s lines 0 load 0;0 dump
$ run s pushes
0 load 1 0 0000;0 run 1 0 0;1504 fault stackover 1 0 0e0f;1504 unload 1;1505 dump;d end;1505 end idle

# Module 2 does nothing.
@ idles image 2 code 9508
# Module 7 posts 3 bytes of its state to the high queue of module 2 and a short message to its low queue, and asks for
# 10 bytes.
@ mixes image 7 state 8 code 019C E082 E069 E043 E001 940E F104 E082 E06A E000 940E F103 E08A 940E F100 9508
@ s lines 0 load 0;0 load 1;0 dump;5 radio 2 7 aabb;20 dump
# Modules by domain, blocks of the kernel and of a module, the high queue before the low one.
$ run s idles mixes
0 load 2 0 0000;0 run 2 0 0;0 done 2;1 load 7 1 0200;1 run 7 0 0;5 queued 2 7;13 done 7;14 dump;d module 2 0 0000
d module 7 1 0200;d block 0200 8 k;d block 0208 8 k;d block 0210 16 7;d high 7 2 9 0200;d low 255 2 7 0208
d low 7 2 10 0000;d end;14 run 2 9 7;14 done 2;15 run 2 7 255;15 done 2;16 run 2 10 7;16 done 2;20 dump
d module 2 0 0000;d module 7 1 0200;d block 0210 16 7;d end;20 end idle

# Module 1 with a state of 97 bytes, which begins with 171, sends 96 of them to 4660, then 97, then none.
@ sends image 1 state 97 code 019C 01DC EA0B 930D E384 E192 E067 E640 940E F10A 940E F108 E641 940E F10A 940E F108 \
    E040 940E F10A 9508
@ s lines 0 load 0;20 dump
$ run s sends
0 load 1 0 0200;0 run 1 0 0
8 send 1 4660 7 ab0000000000000000000000000000000000000000000000000000000000000000000000000000000000000000000000\
    000000000000000000000000000000000000000000000000000000000000000000000000000000000000000000000000
9 say 1 0;12 say 1 1;14 send 1 0 7 -;15 done 1;20 dump;d module 1 0 0200;d block 0200 104 1;d end;20 end idle

# The same state has 104 bytes, of which module 1 sends 105.
@ sends_past image 1 state 97 code 019C E649 940E F10A 9508
@ s lines 0 load 0
$ run s sends_past
0 load 1 0 0200;0 run 1 0 0;2 fault owner 1 2 0200;2 unload 1;3 end idle
";

/// The run that fills a queue: two files of two reads each, and a trace of less than a piece, which is one put.
pub(crate) const FAULTS: &str = "\
# Module 5 with a state of 8 bytes fills its low queue with sixteen short messages to itself, posts its state, and says
# the answer.
@ fills_and_posts image 5 state 8 code 9120 0100 3020 F009 9508 017C E110 E085 E069 940E F103 951A F7D1 E085 E048 \
    E050 0197 940E F104 940E F108 9508
@ s lines 0 load 0;0 dump
# Sixteen messages fill the queue, so the block stays with the sender.
!read 0
$4 run s fills_and_posts

!read 1
$4 run s fills_and_posts

!read 2
$4 run s fills_and_posts

!read 3
$4 run s fills_and_posts

!read 4
$4 run s fills_and_posts

!read 5
$4 run s fills_and_posts

!read 6
$ run s fills_and_posts
0 load 5 0 0200;0 run 5 0 0;90 say 5 1;91 done 5;92 dump;d module 5 0 0200;d block 0200 8 5;d low 5 5 9 0000
d low 5 5 9 0000;d low 5 5 9 0000;d low 5 5 9 0000;d low 5 5 9 0000;d low 5 5 9 0000;d low 5 5 9 0000;d low 5 5 9 0000
d low 5 5 9 0000;d low 5 5 9 0000;d low 5 5 9 0000;d low 5 5 9 0000;d low 5 5 9 0000;d low 5 5 9 0000;d low 5 5 9 0000
d low 5 5 9 0000;d end;92 run 5 9 5;95 done 5;96 run 5 9 5;99 done 5;100 run 5 9 5;103 done 5;104 run 5 9 5;107 done 5
108 run 5 9 5;111 done 5;112 run 5 9 5;115 done 5;116 run 5 9 5;119 done 5;120 run 5 9 5;123 done 5;124 run 5 9 5
127 done 5;128 run 5 9 5;131 done 5;132 run 5 9 5;135 done 5;136 run 5 9 5;139 done 5;140 run 5 9 5;143 done 5
144 run 5 9 5;147 done 5;148 run 5 9 5;151 done 5;152 run 5 9 5;155 done 5;156 end idle

!put 0
$5 run s fills_and_posts

!put 1
$ run s fills_and_posts
0 load 5 0 0200;0 run 5 0 0;90 say 5 1;91 done 5;92 dump;d module 5 0 0200;d block 0200 8 5;d low 5 5 9 0000
d low 5 5 9 0000;d low 5 5 9 0000;d low 5 5 9 0000;d low 5 5 9 0000;d low 5 5 9 0000;d low 5 5 9 0000;d low 5 5 9 0000
d low 5 5 9 0000;d low 5 5 9 0000;d low 5 5 9 0000;d low 5 5 9 0000;d low 5 5 9 0000;d low 5 5 9 0000;d low 5 5 9 0000
d low 5 5 9 0000;d end;92 run 5 9 5;95 done 5;96 run 5 9 5;99 done 5;100 run 5 9 5;103 done 5;104 run 5 9 5;107 done 5
108 run 5 9 5;111 done 5;112 run 5 9 5;115 done 5;116 run 5 9 5;119 done 5;120 run 5 9 5;123 done 5;124 run 5 9 5
127 done 5;128 run 5 9 5;131 done 5;132 run 5 9 5;135 done 5;136 run 5 9 5;139 done 5;140 run 5 9 5;143 done 5
144 run 5 9 5;147 done 5;148 run 5 9 5;151 done 5;152 run 5 9 5;155 done 5;156 end idle
";

#[test]
fn posted_blocks_change_hands(rt: HostRuntime) -> Result<(), Fail> {
    check_table(&rt, rt.alloc(), PARCELS)
}

#[test]
fn payloads_go_with_their_modules(rt: HostRuntime) -> Result<(), Fail> {
    check_table(&rt, rt.alloc(), GOERS)
}

#[test]
fn packets_come_between_units(rt: HostRuntime) -> Result<(), Fail> {
    check_table(&rt, rt.alloc(), PACKETS)
}

#[test]
fn dumps_and_sends_are_the_worked_ones(rt: HostRuntime) -> Result<(), Fail> {
    check_table(&rt, rt.alloc(), DUMPS)
}

#[test]
fn no_part_of_a_dump_comes_of_a_fault(rt: HostRuntime) -> Result<(), Fail> {
    check_table(&rt, rt.alloc(), FAULTS)
}
