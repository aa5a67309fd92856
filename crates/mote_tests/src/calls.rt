//! Runs with calls: of a module's own functions, and of another module's through a slot.

use crate::tables::check_table;
use std::test::Fail;

/// One module each, loaded at time 0, that calls itself.
pub(crate) const ITSELF: &str = "\
@ s lines 0 load 0

# Module 1 is bound to itself.
@ a image 1 provides 1/iv00/3 subscribes 1/1/iv00 code 940E F200 9508 9508
$ run s a
0 load 1 0 0000;0 run 1 0 0;0 call 1 0 1 1;2 done 1;3 end idle

# It calls itself without end: there are 32 frames.
@ a image 1 code DFFF 9508
$ run s a
0 load 1 0 0000;0 run 1 0 0;32 fault depth 1 0 10bf;32 unload 1;33 end idle

# It makes 32 calls, one in the other, and comes back from all.
@ a image 1 code E201 950A F009 DFFD 9508
$ run s a
0 load 1 0 0000;0 run 1 0 0;131 done 1;132 end idle

# It would make 33.
@ a image 1 code E202 950A F009 DFFD 9508
$ run s a
0 load 1 0 0000;0 run 1 0 0;99 fault depth 1 3 10bf;99 unload 1;100 end idle

# Local calls and calls through the slot, in turn: the last is a local one, or one through the slot.
@ a image 1 provides 1/iv00/0 subscribes 1/1/iv00 code D001 9508 940E F200 9508
$ run s a
0 load 1 0 0000;0 run 1 0 0;1 call 1 0 1 1;3 call 1 0 1 1;5 call 1 0 1 1;7 call 1 0 1 1;9 call 1 0 1 1;11 call 1 0 1 1
13 call 1 0 1 1;15 call 1 0 1 1;17 call 1 0 1 1;19 call 1 0 1 1;21 call 1 0 1 1;23 call 1 0 1 1;25 call 1 0 1 1
27 call 1 0 1 1;29 call 1 0 1 1;31 call 1 0 1 1;32 fault depth 1 0 10bf;32 unload 1;33 end idle

@ a image 1 handler 2 provides 1/iv00/0 subscribes 1/1/iv00 code D001 9508 940E F200 9508
$ run s a
0 load 1 0 0000;0 run 1 0 0;0 call 1 0 1 1;2 call 1 0 1 1;4 call 1 0 1 1;6 call 1 0 1 1;8 call 1 0 1 1;10 call 1 0 1 1
12 call 1 0 1 1;14 call 1 0 1 1;16 call 1 0 1 1;18 call 1 0 1 1;20 call 1 0 1 1;22 call 1 0 1 1;24 call 1 0 1 1
26 call 1 0 1 1;28 call 1 0 1 1;30 call 1 0 1 1;32 fault depth 1 2 10bf;32 unload 1;33 end idle

# Two bytes above the floor a call still has room, and one byte above it none: a local call, one through a slot, and one
# through Z.
@ a image 1 code E1C1 E0DE BFDE BFCD D005 EFCF E1D0 BFDE BFCD 9508 9508
$ run s a
0 load 1 0 0000;0 run 1 0 0;8 done 1;9 end idle

@ a image 1 code E1C0 E0DE BFDE BFCD D005 EFCF E1D0 BFDE BFCD 9508 9508
$ run s a
0 load 1 0 0000;0 run 1 0 0;3 fault stackover 1 3 0e10;3 unload 1;4 end idle

@ a image 1 provides 1/iv00/11 subscribes 1/1/iv00 code E1C1 E0DE BFDE BFCD 940E F200 EFCF E1D0 BFDE BFCD 9508 9508
$ run s a
0 load 1 0 0000;0 run 1 0 0;3 call 1 0 1 1;8 done 1;9 end idle

@ a image 1 provides 1/iv00/11 subscribes 1/1/iv00 code E1C0 E0DE BFDE BFCD 940E F200 EFCF E1D0 BFDE BFCD 9508 9508
$ run s a
0 load 1 0 0000;0 run 1 0 0;3 fault stackover 1 3 0e10;3 unload 1;4 end idle

@ a image 1 provides 1/iv00/12 subscribes 1/1/iv00 code E0E0 EFF2 E1C1 E0DE BFDE BFCD 9509 EFCF E1D0 BFDE BFCD 9508 9508
$ run s a
0 load 1 0 0000;0 run 1 0 0;5 call 1 0 1 1;10 done 1;11 end idle

@ a image 1 provides 1/iv00/12 subscribes 1/1/iv00 code E0E0 EFF2 E1C0 E0DE BFDE BFCD 9509 EFCF E1D0 BFDE BFCD 9508 9508
$ run s a
0 load 1 0 0000;0 run 1 0 0;5 fault stackover 1 5 0e10;5 unload 1;6 end idle

# With neither room nor a frame left, what is told is the stack.
@ a image 1 code E201 950A F009 DFFD E1C0 E0DE BFDE BFCD DFF8 9508
$ run s a
0 load 1 0 0000;0 run 1 0 0;102 fault stackover 1 7 0e10;102 unload 1;103 end idle

# A function pops what is its caller's, and returns with a byte left.
@ a image 1 code D001 9508 900F 9508
$ run s a
0 load 1 0 0000;0 run 1 0 0;1 fault stackunder 1 2 10fd;1 unload 1;2 end idle

@ a image 1 code D001 9508 920F 9508
$ run s a
0 load 1 0 0000;0 run 1 0 0;2 fault balance 1 3 10fc;2 unload 1;3 end idle

# A function stores to the byte that its caller pushed.
@ a image 1 code 930F E007 D004 918F 940E F108 9508 9300 10FF 9508
$ run s a
0 load 1 0 0000;0 run 1 0 0;6 say 1 7;7 done 1;8 end idle

# Z names slots 0 to 15, and before and behind them none.
@ a image 1 code 9509 9508
$ run s a
0 load 1 0 0000;0 run 1 0 0;0 fault target 1 0 0000;0 unload 1;1 end idle

@ a image 1 code EFEF EFF1 9509 9508
$ run s a
0 load 1 0 0000;0 run 1 0 0;2 fault target 1 2 f1ff;2 unload 1;3 end idle

@ a image 1 code E0E0 EFF2 9509 9508
$ run s a
0 load 1 0 0000;0 run 1 0 0;2 unbound 1 0;3 done 1;4 end idle

@ a image 1 code E0EF EFF2 9509 9508
$ run s a
0 load 1 0 0000;0 run 1 0 0;2 unbound 1 15;3 done 1;4 end idle

@ a image 1 code E1E0 EFF2 9509 9508
$ run s a
0 load 1 0 0000;0 run 1 0 0;2 fault target 1 2 f210;2 unload 1;3 end idle

# Sixteen subscriptions have their slots.
@ a image 1 provides 1/iv00/4 subscribes 1/1/iv00 1/1/iv00 1/1/iv00 1/1/iv00 1/1/iv00 1/1/iv00 1/1/iv00 1/1/iv00 \
    1/1/iv00 1/1/iv00 1/1/iv00 1/1/iv00 1/1/iv00 1/1/iv00 1/1/iv00 1/1/iv00 code E0EF EFF2 9509 9508 9508
$ run s a
0 load 1 0 0000;0 run 1 0 0;2 call 1 15 1 1;4 done 1;5 end idle

# A slot behind the last subscription is unbound, and answers 255 in both registers.
@ a image 1 provides 1/iv00/0 subscribes 1/1/iv00 code 940E F201 2F09 940E F108 2F80 940E F108 9508
$ run s a
0 load 1 0 0000;0 run 1 0 0;0 unbound 1 1;2 say 1 255;4 say 1 255;5 done 1;6 end idle

# A sealed module is the receiver of its message in a function that it calls by its slot, too.
@ a image 1 version 2 flags 2 provides 1/iv00/3 subscribes 1/1/iv00 code 940E F200 9508 9180 0100 9508
$ run s a
0 load 1 0 0000;0 run 1 0 0;0 call 1 0 1 1;3 done 1;4 end idle
";

/// Functions of other modules.
pub(crate) const OTHERS: &str = "\
# Module 2's function pops at its base. Module 1, which called it, stays.
@ b image 2 provides 1/iv00/1 code 9508 910F 9508
@ a image 1 subscribes 2/1/iv00 code 940E F200 9508
@ s lines 0 load 0;0 load 1
$ run s b a
0 load 2 0 0000;0 run 2 0 0;0 done 2;1 load 1 1 0000;1 run 1 0 0;1 call 1 0 2 1;2 fault stackunder 2 1 10fd;2 unload 2
3 end idle

@ s lines 0 load 0;0 load 1;0 dump
$ run s b a
0 load 2 0 0000;0 run 2 0 0;0 done 2;1 load 1 1 0000;1 run 1 0 0;1 call 1 0 2 1;2 fault stackunder 2 1 10fd;2 unload 2
3 dump;d module 1 1 0000;d end;3 end idle

# The prototypes differ in one byte.
@ c image 1 subscribes 2/1/iv01 code 940E F200 9508
@ s lines 0 load 0;0 load 1
$ run s b c
0 load 2 0 0000;0 run 2 0 0;0 done 2;1 load 1 1 0000;1 run 1 0 0;1 unbound 1 0;2 done 1;3 end idle

@ b image 2 provides 1/iv00/0 code 9508
@ c image 1 subscribes 2/1/iv01 2/1/iv10 2/1/iu00 2/1/jv00 2/1/iv00 code 940E F200 940E F201 940E F202 940E F203 940E \
    F204 9508
$ run s b c
0 load 2 0 0000;0 run 2 0 0;0 done 2;1 load 1 1 0000;1 run 1 0 0;1 unbound 1 0;2 unbound 1 1;3 unbound 1 2
4 unbound 1 3;5 call 1 4 2 1;7 done 1;8 end idle

# Each of two functions is entered at its own unit.
@ b image 2 provides 1/iv00/1 7/iv00/3 code 9508 E081 C001 E087 940E F108 9508
@ c image 1 subscribes 2/7/iv00 2/1/iv00 code 940E F200 940E F201 9508
$ run s b c
0 load 2 0 0000;0 run 2 0 0;0 done 2;1 load 1 1 0000;1 run 1 0 0;1 call 1 0 2 7;3 say 2 7;5 call 1 1 2 1;8 say 2 1
10 done 1;11 end idle

# A chain of three modules: each counts on in R16, and the flags pass both ways.
@ c image 3 provides 1/iv00/1 code 9508 9503 2F80 940E F108 9508
@ b image 2 provides 1/iv00/1 subscribes 3/1/iv00 code 9508 9503 940E F200 9503 2F80 940E F108 9508
@ a image 1 subscribes 2/1/iv00 code E00A 940E F200 2F80 940E F108 9508
@ s lines 0 load 0;0 load 1;0 load 2
$ run s c b a
0 load 3 0 0000;0 run 3 0 0;0 done 3;1 load 2 1 0000;1 run 2 0 0;1 done 2;2 load 1 2 0000;2 run 1 0 0;3 call 1 0 2 1
5 call 2 0 3 1;8 say 3 12;12 say 2 13;15 say 1 13;16 done 1;17 end idle

@ b image 2 provides 1/iv00/1 code 9508 1F01 9408 9508
@ a image 1 subscribes 2/1/iv00 code 9408 940E F200 1F01 2F80 940E F108 9508
@ s lines 0 load 0;0 load 1
$ run s b a
0 load 2 0 0000;0 run 2 0 0;0 done 2;1 load 1 1 0000;1 run 1 0 0;2 call 1 0 2 1;8 say 1 2;9 done 1;10 end idle

# Back in module 1, its state and its whole part of the stack are its own again.
@ b image 2 provides 1/iv00/0 code 9508
@ a image 1 state 8 subscribes 2/1/iv00 code 940E F200 9200 0200 920F 9200 10FF 900F 9508
$ run s b a
0 load 2 0 0000;0 run 2 0 0;0 done 2;1 load 1 1 0200;1 run 1 0 0;1 call 1 0 2 1;7 done 1;8 end idle

# In the function, the state of module 1 is not module 2's to store to.
@ b image 2 provides 1/iv00/1 code 9508 9200 0200 9508
$ run s b a
0 load 2 0 0000;0 run 2 0 0;0 done 2;1 load 1 1 0200;1 run 1 0 0;1 call 1 0 2 1;2 fault store 2 1 0200;2 unload 2
3 end idle

# It stores at its bound, to the byte that it pushed, and one above.
@ a image 1 subscribes 2/1/iv00 code 940E F200 9508
@ b image 2 provides 1/iv00/1 code 9508 920F 9200 10FD 900F 9508
$ run s b a
0 load 2 0 0000;0 run 2 0 0;0 done 2;1 load 1 1 0000;1 run 1 0 0;1 call 1 0 2 1;6 done 1;7 end idle

@ b image 2 provides 1/iv00/1 code 9508 920F 9200 10FE 900F 9508
$ run s b a
0 load 2 0 0000;0 run 2 0 0;0 done 2;1 load 1 1 0000;1 run 1 0 0;1 call 1 0 2 1;3 fault store 2 2 10fe;3 unload 2
4 end idle

# Its own functions have its bound, and no more.
@ b image 2 provides 1/iv00/1 code 9508 D001 9508 920F 9200 10FB 9200 10FE 900F 9508
$ run s b a
0 load 2 0 0000;0 run 2 0 0;0 done 2;1 load 1 1 0000;1 run 1 0 0;1 call 1 0 2 1;5 fault store 2 5 10fe;5 unload 2
6 end idle

# It pushes down to the floor.
@ b image 2 provides 1/iv00/1 code 9508 920F CFFE
$ run s b a
0 load 2 0 0000;0 run 2 0 0;0 done 2;1 load 1 1 0000;1 run 1 0 0;1 call 1 0 2 1;1502 fault stackover 2 1 0e0f
1502 unload 2;1503 end idle

# It returns with a byte left.
@ b image 2 provides 1/iv00/1 code 9508 920F 9508
$ run s b a
0 load 2 0 0000;0 run 2 0 0;0 done 2;1 load 1 1 0000;1 run 1 0 0;1 call 1 0 2 1;3 fault balance 2 2 10fc;3 unload 2
4 end idle

# It does not end: the watchdog stops the handler, at the module that runs.
@ b image 2 provides 1/iv00/1 code 9508 CFFF
$ run --handler 10 s b a
0 load 2 0 0000;0 run 2 0 0;0 done 2;1 load 1 1 0000;1 run 1 0 0;1 call 1 0 2 1;11 fault watchdog 2 1 10fd;11 unload 2
11 end idle
";

/// Providers that come and go, messages and last handlers.
pub(crate) const TURNS: &str = "\
# Module 2 comes, goes, and comes again under another domain.
@ a image 1 subscribes 2/1/iv00 code 940E F200 9508
@ b image 2 provides 1/iv00/1 code 9508 940E F10B 940E F108 9508
@ c image 3 code 9508
@ s lines 0 load 0;0 load 1;10 radio 1 7 -;20 unload 2;30 radio 1 7 -;40 load 2;40 load 1;50 radio 1 7 -
$ run s a b c
0 load 1 0 0000;0 run 1 0 0;0 unbound 1 0;1 done 1;2 load 2 1 0000;2 run 2 0 0;2 done 2;10 queued 1 7;10 run 1 7 255
10 call 1 0 2 1;12 say 2 2;14 done 1;20 run 2 1 0;20 done 2;20 unload 2;30 queued 1 7;30 run 1 7 255;30 unbound 1 0
31 done 1;40 load 3 1 0000;40 run 3 0 0;40 done 3;41 load 2 2 0000;41 run 2 0 0;41 done 2;50 queued 1 7;50 run 1 7 255
50 call 1 0 2 1;52 say 2 2;54 done 1;55 end idle

# The third module of a chain faults: it goes, with the payload that was not taken, and the other two stay.
@ c image 3 provides 1/iv00/1 code 9508 930C 9508
@ b image 2 provides 1/iv00/1 subscribes 3/1/iv00 code 9508 940E F200 9508
@ a image 1 subscribes 2/1/iv00 code 9100 0100 3007 F411 940E F200 9508
@ s lines 0 load 0;0 load 1;0 load 2;10 radio 1 7 aabb;10 dump;20 dump;30 radio 1 7 -
$ run s c b a
0 load 3 0 0000;0 run 3 0 0;0 done 3;1 load 2 1 0000;1 run 2 0 0;1 done 2;2 load 1 2 0000;2 run 1 0 0;5 done 1
10 queued 1 7;10 dump;d module 3 0 0000;d module 2 1 0000;d module 1 2 0000;d block 0200 8 k;d low 255 1 7 0200;d end
10 run 1 7 255;13 call 1 0 2 1;14 call 2 0 3 1;15 fault store 3 1 0000;15 unload 3;20 dump;d module 2 1 0000
d module 1 2 0000;d end;30 queued 1 7;30 run 1 7 255;33 call 1 0 2 1;34 unbound 2 0;36 done 1;37 end idle

# A function of a module that is not the receiver takes nothing, and the receiver takes the payload behind it.
@ b image 2 provides 1/iv00/1 code 9508 940E F105 2F89 940E F108 9508
@ a image 1 subscribes 2/1/iv00 code 9100 0100 3007 F439 940E F200 940E F105 2F89 940E F108 9508
@ s lines 0 load 0;0 load 1;10 radio 1 7 aabb;30 dump
$ run s b a
0 load 2 0 0000;0 run 2 0 0;0 done 2;1 load 1 1 0000;1 run 1 0 0;4 done 1;10 queued 1 7;10 run 1 7 255;13 call 1 0 2 1
16 say 2 0;20 say 1 2;21 done 1;30 dump;d module 2 0 0000;d module 1 1 0000;d block 0200 8 1;d end;30 end idle

# A function of the receiver's takes it: called by the receiver, and by another that the receiver calls.
@ a image 1 provides 1/iv00/7 subscribes 1/1/iv00 code 9100 0100 3007 F411 940E F200 9508 940E F105 2F89 940E F108 9508
@ s lines 0 load 0;10 radio 1 7 aabb;30 dump
$ run s a
0 load 1 0 0000;0 run 1 0 0;3 done 1;10 queued 1 7;10 run 1 7 255;13 call 1 0 1 1;16 say 1 2;18 done 1;30 dump
d module 1 0 0000;d block 0200 8 1;d end;30 end idle

@ b image 2 provides 1/iv00/1 subscribes 1/1/iv00 code 9508 940E F200 9508
@ a image 1 provides 1/iv00/7 subscribes 2/1/iv00 code 9100 0100 3007 F411 940E F200 9508 940E F105 2F89 940E F108 9508
@ s lines 0 load 0;0 load 1;10 radio 1 7 aabb;30 dump
$ run s b a
0 load 2 0 0000;0 run 2 0 0;0 done 2;1 load 1 1 0000;1 run 1 0 0;4 done 1;10 queued 1 7;10 run 1 7 255;13 call 1 0 2 1
14 call 2 0 1 1;17 say 1 2;20 done 1;30 dump;d module 2 0 0000;d module 1 1 0000;d block 0200 8 1;d end;30 end idle

# The last handler of module 1 calls module 2.
@ b image 2 provides 1/iv00/0 code 9508
@ a image 1 subscribes 2/1/iv00 code 940E F200 9508
@ s lines 0 load 0;0 load 1;9 unload 1
$ run s b a
0 load 2 0 0000;0 run 2 0 0;0 done 2;1 load 1 1 0000;1 run 1 0 0;1 call 1 0 2 1;3 done 1;9 run 1 1 0;9 call 1 0 2 1
11 done 1;11 unload 1;12 end idle

# Module 2 faults in it, and goes first.
@ b image 2 provides 1/iv00/1 code 9508 9100 0100 3001 F409 930C 9508
@ s lines 0 load 0;0 load 1;20 unload 1;20 dump
$ run s b a
0 load 2 0 0000;0 run 2 0 0;0 done 2;1 load 1 1 0000;1 run 1 0 0;1 call 1 0 2 1;6 done 1;20 run 1 1 0;20 call 1 0 2 1
24 fault store 2 4 0000;24 unload 2;24 unload 1;25 dump;d end;25 end idle
";

/// Sealed functions, and constants in them.
pub(crate) const SEALED: &str = "\
# Module 2 is not the receiver, and may not read the message. Without the seal it may.
@ a image 1 subscribes 2/1/iv00 code 940E F200 9508
@ b image 2 version 2 flags 2 provides 1/iv00/1 code 9508 9180 0100 9508
@ s lines 0 load 0;0 load 1
$ run s b a
0 load 2 0 0000;0 run 2 0 0;0 done 2;1 load 1 1 0000;1 run 1 0 0;1 call 1 0 2 1;2 fault load 2 1 0100;2 unload 2
3 end idle

@ b image 2 version 2 provides 1/iv00/1 code 9508 9180 0100 9508
$ run s b a
0 load 2 0 0000;0 run 2 0 0;0 done 2;1 load 1 1 0000;1 run 1 0 0;1 call 1 0 2 1;4 done 1;5 end idle

@ b image 2 version 2 flags 2 provides 1/iv00/1 code 9508 9180 010F 9508
$ run s b a
0 load 2 0 0000;0 run 2 0 0;0 done 2;1 load 1 1 0000;1 run 1 0 0;1 call 1 0 2 1;2 fault load 2 1 010f;2 unload 2
3 end idle

# It reads the byte at its bound, which it pushed, and not the one above.
@ b image 2 version 2 flags 2 provides 1/iv00/1 code 9508 920F 9180 10FD 9180 10FE 900F 9508
$ run s b a
0 load 2 0 0000;0 run 2 0 0;0 done 2;1 load 1 1 0000;1 run 1 0 0;1 call 1 0 2 1;4 fault load 2 3 10fe;4 unload 2
5 end idle

# The receiver reads its message in its own function, which the sealed module 2 calls.
@ a image 1 version 2 flags 2 provides 1/iv00/3 subscribes 2/1/iv00 code 940E F200 9508 9180 0102 940E F108 9508
@ b image 2 version 2 flags 2 provides 1/iv00/1 subscribes 1/1/iv00 code 9508 940E F200 9508
$ run s b a
0 load 2 0 0000;0 run 2 0 0;0 done 2;1 load 1 1 0000;1 run 1 0 0;1 call 1 0 2 1;2 call 2 0 1 1;4 say 1 1;7 done 1
8 end idle

# R21 and R20 are as the caller has them. Module 2 reads the caller's constants there, and sealed it may not; its own it may.
@ a image 1 version 2 const 41 subscribes 2/1/iv00 code 940E F200 9508
@ b image 2 version 2 provides 1/iv00/1 const 42 code 9508 01FA 8180 940E F108 9508
$ run s b a
0 load 2 0 0000;0 run 2 0 0;0 done 2;1 load 1 1 0000;1 run 1 0 0;1 call 1 0 2 1;4 say 2 65;6 done 1;7 end idle

@ b image 2 version 2 flags 2 provides 1/iv00/1 const 42 code 9508 01FA 8180 940E F108 9508
$ run s b a
0 load 2 0 0000;0 run 2 0 0;0 done 2;1 load 1 1 0000;1 run 1 0 0;1 call 1 0 2 1;3 fault load 2 2 0208;3 unload 2
4 end idle

@ b image 2 version 2 flags 2 provides 1/iv00/1 const 42 code 9508 9180 0200 940E F108 9508
$ run s b a
0 load 2 0 0000;0 run 2 0 0;0 done 2;1 load 1 1 0000;1 run 1 0 0;1 call 1 0 2 1;3 say 2 66;5 done 1;6 end idle
";

#[test]
fn modules_call_themselves(rt: HostRuntime) -> Result<(), Fail> {
    check_table(&rt, rt.alloc(), ITSELF)
}

#[test]
fn modules_call_others(rt: HostRuntime) -> Result<(), Fail> {
    check_table(&rt, rt.alloc(), OTHERS)
}

#[test]
fn calls_are_between_the_modules_of_the_moment(rt: HostRuntime) -> Result<(), Fail> {
    check_table(&rt, rt.alloc(), TURNS)
}

#[test]
fn sealed_modules_call_and_are_called(rt: HostRuntime) -> Result<(), Fail> {
    check_table(&rt, rt.alloc(), SEALED)
}
