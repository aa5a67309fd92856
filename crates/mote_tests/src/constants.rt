//! Runs of images of the second version: their constants, a block of the kernel's that the module reads.

use crate::tables::check_table;
use std::test::Fail;

/// Modules say where their constants are, and what stands there.
pub(crate) const CONSTANTS: &str = "\
# Module 1 says its second constant, when it comes and when it goes.
@ a hex 53 4F 53 4D 02 01 00 00 00 00 00 00 00 05 00 03 00 FA 01 81 81 0E 94 08 F1 08 95 41 42 43
@ s lines 0 load 0;0 dump;9 unload 1;9 dump
$ run s a
0 load 1 0 0000;0 run 1 0 0;2 say 1 66;3 done 1;4 dump;d module 1 0 0000;d block 0200 8 k;d end
9 run 1 1 0;11 say 1 66;12 done 1;12 unload 1;13 dump;d end;13 end idle

# Its words in their rewritten form, which a rewriter makes with the same constants.
@ b image 1 version 2 flags 1 const 41 42 43 code 01FA 8181 940E F108 940C F096
$ rewrite a
= b

$ run s b
0 load 1 0 0000;0 run 1 0 0;2 say 1 66;3 done 1;4 dump;d module 1 0 0000;d block 0200 8 k;d end
9 run 1 1 0;11 say 1 66;12 done 1;12 unload 1;13 dump;d end;13 end idle

# A packet's handler has them too. The packet's block is the kernel's as theirs is.
@ s lines 0 load 0;5 radio 1 7 aabb;5 dump;20 dump
$ run s a
0 load 1 0 0000;0 run 1 0 0;2 say 1 66;3 done 1;5 queued 1 7;5 dump;d module 1 0 0000;d block 0200 8 k;d block 0208 8 k
d low 255 1 7 0208;d end;5 run 1 7 255;7 say 1 66;8 done 1;20 dump;d module 1 0 0000;d block 0200 8 k;d end;20 end idle

# A module of the second version without constants is as one of the first.
@ a image 1 version 2 code E481 940E F108 9508
@ s lines 0 load 0
$ run s a
0 load 1 0 0000;0 run 1 0 0;1 say 1 65;2 done 1;3 end idle

# Module 1 says the high and the low byte of their address, which is 0 where there are none.
@ a image 1 version 2 code 2F85 940E F108 2F84 940E F108 9508
@ s lines 0 load 0;0 dump
$ run s a
0 load 1 0 0000;0 run 1 0 0;1 say 1 0;3 say 1 0;4 done 1;5 dump;d module 1 0 0000;d end;5 end idle

# One constant has a block of 8 bytes, and so have eight; nine have 16, and 3072 the whole heap.
@ a image 1 version 2 const 01 code 2F85 940E F108 2F84 940E F108 9508
$ run s a
0 load 1 0 0000;0 run 1 0 0;1 say 1 2;3 say 1 0;4 done 1;5 dump;d module 1 0 0000;d block 0200 8 k;d end;5 end idle

@ a image 1 version 2 const 01x8 code 2F85 940E F108 2F84 940E F108 9508
$ run s a
0 load 1 0 0000;0 run 1 0 0;1 say 1 2;3 say 1 0;4 done 1;5 dump;d module 1 0 0000;d block 0200 8 k;d end;5 end idle

@ a image 1 version 2 const 01x9 code 2F85 940E F108 2F84 940E F108 9508
$ run s a
0 load 1 0 0000;0 run 1 0 0;1 say 1 2;3 say 1 0;4 done 1;5 dump;d module 1 0 0000;d block 0200 16 k;d end;5 end idle

@ a image 1 version 2 const 01x3072 code 2F85 940E F108 2F84 940E F108 9508
$ run s a
0 load 1 0 0000;0 run 1 0 0;1 say 1 2;3 say 1 0;4 done 1;5 dump;d module 1 0 0000;d block 0200 3072 k;d end;5 end idle

# They stand behind the state.
@ a image 1 version 2 state 8 const 01x9 code 2F85 940E F108 2F84 940E F108 9508
$ run s a
0 load 1 0 0200;0 run 1 0 0;1 say 1 2;3 say 1 8;4 done 1;5 dump;d module 1 0 0200;d block 0200 8 1;d block 0208 16 k
d end;5 end idle
";

/// State and constants that just fit, and that don't.
pub(crate) const ROOM: &str = "\
# A state of 383 blocks leaves one.
@ a image 1 version 2 state 3064 const 01x8 code 2F85 940E F108 2F84 940E F108 9508
@ s lines 0 load 0;0 dump
$ run s a
0 load 1 0 0200;0 run 1 0 0;1 say 1 13;3 say 1 248;4 done 1;5 dump;d module 1 0 0200;d block 0200 3064 1
d block 0df8 8 k;d end;5 end idle

@ a image 1 version 2 state 3064 const 01x9 code 9508
$ run s a
0 refused 0 6 0 0 0;0 dump;d end;0 end idle

# A state of one block leaves 383, and so does one of a byte.
@ a image 1 version 2 state 1 const 01x3064 code 2F85 940E F108 2F84 940E F108 9508
$ run s a
0 load 1 0 0200;0 run 1 0 0;1 say 1 2;3 say 1 8;4 done 1;5 dump;d module 1 0 0200;d block 0200 8 1;d block 0208 3064 k
d end;5 end idle

@ a image 1 version 2 state 1 const 01x3065 code 9508
$ run s a
0 refused 0 6 0 0 0;0 dump;d end;0 end idle

@ a image 1 version 2 state 8 const 01x3072 code 9508
$ run s a
0 refused 0 6 0 0 0;0 dump;d end;0 end idle

@ a image 1 version 2 state 3072 const 01 code 9508
$ run s a
0 refused 0 6 0 0 0;0 dump;d end;0 end idle

@ a image 1 version 2 state 3072 code 9508
$ run s a
0 load 1 0 0200;0 run 1 0 0;0 done 1;1 dump;d module 1 0 0200;d block 0200 3072 1;d end;1 end idle

@ a image 1 version 2 state 3073 const 01 code 9508
$ run s a
0 refused 0 6 0 0 0;0 dump;d end;0 end idle

# Modules 2 and 3 leave a block at the end, and two where module 2 was. The state comes first, so nine constants have no
# place, and eight have.
@ b image 2 state 16 code 9508
@ c image 3 state 3048 code 9508
@ nine image 1 version 2 state 8 const 01x9 code 9508
@ eight image 1 version 2 state 8 const 01x8 code 9508
@ s lines 0 load 0;0 load 1;0 unload 2;0 load 2;0 load 3;0 dump
$ run s b c nine eight
0 load 2 0 0200;0 run 2 0 0;0 done 2;1 load 3 1 0210;1 run 3 0 0;1 done 3;2 run 2 1 0;2 done 2;2 unload 2
3 refused 2 6 0 0 0;3 load 1 0 0200;3 run 1 0 0;3 done 1;4 dump;d module 1 0 0200;d module 3 1 0210;d block 0200 8 1
d block 0208 8 k;d block 0210 3048 3;d end;4 end idle

# Module 2 leaves a 7 in each byte of its block. A load that is refused leaves them there, and module 3 says one.
@ b image 2 state 8 code 01DC E007 E018 930D 951A F7E9 9508
@ c image 3 code 9180 0200 940E F108 9508
@ a image 1 version 2 state 3064 const 01x9 code 9508
@ s lines 0 load 0;0 unload 2;0 load 2;0 load 1
$ run s b c a
0 load 2 0 0200;0 run 2 0 0;27 done 2;28 run 2 1 0;55 done 2;55 unload 2;56 refused 2 6 0 0 0;56 load 3 0 0000
56 run 3 0 0;57 say 3 7;58 done 3;59 end idle

# Behind the constants their block has zeros: module 1 says the first, the second and the last byte.
@ a image 1 version 2 const 41 code 01FA 8180 940E F108 8181 940E F108 8187 940E F108 9508
@ s lines 0 load 0;0 unload 2;0 load 1
$ run s b a
0 load 2 0 0200;0 run 2 0 0;27 done 2;28 run 2 1 0;55 done 2;55 unload 2;56 load 1 0 0000;56 run 1 0 0;58 say 1 65
60 say 1 0;62 say 1 0;63 done 1;64 end idle

# The ninth has a block of its own, whose last byte is the sixteenth.
@ b image 2 state 16 code 01DC E007 E110 930D 951A F7E9 9508
@ a image 1 version 2 const 41x9 code 01FA 8580 940E F108 8581 940E F108 8587 940E F108 9508
$ run s b a
0 load 2 0 0200;0 run 2 0 0;51 done 2;52 run 2 1 0;103 done 2;103 unload 2;104 load 1 0 0000;104 run 1 0 0;106 say 1 65
108 say 1 0;110 say 1 0;111 done 1;112 end idle
";

/// The constants of a module are no block of its own.
pub(crate) const OWNERS: &str = "\
# Module 1 stores to its constants.
@ s lines 0 load 0;9 dump
@ a image 1 version 2 const 41 code 01DA 930C 9508
$ run s a
0 load 1 0 0000;0 run 1 0 0;1 fault store 1 1 0200;1 unload 1;9 dump;d end;9 end idle

# It frees them.
@ a image 1 version 2 const 41 code 01CA 940E F101 9508
$ run s a
0 load 1 0 0000;0 run 1 0 0;1 fault owner 1 1 0200;1 unload 1;9 dump;d end;9 end idle

# It gives them to itself.
@ a image 1 version 2 const 41 code 01CA E061 940E F102 9508
$ run s a
0 load 1 0 0000;0 run 1 0 0;2 fault owner 1 2 0200;2 unload 1;9 dump;d end;9 end idle

# It posts one of them to itself.
@ a image 1 version 2 const 41 code 019A E081 E069 E041 E050 940E F104 9508
$ run s a
0 load 1 0 0000;0 run 1 0 0;5 fault owner 1 5 0200;5 unload 1;9 dump;d end;9 end idle

# It sends none of them.
@ a image 1 version 2 const 41 code 019A E040 E050 940E F10A 9508
$ run s a
0 load 1 0 0000;0 run 1 0 0;3 fault owner 1 3 0200;3 unload 1;9 dump;d end;9 end idle
";

/// Constants of two modules, which come and go with them.
pub(crate) const TWO: &str = "\
@ a image 1 version 2 state 8 const 41 42 43 code 01FA 8180 940E F108 9508
@ b image 2 version 2 const 07x9 code 01FA 8180 940E F108 9508
@ s lines 0 load 0;0 load 1;0 dump
$ run s a b
0 load 1 0 0200;0 run 1 0 0;2 say 1 65;3 done 1;4 load 2 1 0000;4 run 2 0 0;6 say 2 7;7 done 2;8 dump;d module 1 0 0200
d module 2 1 0000;d block 0200 8 1;d block 0208 8 k;d block 0210 16 k;d end;8 end idle

# Module 1 goes and comes again, in the same places.
@ s lines 0 load 0;0 load 1;0 unload 1;0 dump;0 load 0;0 dump
$ run s a b
0 load 1 0 0200;0 run 1 0 0;2 say 1 65;3 done 1;4 load 2 1 0000;4 run 2 0 0;6 say 2 7;7 done 2;8 run 1 1 0;10 say 1 65
11 done 1;11 unload 1;12 dump;d module 2 1 0000;d block 0210 16 k;d end;12 load 1 0 0200;12 run 1 0 0;14 say 1 65
15 done 1;16 dump;d module 1 0 0200;d module 2 1 0000;d block 0200 8 1;d block 0208 8 k;d block 0210 16 k;d end
16 end idle

# Module 1 frees its state, and faults when it would do so again. Its constants go with it.
@ a image 1 version 2 state 8 const 41 42 43 code 940E F101 9508
@ s lines 0 load 0;0 dump;0 unload 1;0 dump
$ run s a
0 load 1 0 0200;0 run 1 0 0;1 done 1;2 dump;d module 1 0 0200;d block 0208 8 k;d end;2 run 1 1 0;2 fault owner 1 0 0200
2 unload 1;3 dump;d end;3 end idle
";

#[test]
fn constants_are_where_the_module_is_told(rt: HostRuntime) -> Result<(), Fail> {
    check_table(&rt, rt.alloc(), CONSTANTS)
}

#[test]
fn constants_have_room_beside_the_state(rt: HostRuntime) -> Result<(), Fail> {
    check_table(&rt, rt.alloc(), ROOM)
}

#[test]
fn constants_are_the_kernels(rt: HostRuntime) -> Result<(), Fail> {
    check_table(&rt, rt.alloc(), OWNERS)
}

#[test]
fn constants_come_and_go_with_their_module(rt: HostRuntime) -> Result<(), Fail> {
    check_table(&rt, rt.alloc(), TWO)
}
