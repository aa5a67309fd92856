//! Runs with timers, by the top call.

use crate::tables::check_table;
use std::test::Fail;

/// One module each, loaded at time 0.
pub(crate) const ALONE: &str = "\
@ s lines 0 load 0

# Module 1 starts timer 3, once, ten units later.
@ a image 1 code 9120 0100 3020 F009 9508 E083 E06A E070 E040 940E F106 9508
$ run s a
0 load 1 0 0000;0 run 1 0 0;8 done 1;17 queued 1 2;17 run 1 2 0;20 done 1;21 end idle

# A timer of no ticks is none.
@ a image 1 code E083 E060 E070 E040 940E F106 940E F108 9508
$ run s a
0 load 1 0 0000;0 run 1 0 0;5 say 1 2;6 done 1;7 end idle

# Its message has the timer's number, which module 1 says, as its byte, and no word.
@ a image 1 code 9120 0100 3020 F049 9180 0104 940E F108 9180 0105 940E F108 9508 E089 E06A E070 E040 940E F106 9508
$ run s a
0 load 1 0 0000;0 run 1 0 0;8 done 1;17 queued 1 2;17 run 1 2 0;21 say 1 9;23 say 1 0;24 done 1;25 end idle
";

/// Timers that repeat, until the run ends.
pub(crate) const REPEATED: &str = "\
# A tick is a unit: a message comes in front of each unit, and between two handlers.
@ s lines 0 load 0
@ a image 1 code 9120 0100 3020 F009 9508 E080 E061 E070 E041 940E F106 9508
$ run --units 14 s a
0 load 1 0 0000;0 run 1 0 0;8 queued 1 2;8 done 1;9 queued 1 2;9 run 1 2 0;10 queued 1 2;11 queued 1 2;12 queued 1 2
12 done 1;13 queued 1 2;13 run 1 2 0;14 queued 1 2;14 end budget

# Every hundred ticks an idle mote wakes. The end of the budget is told in the next handler.
@ a image 1 code 9120 0100 3020 F009 9508 E080 E664 E070 E041 940E F106 9508
$ run --units 21 s a
0 load 1 0 0000;0 run 1 0 0;8 done 1;107 queued 1 2;107 run 1 2 0;110 done 1;207 queued 1 2;207 run 1 2 0;210 done 1
307 queued 1 2;307 run 1 2 0;310 done 1;407 queued 1 2;407 run 1 2 0;407 end budget

# Module 1 stops its timer in the handler of its message, and asks for that again at a packet.
@ a image 1 code 9120 0100 3020 F031 E083 940E F107 940E F108 9508 E083 E06A E070 E041 940E F106 9508
@ s lines 0 load 0;30 radio 1 7 -
$ run s a
0 load 1 0 0000;0 run 1 0 0;8 done 1;17 queued 1 2;17 run 1 2 0;22 say 1 0;23 done 1;30 queued 1 7;30 run 1 7 255
35 say 1 1;36 done 1;37 end idle

# The high queue is full: the timer that fires once is gone, and the one that repeats goes on.
@ a image 1 code 9120 0100 3020 F009 9508 E110 E081 E069 E001 940E F103 951A F7C9 E081 E062 E070 E040 940E F106 E082 \
    E061 E041 940E F106 9508
@ s lines 0 load 0
$ run --units 112 s a
0 load 1 0 0000;0 run 1 0 0;106 drop queue 1 2;109 drop queue 1 2;109 done 1;110 drop queue 1 2;110 run 1 9 1
111 queued 1 2;112 drop queue 1 2;112 end budget
";

/// Timers beside others, packets and the loader.
pub(crate) const BESIDE: &str = "\
# Sixteen timers are held, and a seventeenth is refused; one of the sixteen is started anew. They go with their module.
@ a image 1 code 9100 0100 3000 F009 9508 E010 2F81 EE68 E073 E040 940E F106 940E F108 9513 3111 F7A9 E083 E062 E070 \
    940E F106 940E F108 9508
@ s lines 0 load 0;170 dump;180 unload 1;180 dump
$ run s a
0 load 1 0 0000;0 run 1 0 0;9 say 1 0;18 say 1 0;27 say 1 0;36 say 1 0;45 say 1 0;54 say 1 0;63 say 1 0;72 say 1 0
81 say 1 0;90 say 1 0;99 say 1 0;108 say 1 0;117 say 1 0;126 say 1 0;135 say 1 0;144 say 1 0;153 say 1 1;161 say 1 0
162 queued 1 2;162 done 1;163 run 1 2 0;166 done 1;170 dump;d module 1 0 0000;d timer 1 0 1008;d timer 1 1 1017
d timer 1 2 1026;d timer 1 4 1044;d timer 1 5 1053;d timer 1 6 1062;d timer 1 7 1071;d timer 1 8 1080;d timer 1 9 1089
d timer 1 10 1098;d timer 1 11 1107;d timer 1 12 1116;d timer 1 13 1125;d timer 1 14 1134;d timer 1 15 1143;d end
180 run 1 1 0;183 done 1;183 unload 1;184 dump;d end;184 end idle

# Timers fire by their moment, then by their module, then by their number.
@ a image 1 code 9100 0100 3002 F069 3000 F451 E085 E664 E070 E040 940E F106 E083 E661 940E F106 9508 9180 0104 940E \
    F108 9508
@ b image 2 code 9100 0100 3002 F069 3000 F451 E084 E566 E070 E040 940E F106 E082 E562 940E F106 9508 9180 0104 940E \
    F108 9508
@ s lines 0 load 0;0 load 1
$ run s a b
0 load 1 0 0000;0 run 1 0 0;13 done 1;14 load 2 1 0000;14 run 2 0 0;27 done 2;108 queued 2 2;108 run 2 2 0
109 queued 1 2;109 queued 1 2;109 queued 2 2;112 say 2 2;113 done 2;114 run 1 2 0;118 say 1 3;119 done 1;120 run 1 2 0
124 say 1 5;125 done 1;126 run 2 2 0;130 say 2 4;131 done 2;132 end idle

# At one time a packet comes first, then the timer, then the loader's event.
@ a image 1 code 9120 0100 3020 F009 9508 E083 E06A E070 E040 940E F106 9508
@ s lines 0 load 0;17 dump;17 radio 1 7 -
$ run s a
0 load 1 0 0000;0 run 1 0 0;8 done 1;17 queued 1 7;17 queued 1 2;17 dump;d module 1 0 0000;d high 0 1 2 0000
d low 255 1 7 0000;d end;17 run 1 2 0;20 done 1;21 run 1 7 255;24 done 1;25 end idle

# A module goes while its timer runs and the timer's message waits.
@ a image 1 code 9120 0100 3020 F009 9508 E083 E06A E070 E041 940E F106 9508
@ s lines 0 load 0;17 unload 1;17 dump
$ run s a
0 load 1 0 0000;0 run 1 0 0;8 done 1;17 queued 1 2;17 run 1 1 0;20 done 1;20 unload 1;21 dump;d end;21 end idle

# A timer is due behind the last moment that a script has.
@ a image 1 code 9120 0100 3027 F009 9508 E083 EF6F EF7F E040 940E F106 9508
@ s lines 0 load 0;4294967295 radio 1 7 -
$ run s a
0 load 1 0 0000;0 run 1 0 0;3 done 1;4294967295 queued 1 7;4294967295 run 1 7 255;4294967303 done 1
4295032837 queued 1 2;4295032837 run 1 2 0;4295032840 done 1;4295032841 end idle

# A module with a block, a message to itself and a timer goes, and another that called it stays.
@ a image 1 provides 1/iv00/4 code 9120 0100 3020 F009 9508 E088 940E F100 019C E081 E069 E048 940E F104 E083 E664 \
    E040 940E F106 9508
@ b image 2 subscribes 1/1/iv00 code 940E F200 9508
@ s lines 0 load 0;0 load 1;0 unload 1;0 dump;50 radio 2 7 -
$ run s a b
0 load 1 0 0000;0 run 1 0 0;14 done 1;15 load 2 1 0000;15 run 2 0 0;15 call 2 0 1 1;17 done 2;18 run 1 1 0;21 done 1
21 unload 1;22 dump;d module 2 1 0000;d end;50 queued 2 7;50 run 2 7 255;50 unbound 2 0;51 done 2;52 end idle
";

#[test]
fn timers_fire_once(rt: HostRuntime) -> Result<(), Fail> {
    check_table(&rt, rt.alloc(), ALONE)
}

#[test]
fn timers_repeat(rt: HostRuntime) -> Result<(), Fail> {
    check_table(&rt, rt.alloc(), REPEATED)
}

#[test]
fn timers_fire_in_order_and_go_with_their_modules(rt: HostRuntime) -> Result<(), Fail> {
    check_table(&rt, rt.alloc(), BESIDE)
}
