//! Runs of modules with units and kernel calls of each kind.

use crate::tables::check_table;
use std::test::Fail;

/// One module each, loaded at time 0.
pub(crate) const UNITS: &str = "\
@ s lines 0 load 0

# Module 3 moves a pointer over its state of 8 bytes and stores by it, once before its first byte.
@ moves image 3 state 8 code 01DC 9618 E007 930E 01DC 930E 9508
$ run s moves
0 load 3 0 0200;0 run 3 0 0;5 fault store 3 5 01ff;5 unload 3;6 end idle

# Module 4 makes a frame of twenty bytes on the stack and gives it back.
@ frames image 4 code 93CF 93DF B7CD B7DE 9764 B60F 94F8 BFDE BE0F BFCD E027 8329 8B2C 9664 B60F 94F8 BFDE BE0F \
    BFCD 91DF 91CF 9508
$ run s frames
0 load 4 0 0000;0 run 4 0 0;17 done 4;18 end idle

# Module 1 makes room for two bytes and takes them back.
@ reserves image 1 code D000 900F 900F 9508
$ run s reserves
0 load 1 0 0000;0 run 1 0 0;3 done 1;4 end idle

# Module 1 with a state of 8 bytes asks for 3072 bytes, which do not fit, for 3064, which do, and for none.
@ asks image 1 state 8 code E080 E09C 940E F100 940E F108 EF88 E09B 940E F100 940E F108 E080 E090 940E F100 940E \
    F108 9508
$ run s asks
0 load 1 0 0200;0 run 1 0 0;3 say 1 0;7 say 1 8;11 say 1 0;12 done 1;13 end idle

# Module 1 returns with a byte on its stack.
@ leaves_one image 1 code 920F 9508
$ run s leaves_one
0 load 1 0 0000;0 run 1 0 0;1 fault balance 1 1 10fe;1 unload 1;2 end idle

# Module 1 frees the block at 0, which is none.
@ frees_none image 1 code 940E F101 9508
$ run s frees_none
0 load 1 0 0000;0 run 1 0 0;0 fault owner 1 0 0000;0 unload 1;1 end idle

# Module 1 sets SP to 0.
@ drops_sp image 1 code BFDE BFCD 9508
$ run s drops_sp
0 load 1 0 0000;0 run 1 0 0;0 fault stackover 1 0 0000;0 unload 1;1 end idle

# Module 1 sets SP above its base.
@ lifts_sp image 1 code EFCF E1D1 BFDE BFCD 9508
$ run s lifts_sp
0 load 1 0 0000;0 run 1 0 0;2 fault stackunder 1 2 11ff;2 unload 1;3 end idle

# Module 1 pops at its base.
@ pops image 1 code 900F 9508
$ run s pops
0 load 1 0 0000;0 run 1 0 0;0 fault stackunder 1 0 10ff;0 unload 1;1 end idle

# Module 1 pushes without end: 752 pushes and as many jumps.
@ pushes image 1 code 920F CFFE
$ run s pushes
0 load 1 0 0000;0 run 1 0 0;1504 fault stackover 1 0 0e0f;1504 unload 1;1505 end idle

# Module 1 frees its state and stores to it.
@ frees image 1 state 8 code 940E F101 E0A0 E0B2 920C 9508
$ run s frees
0 load 1 0 0200;0 run 1 0 0;3 fault store 1 3 0200;3 unload 1;4 end idle

# Module 1 gives its state to itself, then to a module that is not loaded, then what is not its own to itself.
@ hands image 1 state 8 code E061 940E F102 940E F108 E080 E092 E069 940E F102 940E F108 E088 E092 940E F102 9508
$ run s hands
0 load 1 0 0200;0 run 1 0 0;2 say 1 0;7 say 1 1;10 fault owner 1 10 0208;10 unload 1;11 end idle

# Module 1 says the clock and its own id.
@ tells image 1 code 0000 0000 0000 940E F109 940E F108 940E F10B 940E F108 9508
$ run s tells
0 load 1 0 0000;0 run 1 0 0;4 say 1 3;6 say 1 1;7 done 1;8 end idle

# Module 1 passes over a unit of one word, says 65, and passes over one of two words.
@ passes_over image 1 code E481 1000 E482 940E F108 1000 940E F108 9508
$ run s passes_over
0 load 1 0 0000;0 run 1 0 0;2 say 1 65;4 done 1;5 end idle

# Module 1 passes over a unit where a bit is 0, and over none where it is to be 1.
@ tests_bits image 1 code FF00 E483 FD00 E484 940E F108 9508
$ run s tests_bits
0 load 1 0 0000;0 run 1 0 0;3 say 1 67;4 done 1;5 end idle

# Module 1 stores behind Y to the last byte of its state and to the next one.
@ displaces image 1 state 8 code E0C0 E0D2 820F 8608 9508
$ run s displaces
0 load 1 0 0200;0 run 1 0 0;3 fault store 1 3 0208;3 unload 1;4 end idle

# Module 1 stores to the same bytes by their addresses.
@ names_bytes image 1 state 8 code 9200 0207 9200 0208 9508
$ run s names_bytes
0 load 1 0 0200;0 run 1 0 0;1 fault store 1 1 0208;1 unload 1;2 end idle

# Module 1 stores to them by X, which rises.
@ rises image 1 state 8 code E0A7 E0B2 920D 920D 9508
$ run s rises
0 load 1 0 0200;0 run 1 0 0;3 fault store 1 3 0208;3 unload 1;4 end idle

# Module 1 stores before its state by Z, which falls first.
@ falls image 1 state 8 code E0E0 E0F2 9202 9508
$ run s falls
0 load 1 0 0200;0 run 1 0 0;2 fault store 1 2 01ff;2 unload 1;3 end idle

# Module 1 stores to the byte that it pushed, and to the one below it.
@ fills_stack image 1 code 920F EFAF E1B0 920C 920E 9508
$ run s fills_stack
0 load 1 0 0000;0 run 1 0 0;4 fault store 1 4 10fe;4 unload 1;5 end idle

# Module 1 stores to the last address.
@ stores_last image 1 code EFAF EFBF 920D 9508
$ run s stores_last
0 load 1 0 0000;0 run 1 0 0;2 fault store 1 2 ffff;2 unload 1;3 end idle

# Module 1 stores one byte behind the last address, which is 0.
@ wraps image 1 code EFCF EFDF 8209 9508
$ run s wraps
0 load 1 0 0000;0 run 1 0 0;2 fault store 1 2 0000;2 unload 1;3 end idle

# Module 1 pushes 65, takes it back, lowers SP by a group and says the byte that it uncovered.
@ uncovers image 1 code E481 938F 900F EFCD E1D0 BFDE BFCD 918F 918F 940E F108 9508
$ run s uncovers
0 load 1 0 0000;0 run 1 0 0;8 say 1 0;9 done 1;10 end idle

# Module 1 jumps to itself without end.
@ spins image 1 code CFFF
$ run s spins
0 load 1 0 0000;0 run 1 0 0;10000 fault watchdog 1 0 10ff;10000 unload 1;10000 end idle

# Module 1 runs 10,000 units: 4998 rounds of two, and four more.
@ lasts image 1 code E886 E193 9701 F7F1 0000 9508
$ run s lasts
0 load 1 0 0000;0 run 1 0 0;9999 done 1;10000 end idle

# Module 1 stores to the last byte of its state and to the next one by Y, which rises.
@ raises_y image 1 state 8 code E0C7 E0D2 9209 9209 9508
$ run s raises_y
0 load 1 0 0200;0 run 1 0 0;3 fault store 1 3 0208;3 unload 1;4 end idle

# Module 1 stores before its state by Y, which falls first.
@ lowers_y image 1 state 8 code E0C0 E0D2 920A 9508
$ run s lowers_y
0 load 1 0 0200;0 run 1 0 0;2 fault store 1 2 01ff;2 unload 1;3 end idle

# Module 1 stores to the last byte of its state and to the next one by Z, which rises.
@ raises_z image 1 state 8 code E0E7 E0F2 9201 9201 9508
$ run s raises_z
0 load 1 0 0200;0 run 1 0 0;3 fault store 1 3 0208;3 unload 1;4 end idle

# Module 1 branches over 63 words where Z is clear, as it is: F5F9, 63 times.
@ branches_far image 1 code F5F9 0000x63 9508
$ run s branches_far
0 load 1 0 0000;0 run 1 0 0;1 done 1;2 end idle

# Module 1 branches over them where Z is set, as it isn't: F1F9, 63 times.
@ branches_not image 1 code F1F9 0000x63 9508
$ run s branches_not
0 load 1 0 0000;0 run 1 0 0;64 done 1;65 end idle

# Module 1 jumps over 63 words and branches back by 64 to the first of them: C03F 9508, 62 times.
@ branches_back image 1 code C03F 9508 0000x62 F601 900F 9508
$ run s branches_back
0 load 1 0 0000;0 run 1 0 0;2 done 1;3 end idle

# Module 1 would run 10,001 units.
@ lasts_longer image 1 code E886 E193 9701 F7F1 0000 0000 9508
$ run s lasts_longer
0 load 1 0 0000;0 run 1 0 0;10000 fault watchdog 1 6 10ff;10000 unload 1;10000 end idle
";

/// Blocks of another module.
pub(crate) const GIVEN: &str = "\
# Module 2 does nothing.
@ idles image 2 code 9508
# Module 1 gives its state to module 2 and stores to it.
@ gives image 1 state 8 code E062 940E F102 940E F108 E0A0 E0B2 920C 9508
@ s lines 0 load 0;0 load 1
$ run s idles gives
0 load 2 0 0000;0 run 2 0 0;0 done 2;1 load 1 1 0200;1 run 1 0 0;3 say 1 0;6 fault store 1 5 0200;6 unload 1
7 end idle

# Module 2 has a state of 8 bytes and does nothing.
@ keeps image 2 state 8 code 9508
# Module 1 gives the block at 0x0200 to itself.
@ steals image 1 code E080 E092 E061 940E F102 9508
$ run s keeps steals
0 load 2 0 0200;0 run 2 0 0;0 done 2;1 load 1 1 0000;1 run 1 0 0;4 fault owner 1 3 0200;4 unload 1;5 end idle
";

/// Limits that the words give.
const LIMITED: &str = "\
# Module 1 jumps to itself without end.
@ spins image 1 code CFFF
@ s lines 0 load 0
$ run --handler 100 s spins
0 load 1 0 0000;0 run 1 0 0;100 fault watchdog 1 0 10ff;100 unload 1;100 end idle

$ run s --units=40 spins
0 load 1 0 0000;0 run 1 0 0;40 end budget

# Module 1 fills its state of 1024 bytes and reads it, 14 times, waits, and says the last byte that it read: 90,000
# units.
@ tabulates image 1 state 1024 code E00E 01DC E0E0 E0F4 930D 9731 F7E9 01DC E0E0 E0F4 911D 9731 F7E9 950A F791 E8ED \
    E0F7 9731 F7F1 2F81 940E F108 9508
$ run --handler 1000000 s tabulates
0 load 1 0 0200;0 run 1 0 0;89998 say 1 1;89999 done 1;90000 end idle

$ run --units 90000 --handler=1000000 s tabulates
0 load 1 0 0200;0 run 1 0 0;89998 say 1 1;89999 done 1;90000 end idle

$ run --handler=1000000 s tabulates --units 89999
0 load 1 0 0200;0 run 1 0 0;89998 say 1 1;89999 end budget
";

#[test]
fn units_run_as_worked_out(rt: HostRuntime) -> Result<(), Fail> {
    check_table(&rt, rt.alloc(), UNITS)
}

#[test]
fn blocks_of_others_are_kept_from_a_module(rt: HostRuntime) -> Result<(), Fail> {
    check_table(&rt, rt.alloc(), GIVEN)
}

#[test]
fn limits_are_those_of_the_words(rt: HostRuntime) -> Result<(), Fail> {
    check_table(&rt, rt.alloc(), LIMITED)
}
