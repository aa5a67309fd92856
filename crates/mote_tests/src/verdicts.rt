//! Rewritten images, verdicts on them, and their listings.

use crate::tables::check_table;
use std::test::Fail;

const REWRITTEN: &str = "\
# A guarded store and a return.
@ store image 2 flags 1 code 940E F000 930C 940C F096
# The module of the store, before it was rewritten.
@ store_original image 2 code 930C 9508
$ rewrite store_original
= store

# A long skip over a guarded store, and a return.
@ skip image 2 flags 1 code FF00 C001 C003 940E F000 931C 940C F096
# That of the skip.
@ skip_original image 2 code FF00 931C 9508
$ rewrite skip_original
= skip

# The same loop with a short one.
@ loop_short image 1 flags 1 code E00A 950A F7F1 940C F096
# That of the loop.
@ loop_original image 1 code E00A 950A F7F1 9508
$ rewrite loop_original
= loop_short

# A sealed image of the second version with a guarded load.
@ load_sealed image 1 version 2 flags 3 code 940E F381 918C 940C F096
# That of the load: 918C 9508, sealed.
@ load_original image 1 version 2 flags 2 code 918C 9508
$ rewrite load_original
= load_sealed

$3 rewrite store
refused already

# Module 1 begins with an indirect jump, which is refused.
@ jumps image 1 code 9409 9508
$3 rewrite jumps
refused code 2 0 1

@ cut hex 53 4F 53 4D 01
$3 rewrite cut
refused image 1 5

$2 rewrite
mote: usage
";

const VERDICTS: &str = "\
# A guarded store and a return.
@ store image 2 flags 1 code 940E F000 930C 940C F096
$ verify store
ok 2

# A long skip over a guarded store, and a return.
@ skip image 2 flags 1 code FF00 C001 C003 940E F000 931C 940C F096
$ verify skip
ok 3

# A loop with a long branch.
@ loop_long image 1 flags 1 code E00A 950A F009 CFFD 940C F096
$ verify loop_long
ok 4

# The same loop with a short one.
@ loop_short image 1 flags 1 code E00A 950A F7F1 940C F096
$ verify loop_short
ok 4

# A sealed image of the second version with a guarded load.
@ load_sealed image 1 version 2 flags 3 code 940E F381 918C 940C F096
$ verify load_sealed
ok 2

$ verify -- store
ok 2

# Module 1 says byte 65.
@ says image 1 code E481 940E F108 9508
$3 verify says
refused original

@ cut hex 53 4F 53 4D 01
$3 verify cut
refused image 1 5

# The same words without the seal.
@ load_unsealed image 1 version 2 flags 1 code 940E F381 918C 940C F096
$3 verify load_unsealed
refused verify 1 0

# A sealed image with a load and no guard.
@ bare_load image 1 version 2 flags 3 code 918C 940C F096
$3 verify bare_load
refused verify 2 0

# A jump into a template.
@ astray image 1 flags 1 code C002 940E F000 930C 940C F096
$3 verify astray
refused verify 3 0

# A store and no guard.
@ bare_store image 1 flags 1 code 930C 940C F096
$3 verify bare_store
refused verify 2 0

# A store behind the guard of a push.
@ other_guard image 1 flags 1 code 940E F091 930C 940C F096
$3 verify other_guard
refused verify 2 0

# A guard alone.
@ guard_alone image 1 flags 1 code 940E F000
$3 verify guard_alone
refused verify 2 0

# A short skip over a guarded store.
@ short_skip image 1 flags 1 code FF00 940E F000 930C 940C F096
$3 verify short_skip
refused verify 2 0

# A jump to no entry.
@ no_entry image 1 flags 1 code 940C F097
$3 verify no_entry
refused verify 1 0

# Code that runs past its end.
@ falls_off image 1 flags 1 code E481
$3 verify falls_off
refused verify 4 0

# No code.
@ empty image 1 flags 1
$3 verify empty
refused verify 5 0

# A return that is entered at its second word.
@ entered_within image 1 flags 1 handler 1 code 940C F096
$3 verify entered_within
refused verify 7 1

$2 verify
mote: usage

$2 verify store store
mote: usage

$4 verify b

$ list store
0 0000 st x,r16;1 0003 ret

$ list skip
0 0000 sbrs r16,0;1 0003 st x,r17;2 0006 ret

$ list loop_long
0 0000 ldi r16,10;1 0001 dec r16;2 0002 brbc 1,.1;3 0004 ret

$ list loop_short
0 0000 ldi r16,10;1 0001 dec r16;2 0002 brbc 1,.1;3 0003 ret

$ list load_sealed
0 0000 ld r24,x;1 0003 ret

$3 list astray
refused verify 3 0

$3 list empty
refused verify 5 0
";

#[test]
fn rewritings_are_the_worked_ones(rt: HostRuntime) -> Result<(), Fail> {
    check_table(&rt, rt.alloc(), REWRITTEN)
}

#[test]
fn verdicts_are_the_worked_ones(rt: HostRuntime) -> Result<(), Fail> {
    check_table(&rt, rt.alloc(), VERDICTS)
}
