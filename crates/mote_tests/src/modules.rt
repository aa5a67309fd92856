//! Modules as text: their images, and the text of an image.

use crate::tables::check_table;
use std::test::Fail;

const MODULES: &str = "\
# Module 1 says byte 65.
@ says image 1 code E481 940E F108 9508
# The module that says 65.
@ says_text lines module 1;version 1;state 0;handler .0;code;ldi r24,65;kcall 8;ret
$ asm says_text
= says

$ source says
module 1;version 1;state 0;handler .0;code;ldi r24,65;kcall 8;ret

# A module that counts down.
@ counts image 1 code E00A 950A F7F1 9508
# The same with a label, a remark and an empty line.
@ counts_labelled lines # counts down;module 1;version 1;state 0;handler .0;;code;ldi r16,10;again:;dec r16;\
    brbc 1,.again;ret
$ asm counts_labelled
= counts

$ source counts
module 1;version 1;state 0;handler .0;code;ldi r16,10;dec r16;brbc 1,.1;ret

# Texts that are no module, by their sixth line or what is left out.
@ no_register lines module 1;version 1;state 0;handler .0;code;ldi r15,1;kcall 8;ret
$3 asm no_register
refused asm 1 6

@ no_label lines module 1;version 1;state 0;handler .0;code;rjmp .x;kcall 8;ret
$3 asm no_label
refused asm 2 6

@ no_unit lines module 1;version 1;state 0;handler .0;code;rjmp .9;kcall 8;ret
$3 asm no_unit
refused asm 3 6

@ no_return lines module 1;version 1;state 0;handler .0;code;ldi r24,65;kcall 8
$3 asm no_return
refused asm 4 7

@ none hex 00x0
$3 asm none
refused asm 1 1

# A rewriter's image.
@ rewritten image 2 flags 1 code 940E F000 930C 940C F096
$3 source rewritten
refused already

# Module 1 begins with an indirect jump, which is refused.
@ jumps image 1 code 9409 9508
$3 source jumps
refused code 2 0 1

$3 source says_text
refused image 2 0

$2 asm
mote: usage

$2 asm says_text says_text
mote: usage

$2 asm -a
mote: usage

$2 source
mote: usage

$ source -- says
module 1;version 1;state 0;handler .0;code;ldi r24,65;kcall 8;ret

$4 source b

# A text has the limit of a script: one line that has no end is no module, and one more byte is too much.
@ text hex 00x1048576
$3 asm text
refused asm 1 1

@ text hex 00x1048577
$3 asm text
refused size 0
";

#[test]
fn modules_are_the_worked_ones(rt: HostRuntime) -> Result<(), Fail> {
    check_table(&rt, rt.alloc(), MODULES)
}
