//! Images that the top call writes: upgraded and sealed.

use crate::tables::check_table;
use std::test::Fail;

const IMAGES: &str = "\
# The module that says 65, in the second version.
@ second image 1 version 2 code E481 940E F108 9508
# Module 1 says byte 65.
@ says image 1 code E481 940E F108 9508
$ upgrade says
= second

$3 upgrade second
refused upgraded

# The same, sealed.
@ sealed image 1 version 2 flags 2 code E481 940E F108 9508
$3 upgrade sealed
refused upgraded

# Module 1 of the second version says its second constant.
@ constant image 1 version 2 const 41 42 43 code 01FA 8181 940E F108 9508
$3 upgrade constant
refused upgraded

# The same, in the second version.
@ rewritten_second image 2 version 2 flags 1 code 940E F000 930C 940C F096
# Module 2 is a rewriter's.
@ rewritten image 2 flags 1 code 940E F000 930C 940C F096
$ upgrade rewritten
= rewritten_second

# The module whose code is refused, in the second version.
@ jumps_second image 1 version 2 code 9409 9508
# Module 1 begins with an indirect jump, which is refused.
@ jumps image 1 code 9409 9508
$ upgrade jumps
= jumps_second

# The module that provides a function and subscribes to one, in the second version.
@ face_second image 1 version 2 handler 1 provides 1/iv00/0 subscribes 2/1/iv00 code 9508 E481 940E F108 9508
# Module 1 provides function 1 at word 0, subscribes to function 1 of module 2, and says 65 from word 1 on.
@ has_face image 1 handler 1 provides 1/iv00/0 subscribes 2/1/iv00 code 9508 E481 940E F108 9508
$ upgrade has_face
= face_second

# It asks for 3073 constants, one more than there may be.
@ asks_many hex 53 4F 53 4D 02 01 00 00 00 00 00 00 00 04 00 01 0C 81 E4 0E 94 08 F1 08 95
$3 upgrade asks_many
refused image 4 15

$2 upgrade
mote: usage

$2 upgrade says says
mote: usage

$4 upgrade b

$ seal says
= sealed

$ seal second
= sealed

$3 seal sealed
refused already

# The same, sealed.
@ constant_sealed image 1 version 2 flags 2 const 41 42 43 code 01FA 8181 940E F108 9508
$ seal constant
= constant_sealed

$3 seal rewritten
refused already

$3 seal rewritten_second
refused already

$3 seal asks_many
refused image 4 15

$2 seal
mote: usage

$2 seal -a
mote: usage

$ list second
0 0000 ldi r24,65;1 0001 kcall 8;2 0003 ret

$ list sealed
0 0000 ldi r24,65;1 0001 kcall 8;2 0003 ret

$3 list asks_many
refused image 4 15

# The first version has no seal.
@ flagged image 1 flags 2 code E481 940E F108 9508
$3 list flagged
refused image 4 6

# The second has two flags.
@ flagged_second image 1 version 2 flags 4 code E481 940E F108 9508
$3 list flagged_second
refused image 4 6

@ s lines 0 load 0
$ run s constant
0 load 1 0 0000;0 run 1 0 0;2 say 1 66;3 done 1;4 end idle

$ run s second
0 load 1 0 0000;0 run 1 0 0;1 say 1 65;2 done 1;3 end idle
";

/// An image is put at once: a put that fails writes nothing of it, and none follows.
const PUTS: &str = "\
@ says image 1 code E481 940E F108 9508
@ second image 1 version 2 code E481 940E F108 9508
@ sealed image 1 version 2 flags 2 code E481 940E F108 9508
!put 0
$5 upgrade says

!put 1
$ upgrade says
= second

!put 0
$5 seal says

!put 1
$ seal says
= sealed
";

const SIZES: &str = "\
# An image to upgrade or to seal has its limit too. Bytes that are all 0 begin no image.
@ a hex 00x65536
$3 upgrade a
refused image 2 0

$3 seal a
refused image 2 0

@ a hex 00x65537
$3 upgrade a
refused size 0

$3 seal a
refused size 0

# An image without code and with as many constants as there may be, 3072, has no units; a byte less is cut short, and one
# more is behind the end.
@ a hex 53 4F 53 4D 02 01 00 00 00 00 00 00 00 00 00 00 0C 07x3071
$3 list a
refused image 1 3088

@ a hex 53 4F 53 4D 02 01 00 00 00 00 00 00 00 00 00 00 0C 07x3072
$3 list a
refused code 5 0 0

@ a hex 53 4F 53 4D 02 01 00 00 00 00 00 00 00 00 00 00 0C 07x3073
$3 list a
refused image 5 3089
";

#[test]
fn images_are_the_worked_ones(rt: HostRuntime) -> Result<(), Fail> {
    check_table(&rt, rt.alloc(), IMAGES)
}

#[test]
fn failed_put_writes_no_image(rt: HostRuntime) -> Result<(), Fail> {
    check_table(&rt, rt.alloc(), PUTS)
}

#[test]
fn images_and_constants_have_their_limits(rt: HostRuntime) -> Result<(), Fail> {
    check_table(&rt, rt.alloc(), SIZES)
}
