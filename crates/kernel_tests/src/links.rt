//! Modules that come, go and come again, and as many slots as a module has.

ghost use Rattle.std.specs.Prelude.{IfOk};
ghost use Rattle.module_image.specs.Contents.{FaceRules};

use func_link::Links;
use module_image::{Face, ImageError, parse};
use std::test::Fail;

/// Module 1, which subscribes to its own function 3, to function 7 of module 2 by two prototypes, to function 1 of
/// module 2, and to a module that isn't there.
const USER: [u8; 52] = *b"SOSM\x01\x01\x00\x00\x00\x00\x00\x01\x05\x00\x00\x03vv00\x00\x00\
\x01\x03vv00\x02\x07iv00\x02\x07iv01\x02\x01iv00\x09\x07iv00";

/// Module 2, which provides function 1 as `iv01` and function 7 as `iv00`.
const PROVIDER: [u8; 29] =
    *b"SOSM\x01\x02\x00\x00\x00\x00\x00\x02\x00\x00\x00\x01iv01\x00\x00\x07iv00\x00\x00";

fn face_of(file: &[u8]) -> Result<Face, ImageError>
    ensures { IfOk result (λ face. FaceRules face) }
{
    let image = parse(file)?;
    Ok(image.face())
}

/// What the first six slots of a domain lead to.
fn slots(links: &Links, d: u8) -> [Option<(u8, u8)>; 6] {
    [
        links.bound(d, 0),
        links.bound(d, 1),
        links.bound(d, 2),
        links.bound(d, 3),
        links.bound(d, 4),
        links.bound(d, 5),
    ]
}

#[test]
fn links_follow_the_modules(rt: HostRuntime) -> Result<(), Fail> {
    let user = face_of(&USER)?;
    assert_eq!(rt; user.id, 1);
    let provider = face_of(&PROVIDER)?;
    assert_eq!(rt; provider.id, 2);
    let itself = Some((0, 0));
    let alone = [itself, None, None, None, None, None];

    let mut links = Links::new(rt.alloc())?;
    assert_eq!(rt; slots(&links, 0), [None; 6]);
    links.module_in(0, &user);
    assert_eq!(rt; slots(&links, 0), alone);
    links.module_in(4, &provider);
    assert_eq!(rt;
        slots(&links, 0),
        [itself, Some((4, 1)), None, None, None, None]
    );
    assert_eq!(rt; slots(&links, 4), [None; 6]);
    links.module_out(4);
    assert_eq!(rt; slots(&links, 0), alone);
    links.module_in(6, &provider);
    assert_eq!(rt;
        slots(&links, 0),
        [itself, Some((6, 1)), None, None, None, None]
    );
    links.module_out(0);
    assert_eq!(rt; slots(&links, 0), [None; 6]);
    Ok(())
}

#[test]
fn sixteen_slots_are_bound(rt: HostRuntime) -> Result<(), Fail> {
    let mut file = b"SOSM\x01\xFE\x00\x00\x00\x00\x00\x10\x10\x00\x00".to_vec(rt.alloc())?;
    for func in 0..16 {
        file.extend_from_slice(&[func, 0x76, 0x76, 0x30, 0x30, 0, 0])?;
    }
    for func in 0..16 {
        file.extend_from_slice(&[254, 15 - func, 0x76, 0x76, 0x30, 0x30])?;
    }
    let face = face_of(&file)?;
    let mut links = Links::new(rt.alloc())?;
    links.module_in(3, &face);
    for i in 0..16 {
        assert_eq!(rt; links.bound(3, i), Some((3, 15 - i)), "slot {i}");
    }
    assert_eq!(rt; links.bound(3, 16), None);
    assert_eq!(rt; links.bound(2, 0), None);
    Ok(())
}
