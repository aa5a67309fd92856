//! Files with one field changed, cut or lengthened, and the way from values to a file and back.

use module_image::{Provided, Subscribed, parse, write_image, write_image2};
use std::test::Fail;

/// Module 1, with nothing provided or subscribed, and four words of code.
const ALONE: [u8; 23] =
    *b"SOSM\x01\x01\x00\x00\x00\x00\x00\x00\x00\x04\x00\x81\xE4\x0E\x94\x08\xF1\x08\x95";

/// Module 7, with two provided functions, a subscription, and one word of code.
const LINKED: [u8; 37] =
    *b"SOSM\x01\x07\x01\x02\x01\x03\x00\x02\x01\x01\x00\x01!abc\x04\x02\x05~abc\x00\x00\xFE\x09vvv0\x08\x95";

/// The first of them in the second version: as it was, and with three constant bytes behind another code.
const UPGRADED: [u8; 25] =
    *b"SOSM\x02\x01\x00\x00\x00\x00\x00\x00\x00\x04\x00\x00\x00\x81\xE4\x0E\x94\x08\xF1\x08\x95";

const CONSTANT: [u8; 30] = *b"SOSM\x02\x01\x00\x00\x00\x00\x00\x00\x00\x05\x00\x03\x00\
\xFA\x01\x81\x81\x0E\x94\x08\xF1\x08\x95ABC";

fn refusal(file: &[u8]) -> Option<(u8, u32)> {
    let error = parse(file).err()?;
    Some((error.number(), error.value()))
}

#[test]
fn a_file_cut_short_is_refused(rt: HostRuntime) {
    for (length, _) in ALONE.iter().enumerate() {
        assert_eq!(rt;
            refusal(&ALONE[..length]),
            Some((1, length as u32)),
            "{length}"
        );
    }
    for (length, _) in LINKED.iter().enumerate() {
        assert_eq!(rt;
            refusal(&LINKED[..length]),
            Some((1, length as u32)),
            "{length}"
        );
    }
}

#[test]
fn the_first_field_that_fails_decides(rt: HostRuntime) {
    assert_eq!(rt; refusal(&ALONE), None);
    assert_eq!(rt; refusal(&LINKED), None);
    // A place, the byte that is put there, and the refusal.
    let rows = [
        (0, 0, Some((2, 0))),
        (3, 0x6D, Some((2, 0))),
        (4, 0, Some((3, 0))),
        (4, 3, Some((3, 3))),
        (5, 0, Some((4, 5))),
        (5, 1, None),
        (5, 254, None),
        (5, 255, Some((4, 5))),
        (6, 0, None),
        (6, 2, Some((4, 6))),
        (7, 255, None),
        (10, 255, None),
        (11, 17, Some((4, 11))),
        (12, 17, Some((4, 12))),
        (13, 0, Some((5, 35))),
        (11, 16, Some((4, 30))),
        (12, 16, Some((1, 37))),
        (13, 2, Some((1, 37))),
        (14, 255, Some((1, 37))),
        (15, 4, None),
        (15, 5, Some((4, 22))),
        (15, 255, Some((4, 22))),
        (16, 0x20, Some((4, 16))),
        (19, 0x7E, None),
        (19, 0x7F, Some((4, 19))),
        (21, 255, None),
        (22, 1, Some((4, 22))),
        (22, 255, None),
        (23, 0x7F, Some((4, 23))),
        (29, 0, Some((4, 29))),
        (29, 255, Some((4, 29))),
        (30, 255, None),
        (31, 0x20, Some((4, 31))),
        (34, 0x80, Some((4, 34))),
    ];
    for (place, byte, want) in rows {
        let mut file = LINKED;
        if place < file.len() {
            file[place] = byte;
        }
        assert_eq!(rt; refusal(&file), want, "{byte} at {place}");
    }
}

#[test]
fn bytes_after_the_code_are_refused(rt: HostRuntime) -> Result<(), Fail> {
    for more in [1, 2] {
        let mut file = ALONE.to_vec(rt.alloc())?;
        for _ in 0..more {
            file.push(0)?;
        }
        assert_eq!(rt; refusal(&file), Some((5, 23)), "{more}");
    }
    Ok(())
}

#[test]
fn the_parts_are_read(rt: HostRuntime) -> Result<(), Fail> {
    let image = parse(&LINKED)?;
    assert_eq!(rt; image.id(), 7);
    assert!(rt; image.rewritten());
    assert_eq!(rt; image.state_size(), 0x0102);
    assert_eq!(rt; image.marks().as_slice(), [3, 0x0204, 0].as_slice());
    let code = image.code();
    assert_eq!(rt; code.len(), 1);
    let face = image.face();
    assert_eq!(rt; face.id, 7);
    let provided = [
        Provided {
            func: 1,
            proto: *b"!abc",
            word: 0x0204,
        },
        Provided {
            func: 5,
            proto: *b"~abc",
            word: 0,
        },
    ];
    assert_eq!(rt; face.provided.as_slice(), provided.as_slice());
    let subscribed = [Subscribed {
        module: 254,
        func: 9,
        proto: *b"vvv0",
    }];
    assert_eq!(rt; face.subscribed.as_slice(), subscribed.as_slice());
    Ok(())
}

/// The longest face: ids from 240 to 255, and sixteen subscriptions.
fn longest(rt: &HostRuntime) -> Result<Vec<u8>, Fail> {
    let mut file = b"SOSM\x01\xFE\x00\xFF\xFF\x00\x00\x10\x10\x00\x00".to_vec(rt.alloc())?;
    for func in 240..=255 {
        file.extend_from_slice(&[func, 0x21, 0x7E, 0x41, 0x61, func, 0])?;
    }
    for module in 1..=16 {
        file.extend_from_slice(&[module, 255, 0x7E, 0x7E, 0x21, 0x21])?;
    }
    Ok(file)
}

#[test]
fn what_is_read_is_written_again(rt: HostRuntime) -> Result<(), Fail> {
    let file = longest(&rt)?;
    assert_eq!(rt; file.len(), 15 + 16 * 7 + 16 * 6);
    let image = parse(&file)?;
    let face = image.face();
    assert_eq!(rt; face.provided.len(), 16);
    assert_eq!(rt; face.subscribed.len(), 16);
    let again = write_image(
        rt.alloc(),
        &face,
        image.rewritten(),
        image.state_size(),
        0,
        &[],
    )?;
    assert_eq!(rt; again.as_slice(), file.as_slice());
    Ok(())
}

#[test]
fn the_second_version_is_read(rt: HostRuntime) -> Result<(), Fail> {
    let plain = parse(&ALONE)?;
    assert_eq!(rt; (plain.version(), plain.sealed()), (1, false));
    assert_eq!(rt; plain.constants(), b"".as_slice());
    let image = parse(&CONSTANT)?;
    assert_eq!(rt;
        (image.version(), image.id(), image.state_size()),
        (2, 1, 0)
    );
    assert!(rt; !image.rewritten());
    assert!(rt; !image.sealed());
    let code = image.code();
    assert_eq!(rt; code.len(), 5);
    for (i, want) in [0x01FA, 0x8181, 0x940E, 0xF108, 0x9508]
        .into_iter()
        .enumerate()
    {
        if i < code.len() {
            assert_eq!(rt; code.at(i), want, "word {i}");
        }
    }
    assert_eq!(rt; image.constants(), b"ABC".as_slice());
    // A place, the byte that is put there, and the refusal.
    let rows = [
        (4, 1, Some((5, 25))),
        (4, 3, Some((3, 3))),
        (6, 1, None),
        (6, 3, None),
        (6, 4, Some((4, 6))),
        (13, 4, Some((5, 28))),
        (13, 6, Some((1, 30))),
        (15, 2, Some((5, 29))),
        (15, 4, Some((1, 30))),
        (16, 12, Some((4, 15))),
        (16, 11, Some((1, 30))),
    ];
    for (place, byte, want) in rows {
        let mut file = CONSTANT;
        if place < file.len() {
            file[place] = byte;
        }
        assert_eq!(rt; refusal(&file), want, "{byte} at {place}");
    }
    Ok(())
}

#[test]
fn a_second_version_is_cut_or_lengthened(rt: HostRuntime) -> Result<(), Fail> {
    for (length, _) in CONSTANT.iter().enumerate() {
        assert_eq!(rt;
            refusal(&CONSTANT[..length]),
            Some((1, length as u32)),
            "{length}"
        );
    }
    let mut flagged = ALONE;
    flagged[6] = 2;
    assert_eq!(rt; refusal(&flagged), Some((4, 6)));
    let mut many = UPGRADED;
    many[15] = 1;
    many[16] = 12;
    assert_eq!(rt; refusal(&many), Some((4, 15)));
    assert_eq!(rt; refusal(&many[..17]), Some((4, 15)));
    assert_eq!(rt; refusal(&many[..16]), Some((1, 16)));

    let header = b"SOSM\x02\x01\x00\x00\x00\x00\x00\x00\x00\x00\x00\x00\x0C";
    let mut file = header.to_vec(rt.alloc())?;
    for _ in 0..3072 {
        file.push(7)?;
    }
    assert_eq!(rt; parse(&file)?.constants().len(), 3072);
    file.pop();
    assert_eq!(rt; refusal(&file), Some((1, 3088)));
    file.push(7)?;
    file.push(7)?;
    assert_eq!(rt; refusal(&file), Some((5, 3089)));
    Ok(())
}

#[test]
fn the_second_version_is_written(rt: HostRuntime) -> Result<(), Fail> {
    let image = parse(&ALONE)?;
    let face = image.face();
    let code = [0xE481, 0x940E, 0xF108, 0x9508];
    let again = write_image(rt.alloc(), &face, false, 0, 0, &code)?;
    assert_eq!(rt; again.as_slice(), ALONE.as_slice());
    let file = write_image2(rt.alloc(), &face, 0, 0, 0, &code, &[])?;
    assert_eq!(rt; file.as_slice(), UPGRADED.as_slice());
    let sealed = write_image2(rt.alloc(), &face, 3, 0, 0, &code, b"AB")?;
    let back = parse(&sealed)?;
    assert!(rt; back.sealed());
    assert!(rt; back.rewritten());
    assert_eq!(rt; back.version(), 2);
    assert_eq!(rt; back.constants(), b"AB".as_slice());
    Ok(())
}
