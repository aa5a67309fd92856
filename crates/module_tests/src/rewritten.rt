//! Rewritten images, worked out by hand from the templates.

use crate::units::bytes_of;
use harbor_rewrite::{RewriteError, bank_code, rewrite};
use module_image::parse;
use mote_base::Words;
use std::alloc::{AllocError, Global};
use std::process::Abort;
use std::test::Fail;
use unit_code::{CodeError, units};

/// The fields before the code, the code, and the bytes behind it.
fn file_of(
    alloc: Global,
    fields: &[u8],
    code: &[u16],
    constants: &[u8],
) -> Result<Vec<u8>, AllocError> {
    let mut file = Vec::new(alloc);
    file.extend_from_slice(fields)?;
    for word in code {
        file.extend_from_slice(&word.to_le_bytes())?;
    }
    file.extend_from_slice(constants)?;
    Ok(file)
}

/// The file of a module of the first version, entered at its first word.
fn module_of(
    rt: &impl Abort,
    alloc: Global,
    flags: u8,
    code: &[u16],
) -> Result<Vec<u8>, AllocError> {
    let mut fields = *b"SOSM\x01\x01\x00\x00\x00\x00\x00\x00\x00\x00\x00";
    fields[6] = flags;
    fields[13] = u8::try_from(code.len()).expect(rt, "few words");
    file_of(alloc, &fields, code, &[])
}

/// The file of the rewritten image.
fn rewritten(alloc: Global, file: &[u8]) -> Option<Vec<u8>> {
    let image = parse(file).ok()?;
    rewrite(alloc, &image).ok()
}

fn refusal(alloc: Global, file: &[u8]) -> Option<RewriteError> {
    let image = parse(file).ok()?;
    rewrite(alloc, &image).err()
}

/// The image, its file and that of the rewritten one.
fn check(rt: &impl Abort, alloc: Global, file: &[u8], expected: &[u8]) -> Result<(), Fail> {
    let found = rewritten(alloc, file).expect(rt, "the image is rewritten");
    assert_eq!(rt; found.as_slice(), expected);
    assert_eq!(rt; refusal(alloc, expected), Some(RewriteError::Already));
    Ok(())
}

#[test]
fn a_guarded_store(rt: HostRuntime) -> Result<(), Fail> {
    let file = *b"SOSM\x01\x02\x00\x00\x00\x00\x00\x00\x00\x02\x00\x0C\x93\x08\x95";
    let fields = *b"SOSM\x01\x02\x01\x00\x00\x00\x00\x00\x00\x05\x00";
    let words = [0x940E, 0xF000, 0x930C, 0x940C, 0xF096];
    let expected = file_of(rt.alloc(), &fields, &words, &[])?;
    check(&rt, rt.alloc(), &file, &expected)
}

#[test]
fn templates_in_their_shapes(rt: HostRuntime) -> Result<(), Fail> {
    // Original words and rewritten ones: a loop, a branch ahead, skips over a store, a word, two words, a branch that
    // becomes short in the round before, and a jump, a branch before a jump, a local call.
    let rows: [(&[u16], &[u16]); 9] = [
        (
            &[0xE00A, 0x950A, 0xF7F1, 0x9508],
            &[0xE00A, 0x950A, 0xF7F1, 0x940C, 0xF096],
        ),
        (
            &[0x3020, 0xF009, 0x9508, 0x9508],
            &[0x3020, 0xF011, 0x940C, 0xF096, 0x940C, 0xF096],
        ),
        (
            &[0xFF00, 0x931C, 0x9508],
            &[
                0xFF00, 0xC001, 0xC003, 0x940E, 0xF000, 0x931C, 0x940C, 0xF096,
            ],
        ),
        (&[0xFF00, 0x0000, 0x9508], &[0xFF00, 0x0000, 0x940C, 0xF096]),
        (
            &[0xFF00, 0x940E, 0xF108, 0x9508],
            &[0xFF00, 0x940E, 0xF108, 0x940C, 0xF096],
        ),
        (
            &[0xFF00, 0xF001, 0x9508, 0x9508],
            &[0xFF00, 0xF001, 0x940C, 0xF096, 0x940C, 0xF096],
        ),
        (
            &[0xFF00, 0xC000, 0x9508, 0x9508],
            &[
                0xFF00, 0xC001, 0xC001, 0xC000, 0x940C, 0xF096, 0x940C, 0xF096,
            ],
        ),
        (
            &[0xF009, 0xC000, 0x9508],
            &[0xF409, 0xC001, 0xC000, 0x940C, 0xF096],
        ),
        (
            &[0xD001, 0x9508, 0x9508],
            &[0x940E, 0xF094, 0xC002, 0x940C, 0xF096, 0x940C, 0xF096],
        ),
    ];
    for (code, expected) in &rows {
        let file = module_of(&rt, rt.alloc(), 0, code)?;
        let rewritten = module_of(&rt, rt.alloc(), 1, expected)?;
        check(&rt, rt.alloc(), &file, &rewritten)?;
    }
    Ok(())
}

#[test]
fn a_guarded_load(rt: HostRuntime) -> Result<(), Fail> {
    let fields = *b"SOSM\x02\x01\x02\x00\x00\x00\x00\x00\x00\x02\x00\x00\x00";
    let file = file_of(rt.alloc(), &fields, &[0x918C, 0x9508], &[])?;
    let fields = *b"SOSM\x02\x01\x03\x00\x00\x00\x00\x00\x00\x05\x00\x00\x00";
    let words = [0x940E, 0xF381, 0x918C, 0x940C, 0xF096];
    let expected = file_of(rt.alloc(), &fields, &words, &[])?;
    check(&rt, rt.alloc(), &file, &expected)
}

#[test]
fn entries_and_constants(rt: HostRuntime) -> Result<(), Fail> {
    // The handler is the unit behind the store, the provided function the one behind that.
    let fields = *b"SOSM\x02\x07\x00\x08\x00\x01\x00\x01\x00\x03\x00\x03\x00\x04!abc\x02\x00";
    let file = file_of(rt.alloc(), &fields, &[0x930C, 0x950A, 0x9508], b"ABC")?;
    let fields = *b"SOSM\x02\x07\x01\x08\x00\x03\x00\x01\x00\x06\x00\x03\x00\x04!abc\x04\x00";
    let words = [0x940E, 0xF000, 0x930C, 0x950A, 0x940C, 0xF096];
    let expected = file_of(rt.alloc(), &fields, &words, b"ABC")?;
    check(&rt, rt.alloc(), &file, &expected)
}

#[test]
fn code_without_units(rt: HostRuntime) -> Result<(), Fail> {
    // Of a rewritten image the code is not looked at.
    let refused = RewriteError::Code(CodeError::Refused(0, 1));
    let file = module_of(&rt, rt.alloc(), 0, &[0x9409, 0x9508])?;
    assert_eq!(rt; refusal(rt.alloc(), &file), Some(refused));
    let file = module_of(&rt, rt.alloc(), 1, &[0x9409, 0x9508])?;
    assert_eq!(rt; refusal(rt.alloc(), &file), Some(RewriteError::Already));
    let file = *b"SOSM\x01\x01\x00\x00\x00\x01\x00\x00\x00\x01\x00\x08\x95";
    let refused = RewriteError::Code(CodeError::Entry(1));
    assert_eq!(rt; refusal(rt.alloc(), &file), Some(refused));
    Ok(())
}

#[test]
fn a_bank_of_branches(rt: HostRuntime) -> Result<(), Fail> {
    // Spelled long they have 2,048 words; short, a word each, and two for the return.
    let mut words = Vec::new(rt.alloc());
    for _ in 0..1023 {
        words.push(0xF001)?;
    }
    words.push(0x9508)?;
    let bytes = bytes_of(rt.alloc(), &words)?;
    let code = Words::new(&bytes).expect(&rt, "two bytes a word");
    assert!(rt; code.len() <= 65535);
    let list = units(rt.alloc(), &code, &[0], false)?;
    let bank = bank_code(rt.alloc(), &list).expect(&rt, "memory");
    assert_eq!(rt; bank.words.len(), 1025);
    assert_eq!(rt; bank.words.last(), Some(&0xF096));
    assert_eq!(rt; bank.starts.last(), Some(&1023));
    assert_eq!(rt; bank.units.len(), 1024);
    Ok(())
}
