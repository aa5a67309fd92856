//! The shapes of rewritten code, worked out by hand from the rounds.

use crate::units::bytes_of;
use harbor_short::choose;
use mote_base::Words;
use std::alloc::{AllocError, Global};
use std::process::Abort;
use std::test::Fail;
use unit_code::Shape::{Long, Short};
use unit_code::{CodeError, Shape, units};

const NOP: u16 = 0x0000;

const RET: u16 = 0x9508;

/// Skips the next instruction where bit 0 of R16 is 1.
const SBRS: u16 = 0xFF00;

/// Makes room on the stack: one word, and a call of two words where it is rewritten.
const RESERVE: u16 = 0xD000;

/// The shapes of the units of these words.
fn shapes_of(
    rt: &impl Abort,
    alloc: Global,
    words: &[u16],
    sealed: bool,
) -> Result<Vec<Shape>, CodeError> {
    let bytes = bytes_of(alloc, words)?;
    let code = Words::new(&bytes).expect(rt, "two bytes a word");
    assert!(rt; code.len() <= 65535);
    let list = units(alloc, &code, &[0], sealed)?;
    let Ok(shapes) = choose(alloc, &list.units) else {
        return Err(CodeError::NoMemory);
    };
    Ok(shapes)
}

/// The first words, so many times a word, and the last words.
fn around(
    alloc: Global,
    first: &[u16],
    word: u16,
    count: usize,
    last: &[u16],
) -> Result<Vec<u16>, AllocError> {
    let mut words = Vec::new(alloc);
    words.extend_from_slice(first)?;
    for _ in 0..count {
        words.push(word)?;
    }
    words.extend_from_slice(last)?;
    Ok(words)
}

#[test]
fn branches_at_the_ends_of_their_reach(rt: HostRuntime) -> Result<(), Fail> {
    // Words around so many NOPs, the number of the branch, and its shape. Ahead, the first round measures 63 over 62
    // words, since the long branch has a word more. Back, a room on the stack takes a word more than it took.
    let rows: [(&[u16], usize, &[u16], usize, Shape); 6] = [
        (&[0xF001], 0, &[RET], 0, Short),
        (&[0xF1F1], 62, &[RET], 0, Short),
        (&[0xF1F9], 63, &[RET], 0, Long),
        (&[], 63, &[0xF201, RET], 63, Short),
        (&[RESERVE], 61, &[0xF209, RET], 62, Short),
        (&[RESERVE], 62, &[0xF201, RET], 63, Long),
    ];
    for (first, nops, last, branch, shape) in &rows {
        let words = around(rt.alloc(), first, NOP, *nops, last)?;
        let shapes = shapes_of(&rt, rt.alloc(), &words, false)?;
        assert_eq!(rt;
            shapes.get(*branch),
            Some(shape),
            "{first:?} {nops} {last:?}"
        );
    }
    Ok(())
}

#[test]
fn a_branch_waits_for_the_round_before(rt: HostRuntime) -> Result<(), Fail> {
    // Two branches over the same NOPs to the same unit: the first one measures 64 words, and 63 once the second is
    // short.
    let words = around(rt.alloc(), &[0xF1F1, 0xF1E9], NOP, 61, &[RET])?;
    let shapes = shapes_of(&rt, rt.alloc(), &words, false)?;
    assert_eq!(rt; shapes.first(), Some(&Short));
    assert_eq!(rt; shapes.get(1), Some(&Short));
    let words = around(rt.alloc(), &[0xF1F9, 0xF1F1], NOP, 62, &[RET])?;
    let shapes = shapes_of(&rt, rt.alloc(), &words, false)?;
    assert_eq!(rt; shapes.first(), Some(&Long));
    assert_eq!(rt; shapes.get(1), Some(&Short));
    Ok(())
}

#[test]
fn skips_over_each_kind_of_unit(rt: HostRuntime) -> Result<(), Fail> {
    // What is skipped, whether the image is sealed, and the shape of the skip.
    let rows: [(&[u16], bool, Shape); 17] = [
        (&[NOP], false, Short),
        (&[0x918C], false, Short),
        (&[0x918C], true, Long),
        (&[0x9180, 0x0100], false, Short),
        (&[0x9180, 0x0100], true, Long),
        (&[0x930C], false, Long),
        (&[0x920F], false, Long),
        (&[0x900F], false, Long),
        (&[RESERVE], false, Short),
        (&[0x940E, 0xF108], false, Short),
        (&[0x940E, 0xF200], false, Short),
        (&[0x9509], false, Short),
        (&[RET], false, Short),
        (&[0xC000], false, Long),
        (&[0xD001, RET], false, Long),
        (&[0xF001], false, Short),
        (&[SBRS, SBRS, NOP], false, Short),
    ];
    for (skipped, sealed, shape) in &rows {
        let words = around(rt.alloc(), &[SBRS], NOP, 0, skipped)?;
        let words = around(rt.alloc(), &words, RET, 2, &[])?;
        let shapes = shapes_of(&rt, rt.alloc(), &words, *sealed)?;
        assert_eq!(rt; shapes.first(), Some(shape), "over {skipped:?}, {sealed}");
    }
    Ok(())
}

#[test]
fn no_branch_is_short_before_a_jump(rt: HostRuntime) -> Result<(), Fail> {
    let shapes = shapes_of(&rt, rt.alloc(), &[0xF009, 0xC000, RET], false)?;
    assert_eq!(rt; shapes.as_slice(), [Long, Long, Long].as_slice());
    Ok(())
}

#[test]
fn a_bank_of_branches(rt: HostRuntime) -> Result<(), Fail> {
    // Spelled long, 1,023 branches and a return have 2,048 words.
    let words = around(rt.alloc(), &[], 0xF001, 1023, &[RET])?;
    let shapes = shapes_of(&rt, rt.alloc(), &words, false)?;
    assert_eq!(rt;
        shapes.iter().filter(|shape| **shape == Short).count(),
        1023
    );
    let words = around(rt.alloc(), &[], 0xF001, 1024, &[RET])?;
    let refusal = shapes_of(&rt, rt.alloc(), &words, false).err();
    assert_eq!(rt; refusal, Some(CodeError::TooLong(2050)));
    Ok(())
}
