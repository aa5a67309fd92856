//! Code worked out by hand from the instruction set manual and the rules of the units.

use Unit::{
    Branch, Jump, KernelCall, Load, LocalCall, Plain, Pop, Push, Reserve, Return, Skip, SlotCall,
    SlotIndirect, SpGroup, Store,
};
use avr_isa::Instr;
use mote_base::Words;
use std::alloc::{AllocError, Global};
use std::process::Abort;
use std::test::Fail;
use unit_code::{CodeError, Shape, Unit, UnitList, spelled_len, units};

/// The words as bytes, low byte first.
pub fn bytes_of(alloc: Global, words: &[u16]) -> Result<Vec<u8>, AllocError> {
    let mut bytes = Vec::new(alloc);
    for word in words {
        for byte in word.to_le_bytes() {
            bytes.push(byte)?;
        }
    }
    Ok(bytes)
}

fn read(
    rt: &impl Abort,
    alloc: Global,
    words: &[u16],
    marks: &[u16],
    sealed: bool,
) -> Result<UnitList, CodeError> {
    let bytes = bytes_of(alloc, words)?;
    let code = Words::new(&bytes).expect(rt, "two bytes a word");
    assert!(rt; code.len() <= 65535);
    units(alloc, &code, marks, sealed)
}

fn branch(set: bool, target: u16) -> Unit {
    Branch {
        set,
        bit: 1,
        target,
    }
}

/// What tells one instruction from another: a number for each that the rows name, and its operands.
fn parts(instruction: &Instr) -> Option<(u8, u8, u16)> {
    Some(match *instruction {
        Instr::Nop => (0, 0, 0),
        Instr::Movw(d, r) => (1, d, u16::from(r)),
        Instr::Cpi(d, constant) => (2, d, u16::from(constant)),
        Instr::Lds(d, address) => (3, d, address),
        Instr::Sts(r, address) => (4, r, address),
        Instr::StX(r) => (5, r, 0),
        Instr::StXDec(r) => (6, r, 0),
        Instr::StdY(r, q) => (7, r, u16::from(q)),
        Instr::Dec(d) => (8, d, 0),
        Instr::Bclr(flag) => (9, flag, 0),
        Instr::Adiw(d, constant) => (10, d, u16::from(constant)),
        Instr::Sbiw(d, constant) => (11, d, u16::from(constant)),
        Instr::In(d, port) => (12, d, u16::from(port)),
        Instr::Ldi(d, constant) => (13, d, u16::from(constant)),
        Instr::Sbrs(r, bit) => (14, r, u16::from(bit)),
        Instr::LdX(d) => (15, d, 0),
        Instr::LdXInc(d) => (16, d, 0),
        Instr::LdXDec(d) => (17, d, 0),
        Instr::LddY(d, q) => (18, d, u16::from(q)),
        Instr::LdYInc(d) => (19, d, 0),
        Instr::LdYDec(d) => (20, d, 0),
        Instr::LddZ(d, q) => (21, d, u16::from(q)),
        Instr::LdZInc(d) => (22, d, 0),
        Instr::LdZDec(d) => (23, d, 0),
        _ => return None,
    })
}

fn is_same_instruction(found: &Instr, wanted: &Instr) -> bool {
    match (parts(found), parts(wanted)) {
        (Some(found), Some(wanted)) => found == wanted,
        _ => false,
    }
}

pub fn is_same_unit(found: &Unit, wanted: &Unit) -> bool {
    match (found, wanted) {
        (Plain(a), Plain(b)) => is_same_instruction(a, b),
        (Store(a), Store(b)) => is_same_instruction(a, b),
        (Load(a), Load(b)) => is_same_instruction(a, b),
        (Skip(a), Skip(b)) => is_same_instruction(a, b),
        (Push(a), Push(b)) => a == b,
        (Pop(a), Pop(b)) => a == b,
        (SpGroup { with_sreg: a }, SpGroup { with_sreg: b }) => a == b,
        (Jump(a), Jump(b)) => a == b,
        (LocalCall(a), LocalCall(b)) => a == b,
        (KernelCall(a), KernelCall(b)) => a == b,
        (SlotCall(a), SlotCall(b)) => a == b,
        (Reserve, Reserve) | (SlotIndirect, SlotIndirect) | (Return, Return) => true,
        (Branch { set, bit, target }, _) => is_branch(wanted, *set, *bit, *target),
        _ => false,
    }
}

fn is_branch(unit: &Unit, to: bool, of: u8, at: u16) -> bool {
    match unit {
        Branch { set, bit, target } => *set == to && *bit == of && *target == at,
        _ => false,
    }
}

/// The words have these units, with their first words, and are entered at the first.
fn check(
    rt: &impl Abort,
    alloc: Global,
    words: &[u16],
    expected: &[Unit],
    places: &[u16],
) -> Result<(), Fail> {
    let list = read(rt, alloc, words, &[0], false)?;
    check_list(rt, words, &list, expected, places);
    Ok(())
}

fn check_list(rt: &impl Abort, words: &[u16], list: &UnitList, expected: &[Unit], places: &[u16]) {
    assert_eq!(rt; list.units.len(), expected.len(), "the units of {words:?}");
    for (unit, wanted) in list.units.iter().zip(expected) {
        assert!(rt; is_same_unit(unit, wanted), "the units of {words:?}");
    }
    assert_eq!(rt; list.places.as_slice(), places, "of {words:?}");
    assert_eq!(rt; list.marks.as_slice(), [0].as_slice());
}

fn check_rows(
    rt: &impl Abort,
    alloc: Global,
    rows: &[(&[u16], &[Unit], &[u16])],
) -> Result<(), Fail> {
    for (words, expected, places) in rows {
        check(rt, alloc, words, expected, places)?;
    }
    Ok(())
}

#[test]
fn stores_and_the_stack(rt: HostRuntime) -> Result<(), Fail> {
    let moved = Plain(Instr::Movw(26, 24));
    let store = Store(Instr::StXDec(16));
    let wide = Plain(Instr::Adiw(26, 8));
    let seven = Plain(Instr::Ldi(16, 7));
    let skip = Skip(Instr::Sbrs(16, 0));
    let rows: [(&[u16], &[Unit], &[u16]); 7] = [
        (&[0x930C, 0x9508], &[Store(Instr::StX(16)), Return], &[0, 1]),
        (
            &[0xFF00, 0x931C, 0x9508],
            &[skip, Store(Instr::StX(17)), Return],
            &[0, 1, 2],
        ),
        (
            &[0x01DC, 0x9618, 0xE007, 0x930E, 0x01DC, 0x930E, 0x9508],
            &[moved, wide, seven, store, moved, store, Return],
            &[0, 1, 2, 3, 4, 5, 6],
        ),
        (&[0x920F, 0xCFFE], &[Push(0), Jump(0)], &[0, 1]),
        (
            &[0x9508, 0x910F, 0x9508],
            &[Return, Pop(16), Return],
            &[0, 1, 2],
        ),
        (
            &[0xD000, 0x900F, 0x900F, 0x9508],
            &[Reserve, Pop(0), Pop(0), Return],
            &[0, 1, 2, 3],
        ),
        (
            &[0xBFDE, 0xBFCD, 0x9508],
            &[SpGroup { with_sreg: false }, Return],
            &[0, 2],
        ),
    ];
    check_rows(&rt, rt.alloc(), &rows)
}

#[test]
fn calls_and_jumps(rt: HostRuntime) -> Result<(), Fail> {
    let letter = Plain(Instr::Ldi(24, 65));
    let count = Plain(Instr::Ldi(16, 10));
    let down = Plain(Instr::Dec(16));
    let rows: [(&[u16], &[Unit], &[u16]); 7] = [
        (
            &[0xE481, 0x940E, 0xF108, 0x9508],
            &[letter, KernelCall(8), Return],
            &[0, 1, 3],
        ),
        (&[0x940E, 0xF200, 0x9508], &[SlotCall(0), Return], &[0, 2]),
        (&[0x940E, 0xF105, 0x9508], &[KernelCall(5), Return], &[0, 2]),
        (
            &[0xE00A, 0x950A, 0xF7F1, 0x9508],
            &[count, down, branch(false, 1), Return],
            &[0, 1, 2, 3],
        ),
        (&[0xCFFF], &[Jump(0)], &[0]),
        (&[0x9509, 0x9508], &[SlotIndirect, Return], &[0, 1]),
        (&[0xDFFF, 0x9508], &[LocalCall(0), Return], &[0, 1]),
    ];
    check_rows(&rt, rt.alloc(), &rows)
}

#[test]
fn a_stack_frame(rt: HostRuntime) -> Result<(), Fail> {
    let words = [
        0x93CF, 0x93DF, 0xB7CD, 0xB7DE, 0x9764, 0xB60F, 0x94F8, 0xBFDE, 0xBE0F, 0xBFCD, 0xE027,
        0x8329, 0x8B2C, 0x9664, 0xB60F, 0x94F8, 0xBFDE, 0xBE0F, 0xBFCD, 0x91DF, 0x91CF, 0x9508,
    ];
    let units = [
        Push(28),
        Push(29),
        Plain(Instr::In(28, 61)),
        Plain(Instr::In(29, 62)),
        Plain(Instr::Sbiw(28, 20)),
        Plain(Instr::In(0, 63)),
        Plain(Instr::Bclr(7)),
        SpGroup { with_sreg: true },
        Plain(Instr::Ldi(18, 7)),
        Store(Instr::StdY(18, 1)),
        Store(Instr::StdY(18, 20)),
        Plain(Instr::Adiw(28, 20)),
        Plain(Instr::In(0, 63)),
        Plain(Instr::Bclr(7)),
        SpGroup { with_sreg: true },
        Pop(29),
        Pop(28),
        Return,
    ];
    let places = [
        0, 1, 2, 3, 4, 5, 6, 7, 10, 11, 12, 13, 14, 15, 16, 19, 20, 21,
    ];
    check(&rt, rt.alloc(), &words, &units, &places)
}

#[test]
fn a_loop_of_posts(rt: HostRuntime) -> Result<(), Fail> {
    let words = [
        0x9120, 0x0100, 0x3020, 0xF009, 0x9508, 0x017C, 0xE110, 0xE085, 0xE069, 0x940E, 0xF103,
        0x951A, 0xF7D1, 0xE085, 0xE048, 0xE050, 0x0197, 0x940E, 0xF104, 0x940E, 0xF108, 0x9508,
    ];
    let units = [
        Plain(Instr::Lds(18, 0x0100)),
        Plain(Instr::Cpi(18, 0)),
        branch(true, 4),
        Return,
        Plain(Instr::Movw(14, 24)),
        Plain(Instr::Ldi(17, 16)),
        Plain(Instr::Ldi(24, 5)),
        Plain(Instr::Ldi(22, 9)),
        KernelCall(3),
        Plain(Instr::Dec(17)),
        branch(false, 6),
        Plain(Instr::Ldi(24, 5)),
        Plain(Instr::Ldi(20, 8)),
        Plain(Instr::Ldi(21, 0)),
        Plain(Instr::Movw(18, 14)),
        KernelCall(4),
        KernelCall(8),
        Return,
    ];
    let places = [
        0, 2, 3, 4, 5, 6, 7, 8, 9, 11, 12, 13, 14, 15, 16, 17, 19, 21,
    ];
    check(&rt, rt.alloc(), &words, &units, &places)
}

#[test]
fn a_provider_that_posts_to_itself(rt: HostRuntime) -> Result<(), Fail> {
    let words = [
        0x9120, 0x0100, 0x3020, 0xF009, 0x9508, 0xE088, 0x940E, 0xF100, 0x019C, 0xE081, 0xE069,
        0xE048, 0x940E, 0xF104, 0xE083, 0xE664, 0xE040, 0x940E, 0xF106, 0x9508,
    ];
    let units = [
        Plain(Instr::Lds(18, 0x0100)),
        Plain(Instr::Cpi(18, 0)),
        branch(true, 4),
        Return,
        Plain(Instr::Ldi(24, 8)),
        KernelCall(0),
        Plain(Instr::Movw(18, 24)),
        Plain(Instr::Ldi(24, 1)),
        Plain(Instr::Ldi(22, 9)),
        Plain(Instr::Ldi(20, 8)),
        KernelCall(4),
        Plain(Instr::Ldi(24, 3)),
        Plain(Instr::Ldi(22, 100)),
        Plain(Instr::Ldi(20, 0)),
        KernelCall(6),
        Return,
    ];
    let places = [0, 2, 3, 4, 5, 6, 8, 9, 10, 11, 12, 14, 15, 16, 17, 19];
    check(&rt, rt.alloc(), &words, &units, &places)
}

#[test]
fn a_post_and_a_timer(rt: HostRuntime) -> Result<(), Fail> {
    let post = [
        Plain(Instr::Movw(18, 24)),
        Plain(Instr::Ldi(24, 2)),
        Plain(Instr::Ldi(22, 9)),
        Plain(Instr::Ldi(20, 8)),
        KernelCall(4),
        Return,
    ];
    let timer = [
        Plain(Instr::Lds(18, 0x0100)),
        Plain(Instr::Cpi(18, 0)),
        branch(true, 4),
        Return,
        Plain(Instr::Ldi(24, 3)),
        Plain(Instr::Ldi(22, 10)),
        Plain(Instr::Ldi(23, 0)),
        Plain(Instr::Ldi(20, 0)),
        KernelCall(6),
        Return,
    ];
    let post_words = [0x019C, 0xE082, 0xE069, 0xE048, 0x940E, 0xF104, 0x9508];
    let timer_words = [
        0x9120, 0x0100, 0x3020, 0xF009, 0x9508, 0xE083, 0xE06A, 0xE070, 0xE040, 0x940E, 0xF106,
        0x9508,
    ];
    check(&rt, rt.alloc(), &post_words, &post, &[0, 1, 2, 3, 4, 6])?;
    let places = [0, 2, 3, 4, 5, 6, 7, 8, 9, 11];
    check(&rt, rt.alloc(), &timer_words, &timer, &places)
}

#[test]
fn requests_of_memory(rt: HostRuntime) -> Result<(), Fail> {
    let words = [
        0xE080, 0xE09C, 0x940E, 0xF100, 0x940E, 0xF108, 0xEF88, 0xE09B, 0x940E, 0xF100, 0x940E,
        0xF108, 0xE080, 0xE090, 0x940E, 0xF100, 0x940E, 0xF108, 0x9508,
    ];
    let units = [
        Plain(Instr::Ldi(24, 0)),
        Plain(Instr::Ldi(25, 12)),
        KernelCall(0),
        KernelCall(8),
        Plain(Instr::Ldi(24, 0xF8)),
        Plain(Instr::Ldi(25, 11)),
        KernelCall(0),
        KernelCall(8),
        Plain(Instr::Ldi(24, 0)),
        Plain(Instr::Ldi(25, 0)),
        KernelCall(0),
        KernelCall(8),
        Return,
    ];
    let places = [0, 1, 2, 4, 6, 7, 8, 10, 12, 13, 14, 16, 18];
    check(&rt, rt.alloc(), &words, &units, &places)
}

#[test]
fn loads_of_a_sealed_image(rt: HostRuntime) -> Result<(), Fail> {
    let words = [
        0x910C, 0x910D, 0x910E, 0x8109, 0x9109, 0x910A, 0x8105, 0x9101, 0x9102, 0x9180, 0x0300,
        0x900F, 0xB7CD, 0x9508,
    ];
    let loads = [
        Instr::LdX(16),
        Instr::LdXInc(16),
        Instr::LdXDec(16),
        Instr::LddY(16, 1),
        Instr::LdYInc(16),
        Instr::LdYDec(16),
        Instr::LddZ(16, 5),
        Instr::LdZInc(16),
        Instr::LdZDec(16),
        Instr::Lds(24, 0x0300),
    ];
    let rest = [Pop(0), Plain(Instr::In(28, 61)), Return];
    let places = [0, 1, 2, 3, 4, 5, 6, 7, 8, 9, 11, 12, 13];
    for sealed in [true, false] {
        let mut expected = Vec::new(rt.alloc());
        for load in loads {
            expected.push(if sealed { Load(load) } else { Plain(load) })?;
        }
        for unit in rest {
            expected.push(unit)?;
        }
        let list = read(&rt, rt.alloc(), &words, &[0], sealed)?;
        check_list(&rt, &words, &list, &expected, &places);
    }
    Ok(())
}

#[test]
fn marks_have_unit_numbers(rt: HostRuntime) -> Result<(), Fail> {
    let words = [0x9120, 0x0100, 0x3020, 0xF009, 0x9508, 0xE088, 0x9508];
    let list = read(&rt, rt.alloc(), &words, &[5, 0, 4, 0], false)?;
    assert_eq!(rt; list.marks.as_slice(), [4, 0, 3, 0].as_slice());
    Ok(())
}

fn check_refused(rt: &impl Abort, alloc: Global, rows: &[(&[u16], &[u16], CodeError)]) {
    for (words, marks, expected) in rows {
        let refusal = read(rt, alloc, words, marks, false).err();
        assert_eq!(rt; refusal, Some(*expected), "of {words:?}");
    }
}

#[test]
fn refused_instructions(rt: HostRuntime) {
    let rows: [(&[u16], &[u16], CodeError); 23] = [
        (
            &[0x9508, 0xFFFF, 0x0001, 0x9409],
            &[9],
            CodeError::Undefined(1),
        ),
        (&[0x9409, 0x9120], &[], CodeError::Undefined(1)),
        (&[0x9508, 0x940E], &[], CodeError::Undefined(1)),
        (&[0x9409, 0x9508], &[], CodeError::Refused(0, 1)),
        (
            &[0x0000, 0x940C, 0x0000, 0x9409],
            &[],
            CodeError::Refused(1, 1),
        ),
        (&[0x95C8, 0x9508], &[], CodeError::Refused(0, 2)),
        (&[0x9184, 0x9508], &[], CodeError::Refused(0, 2)),
        (&[0x9077, 0x9508], &[], CodeError::Refused(0, 2)),
        (&[0x95E8, 0x9508], &[], CodeError::Refused(0, 2)),
        (&[0x9518], &[], CodeError::Refused(0, 3)),
        (&[0x9588, 0x9508], &[], CodeError::Refused(0, 3)),
        (&[0x9A00, 0x9508], &[], CodeError::Refused(0, 4)),
        (&[0x9B00, 0x9508, 0x9508], &[], CodeError::Refused(0, 4)),
        (&[0xB600, 0x9508], &[], CodeError::Refused(0, 4)),
        (&[0xBE00, 0x9508], &[], CodeError::Refused(0, 4)),
        (&[0xBFCD, 0x9508], &[], CodeError::Refused(0, 5)),
        (&[0xBFDE, 0xBE0F, 0x9508], &[], CodeError::Refused(0, 5)),
        (&[0x93AD, 0x9508], &[], CodeError::Refused(0, 6)),
        (&[0x91F2, 0x9508], &[], CodeError::Refused(0, 6)),
        (&[0x940E, 0xF10C, 0x9508], &[], CodeError::Refused(0, 7)),
        (&[0x940E, 0xF096, 0x9508], &[], CodeError::Refused(0, 7)),
        (&[0x940F, 0xF108, 0x9508], &[], CodeError::Refused(0, 7)),
        (&[0x9508, 0x940E, 0x0000], &[], CodeError::Refused(1, 7)),
    ];
    check_refused(&rt, rt.alloc(), &rows);
}

#[test]
fn refused_targets_ends_and_entries(rt: HostRuntime) {
    let say = [0xE481, 0x940E, 0xF108, 0x9508];
    let rows: [(&[u16], &[u16], CodeError); 10] = [
        (&[0xC001, 0x940E, 0xF108, 0x9508], &[], CodeError::Target(0)),
        (&[0x0000, 0xCFF0, 0xCFF0, 0x0000], &[], CodeError::Target(1)),
        (&[0xFF00, 0x9508], &[], CodeError::Target(0)),
        (&[0xFF00, 0xBFDE, 0xBFCD, 0x9508], &[], CodeError::Target(0)),
        (&[0xD7FF, 0x9508], &[], CodeError::Target(0)),
        (&[0xF009], &[], CodeError::Target(0)),
        (&[0xE481], &[7], CodeError::FallsOff),
        (&[], &[0], CodeError::Empty),
        (&say, &[2], CodeError::Entry(2)),
        (&say, &[1, 9, 4, 0], CodeError::Entry(4)),
    ];
    check_refused(&rt, rt.alloc(), &rows);
}

#[test]
fn long_code(rt: HostRuntime) -> Result<(), Fail> {
    let alloc = rt.alloc();
    // a return takes two words, a NOP one, a PUSH three, and a load three where it is checked, else one
    let rows = [
        (0x0000, 2046, false, None),
        (0x0000, 2047, false, Some(CodeError::TooLong(2049))),
        (0x920F, 683, false, Some(CodeError::TooLong(2051))),
        (0x920F, 30000, false, Some(CodeError::TooLong(65535))),
        (0x910C, 2046, false, None),
        (0x910C, 682, true, None),
        (0x910C, 683, true, Some(CodeError::TooLong(2051))),
    ];
    for (word, count, sealed, expected) in rows {
        let mut words = vec![in alloc; word; count]?;
        words.push(0x9508u16)?;
        let refusal = read(&rt, alloc, &words, &[], sealed).err();
        assert_eq!(rt; refusal, expected, "{count} of {word:#06x}");
    }
    Ok(())
}

#[test]
fn lengths_by_the_templates(rt: HostRuntime) {
    let rows = [
        (Plain(Instr::Nop), 1, 1),
        (Plain(Instr::Lds(18, 0x0100)), 2, 2),
        (Load(Instr::LdX(4)), 3, 3),
        (Load(Instr::Lds(18, 0x0100)), 4, 4),
        (Store(Instr::StX(16)), 3, 3),
        (Store(Instr::Sts(16, 0x0100)), 4, 4),
        (Push(0), 3, 3),
        (Pop(0), 3, 3),
        (SpGroup { with_sreg: false }, 4, 4),
        (SpGroup { with_sreg: true }, 5, 5),
        (Reserve, 2, 2),
        (Skip(Instr::Sbrs(16, 0)), 3, 1),
        (
            Branch {
                set: true,
                bit: 1,
                target: 4,
            },
            2,
            1,
        ),
        (Jump(0), 1, 1),
        (LocalCall(0), 3, 3),
        (KernelCall(8), 2, 2),
        (SlotCall(0), 2, 2),
        (SlotIndirect, 2, 2),
        (Return, 2, 2),
    ];
    for (unit, long, short) in rows {
        assert_eq!(rt; spelled_len(&unit, Shape::Long), long);
        assert_eq!(rt; spelled_len(&unit, Shape::Short), short);
    }
}

#[test]
fn refusals_tell_their_numbers(rt: HostRuntime) {
    let refusal = CodeError::Refused(3, 7);
    assert_eq!(rt; refusal.number(), Some(2));
    assert_eq!(rt; refusal.word(), 3);
    assert_eq!(rt; refusal.kind(), 7);
    assert_eq!(rt; CodeError::TooLong(2049).word(), 2049);
    assert_eq!(rt; CodeError::NoMemory.number(), None);
}
