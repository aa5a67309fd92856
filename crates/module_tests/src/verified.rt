//! Rewritten words worked out by hand from the templates, and what stands against others.

use crate::units::{bytes_of, is_same_unit};
use Unit::{
    Branch, Jump, KernelCall, Load, LocalCall, Plain, Pop, Push, Reserve, Return, Skip, SlotCall,
    SlotIndirect, SpGroup, Store,
};
use VerifyError::{Empty, Entry, FallsOff, Guard, Target, TooLong, Word};
use avr_isa::Instr;
use harbor_verify::{Starts, VerifyError, read_units, verify};
use mote_base::{NoMemory, Words};
use std::alloc::Global;
use std::process::Abort;
use std::test::Fail;
use unit_code::Unit;

/// The verdict on words that are entered at the marks.
fn check(
    rt: &impl Abort,
    alloc: Global,
    words: &[u16],
    marks: &[u16],
    sealed: bool,
    expected: Result<u16, VerifyError>,
) -> Result<(), Fail> {
    let bytes = bytes_of(alloc, words)?;
    let code = Words::new(&bytes).expect(rt, "two bytes a word");
    assert!(rt; code.len() <= 65535);
    let mut starts = Starts::new(alloc)?;
    let verdict = verify(&code, marks, sealed, &mut starts);
    assert_eq!(rt; verdict, expected, "of {words:?}");
    Ok(())
}

fn check_rows(
    rt: &impl Abort,
    alloc: Global,
    sealed: bool,
    rows: &[(&[u16], Result<u16, VerifyError>)],
) -> Result<(), Fail> {
    for (words, expected) in rows {
        check(rt, alloc, words, &[0], sealed, *expected)?;
    }
    Ok(())
}

#[test]
fn templates_are_accepted(rt: HostRuntime) -> Result<(), Fail> {
    let alloc = rt.alloc();
    check_rows(
        &rt,
        alloc,
        false,
        &[
            (&[0x940E, 0xF000, 0x930C, 0x940C, 0xF096], Ok(2)),
            (
                &[
                    0xFF00, 0xC001, 0xC003, 0x940E, 0xF000, 0x931C, 0x940C, 0xF096,
                ],
                Ok(3),
            ),
            (&[0xE00A, 0x950A, 0xF009, 0xCFFD, 0x940C, 0xF096], Ok(4)),
            (&[0xE00A, 0x950A, 0xF7F1, 0x940C, 0xF096], Ok(4)),
            (
                &[0xFF00, 0xC001, 0xC001, 0x0000, 0x0000, 0x940C, 0xF096],
                Ok(4),
            ),
            (&[0xFF00, 0x0000, 0x0000, 0x940C, 0xF096], Ok(4)),
            (&[0xFF00, 0x918C, 0x0000, 0x940C, 0xF096], Ok(4)),
            (
                &[0x3020, 0xF009, 0x940C, 0xF096, 0x940C, 0xF096],
                Err(Target(1)),
            ),
            (&[0x3020, 0xF011, 0x940C, 0xF096, 0x940C, 0xF096], Ok(4)),
        ],
    )
}

#[test]
fn the_first_condition_is_told(rt: HostRuntime) -> Result<(), Fail> {
    let alloc = rt.alloc();
    check_rows(
        &rt,
        alloc,
        false,
        &[
            (&[0x930C, 0x940C, 0xF096], Err(Guard(0))),
            (&[0x940E, 0xF091, 0x930C, 0x940C, 0xF096], Err(Guard(0))),
            (&[0x940E, 0xF092, 0x920F, 0x940C, 0xF096], Err(Guard(0))),
            (&[0x940E, 0xF000], Err(Guard(0))),
            (
                &[0xFF00, 0x940E, 0xF000, 0x930C, 0x940C, 0xF096],
                Err(Guard(0)),
            ),
            (&[0xFF00, 0x930C, 0x940C, 0xF096], Err(Guard(1))),
            (
                &[0xFF00, 0xC001, 0x0000, 0x0000, 0x940C, 0xF096],
                Err(Guard(0)),
            ),
            (&[0x940E, 0xF094, 0x0000, 0x940C, 0xF096], Err(Guard(0))),
            (
                &[0x940E, 0xF093, 0xBFDE, 0xBE0F, 0x940C, 0xF096],
                Err(Guard(0)),
            ),
            (
                &[0xC002, 0x940E, 0xF000, 0x930C, 0x940C, 0xF096],
                Err(Target(0)),
            ),
            (
                &[0xFF00, 0xC001, 0xC002, 0x0000, 0x0000, 0x940C, 0xF096],
                Err(Target(2)),
            ),
            (&[0x0000, 0xFF00], Err(Target(1))),
            (&[0xFF00, 0x940C, 0xF096], Err(Target(0))),
            (&[0xF409, 0xCFFE], Err(Target(0))),
            (&[0x940C, 0xF097], Err(Word(0))),
            (&[0x0000, 0x9409], Err(Word(1))),
            (&[0x940E, 0xF096], Err(Word(0))),
            (&[0x940E, 0xF098, 0x940C, 0xF096], Err(Word(0))),
            (&[0x930C, 0x0001], Err(Word(1))),
            (&[0x0000, 0x940C], Err(Word(1))),
            (&[0xE481], Err(FallsOff)),
            (&[], Err(Empty)),
        ],
    )
}

/// What comes where a word is left out, doubled, or replaced by a NOP.
type Spoilt = (
    Result<u16, VerifyError>,
    Result<u16, VerifyError>,
    Result<u16, VerifyError>,
);

/// A template with other words in place of one, before two NOPs and a return.
fn with_words(
    alloc: Global,
    template: &[u16],
    index: usize,
    words: &[u16],
) -> Result<Vec<u16>, NoMemory> {
    let mut spoilt = Vec::new(alloc);
    for (i, word) in template.iter().enumerate() {
        if i == index {
            spoilt.extend_from_slice(words)?;
        } else {
            spoilt.push(*word)?;
        }
    }
    spoilt.extend_from_slice(&[0x0000, 0x0000, 0x940C, 0xF096])?;
    Ok(spoilt)
}

/// Spoils each word of a template in turn.
fn check_spoilt(
    rt: &impl Abort,
    alloc: Global,
    sealed: bool,
    template: &[u16],
    rows: &[Spoilt],
) -> Result<(), Fail> {
    for (i, (word, expected)) in template.iter().zip(rows).enumerate() {
        let (left_out, doubled, blank) = *expected;
        let words = with_words(alloc, template, i, &[])?;
        check(rt, alloc, &words, &[0], sealed, left_out)?;
        let words = with_words(alloc, template, i, &[*word, *word])?;
        check(rt, alloc, &words, &[0], sealed, doubled)?;
        let words = with_words(alloc, template, i, &[0x0000])?;
        check(rt, alloc, &words, &[0], sealed, blank)?;
    }
    Ok(())
}

#[test]
fn a_guarded_instruction_is_spoilt(rt: HostRuntime) -> Result<(), Fail> {
    let alloc = rt.alloc();
    let rows = [
        (Err(Guard(1)), Err(Word(0)), Err(Guard(2))),
        (Err(Word(0)), Err(Guard(0)), Err(Word(0))),
        (Err(Guard(0)), Err(Guard(3)), Err(Guard(0))),
    ];
    check_spoilt(&rt, alloc, false, &[0x940E, 0xF000, 0x930C], &rows)?;
    check_spoilt(&rt, alloc, true, &[0x940E, 0xF381, 0x918C], &rows)?;
    check_spoilt(&rt, alloc, false, &[0x940E, 0xF091, 0x920F], &rows)?;
    check_spoilt(&rt, alloc, false, &[0x940E, 0xF092, 0x900F], &rows)
}

#[test]
fn a_group_is_spoilt(rt: HostRuntime) -> Result<(), Fail> {
    let alloc = rt.alloc();
    let rows = [
        (Err(Guard(1)), Err(Word(0)), Err(Guard(2))),
        (Err(Word(0)), Err(Guard(0)), Err(Word(0))),
        (Err(Guard(0)), Err(Guard(0)), Err(Guard(0))),
        // without the write of SREG it is the other group
        (Ok(4), Err(Guard(0)), Err(Guard(0))),
        (Err(Guard(0)), Err(Guard(5)), Err(Guard(0))),
    ];
    let group = [0x940E, 0xF093, 0xBFDE, 0xBE0F, 0xBFCD];
    check_spoilt(&rt, alloc, false, &group, &rows)?;
    let rows = [
        (Err(Guard(1)), Err(Word(0)), Err(Guard(2))),
        (Err(Word(0)), Err(Guard(0)), Err(Word(0))),
        (Err(Guard(0)), Err(Guard(0)), Err(Guard(0))),
        (Err(Guard(0)), Err(Guard(4)), Err(Guard(0))),
    ];
    check_spoilt(&rt, alloc, false, &[0x940E, 0xF093, 0xBFDE, 0xBFCD], &rows)
}

#[test]
fn an_entry_is_spoilt(rt: HostRuntime) -> Result<(), Fail> {
    let alloc = rt.alloc();
    // the entry's address alone is a branch
    let rows = [
        (Err(Target(0)), Err(Word(0)), Err(Target(1))),
        (Err(Word(0)), Err(Target(2)), Err(Word(0))),
    ];
    check_spoilt(&rt, alloc, false, &[0x940E, 0xF097], &rows)?;
    check_spoilt(&rt, alloc, false, &[0x940E, 0xF108], &rows)?;
    check_spoilt(&rt, alloc, false, &[0x940E, 0xF200], &rows)?;
    check_spoilt(&rt, alloc, false, &[0x940E, 0xF095], &rows)?;
    check_spoilt(&rt, alloc, false, &[0x940C, 0xF096], &rows)
}

#[test]
fn a_template_with_a_jump_is_spoilt(rt: HostRuntime) -> Result<(), Fail> {
    let alloc = rt.alloc();
    let skip = [
        (Ok(5), Err(Guard(0)), Ok(6)),
        (Err(Guard(0)), Ok(5), Ok(6)),
        (Err(Guard(0)), Ok(5), Err(Guard(0))),
    ];
    check_spoilt(&rt, alloc, false, &[0xFF00, 0xC001, 0xC001], &skip)?;
    let branch = [(Ok(4), Err(Target(0)), Ok(5)), (Ok(4), Ok(5), Ok(5))];
    check_spoilt(&rt, alloc, false, &[0xF009, 0xC001], &branch)?;
    let call = [
        (Err(Target(0)), Err(Word(0)), Err(Target(1))),
        (Err(Word(0)), Err(Guard(0)), Err(Word(0))),
        (Err(Guard(0)), Ok(5), Err(Guard(0))),
    ];
    check_spoilt(&rt, alloc, false, &[0x940E, 0xF094, 0xC001], &call)?;
    let single = [(Ok(3), Ok(5), Ok(4))];
    check_spoilt(&rt, alloc, false, &[0xC001], &single)?;
    check_spoilt(&rt, alloc, false, &[0xF009], &single)?;
    check_spoilt(&rt, alloc, false, &[0xFF00], &single)
}

#[test]
fn a_target_one_word_off_is_told(rt: HostRuntime) -> Result<(), Fail> {
    let alloc = rt.alloc();
    check_rows(
        &rt,
        alloc,
        false,
        &[
            (&[0xC002, 0x0000, 0x0000, 0x940C, 0xF096], Ok(4)),
            (&[0xC003, 0x0000, 0x0000, 0x940C, 0xF096], Err(Target(0))),
            (&[0xF011, 0x0000, 0x0000, 0x940C, 0xF096], Ok(4)),
            (&[0xF019, 0x0000, 0x0000, 0x940C, 0xF096], Err(Target(0))),
            (&[0xF009, 0xC002, 0x0000, 0x0000, 0x940C, 0xF096], Ok(4)),
            (
                &[0xF009, 0xC003, 0x0000, 0x0000, 0x940C, 0xF096],
                Err(Target(1)),
            ),
            (
                &[0x940E, 0xF094, 0xC002, 0x0000, 0x0000, 0x940C, 0xF096],
                Ok(4),
            ),
            (
                &[0x940E, 0xF094, 0xC003, 0x0000, 0x0000, 0x940C, 0xF096],
                Err(Target(2)),
            ),
            (
                &[0xFF00, 0xC001, 0xC000, 0x0000, 0x0000, 0x940C, 0xF096],
                Err(Target(2)),
            ),
        ],
    )
}

#[test]
fn marks_are_starts(rt: HostRuntime) -> Result<(), Fail> {
    let alloc = rt.alloc();
    let words = [0xE481, 0x940E, 0xF000, 0x930C, 0x940C, 0xF096];
    check(&rt, alloc, &words, &[0, 1, 4, 1], false, Ok(3))?;
    check(&rt, alloc, &words, &[], false, Ok(3))?;
    check(&rt, alloc, &words, &[0, 5, 2, 3], false, Err(Entry(2)))?;
    check(&rt, alloc, &[0x940C, 0xF096], &[1], false, Err(Entry(1)))?;
    check(&rt, alloc, &[0xE481], &[7], false, Err(FallsOff))
}

#[test]
fn loads_have_guards_in_a_sealed_image(rt: HostRuntime) -> Result<(), Fail> {
    let alloc = rt.alloc();
    let guarded = [0x940E, 0xF381, 0x918C, 0x940C, 0xF096];
    check(&rt, alloc, &guarded, &[0], true, Ok(2))?;
    check(&rt, alloc, &guarded, &[0], false, Err(Word(0)))?;
    let bare = [0x918C, 0x940C, 0xF096];
    check(&rt, alloc, &bare, &[0], true, Err(Guard(0)))?;
    check(&rt, alloc, &bare, &[0], false, Ok(2))?;
    check_rows(
        &rt,
        alloc,
        true,
        &[
            (&[0xFF00, 0x918C, 0x0000, 0x940C, 0xF096], Err(Guard(1))),
            (
                &[0xFF00, 0x940E, 0xF381, 0x918C, 0x0000, 0x940C, 0xF096],
                Err(Guard(0)),
            ),
            (&[0x940E, 0xF382, 0x918C, 0x940C, 0xF096], Err(Guard(0))),
            (&[0x940E, 0xF381, 0x0000, 0x940C, 0xF096], Err(Guard(0))),
            (&[0x940E, 0xF380, 0x9000, 0x0100, 0x940C, 0xF096], Ok(2)),
        ],
    )
}

#[test]
fn each_displacement_has_its_guard(rt: HostRuntime) -> Result<(), Fail> {
    let alloc = rt.alloc();
    check_rows(
        &rt,
        alloc,
        true,
        &[
            (&[0x940E, 0xF010, 0x8208, 0x940C, 0xF096], Ok(2)),
            (&[0x940E, 0xF010, 0x8209, 0x940C, 0xF096], Err(Guard(0))),
            (&[0x940E, 0xF04F, 0xAE0F, 0x940C, 0xF096], Ok(2)),
            (&[0x940E, 0xF050, 0x8200, 0x940C, 0xF096], Ok(2)),
            (&[0x940E, 0xF050, 0x8208, 0x940C, 0xF096], Err(Guard(0))),
            (&[0x940E, 0xF08F, 0xAE07, 0x940C, 0xF096], Ok(2)),
            (&[0x940E, 0xF300, 0x8008, 0x940C, 0xF096], Ok(2)),
            (&[0x940E, 0xF33F, 0xAC0F, 0x940C, 0xF096], Ok(2)),
            (&[0x940E, 0xF340, 0x8000, 0x940C, 0xF096], Ok(2)),
            (&[0x940E, 0xF37F, 0xAC07, 0x940C, 0xF096], Ok(2)),
        ],
    )
}

/// Each kind of unit in a sealed image, skips and branches in both shapes.
const EACH: [u16; 47] = [
    0x0000, 0x940E, 0xF000, 0x920C, 0x940E, 0xF381, 0x900C, 0x940E, 0xF091, 0x920F, 0x940E, 0xF092,
    0x900F, 0x940E, 0xF093, 0xBFDE, 0xBE0F, 0xBFCD, 0x940E, 0xF093, 0xBFDE, 0xBFCD, 0x940E, 0xF097,
    0xFF00, 0xC001, 0xC003, 0x940E, 0xF000, 0x920C, 0xFF00, 0x0000, 0xF409, 0xCFDE, 0xF3E9, 0x940E,
    0xF094, 0xCFDA, 0x940E, 0xF108, 0x940E, 0xF200, 0x940E, 0xF095, 0xC000, 0x940C, 0xF096,
];

const EACH_START: [u16; 20] = [
    0, 1, 4, 7, 10, 13, 18, 22, 24, 27, 30, 31, 32, 34, 35, 38, 40, 42, 44, 45,
];

fn branch(target: u16) -> Unit {
    Branch {
        set: true,
        bit: 1,
        target,
    }
}

#[test]
fn units_are_read_back(rt: HostRuntime) -> Result<(), Fail> {
    let alloc = rt.alloc();
    let expected = [
        Plain(Instr::Nop),
        Store(Instr::StX(0)),
        Load(Instr::LdX(0)),
        Push(0),
        Pop(0),
        SpGroup { with_sreg: true },
        SpGroup { with_sreg: false },
        Reserve,
        Skip(Instr::Sbrs(16, 0)),
        Store(Instr::StX(0)),
        Skip(Instr::Sbrs(16, 0)),
        Plain(Instr::Nop),
        branch(0),
        branch(12),
        LocalCall(0),
        KernelCall(8),
        SlotCall(0),
        SlotIndirect,
        Jump(19),
        Return,
    ];
    let bytes = bytes_of(alloc, &EACH)?;
    let code = Words::new(&bytes).expect(&rt, "two bytes a word");
    assert!(rt; code.len() <= 65535);
    let mut starts = Starts::new(alloc)?;
    let Ok(count) = verify(&code, &[0, 45], true, &mut starts) else {
        panic!(rt; "each template is accepted");
    };
    assert_eq!(rt; count, 20);
    assert_eq!(rt; starts.as_slice(), EACH_START.as_slice());
    let bank = read_units(alloc, &code, &starts)?;
    assert_eq!(rt; bank.units.len(), expected.len());
    for (unit, wanted) in bank.units.iter().zip(&expected) {
        assert!(rt; is_same_unit(unit, wanted));
    }
    assert_eq!(rt; bank.words.as_slice(), EACH.as_slice());
    assert_eq!(rt; bank.starts.as_slice(), EACH_START.as_slice());
    Ok(())
}

/// As many times one word as told, and then two others.
fn repeated(alloc: Global, count: usize, word: u16, end: &[u16]) -> Result<Vec<u16>, NoMemory> {
    let mut words = Vec::new(alloc);
    for _ in 0..count {
        words.push(word)?;
    }
    for word in end {
        words.push(*word)?;
    }
    Ok(words)
}

#[test]
fn a_bank_is_filled(rt: HostRuntime) -> Result<(), Fail> {
    let alloc = rt.alloc();
    let full = repeated(alloc, 2046, 0x0000, &[0x940C, 0xF096])?;
    check(&rt, alloc, &full, &[0], false, Ok(2047))?;
    let jumps = repeated(alloc, 2048, 0xCFFF, &[])?;
    check(&rt, alloc, &jumps, &[0], false, Ok(2048))?;
    let more = repeated(alloc, 2047, 0x0000, &[0x940C, 0xF096])?;
    check(&rt, alloc, &more, &[0], false, Err(TooLong(2049)))?;
    let most = repeated(alloc, 65535, 0xCFFF, &[])?;
    check(&rt, alloc, &most, &[0], false, Err(TooLong(65535)))?;
    let nops = repeated(alloc, 65535, 0x0000, &[])?;
    check(&rt, alloc, &nops, &[0], false, Err(FallsOff))
}

#[test]
fn a_refusal_has_a_number_and_a_word(rt: HostRuntime) {
    let rows = [
        (Word(5), 1, 5),
        (Guard(6), 2, 6),
        (Target(7), 3, 7),
        (FallsOff, 4, 0),
        (Empty, 5, 0),
        (TooLong(2049), 6, 2049),
        (Entry(9), 7, 9),
    ];
    for (error, number, word) in &rows {
        assert_eq!(rt; error.number(), *number);
        assert_eq!(rt; error.word(), *word);
    }
}
