//! The templates of each kind of unit in its long shape, worked out by hand.

ghost use Rattle.std.specs.Prelude.{◌≡◌, ◌≤◌, IfOk, length, replicate};
ghost use Rattle.unit_code.specs.declared.unit.Shape.{Shape};
ghost use Rattle.unit_code.specs.Spelling.{starts_of};

use crate::units::bytes_of;
use harbor_spell::{Template, spell_unit};
use mote_base::{NoMemory, Words};
use std::alloc::Global;
use std::process::Abort;
use std::test::Fail;
use unit_code::{CodeError, Shape, Unit, spelled_len, units};

/// The words of the units of original words, each template in its long shape.
#[tactic(auto, using(crate::proofs::Shapes::long_shapes))]
fn long_spelling(
    rt: &impl Abort,
    alloc: Global,
    code: &Words<'_>,
    sealed: bool,
) -> Result<Vec<u16>, CodeError>
    requires { length code.now ≤ 65535 }
{
    let list = units(alloc, code, &[0], sealed)?;
    let shapes = all_long(alloc, list.units.len())?;
    let starts = starts(rt, alloc, &list.units, &shapes)?;
    let mut words = Vec::new(alloc);
    let mut template = Template::new();
    for i in 0..list.units.len() {
        spell_unit(&list.units, &starts, &shapes, i, &mut template);
        for word in &template {
            words.push(*word)?;
        }
    }
    Ok(words)
}

fn all_long(alloc: Global, count: usize) -> Result<Vec<Shape>, CodeError>
    ensures { IfOk result (λ shapes. shapes.items ≡ replicate count Shape.Long) }
{
    let mut shapes = Vec::new(alloc);
    for _ in 0..count {
        shapes.push(Shape::Long)?;
    }
    Ok(shapes)
}

/// Where the templates start.
fn starts(
    rt: &impl Abort,
    alloc: Global,
    units: &[Unit],
    shapes: &[Shape],
) -> Result<Vec<u16>, CodeError>
    requires { length shapes.now ≡ length units.now }
    ensures { IfOk result (λ starts. starts.items ≡ starts_of units.now shapes.now) }
{
    let mut starts = Vec::new(alloc);
    let mut place = 0u16;
    for n in 0..units.len() {
        starts.push(place)?;
        let words = spelled_len(&units[n], shapes[n]);
        place = place
            .checked_add(words)
            .expect(rt, "the templates fit a bank");
    }
    Ok(starts)
}

fn check(
    rt: &impl Abort,
    alloc: Global,
    words: &[u16],
    sealed: bool,
    expected: &[u16],
) -> Result<(), Fail> {
    let bytes = bytes_of(alloc, words)?;
    let code = Words::new(&bytes).expect(rt, "two bytes a word");
    assert!(rt; code.len() <= 65535);
    let spelled = long_spelling(rt, alloc, &code, sealed)?;
    assert_eq!(rt; spelled.as_slice(), expected, "of {words:?}");
    Ok(())
}

#[test]
fn each_kind_of_unit(rt: HostRuntime) -> Result<(), Fail> {
    let alloc = rt.alloc();
    check(
        &rt,
        alloc,
        &[
            0x0000, 0x920C, 0x900C, 0x920F, 0x900F, 0xBFDE, 0xBE0F, 0xBFCD, 0xBFDE, 0xBFCD, 0xD000,
            0xFF00, 0x920C, 0xFF00, 0x0000, 0xF381, 0xF7F1, 0xDFEE, 0x940E, 0xF108, 0x940E, 0xF200,
            0x9509, 0xC000, 0x9508,
        ],
        true,
        &[
            0x0000, 0x940E, 0xF000, 0x920C, 0x940E, 0xF381, 0x900C, 0x940E, 0xF091, 0x920F, 0x940E,
            0xF092, 0x900F, 0x940E, 0xF093, 0xBFDE, 0xBE0F, 0xBFCD, 0x940E, 0xF093, 0xBFDE, 0xBFCD,
            0x940E, 0xF097, 0xFF00, 0xC001, 0xC003, 0x940E, 0xF000, 0x920C, 0xFF00, 0xC001, 0xC001,
            0x0000, 0xF409, 0xCFDC, 0xF009, 0xCFFC, 0x940E, 0xF094, 0xCFD7, 0x940E, 0xF108, 0x940E,
            0xF200, 0x940E, 0xF095, 0xC000, 0x940C, 0xF096,
        ],
    )
}

#[test]
fn rows(rt: HostRuntime) -> Result<(), Fail> {
    let alloc = rt.alloc();
    let stored = [0x940E, 0xF000, 0x930C, 0x940C, 0xF096];
    check(&rt, alloc, &[0x930C, 0x9508], false, &stored)?;
    let skipped = [
        0xFF00, 0xC001, 0xC003, 0x940E, 0xF000, 0x931C, 0x940C, 0xF096,
    ];
    check(&rt, alloc, &[0xFF00, 0x931C, 0x9508], false, &skipped)?;
    let counted = [0xE00A, 0x950A, 0xF009, 0xCFFD, 0x940C, 0xF096];
    check(
        &rt,
        alloc,
        &[0xE00A, 0x950A, 0xF7F1, 0x9508],
        false,
        &counted,
    )?;
    let loaded = [0x940E, 0xF381, 0x918C, 0x940C, 0xF096];
    check(&rt, alloc, &[0x918C, 0x9508], true, &loaded)?;
    check(
        &rt,
        alloc,
        &[0x918C, 0x9508],
        false,
        &[0x918C, 0x940C, 0xF096],
    )
}

#[test]
fn each_guard(rt: HostRuntime) -> Result<(), Fail> {
    let alloc = rt.alloc();
    check(
        &rt,
        alloc,
        &[
            0x920D, 0x920E, 0x9209, 0x920A, 0x9201, 0x9202, 0x9200, 0x0300, 0x8208, 0xAE0F, 0x8200,
            0xAE07, 0x9508,
        ],
        false,
        &[
            0x940E, 0xF001, 0x920D, 0x940E, 0xF002, 0x920E, 0x940E, 0xF003, 0x9209, 0x940E, 0xF004,
            0x920A, 0x940E, 0xF005, 0x9201, 0x940E, 0xF006, 0x9202, 0x940E, 0xF090, 0x9200, 0x0300,
            0x940E, 0xF010, 0x8208, 0x940E, 0xF04F, 0xAE0F, 0x940E, 0xF050, 0x8200, 0x940E, 0xF08F,
            0xAE07, 0x940C, 0xF096,
        ],
    )?;
    check(
        &rt,
        alloc,
        &[
            0x900D, 0x900E, 0x9009, 0x900A, 0x9001, 0x9002, 0x9000, 0x0300, 0x8008, 0xAC0F, 0x8000,
            0xAC07, 0x9508,
        ],
        true,
        &[
            0x940E, 0xF382, 0x900D, 0x940E, 0xF383, 0x900E, 0x940E, 0xF384, 0x9009, 0x940E, 0xF385,
            0x900A, 0x940E, 0xF386, 0x9001, 0x940E, 0xF387, 0x9002, 0x940E, 0xF380, 0x9000, 0x0300,
            0x940E, 0xF300, 0x8008, 0x940E, 0xF33F, 0xAC0F, 0x940E, 0xF340, 0x8000, 0x940E, 0xF37F,
            0xAC07, 0x940C, 0xF096,
        ],
    )
}
