//! The words of units.

ghost use Rattle.std.specs.Prelude.{◌≡◌, ◌<◌, ◌≤◌, ◌^◌, Bool, length, IfOk};
ghost use Rattle.std.specs.List.{AllByRecursion};
ghost use Rattle.mote_layout.specs.Memory.{bank_words};
ghost use Rattle.unit_code.specs.Ends.{long_length};
ghost use Rattle.unit_code.specs.Proper.{IsProper};
ghost use Rattle.unit_code.specs.Spelling.{AreShapesOf, AreTemplatesOf, starts_of};
ghost use Rattle.harbor_rewrite.specs.Emit.{AreEmitted};

use harbor_short::{choose, measure};
use harbor_spell::{Template, spell_unit};
use mote_base::NoMemory;
use std::alloc::Global;
use unit_code::{BankCode, Shape, Unit, UnitList};

/// The words of the units for a bank of flash, with each template's start.
pub fn bank_code(alloc: Global, list: &UnitList) -> Result<BankCode, NoMemory>
    requires { (sealed : Bool) × IsProper list.now.units sealed }
    ensures units { IfOk result (λ code. code.units ≡ list.now.units) }
    ensures emitted { IfOk result (λ code. AreEmitted list.now.units code.words code.starts) }
    ensures room { IfOk result (λ code. length code.words ≤ bank_words) }
    ensures placed { IfOk result (λ code. length code.starts ≡ length list.now.units) }
{
    code_of(alloc, &list.units)
}

fn code_of(alloc: Global, units: &[Unit]) -> Result<BankCode, NoMemory>
    requires { (sealed : Bool) × IsProper units.now sealed }
    ensures units { IfOk result (λ code. code.units ≡ units.now) }
    ensures emitted { IfOk result (λ code. AreEmitted units.now code.words code.starts) }
    ensures room { IfOk result (λ code. length code.words ≤ bank_words) }
    ensures placed { IfOk result (λ code. length code.starts ≡ length units.now) }
{
    let shapes = choose(alloc, units)?;
    let starts = starts(alloc, units, &shapes)?;
    let words = words(alloc, units, &starts, &shapes)?;
    let mut same = Vec::new(alloc);
    same.extend_from_slice(units)?;
    Ok(BankCode {
        units: same,
        words,
        starts,
    })
}

/// Where the templates of units in these shapes start.
fn starts(alloc: Global, units: &[Unit], shapes: &[Shape]) -> Result<Vec<u16>, NoMemory>
    requires shapes { AreShapesOf units.now shapes.now }
    requires fits { long_length units.now ≤ bank_words }
    ensures starts { IfOk result (λ starts. starts.items ≡ starts_of units.now shapes.now) }
    ensures count { IfOk result (λ starts. length starts.items ≡ length units.now) }
{
    let mut starts = vec![in alloc; 0; units.len()]?;
    measure(units, shapes, &mut starts);
    Ok(starts)
}

/// The templates of units in these shapes, one after the other.
fn words(
    alloc: Global,
    units: &[Unit],
    starts: &[u16],
    shapes: &[Shape],
) -> Result<Vec<u16>, NoMemory>
    requires proper { (sealed : Bool) × IsProper units.now sealed }
    requires shapes { AreShapesOf units.now shapes.now }
    requires starts { starts.now ≡ starts_of units.now shapes.now }
    ensures templates { IfOk result (λ words. AreTemplatesOf units.now shapes.now words.items) }
    ensures small { IfOk result (λ words. AllByRecursion (λ word. word < 2 ^ 16) words.items) }
    ensures room { IfOk result (λ words. length words.items ≤ bank_words) }
{
    let mut words = Vec::new(alloc);
    let mut template = Template::new();
    for i in 0..units.len() {
        spell_unit(units, starts, shapes, i, &mut template);
        words.extend_from_slice(&template)?;
    }
    are_words(&words);
    Ok(words)
}

/// Words have 16 bits.
pub(crate) fn are_words(words: &[u16])
    ensures { AllByRecursion (λ word. word < 2 ^ 16) words.now }
{}
