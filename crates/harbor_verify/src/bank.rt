//! The units of accepted words.

ghost use Rattle.std.specs.Prelude.{◌≡◌, ℕ, Bool, List, IfOk};
ghost use Rattle.unit_code.specs.Spelling.{Spells};
ghost use Rattle.unit_code.specs.declared.unit.Unit.{Unit};
ghost use Rattle.harbor_verify.specs.Parts.{ArePartsOf, HaveUnits, IsAccepted};
ghost use Rattle.harbor_verify.specs.Verdict.{units_in};

use crate::starts::Starts;
use crate::targets::unit_at;
use mote_base::{NoMemory, Words};
use std::alloc::Global;
use unit_code::{BankCode, Unit};

/// The one list of units that accepted words spell, together with the words and the starts.
pub fn read_units(alloc: Global, code: &Words<'_>, starts: &Starts) -> Result<BankCode, NoMemory>
    requires { IsAccepted code.now starts.now }
    ensures units { IfOk result (λ bank. (marks : List ℕ) (sealed : Bool) (units : List Unit)
        → Spells code.now marks sealed units starts.now → bank.units ≡ units) }
    ensures value { IfOk result (λ bank. bank.units ≡ units_in code.now) }
    ensures same { IfOk result (λ bank. (bank.words ≡ code.now) × (bank.starts ≡ starts.now)) }
{
    // that words have 16 bits is said where they are counted
    let _count = code.len();
    let places = starts.as_slice();
    Ok(BankCode {
        units: units(alloc, code, places)?,
        words: words(alloc, code)?,
        starts: copied(alloc, places)?,
    })
}

fn units(alloc: Global, code: &Words<'_>, starts: &[u16]) -> Result<Vec<Unit>, NoMemory>
    requires parts { ArePartsOf code.now starts.now }
    requires units { HaveUnits code.now }
    ensures { IfOk result (λ units. units.items ≡ units_in code.now) }
{
    let mut read = Vec::with_capacity(alloc, starts.len())?;
    for n in 0..starts.len() {
        read.push(unit_at(code, starts, n))?;
    }
    Ok(read)
}

fn words(alloc: Global, code: &Words<'_>) -> Result<Vec<u16>, NoMemory>
    ensures { IfOk result (λ words. words.items ≡ code.now) }
{
    let count = code.len();
    let mut copy = Vec::with_capacity(alloc, count)?;
    for place in 0..count {
        copy.push(code.at(place))?;
    }
    Ok(copy)
}

fn copied(alloc: Global, places: &[u16]) -> Result<Vec<u16>, NoMemory>
    ensures { IfOk result (λ copy. copy.items ≡ places.now) }
{
    let mut copy = Vec::with_capacity(alloc, places.len())?;
    copy.extend_from_slice(places)?;
    Ok(copy)
}
