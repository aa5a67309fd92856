//! The units of a text, and where their code can't go on.
ghost use Rattle.std.specs.Prelude.{◌≡◌, ◌≤◌, IfOk, map};
ghost use Rattle.unit_code.specs.Ends.{leaves};
ghost use Rattle.unit_code.specs.Loads.{guarded};
ghost use Rattle.unit_code.specs.Proper.{is_group_unit};
ghost use Rattle.avr_asm.specs.Refusals.{can_be_skipped, cannot_end, cannot_skip, is_too_long, kinds_in, stuck, stuck_in};
ghost use Rattle.avr_asm.specs.Assembly.{aimed, units_in};
ghost use Rattle.avr_asm.specs.Encoding.{AreNear, IsNear};
ghost use Rattle.avr_asm.specs.Seen.{row_seen};

use crate::judge::led;
use crate::row::{Row, Said};
use mote_layout::BANK_WORDS;
use std::alloc::{AllocError, Global};
use unit_code::{Shape, Unit, is_load, spelled_len};

/// The unit in a text that is sealed or not: a load is checked exactly in a sealed one.
pub fn guarded(sealed: bool, unit: Unit) -> Unit
    ensures { result ≡ guarded sealed unit }
{
    match unit {
        Unit::Plain(instruction) if sealed && is_load(&instruction) => Unit::Load(instruction),
        Unit::Plain(instruction) => Unit::Plain(instruction),
        Unit::Load(instruction) if sealed && is_load(&instruction) => Unit::Load(instruction),
        Unit::Load(instruction) => Unit::Plain(instruction),
        _ => unit,
    }
}

/// The units without their targets.
pub fn kinds(alloc: Global, rows: &[Row<'_>], sealed: bool) -> Result<Vec<Unit>, AllocError>
    ensures { IfOk result (λ units. units.items ≡ kinds_in sealed (map row_seen rows.now)) }
{
    let mut units = Vec::new(alloc);
    for row in rows {
        if let Some(Said::Item(unit, _)) = row.says {
            units.push(guarded(sealed, unit))?;
        }
    }
    Ok(units)
}

fn is_group(unit: &Unit) -> bool
    ensures { result ≡ is_group_unit unit.now }
{
    match unit {
        Unit::SpGroup { .. } => true,
        _ => false,
    }
}

fn can_be_skipped(behind: &[Unit]) -> bool
    ensures { result ≡ can_be_skipped behind.now }
{
    match behind {
        [] => false,
        [_] => false,
        [next, ..] => !is_group(next),
    }
}

fn cannot_skip(unit: &Unit, behind: &[Unit]) -> bool
    ensures { result ≡ cannot_skip unit.now behind.now }
{
    match unit {
        Unit::Skip(_) => !can_be_skipped(behind),
        _ => false,
    }
}

fn leaves(unit: &Unit) -> bool
    ensures { result ≡ leaves unit.now }
{
    match unit {
        Unit::Jump(_) => true,
        Unit::Return => true,
        _ => false,
    }
}

fn cannot_end(long: bool, unit: &Unit, behind: &[Unit]) -> bool
    ensures { result ≡ cannot_end long unit.now behind.now }
{
    match behind {
        [] => long || !leaves(unit),
        [_, ..] => false,
    }
}

/// Whether the long spelling is longer than a bank of flash.
fn is_too_long(units: &[Unit]) -> bool
    ensures { result ≡ is_too_long units.now }
{
    let mut words = 0;
    for unit in units {
        words += u32::from(spelled_len(unit, Shape::Long));
        if words > u32::from(BANK_WORDS) {
            return true;
        }
    }
    false
}

fn first_stuck(long: bool, units: &[Unit]) -> Option<u64>
    ensures { result ≡ stuck long 0 units.now }
{
    for (at, unit) in units.iter().enumerate() {
        let behind = &units[at + 1..];
        if cannot_skip(unit, behind) || cannot_end(long, unit, behind) {
            return Some(at as u64);
        }
    }
    None
}

/// The number of the first unit behind which the code can't go on, or of the last where it is too long.
pub fn stuck_in(units: &[Unit]) -> Option<u64>
    ensures { result ≡ stuck_in units.now }
{
    first_stuck(is_too_long(units), units)
}

/// A unit with its target.
fn aimed(unit: Unit, target: Option<u64>) -> Unit
    requires { IsNear target }
    ensures { result ≡ aimed unit target }
{
    let Some(target) = target else {
        return unit;
    };
    match unit {
        Unit::Branch { set, bit, .. } => Unit::Branch {
            set,
            bit,
            target: target as u16,
        },
        Unit::Jump(_) => Unit::Jump(target as u16),
        Unit::LocalCall(_) => Unit::LocalCall(target as u16),
        _ => unit,
    }
}

/// The units with their targets.
pub fn units(alloc: Global, rows: &[Row<'_>], sealed: bool) -> Result<Vec<Unit>, AllocError>
    requires { AreNear (map row_seen rows.now) (map row_seen rows.now) }
    ensures { IfOk result (λ units. units.items ≡ units_in (map row_seen rows.now) sealed (map row_seen rows.now)) }
{
    let mut units = Vec::new(alloc);
    for row in rows {
        if let Some(Said::Item(unit, goal)) = row.says {
            units.push(guarded(sealed, aimed(unit, led(rows, goal))))?;
        }
    }
    Ok(units)
}
