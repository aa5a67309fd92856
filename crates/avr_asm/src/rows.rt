//! From a text to its rows.
ghost use Rattle.std.specs.Prelude.{◌≡◌, ◌≤◌, ◌<◌, ◌+◌, ℕ, suc, IfOk, IfErr, IfSome, ◌^◌, length, map};
ghost use Rattle.unit_code.specs.Lengths.{instruction_length};
ghost use Rattle.avr_asm.specs.Rows.{place_after, rows_of, unit_after, unit_words};
ghost use Rattle.avr_asm.specs.Seen.{row_seen, seen_option};
ghost use Rattle.avr_asm.specs.Text.{lines_in};

use crate::cut::{first_line, is_blank};
use crate::error::AsmError;
use crate::reading::said;
use crate::row::{Row, Said};
use crate::stage::{START, behind, kept};
use avr_isa::Instr;
use std::alloc::Global;
use unit_code::Unit;

fn instruction_words(instruction: &Instr) -> u64
    ensures words { result ≡ instruction_length instruction.now }
    ensures few { (1 ≤ result) × (result ≤ 2) }
{
    match instruction {
        Instr::Lds(_, _) | Instr::Sts(_, _) | Instr::Jmp(_) | Instr::Call(_) => 2,
        _ => 1,
    }
}

/// How many words of code a unit has.
pub fn unit_words(unit: &Unit) -> u64
    ensures words { result ≡ unit_words unit.now }
    ensures few { (1 ≤ result) × (result ≤ 3) }
{
    match unit {
        Unit::Plain(i) => instruction_words(i),
        Unit::Store(i) => instruction_words(i),
        Unit::Load(i) => instruction_words(i),
        Unit::Skip(i) => instruction_words(i),
        Unit::SpGroup { with_sreg: true } => 3,
        Unit::SpGroup { with_sreg: false } => 2,
        Unit::KernelCall(_) | Unit::SlotCall(_) => 2,
        _ => 1,
    }
}

fn unit_after(unit: u64, says: &Option<Said<'_>>) -> u64
    requires { unit < 2 ^ 63 }
    ensures after { result ≡ unit_after unit (seen_option says.now) }
    ensures one { result ≤ unit + 1 }
{
    match says {
        Some(Said::Item(_, _)) => unit + 1,
        _ => unit,
    }
}

/// None where the words are too many to be counted.
fn place_after(place: u64, says: &Option<Said<'_>>) -> Option<u64>
    ensures { IfSome result (λ after. after ≡ place_after place (seen_option says.now)) }
{
    match says {
        Some(Said::Item(unit, _)) => place.checked_add(unit_words(unit)),
        _ => Some(place),
    }
}

/// The rows of a text, and the number of the line behind its last.
pub fn read_rows(alloc: Global, text: &[u8]) -> Result<(Vec<Row<'_>>, u64), AsmError>
    ensures rows { IfOk result (λ found. map row_seen found.0.items ≡ rows_of (lines_in text.now)) }
    ensures end { IfOk result (λ found. found.1 ≡ suc (length (lines_in text.now))) }
    ensures err { IfErr result (λ e. e ≡ AsmError.NoMemory) }
{
    let mut found = Vec::new(alloc);
    let mut line = 1;
    let mut stage = START;
    let mut unit = 0;
    let mut place = 0;
    let mut rest = text;
    while !rest.is_empty() {
        let (first, others) = first_line(rest);
        rest = others;
        if !is_blank(first) {
            let says = said(alloc, first)?;
            found.push(Row {
                line,
                stage,
                unit,
                place,
                says,
            })?;
            stage = kept(stage, behind(stage, &says));
            unit = unit_after(unit, &says);
            let Some(next) = place_after(place, &says) else {
                return Err(AsmError::NoMemory);
            };
            place = next;
        }
        line += 1;
    }
    Ok((found, line))
}
