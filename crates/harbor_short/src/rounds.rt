//! The rounds.

ghost use Rattle.std.specs.Prelude.{◌≡◌, ◌↔◌, ◌+◌, ◌<◌, ◌≤◌, Bool, true, false, length, IfOk, IsTrue};
ghost use Rattle.std.specs.List.{AllByRecursion};
ghost use Rattle.avr_isa.specs.Operands.{IsBranchOffset};
ghost use Rattle.mote_layout.specs.Memory.{bank_words};
ghost use Rattle.unit_code.specs.Ends.{long_length};
ghost use Rattle.unit_code.specs.Proper.{IsProper, LeadsBelow};
ghost use Rattle.unit_code.specs.Spelled.{offset_to};
ghost use Rattle.unit_code.specs.Spelling.{AreReadSo, AreShapesOf, begins_with_jump, begins_with_single, is_single, starts_of};
ghost use Rattle.harbor_short.specs.Longs.{longs};
ghost use Rattle.harbor_short.specs.Rounds.{AreChosen, BecomesShort, IsRound, all_long};

use mote_base::NoMemory;
use std::alloc::Global;
use unit_code::{Shape, Unit, spelled_len};

/// How far behind its own end a branch leads at most.
const BRANCH_REACH: u16 = 63;

/// The shapes to which the rounds come. Only skips and branches that reach their targets are short.
///
/// A round measures each start once, so it takes as long as there are units.
pub fn choose(alloc: Global, units: &[Unit]) -> Result<Vec<Shape>, NoMemory>
    requires { (sealed : Bool) × IsProper units.now sealed }
    ensures chosen { IfOk result (λ shapes. AreChosen units.now shapes.items) }

    // With these shapes' own starts each unit may have its shape, and each short template is read as one.
    ensures shapes { IfOk result (λ shapes. AreShapesOf units.now shapes.items) }
    ensures read { IfOk result (λ shapes. AreReadSo units.now shapes.items) }
{
    let mut shapes = vec![in alloc; Shape::Long; units.len()]?;
    let mut starts = vec![in alloc; 0; units.len()]?;
    make_rounds(units, &mut starts, &mut shapes);
    Ok(shapes)
}

/// Makes rounds, from all long, until one changes nothing. The starts are a place for those of the present shapes.
fn make_rounds(units: &[Unit], starts: &mut [u16], shapes: &mut [Shape])
    requires long { shapes.old ≡ all_long units.now }
    requires placed { length starts.old ≡ length units.now }
    requires proper { (sealed : Bool) × IsProper units.now sealed }
    ensures { AreChosen units.now shapes.new }
{
    measure(units, shapes, starts);
    while shorten(units, starts, shapes) {
        measure(units, shapes, starts);
    }
}

/// Sets where the templates of units in these shapes start, in words from the first one.
pub fn measure(units: &[Unit], shapes: &[Shape], starts: &mut [u16])
    requires shaped { length shapes.now ≡ length units.now }
    requires placed { length starts.old ≡ length units.now }
    requires fits { long_length units.now ≤ bank_words }
    ensures { starts.new ≡ starts_of units.now shapes.now }
{
    let mut place = 0;
    for i in 0..units.len() {
        starts[i] = place;
        place += spelled_len(&units[i], shapes[i]);
    }
}

/// One round, with the starts that the shapes give. Whether it changed a shape.
fn shorten(units: &[Unit], starts: &[u16], shapes: &mut [Shape]) -> bool
    requires starts { starts.now ≡ starts_of units.now shapes.old }
    requires shaped { length shapes.old ≡ length units.now }
    requires targets { AllByRecursion (LeadsBelow (length units.now)) units.now }
    ensures round { IsRound units.now shapes.old shapes.new }
    ensures fewer { result ≡ true → longs shapes.new < longs shapes.old }
    ensures same { result ≡ false → shapes.new ≡ shapes.old }
{
    let mut changed = false;
    for i in 0..units.len() {
        let turns = becomes_short(
            starts,
            starts[i],
            &units[i],
            &units[i + 1..],
            &shapes[i + 1..],
        );
        if turns && shapes[i] == Shape::Long {
            shapes[i] = Shape::Short;
            changed = true;
        }
    }
    changed
}

/// Whether a long unit at a word becomes short before these units in their shapes.
fn becomes_short(starts: &[u16], at: u16, unit: &Unit, behind: &[Unit], shapes: &[Shape]) -> bool
    requires { LeadsBelow (length starts.now) unit.now }
    ensures { IsTrue result ↔ BecomesShort starts.now at unit.now behind.now shapes.now }
{
    match *unit {
        Unit::Skip(_) => !begins_with_jump(behind) && begins_with_single(behind, shapes),
        Unit::Branch { target, .. } => {
            !begins_with_jump(behind) && reaches(at, starts[usize::from(target)])
        }
        _ => false,
    }
}

/// Whether a branch at one word reaches another word.
fn reaches(at: u16, word: u16) -> bool
    ensures { IsTrue result ↔ IsBranchOffset (offset_to at word) }
{
    if at < word {
        word - at - 1 <= BRANCH_REACH
    } else {
        at - word <= BRANCH_REACH
    }
}

fn begins_with_jump(units: &[Unit]) -> bool
    ensures { result ≡ begins_with_jump units.now }
{
    matches!(units, [Unit::Jump(_), ..])
}

fn begins_with_single(units: &[Unit], shapes: &[Shape]) -> bool
    ensures { result ≡ begins_with_single units.now shapes.now }
{
    match (units, shapes) {
        ([unit, ..], [shape, ..]) => is_single(unit, *shape),
        _ => false,
    }
}

/// Whether the template of the unit in this shape is one instruction.
fn is_single(unit: &Unit, shape: Shape) -> bool
    ensures { result ≡ is_single unit.now shape }
{
    match unit {
        Unit::Plain(_) | Unit::Jump(_) | Unit::Return | Unit::Reserve => true,
        Unit::KernelCall(_) | Unit::SlotCall(_) | Unit::SlotIndirect => true,
        Unit::Skip(_) | Unit::Branch { .. } => shape == Shape::Short,
        _ => false,
    }
}
