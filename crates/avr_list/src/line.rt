//! The line of a unit.

ghost use Rattle.std.specs.Prelude.{◌≡◌, ◌≤◌, ◌+◌, ◌++◌, []};
ghost use Rattle.arrayvec.specs.ArrayVec.{array_vec_len};
ghost use Rattle.mote_base.specs.Lines.{line_bytes};
ghost use Rattle.unit_code.specs.Proper.{IsOfKind};
ghost use Rattle.avr_list.specs.Lines.{listing_line, unit_text};
ghost use Rattle.avr_list.specs.Widths.{unit_width};

use crate::instruction::add_instruction;
use crate::operand::Operand::{Number, Register, Target};
use crate::operand::{add_one, add_two};
use mote_base::{Line, add_short, add_text, add_word};
use unit_code::Unit;

/// Gives an empty line the text of a unit: its number, the place of its first word, and what it is.
#[tactic(auto, unfolding(crate::specs::Lines::listing_line))]
pub fn list_line(number: u16, place: u16, unit: &Unit, line: &mut Line)
    requires kind { IsOfKind unit.now }
    requires empty { line.old.items ≡ [] }
    ensures text { line.new.items ≡ listing_line number place unit.now }
{
    add_short(line, number);
    add_text(line, b" ");
    add_word(line, place);
    add_text(line, b" ");
    add_unit(line, unit);
    add_text(line, b"\n");
}

/// Adds what a unit is.
pub fn add_unit(line: &mut Line, unit: &Unit)
    requires room { array_vec_len line.old + unit_width ≤ line_bytes }
    requires kind { IsOfKind unit.now }
    ensures items { line.new.items ≡ line.old.items ++ unit_text unit.now }
    ensures len { array_vec_len line.new ≤ array_vec_len line.old + unit_width }
{
    match unit {
        Unit::Plain(instruction) => add_instruction(line, instruction),
        Unit::Store(instruction) => add_instruction(line, instruction),
        Unit::Load(instruction) => add_instruction(line, instruction),
        Unit::Skip(instruction) => add_instruction(line, instruction),
        Unit::Push(r) => add_one(line, b"push", Register(*r)),
        Unit::Pop(d) => add_one(line, b"pop", Register(*d)),
        Unit::SpGroup { with_sreg: true } => add_text(line, b"setsps"),
        Unit::SpGroup { with_sreg: false } => add_text(line, b"setsp"),
        Unit::Reserve => add_text(line, b"reserve"),
        Unit::Branch { set, bit, target } => {
            let name = if *set { b"brbs" } else { b"brbc" };
            add_two(line, name, Number(*bit), Target(*target));
        }
        Unit::Jump(target) => add_one(line, b"rjmp", Target(*target)),
        Unit::LocalCall(target) => add_one(line, b"rcall", Target(*target)),
        Unit::KernelCall(call) => add_one(line, b"kcall", Number(*call)),
        Unit::SlotCall(slot) => add_one(line, b"scall", Number(*slot)),
        Unit::SlotIndirect => add_text(line, b"icall"),
        Unit::Return => add_text(line, b"ret"),
    }
}
