//! Operands, and the instructions that have one or two of them.

ghost use Rattle.std.specs.Prelude.{◌≡◌, ◌≤◌, ◌+◌, ◌++◌, length, decimal};
ghost use Rattle.arrayvec.specs.ArrayVec.{array_vec_len};
ghost use Rattle.mote_base.specs.Lines.{line_bytes};
ghost use Rattle.avr_list.specs.Operands.{operand_text, pointer_text, with_operand, with_operands};
ghost use Rattle.avr_list.specs.Widths.{name_width, one_width, operand_width, unit_width};
ghost use Rattle.mote_base.specs.Digits.{short_width};

use mote_base::{Line, add_short, add_text, add_word};

/// A pair of registers that a load or store goes through.
#[derive(Clone, Copy)]
pub enum Pointer {
    X,
    Y,
    Z,
}

/// An operand as it is written.
#[derive(Clone, Copy)]
pub enum Operand {
    /// A register, or a pair by its lower one.
    Register(u8),
    /// A constant, a port, the number of a bit, or that of an entry.
    Number(u8),
    /// The byte at a pointer.
    At(Pointer),
    /// The byte at a pointer, which is raised afterwards.
    Raised(Pointer),
    /// The byte at a pointer, which is lowered before.
    Lowered(Pointer),
    /// The byte that stands this far behind a pointer.
    Behind(Pointer, u8),
    /// The byte at an address.
    Address(u16),
    /// A unit, by its number.
    Target(u16),
}

/// Adds the letter of a pointer.
fn add_pointer(line: &mut Line, pointer: Pointer)
    requires { array_vec_len line.old + 1 ≤ line_bytes }
    ensures items { line.new.items ≡ line.old.items ++ pointer_text pointer }
    ensures len { array_vec_len line.new ≡ array_vec_len line.old + 1 }
{
    match pointer {
        Pointer::X => add_text(line, b"x"),
        Pointer::Y => add_text(line, b"y"),
        Pointer::Z => add_text(line, b"z"),
    }
}

/// Adds what stands before an operand's number, and the number.
fn add_marked(line: &mut Line, mark: &[u8], number: u16)
    requires room { array_vec_len line.old + 1 + short_width ≤ line_bytes }
    requires short { length mark.now ≤ 1 }
    ensures items { line.new.items ≡ line.old.items ++ mark.now ++ decimal number }
    ensures len { array_vec_len line.new ≤ array_vec_len line.old + 1 + short_width }
{
    add_text(line, mark);
    add_short(line, number);
}

/// Adds an operand.
fn add_operand(line: &mut Line, operand: Operand)
    requires { array_vec_len line.old + operand_width ≤ line_bytes }
    ensures items { line.new.items ≡ line.old.items ++ operand_text operand }
    ensures len { array_vec_len line.new ≤ array_vec_len line.old + operand_width }
{
    match operand {
        Operand::Register(register) => add_marked(line, b"r", u16::from(register)),
        Operand::Number(number) => add_short(line, u16::from(number)),
        Operand::At(pointer) => add_pointer(line, pointer),
        Operand::Raised(pointer) => {
            add_pointer(line, pointer);
            add_text(line, b"+");
        }
        Operand::Lowered(pointer) => {
            add_text(line, b"-");
            add_pointer(line, pointer);
        }
        Operand::Behind(pointer, displacement) => {
            add_pointer(line, pointer);
            add_marked(line, b"+", u16::from(displacement));
        }
        Operand::Address(address) => {
            add_text(line, b"0x");
            add_word(line, address);
        }
        Operand::Target(unit) => add_marked(line, b".", unit),
    }
}

/// Adds an instruction that has one operand.
pub fn add_one(line: &mut Line, name: &[u8], operand: Operand)
    requires room { array_vec_len line.old + one_width ≤ line_bytes }
    requires short { length name.now ≤ name_width }
    ensures items { line.new.items ≡ line.old.items ++ with_operand name.now (operand_text operand) }
    ensures len { array_vec_len line.new ≤ array_vec_len line.old + one_width }
{
    add_text(line, name);
    add_text(line, b" ");
    add_operand(line, operand);
}

/// Adds an instruction that has two operands.
pub fn add_two(line: &mut Line, name: &[u8], first: Operand, second: Operand)
    requires room { array_vec_len line.old + unit_width ≤ line_bytes }
    requires short { length name.now ≤ name_width }
    ensures items { line.new.items ≡ line.old.items
        ++ with_operands name.now (operand_text first) (operand_text second) }
    ensures len { array_vec_len line.new ≤ array_vec_len line.old + unit_width }
{
    add_one(line, name, first);
    add_text(line, b",");
    add_operand(line, second);
}
