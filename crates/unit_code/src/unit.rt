//! The units, and how long each is in rewritten code.

ghost use Rattle.std.specs.Prelude.{◌≡◌};
ghost use Rattle.unit_code.specs.Lengths.{instruction_length, spelled_length};
ghost use Rattle.unit_code.specs.Loads.{guarded, is_load, load_where};

use avr_isa::Instr;

/// A unit of a module's code. Targets are unit numbers, counted from 0.
#[derive(Clone, Copy)]
pub enum Unit {
    /// An instruction that runs as it stands.
    Plain(Instr),
    /// A store, which is checked.
    Store(Instr),
    /// A load of a sealed image, which is checked.
    Load(Instr),
    /// `PUSH` of a register.
    Push(u8),
    /// `POP` to a register.
    Pop(u8),
    /// The instructions that set SP from Y, and SREG from R0 between its two bytes if `with_sreg`.
    SpGroup { with_sreg: bool },
    /// `RCALL` to the next instruction, which makes room for two bytes on the stack.
    Reserve,
    /// `CPSE`, `SBRC` or `SBRS`, which runs the next unit or passes over it.
    Skip(Instr),
    /// A branch where a bit of SREG is 1 (`set`) or 0.
    Branch { set: bool, bit: u8, target: u16 },
    /// `RJMP`.
    Jump(u16),
    /// `RCALL` to any other instruction.
    LocalCall(u16),
    /// `CALL` of the kernel call with this number.
    KernelCall(u8),
    /// `CALL` of the subscription slot with this number.
    SlotCall(u8),
    /// `ICALL`, which calls the slot whose entry Z holds.
    SlotIndirect,
    /// `RET`.
    Return,
}

/// How a unit is spelled in rewritten code. Only skips and branches have a short form.
#[derive(Clone, Copy, Debug, PartialEq, Eq)]
pub enum Shape {
    Long,
    Short,
}

/// The length in words of the unit in rewritten code. A unit without a short form has its long length at both shapes.
pub fn spelled_len(unit: &Unit, shape: Shape) -> u16
    ensures { result ≡ spelled_length unit.now shape }
{
    match unit {
        Unit::Plain(instruction) => instruction_len(instruction),
        Unit::Store(instruction) => 2 + instruction_len(instruction),
        Unit::Load(instruction) => 2 + instruction_len(instruction),
        Unit::Push(_) | Unit::Pop(_) => 3,
        Unit::SpGroup { with_sreg: false } => 4,
        Unit::SpGroup { with_sreg: true } => 5,
        Unit::Skip(_) => match shape {
            Shape::Long => 3,
            Shape::Short => 1,
        },
        Unit::Branch { .. } => match shape {
            Shape::Long => 2,
            Shape::Short => 1,
        },
        Unit::Jump(_) => 1,
        Unit::LocalCall(_) => 3,
        Unit::Reserve | Unit::SlotIndirect | Unit::Return => 2,
        Unit::KernelCall(_) | Unit::SlotCall(_) => 2,
    }
}

/// The number of words of an instruction.
fn instruction_len(instruction: &Instr) -> u16
    ensures { result ≡ instruction_length instruction.now }
{
    match instruction {
        Instr::Lds(_, _) | Instr::Sts(_, _) | Instr::Jmp(_) | Instr::Call(_) => 2,
        _ => 1,
    }
}

/// The unit in an image that is sealed or not: a load is checked exactly in a sealed one.
pub(crate) fn guarded(sealed: bool, unit: Unit) -> Unit
    ensures { result ≡ guarded sealed unit }
{
    match unit {
        Unit::Plain(instruction) => load_where(sealed && is_load(&instruction), instruction),
        Unit::Load(instruction) => load_where(sealed && is_load(&instruction), instruction),
        _ => unit,
    }
}

fn load_where(guarded: bool, instruction: Instr) -> Unit
    ensures { result ≡ load_where guarded instruction }
{
    if guarded {
        Unit::Load(instruction)
    } else {
        Unit::Plain(instruction)
    }
}

/// Whether it is LD, LDD or LDS.
#[tactic(auto, unfolding(crate::specs::Loads::is_load))]
pub fn is_load(instruction: &Instr) -> bool
    ensures { result ≡ is_load instruction.now }
{
    match instruction {
        Instr::LdX(_) | Instr::LdXInc(_) | Instr::LdXDec(_) | Instr::Lds(_, _) => true,
        Instr::LddY(_, _) | Instr::LdYInc(_) | Instr::LdYDec(_) => true,
        Instr::LddZ(_, _) | Instr::LdZInc(_) | Instr::LdZDec(_) => true,
        _ => false,
    }
}
