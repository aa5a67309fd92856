//! The bitwise operations on two bytes.
ghost use Rattle.std.specs.Prelude.{◌≡◌};
ghost use Rattle.avr_alu.specs.Flags.{flags_of, sreg_of};
ghost use Rattle.avr_alu.specs.Logic.{logic_value, logic_flags};

use crate::flags::Flags;

/// AND and ANDI, OR and ORI, and EOR, the exclusive or.
#[derive(Clone, Copy, Debug, PartialEq, Eq)]
pub enum Logic {
    And,
    Or,
    Eor,
}

#[tactic(auto, unfolding(crate::specs::Logic::logic_value, crate::specs::Logic::logic_flags))]
pub fn logic8(op: Logic, a: u8, b: u8, sreg: u8) -> (u8, u8)
    ensures value { result.0 ≡ logic_value op a b }
    ensures flags { result.1 ≡ sreg_of (logic_flags op a b (flags_of sreg)) }
{
    let byte = match op {
        Logic::And => a & b,
        Logic::Or => a | b,
        Logic::Eor => a ^ b,
    };
    (byte, Flags::from_sreg(sreg).with_byte(byte, false).sreg())
}
