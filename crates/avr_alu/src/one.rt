//! The operations on one byte.
ghost use Rattle.std.specs.Prelude.{◌≡◌, false};
ghost use Rattle.avr_alu.specs.Flags.{flags_of, sreg_of};
ghost use Rattle.avr_alu.specs.One.{one_value, one_flags, shift_flags};
ghost use Rattle.avr_alu.specs.Sum.{sub_flags};

use crate::bits::is_set;
use crate::flags::Flags;

/// The operations on one byte, by the manual's mnemonics.
#[derive(Clone, Copy, Debug, PartialEq, Eq)]
pub enum One {
    Com,
    Neg,
    Inc,
    Dec,
    Swap,
    Lsr,
    Ror,
    Asr,
}

/// The result, and SREG after it. The carry that ROR rotates in is the one in `sreg`.
pub fn one8(op: One, a: u8, sreg: u8) -> (u8, u8)
    ensures value { result.0 ≡ one_value op a (flags_of sreg) }
    ensures flags { result.1 ≡ sreg_of (one_flags op a (flags_of sreg)) }
{
    let old = Flags::from_sreg(sreg);
    let byte = result_of(op, a, old);
    (byte, flags_after(op, a, byte, old).sreg())
}

#[tactic(auto, using(crate::proofs::OneLemmas::moved_bits), unfolding(crate::specs::One::one_value, crate::specs::One::shifted_right, crate::specs::Sum::sub_value))]
fn result_of(op: One, a: u8, old: Flags) -> u8
    ensures { result ≡ one_value op a old }
{
    match op {
        One::Com => !a,
        One::Neg => a.wrapping_neg(),
        One::Inc => a.wrapping_add(1),
        One::Dec => a.wrapping_sub(1),
        One::Swap => a << 4 | a >> 4,
        One::Lsr => a >> 1,
        One::Ror => u8::from(old.carry) << 7 | a >> 1,
        One::Asr => a & 0x80 | a >> 1,
    }
}

/// The flags after `byte`, which is the result.
#[tactic(auto, using(crate::proofs::OneLemmas::step_flags), unfolding(crate::specs::One::one_flags))]
fn flags_after(op: One, a: u8, byte: u8, old: Flags) -> Flags
    requires { byte ≡ one_value op a old }
    ensures { result ≡ one_flags op a old }
{
    match op {
        One::Com => Flags {
            carry: true,
            ..old.with_byte(byte, false)
        },
        One::Neg => negated(a, byte, old),
        One::Inc => old.with_byte(byte, byte == 0x80),
        One::Dec => old.with_byte(byte, byte == 0x7F),
        One::Swap => old,
        One::Lsr | One::Ror | One::Asr => shifted(a, byte, old),
    }
}

/// The flags after `byte`, which is 0 minus `a`.
#[tactic(auto, using(crate::proofs::OneLemmas::neg_flags_are))]
fn negated(a: u8, byte: u8, old: Flags) -> Flags
    requires { byte ≡ one_value One.Neg a old }
    ensures { result ≡ sub_flags 0 a false false old }
{
    Flags {
        carry: byte != 0,
        half_carry: is_set(byte | a, 3),
        ..old.with_byte(byte, byte == 0x80)
    }
}

/// The flags after a shift to the right from `a` to `byte`.
#[tactic(auto, using(crate::proofs::OneLemmas::shift_flags_are))]
fn shifted(a: u8, byte: u8, old: Flags) -> Flags
    ensures { result ≡ shift_flags a byte old }
{
    let carry = is_set(a, 0);
    let overflow = is_set(byte, 7) ^ carry;
    Flags {
        carry,
        ..old.with_byte(byte, overflow)
    }
}
