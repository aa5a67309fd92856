//! Sums and differences of two bytes.
ghost use Rattle.std.specs.Prelude.{◌≡◌};
ghost use Rattle.avr_alu.specs.Flags.{flags_of, sreg_of};
ghost use Rattle.avr_alu.specs.Sum.{add_value, add_flags, sub_value, sub_flags};

use crate::bits::is_set;
use crate::flags::Flags;

/// ADD and ADC: `a + b + carry`.
#[tactic(auto, using(crate::proofs::SumLemmas::add_value_is, crate::proofs::SumLemmas::add_flags_are))]
pub fn add8(a: u8, b: u8, carry: bool, sreg: u8) -> (u8, u8)
    ensures value { result.0 ≡ add_value a b carry }
    ensures flags { result.1 ≡ sreg_of (add_flags a b carry (flags_of sreg)) }
{
    let sum = a.wrapping_add(b).wrapping_add(u8::from(carry));
    let carries = a & b | b & !sum | !sum & a;
    let overflows = a & b & !sum | !a & !b & sum;
    let flags = Flags {
        carry: is_set(carries, 7),
        half_carry: is_set(carries, 3),
        ..Flags::from_sreg(sreg).with_byte(sum, is_set(overflows, 7))
    };
    (sum, flags.sreg())
}

/// SUB, SUBI, CP and CPI, and with `keep_z` SBC, SBCI and CPC: `a - b - carry`, where `carry` is the
/// borrow that goes in. With `keep_z` a result of 0 leaves Z as it was, so that after the last byte
/// of a longer number Z says that all of it is 0.
#[tactic(auto, using(crate::proofs::SumLemmas::sub_value_is, crate::proofs::SumLemmas::sub_flags_are))]
pub fn sub8(a: u8, b: u8, carry: bool, keep_z: bool, sreg: u8) -> (u8, u8)
    ensures value { result.0 ≡ sub_value a b carry }
    ensures flags { result.1 ≡ sreg_of (sub_flags a b carry keep_z (flags_of sreg)) }
{
    let difference = a.wrapping_sub(b).wrapping_sub(u8::from(carry));
    let borrows = !a & b | b & difference | difference & !a;
    let overflows = a & !b & !difference | !a & b & difference;
    let old = Flags::from_sreg(sreg);
    let flags = Flags {
        carry: is_set(borrows, 7),
        half_carry: is_set(borrows, 3),
        zero: (difference == 0) & (old.zero | !keep_z),
        ..old.with_byte(difference, is_set(overflows, 7))
    };
    (difference, flags.sreg())
}
