//! A word plus or minus a small number.
ghost use Rattle.std.specs.Prelude.{◌≡◌};
ghost use Rattle.avr_alu.specs.Flags.{flags_of, sreg_of};
ghost use Rattle.avr_alu.specs.Word.{word_add_value, word_add_flags, word_sub_value, word_sub_flags};

use crate::bits::is_top_set;
use crate::flags::Flags;

/// ADIW: `a + k`. The instruction has six bits for `k`; the sum and its flags are the same rule at any
/// `k`.
#[tactic(auto, using(crate::proofs::WordLemmas::word_add_value_is, crate::proofs::WordLemmas::word_add_flags_are))]
pub fn word_add(a: u16, k: u8, sreg: u8) -> (u16, u8)
    ensures value { result.0 ≡ word_add_value a k }
    ensures flags { result.1 ≡ sreg_of (word_add_flags a k (flags_of sreg)) }
{
    let sum = a.wrapping_add(u16::from(k));
    let flags = Flags {
        carry: is_top_set(!sum & a),
        ..Flags::from_sreg(sreg).with_word(sum, is_top_set(!a & sum))
    };
    (sum, flags.sreg())
}

/// SBIW: `a - k`, by the same rule at any `k`.
#[tactic(auto, using(crate::proofs::WordLemmas::word_sub_value_is, crate::proofs::WordLemmas::word_sub_flags_are))]
pub fn word_sub(a: u16, k: u8, sreg: u8) -> (u16, u8)
    ensures value { result.0 ≡ word_sub_value a k }
    ensures flags { result.1 ≡ sreg_of (word_sub_flags a k (flags_of sreg)) }
{
    let difference = a.wrapping_sub(u16::from(k));
    let flags = Flags {
        carry: is_top_set(difference & !a),
        ..Flags::from_sreg(sreg).with_word(difference, is_top_set(a & !difference))
    };
    (difference, flags.sreg())
}
