//! The status register by its flags.
ghost use Rattle.std.specs.Prelude.{◌≡◌, ◌+◌, ◌*◌, ◌^◌, ◌<◌};
ghost use Rattle.std.specs.Int.{from_bool};

use crate::bits::{is_set, is_top_set};

/// The flags of the status register SREG, by the manual's names. SREG holds them in this order from
/// bit 0 up, as C Z N V S H T I.
#[derive(Clone, Copy, Debug, PartialEq, Eq)]
pub struct Flags {
    pub carry: bool,
    pub zero: bool,
    pub negative: bool,
    /// That the result, as a number in two's complement, is not the true one.
    pub overflow: bool,
    /// The sign of the true result, N xor V.
    pub sign: bool,
    pub half_carry: bool,
    /// The bit that BST stores and BLD loads.
    pub transfer: bool,
    /// Whether interrupts are enabled.
    pub interrupt: bool,
}

impl Flags {
    ghost use Rattle.avr_alu.specs.Flags.{flags_of, sreg_of, with_result, with_byte, with_word};

    /// The flags that a byte of SREG holds.
    #[tactic(auto, using(crate::proofs::FlagLemmas::joined_again), unfolding(crate::specs::Flags::flags_of))]
    pub fn from_sreg(sreg: u8) -> Self
        ensures flags { result ≡ flags_of sreg }
        ensures round_trip { sreg_of result ≡ sreg }
    {
        Flags {
            carry: is_set(sreg, 0),
            zero: is_set(sreg, 1),
            negative: is_set(sreg, 2),
            overflow: is_set(sreg, 3),
            sign: is_set(sreg, 4),
            half_carry: is_set(sreg, 5),
            transfer: is_set(sreg, 6),
            interrupt: is_set(sreg, 7),
        }
    }

    /// The byte of SREG that holds the flags.
    #[tactic(auto, using(crate::proofs::FlagLemmas::joined_by_bits, crate::proofs::FlagLemmas::split_again))]
    pub fn sreg(self) -> u8
        ensures byte { result ≡ sreg_of self }
        ensures round_trip { flags_of result ≡ self }
    {
        let byte = u8::from(self.carry);
        let byte = put_above(byte, 1, self.zero);
        let byte = put_above(byte, 2, self.negative);
        let byte = put_above(byte, 3, self.overflow);
        let byte = put_above(byte, 4, self.sign);
        let byte = put_above(byte, 5, self.half_carry);
        let byte = put_above(byte, 6, self.transfer);
        put_above(byte, 7, self.interrupt)
    }

    #[tactic(auto, using(crate::proofs::FlagLemmas::result_by_bits))]
    fn with_result(self, zero: bool, negative: bool, overflow: bool) -> Self
        ensures { result ≡ with_result zero negative overflow self }
    {
        Flags {
            zero,
            negative,
            overflow,
            sign: negative ^ overflow,
            ..self
        }
    }

    /// Z, N, V and S after a byte as the result.
    #[tactic(auto, using(crate::proofs::FlagLemmas::byte_by_bits))]
    pub(crate) fn with_byte(self, byte: u8, overflow: bool) -> Self
        ensures { result ≡ with_byte byte overflow self }
    {
        self.with_result(byte == 0, is_set(byte, 7), overflow)
    }

    /// Z, N, V and S after a word as the result.
    #[tactic(auto, using(crate::proofs::FlagLemmas::word_by_bits))]
    pub(crate) fn with_word(self, word: u16, overflow: bool) -> Self
        ensures { result ≡ with_word word overflow self }
    {
        self.with_result(word == 0, is_top_set(word), overflow)
    }
}

/// The byte with a bit put above those that it has so far.
#[tactic(auto, using(crate::proofs::FlagLemmas::put_above_adds))]
fn put_above(byte: u8, bit: u8, on: bool) -> u8
    requires below { byte < 2 ^ bit }
    requires within { bit < 8 }
    ensures { result ≡ byte + from_bool on * 2 ^ bit }
{
    u8::from(on) << bit | byte
}
