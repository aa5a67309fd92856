//! One bit of a byte or a word, counted from bit 0, the lowest.
ghost use Rattle.std.specs.Prelude.{◌≡◌, ◌≢◌, ℕ, ◌<◌};
ghost use Rattle.avr_alu.specs.Bits.{is_set, with_bit};

/// Whether a bit of a byte is 1, as of SREG in BRBS and BRBC.
#[tactic(auto, using(crate::proofs::BitLemmas::tested))]
pub fn is_set(byte: u8, bit: u8) -> bool
    requires { bit < 8 }
    ensures { result ≡ is_set byte bit }
{
    byte >> bit & 1 == 1
}

/// The byte with one bit put to `on`, as SREG after BSET, BCLR and BST.
#[tactic(auto, using(crate::proofs::BitLemmas::one_bit_changed))]
pub fn with_bit(byte: u8, bit: u8, on: bool) -> u8
    requires { bit < 8 }
    ensures value { result ≡ with_bit byte bit on }
    ensures changed { is_set result bit ≡ on }
    ensures others { (k : ℕ) → k < 8 → k ≢ bit → is_set result k ≡ is_set byte k }
{
    let mask = 1 << bit;
    if on { byte | mask } else { byte & !mask }
}

/// Whether the top bit of a word is 1.
#[tactic(auto, using(crate::proofs::BitLemmas::top_tested))]
pub(crate) fn is_top_set(word: u16) -> bool
    ensures { result ≡ is_set word 15 }
{
    word >> 15 == 1
}
