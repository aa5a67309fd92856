//! Products of two bytes.
ghost use Rattle.std.specs.Prelude.{◌≡◌, ◌*◌, ◌%◌, ◌*ℤ◌, FitsSigned};
ghost use Rattle.avr_alu.specs.Flags.{flags_of, sreg_of};
ghost use Rattle.avr_alu.specs.Signed.{signed};
ghost use Rattle.std.specs.Int.{w16};
ghost use Rattle.avr_alu.specs.Mul.{word_of, mul_product, mul_scale, mul_value, mul_flags};

use crate::bits::is_top_set;
use crate::flags::Flags;

/// How two bytes are multiplied.
#[derive(Clone, Copy, Debug, PartialEq, Eq)]
pub enum Mul {
    /// MUL: both unsigned.
    U,
    /// MULS: both signed.
    S,
    /// MULSU: `a` signed and `b` unsigned.
    SU,
    /// FMUL: as MUL, fractional.
    FU,
    /// FMULS: as MULS, fractional.
    FS,
    /// FMULSU: as MULSU, fractional.
    FSU,
}

/// The product of two bytes, for R1:R0. A fractional product is shifted left once, and its low 16 bits
/// are kept.
#[tactic(auto, using(crate::proofs::MulLemmas::kept_bits, crate::proofs::MulLemmas::mul_flags_are))]
pub fn mul8(op: Mul, a: u8, b: u8, sreg: u8) -> (u16, u8)
    ensures value { result.0 ≡ mul_value op a b }
    ensures flags { result.1 ≡ sreg_of (mul_flags op a b (flags_of sreg)) }
{
    let product = product_of(op, a, b);
    let kept = kept_of(op, product);
    let flags = Flags {
        carry: is_top_set(product),
        zero: kept == 0,
        ..Flags::from_sreg(sreg)
    };
    (kept, flags.sreg())
}

/// The 16 bits of the product, before any shift.
#[tactic(auto, using(crate::proofs::MulLemmas::products), unfolding(crate::specs::Mul::mul_product))]
fn product_of(op: Mul, a: u8, b: u8) -> u16
    ensures { result ≡ word_of (mul_product op a b) }
{
    match op {
        Mul::U | Mul::FU => u16::from(a) * u16::from(b),
        Mul::S | Mul::FS => signed_product(signed_value(a), signed_value(b)),
        Mul::SU | Mul::FSU => signed_product(signed_value(a), i16::from(b)),
    }
}

/// The 16 bits of the product that are kept. Those of a fractional one are shifted left once.
#[tactic(auto, unfolding(crate::specs::Mul::mul_scale))]
fn kept_of(op: Mul, product: u16) -> u16
    ensures { result ≡ product * mul_scale op % 65536 }
{
    match op {
        Mul::U | Mul::S | Mul::SU => product,
        Mul::FU | Mul::FS | Mul::FSU => product << 1,
    }
}

#[tactic(auto, using(crate::proofs::MulLemmas::signed_is))]
fn signed_value(byte: u8) -> i16
    ensures { result ≡ signed byte }
{
    i16::from(byte.cast_signed())
}

#[tactic(auto, using(crate::proofs::MulLemmas::signed_bits))]
fn signed_product(x: i16, y: i16) -> u16
    requires { FitsSigned w16 (x *ℤ y) }
    ensures { result ≡ word_of (x *ℤ y) }
{
    (x * y).cast_unsigned()
}
