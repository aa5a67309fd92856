//! The operands of a word, by their places in it.

ghost use Rattle.std.specs.Prelude.{◌≡◌, ◌+◌, ◌*◌, ◌/◌, ◌%◌, ◌^◌, ◌<◌, ◌≤◌};
ghost use Rattle.avr_isa.specs.Pattern.{signed};

/// The number that `count` bits of a word make, from bit `low` up.
pub(crate) fn bits(word: u16, low: u16, count: u16) -> u8
    requires start { low < 16 }
    requires byte { count ≤ 8 }
    ensures { result ≡ word / 2 ^ low % 2 ^ count }
{
    ((word >> low) % (1 << count)) as u8
}

/// A register at dddd with its high bit before them, as in `000d dddd`.
pub(crate) fn register(word: u16) -> u8
    ensures { result ≡ word / 2 ^ 4 % 2 ^ 5 }
{
    bits(word, 4, 5)
}

/// The second register of an instruction with two, as in `rd dddd rrrr`.
pub(crate) fn second_register(word: u16) -> u8
    ensures { result ≡ 16 * (word / 2 ^ 9 % 2 ^ 1) + word / 2 ^ 0 % 2 ^ 4 }
{
    16 * bits(word, 9, 1) + bits(word, 0, 4)
}

/// One of R16 to R31, at dddd.
pub(crate) fn upper_register(word: u16) -> u8
    ensures { result ≡ 16 + word / 2 ^ 4 % 2 ^ 4 }
{
    16 + bits(word, 4, 4)
}

/// A constant around the register, as in `KKKK dddd KKKK`.
pub(crate) fn constant(word: u16) -> u8
    ensures { result ≡ 16 * (word / 2 ^ 8 % 2 ^ 4) + word / 2 ^ 0 % 2 ^ 4 }
{
    16 * bits(word, 8, 4) + bits(word, 0, 4)
}

/// The distance from a pointer, as in `10q0 qq0d dddd 0qqq`.
pub(crate) fn displacement(word: u16) -> u8
    ensures { result ≡ 32 * (word / 2 ^ 13 % 2 ^ 1) + 8 * (word / 2 ^ 10 % 2 ^ 2) + word / 2 ^ 0 % 2 ^ 3 }
{
    32 * bits(word, 13, 1) + 8 * bits(word, 10, 2) + bits(word, 0, 3)
}

/// The lower register of the pair at dd, of R25:R24 to R31:R30.
pub(crate) fn upper_pair(word: u16) -> u8
    ensures { result ≡ 24 + 2 * (word / 2 ^ 4 % 2 ^ 2) }
{
    24 + 2 * bits(word, 4, 2)
}

/// The constant that is added to a pair, as in `KKdd KKKK`.
pub(crate) fn pair_constant(word: u16) -> u8
    ensures { result ≡ 16 * (word / 2 ^ 6 % 2 ^ 2) + word / 2 ^ 0 % 2 ^ 4 }
{
    16 * bits(word, 6, 2) + bits(word, 0, 4)
}

/// A port, as in `AAd dddd AAAA`.
pub(crate) fn port(word: u16) -> u8
    ensures { result ≡ 16 * (word / 2 ^ 9 % 2 ^ 2) + word / 2 ^ 0 % 2 ^ 4 }
{
    16 * bits(word, 9, 2) + bits(word, 0, 4)
}

/// The high six bits of a program address, as in `010k kkkk 111k`.
pub(crate) fn high_address(word: u16) -> u8
    ensures { result ≡ 2 * (word / 2 ^ 4 % 2 ^ 5) + word / 2 ^ 0 % 2 ^ 1 }
{
    2 * bits(word, 4, 5) + bits(word, 0, 1)
}

/// The offset of a relative jump, twelve bits in two's complement.
pub(crate) fn jump_offset(word: u16) -> i16
    ensures { result ≡ signed 12 (word / 2 ^ 0 % 2 ^ 12) }
{
    let offset = (word % 4096) as i16;
    if offset < 2048 { offset } else { offset - 4096 }
}

/// The offset of a branch, seven bits in two's complement.
pub(crate) fn branch_offset(word: u16) -> i8
    ensures { result ≡ signed 7 (word / 2 ^ 3 % 2 ^ 7) }
{
    let offset = bits(word, 3, 7);
    if offset < 64 {
        offset as i8
    } else {
        (i16::from(offset) - 128) as i8
    }
}
