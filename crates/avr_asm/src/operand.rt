//! Operands by their texts. A number is brought into its range: a text that says another isn't spelled again as it stands.
ghost use Rattle.std.specs.Prelude.{◌≡◌, ◌<◌, ◌≤◌, drop};
ghost use Rattle.avr_asm.specs.Reading.{address, bit, byte, four_digits, middle, module_id, pair, register, six_bits, upper, upper_pair};
ghost use Rattle.avr_asm.specs.Text.{hex_value};

use crate::words::{hex_value, value};

/// The text behind its first byte.
pub fn tail(text: &[u8]) -> &[u8]
    ensures { result.now ≡ drop 1 text.now }
{
    if text.is_empty() { text } else { &text[1..] }
}

/// The text behind its first two bytes.
pub fn behind_two(text: &[u8]) -> &[u8]
    ensures { result.now ≡ drop 2 text.now }
{
    if text.len() < 2 { &[] } else { &text[2..] }
}

pub fn register(text: &[u8]) -> u8
    ensures { result ≡ register text.now }
{
    (value(tail(text)) % 32) as u8
}

pub fn upper(text: &[u8]) -> u8
    ensures { result ≡ upper text.now }
{
    16 + (value(tail(text)) % 16) as u8
}

pub fn middle(text: &[u8]) -> u8
    ensures { result ≡ middle text.now }
{
    16 + (value(tail(text)) % 8) as u8
}

pub fn pair(text: &[u8]) -> u8
    ensures { result ≡ pair text.now }
{
    2 * (value(tail(text)) / 2 % 16) as u8
}

pub fn upper_pair(text: &[u8]) -> u8
    ensures { result ≡ upper_pair text.now }
{
    24 + 2 * (value(tail(text)) / 2 % 4) as u8
}

pub fn byte(text: &[u8]) -> u8
    ensures { result ≡ byte text.now }
{
    (value(text) % 256) as u8
}

pub fn six_bits(text: &[u8]) -> u8
    ensures { result ≡ six_bits text.now }
{
    (value(text) % 64) as u8
}

pub fn bit(text: &[u8]) -> u8
    ensures { result ≡ bit text.now }
{
    (value(text) % 8) as u8
}

fn four_digits(text: &[u8]) -> u32
    ensures { result ≡ four_digits text.now }
{
    match text {
        [a, b, c, d] => {
            4096 * u32::from(hex_value(*a))
                + 256 * u32::from(hex_value(*b))
                + 16 * u32::from(hex_value(*c))
                + u32::from(hex_value(*d))
        }
        _ => 0,
    }
}

pub fn address(text: &[u8]) -> u16
    ensures { result ≡ address text.now }
{
    (four_digits(behind_two(text)) % 65_536) as u16
}

pub fn module_id(text: &[u8]) -> u8
    ensures { result ≡ module_id text.now }
{
    1 + (value(text).saturating_sub(1) % 254) as u8
}
