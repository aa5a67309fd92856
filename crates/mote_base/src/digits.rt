//! Pieces of text at the end of a line: texts, and numbers as digits.
ghost use Rattle.std.specs.Prelude.{◌≡◌, ◌<◌, ◌≤◌, ◌+◌, ◌*◌, ◌++◌, length, decimal};
ghost use Rattle.std.specs.Char.{digit_char};
ghost use Rattle.arrayvec.specs.ArrayVec.{array_vec_len};
ghost use Rattle.mote_base.specs.Digits.{byte_digits, byte_width, bytes_text, long_width, pairs_text, short_width, word_digits, word_width};
ghost use Rattle.mote_base.specs.Lines.{line_bytes};

use crate::line::Line;
use itoa::Buffer;

/// Adds bytes for which the line has room.
pub fn add_text(line: &mut Line, piece: &[u8])
    requires { array_vec_len line.old + length piece.now ≤ line_bytes }
    ensures items { line.new.items ≡ line.old.items ++ piece.now }
    ensures len { array_vec_len line.new ≡ array_vec_len line.old + length piece.now }
{
    line.try_extend_from_slice(piece).unwrap()
}

/// Adds a number in decimal.
pub fn add_number(line: &mut Line, number: u64)
    requires { array_vec_len line.old + long_width ≤ line_bytes }
    ensures items { line.new.items ≡ line.old.items ++ decimal number }
    ensures len { array_vec_len line.new ≤ array_vec_len line.old + long_width }
{
    let mut buffer = Buffer::new();
    add_text(line, buffer.format(number).as_bytes());
}

/// Adds a number of 16 bits in decimal.
pub fn add_short(line: &mut Line, number: u16)
    requires { array_vec_len line.old + short_width ≤ line_bytes }
    ensures items { line.new.items ≡ line.old.items ++ decimal number }
    ensures len { array_vec_len line.new ≤ array_vec_len line.old + short_width }
{
    let mut buffer = Buffer::new();
    add_text(line, buffer.format(number).as_bytes());
}

// The digit of a value below 16, in lower case.
fn hex_digit(value: u16) -> u8
    requires { value < 16 }
    ensures { result ≡ digit_char value }
{
    let value = value as u8;
    if value < 10 {
        b'0' + value
    } else {
        b'a' + (value - 10)
    }
}

/// Adds a word in four hexadecimal digits.
pub fn add_word(line: &mut Line, word: u16)
    requires { array_vec_len line.old + word_width ≤ line_bytes }
    ensures items { line.new.items ≡ line.old.items ++ word_digits word }
    ensures len { array_vec_len line.new ≡ array_vec_len line.old + word_width }
{
    let digits = [
        hex_digit(word / 4096),
        hex_digit(word / 256 % 16),
        hex_digit(word / 16 % 16),
        hex_digit(word % 16),
    ];
    add_text(line, &digits);
}

/// Adds a byte in two hexadecimal digits.
pub fn add_byte(line: &mut Line, byte: u8)
    requires { array_vec_len line.old + byte_width ≤ line_bytes }
    ensures items { line.new.items ≡ line.old.items ++ byte_digits byte }
    ensures len { array_vec_len line.new ≡ array_vec_len line.old + byte_width }
{
    let byte = u16::from(byte);
    let digits = [hex_digit(byte / 16), hex_digit(byte % 16)];
    add_text(line, &digits);
}

// Adds each byte in two hexadecimal digits.
#[tactic(auto, using(crate::proofs::Pairs::pairs_are))]
fn add_pairs(line: &mut Line, bytes: &[u8])
    requires { array_vec_len line.old + byte_width * length bytes.now ≤ line_bytes }
    ensures items { line.new.items ≡ line.old.items ++ pairs_text bytes.now }
    ensures len { array_vec_len line.new ≡ array_vec_len line.old + byte_width * length bytes.now }
{
    for byte in bytes {
        add_byte(line, *byte);
    }
}

/// Adds bytes in hexadecimal digits, or `-` where there is none.
pub fn add_bytes(line: &mut Line, bytes: &[u8])
    requires { array_vec_len line.old + (1 + byte_width * length bytes.now) ≤ line_bytes }
    ensures items { line.new.items ≡ line.old.items ++ bytes_text bytes.now }
    ensures len { array_vec_len line.new ≤ array_vec_len line.old + (1 + byte_width * length bytes.now) }
{
    if bytes.is_empty() {
        add_text(line, b"-");
    } else {
        add_pairs(line, bytes);
    }
}
