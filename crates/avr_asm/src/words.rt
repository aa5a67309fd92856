//! Names, numbers, prototypes and pairs of digits.
ghost use Rattle.std.specs.Prelude.{◌≡◌, ◌≤◌, ◌<◌};
ghost use Rattle.avr_asm.specs.Text.{are_digits, are_pairs, are_word, begins_well, begins_with_letter, hex_value, is_digit, is_goal, is_hex, is_letter, is_name, is_number, is_printable, is_word, most, value};

/// How many characters a name has at most.
const NAME_BYTES: usize = 16;

/// The greatest number that is told from others: no text has so many units.
pub const MOST: u64 = 1_000_000_000_000_000_000;

fn is_digit(c: u8) -> bool
    ensures { result ≡ is_digit c }
{
    48 <= c && c <= 57
}

fn is_letter(c: u8) -> bool
    ensures { result ≡ is_letter c }
{
    (65 <= c && c <= 90) || (97 <= c && c <= 122)
}

fn is_word(c: u8) -> bool
    ensures { result ≡ is_word c }
{
    is_digit(c) || (is_letter(c) || c == 95)
}

fn is_hex(c: u8) -> bool
    ensures { result ≡ is_hex c }
{
    is_digit(c) || (97 <= c && c <= 102)
}

/// Whether it is a printable character other than the space.
pub fn is_printable(c: u8) -> bool
    ensures { result ≡ is_printable c }
{
    33 <= c && c <= 126
}

fn are_digits(text: &[u8]) -> bool
    ensures { result ≡ are_digits text.now }
{
    for c in text {
        if !is_digit(*c) {
            return false;
        }
    }
    true
}

fn are_word(text: &[u8]) -> bool
    ensures { result ≡ are_word text.now }
{
    for c in text {
        if !is_word(*c) {
            return false;
        }
    }
    true
}

fn begins_with_letter(text: &[u8]) -> bool
    ensures { result ≡ begins_with_letter text.now }
{
    match text {
        [] => false,
        [c, ..] => is_letter(*c),
    }
}

fn begins_well(text: &[u8]) -> bool
    ensures { result ≡ begins_well text.now }
{
    match text {
        [] => false,
        [_] => true,
        [c, ..] => 48 < *c,
    }
}

/// Whether the text is a decimal number without leading zeros.
pub fn is_number(text: &[u8]) -> bool
    ensures { result ≡ is_number text.now }
{
    are_digits(text) && begins_well(text)
}

/// Whether the text is a name.
pub fn is_name(text: &[u8]) -> bool
    ensures { result ≡ is_name text.now }
{
    are_word(text) && (begins_with_letter(text) && text.len() <= NAME_BYTES)
}

/// Whether the text names a unit, by its number or a label.
pub fn is_goal(text: &[u8]) -> bool
    ensures { result ≡ is_goal text.now }
{
    are_word(text) && (is_number(text) || is_name(text))
}

/// The value of digits; above 10^18 it is 10^18.
pub fn value(text: &[u8]) -> u64
    ensures value { result ≡ value text.now }
    ensures bound { result ≤ most }
{
    let mut value = 0;
    for digit in text {
        value = (10 * value + u64::from(digit.saturating_sub(b'0'))).min(MOST);
    }
    value
}

/// The value of a hexadecimal digit in lower case.
pub fn hex_value(c: u8) -> u8
    ensures { result ≡ hex_value c }
{
    if 97 <= c {
        c - 87
    } else {
        c.saturating_sub(48)
    }
}

/// Whether the text is pairs of hexadecimal digits.
pub fn are_pairs(text: &[u8]) -> bool
    ensures { result ≡ are_pairs text.now }
{
    let mut rest = text;
    loop {
        match rest {
            [] => return true,
            [_] => return false,
            [high, low, behind @ ..] => {
                if !(is_hex(*high) && is_hex(*low)) {
                    return false;
                }
                rest = behind;
            }
        }
    }
}
