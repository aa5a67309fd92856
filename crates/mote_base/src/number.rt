//! Numbers in texts.
ghost use Rattle.std.specs.Prelude.{◌≡◌, ◌≤◌, length, IfSome, IsTrue};
ghost use Rattle.std.specs.List.{list_all};
ghost use Rattle.mote_base.specs.Numbers.{is_digit, is_number, value_of, number_in, most_digits};

/// The most digits that a number has.
const MOST_DIGITS: usize = 10;

// Whether every byte is a decimal digit.
fn are_digits(text: &[u8]) -> bool
    ensures { result ≡ list_all is_digit text.now }
{
    text.iter().all(|byte| byte.is_ascii_digit())
}

// Whether the text is a decimal number without leading zeros.
fn is_number(text: &[u8]) -> bool
    ensures { result ≡ is_number text.now }
{
    !text.is_empty()
        && text.len() <= MOST_DIGITS
        && are_digits(text)
        && (text.len() == 1 || text[0] != b'0')
}

// The value of a number.
fn value_of(text: &[u8]) -> u64
    requires few { length text.now ≤ most_digits }
    requires digits { IsTrue (list_all is_digit text.now) }
    ensures { result ≡ value_of text.now }
{
    let mut value = 0;
    for digit in text {
        value = 10 * value + u64::from(*digit - b'0');
    }
    value
}

/// The number, if it is one and lies in the range.
pub fn number_in(text: &[u8], least: u64, most: u64) -> Option<u64>
    ensures value { result ≡ number_in least most text.now }
    ensures bound { IfSome result (λ value. value ≤ most) }
{
    if !is_number(text) {
        return None;
    }
    let value = value_of(text);
    (least..=most).contains(&value).then_some(value)
}
