//! The bytes of a packet in a script.
ghost use Rattle.std.specs.Prelude.{◌≡◌, ◌≤◌, ◌<◌, ◌*◌, drop, length, IfSome};
ghost use Rattle.mote_layout.specs.Limits.{payload_limit};
ghost use Rattle.event_script.specs.Bytes.{bytes_of, digit_of, pairs_of};

use domain_model::PayloadBytes;
use mote_layout::PAYLOAD_BYTES;

/// A packet without bytes.
const NO_BYTES: &[u8] = b"-";

// The value of a hexadecimal digit in lower case.
fn digit_of(byte: u8) -> Option<u8>
    ensures value { result ≡ digit_of byte }
    ensures bound { IfSome result (λ digit. digit < 16) }
{
    match byte {
        b'0'..=b'9' => Some(byte - b'0'),
        b'a'..=b'f' => Some(byte - b'a' + 10),
        _ => None,
    }
}

// What stands behind the first two digits.
fn behind_pair(text: &[u8]) -> &[u8]
    requires { 2 ≤ length text.now }
    ensures { result.now ≡ drop 2 text.now }
{
    &text[2..]
}

// The byte of each pair of digits.
fn pairs_of(text: &[u8]) -> Option<PayloadBytes>
    requires { length text.now ≤ 2 * payload_limit }
    ensures { result ≡ pairs_of text.now }
{
    let mut bytes = PayloadBytes::new();
    let mut rest = text;
    while rest.len() >= 2 {
        let high = digit_of(rest[0])?;
        let low = digit_of(rest[1])?;
        bytes.push(16 * high + low);
        rest = behind_pair(rest);
    }
    if !rest.is_empty() {
        return None;
    }
    Some(bytes)
}

/// The bytes of a packet.
#[tactic(auto, using(crate::proofs::Pairs::too_long, crate::proofs::Pairs::long_enough))]
pub fn bytes_of(text: &[u8]) -> Option<PayloadBytes>
    ensures { result ≡ bytes_of text.now }
{
    if text == NO_BYTES {
        return Some(PayloadBytes::new());
    }
    if text.is_empty() {
        return None;
    }
    if text.len() > 2 * PAYLOAD_BYTES {
        return None;
    }
    pairs_of(text)
}
