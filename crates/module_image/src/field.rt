//! The kinds of field. Each call reads the field at the front of the bytes, which stands at that place of the file, and gives
//! its value and the bytes after it.
ghost use Rattle.std.specs.Prelude.{◌≡◌, ◌<◌, ◌≤◌, ◌^◌, length, IfOk};
ghost use Rattle.module_image.specs.Reading.{Gives, byte_at, number_at, limited_at, bytes_at, prototype_at};

use crate::ImageError;
use byteorder::{ByteOrder, LittleEndian};

/// The least and the greatest value of a prototype's byte: the printable characters without the space.
const PRINTABLE: (u16, u8) = (0x21, 0x7E);

/// A byte from `least` to `most`.
pub fn byte(at: u32, least: u16, most: u8, bytes: &[u8]) -> Result<(u8, &[u8]), ImageError>
    ensures exact { Gives (λ x. (x.0, x.1.now)) result (byte_at at least most bytes.now) }
    ensures range { IfOk result (λ x. (least ≤ x.0) × (x.0 ≤ most)) }
{
    match bytes {
        [] => Err(ImageError::Short(at)),
        [byte, rest @ ..] if u16::from(*byte) >= least && *byte <= most => Ok((*byte, rest)),
        [_, ..] => Err(ImageError::Field(at)),
    }
}

/// Any number of two bytes.
pub fn number(at: u32, bytes: &[u8]) -> Result<(u16, &[u8]), ImageError>
    requires { at < 2 ^ 31 }
    ensures { Gives (λ x. (x.0, x.1.now)) result (number_at at bytes.now) }
{
    if bytes.len() < 2 {
        return Err(ImageError::Short(at + bytes.len() as u32));
    }
    let (front, rest) = bytes.split_at(2);
    Ok((LittleEndian::read_u16(front), rest))
}

/// A number of two bytes that is at most `most`.
pub fn limited(at: u32, most: u16, bytes: &[u8]) -> Result<(u16, &[u8]), ImageError>
    requires { at < 2 ^ 31 }
    ensures exact { Gives (λ x. (x.0, x.1.now)) result (limited_at at most bytes.now) }
    ensures range { IfOk result (λ x. x.0 ≤ most) }
{
    if bytes.len() < 2 {
        return Err(ImageError::Short(at + bytes.len() as u32));
    }
    let (front, rest) = bytes.split_at(2);
    let number = LittleEndian::read_u16(front);
    if number > most {
        return Err(ImageError::Field(at));
    }
    Ok((number, rest))
}

/// So many bytes.
pub fn part(count: u32, at: u32, bytes: &[u8]) -> Result<(&[u8], &[u8]), ImageError>
    requires count { count < 2 ^ 30 }
    requires at { at < 2 ^ 31 }
    ensures exact { Gives (λ x. (x.0.now, x.1.now)) result (bytes_at count at bytes.now) }
    ensures len { IfOk result (λ x. length x.0.now ≡ count) }
{
    let count = count as usize;
    if bytes.len() < count {
        return Err(ImageError::Short(at + bytes.len() as u32));
    }
    Ok(bytes.split_at(count))
}

/// The four characters of a prototype, each a field of its own.
#[tactic(auto, unfolding(crate::specs::Reading::prototype_at))]
pub fn prototype(at: u32, bytes: &[u8]) -> Result<([u8; 4], &[u8]), ImageError>
    requires { at < 2 ^ 31 }
    ensures { Gives (λ x. (x.0, x.1.now)) result (prototype_at at bytes.now) }
{
    let (least, most) = PRINTABLE;
    let (a, rest) = byte(at, least, most, bytes)?;
    let (b, rest) = byte(at + 1, least, most, rest)?;
    let (c, rest) = byte(at + 2, least, most, rest)?;
    let (d, rest) = byte(at + 3, least, most, rest)?;
    Ok(([a, b, c, d], rest))
}
