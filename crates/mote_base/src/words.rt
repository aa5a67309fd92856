//! Code as words.
ghost use Rattle.std.specs.Prelude.{◌≡◌, ◌<◌, ◌%◌, length, IsNone, ◌↔◌, IfSome, slice_index};
ghost use Rattle.mote_base.specs.Words.{words_of, AreWords};

use std::marker::Model;

/// Bytes seen as words of 16 bits, low byte first. It is seen as the list of the words.
#[derive(Drop)]
pub struct Words<'a> {
    bytes: &'a [u8],
}

impl<'a> Model for Words<'a> {
    ghost use Rattle.std.specs.Prelude.{◌≡◌, ℕ, ◌%◌, List, length};
    ghost use Rattle.mote_base.specs.Words.{words_of, AreWords};

    ghost Value = { List ℕ };

    ghost view = { λ w. words_of w.bytes.now };

    ghost invariant = { λ w. (length w.bytes.now % 2 ≡ 0) × AreWords (words_of w.bytes.now) };
}

impl<'a> Words<'a> {
    pub fn new(bytes: &'a [u8]) -> Option<Words<'a>>
        ensures odd { IsNone result ↔ (length bytes.now % 2 ≡ 1) }
        ensures words { IfSome result (λ w. w ≡ words_of bytes.now) }
    {
        if bytes.len() % 2 == 1 {
            return None;
        }
        Some(Words { bytes })
    }

    pub fn len(&self) -> usize
        ensures len { result ≡ length self.now }
        ensures words { AreWords self.now }
    {
        self.bytes.len() / 2
    }

    /// The word with that index, counted from 0.
    pub fn at(&self, i: usize) -> u16
        requires { i < length self.now }
        ensures word { result ≡ slice_index self.now i }
        ensures words { AreWords self.now }
    {
        let bytes = self.bytes;
        u16::from_le_bytes([bytes[2 * i], bytes[2 * i + 1]])
    }
}
