//! The bytes of a packet.
ghost use Rattle.std.specs.Prelude.{◌≡◌, ◌≤◌, ◌<◌, [], ◌∷◌, ◌++◌, length};
ghost use Rattle.mote_layout.specs.Limits.{payload_limit};

use arrayvec::ArrayVec;
use mote_layout::PAYLOAD_BYTES;
use std::marker::Model;

/// At most 96 bytes that come by radio or are sent.
#[derive(Drop)]
pub struct PayloadBytes {
    bytes: ArrayVec<u8, PAYLOAD_BYTES>,
}

impl Model for PayloadBytes {
    ghost use Rattle.std.specs.Prelude.{List, ℕ};

    ghost Value = { List ℕ };

    ghost view = { λ p. p.bytes.items };
}

impl PayloadBytes {
    /// No byte.
    pub fn new() -> PayloadBytes
        ensures { result ≡ [] }
    {
        PayloadBytes {
            bytes: ArrayVec::new(),
        }
    }

    /// Adds a byte at the end.
    pub fn push(&mut self, byte: u8)
        requires room { length self.old < payload_limit }
        ensures added { self.new ≡ self.old ++ byte ∷ [] }
    {
        self.bytes.push(byte);
    }

    /// The bytes, at most 96.
    pub fn as_slice(&self) -> &[u8]
        ensures bytes { result.now ≡ self.now }
        ensures limit { length self.now ≤ payload_limit }
    {
        self.bytes.as_slice()
    }
}
