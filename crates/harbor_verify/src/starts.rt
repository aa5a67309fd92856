//! Where templates start.

ghost use Rattle.std.specs.Prelude.{◌≡◌, ◌<◌, ◌∷◌, ◌++◌, [], IfOk, length, slice_index};

use mote_base::NoMemory;
use std::alloc::Global;
use std::marker::Model;

/// As many templates as there can be: code has at most this many words, and a template has one at least.
const CAPACITY: usize = 65535;

/// The first words of templates, in rising order. Its memory is taken once, so that [`crate::verify`] needs none.
#[derive(Drop)]
pub struct Starts {
    words: Vec<u16>,
}

impl Model for Starts {
    ghost use Rattle.std.specs.Prelude.{List, ℕ, ◌≤◌};
    ghost use Rattle.std.specs.Vec.{vec_capacity};

    ghost Value = { List ℕ };

    ghost view = { λ starts. starts.words.items };

    ghost invariant = { λ starts. 65535 ≤ vec_capacity starts.words };
}

impl Starts {
    /// No starts yet.
    pub fn new(alloc: Global) -> Result<Starts, NoMemory>
        ensures empty { IfOk result (λ starts. starts ≡ []) }
    {
        Ok(Starts {
            words: Vec::with_capacity(alloc, CAPACITY)?,
        })
    }

    /// The starts in rising order.
    pub fn as_slice(&self) -> &[u16]
        ensures { result.now ≡ self.now }
    {
        &self.words
    }

    pub(crate) fn clear(&mut self)
        ensures { self.new ≡ [] }
    {
        self.words.clear();
    }

    pub(crate) fn push(&mut self, word: u16)
        requires room { length self.old < 65535 }
        ensures { self.new ≡ self.old ++ word ∷ [] }
    {
        self.words.push(word).unwrap();
    }
}
