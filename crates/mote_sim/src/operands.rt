//! The operands of a command.
ghost use Rattle.std.specs.Prelude.{◌≡◌, ◌<◌, ◌≤◌, [], ◌∷◌, ◌++◌, length, nat_lt, slice_index_or};
ghost use Rattle.mote_layout.specs.Limits.{images_limit};

use mote_base::Word;
use mote_layout::IMAGES;
use std::marker::Model;

/// The most operands that a command has: a script and its images.
const OPERANDS: usize = 1 + IMAGES;

/// Words of a command line, in their order. They are seen as their texts.
#[derive(Drop)]
pub struct Operands<'a> {
    words: [&'a Word; OPERANDS],
    count: usize,
}

impl<'a> Model for Operands<'a> {
    ghost use Rattle.std.specs.Prelude.{◌≡◌, ◌≤◌, ◌+◌, ℕ, List, length, map, take};
    ghost use Rattle.mote_layout.specs.Limits.{images_limit};

    ghost Value = { List (List ℕ) };

    ghost view = { λ o. take o.count (map (λ w. w.now) o.words) };

    ghost invariant = { λ o. (o.count ≤ 1 + images_limit) × (length o.words ≡ 1 + images_limit) };
}

impl<'a> Operands<'a> {
    /// No operands. The unused places hold the blank.
    pub fn new(blank: &'a Word) -> Operands<'a>
        ensures { result ≡ [] }
    {
        Operands {
            words: [blank; OPERANDS],
            count: 0,
        }
    }

    /// Whether there is no room for one more.
    pub fn is_full(&self) -> bool
        ensures { result ≡ nat_lt images_limit (length self.now) }
    {
        self.count > IMAGES
    }

    /// One more operand.
    pub fn push(&mut self, word: &'a Word)
        requires { length self.old ≤ images_limit }
        ensures { self.new ≡ self.old ++ word.now ∷ [] }
    {
        let count = self.count;
        let words = &mut self.words[..];
        words[count] = word;
        self.count = count + 1;
    }

    /// How many there are.
    pub fn len(&self) -> usize
        ensures { result ≡ length self.now }
    {
        self.count
    }

    /// The operand with that number, counted from 0.
    pub fn at(&self, number: usize) -> &'a Word
        requires { number < length self.now }
        ensures { result.now ≡ slice_index_or self.now number result.now }
    {
        let words = &self.words[..];
        words[number]
    }
}
