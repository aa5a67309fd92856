//! Where the templates of one domain's units start.
ghost use Rattle.std.specs.Prelude.{◌≡◌, ◌≤◌, [], length, IfOk, slice_get};
ghost use Rattle.mote_layout.specs.Memory.{bank_words};
ghost use Rattle.unit_code.specs.Targets.{AreFirstWords, number_of};

use mote_base::NoMemory;
use mote_layout::BANK_WORDS;
use std::alloc::Global;
use std::marker::Model;
use unit_code::number_of;

/// The most templates of a bank: one a word.
const BANK_TEMPLATES: usize = BANK_WORDS as usize;

/// The words of a bank at which templates start, one a unit, in memory that is taken once.
#[derive(Drop)]
pub struct Starts {
    words: Vec<u16>,
}

impl Model for Starts {
    ghost use Rattle.std.specs.Prelude.{ℕ, ◌≤◌, List, vec_capacity};
    ghost use Rattle.mote_layout.specs.Memory.{bank_words};

    ghost Value = { List ℕ };

    ghost view = { λ s. s.words.items };

    ghost invariant = { λ s. bank_words ≤ vec_capacity s.words };
}

impl Starts {
    /// No template.
    pub fn new(alloc: Global) -> Result<Starts, NoMemory>
        ensures { IfOk result (λ s. s ≡ []) }
    {
        let words = Vec::with_capacity(alloc, BANK_TEMPLATES)?;
        Ok(Starts { words })
    }

    /// The start of a unit's template.
    pub fn get(&self, unit: u16) -> Option<u16>
        ensures { result ≡ slice_get self.now unit }
    {
        self.words.get(usize::from(unit)).copied()
    }

    /// The unit whose template starts at a word.
    pub fn unit_at(&self, word: u16) -> Option<u16>
        requires { AreFirstWords self.now }
        ensures { result ≡ number_of self.now word }
    {
        let words = self.words.as_slice();
        number_of(words, usize::from(word))
    }

    /// Puts starts in place of those that stand here.
    pub fn fill(&mut self, starts: &[u16])
        requires { length starts.now ≤ bank_words }
        ensures { self.new ≡ starts.now }
    {
        self.words.clear();
        let _filled = self.words.extend_from_slice(starts);
    }
}
