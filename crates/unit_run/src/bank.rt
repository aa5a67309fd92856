//! The units of one domain's module.
ghost use Rattle.std.specs.Prelude.{◌≡◌, ◌≤◌, [], length, IfOk, slice_get};
ghost use Rattle.mote_layout.specs.Memory.{bank_words};

use mote_base::NoMemory;
use mote_layout::BANK_WORDS;
use std::alloc::Global;
use std::marker::Model;
use unit_code::Unit;

/// The most units of a bank: one a word.
const BANK_UNITS: usize = BANK_WORDS as usize;

/// As many units as a bank of flash has words, at most, in memory that is taken once.
#[derive(Drop)]
pub struct Bank {
    units: Vec<Unit>,
}

impl Model for Bank {
    ghost use Rattle.std.specs.Prelude.{◌≤◌, List, vec_capacity};
    ghost use Rattle.mote_layout.specs.Memory.{bank_words};
    ghost use Rattle.unit_code.specs.declared.unit.Unit.{Unit};

    ghost Value = { List Unit };

    ghost view = { λ b. b.units.items };

    ghost invariant = { λ b. bank_words ≤ vec_capacity b.units };
}

impl Bank {
    /// No units.
    pub fn new(alloc: Global) -> Result<Bank, NoMemory>
        ensures { IfOk result (λ b. b ≡ []) }
    {
        let units = Vec::with_capacity(alloc, BANK_UNITS)?;
        Ok(Bank { units })
    }

    /// The unit with that number.
    pub fn get(&self, number: u16) -> Option<Unit>
        ensures { result ≡ slice_get self.now number }
    {
        self.units.get(usize::from(number)).copied()
    }

    /// Puts units in place of those that stand here.
    pub fn fill(&mut self, units: &[Unit])
        requires { length units.now ≤ bank_words }
        ensures { self.new ≡ units.now }
    {
        self.units.clear();
        let _filled = self.units.extend_from_slice(units);
    }
}
