//! The runner of words as a runner of units.
ghost use Rattle.std.specs.Prelude.{◌≡◌};

use crate::flash::FlashRunner;
use domain_model::{Lines, UnitEnd};
use kernel_call::{Kernel, Runner};
use unit_code::BankCode;

/// The most instructions of a bank that a unit runs.
const INSTRUCTIONS: u8 = 4;

impl Runner for FlashRunner {
    ghost use Rattle.std.specs.Prelude.{refl};
    ghost use Rattle.word_run.specs.FlashValue.{part, words_cleared, words_entered, words_placed};
    ghost use Rattle.word_run.specs.WordRun.{words_act};
    ghost use Rattle.unit_run.specs.FlashRunners.{KeepsWords};
    ghost use Rattle.unit_run.specs.FlashLaw.{flash_law};

    ghost part = { part };

    ghost acts = { words_act };

    ghost holds = { KeepsWords };

    ghost placed_by = { words_placed };

    ghost cleared_by = { words_cleared };

    ghost entered_by = { λ r domain unit. words_entered r domain unit };

    ghost placed_law = { λ r domain code. refl };

    ghost cleared_law = { λ r domain. refl };

    ghost entered_law = { λ r domain unit. refl };

    ghost law = { λ k r held good inside. flash_law k r held good inside };

    fn known(&self) {
        let _flash = &self.flash;
    }

    fn place(&mut self, domain: u8, code: &BankCode) {
        self.fill(domain, &code.units, &code.words, &code.starts);
    }

    fn clear(&mut self, domain: u8) {
        self.fill(domain, &[], &[], &[]);
    }

    fn enter(&mut self, _domain: u8, unit: u16) {
        self.land_on(unit);
    }

    fn here(&self) -> u16 {
        self.units.unit()
    }

    fn run_unit(&mut self, k: &mut Kernel, lines: &mut Lines) -> UnitEnd {
        let Some(run) = k.handler() else {
            unreachable!()
        };
        let start = self.entry_point(run.domain, self.units.unit());
        self.run_words(INSTRUCTIONS, &run, start, k, lines)
    }
}
