//! The plain runner as a runner of units.
ghost use Rattle.std.specs.Prelude.{◌≡◌};

use crate::plain::PlainRunner;
use domain_model::{Lines, UnitEnd};
use kernel_call::{Kernel, Runner};
use unit_code::BankCode;

impl Runner for PlainRunner {
    ghost use Rattle.std.specs.Prelude.{refl};
    ghost use Rattle.domain_model.specs.Turn.{emptied, entered};
    ghost use Rattle.unit_run.specs.PlainLaw.{plain_law};
    ghost use Rattle.unit_run.specs.PlainUnits.{plain_acts, plain_placed};

    ghost part = { λ r. r };

    ghost acts = { plain_acts };

    ghost placed_by = { plain_placed };

    ghost cleared_by = { emptied };

    ghost entered_by = { λ r domain unit. entered r unit };

    ghost holds = { λ r. Unit {0} };

    ghost placed_law = { λ r domain code. refl };

    ghost cleared_law = { λ r domain. refl };

    ghost entered_law = { λ r domain unit. refl };

    ghost law = { λ k r held good inside. plain_law k r good };

    fn known(&self) {}

    fn place(&mut self, domain: u8, code: &BankCode) {
        self.fill(domain, &code.units);
    }

    fn clear(&mut self, domain: u8) {
        self.fill(domain, &[]);
    }

    fn enter(&mut self, _domain: u8, unit: u16) {
        self.go_to(unit);
    }

    fn here(&self) -> u16 {
        self.unit()
    }

    fn run_unit(&mut self, k: &mut Kernel, lines: &mut Lines) -> UnitEnd {
        let Some(run) = k.handler() else {
            unreachable!()
        };
        let Some(unit) = self.next_unit(&run) else {
            unreachable!()
        };
        self.run_one(&unit, &run, k, lines)
    }
}
