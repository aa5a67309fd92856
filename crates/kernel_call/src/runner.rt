//! What runs the units of the loaded modules.
ghost use Rattle.std.specs.Prelude.{◌≡◌, ◌<◌, ◌≤◌, ◌+◌, ◌++◌, ℕ, length, IsSome};
ghost use Rattle.mote_layout.specs.Limits.{turn_lines};
ghost use Rattle.mote_layout.specs.Memory.{domain_count};
ghost use Rattle.domain_model.specs.State.{KernelState, RunnerState};
ghost use Rattle.domain_model.specs.Act.{bank};
ghost use Rattle.domain_model.specs.Free.{UnitStep};
ghost use Rattle.domain_model.specs.Good.{GoodMachine};
ghost use Rattle.domain_model.specs.Runners.{ActedBy, IsPlaceable, unit_by, unit_lines};
ghost use Rattle.domain_model.specs.Turn.{placed, emptied, entered};

use crate::kernel::Kernel;
use domain_model::{Lines, UnitEnd};
use unit_code::BankCode;

/// Runs the units of the loaded modules, one at a time. It may keep and run them in any form, and may leave any value
/// in a free byte, as long as each of its units is one of the machine's in all else.
pub trait Runner: Drop {
    ghost use Rattle.unit_code.specs.Listing.{BankListing};

    /// What the machine sees of a runner: the units of each domain's module, and the number of the one that runs next.
    ghost part: { Self → RunnerState };

    /// What the next unit does to kernel and runner, with all the lines that it writes.
    ghost acts: { KernelState → Self → ActedBy Self };

    /// What holds of each value of the type.
    ghost holds: { Self → Type 0 };

    /// The runner with another unit next, with the code of a domain taken out, and with other code put in there.
    ghost entered_by: { Self → ℕ → ℕ → Self };

    ghost cleared_by: { Self → ℕ → Self };

    ghost placed_by: { Self → ℕ → BankListing → Self };

    /// Tells that `holds` does.
    fn known(&self)
        ensures { holds self.now };

    /// Puts the code of a module into a domain.
    fn place(&mut self, domain: u8, code: &BankCode)
        requires domain { domain < domain_count }
        requires placeable { IsPlaceable code.now }
        ensures { self.new ≡ placed_by self.old domain code.now };

    /// Takes the code of a domain out.
    fn clear(&mut self, domain: u8)
        requires { domain < domain_count }
        ensures { self.new ≡ cleared_by self.old domain };

    /// A unit of a domain is next.
    fn enter(&mut self, domain: u8, unit: u16)
        requires domain { domain < domain_count }
        requires unit { unit < length (bank (part self.old) domain) }
        ensures { self.new ≡ entered_by self.old domain unit };

    /// The number of the unit that runs next.
    fn here(&self) -> u16
        ensures { result ≡ (part self.now).unit };

    /// Runs the next unit, in a handler. The clock and the counts of units stay.
    fn run_unit(&mut self, k: &mut Kernel, lines: &mut Lines) -> UnitEnd
        requires good { GoodMachine k.old (part self.old) }
        requires inside { IsSome k.old.running }
        requires room { length lines.old + unit_lines ≤ turn_lines }
        ensures kernel { k.new ≡ (acts k.old self.old).kernel }
        ensures runner { self.new ≡ (acts k.old self.old).runner }
        ensures lines { lines.new ≡ lines.old ++ (acts k.old self.old).lines }
        ensures few { length (acts k.old self.old).lines ≤ unit_lines }
        ensures ending { result ≡ (acts k.old self.old).ending };

    ghost placed_law: { (r : Self) (domain : ℕ) (code : BankListing) →
        part (placed_by r domain code) ≡ placed (part r) domain code.units };

    ghost cleared_law: { (r : Self) (domain : ℕ) → part (cleared_by r domain) ≡ emptied (part r) domain };

    ghost entered_law: { (r : Self) (domain unit : ℕ) → part (entered_by r domain unit) ≡ entered (part r) unit };

    /// Law: without the lines of the instructions that it runs, what it does is a unit of the machine, but for the
    /// values of free bytes.
    ghost law: { (k : KernelState) (r : Self) → holds r → GoodMachine k (part r) → IsSome k.running →
        UnitStep k (part r) (unit_by part (acts k r)) };
}
