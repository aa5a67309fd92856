//! A runner that runs units as the plain runner does, and then writes over every byte that the unit leaves open: the
//! dead bytes of the stack, and at an entry of the kernel the kernel's own. Rows that run with it give the same traces.
ghost use Rattle.std.specs.Prelude.{◌≡◌, ◌+◌, ◌-◌, ◌≤◌};
ghost use Rattle.mote_layout.specs.Memory.{floor, ram_end, ram_start};
ghost use Rattle.domain_model.specs.State.{KernelState};
ghost use Rattle.domain_model.specs.Free.{calls_kernel, dead_top, ends_handler, with_memory};
ghost use Rattle.mote_tests.specs.Scribble.{dead_inked, inked};

use domain_model::{Lines, UnitEnd};
use kernel_call::{Kernel, Runner};
use mote_layout::{KERNEL_BYTES_END, KERNEL_BYTES_START, RED_ZONE_START};
use std::marker::Model;
use unit_code::{BankCode, Unit};
use unit_run::PlainRunner;

/// What it writes into a byte.
const INK: u8 = 0xAA;

#[derive(Drop)]
pub struct ScribbleRunner {
    inner: PlainRunner,
}

impl Model for ScribbleRunner {
    ghost use Rattle.domain_model.specs.State.{RunnerState};

    ghost Value = { RunnerState };

    ghost view = { λ r. r.inner };
}

impl ScribbleRunner {
    pub fn new(inner: PlainRunner) -> ScribbleRunner
        ensures { result ≡ inner }
    {
        ScribbleRunner { inner }
    }
}

impl Runner for ScribbleRunner {
    ghost use Rattle.std.specs.Prelude.{refl};
    ghost use Rattle.domain_model.specs.Turn.{emptied, entered};
    ghost use Rattle.unit_run.specs.PlainUnits.{plain_placed};
    ghost use Rattle.mote_tests.specs.Scribble.{scribble_acts};
    ghost use Rattle.mote_tests.specs.ScribbleLaw.{scribble_law};

    ghost part = { λ r. r };

    ghost acts = { scribble_acts };

    ghost placed_by = { plain_placed };

    ghost cleared_by = { emptied };

    ghost entered_by = { λ r domain unit. entered r unit };

    ghost holds = { λ r. Unit {0} };

    ghost placed_law = { λ r domain code. refl };

    ghost cleared_law = { λ r domain. refl };

    ghost entered_law = { λ r domain unit. refl };

    ghost law = { λ k r held good inside. scribble_law k r good inside };

    fn known(&self) {}

    fn place(&mut self, domain: u8, code: &BankCode) {
        self.inner.place(domain, code);
    }

    fn clear(&mut self, domain: u8) {
        self.inner.clear(domain);
    }

    fn enter(&mut self, domain: u8, unit: u16) {
        self.inner.enter(domain, unit);
    }

    fn here(&self) -> u16 {
        self.inner.here()
    }

    fn run_unit(&mut self, k: &mut Kernel, lines: &mut Lines) -> UnitEnd {
        let Some(run) = k.handler() else {
            unreachable!()
        };
        let calls = calls_kernel(&self.inner.next_unit(&run));
        let before = stack_pointer(k);
        let ending = self.inner.run_unit(k, lines);
        let top = dead_top(&ending, before, k);
        scribble_dead(k, top);
        if calls || ends_handler(&ending) {
            scribble(
                k,
                KERNEL_BYTES_START,
                KERNEL_BYTES_END + 1 - KERNEL_BYTES_START,
            );
        }
        ending
    }
}

/// Whether the unit calls the kernel.
fn calls_kernel(unit: &Option<Unit>) -> bool
    ensures { result ≡ calls_kernel unit.now }
{
    match unit {
        None => true,
        Some(Unit::KernelCall(_) | Unit::SlotCall(_) | Unit::SlotIndirect) => true,
        Some(_) => false,
    }
}

fn ends_handler(ending: &UnitEnd) -> bool
    ensures { result ≡ ends_handler ending.now }
{
    match ending {
        UnitEnd::On => false,
        UnitEnd::Over | UnitEnd::Fault(_) => true,
    }
}

fn stack_pointer(k: &Kernel) -> u16
    ensures { result ≡ k.now.processor.sp }
{
    k.cpu().sp
}

/// The last of the dead bytes behind a unit that found the stack at `before`.
fn dead_top(ending: &UnitEnd, before: u16, k: &Kernel) -> u16
    ensures { (old : KernelState) → old.processor.sp ≡ before → result ≡ dead_top ending.now old k.now }
{
    match ending {
        UnitEnd::On => stack_pointer(k),
        UnitEnd::Over | UnitEnd::Fault(_) => before,
    }
}

/// Writes over the dead bytes of the stack, up to the last one.
fn scribble_dead(k: &mut Kernel, top: u16)
    requires low { floor ≤ top }
    requires high { top ≤ ram_end }
    ensures { k.new ≡ with_memory k.old (dead_inked top k.old.processor.memory) }
{
    scribble(k, RED_ZONE_START, top + 1 - RED_ZONE_START);
}

/// Writes over so many bytes from an address on.
fn scribble(k: &mut Kernel, first: u16, count: u16)
    requires start { ram_start ≤ first }
    requires end { first + count ≤ ram_end + 1 }
    ensures { k.new ≡ with_memory k.old (inked (first - ram_start) count k.old.processor.memory) }
{
    for passed in 0..count {
        k.cpu_mut().set_ram(first + passed, INK);
    }
}
