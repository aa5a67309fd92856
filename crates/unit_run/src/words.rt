//! The run of a unit's words.
ghost use Rattle.std.specs.Prelude.{◌≡◌, ◌<◌, ◌≤◌, ◌+◌, ◌*◌, ◌++◌, Some, length, nat_le};
ghost use Rattle.mote_layout.specs.Limits.{turn_lines};
ghost use Rattle.mote_layout.specs.Memory.{domain_count};
ghost use Rattle.mote_layout.specs.Page.{page_start};
ghost use Rattle.domain_model.specs.State.{at_counter};
ghost use Rattle.word_run.specs.WordRun.{led_by, one_step, run_from};
ghost use Rattle.word_run.specs.CanRun.{CanBeLed, CanRun, CanStepAt};
ghost use Rattle.unit_run.specs.Ways.{way_of};

use crate::arrived::Arrived;
use crate::flash::FlashRunner;
use domain_model::{Lines, Running, UnitEnd};
use kernel_call::Kernel;
use mote_layout::{PAGE_START, entry_of};

impl FlashRunner {
    /// Runs the words of a unit from a program address on, at most `left` instructions.
    pub(crate) fn run_words(
        &mut self,
        left: u8,
        run: &Running,
        address: u16,
        k: &mut Kernel,
        lines: &mut Lines,
    ) -> UnitEnd
        requires can { CanRun left self.old run.now k.old address }
        requires room { length lines.old + 2 * left ≤ turn_lines }
        ensures kernel { k.new ≡ (run_from left self.old run.now k.old address).kernel }
        ensures runner { self.new ≡ (run_from left self.old run.now k.old address).runner }
        ensures lines { lines.new ≡ lines.old ++ (run_from left self.old run.now k.old address).lines }
        ensures ending { result ≡ (run_from left self.old run.now k.old address).ending }
    {
        if left == 0 {
            unreachable!();
        }
        self.tell(address, k, lines);
        match self.run_one(run, address, k, lines) {
            Arrived::Stopped(ending) => ending,
            Arrived::Going(address) => {
                let Some(run) = k.handler() else {
                    unreachable!()
                };
                match self.unit_at(run.domain, address) {
                    Some(unit) => self.land_on(unit),
                    None => self.run_words(left - 1, &run, address, k, lines),
                }
            }
        }
    }

    /// Runs the instruction at a program address, and the row of the entry to which it may lead.
    fn run_one(&self, run: &Running, address: u16, k: &mut Kernel, lines: &mut Lines) -> Arrived
        requires can { CanStepAt self.now run.now k.old address }
        requires room { length lines.old < turn_lines }
        ensures way { way_of result ≡ (one_step self.now run.now k.old address).way }
        ensures kernel { k.new ≡ (one_step self.now run.now k.old address).kernel }
        ensures lines { lines.new ≡ lines.old ++ (one_step self.now run.now k.old address).lines }
        ensures few { length lines.new ≤ length lines.old + 1 }
    {
        let next = self.step(address, k);
        self.arrive(next, run, k, lines)
    }

    /// In the page the row of the entry is done.
    fn arrive(&self, next: u16, run: &Running, k: &mut Kernel, lines: &mut Lines) -> Arrived
        requires can { CanBeLed self.now run.now k.old (at_counter k.old.processor next) }
        requires running { k.old.running ≡ Some run.now }
        requires domain { run.now.domain < domain_count }
        requires room { length lines.old < turn_lines }
        ensures way { way_of result ≡ (led_by self.now run.now k.old (at_counter k.old.processor next)).way }
        ensures kernel { k.new ≡ (led_by self.now run.now k.old (at_counter k.old.processor next)).kernel }
        ensures lines { lines.new ≡ lines.old
            ++ (led_by self.now run.now k.old (at_counter k.old.processor next)).lines }
        ensures few { length lines.new ≤ length lines.old + 1 }
    {
        if next < PAGE_START {
            return Arrived::Going(next);
        }
        match entry_of(next) {
            Some(entry) => self.enter(&entry, next, run, k, lines),
            None => Arrived::Stopped(UnitEnd::Over),
        }
    }
}
