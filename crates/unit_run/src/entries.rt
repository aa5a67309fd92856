//! The entries of the page, as the words of a unit come to them.
ghost use Rattle.std.specs.Prelude.{◌≡◌, ◌≢◌, ◌<◌, ◌≤◌, ◌+◌, ◌++◌, [], ℕ, Some, length};
ghost use Rattle.avr_machine.specs.Processor.{raised};
ghost use Rattle.mote_layout.specs.Limits.{turn_lines};
ghost use Rattle.mote_layout.specs.Memory.{domain_count};
ghost use Rattle.mote_layout.specs.Page.{StandsAt, kernel_call_count};
ghost use Rattle.domain_model.specs.State.{at_counter};
ghost use Rattle.domain_model.specs.Frames.{indirect_slot};
ghost use Rattle.domain_model.specs.Services.{service_of};
ghost use Rattle.domain_model.specs.Calls.{serve};
ghost use Rattle.kernel_call.specs.Calling.{returning};
ghost use Rattle.word_run.specs.FlashValue.{unit_at};
ghost use Rattle.word_run.specs.Entries.{call_served, called_row, come_back, entry_row, indirect_called, local_from, slot_called};
ghost use Rattle.word_run.specs.CanRun.{CanCall, CanCallSlot, CanEnter, IsOnStack, LeadsBack};
ghost use Rattle.unit_run.specs.Ways.{GuardsAccess, GuardsLoad, way_of};

use crate::arrived::Arrived;
use crate::flash::FlashRunner;
use crate::guards::{
    displaced, fallen, guard_group, guard_load, guard_pop, guard_push, guard_store, make_room,
    refuse,
};
use crate::stack::return_from;
use domain_model::{Lines, Rule, Running, Served, UnitEnd};
use kernel_call::{Kernel, Returned, SlotEnd};
use mote_layout::{Entry, POINTER_X, POINTER_Y, POINTER_Z, entry_of};

impl FlashRunner {
    /// Does the row of the entry at an address of the page.
    pub(crate) fn enter(
        &self,
        entry: &Entry,
        at: u16,
        run: &Running,
        k: &mut Kernel,
        lines: &mut Lines,
    ) -> Arrived
        requires stands { StandsAt entry.now at }
        requires can { CanEnter entry.now self.now run.now k.old (at_counter k.old.processor at) }
        requires running { k.old.running ≡ Some run.now }
        requires domain { run.now.domain < domain_count }
        requires room { length lines.old < turn_lines }
        ensures way { way_of result ≡ (entry_row entry.now self.now run.now k.old (at_counter k.old.processor at)).way }
        ensures kernel { k.new ≡ (entry_row entry.now self.now run.now k.old (at_counter k.old.processor at)).kernel }
        ensures lines { lines.new ≡ lines.old
            ++ (entry_row entry.now self.now run.now k.old (at_counter k.old.processor at)).lines }
        ensures few { length lines.new ≤ length lines.old + 1 }
    {
        match entry {
            Entry::Return => self.come_back(run, k),
            _ => {
                let back = return_from(k, at);
                self.enter_called(entry, run, k, back, lines)
            }
        }
    }

    /// Does the row of an entry that was called, with SP as it was before the call, which goes on at `back`.
    fn enter_called(
        &self,
        entry: &Entry,
        run: &Running,
        k: &mut Kernel,
        back: u16,
        lines: &mut Lines,
    ) -> Arrived
        requires stands { (address : ℕ) × StandsAt entry.now address }
        requires called { entry.now ≢ Entry.Return }
        requires stack { IsOnStack run.now k.old.processor }
        requires can { CanCall entry.now self.now run.now k.old }
        requires running { k.old.running ≡ Some run.now }
        requires domain { run.now.domain < domain_count }
        requires room { length lines.old < turn_lines }
        ensures way { way_of result ≡ (called_row entry.now self.now run.now k.old back).way }
        ensures kernel { k.new ≡ (called_row entry.now self.now run.now k.old back).kernel }
        ensures lines { lines.new ≡ lines.old ++ (called_row entry.now self.now run.now k.old back).lines }
        ensures few { length lines.new ≤ length lines.old + 1 }
    {
        match entry {
            Entry::PushGuard => guard_push(k, back),
            Entry::PopGuard => guard_pop(run, k, back),
            Entry::SpGuard => guard_group(run, k, back),
            Entry::Reserve => make_room(k, back),
            Entry::LocalCall => self.call_local(run, k, back),
            Entry::SlotIndirect => self.call_indirect(run, k, back, lines),
            Entry::Kernel(number) => call_kernel(*number, run, k, back, lines),
            Entry::Slot(slot) => self.call_slot(*slot, run, k, back, lines),
            Entry::Return => unreachable!(),
            _ => self.guard_access(entry, run, k, back),
        }
    }

    /// Does the row of the guard of a store or a load.
    fn guard_access(&self, entry: &Entry, run: &Running, k: &Kernel, back: u16) -> Arrived
        requires access { GuardsAccess entry.now }
        requires running { k.now.running ≡ Some run.now }
        ensures way { way_of result ≡ (called_row entry.now self.now run.now k.now back).way }
        ensures kernel { (called_row entry.now self.now run.now k.now back).kernel ≡ k.now }
        ensures lines { (called_row entry.now self.now run.now k.now back).lines ≡ [] }
    {
        let cpu = k.cpu();
        let address = match entry {
            Entry::StoreX => displaced(cpu, POINTER_X, 0),
            Entry::StoreXInc => cpu.pair(POINTER_X),
            Entry::StoreXDec => fallen(cpu, POINTER_X),
            Entry::StoreY(q) => displaced(cpu, POINTER_Y, *q),
            Entry::StoreYInc => cpu.pair(POINTER_Y),
            Entry::StoreYDec => fallen(cpu, POINTER_Y),
            Entry::StoreZ(q) => displaced(cpu, POINTER_Z, *q),
            Entry::StoreZInc => cpu.pair(POINTER_Z),
            Entry::StoreZDec => fallen(cpu, POINTER_Z),
            Entry::StoreSts => self.flash.word(back.wrapping_add(1)),
            _ => return self.guard_of_load(entry, run, k, back),
        };
        guard_store(address, run, k, back)
    }

    /// Does the row of the guard of a load.
    fn guard_of_load(&self, entry: &Entry, run: &Running, k: &Kernel, back: u16) -> Arrived
        requires load { GuardsLoad entry.now }
        requires running { k.now.running ≡ Some run.now }
        ensures way { way_of result ≡ (called_row entry.now self.now run.now k.now back).way }
        ensures kernel { (called_row entry.now self.now run.now k.now back).kernel ≡ k.now }
        ensures lines { (called_row entry.now self.now run.now k.now back).lines ≡ [] }
    {
        let cpu = k.cpu();
        let address = match entry {
            Entry::LoadX => displaced(cpu, POINTER_X, 0),
            Entry::LoadXInc => cpu.pair(POINTER_X),
            Entry::LoadXDec => fallen(cpu, POINTER_X),
            Entry::LoadY(q) => displaced(cpu, POINTER_Y, *q),
            Entry::LoadYInc => cpu.pair(POINTER_Y),
            Entry::LoadYDec => fallen(cpu, POINTER_Y),
            Entry::LoadZ(q) => displaced(cpu, POINTER_Z, *q),
            Entry::LoadZInc => cpu.pair(POINTER_Z),
            Entry::LoadZDec => fallen(cpu, POINTER_Z),
            Entry::LoadLds => self.flash.word(back.wrapping_add(1)),
            _ => unreachable!(),
        };
        guard_load(address, run, k, back)
    }

    /// A call within the domain. It will come back behind the jump that follows.
    fn call_local(&self, run: &Running, k: &mut Kernel, back: u16) -> Arrived
        requires stack { IsOnStack run.now k.old.processor }
        requires running { k.old.running ≡ Some run.now }
        requires domain { run.now.domain < domain_count }
        ensures way { way_of result
            ≡ (local_from (unit_at self.now run.now.domain (raised back)) run.now k.old back).way }
        ensures kernel { k.new
            ≡ (local_from (unit_at self.now run.now.domain (raised back)) run.now k.old back).kernel }
        ensures lines { (local_from (unit_at self.now run.now.domain (raised back)) run.now k.old back).lines ≡ [] }
    {
        let Some(unit) = self.unit_at(run.domain, back.wrapping_add(1)) else {
            return Arrived::Stopped(UnitEnd::Over);
        };
        match k.local_call(unit) {
            None => Arrived::Going(back),
            Some(note) => Arrived::Stopped(UnitEnd::Fault(note)),
        }
    }

    /// A call of a slot. It will come back behind the call.
    fn call_slot(
        &self,
        slot: u8,
        run: &Running,
        k: &mut Kernel,
        back: u16,
        lines: &mut Lines,
    ) -> Arrived
        requires stack { IsOnStack run.now k.old.processor }
        requires can { CanCallSlot slot self.now run.now k.old }
        requires running { k.old.running ≡ Some run.now }
        requires domain { run.now.domain < domain_count }
        requires room { length lines.old < turn_lines }
        ensures way { way_of result ≡ (slot_called slot self.now run.now k.old back).way }
        ensures kernel { k.new ≡ (slot_called slot self.now run.now k.old back).kernel }
        ensures lines { lines.new ≡ lines.old ++ (slot_called slot self.now run.now k.old back).lines }
        ensures few { length lines.new ≤ length lines.old + 1 }
    {
        let Some(unit) = self.unit_at(run.domain, back) else {
            return Arrived::Stopped(UnitEnd::Over);
        };
        match k.slot_call(slot, unit, lines) {
            SlotEnd::Entered(domain, unit) => Arrived::Going(self.entry_point(domain, unit)),
            SlotEnd::Unbound => Arrived::Going(back),
            SlotEnd::Fault(note) => Arrived::Stopped(UnitEnd::Fault(note)),
        }
    }

    /// A call of the slot that Z names.
    fn call_indirect(&self, run: &Running, k: &mut Kernel, back: u16, lines: &mut Lines) -> Arrived
        requires stack { IsOnStack run.now k.old.processor }
        requires can { CanCall Entry.SlotIndirect self.now run.now k.old }
        requires running { k.old.running ≡ Some run.now }
        requires domain { run.now.domain < domain_count }
        requires room { length lines.old < turn_lines }
        ensures way { way_of result
            ≡ (indirect_called (indirect_slot k.old.processor) self.now run.now k.old back).way }
        ensures kernel { k.new ≡ (indirect_called (indirect_slot k.old.processor) self.now run.now k.old back).kernel }
        ensures lines { lines.new ≡ lines.old
            ++ (indirect_called (indirect_slot k.old.processor) self.now run.now k.old back).lines }
        ensures few { length lines.new ≤ length lines.old + 1 }
    {
        let address = k.cpu().pair(POINTER_Z);
        match entry_of(address) {
            Some(Entry::Slot(slot)) => self.call_slot(slot, run, k, back, lines),
            _ => refuse(Rule::Target, address),
        }
    }

    /// The return from a call, or the end of the handler.
    fn come_back(&self, run: &Running, k: &mut Kernel) -> Arrived
        requires stack { IsOnStack run.now k.old.processor }
        requires leads { LeadsBack self.now (returning k.old run.now).answer }
        requires running { k.old.running ≡ Some run.now }
        ensures way { way_of result ≡ (come_back (returning k.old run.now) self.now).way }
        ensures kernel { k.new ≡ (come_back (returning k.old run.now) self.now).kernel }
    {
        match k.come_back() {
            Returned::To(domain, unit) => Arrived::Going(self.entry_point(domain, unit)),
            Returned::Over => Arrived::Stopped(UnitEnd::Over),
            Returned::Fault(note) => Arrived::Stopped(UnitEnd::Fault(note)),
        }
    }
}

/// A kernel call.
fn call_kernel(number: u8, run: &Running, k: &mut Kernel, back: u16, lines: &mut Lines) -> Arrived
    requires number { number < kernel_call_count }
    requires running { k.old.running ≡ Some run.now }
    requires room { length lines.old < turn_lines }
    ensures way { way_of result ≡ (call_served (serve (service_of number) run.now k.old) back).way }
    ensures kernel { k.new ≡ (call_served (serve (service_of number) run.now k.old) back).kernel }
    ensures lines { lines.new ≡ lines.old ++ (call_served (serve (service_of number) run.now k.old) back).lines }
    ensures few { length lines.new ≤ length lines.old + 1 }
{
    match k.serve(number, lines) {
        Served::Back => Arrived::Going(back),
        Served::Fault(note) => Arrived::Stopped(UnitEnd::Fault(note)),
    }
}
