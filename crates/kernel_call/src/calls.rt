//! Calls within a domain and of a slot, and returns.
ghost use Rattle.std.specs.Prelude.{◌≡◌, ◌<◌, ◌≤◌, ◌++◌, IfSome, IsSome, None, Some, length, true};
ghost use Rattle.mote_layout.specs.Limits.{turn_lines};
ghost use Rattle.mote_layout.specs.Memory.{domain_count, floor, stack_top};
ghost use Rattle.domain_model.specs.Frames.{call_fault, called, kept_frame, resumed};
ghost use Rattle.domain_model.specs.Modules.{in_use};
ghost use Rattle.kernel_call.specs.Calling.{called_slot, called_within, entered_slot, returned_to, returning};

use crate::frame::{answer, push_zeros};
use crate::kernel::Kernel;
use domain_model::{FaultNote, Lines, Rule, Running, TraceLine};
use mote_base::{FRAMES, Frame};
use mote_layout::FLOOR;

/// What a slot that isn't bound answers.
const UNBOUND: u16 = 0xFFFF;

/// How a call of a slot went.
#[derive(Clone, Copy, Debug, PartialEq, Eq)]
pub enum SlotEnd {
    /// The domain that runs from here on, and its next unit.
    Entered(u8, u16),
    /// The slot leads nowhere. The caller goes on behind the call.
    Unbound,
    Fault(FaultNote),
}

/// Where a return leads.
#[derive(Clone, Copy, Debug, PartialEq, Eq)]
pub enum Returned {
    /// Back to this domain, and to this unit of it.
    To(u8, u16),
    /// The handler returned.
    Over,
    Fault(FaultNote),
}

impl Kernel {
    /// The running domain calls a function of its own, and goes on at `back` after it. The fault where the stack has no
    /// room for two bytes, or there is none for a frame: nothing changes then.
    pub fn local_call(&mut self, back: u16) -> Option<FaultNote>
        requires handler { IsSome self.old.running }
        requires floor { floor ≤ self.old.processor.sp }
        requires base { IfSome self.old.running (λ run. self.old.processor.sp ≤ run.base) }
        ensures fault { result ≡ call_fault self.old }
        ensures kernel { IfSome self.old.running (λ run. self.new ≡ called_within self.old run back) }
    {
        let run = self.run();
        let fault = self.call_fault();
        if fault.is_none() {
            let base = self.cpu.sp - 2;
            self.enter(kept_frame(&run, back, false), Running { base, ..run });
        }
        fault
    }

    /// The running domain calls slot `i`, and goes on at `back` after it. Where the slot is bound, the provider's
    /// function is entered, unless there is no room for the call; where not, the answer says so.
    pub fn slot_call(&mut self, i: u8, back: u16, lines: &mut Lines) -> SlotEnd
        requires handler { IsSome self.old.running }
        requires floor { floor ≤ self.old.processor.sp }
        requires base { IfSome self.old.running (λ run. self.old.processor.sp ≤ run.base) }
        requires room { length lines.old < turn_lines }
        ensures kernel { IfSome self.old.running (λ run. self.new ≡ (called_slot self.old run i back).kernel) }
        ensures lines { IfSome self.old.running
            (λ run. lines.new ≡ lines.old ++ (called_slot self.old run i back).lines) }
        ensures ending { IfSome self.old.running (λ run. result ≡ (called_slot self.old run i back).ending) }
    {
        let run = self.run();
        match self.modules.bound(run.domain, i) {
            Some((domain, place)) => self.enter_slot(&run, i, back, domain, place, lines),
            None => {
                lines.add(TraceLine::Unbound {
                    time: self.clock,
                    id: self.modules.id_at(run.domain),
                    slot: i,
                });
                answer(&mut self.cpu, UNBOUND);
                SlotEnd::Unbound
            }
        }
    }

    /// Returns from what runs: to its caller, or from the handler. The two bytes that the call pushed are popped
    /// unread.
    pub fn come_back(&mut self) -> Returned
        requires handler { IsSome self.old.running }
        requires floor { floor ≤ self.old.processor.sp }
        requires base { IfSome self.old.running (λ run. self.old.processor.sp ≤ run.base) }
        ensures kernel { IfSome self.old.running (λ run. self.new ≡ (returning self.old run).kernel) }
        ensures answer { IfSome self.old.running (λ run. result ≡ (returning self.old run).answer) }
    {
        let address = self.cpu.sp;
        if address == self.run().base {
            return self.pop();
        }
        Returned::Fault(FaultNote {
            address,
            rule: Rule::Balance,
        })
    }

    /// Takes the frame on top, and what it was kept for runs again. With no frame the handler is over.
    fn pop(&mut self) -> Returned
        requires handler { IsSome self.old.running }
        requires top { self.old.processor.sp ≤ stack_top }
        ensures kernel { self.new ≡ (returned_to self.old.frames self.old).kernel }
        ensures answer { result ≡ (returned_to self.old.frames self.old).answer }
    {
        match self.frames.pop_frame() {
            Some(frame) => {
                self.cpu.sp += 2;
                self.running = Some(resumed(&frame));
                Returned::To(frame.domain, frame.back)
            }
            None => Returned::Over,
        }
    }

    /// Enters the function at a place of a domain's provided list, from a slot.
    fn enter_slot(
        &mut self,
        run: &Running,
        slot: u8,
        back: u16,
        domain: u8,
        place: u8,
        lines: &mut Lines,
    ) -> SlotEnd
        requires running { self.old.running ≡ Some run.now }
        requires base { self.old.processor.sp ≤ run.now.base }
        requires domain { domain < domain_count }
        requires used { in_use self.old.modules domain ≡ true }
        requires room { length lines.old < turn_lines }
        ensures kernel { self.new
            ≡ (entered_slot (call_fault self.old) slot back domain place run.now self.old).kernel }
        ensures lines { lines.new ≡ lines.old
            ++ (entered_slot (call_fault self.old) slot back domain place run.now self.old).lines }
        ensures ending { result
            ≡ (entered_slot (call_fault self.old) slot back domain place run.now self.old).ending }
    {
        if let Some(note) = self.call_fault() {
            return SlotEnd::Fault(note);
        }
        lines.add(TraceLine::Call {
            time: self.clock,
            id: self.modules.id_at(run.domain),
            slot,
            to: self.modules.id_at(domain),
            func: self.modules.function(domain, place),
        });
        let unit = self.modules.entry(domain, place);
        let bound = self.cpu.sp - 2;
        let base = bound;
        self.enter(
            kept_frame(run, back, true),
            Running {
                domain,
                base,
                bound,
            },
        );
        SlotEnd::Entered(domain, unit)
    }

    /// What stands against a call: no room for two bytes on the stack, or else none for a frame.
    fn call_fault(&self) -> Option<FaultNote>
        ensures { result ≡ call_fault self.now }
    {
        let address = self.cpu.sp;
        if address < FLOOR + 2 {
            return Some(FaultNote {
                rule: Rule::StackOver,
                address,
            });
        }
        if self.frames.depth() >= FRAMES {
            return Some(FaultNote {
                rule: Rule::Depth,
                address,
            });
        }
        None
    }

    /// Keeps a frame and pushes two bytes, and something else runs.
    fn enter(&mut self, frame: Frame, next: Running)
        requires handler { IsSome self.old.running }
        requires free { call_fault self.old ≡ None }
        requires top { self.old.processor.sp ≤ stack_top }
        requires frame { (frame.domain < domain_count) × (frame.base ≤ stack_top) }
        requires caller { in_use self.old.modules frame.domain ≡ true }
        requires next { (next.domain < domain_count) × (next.base ≤ stack_top) }
        requires used { in_use self.old.modules next.domain ≡ true }
        ensures { self.new ≡ called frame next self.old }
    {
        let kept = self.frames.push_frame(frame);
        prove!(kept.is_ok());
        push_zeros(&mut self.cpu);
        self.running = Some(next);
    }
}

/// What is kept of a caller that goes on at a unit.
fn kept_frame(run: &Running, back: u16, cross: bool) -> Frame
    ensures { result ≡ kept_frame run.now back cross }
{
    let Running {
        domain,
        base,
        bound,
    } = *run;
    Frame {
        domain,
        back,
        base,
        bound,
        cross,
    }
}

/// What runs again, once its frame is taken.
fn resumed(frame: &Frame) -> Running
    ensures { result ≡ resumed frame.now }
{
    Running {
        domain: frame.domain,
        base: frame.base,
        bound: frame.bound,
    }
}
