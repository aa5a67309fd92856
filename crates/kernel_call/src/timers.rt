//! The timers of the modules: started and stopped by kernel calls, and fired where they are due.
ghost use Rattle.std.specs.Prelude.{◌≡◌, ◌↔◌, ◌<◌, ◌++◌, IfSome, None, false, true, length, nat_lt, option_map, slice_get};
ghost use Rattle.mote_base.specs.Messages.{posted, queue_limit};
ghost use Rattle.mote_base.specs.Timers.{AreToCome, firing, started};
ghost use Rattle.mote_layout.specs.Limits.{turn_lines};
ghost use Rattle.domain_model.specs.Calls.{start_answer, stop_answer, timer_of, timer_start, timer_stop};
ghost use Rattle.domain_model.specs.Events.{is_due, timer_times};
ghost use Rattle.domain_model.specs.Firing.{fired, without_fired};
ghost use Rattle.domain_model.specs.Modules.{in_use, is_loaded};
ghost use Rattle.kernel_call.specs.Values.{fired_of, reminder_by, reminder_line, start_told};

use crate::frame::{answer, empty_message};
use crate::kernel::Kernel;
use domain_model::{Lines, Running, TraceLine, Why};
use mote_base::Msg;
use sos_heap::Parcel;
use sos_timer::{Fired, Started};

/// The registers of a start's and a stop's arguments: the timer's id; the lower one of its ticks; whether it repeats.
const ID: u8 = 24;

const TICKS: u8 = 22;

const AGAIN: u8 = 20;

/// The type of the messages of timers.
const REMINDER: u8 = 2;

/// What a stop answers: the timer ran, or there was none.
const STOPPED: u16 = 0;

const NONE_RAN: u16 = 1;

impl Kernel {
    /// The moment at which the first timer is due; none where no timer runs.
    pub fn next_due(&self) -> Option<u64>
        ensures { result ≡ slice_get (timer_times self.now.timers) 0 }
    {
        self.timers.next_due()
    }

    /// The first timer that is due fires, in a handler too: its message waits in the high queue, or is dropped where
    /// that has no room. Its line tells which. False where none is due.
    pub fn fire(&mut self, lines: &mut Lines) -> bool
        requires room { length lines.old < turn_lines }
        ensures kernel { self.new ≡ (fired self.old).kernel }
        ensures lines { lines.new ≡ lines.old ++ (fired self.old).lines }
        ensures due { result ≡ is_due (timer_times self.old.timers) self.old.clock }
        ensures none { (result ≡ false) ↔ AreToCome self.old.clock self.old.timers }
    {
        let Some(fired) = self.take_due() else {
            return false;
        };
        let waits = self.remind(&fired);
        lines.add(reminder_line(self.clock, waits, fired.module));
        true
    }

    /// Takes the first timer that is due, or starts it anew where it repeats.
    #[tactic(auto, using(crate::proofs::Reminders::fired_loaded, crate::proofs::Reminders::remindable_fired))]
    fn take_due(&mut self) -> Option<Fired>
        ensures fired { result ≡ option_map fired_of (firing self.old.clock self.old.timers) }
        ensures kernel { self.new ≡ without_fired self.old }
        ensures none { (result ≡ None) ↔ AreToCome self.old.clock self.old.timers }
        ensures loaded { IfSome result (λ f. is_loaded self.new.modules f.«module» ≡ true) }
    {
        let now = self.clock;
        self.timers.due(now)
    }

    /// Lets the message of a timer wait in the high queue. False where that has no room.
    fn remind(&mut self, fired: &Fired) -> bool
        requires loaded { is_loaded self.old.modules fired.now.«module» ≡ true }
        ensures room { result ≡ nat_lt (length self.old.queues.high) queue_limit }
        ensures kernel { self.new ≡ record self.old { queues = posted true (reminder_by fired.now) self.old.queues } }
    {
        self.mail.post(reminder(fired))
    }

    /// Starts a timer of the running module, in the place of its own with that id.
    pub(crate) fn timer_start(&mut self, run: &Running)
        requires used { in_use self.old.modules run.now.domain ≡ true }
        ensures { self.new ≡ timer_start self.old run.now }
    {
        let started = self.start_timer(run);
        answer(&mut self.cpu, start_told(started));
    }

    /// Starts the timer that the registers ask for, or tells why not.
    fn start_timer(&mut self, run: &Running) -> Started
        requires used { in_use self.old.modules run.now.domain ≡ true }
        ensures answer { start_told result ≡ start_answer (timer_of self.old run.now) self.old.timers }
        ensures kernel { self.new ≡ record self.old { timers = started (timer_of self.old run.now) self.old.timers } }
    {
        let id = self.modules.id_at(run.domain);
        let timer = self.cpu.register(ID);
        let ticks = self.cpu.pair(TICKS);
        let again = self.cpu.register(AGAIN) != 0;
        self.timers.start(id, timer, self.clock, ticks, again)
    }

    /// Stops a timer of the running module.
    #[tactic(auto, using(crate::proofs::Reminders::remindable_without))]
    pub(crate) fn timer_stop(&mut self, run: &Running)
        ensures { self.new ≡ timer_stop self.old run.now }
    {
        let id = self.modules.id_at(run.domain);
        let timer = self.cpu.register(ID);
        let ran = self.timers.stop(id, timer);
        answer(&mut self.cpu, stop_answer(ran));
    }
}

/// What a start answers.
fn start_told(outcome: Started) -> u16
    ensures { result ≡ start_told outcome }
{
    match outcome {
        Started::Set => 0,
        Started::Full => 1,
        Started::Zero => 2,
    }
}

/// What a stop answers.
fn stop_answer(ran: bool) -> u16
    ensures { result ≡ stop_answer ran }
{
    if ran { STOPPED } else { NONE_RAN }
}

/// The message of a timer.
fn reminder(fired: &Fired) -> Msg<Parcel>
    ensures { result ≡ reminder_by fired.now }
{
    Msg {
        byte: fired.id,
        high: true,
        ..empty_message(fired.module, REMINDER)
    }
}

/// The line of a timer's message: it waits, or it was dropped.
fn reminder_line(time: u64, waits: bool, id: u8) -> TraceLine
    ensures { result ≡ reminder_line time waits id }
{
    if waits {
        TraceLine::Queued {
            time,
            id,
            sort: REMINDER,
        }
    } else {
        TraceLine::Dropped {
            time,
            why: Why::Queue,
            id,
            sort: REMINDER,
        }
    }
}
