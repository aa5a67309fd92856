//! The mote and its turns.
ghost use Rattle.std.specs.Prelude.{◌≡◌, ◌≢◌, ◌<◌, ◌≤◌, ◌==◌, [], IfOk, length, map};
ghost use Rattle.std.specs.List.{AllByRecursion};
ghost use Rattle.mote_base.specs.Messages.{front};
ghost use Rattle.mote_layout.specs.Limits.{unit_limit, handler_limit};
ghost use Rattle.domain_model.specs.Free.{UnitStep};
ghost use Rattle.domain_model.specs.Good.{Good, IsGoodImage, ArePackets, AreTimes};
ghost use Rattle.domain_model.specs.Laws.{LawfulTurn};
ghost use Rattle.domain_model.specs.Events.{earlier, event_times, is_due, loader_events, packet_times, packets_in, timer_times};
ghost use Rattle.domain_model.specs.Remaining.{remaining};
ghost use Rattle.domain_model.specs.Runners.{without_ran, without_ran_lines};
ghost use Rattle.domain_model.specs.State.{begins, no_runner};
ghost use Rattle.domain_model.specs.Turn.{May, choice, choose_inside, choose_message, choose_outside, choose_running, choose_timer};
ghost use Rattle.mod_loader.specs.Banks.{prepared_of};
ghost use Rattle.mote_core.specs.Exact.{came_by, dispatched_by, faulted_by, moved_to, ran_by, starting, turned, turned_by};
ghost use Rattle.mote_core.specs.Value.{acted, made_by, state_of};

use crate::agenda::Agenda;
use crate::limits::Limits;
use crate::turns::{come, dispatch, run_one, settle, stack_pointer, stop};
use domain_model::{Choice, FaultNote, Lines, LoaderEvent, Rule, Running, TraceLine, Turned};
use event_script::Script;
use kernel_call::{Kernel, Runner};
use mod_loader::Ready;
use mote_base::NoMemory;
use std::alloc::Global;
use std::marker::Model;

/// A mote in a run, with a runner of its units. By `state_of` it is seen as a state of the machine of domains.
#[derive(Drop)]
pub struct Mote<R: Runner> {
    kernel: Kernel,
    runner: R,
    images: Vec<Ready>,
    agenda: Agenda,
    limits: Limits,
    total: u64,
    spent: u64,
    ended: Turned,
}

impl<R: Runner> Model for Mote<R> {
    ghost use Rattle.domain_model.specs.Good.{Good};
    ghost use Rattle.mote_core.specs.Value.{MoteValue, state_of};

    ghost Value = { MoteValue R };

    ghost view = { λ m. record {
      kernel = m.kernel;
      runner = m.runner;
      images = m.images.items;
      packets = m.agenda.packets;
      events = m.agenda.events;
      limits = m.limits;
      total = m.total;
      spent = m.spent;
      ended = m.ended;
    } };

    ghost invariant = { λ m. Good (state_of R.Runner.part (record {
      kernel = m.kernel;
      runner = m.runner;
      images = m.images.items;
      packets = m.agenda.packets;
      events = m.agenda.events;
      limits = m.limits;
      total = m.total;
      spent = m.spent;
      ended = m.ended;
    })) };
}

// Whether a timer of a kernel is due.
fn is_timer_due(k: &Kernel) -> bool
    ensures { result ≡ is_due (timer_times k.now.timers) k.now.clock }
{
    match k.next_due() {
        Some(due) => due <= k.clock(),
        None => false,
    }
}

// The earlier of two moments, where there are any.
fn earlier(one: Option<u64>, other: Option<u64>) -> Option<u64>
    ensures { result ≡ earlier one other }
{
    match (one, other) {
        (Some(one), Some(other)) => Some(one.min(other)),
        (Some(one), None) => Some(one),
        (None, _) => other,
    }
}

impl<R: Runner> Mote<R> {
    /// A mote at the start of a run, over a runner that holds no units yet.
    pub fn new(
        alloc: Global,
        images: Vec<Ready>,
        script: Script,
        limits: Limits,
        runner: R,
    ) -> Result<Mote<R>, NoMemory>
        requires images { AllByRecursion IsGoodImage (map prepared_of images.items) }
        requires packets { ArePackets (packets_in script.events.items) }
        requires packet_times { AreTimes (packet_times (packets_in script.events.items)) }
        requires times { AreTimes (event_times (loader_events script.events.items)) }
        requires units { limits.units ≤ unit_limit }
        requires least { 1 ≤ limits.handler }
        requires greatest { limits.handler ≤ handler_limit }
        requires runner { R.Runner.part runner ≡ no_runner }
        ensures begins { IfOk result (λ m. state_of R.Runner.part m ≡
            begins (map prepared_of images.items) (packets_in script.events.items) (loader_events script.events.items) limits.units limits.handler) }
        ensures good { IfOk result (λ m. Good (state_of R.Runner.part m)) }
        ensures value { IfOk result (λ m. m ≡ starting runner images.items script.events.items limits) }
    {
        let kernel = Kernel::new(alloc)?;
        let agenda = Agenda::new(alloc, script)?;
        Ok(Mote {
            kernel,
            runner,
            images,
            agenda,
            limits,
            total: 0,
            spent: 0,
            ended: Turned::More,
        })
    }

    /// How many units have run.
    pub fn total(&self) -> u64
        ensures { result ≡ self.now.total }
    {
        self.total
    }

    /// Makes one turn and writes its lines, with those of the instructions that the runner ran (`Ran`). After the end
    /// of the run it makes none, and tells the same end.
    pub fn turn(&mut self, lines: &mut Lines) -> Turned
        requires { lines.old ≡ [] }
        ensures state { state_of R.Runner.part self.new ≡
            (made_by R.Runner.part R.Runner.acts (choice (state_of R.Runner.part self.old)) self.old).state }
        ensures lines { lines.new ≡
            (made_by R.Runner.part R.Runner.acts (choice (state_of R.Runner.part self.old)) self.old).lines }
        // The same in the runner's own value, of which the machine sees a part.
        ensures exact { (record { value = self.new; lines = lines.new }) ≡ turned (record {
          part = R.Runner.part;
          acts = R.Runner.acts;
          placed_by = R.Runner.placed_by;
          cleared_by = R.Runner.cleared_by;
          entered_by = R.Runner.entered_by;
        }) self.old }
        ensures lawful { LawfulTurn (state_of R.Runner.part self.old) (state_of R.Runner.part self.new)
            (without_ran lines.new) }
        ensures ended { result ≡ self.new.ended }
        ensures fewer { self.old.ended ≡ Turned.More →
            remaining (state_of R.Runner.part self.new) < remaining (state_of R.Runner.part self.old) }
        ensures stays { self.old.ended ≢ Turned.More → (self.new ≡ self.old) × (lines.new ≡ []) }
    {
        let next = self.choose();
        self.take(next, lines);
        self.ended
    }

    // Which turn comes next.
    fn choose(&self) -> Choice
        ensures next { result ≡ choice (state_of R.Runner.part self.now) }
        ensures good { Good (state_of R.Runner.part self.now) }
    {
        match self.ended {
            Turned::More => {}
            Turned::EndIdle => return Choice::Stays,
            Turned::EndBudget => return Choice::Stays,
        }
        if self.agenda.is_packet_due(self.kernel.clock()) {
            return Choice::Hears;
        }
        self.choose_timer()
    }

    // Where no packet is due.
    fn choose_timer(&self) -> Choice
        ensures { result ≡ choose_timer (is_due (timer_times self.now.kernel.timers) self.now.kernel.clock)
            (state_of R.Runner.part self.now) }
    {
        if is_timer_due(&self.kernel) {
            return Choice::Fires;
        }
        self.choose_running()
    }

    // Where no packet and no timer is due.
    fn choose_running(&self) -> Choice
        ensures { result ≡ choose_running self.now.kernel.running (state_of R.Runner.part self.now) }
    {
        match self.kernel.handler() {
            Some(run) => self.choose_inside(run),
            None => self.choose_outside(),
        }
    }

    fn choose_inside(&self, run: Running) -> Choice
        ensures { result ≡ choose_inside (self.now.total == self.now.limits.units) run (state_of R.Runner.part self.now) }
    {
        if self.total == self.limits.units {
            Choice::Budgets
        } else if self.spent == self.limits.handler {
            Choice::Watches(run)
        } else {
            Choice::Acts(run)
        }
    }

    fn choose_outside(&self) -> Choice
        ensures { result ≡ choose_outside self.now.events (state_of R.Runner.part self.now) }
    {
        if let Some(event) = self.agenda.event() {
            if event.time <= self.kernel.clock() {
                return Choice::Comes(event);
            }
        }
        self.choose_message()
    }

    // Where nothing is due.
    fn choose_message(&self) -> Choice
        ensures { result ≡ choose_message (front self.now.kernel.queues) (state_of R.Runner.part self.now) }
    {
        if self.kernel.has_message() {
            return Choice::Dispatches;
        }
        match earlier(self.agenda.next_time(), self.kernel.next_due()) {
            Some(time) => Choice::Jumps(time),
            None => Choice::Idles,
        }
    }

    fn take(&mut self, next: Choice, lines: &mut Lines)
        requires empty { lines.old ≡ [] }
        requires chosen { choice (state_of R.Runner.part self.old) ≡ next }
        ensures state { state_of R.Runner.part self.new ≡ (made_by R.Runner.part R.Runner.acts next self.old).state }
        ensures lines { lines.new ≡ (made_by R.Runner.part R.Runner.acts next self.old).lines }
        ensures exact { self.new ≡ (turned_by (record {
          part = R.Runner.part;
          acts = R.Runner.acts;
          placed_by = R.Runner.placed_by;
          cleared_by = R.Runner.cleared_by;
          entered_by = R.Runner.entered_by;
        }) next self.old).value }
        ensures may { May next (state_of R.Runner.part self.old)
            (without_ran_lines (acted R.Runner.part R.Runner.acts self.old)) }
        ensures stays { next ≡ Choice.Stays → self.new ≡ self.old }
    {
        match next {
            Choice::Stays => {}
            Choice::Hears => self.hear(lines),
            Choice::Fires => self.fire(lines),
            Choice::Comes(event) => self.come(&event, lines),
            Choice::Dispatches => self.dispatch(lines),
            Choice::Jumps(now) => self.jump(now),
            Choice::Idles => self.idle(lines),
            Choice::Budgets => self.spend(lines),
            Choice::Watches(run) => self.watch(&run, lines),
            Choice::Acts(run) => self.act(&run, lines),
        }
    }

    fn hear(&mut self, lines: &mut Lines)
        requires empty { lines.old ≡ [] }
        requires chosen { choice (state_of R.Runner.part self.old) ≡ Choice.Hears }
        ensures state { state_of R.Runner.part self.new ≡
            (made_by R.Runner.part R.Runner.acts Choice.Hears self.old).state }
        ensures exact { self.new ≡ moved_to (made_by R.Runner.part R.Runner.acts Choice.Hears self.old).state
            self.old.runner self.old }
        ensures lines { lines.new ≡ (made_by R.Runner.part R.Runner.acts Choice.Hears self.old).lines }
    {
        let Some(packet) = self.agenda.packet() else {
            unreachable!()
        };
        self.kernel
            .radio(packet.to, packet.sort, packet.bytes.as_slice(), lines);
        self.agenda.pass_packet();
    }

    fn fire(&mut self, lines: &mut Lines)
        requires empty { lines.old ≡ [] }
        requires chosen { choice (state_of R.Runner.part self.old) ≡ Choice.Fires }
        ensures state { state_of R.Runner.part self.new ≡
            (made_by R.Runner.part R.Runner.acts Choice.Fires self.old).state }
        ensures exact { self.new ≡ moved_to (made_by R.Runner.part R.Runner.acts Choice.Fires self.old).state
            self.old.runner self.old }
        ensures lines { lines.new ≡ (made_by R.Runner.part R.Runner.acts Choice.Fires self.old).lines }
    {
        self.kernel.fire(lines);
    }

    fn come(&mut self, event: &LoaderEvent, lines: &mut Lines)
        requires empty { lines.old ≡ [] }
        requires chosen { choice (state_of R.Runner.part self.old) ≡ Choice.Comes event.now }
        ensures state { state_of R.Runner.part self.new ≡
            (made_by R.Runner.part R.Runner.acts (Choice.Comes event.now) self.old).state }
        ensures exact { self.new ≡ moved_to (made_by R.Runner.part R.Runner.acts (Choice.Comes event.now) self.old).state
            (came_by R.Runner.placed_by R.Runner.entered_by self.old.images event.now.what self.old.kernel self.old.runner) self.old }
        ensures lines { lines.new ≡ (made_by R.Runner.part R.Runner.acts (Choice.Comes event.now) self.old).lines }
    {
        self.agenda.pass_event();
        self.spent = 0;
        come(
            &self.images,
            event.what,
            &mut self.kernel,
            &mut self.runner,
            lines,
        );
    }

    fn dispatch(&mut self, lines: &mut Lines)
        requires empty { lines.old ≡ [] }
        requires chosen { choice (state_of R.Runner.part self.old) ≡ Choice.Dispatches }
        ensures state { state_of R.Runner.part self.new ≡
            (made_by R.Runner.part R.Runner.acts Choice.Dispatches self.old).state }
        ensures exact { self.new ≡ moved_to (made_by R.Runner.part R.Runner.acts Choice.Dispatches self.old).state
            (dispatched_by R.Runner.entered_by (front self.old.kernel.queues) self.old.kernel self.old.runner) self.old }
        ensures lines { lines.new ≡ (made_by R.Runner.part R.Runner.acts Choice.Dispatches self.old).lines }
    {
        self.spent = 0;
        dispatch(&mut self.kernel, &mut self.runner, lines);
    }

    fn jump(&mut self, now: u64)
        requires chosen { choice (state_of R.Runner.part self.old) ≡ Choice.Jumps now }
        ensures state { state_of R.Runner.part self.new ≡
            (made_by R.Runner.part R.Runner.acts (Choice.Jumps now) self.old).state }
        ensures exact { self.new ≡ moved_to (made_by R.Runner.part R.Runner.acts (Choice.Jumps now) self.old).state
            self.old.runner self.old }
    {
        self.kernel.set_clock(now);
    }

    fn idle(&mut self, lines: &mut Lines)
        requires empty { lines.old ≡ [] }
        requires chosen { choice (state_of R.Runner.part self.old) ≡ Choice.Idles }
        ensures state { state_of R.Runner.part self.new ≡
            (made_by R.Runner.part R.Runner.acts Choice.Idles self.old).state }
        ensures exact { self.new ≡ moved_to (made_by R.Runner.part R.Runner.acts Choice.Idles self.old).state
            self.old.runner self.old }
        ensures lines { lines.new ≡ (made_by R.Runner.part R.Runner.acts Choice.Idles self.old).lines }
    {
        lines.add(TraceLine::EndIdle {
            time: self.kernel.clock(),
        });
        self.ended = Turned::EndIdle;
    }

    fn spend(&mut self, lines: &mut Lines)
        requires empty { lines.old ≡ [] }
        requires chosen { choice (state_of R.Runner.part self.old) ≡ Choice.Budgets }
        ensures state { state_of R.Runner.part self.new ≡
            (made_by R.Runner.part R.Runner.acts Choice.Budgets self.old).state }
        ensures exact { self.new ≡ moved_to (made_by R.Runner.part R.Runner.acts Choice.Budgets self.old).state
            self.old.runner self.old }
        ensures lines { lines.new ≡ (made_by R.Runner.part R.Runner.acts Choice.Budgets self.old).lines }
    {
        lines.add(TraceLine::EndBudget {
            time: self.kernel.clock(),
        });
        self.ended = Turned::EndBudget;
    }

    fn watch(&mut self, run: &Running, lines: &mut Lines)
        requires empty { lines.old ≡ [] }
        requires chosen { choice (state_of R.Runner.part self.old) ≡ Choice.Watches run.now }
        ensures state { state_of R.Runner.part self.new ≡
            (made_by R.Runner.part R.Runner.acts (Choice.Watches run.now) self.old).state }
        ensures exact { self.new ≡ moved_to (made_by R.Runner.part R.Runner.acts (Choice.Watches run.now) self.old).state
            (faulted_by R.Runner.cleared_by run.now self.old.kernel self.old.runner) self.old }
        ensures lines { lines.new ≡ (made_by R.Runner.part R.Runner.acts (Choice.Watches run.now) self.old).lines }
    {
        let note = FaultNote {
            rule: Rule::Watchdog,
            address: stack_pointer(&self.kernel),
        };
        stop(note, run, &mut self.kernel, &mut self.runner, lines);
    }

    fn act(&mut self, run: &Running, lines: &mut Lines)
        requires empty { lines.old ≡ [] }
        requires chosen { choice (state_of R.Runner.part self.old) ≡ Choice.Acts run.now }
        ensures state { state_of R.Runner.part self.new ≡
            (made_by R.Runner.part R.Runner.acts (Choice.Acts run.now) self.old).state }
        ensures exact { self.new ≡ moved_to (made_by R.Runner.part R.Runner.acts (Choice.Acts run.now) self.old).state
            (ran_by R.Runner.cleared_by run.now (R.Runner.acts self.old.kernel self.old.runner)) self.old }
        ensures lines { lines.new ≡ (made_by R.Runner.part R.Runner.acts (Choice.Acts run.now) self.old).lines }
        ensures may { UnitStep self.old.kernel (R.Runner.part self.old.runner)
            (without_ran_lines (acted R.Runner.part R.Runner.acts self.old)) }
    {
        let ending = run_one(&mut self.kernel, &mut self.runner, lines);
        settle(ending, run, &mut self.kernel, &mut self.runner, lines);
        let now = self.kernel.clock();
        self.kernel.set_clock(now + 1);
        self.total += 1;
        self.spent += 1;
    }
}
