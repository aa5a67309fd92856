//! What turns do to the kernel.
ghost use Rattle.std.specs.Prelude.{◌≡◌, ◌↔◌, ◌<◌, ◌≤◌, ◌++◌, ◌∷◌, [], ℕ, IfSome, IsSome, IsSomeAnd, Some, None, length, option_map, true, false};
ghost use Rattle.mote_base.specs.Messages.{front, without_front};
ghost use Rattle.mote_layout.specs.Limits.{provided_limit, turn_lines};
ghost use Rattle.mote_layout.specs.Memory.{domain_count};
ghost use Rattle.module_image.specs.Contents.{FaceRules, constants_limit};
ghost use Rattle.domain_model.specs.State.{RunnerState, dispatched, with_processor};
ghost use Rattle.domain_model.specs.Modules.{constants_at, id_at, in_use, is_loaded, module_at, module_named};
ghost use Rattle.domain_model.specs.Turn.{at_clock, begun, dispatch, final_to, handler_ended, init_to, kernel_message, purged, with_none_ending};
ghost use Rattle.kernel_call.specs.Admission.{admission, newcomer};
ghost use Rattle.kernel_call.specs.Rows.{row_of};
ghost use Rattle.kernel_call.specs.Sound.{last_moment};
ghost use Rattle.kernel_call.specs.Values.{first_running};

use crate::admitted::Admitted;
use crate::frame::{dispatch, empty_message, ready};
use crate::kernel::Kernel;
use crate::loaded::{Loaded, ModuleRow};
use arrayvec::ArrayVec;
use domain_model::{Lines, Running, TraceLine};
use module_image::Face;
use mote_base::Msg;
use mote_layout::{PROVIDED, STACK_TOP};
use sos_heap::Parcel;

/// The types of the first and of the last message of a module, and the kernel's number as their sender.
const INIT: u8 = 0;

const FINAL: u8 = 1;

const KERNEL_SENDER: u8 = 0;

impl Kernel {
    /// Takes a module in, with a cleared state block and its constants in a block of the kernel's, zeros behind them,
    /// or tells why not. Where one of the two has no place, neither is given. Its handler does not start yet.
    #[tactic(auto, using(crate::proofs::Receivers::received_more, crate::proofs::Seats::pushed_there, domain_model::proofs::ModuleLaws::in_use_new))]
    pub fn admit(
        &mut self,
        face: &Face,
        state_size: u16,
        handler: u16,
        entries: &[u16],
        constants: &[u8],
        sealed: bool,
    ) -> Admitted
        requires outside { self.old.running ≡ None }
        requires face { FaceRules face.now }
        requires entries { length entries.now ≡ length face.now.provided.items }
        requires constants { length constants.now ≤ constants_limit }
        ensures kernel { self.new ≡ (admission self.old
            (newcomer face.now state_size handler entries.now constants.now sealed)).kernel }
        ensures answer { result ≡ (admission self.old
            (newcomer face.now state_size handler entries.now constants.now sealed)).answer }
        ensures used { (d : ℕ) → result ≡ Admitted.Placed d → in_use self.new.modules d ≡ true }
        ensures there { (d : ℕ) → result ≡ Admitted.Placed d → IsSomeAnd (module_at self.new.modules d)
            (λ m. (m.face ≡ face.now) × (m.domain ≡ d) × (m.handler ≡ handler) × (m.entries ≡ entries.now)
            × (m.sealed ≡ sealed)) }
    {
        if self.modules.is_loaded(face.id) {
            return Admitted::Duplicate;
        }
        let Some(domain) = self.modules.free_domain() else {
            return Admitted::Domain;
        };
        let count = constants.len() as u16;
        let Some(place) = self.mail.place(domain, state_size, count) else {
            return Admitted::Room;
        };
        ready(&mut self.cpu, &place, state_size, constants);
        self.modules.add(Loaded {
            domain,
            face: face.copied(),
            handler,
            entries: numbers(entries),
            place,
            sealed,
        });
        Admitted::Placed(domain)
    }

    /// Takes the module in a domain out, with its blocks, its timers, and every message from or to it. The payloads of
    /// these messages are freed.
    #[tactic(auto, using(crate::proofs::Receivers::received_rest, crate::proofs::Seats::in_use_within))]
    pub fn purge(&mut self, d: u8)
        requires outside { self.old.running ≡ None }
        requires loaded { in_use self.old.modules d ≡ true }
        ensures { self.new ≡ purged self.old (id_at self.old.modules d) d }
    {
        self.modules.known();
        let id = self.modules.id_at(d);
        self.modules.remove(d);
        self.mail.clear(id, d);
        self.timers.purge(id);
    }

    /// Starts the handler of the module in a domain with its first message.
    #[tactic(auto, using(crate::proofs::Seats::constants_there))]
    pub fn begin(&mut self, d: u8, lines: &mut Lines)
        requires outside { self.old.running ≡ None }
        requires loaded { in_use self.old.modules d ≡ true }
        requires room { length lines.old < turn_lines }
        ensures kernel { IfSome (module_at self.old.modules d)
            (λ m. self.new ≡ begun self.old m.domain m.state m.constants (init_to m.face.id)) }
        ensures lines { IfSome (module_at self.old.modules d)
            (λ m. lines.new ≡ lines.old ++ TraceLine.Run self.old.clock m.face.id 0 0 ∷ []) }
    {
        let row = self.row(d);
        self.hold(&row, INIT);
        self.start(&row, lines);
    }

    /// Starts the handler of the module in a domain with its last message: it is the one that ends.
    #[tactic(auto, using(crate::proofs::Seats::constants_there))]
    pub fn finish(&mut self, d: u8, lines: &mut Lines)
        requires outside { self.old.running ≡ None }
        requires loaded { in_use self.old.modules d ≡ true }
        requires room { length lines.old < turn_lines }
        ensures kernel { IfSome (module_at self.old.modules d)
            (λ m. self.new ≡ record (begun self.old m.domain m.state m.constants (final_to m.face.id)) {
              ending = Some m.face.id;
            }) }
        ensures lines { IfSome (module_at self.old.modules d)
            (λ m. lines.new ≡ lines.old ++ TraceLine.Run self.old.clock m.face.id 1 0 ∷ []) }
    {
        let row = self.row(d);
        self.hold(&row, FINAL);
        self.start(&row, lines);
        self.ending = Some(row.id);
    }

    /// Starts the handler of the receiver of the first message that waits, and answers its domain.
    #[tactic(auto, using(crate::proofs::Seats::loaded_row))]
    pub fn next_message(&mut self, lines: &mut Lines) -> Option<u8>
        requires outside { self.old.running ≡ None }
        requires room { length lines.old < turn_lines }
        ensures none { (result ≡ None) ↔ (front self.old.queues ≡ None) }
        ensures kernel { (r : RunnerState) → self.new ≡ (dispatch (front self.old.queues) self.old r).kernel }
        ensures lines { (r : RunnerState) → lines.new
            ≡ lines.old ++ (dispatch (front self.old.queues) self.old r).lines }
        ensures receiver { IfSome result (λ d. IfSome (front self.old.queues)
            (λ m. module_at self.new.modules d ≡ module_named self.old.modules m.to)) }
    {
        let row = self.take_front()?;
        self.start(&row, lines);
        Some(row.domain)
    }

    /// The handler is over, with all calls in it. A payload that was not taken is freed. Answers the id of the module
    /// that ends.
    pub fn end_handler(&mut self) -> Option<u8>
        requires handler { IsSome self.old.running }
        ensures ending { result ≡ self.old.ending }
        ensures kernel { self.new ≡ with_none_ending (handler_ended self.old) }
    {
        let ending = self.ending;
        self.running = None;
        self.frames.drop_all();
        self.ending = None;
        self.mail.lay_down();
        ending
    }

    /// The clock goes on.
    pub fn set_clock(&mut self, now: u64)
        requires later { self.old.clock ≤ now }
        requires last { now ≤ last_moment }
        ensures { self.new ≡ at_clock self.old now }
    {
        self.clock = now;
    }

    /// The row of the module in a domain where there is one.
    #[tactic(auto, using(crate::proofs::Seats::used_row, crate::proofs::Seats::row_in_use))]
    fn row(&self, d: u8) -> ModuleRow
        requires { in_use self.now.modules d ≡ true }
        ensures row { Some result ≡ option_map row_of (module_at self.now.modules d) }
        ensures within { result.domain < domain_count }
        ensures used { in_use self.now.modules result.domain ≡ true }
    {
        match self.modules.at(d) {
            Some(row) => row,
            None => unreachable!(),
        }
    }

    /// A module runs with a message of the kernel's own in hand, from before its first unit.
    fn hold(&mut self, row: &ModuleRow, sort: u8)
        requires outside { self.old.running ≡ None }
        requires domain { row.now.domain < domain_count }
        requires used { in_use self.old.modules row.now.domain ≡ true }
        ensures { self.new ≡ record self.old {
          running = Some (first_running row.now.domain);
          hand = Some (kernel_message row.now.id sort);
        } }
    {
        self.running = Some(first_running(row.domain));
        self.mail.hold(kernel_message(row.id, sort));
    }

    /// The receiver of the first message that waits runs with it in hand, from before its first unit.
    #[tactic(auto, using(crate::proofs::Receivers::front_received, crate::proofs::Seats::loaded_row, crate::proofs::Seats::seat_used))]
    fn take_front(&mut self) -> Option<ModuleRow>
        requires outside { self.old.running ≡ None }
        ensures none { (result ≡ None) ↔ (front self.old.queues ≡ None) }
        ensures same { result ≡ None → self.new ≡ self.old }
        ensures receiver { IfSome (front self.old.queues)
            (λ m. result ≡ option_map row_of (module_named self.old.modules m.to)) }
        ensures there { IfSome result (λ row. IfSome (front self.old.queues)
            (λ m. module_at self.old.modules row.domain ≡ module_named self.old.modules m.to)) }
        ensures within { IfSome result (λ row. row.domain < domain_count) }
        ensures kernel { IfSome result (λ row. self.new ≡ record self.old {
          queues = without_front self.old.queues;
          running = Some (first_running row.domain);
          hand = front self.old.queues;
        }) }
    {
        let to = self.mail.next()?;
        let Some(row) = self.modules.named(to) else {
            unreachable!()
        };
        self.running = Some(first_running(row.domain));
        Some(row)
    }

    /// Starts the handler of the module that runs with the message in hand.
    fn start(&mut self, row: &ModuleRow, lines: &mut Lines)
        requires hand { IsSome self.old.hand }
        requires room { length lines.old < turn_lines }
        ensures kernel { IfSome self.old.hand
            (λ m. self.new ≡ with_processor self.old
            (dispatched self.old.processor row.now.state (constants_at self.old.modules row.now.domain) m)) }
        ensures lines { IfSome self.old.hand
            (λ m. lines.new ≡ lines.old ++ TraceLine.Run self.old.clock row.now.id m.sort m.from ∷ []) }
    {
        let Some(message) = self.mail.hand() else {
            unreachable!()
        };
        lines.add(TraceLine::Run {
            time: self.clock,
            id: row.id,
            sort: message.sort,
            from: message.from,
        });
        let constants = self.mail.constants_at(row.domain);
        dispatch(&mut self.cpu, row.state, constants, message);
    }
}

/// What runs in a domain before its first unit.
fn first_running(domain: u8) -> Running
    ensures { result ≡ first_running domain }
{
    Running {
        domain,
        base: STACK_TOP,
        bound: STACK_TOP,
    }
}

/// A message of the kernel's own.
fn kernel_message(to: u8, sort: u8) -> Msg<Parcel>
    ensures { result ≡ kernel_message to sort }
{
    Msg {
        from: KERNEL_SENDER,
        ..empty_message(to, sort)
    }
}

/// The units of a module's functions.
fn numbers(units: &[u16]) -> ArrayVec<u16, PROVIDED>
    requires { length units.now ≤ provided_limit }
    ensures { result.items ≡ units.now }
{
    let mut numbers = ArrayVec::new();
    numbers.try_extend_from_slice(units).unwrap();
    numbers
}
