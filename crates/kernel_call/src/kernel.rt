//! The kernel's state, and what it tells of it.
ghost use Rattle.std.specs.Prelude.{◌≡◌, ◌<◌, ◌≤◌, IfOk, IfSome, IsSome, Some, true, is_some, option_map};
ghost use Rattle.std.specs.Borrow.{sem};
ghost use Rattle.mote_base.specs.Messages.{front};
ghost use Rattle.mote_layout.specs.Memory.{domain_count, stack_top};
ghost use Rattle.domain_model.specs.State.{no_kernel, without_counter};
ghost use Rattle.domain_model.specs.Act.{may_load, may_store, receives};
ghost use Rattle.domain_model.specs.Modules.{constants_at, id_at, in_use, module_at, module_named};
ghost use Rattle.kernel_call.specs.Lending.{LendsCpu};
ghost use Rattle.kernel_call.specs.Rows.{row_of};
ghost use Rattle.kernel_call.specs.Sound.{last_moment};

use crate::loaded::ModuleRow;
use crate::mail::Mail;
use crate::modules::Modules;
use avr_machine::Cpu;
use domain_model::Running;
use mote_base::NoMemory;
use safe_stack::SafeStack;
use sos_timer::Timers;
use std::alloc::Global;
use std::marker::Model;
use store_check::{Window, check_load, check_store};

/// The kernel. It is seen as the machine's kernel state, with a processor that has no program counter.
#[derive(Drop)]
pub struct Kernel {
    pub(crate) clock: u64,
    pub(crate) cpu: Cpu,
    pub(crate) mail: Mail,
    pub(crate) modules: Modules,
    pub(crate) timers: Timers,
    pub(crate) running: Option<Running>,
    pub(crate) frames: SafeStack,
    pub(crate) ending: Option<u8>,
}

impl Model for Kernel {
    ghost use Rattle.domain_model.specs.State.{KernelState, without_counter};
    ghost use Rattle.kernel_call.specs.Sound.{IsSound};

    ghost Value = { KernelState };

    ghost view = { λ k. record {
      clock = k.clock;
      processor = without_counter k.cpu;
      blocks = k.mail.blocks;
      modules = k.modules;
      queues = k.mail.queues;
      timers = k.timers;
      running = k.running;
      frames = k.frames;
      hand = k.mail.hand;
      ending = k.ending;
    } };

    ghost invariant = { λ k. IsSound k.clock k.running k.frames k.mail.hand k.ending k.modules k.mail.queues k.mail.kept k.timers };
}

impl Kernel {
    /// Nothing is loaded, no message waits, and nothing runs. No later call takes memory.
    pub fn new(alloc: Global) -> Result<Kernel, NoMemory>
        ensures { IfOk result (λ k. k ≡ no_kernel) }
    {
        let cpu = Cpu::new(alloc)?;
        let modules = Modules::new(alloc)?;
        let mail = Mail::new(alloc)?;
        Ok(Kernel {
            clock: 0,
            cpu,
            mail,
            modules,
            timers: Timers::new(),
            running: None,
            frames: SafeStack::new(),
            ending: None,
        })
    }

    /// How many units of time have passed.
    pub fn clock(&self) -> u64
        ensures clock { result ≡ self.now.clock }
        ensures last { result ≤ last_moment }
    {
        self.clock
    }

    /// The domain that runs; none outside a handler.
    pub fn running(&self) -> Option<u8>
        ensures { result ≡ option_map (λ run. run.domain) self.now.running }
    {
        match self.running {
            Some(run) => Some(run.domain),
            None => None,
        }
    }

    /// What runs, with the part of the stack that is its own; none outside a handler.
    pub fn handler(&self) -> Option<Running>
        ensures { result ≡ self.now.running }
    {
        self.running
    }

    /// The module in a domain.
    #[tactic(auto, using(crate::proofs::Seats::row_used))]
    pub fn module_at(&self, d: u8) -> Option<ModuleRow>
        ensures row { result ≡ option_map row_of (module_at self.now.modules d) }
        ensures used { IfSome result (λ _. in_use self.now.modules d ≡ true) }
    {
        self.modules.at(d)
    }

    /// The module with an id. It is the one in its domain.
    #[tactic(auto, using(crate::proofs::Seats::named_used))]
    pub fn module_named(&self, id: u8) -> Option<ModuleRow>
        ensures row { result ≡ option_map row_of (module_named self.now.modules id) }
        ensures there { IfSome result
            (λ row. module_at self.now.modules row.domain ≡ module_named self.now.modules id) }
        ensures used { IfSome result (λ row. in_use self.now.modules row.domain ≡ true) }
    {
        self.modules.known();
        self.modules.named(id)
    }

    /// Whether a message waits.
    pub fn has_message(&self) -> bool
        ensures { result ≡ is_some (front self.now.queues) }
    {
        self.mail.count(true) > 0 || self.mail.count(false) > 0
    }

    /// The stack of the running domain.
    pub fn window(&self) -> Window
        requires handler { IsSome self.now.running }
        ensures { IfSome self.now.running (λ run.
            result ≡ record { sp = self.now.processor.sp; base = run.base; bound = run.bound }) }
    {
        let run = self.run();
        self.window_of(&run)
    }

    /// The processor. Its program counter means nothing.
    pub fn cpu(&self) -> &Cpu
        ensures { without_counter result.now ≡ self.now.processor }
    {
        &self.cpu
    }

    /// Lends the processor. Nothing else changes through it, and where its program counter is left is not kept.
    pub fn cpu_mut(&mut self) -> &mut Cpu
        ensures* lends { sem 𝓛 (LendsCpu self.entry result) }
        ensures value { without_counter result.now ≡ self.old.processor }
    {
        &mut self.cpu
    }

    /// Whether the running domain may store to an address.
    pub fn may_store(&self, a: u16) -> bool
        requires handler { IsSome self.now.running }
        ensures { IfSome self.now.running (λ run. result ≡ may_store self.now run a) }
    {
        let run = self.run();
        let window = self.window_of(&run);
        check_store(self.mail.map(), &window, run.domain, a)
    }

    /// Whether the running domain may load from an address, in a sealed image.
    pub fn may_load(&self, a: u16) -> bool
        requires handler { IsSome self.now.running }
        ensures { IfSome self.now.running (λ run. result ≡ may_load self.now run a) }
    {
        let run = self.run();
        let window = self.window_of(&run);
        let frame = self.is_receiver(&run);
        let constants = self.constants_at(run.domain);
        check_load(self.mail.map(), &window, run.domain, frame, constants, a)
    }

    /// Whether the message in hand is the running module's.
    pub(crate) fn is_receiver(&self, run: &Running) -> bool
        ensures { result ≡ receives self.now.hand (id_at self.now.modules run.now.domain) }
    {
        match self.mail.hand() {
            Some(message) => message.to == self.modules.id_at(run.domain),
            None => false,
        }
    }

    /// Where the constants of the module in a domain begin, or 0.
    pub(crate) fn constants_at(&self, d: u8) -> u16
        ensures { result ≡ constants_at self.now.modules d }
    {
        self.mail.constants_at(d)
    }

    fn window_of(&self, run: &Running) -> Window
        ensures { result ≡ record { sp = self.now.processor.sp; base = run.now.base; bound = run.now.bound } }
    {
        Window {
            sp: self.cpu.sp,
            base: run.base,
            bound: run.bound,
        }
    }

    /// What runs, in a handler.
    pub(crate) fn run(&self) -> Running
        requires { IsSome self.now.running }
        ensures running { self.now.running ≡ Some result }
        ensures domain { result.domain < domain_count }
        ensures base { result.base ≤ stack_top }
        ensures used { in_use self.now.modules result.domain ≡ true }
    {
        let Some(run) = self.running else {
            unreachable!()
        };
        run
    }
}
