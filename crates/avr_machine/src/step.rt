//! One step: the instruction that stands in flash at PC.
ghost use Rattle.std.specs.Prelude.{◌≡◌, ℕ};
ghost use Rattle.avr_isa.specs.declared.instruction.Instr.{Instr};
ghost use Rattle.avr_isa.specs.Operands.{IsEncodable};
ghost use Rattle.avr_machine.specs.Effect.{effect};

use crate::cpu::Cpu;
use crate::flash::Flash;
use crate::flow::word_address;
use avr_alu::is_set;
use avr_isa::Instr;
use mote_layout::PAGE_START;

/// Where a step led.
#[derive(Clone, Copy, Debug, PartialEq, Eq)]
pub enum Stepped {
    /// To an address of code.
    Went,
    /// To this address of the entry page.
    AtEntry(u16),
}

impl Cpu {
    ghost use Rattle.avr_machine.specs.Step.{CanRun, CanStep, Fetches, advanced, arrived, following};

    /// Runs the instruction at PC.
    pub fn step(&mut self, flash: &Flash) -> Stepped
        requires { CanStep flash.now self.old }
        ensures went { (i : Instr) (n : ℕ) → Fetches flash.now self.old.pc i n
            → self.new ≡ effect i (following flash.now (advanced self.old n).pc) (advanced self.old n) }
        ensures entry { result ≡ arrived self.new.pc }
    {
        let (instruction, words) = flash.fetch(self.pc);
        self.pc = self.pc.wrapping_add(u16::from(words));
        self.execute(&instruction, flash);
        if self.pc < PAGE_START {
            Stepped::Went
        } else {
            Stepped::AtEntry(self.pc)
        }
    }

    /// Runs an instruction, where PC is already the address of the next one.
    #[tactic(auto, unfolding(crate::specs::Effect::writes, crate::specs::Conditions::IsStraight, crate::specs::Conditions::IsRunnable, crate::specs::Conditions::IsSkip, crate::specs::Conditions::StoresInside, avr_isa::specs::Operands::IsEncodable))]
    fn execute(&mut self, i: &Instr, flash: &Flash)
        requires operands { IsEncodable i.now }
        requires condition { CanRun flash.now self.old i.now }
        ensures { self.new ≡ effect i.now (following flash.now self.old.pc) self.old }
    {
        match *i {
            Instr::Out(r, port) => self.output(r, port),
            Instr::Rjmp(offset) => self.pc = self.target(offset),
            Instr::Rcall(offset) => self.call(self.target(offset)),
            Instr::Jmp(k) => self.pc = word_address(k),
            Instr::Call(k) => self.call(word_address(k)),
            Instr::Ret => self.come_back(),
            Instr::Brbs(flag, offset) => {
                let target = self.target(i16::from(offset));
                self.go_where(is_set(self.sreg, flag), target);
            }
            Instr::Brbc(flag, offset) => {
                let target = self.target(i16::from(offset));
                self.go_where(!is_set(self.sreg, flag), target);
            }
            Instr::Cpse(d, r) => self.skip_where(self.register(d) == self.register(r), flash),
            Instr::Sbrc(r, bit) => self.skip_where(!is_set(self.register(r), bit), flash),
            Instr::Sbrs(r, bit) => self.skip_where(is_set(self.register(r), bit), flash),
            _ => self.plain(i),
        }
    }

    ghost use Rattle.std.specs.Prelude.{IsOk};
    ghost use Rattle.avr_machine.specs.Write.{after};
    ghost use Rattle.avr_machine.specs.Effect.{goes_where};
    ghost use Rattle.avr_machine.specs.Step.{fetched};

    /// Where the test holds, passes over the whole next instruction.
    #[tactic(auto, unfolding(crate::specs::Step::following))]
    fn skip_where(&mut self, test: bool, flash: &Flash)
        requires { IsOk (fetched flash.now self.old.pc) }
        ensures { self.new ≡ after (goes_where test (following flash.now self.old.pc)) self.old }
    {
        let (_, words) = flash.fetch(self.pc);
        let over = self.pc.wrapping_add(u16::from(words));
        self.go_where(test, over);
    }
}
