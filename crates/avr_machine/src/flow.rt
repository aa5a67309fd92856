//! Jumps, branches, calls and returns.
ghost use Rattle.std.specs.Prelude.{◌≡◌, ◌%◌};
ghost use Rattle.avr_machine.specs.Processor.{lowered};
ghost use Rattle.avr_machine.specs.DataRead.{IsInMemory};
ghost use Rattle.avr_machine.specs.Write.{after};
ghost use Rattle.avr_machine.specs.Effect.{called, goes_where, moved, returned};

use crate::cpu::Cpu;
use crate::parts::{high, joined, low};

impl Cpu {
    /// The address that lies `offset` words from PC.
    pub(crate) fn target(&self, offset: i16) -> u16
        ensures { result ≡ moved self.now offset }
    {
        self.pc.wrapping_add_signed(offset)
    }

    pub(crate) fn go_where(&mut self, test: bool, address: u16)
        ensures { self.new ≡ after (goes_where test address) self.old }
    {
        if test {
            self.pc = address;
        }
    }

    pub(crate) fn call(&mut self, target: u16)
        requires first { IsInMemory self.old.sp }
        requires second { IsInMemory (lowered self.old.sp) }
        ensures { self.new ≡ after (called self.old target) self.old }
    {
        let back = self.pc;
        self.push(low(back));
        self.push(high(back));
        self.pc = target;
    }

    pub(crate) fn come_back(&mut self)
        ensures { self.new ≡ after (returned self.old) self.old }
    {
        let high = self.pop();
        let low = self.pop();
        self.pc = joined(low, high);
    }
}

/// The word address in the operand of JMP and CALL, modulo 65536.
pub(crate) fn word_address(k: u32) -> u16
    ensures { result ≡ k % 65536 }
{
    (k % 0x1_0000) as u16
}
