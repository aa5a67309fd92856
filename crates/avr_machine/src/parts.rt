//! Single registers, pairs of registers as words, and the bytes of a word.
ghost use Rattle.std.specs.Prelude.{◌≡◌, ◌≢◌, ◌+◌, ◌*◌, ◌<◌, ℕ, length};
ghost use Rattle.mote_layout.specs.Memory.{register_count};
ghost use Rattle.avr_machine.specs.DataRead.{data_read};
ghost use Rattle.avr_machine.specs.Processor as processor;
ghost use Rattle.avr_machine.specs.Write.{set_register, set_pair, written};

use crate::cpu::Cpu;

/// The low byte of a word.
pub(crate) fn low(word: u16) -> u8
    ensures { result ≡ processor.low word }
{
    (word % 256) as u8
}

/// The high byte of a word.
pub(crate) fn high(word: u16) -> u8
    ensures { result ≡ processor.high word }
{
    (word / 256) as u8
}

/// The word that two bytes make.
pub(crate) fn joined(low: u8, high: u8) -> u16
    ensures { result ≡ low + 256 * high }
{
    u16::from(low) + 256 * u16::from(high)
}

impl Cpu {
    /// A register, R0 to R31, by its number.
    pub fn register(&self, d: u8) -> u8
        requires { d < register_count }
        ensures { result ≡ processor.register self.now d }
    {
        self.regs[usize::from(d)]
    }

    /// Puts a byte into a register.
    #[tactic(auto, using(crate::proofs::ReadBack::reads))]
    pub fn set_register(&mut self, d: u8, value: u8)
        requires { d < register_count }
        ensures value { self.new ≡ written (set_register d value) self.old }
        ensures read { processor.register self.new d ≡ value }
        ensures others { (b : ℕ) → b ≢ d → data_read self.new b ≡ data_read self.old b }
    {
        self.write_register(d, value);
    }

    /// The word in a pair of registers, given by the lower one.
    pub fn pair(&self, d: u8) -> u16
        requires { d + 1 < register_count }
        ensures { result ≡ processor.pair self.now d }
    {
        joined(self.register(d), self.register(d + 1))
    }

    /// Puts a word into a pair of registers, given by the lower one.
    #[tactic(auto, using(crate::proofs::ReadBack::reads))]
    pub fn set_pair(&mut self, d: u8, word: u16)
        requires { d + 1 < register_count }
        ensures value { self.new ≡ written (set_pair d word) self.old }
        ensures read { processor.pair self.new d ≡ word }
        ensures others { (b : ℕ) → b ≢ d → b ≢ d + 1 → data_read self.new b ≡ data_read self.old b }
    {
        self.write_pair(d, word);
    }

    pub(crate) fn write_register(&mut self, d: u8, value: u8)
        requires { d < register_count }
        ensures value { self.new ≡ written (set_register d value) self.old }
        ensures whole { length self.old.registers ≡ register_count }
    {
        self.regs[usize::from(d)] = value;
    }

    pub(crate) fn write_pair(&mut self, d: u8, word: u16)
        requires { d + 1 < register_count }
        ensures value { self.new ≡ written (set_pair d word) self.old }
        ensures whole { length self.old.registers ≡ register_count }
    {
        self.write_register(d, low(word));
        self.write_register(d + 1, high(word));
    }
}
