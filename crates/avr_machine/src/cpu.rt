//! The registers, the memory, and reads of the data space.
ghost use Rattle.std.specs.Prelude.{◌≡◌, ◌≢◌, ◌+◌, ◌<◌, ◌≤◌, ℕ, All, length, slice_index, IfOk};
ghost use Rattle.mote_layout.specs.Memory.{ram_bytes, ram_end, ram_start};
ghost use Rattle.avr_machine.specs.Bytes.{IsAmong, cleared, holding, with_bytes, with_zeros};
ghost use Rattle.avr_machine.specs.Processor.{no_processor};
ghost use Rattle.avr_machine.specs.DataRead.{IsInMemory, data_read};
ghost use Rattle.avr_machine.specs.Write.{set_byte, written};

use crate::parts::{high, low};
use mote_base::NoMemory;
use mote_layout::{RAM_BYTES, RAM_END, RAM_START, REGISTERS, SPH, SPL, SREG};
use std::alloc::Global;
use std::marker::Model;

/// The processor.
#[derive(Drop)]
pub struct Cpu {
    /// R0 to R31.
    pub regs: [u8; 32],
    /// The status register, C Z N V S H T I from bit 0 up.
    pub sreg: u8,
    /// The stack pointer: the address below the byte that was pushed last.
    pub sp: u16,
    /// The program counter, which counts words.
    pub pc: u16,
    ram: Vec<u8>,
}

impl Model for Cpu {
    ghost use Rattle.std.specs.Prelude.{◌≡◌, length};
    ghost use Rattle.mote_layout.specs.Memory.{ram_bytes};
    ghost use Rattle.avr_machine.specs.Processor.{Processor};

    ghost Value = { Processor };

    ghost view = { λ c. record { registers = c.regs; sreg = c.sreg; sp = c.sp; pc = c.pc; memory = c.ram.items } };

    ghost invariant = { λ c. length c.ram.items ≡ ram_bytes };
}

impl Cpu {
    /// A processor that is 0 everywhere.
    #[tactic(auto, unfolding(crate::specs::Processor::no_memory))]
    pub fn new(alloc: Global) -> Result<Cpu, NoMemory>
        ensures { IfOk result (λ cpu. cpu ≡ no_processor) }
    {
        let ram = vec![in alloc; 0; RAM_BYTES]?;
        Ok(Cpu {
            regs: [0; 32],
            sreg: 0,
            sp: 0,
            pc: 0,
            ram,
        })
    }

    /// What a load reads at an address of the data space: a register, a byte of SP, SREG, a byte of the memory, else 0.
    pub fn rd(&self, a: u16) -> u8
        ensures value { result ≡ data_read self.now a }

        // What the memory is.
        ensures memory { length self.now.memory ≡ ram_bytes }
        ensures bytes { All (λ byte. byte < 256) self.now.memory }
    {
        are_bytes(self.ram.as_slice());
        self.read(a)
    }

    #[tactic(auto, unfolding(crate::specs::DataRead::data_read))]
    pub(crate) fn read(&self, a: u16) -> u8
        ensures { result ≡ data_read self.now a }
    {
        match a {
            0..REGISTERS => self.regs[usize::from(a)],
            SPL => low(self.sp),
            SPH => high(self.sp),
            SREG => self.sreg,
            RAM_START..=RAM_END => self.ram[usize::from(a - RAM_START)],
            _ => 0,
        }
    }

    /// Puts a byte into the memory.
    #[tactic(auto, using(crate::proofs::ReadBack::reads))]
    pub fn set_ram(&mut self, a: u16, v: u8)
        requires { IsInMemory a }
        ensures value { self.new ≡ written (set_byte a v) self.old }
        ensures read { data_read self.new a ≡ v }
        ensures others { (b : ℕ) → b ≢ a → data_read self.new b ≡ data_read self.old b }
    {
        self.write_byte(a, v);
    }

    /// Puts bytes into the memory, from an address on.
    #[tactic(auto, using(crate::proofs::ReadBack::reads))]
    pub fn put(&mut self, a: u16, bytes: &[u8])
        requires start { ram_start ≤ a }
        requires end { a + length bytes.now ≤ ram_end + 1 }
        ensures value { self.new ≡ holding a bytes.now self.old }
        ensures read { (k : ℕ) → k < length bytes.now → data_read self.new (a + k) ≡ slice_index bytes.now k }
        ensures others { (b : ℕ) → ¬ IsAmong a (length bytes.now) b → data_read self.new b ≡ data_read self.old b }
    {
        self.write_bytes(a, bytes);
    }

    /// Makes bytes of the memory 0, from an address on.
    #[tactic(auto, using(crate::proofs::ReadBack::reads))]
    pub fn clear(&mut self, a: u16, count: u16)
        requires start { ram_start ≤ a }
        requires end { a + count ≤ ram_end + 1 }
        ensures value { self.new ≡ cleared a count self.old }
        ensures read { (b : ℕ) → IsAmong a count b → data_read self.new b ≡ 0 }
        ensures others { (b : ℕ) → ¬ IsAmong a count b → data_read self.new b ≡ data_read self.old b }
    {
        self.write_zeros(a, count);
    }

    pub(crate) fn write_byte(&mut self, a: u16, v: u8)
        requires { IsInMemory a }
        ensures value { self.new ≡ written (set_byte a v) self.old }
        ensures whole { length self.old.memory ≡ ram_bytes }
    {
        self.ram[usize::from(a - RAM_START)] = v;
    }

    fn write_bytes(&mut self, a: u16, bytes: &[u8])
        requires start { ram_start ≤ a }
        requires end { a + length bytes.now ≤ ram_end + 1 }
        ensures value { self.new ≡ holding a bytes.now self.old }
        ensures whole { length self.old.memory ≡ ram_bytes }
    {
        put_bytes(&mut self.ram, usize::from(a - RAM_START), bytes);
    }

    fn write_zeros(&mut self, a: u16, count: u16)
        requires start { ram_start ≤ a }
        requires end { a + count ≤ ram_end + 1 }
        ensures value { self.new ≡ cleared a count self.old }
        ensures whole { length self.old.memory ≡ ram_bytes }
    {
        put_zeros(
            &mut self.ram,
            usize::from(a - RAM_START),
            usize::from(count),
        );
    }
}

/// What a list of bytes holds is below 256.
fn are_bytes(memory: &[u8])
    ensures { All (λ byte. byte < 256) memory.now }
{}

fn put_bytes(memory: &mut [u8], first: usize, bytes: &[u8])
    requires { first + length bytes.now ≤ length memory.old }
    ensures { memory.new ≡ with_bytes memory.old first bytes.now }
{
    memory[first..first + bytes.len()].copy_from_slice(bytes);
}

fn put_zeros(memory: &mut [u8], first: usize, count: usize)
    requires { first + count ≤ length memory.old }
    ensures { memory.new ≡ with_zeros memory.old first count }
{
    memory[first..first + count].fill(0);
}
