//! Moves between registers, ports, the data space and the stack.
ghost use Rattle.std.specs.Prelude.{◌≡◌, ◌+◌, ◌%◌, ◌<◌, [], ◌∷◌};
ghost use Rattle.mote_layout.specs.Memory.{first_port, register_count};
ghost use Rattle.avr_machine.specs.Processor.{lowered, pair, raised, register};
ghost use Rattle.avr_machine.specs.DataRead.{IsInMemory, data_read};
ghost use Rattle.avr_machine.specs.Write.{after, set_byte, set_pair, set_port, set_register, set_sp};
ghost use Rattle.avr_machine.specs.Effect.{load_behind, load_falling, load_rising, popped, pushed, store_behind, store_falling, store_rising};

use crate::cpu::Cpu;
use crate::parts::{high, joined, low};
use mote_layout::{FIRST_PORT, SPH_PORT, SPL_PORT, SREG_PORT};

impl Cpu {
    /// Loads the byte at an address.
    pub(crate) fn load(&mut self, d: u8, address: u16)
        requires { d < register_count }
        ensures { self.new ≡ after (set_register d (data_read self.old address) ∷ []) self.old }
    {
        let byte = self.read(address);
        self.write_register(d, byte);
    }

    pub(crate) fn load_behind(&mut self, pointer: u8, d: u8, q: u8)
        requires pointer { pointer + 1 < register_count }
        requires register { d < register_count }
        ensures { self.new ≡ after (load_behind self.old pointer d q) self.old }
    {
        let address = self.pair(pointer).wrapping_add(u16::from(q));
        self.load(d, address);
    }

    pub(crate) fn load_rising(&mut self, pointer: u8, d: u8)
        requires pointer { pointer + 1 < register_count }
        requires register { d < register_count }
        ensures { self.new ≡ after (load_rising self.old pointer d) self.old }
    {
        let address = self.pair(pointer);
        self.load(d, address);
        self.write_pair(pointer, address.wrapping_add(1));
    }

    pub(crate) fn load_falling(&mut self, pointer: u8, d: u8)
        requires pointer { pointer + 1 < register_count }
        requires register { d < register_count }
        ensures { self.new ≡ after (load_falling self.old pointer d) self.old }
    {
        let address = self.pair(pointer).wrapping_sub(1);
        self.write_pair(pointer, address);
        self.load(d, address);
    }

    /// Stores a register at an address.
    pub(crate) fn store(&mut self, address: u16, r: u8)
        requires inside { IsInMemory address }
        requires register { r < register_count }
        ensures { self.new ≡ after (set_byte address (register self.old r) ∷ []) self.old }
    {
        let byte = self.register(r);
        self.write_byte(address, byte);
    }

    pub(crate) fn store_behind(&mut self, pointer: u8, r: u8, q: u8)
        requires pointer { pointer + 1 < register_count }
        requires register { r < register_count }
        requires inside { IsInMemory ((pair self.old pointer + q) % 65536) }
        ensures { self.new ≡ after (store_behind self.old pointer r q) self.old }
    {
        let address = self.pair(pointer).wrapping_add(u16::from(q));
        self.store(address, r);
    }

    pub(crate) fn store_rising(&mut self, pointer: u8, r: u8)
        requires pointer { pointer + 1 < register_count }
        requires register { r < register_count }
        requires inside { IsInMemory (pair self.old pointer) }
        ensures { self.new ≡ after (store_rising self.old pointer r) self.old }
    {
        let address = self.pair(pointer);
        self.store(address, r);
        self.write_pair(pointer, address.wrapping_add(1));
    }

    pub(crate) fn store_falling(&mut self, pointer: u8, r: u8)
        requires pointer { pointer + 1 < register_count }
        requires register { r < register_count }
        requires inside { IsInMemory (lowered (pair self.old pointer)) }
        ensures { self.new ≡ after (store_falling self.old pointer r) self.old }
    {
        let byte = self.register(r);
        let address = self.pair(pointer).wrapping_sub(1);
        self.write_pair(pointer, address);
        self.write_byte(address, byte);
    }

    pub(crate) fn push(&mut self, byte: u8)
        requires { IsInMemory self.old.sp }
        ensures { self.new ≡ after (pushed self.old byte) self.old }
    {
        self.write_byte(self.sp, byte);
        self.sp = self.sp.wrapping_sub(1);
    }

    /// The byte that was pushed last.
    pub(crate) fn pop(&mut self) -> u8
        ensures after { self.new ≡ after (set_sp (raised self.old.sp) ∷ []) self.old }
        ensures byte { result ≡ popped self.old }
    {
        self.sp = self.sp.wrapping_add(1);
        self.read(self.sp)
    }

    pub(crate) fn input(&mut self, d: u8, port: u8)
        requires { d < register_count }
        ensures { self.new ≡ after (set_register d (data_read self.old (port + first_port)) ∷ []) self.old }
    {
        self.load(d, FIRST_PORT + u16::from(port));
    }

    /// Puts a register into the port of a byte of SP or of SREG.
    pub(crate) fn output(&mut self, r: u8, port: u8)
        requires { r < register_count }
        ensures { self.new ≡ after (set_port port (register self.old r) ∷ []) self.old }
    {
        let byte = self.register(r);
        match port {
            SPL_PORT => self.sp = joined(byte, high(self.sp)),
            SPH_PORT => self.sp = joined(low(self.sp), byte),
            SREG_PORT => self.sreg = byte,
            _ => {}
        }
    }
}
