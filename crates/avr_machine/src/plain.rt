//! The instructions that lead to the next one, one arm for each.
#![tactic(auto, unfolding(crate::specs::Effect::writes, crate::specs::Conditions::IsStraight, crate::specs::Conditions::StoresInside, avr_isa::specs::Operands::IsEncodable))]

ghost use Rattle.std.specs.Prelude.{◌≡◌, ◌≤◌};
ghost use Rattle.avr_isa.specs.Operands.{IsEncodable};
ghost use Rattle.avr_isa.specs.Place.{place};
ghost use Rattle.avr_machine.specs.Conditions.{IsStraight, StoresInside};
ghost use Rattle.avr_machine.specs.Effect.{effect};

use crate::cpu::Cpu;
use avr_alu::{Logic, Mul, One};
use avr_isa::Instr;
use mote_layout::{POINTER_X, POINTER_Y, POINTER_Z};

impl Cpu {
    /// Runs an instruction that leads to the next one. PC stays.
    ///
    /// The instructions come in the order of the table of opcodes; each function below takes the next lines, and passes
    /// the later ones on. Here are those of two registers, or of a register and a constant.
    pub fn plain(&mut self, i: &Instr)
        requires operands { IsEncodable i.now }
        requires straight { IsStraight i.now }
        requires inside { StoresInside i.now self.old }
        ensures { self.new ≡ effect i.now 0 self.old }
    {
        match *i {
            Instr::Nop => {}
            Instr::Movw(d, r) => self.write_pair(d, self.pair(r)),
            Instr::Muls(d, r) => self.multiply(Mul::S, d, r),
            Instr::Mulsu(d, r) => self.multiply(Mul::SU, d, r),
            Instr::Fmul(d, r) => self.multiply(Mul::FU, d, r),
            Instr::Fmuls(d, r) => self.multiply(Mul::FS, d, r),
            Instr::Fmulsu(d, r) => self.multiply(Mul::FSU, d, r),
            Instr::Cpc(d, r) => self.compare(d, self.register(r), true),
            Instr::Sbc(d, r) => self.subtract(d, self.register(r), true),
            Instr::Add(d, r) => self.add(d, self.register(r), false),
            Instr::Cp(d, r) => self.compare(d, self.register(r), false),
            Instr::Sub(d, r) => self.subtract(d, self.register(r), false),
            Instr::Adc(d, r) => self.add(d, self.register(r), self.carry()),
            Instr::And(d, r) => self.combine(Logic::And, d, self.register(r)),
            Instr::Eor(d, r) => self.combine(Logic::Eor, d, self.register(r)),
            Instr::Or(d, r) => self.combine(Logic::Or, d, self.register(r)),
            Instr::Mov(d, r) => self.write_register(d, self.register(r)),
            Instr::Cpi(d, constant) => self.compare(d, constant, false),
            Instr::Sbci(d, constant) => self.subtract(d, constant, true),
            Instr::Subi(d, constant) => self.subtract(d, constant, false),
            Instr::Ori(d, constant) => self.combine(Logic::Or, d, constant),
            Instr::Andi(d, constant) => self.combine(Logic::And, d, constant),
            _ => self.plain_from_loads(i),
        }
    }

    /// The loads and stores, PUSH and POP, and what comes later.
    fn plain_from_loads(&mut self, i: &Instr)
        requires operands { IsEncodable i.now }
        requires straight { IsStraight i.now }
        requires inside { StoresInside i.now self.old }
        requires further { 23 ≤ place i.now }
        ensures { self.new ≡ effect i.now 0 self.old }
    {
        match *i {
            Instr::LddZ(d, q) => self.load_behind(POINTER_Z, d, q),
            Instr::LddY(d, q) => self.load_behind(POINTER_Y, d, q),
            Instr::StdZ(r, q) => self.store_behind(POINTER_Z, r, q),
            Instr::StdY(r, q) => self.store_behind(POINTER_Y, r, q),
            Instr::Lds(d, address) => self.load(d, address),
            Instr::LdZInc(d) => self.load_rising(POINTER_Z, d),
            Instr::LdZDec(d) => self.load_falling(POINTER_Z, d),
            Instr::LdYInc(d) => self.load_rising(POINTER_Y, d),
            Instr::LdYDec(d) => self.load_falling(POINTER_Y, d),
            Instr::LdX(d) => self.load_behind(POINTER_X, d, 0),
            Instr::LdXInc(d) => self.load_rising(POINTER_X, d),
            Instr::LdXDec(d) => self.load_falling(POINTER_X, d),
            Instr::Pop(d) => {
                let byte = self.pop();
                self.write_register(d, byte);
            }
            Instr::Sts(r, address) => self.store(address, r),
            Instr::StZInc(r) => self.store_rising(POINTER_Z, r),
            Instr::StZDec(r) => self.store_falling(POINTER_Z, r),
            Instr::StYInc(r) => self.store_rising(POINTER_Y, r),
            Instr::StYDec(r) => self.store_falling(POINTER_Y, r),
            Instr::StX(r) => self.store_behind(POINTER_X, r, 0),
            Instr::StXInc(r) => self.store_rising(POINTER_X, r),
            Instr::StXDec(r) => self.store_falling(POINTER_X, r),
            Instr::Push(r) => self.push(self.register(r)),
            _ => self.plain_from_one_register(i),
        }
    }

    /// The operations on one register or on a flag, and what comes later.
    fn plain_from_one_register(&mut self, i: &Instr)
        requires operands { IsEncodable i.now }
        requires straight { IsStraight i.now }
        requires further { 49 ≤ place i.now }
        ensures { self.new ≡ effect i.now 0 self.old }
    {
        match *i {
            Instr::Com(d) => self.change(One::Com, d),
            Instr::Neg(d) => self.change(One::Neg, d),
            Instr::Swap(d) => self.swap(d),
            Instr::Inc(d) => self.change(One::Inc, d),
            Instr::Asr(d) => self.change(One::Asr, d),
            Instr::Lsr(d) => self.change(One::Lsr, d),
            Instr::Ror(d) => self.change(One::Ror, d),
            Instr::Dec(d) => self.change(One::Dec, d),
            Instr::Bset(flag) => self.set_flag(flag, true),
            Instr::Bclr(flag) => self.set_flag(flag, false),
            Instr::Adiw(d, constant) => self.add_word(d, constant),
            Instr::Sbiw(d, constant) => self.subtract_word(d, constant),
            Instr::Mul(d, r) => self.multiply(Mul::U, d, r),
            Instr::In(d, port) => self.input(d, port),
            Instr::Out(r, port) => self.output(r, port),
            Instr::Ldi(d, constant) => self.write_register(d, constant),
            Instr::Bld(d, bit) => self.put_bit(d, bit),
            Instr::Bst(d, bit) => self.keep_bit(d, bit),
            _ => unreachable!(),
        }
    }
}
