//! One step of each form, with the whole state after it worked out by hand from the manual.
ghost use Rattle.std.specs.Prelude.{◌≡◌, ℕ, IsOk, IsTrue};
ghost use Rattle.avr_machine.specs.Conditions.{IsRunnable, IsSkip, StoresInside};
ghost use Rattle.avr_machine.specs.DataRead.{IsInMemory};
ghost use Rattle.avr_machine.specs.Processor.{with_pc};
ghost use Rattle.avr_machine.specs.Step.{CanStep, Fetches, fetched};

use avr_isa::{Instr, decode};
use avr_machine::{Cpu, Flash, Stepped};
use mote_layout::{POINTER_X, POINTER_Y, POINTER_Z, RAM_END, RAM_START};
use std::alloc::Global;
use std::process::Abort;
use std::test::Fail;

/// Registers, SP, SREG and bytes of the memory with their values.
type Parts = (&'static [(u8, u8)], u16, u8, &'static [(u16, u8)]);

/// The code from word 0x4000 on, the processor before, what is then changed of it, and PC after.
type Row = (&'static [u16], Parts, Parts, u16);

const LOADS: [Row; 13] = [
    (
        &[0x910C],
        (&[(26, 0), (27, 2)], 0, 0, &[(0x200, 0x22)]),
        (&[(16, 0x22)], 0, 0, &[]),
        0x4001,
    ),
    (
        &[0x910D],
        (&[(26, 0), (27, 2)], 0, 0, &[(0x200, 0x22)]),
        (&[(16, 0x22), (26, 1)], 0, 0, &[]),
        0x4001,
    ),
    (
        &[0x910E],
        (&[(26, 0), (27, 2)], 0, 0, &[(0x1FF, 0x11)]),
        (&[(16, 0x11), (26, 0xFF), (27, 1)], 0, 0, &[]),
        0x4001,
    ),
    // a pointer that falls to its own lower register, and one that rises past the last address
    (
        &[0x910E],
        (&[(26, 27)], 0, 0, &[]),
        (&[(16, 26), (26, 26)], 0, 0, &[]),
        0x4001,
    ),
    (
        &[0x910D],
        (&[(16, 9), (26, 0xFF), (27, 0xFF)], 0, 0, &[]),
        (&[(16, 0), (26, 0), (27, 0)], 0, 0, &[]),
        0x4001,
    ),
    (
        &[0x9109],
        (&[(28, 0), (29, 2)], 0, 0, &[(0x200, 0x22)]),
        (&[(16, 0x22), (28, 1)], 0, 0, &[]),
        0x4001,
    ),
    (
        &[0x910A],
        (&[(28, 0), (29, 2)], 0, 0, &[(0x1FF, 0x11)]),
        (&[(16, 0x11), (28, 0xFF), (29, 1)], 0, 0, &[]),
        0x4001,
    ),
    (
        &[0x810D],
        (&[(28, 0), (29, 2)], 0, 0, &[(0x205, 0x55)]),
        (&[(16, 0x55)], 0, 0, &[]),
        0x4001,
    ),
    (
        &[0x9101],
        (&[(30, 0), (31, 2)], 0, 0, &[(0x200, 0x22)]),
        (&[(16, 0x22), (30, 1)], 0, 0, &[]),
        0x4001,
    ),
    (
        &[0x9102],
        (&[(30, 0), (31, 2)], 0, 0, &[(0x1FF, 0x11)]),
        (&[(16, 0x11), (30, 0xFF), (31, 1)], 0, 0, &[]),
        0x4001,
    ),
    (
        &[0x8105],
        (&[(30, 0), (31, 2)], 0, 0, &[(0x205, 0x55)]),
        (&[(16, 0x55)], 0, 0, &[]),
        0x4001,
    ),
    (
        &[0x9100, 0x0200],
        (&[], 0, 0, &[(0x200, 0x22)]),
        (&[(16, 0x22)], 0, 0, &[]),
        0x4002,
    ),
    (
        &[0x910F],
        (&[], 0x10FE, 0, &[(0x10FF, 0xAB)]),
        (&[(16, 0xAB)], 0x10FF, 0, &[]),
        0x4001,
    ),
];

const STORES: [Row; 11] = [
    (
        &[0x930C],
        (&[(16, 0xAB), (27, 2)], 0, 0, &[]),
        (&[], 0, 0, &[(0x200, 0xAB)]),
        0x4001,
    ),
    (
        &[0x930D],
        (&[(16, 0xAB), (27, 2)], 0, 0, &[]),
        (&[(26, 1)], 0, 0, &[(0x200, 0xAB)]),
        0x4001,
    ),
    (
        &[0x930E],
        (&[(16, 0xAB), (27, 2)], 0, 0, &[]),
        (&[(26, 0xFF), (27, 1)], 0, 0, &[(0x1FF, 0xAB)]),
        0x4001,
    ),
    (
        &[0x9309],
        (&[(16, 0xAB), (29, 2)], 0, 0, &[]),
        (&[(28, 1)], 0, 0, &[(0x200, 0xAB)]),
        0x4001,
    ),
    (
        &[0x930A],
        (&[(16, 0xAB), (29, 2)], 0, 0, &[]),
        (&[(28, 0xFF), (29, 1)], 0, 0, &[(0x1FF, 0xAB)]),
        0x4001,
    ),
    (
        &[0x830D],
        (&[(16, 0xAB), (29, 2)], 0, 0, &[]),
        (&[], 0, 0, &[(0x205, 0xAB)]),
        0x4001,
    ),
    (
        &[0x9301],
        (&[(16, 0xAB), (31, 2)], 0, 0, &[]),
        (&[(30, 1)], 0, 0, &[(0x200, 0xAB)]),
        0x4001,
    ),
    (
        &[0x9302],
        (&[(16, 0xAB), (31, 2)], 0, 0, &[]),
        (&[(30, 0xFF), (31, 1)], 0, 0, &[(0x1FF, 0xAB)]),
        0x4001,
    ),
    (
        &[0x8305],
        (&[(16, 0xAB), (31, 2)], 0, 0, &[]),
        (&[], 0, 0, &[(0x205, 0xAB)]),
        0x4001,
    ),
    (
        &[0x9300, 0x0200],
        (&[(16, 0xAB)], 0, 0, &[]),
        (&[], 0, 0, &[(0x200, 0xAB)]),
        0x4002,
    ),
    (
        &[0x930F],
        (&[(16, 0xAB)], 0x10FF, 0, &[]),
        (&[], 0x10FE, 0, &[(0x10FF, 0xAB)]),
        0x4001,
    ),
];

const FLOW: [Row; 11] = [
    // CALL, RCALL, RET: the low byte of the address is pushed first
    (
        &[0x940E, 0xF100],
        (&[], 0x10FF, 0, &[]),
        (&[], 0x10FD, 0, &[(0x10FF, 0x02), (0x10FE, 0x40)]),
        0xF100,
    ),
    (
        &[0xD002],
        (&[], 0x10FF, 0, &[]),
        (&[], 0x10FD, 0, &[(0x10FF, 0x01), (0x10FE, 0x40)]),
        0x4003,
    ),
    (
        &[0x9508],
        (&[], 0x10FD, 0, &[(0x10FF, 0x01), (0x10FE, 0x40)]),
        (&[], 0x10FF, 0, &[]),
        0x4001,
    ),
    // SBRS over one word, SBRC and CPSE over two, CPSE over none
    (
        &[0xFF00, 0x0000],
        (&[(16, 1)], 0, 0, &[]),
        (&[], 0, 0, &[]),
        0x4002,
    ),
    (
        &[0xFD00, 0x940E, 0xF100],
        (&[], 0, 0, &[]),
        (&[], 0, 0, &[]),
        0x4003,
    ),
    (
        &[0x1301, 0x9100, 0x0200],
        (&[(16, 7), (17, 7)], 0, 0, &[]),
        (&[], 0, 0, &[]),
        0x4003,
    ),
    (
        &[0x1301, 0x9100, 0x0200],
        (&[(16, 7)], 0, 0, &[]),
        (&[], 0, 0, &[]),
        0x4001,
    ),
    // BREQ and BRNE two words back, RJMP to itself, JMP
    (&[0xF3F1], (&[], 0, 0x02, &[]), (&[], 0, 0x02, &[]), 0x3FFF),
    (&[0xF7F1], (&[], 0, 0x02, &[]), (&[], 0, 0x02, &[]), 0x4001),
    (&[0xCFFF], (&[], 0, 0, &[]), (&[], 0, 0, &[]), 0x4000),
    (
        &[0x940C, 0xF096],
        (&[], 0, 0, &[]),
        (&[], 0, 0, &[]),
        0xF096,
    ),
];

const WORDS: [Row; 12] = [
    // IN and OUT of SP's bytes and SREG
    (
        &[0xB70D],
        (&[], 0x1234, 0xA5, &[]),
        (&[(16, 0x34)], 0x1234, 0xA5, &[]),
        0x4001,
    ),
    (
        &[0xB70E],
        (&[], 0x1234, 0xA5, &[]),
        (&[(16, 0x12)], 0x1234, 0xA5, &[]),
        0x4001,
    ),
    (
        &[0xB70F],
        (&[], 0x1234, 0xA5, &[]),
        (&[(16, 0xA5)], 0x1234, 0xA5, &[]),
        0x4001,
    ),
    (
        &[0xBF0D],
        (&[(16, 0x56)], 0x1234, 0xA5, &[]),
        (&[], 0x1256, 0xA5, &[]),
        0x4001,
    ),
    (
        &[0xBF0E],
        (&[(16, 0x56)], 0x1234, 0xA5, &[]),
        (&[], 0x5634, 0xA5, &[]),
        0x4001,
    ),
    (
        &[0xBF0F],
        (&[(16, 0x56)], 0x1234, 0xA5, &[]),
        (&[], 0x1234, 0x56, &[]),
        0x4001,
    ),
    // ADIW 63 on each pair: no flag; C and Z; N and V; C
    (
        &[0x96CF],
        (&[(24, 0xFF)], 0, 0, &[]),
        (&[(24, 0x3E), (25, 1)], 0, 0, &[]),
        0x4001,
    ),
    (
        &[0x96DF],
        (&[(26, 0xC1), (27, 0xFF)], 0, 0, &[]),
        (&[(26, 0), (27, 0)], 0, 0x03, &[]),
        0x4001,
    ),
    (
        &[0x96EF],
        (&[(28, 0xFF), (29, 0x7F)], 0, 0, &[]),
        (&[(28, 0x3E), (29, 0x80)], 0, 0x0C, &[]),
        0x4001,
    ),
    (
        &[0x96FF],
        (&[(30, 0xFF), (31, 0xFF)], 0, 0, &[]),
        (&[(30, 0x3E), (31, 0)], 0, 0x01, &[]),
        0x4001,
    ),
    // MOVW, and ADD with H, V and N
    (
        &[0x0189],
        (&[(18, 0x12), (19, 0x34)], 0, 0, &[]),
        (&[(16, 0x12), (17, 0x34)], 0, 0, &[]),
        0x4001,
    ),
    (
        &[0x0F01],
        (&[(16, 0x7F), (17, 1)], 0, 0, &[]),
        (&[(16, 0x80)], 0, 0x2C, &[]),
        0x4001,
    ),
];

/// Puts the parts into a processor.
fn put(cpu: &mut Cpu, parts: &Parts) {
    let (registers, sp, sreg, memory) = *parts;
    for &(d, value) in registers {
        if d < 32 {
            cpu.set_register(d, value);
        }
    }
    for &(address, value) in memory {
        if is_in_memory(address) {
            cpu.set_ram(address, value);
        }
    }
    cpu.sp = sp;
    cpu.sreg = sreg;
}

fn is_in_memory(address: u16) -> bool
    ensures { IsTrue result → IsInMemory address }
{
    RAM_START <= address && address <= RAM_END
}

/// Whether an instruction of the table may be run, where the next words decode or don't.
#[tactic(auto, unfolding(avr_machine::specs::Effect::writes, avr_machine::specs::Conditions::IsStraight, avr_machine::specs::Conditions::IsRunnable, avr_machine::specs::Conditions::IsSkip, avr_machine::specs::Conditions::StoresInside))]
fn can_run(i: &Instr, cpu: &Cpu, next: bool) -> bool
    ensures runnable { IsTrue result → IsRunnable i.now }
    ensures inside { IsTrue result → (pc : ℕ) → StoresInside i.now (with_pc cpu.now pc) }
    ensures next { IsTrue result → IsSkip i.now → IsTrue next }
{
    match *i {
        Instr::LdX(_) | Instr::LddY(_, _) | Instr::LddZ(_, _) | Instr::Lds(_, _) => true,
        Instr::LdXInc(d) | Instr::LdXDec(d) => d != 26 && d != 27,
        Instr::LdYInc(d) | Instr::LdYDec(d) => d != 28 && d != 29,
        Instr::LdZInc(d) | Instr::LdZDec(d) => d != 30 && d != 31,
        Instr::StX(_) => is_in_memory(cpu.pair(POINTER_X).wrapping_add(0)),
        Instr::StXInc(r) => r != 26 && r != 27 && is_in_memory(cpu.pair(POINTER_X)),
        Instr::StXDec(r) => r != 26 && r != 27 && is_in_memory(cpu.pair(POINTER_X).wrapping_sub(1)),
        Instr::StdY(_, q) => is_in_memory(cpu.pair(POINTER_Y).wrapping_add(u16::from(q))),
        Instr::StYInc(r) => r != 28 && r != 29 && is_in_memory(cpu.pair(POINTER_Y)),
        Instr::StYDec(r) => r != 28 && r != 29 && is_in_memory(cpu.pair(POINTER_Y).wrapping_sub(1)),
        Instr::StdZ(_, q) => is_in_memory(cpu.pair(POINTER_Z).wrapping_add(u16::from(q))),
        Instr::StZInc(r) => r != 30 && r != 31 && is_in_memory(cpu.pair(POINTER_Z)),
        Instr::StZDec(r) => r != 30 && r != 31 && is_in_memory(cpu.pair(POINTER_Z).wrapping_sub(1)),
        Instr::Sts(_, k) => is_in_memory(k),
        Instr::Push(_) => is_in_memory(cpu.sp),
        Instr::Call(_) | Instr::Rcall(_) => {
            is_in_memory(cpu.sp) && is_in_memory(cpu.sp.wrapping_sub(1))
        }
        Instr::Cpse(_, _) | Instr::Sbrc(_, _) | Instr::Sbrs(_, _) => next,
        Instr::In(_, port) | Instr::Out(_, port) => port == 0x3D || port == 0x3E || port == 0x3F,
        Instr::Pop(_) | Instr::Ret | Instr::Brbs(_, _) | Instr::Brbc(_, _) => true,
        Instr::Rjmp(_) | Instr::Jmp(_) | Instr::Adiw(_, _) | Instr::Movw(_, _) => true,
        Instr::Add(_, _) => true,
        _ => false,
    }
}

#[tactic(auto, unfolding(avr_machine::specs::Step::fetched))]
fn decodes(flash: &Flash, address: u16) -> bool
    ensures { IsTrue result → IsOk (fetched flash.now address) }
{
    decode(
        flash.word(address),
        Some(flash.word(address.wrapping_add(1))),
    )
    .is_ok()
}

/// The instruction at an address, and its number of words.
#[tactic(auto, unfolding(avr_machine::specs::Step::fetched))]
fn fetch(flash: &Flash, address: u16) -> (Instr, u8)
    requires { IsOk (fetched flash.now address) }
    ensures { Fetches flash.now address result.0 result.1 }
{
    match decode(
        flash.word(address),
        Some(flash.word(address.wrapping_add(1))),
    ) {
        Ok(found) => found,
        Err(_) => unreachable!(),
    }
}

fn can_step(cpu: &Cpu, flash: &Flash) -> bool
    ensures { IsTrue result → CanStep flash.now cpu.now }
{
    if !decodes(flash, cpu.pc) {
        return false;
    }
    let (instruction, words) = fetch(flash, cpu.pc);
    let next = decodes(flash, cpu.pc.wrapping_add(u16::from(words)));
    can_run(&instruction, cpu, next)
}

fn check_rows(rt: &impl Abort, alloc: Global, rows: &[Row]) -> Result<(), Fail> {
    let mut flash = Flash::new(alloc)?;
    for (code, before, changes, pc) in rows {
        assert!(rt; code.len() < 4);
        flash.fill_bank(0, code);
        let mut cpu = Cpu::new(alloc)?;
        let mut want = Cpu::new(alloc)?;
        put(&mut cpu, before);
        put(&mut want, before);
        put(&mut want, changes);
        cpu.pc = 0x4000;
        assert!(rt; can_step(&cpu, &flash), "{code:?}");
        let stepped = cpu.step(&flash);
        let led = if *pc < 0xF000 {
            Stepped::Went
        } else {
            Stepped::AtEntry(*pc)
        };
        assert_eq!(rt; stepped, led, "{code:?}");
        assert_eq!(rt; cpu.pc, *pc, "{code:?}");
        assert_eq!(rt; cpu.sp, want.sp, "{code:?}");
        for address in 0..=RAM_END {
            assert_eq!(rt;
                cpu.rd(address),
                want.rd(address),
                "{code:?} at {address:x}"
            );
        }
    }
    Ok(())
}

#[test]
fn loads(rt: HostRuntime) -> Result<(), Fail> {
    check_rows(&rt, rt.alloc(), &LOADS)
}

#[test]
fn stores(rt: HostRuntime) -> Result<(), Fail> {
    check_rows(&rt, rt.alloc(), &STORES)
}

#[test]
fn flow(rt: HostRuntime) -> Result<(), Fail> {
    check_rows(&rt, rt.alloc(), &FLOW)
}

#[test]
fn words(rt: HostRuntime) -> Result<(), Fail> {
    check_rows(&rt, rt.alloc(), &WORDS)
}
