//! Callers that know by the contracts alone what they read back.
ghost use Rattle.std.specs.Prelude.{◌≡◌, ◌≢◌, ◌+◌, ◌<◌, ◌≤◌, length, slice_index};
ghost use Rattle.mote_layout.specs.Memory.{ram_end, ram_start, register_count};
ghost use Rattle.avr_machine.specs.DataRead.{IsInMemory, data_read};

use avr_machine::Cpu;
use std::test::Fail;

/// A byte that is stored is read back.
fn store_and_load(cpu: &mut Cpu, a: u16, v: u8) -> u8
    requires { IsInMemory a }
    ensures { result ≡ v }
{
    cpu.set_ram(a, v);
    cpu.rd(a)
}

/// Another byte is still there.
fn store_beside(cpu: &mut Cpu, a: u16, b: u16, v: u8) -> u8
    requires inside { IsInMemory a }
    requires apart { b ≢ a }
    ensures { result ≡ data_read cpu.old b }
{
    cpu.set_ram(a, v);
    cpu.rd(b)
}

/// A word in a pair is read back.
fn pair_and_back(cpu: &mut Cpu, d: u8, word: u16) -> u16
    requires { d + 1 < register_count }
    ensures { result ≡ word }
{
    cpu.set_pair(d, word);
    cpu.pair(d)
}

/// The second of the bytes that are put is read back.
fn put_and_load(cpu: &mut Cpu, a: u16, bytes: &[u8]) -> u8
    requires start { ram_start ≤ a }
    requires end { a + length bytes.now ≤ ram_end + 1 }
    requires two { 1 < length bytes.now }
    ensures { result ≡ slice_index bytes.now 1 }
{
    cpu.put(a, bytes);
    cpu.rd(a + 1)
}

/// A byte that is cleared reads as 0.
fn clear_and_load(cpu: &mut Cpu, a: u16) -> u8
    requires { IsInMemory a }
    ensures { result ≡ 0 }
{
    cpu.clear(a, 1);
    cpu.rd(a)
}

#[test]
fn what_is_stored_is_read_back(rt: HostRuntime) -> Result<(), Fail> {
    let mut cpu = Cpu::new(rt.alloc())?;
    assert_eq!(rt; store_and_load(&mut cpu, 0x0100, 7), 7);
    assert_eq!(rt; store_and_load(&mut cpu, 0x10FF, 9), 9);
    assert_eq!(rt; store_beside(&mut cpu, 0x0101, 0x0100, 1), 7);
    assert_eq!(rt; pair_and_back(&mut cpu, 30, 0xABCD), 0xABCD);
    assert_eq!(rt; put_and_load(&mut cpu, 0x10FE, &[1, 2]), 2);
    assert_eq!(rt; cpu.rd(0x10FE), 1);
    assert_eq!(rt; clear_and_load(&mut cpu, 0x10FF), 0);
    assert_eq!(rt; cpu.rd(0x10FE), 1);
    Ok(())
}
