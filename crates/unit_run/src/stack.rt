//! What units and entries do to the stack of the processor that the kernel lends.
ghost use Rattle.std.specs.Prelude.{◌≡◌, ◌≤◌, ◌+◌};
ghost use Rattle.mote_layout.specs.Memory.{ram_end, ram_start};
ghost use Rattle.avr_machine.specs.Effect.{popped, popping};
ghost use Rattle.domain_model.specs.State.{at_counter, with_processor, without_counter};
ghost use Rattle.domain_model.specs.Frames.{reserved};
ghost use Rattle.word_run.specs.Entries.{back_kernel, returned_from};

use avr_machine::Cpu;
use kernel_call::Kernel;

/// Pushes two bytes 0.
pub fn push_zeros(k: &mut Kernel)
    requires low { ram_start + 1 ≤ k.old.processor.sp }
    requires high { k.old.processor.sp ≤ ram_end }
    ensures { k.new ≡ with_processor k.old (reserved k.old.processor) }
{
    let cpu = k.cpu_mut();
    cpu.set_ram(cpu.sp, 0);
    cpu.set_ram(cpu.sp - 1, 0);
    cpu.sp -= 2;
}

/// Returns from the entry at an address of the page, as RET does, and tells where the call goes on.
pub fn return_from(k: &mut Kernel, entry: u16) -> u16
    ensures address { result ≡ (returned_from (at_counter k.old.processor entry)).pc }
    ensures kernel { k.new ≡ back_kernel k.old (at_counter k.old.processor entry) }
{
    let cpu = k.cpu_mut();
    cpu.pc = entry;
    pop_address(cpu)
}

/// Pops an address, its high byte first.
#[tactic(auto, unfolding(avr_machine::specs::Effect::writes))]
fn pop_address(cpu: &mut Cpu) -> u16
    ensures address { result ≡ (returned_from cpu.old).pc }
    ensures rest { without_counter cpu.new ≡ without_counter (returned_from cpu.old) }
{
    let high = pop(cpu);
    let low = pop(cpu);
    u16::from(high) * 256 + u16::from(low)
}

/// Pops a byte.
fn pop(cpu: &mut Cpu) -> u8
    ensures risen { cpu.new ≡ popping cpu.old }
    ensures byte { result ≡ popped cpu.old }
{
    cpu.sp = cpu.sp.wrapping_add(1);
    cpu.rd(cpu.sp)
}
