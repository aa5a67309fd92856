//! What units look at: the address of a store or a load, and whether a skip passes and a branch is taken.
ghost use Rattle.std.specs.Prelude.{◌≡◌, ◌<◌};
ghost use Rattle.avr_isa.specs.Operands.{IsBit, IsEncodable};
ghost use Rattle.avr_machine.specs.Conditions.{IsSkip};
ghost use Rattle.domain_model.specs.State.{without_counter};
ghost use Rattle.domain_model.specs.Act.{load_address, passes, store_address, taken};

use avr_alu::is_set;
use avr_isa::Instr;
use avr_machine::Cpu;
use mote_layout::{POINTER_X, POINTER_Y, POINTER_Z};

/// The address that a store writes: a pointer as it stands, the same less one, the address behind one, or its word.
#[tactic(auto, using(crate::proofs::Addresses::stores), unfolding(avr_machine::specs::Modes::store_address))]
pub fn store_address(cpu: &Cpu, store: &Instr) -> u16
    requires { IsEncodable store.now }
    ensures { result ≡ store_address store.now (without_counter cpu.now) }
{
    match *store {
        Instr::StX(_) | Instr::StXInc(_) => cpu.pair(POINTER_X),
        Instr::StXDec(_) => cpu.pair(POINTER_X).wrapping_sub(1),
        Instr::StdY(_, q) => cpu.pair(POINTER_Y).wrapping_add(u16::from(q)),
        Instr::StYInc(_) => cpu.pair(POINTER_Y),
        Instr::StYDec(_) => cpu.pair(POINTER_Y).wrapping_sub(1),
        Instr::StdZ(_, q) => cpu.pair(POINTER_Z).wrapping_add(u16::from(q)),
        Instr::StZInc(_) => cpu.pair(POINTER_Z),
        Instr::StZDec(_) => cpu.pair(POINTER_Z).wrapping_sub(1),
        Instr::Sts(_, address) => address,
        _ => 0,
    }
}

/// The address that a load reads, by the same modes.
#[tactic(auto, using(crate::proofs::Addresses::loads), unfolding(avr_machine::specs::Modes::load_address))]
pub fn load_address(cpu: &Cpu, load: &Instr) -> u16
    requires { IsEncodable load.now }
    ensures { result ≡ load_address load.now (without_counter cpu.now) }
{
    match *load {
        Instr::LdX(_) | Instr::LdXInc(_) => cpu.pair(POINTER_X),
        Instr::LdXDec(_) => cpu.pair(POINTER_X).wrapping_sub(1),
        Instr::LddY(_, q) => cpu.pair(POINTER_Y).wrapping_add(u16::from(q)),
        Instr::LdYInc(_) => cpu.pair(POINTER_Y),
        Instr::LdYDec(_) => cpu.pair(POINTER_Y).wrapping_sub(1),
        Instr::LddZ(_, q) => cpu.pair(POINTER_Z).wrapping_add(u16::from(q)),
        Instr::LdZInc(_) => cpu.pair(POINTER_Z),
        Instr::LdZDec(_) => cpu.pair(POINTER_Z).wrapping_sub(1),
        Instr::Lds(_, address) => address,
        _ => 0,
    }
}

/// Whether a skip passes over the next unit.
#[tactic(auto, unfolding(avr_machine::specs::Conditions::IsSkip, avr_isa::specs::Operands::IsEncodable))]
pub fn passes(cpu: &Cpu, skip: &Instr) -> bool
    requires skip { IsSkip skip.now }
    requires operands { IsEncodable skip.now }
    ensures { result ≡ passes skip.now (without_counter cpu.now) }
{
    match *skip {
        Instr::Cpse(d, r) => cpu.register(d) == cpu.register(r),
        Instr::Sbrc(r, bit) => !is_set(cpu.register(r), bit),
        Instr::Sbrs(r, bit) => is_set(cpu.register(r), bit),
        _ => unreachable!(),
    }
}

/// Whether a branch is taken: its bit of SREG is as it wants.
pub fn is_taken(cpu: &Cpu, set: bool, bit: u8) -> bool
    requires { IsBit bit }
    ensures { result ≡ taken set bit (without_counter cpu.now) }
{
    let on = is_set(cpu.sreg, bit);
    if set { on } else { !on }
}
