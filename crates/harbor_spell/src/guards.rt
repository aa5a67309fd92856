//! The entries of the kernel that templates call.

ghost use Rattle.std.specs.Prelude.{◌≡◌};
ghost use Rattle.unit_code.specs.Templates.{address_of, guard_of};
ghost use Rattle.harbor_spell.specs.Placed.{IsLoadGuard};

use avr_isa::Instr;
use mote_layout::{
    Entry, KERNEL_ENTRIES, LOAD_LDS_GUARD, LOAD_X_DEC_GUARD, LOAD_X_GUARD, LOAD_X_INC_GUARD,
    LOAD_Y_DEC_GUARD, LOAD_Y_GUARDS, LOAD_Y_INC_GUARD, LOAD_Z_DEC_GUARD, LOAD_Z_GUARDS,
    LOAD_Z_INC_GUARD, LOCAL_CALL_ENTRY, POP_GUARD, PUSH_GUARD, RESERVE_ENTRY, RETURN_ENTRY,
    SLOT_ENTRIES, SLOT_INDIRECT_ENTRY, SP_GUARD, STORE_STS_GUARD, STORE_X_DEC_GUARD, STORE_X_GUARD,
    STORE_X_INC_GUARD, STORE_Y_DEC_GUARD, STORE_Y_GUARDS, STORE_Y_INC_GUARD, STORE_Z_DEC_GUARD,
    STORE_Z_GUARDS, STORE_Z_INC_GUARD,
};

/// The entry that guards a store or a load. Of other instructions nothing is meant.
pub fn guard_of(instruction: &Instr) -> Entry
    ensures { result ≡ guard_of instruction.now }
{
    match *instruction {
        Instr::StX(_) => Entry::StoreX,
        Instr::StXInc(_) => Entry::StoreXInc,
        Instr::StXDec(_) => Entry::StoreXDec,
        Instr::StYInc(_) => Entry::StoreYInc,
        Instr::StYDec(_) => Entry::StoreYDec,
        Instr::StZInc(_) => Entry::StoreZInc,
        Instr::StZDec(_) => Entry::StoreZDec,
        Instr::StdY(_, q) => Entry::StoreY(q),
        Instr::StdZ(_, q) => Entry::StoreZ(q),
        Instr::Sts(_, _) => Entry::StoreSts,
        Instr::LdX(_) => Entry::LoadX,
        Instr::LdXInc(_) => Entry::LoadXInc,
        Instr::LdXDec(_) => Entry::LoadXDec,
        Instr::LdYInc(_) => Entry::LoadYInc,
        Instr::LdYDec(_) => Entry::LoadYDec,
        Instr::LdZInc(_) => Entry::LoadZInc,
        Instr::LdZDec(_) => Entry::LoadZDec,
        Instr::LddY(_, q) => Entry::LoadY(q),
        Instr::LddZ(_, q) => Entry::LoadZ(q),
        Instr::Lds(_, _) => Entry::LoadLds,
        _ => Entry::SpGuard,
    }
}

/// The program address of an entry.
pub fn address_of(entry: Entry) -> u16
    ensures { result ≡ address_of entry }
{
    match entry {
        Entry::StoreX => STORE_X_GUARD,
        Entry::StoreXInc => STORE_X_INC_GUARD,
        Entry::StoreXDec => STORE_X_DEC_GUARD,
        Entry::StoreYInc => STORE_Y_INC_GUARD,
        Entry::StoreYDec => STORE_Y_DEC_GUARD,
        Entry::StoreZInc => STORE_Z_INC_GUARD,
        Entry::StoreZDec => STORE_Z_DEC_GUARD,
        Entry::StoreY(q) => STORE_Y_GUARDS + u16::from(q),
        Entry::StoreZ(q) => STORE_Z_GUARDS + u16::from(q),
        Entry::StoreSts => STORE_STS_GUARD,
        Entry::PushGuard => PUSH_GUARD,
        Entry::PopGuard => POP_GUARD,
        Entry::SpGuard => SP_GUARD,
        Entry::LocalCall => LOCAL_CALL_ENTRY,
        Entry::SlotIndirect => SLOT_INDIRECT_ENTRY,
        Entry::Return => RETURN_ENTRY,
        Entry::Reserve => RESERVE_ENTRY,
        Entry::Kernel(call) => KERNEL_ENTRIES + u16::from(call),
        Entry::Slot(slot) => SLOT_ENTRIES + u16::from(slot),
        _ => load_address(entry),
    }
}

/// The program address of the guard of a load.
fn load_address(entry: Entry) -> u16
    requires { IsLoadGuard entry }
    ensures { result ≡ address_of entry }
{
    match entry {
        Entry::LoadX => LOAD_X_GUARD,
        Entry::LoadXInc => LOAD_X_INC_GUARD,
        Entry::LoadXDec => LOAD_X_DEC_GUARD,
        Entry::LoadYInc => LOAD_Y_INC_GUARD,
        Entry::LoadYDec => LOAD_Y_DEC_GUARD,
        Entry::LoadZInc => LOAD_Z_INC_GUARD,
        Entry::LoadZDec => LOAD_Z_DEC_GUARD,
        Entry::LoadY(q) => LOAD_Y_GUARDS + u16::from(q),
        Entry::LoadZ(q) => LOAD_Z_GUARDS + u16::from(q),
        _ => LOAD_LDS_GUARD,
    }
}
