//! The entry page: the program addresses at which rewritten code enters the kernel.
//!
//! No word is kept there. A call of such an address is done by the kernel in place of a call.
//! The page is this project's own.

ghost use Rattle.std.specs.Prelude.{◌≡◌, ◌≤◌, ◌↔◌, None, Some, IfNone, IfSome};
ghost use Rattle.mote_layout.specs.Page.{StandsAt, IsInNoRow, entry_at, page_start, displacement_count, kernel_call_count, slot_count};

/// The first address of the page. No code of a module reaches it.
pub const PAGE_START: u16 = 0xF000;

/// The guard of a store to X.
pub const STORE_X_GUARD: u16 = 0xF000;

/// The guard of a store to X that raises X afterwards.
pub const STORE_X_INC_GUARD: u16 = 0xF001;

/// The guard of a store to X that lowers X first.
pub const STORE_X_DEC_GUARD: u16 = 0xF002;

/// The guard of a store to Y that raises Y afterwards.
pub const STORE_Y_INC_GUARD: u16 = 0xF003;

/// The guard of a store to Y that lowers Y first.
pub const STORE_Y_DEC_GUARD: u16 = 0xF004;

/// The guard of a store to Z that raises Z afterwards.
pub const STORE_Z_INC_GUARD: u16 = 0xF005;

/// The guard of a store to Z that lowers Z first.
pub const STORE_Z_DEC_GUARD: u16 = 0xF006;

/// The guard of a store to Y + 0. The guards of the other displacements follow it.
pub const STORE_Y_GUARDS: u16 = 0xF010;

/// The guard of a store to Z + 0. The guards of the other displacements follow it.
pub const STORE_Z_GUARDS: u16 = 0xF050;

/// How many displacements a store or load at Y + q or Z + q can have.
pub const DISPLACEMENTS: u16 = 64;

/// The guard of an STS. Its address is the word after the one at the return place.
pub const STORE_STS_GUARD: u16 = 0xF090;

/// The guard of a PUSH.
pub const PUSH_GUARD: u16 = 0xF091;

/// The guard of a POP.
pub const POP_GUARD: u16 = 0xF092;

/// The guard of a group that sets the stack pointer.
pub const SP_GUARD: u16 = 0xF093;

/// The entry of a call within the module.
pub const LOCAL_CALL_ENTRY: u16 = 0xF094;

/// The entry that stands for ICALL.
pub const SLOT_INDIRECT_ENTRY: u16 = 0xF095;

/// The entry that stands for RET. It is reached by JMP.
pub const RETURN_ENTRY: u16 = 0xF096;

/// The entry that makes room for two bytes on the stack.
pub const RESERVE_ENTRY: u16 = 0xF097;

/// The entry of kernel call 0. The other kernel calls follow it.
pub const KERNEL_ENTRIES: u16 = 0xF100;

/// How many kernel calls there are.
pub const KERNEL_CALLS: u16 = 12;

/// The entry of subscription slot 0. The other slots follow it.
pub const SLOT_ENTRIES: u16 = 0xF200;

/// How many subscription slots a module has.
pub const SLOTS: u16 = 16;

/// The guard of a load from Y + 0. The guards of the other displacements follow it.
pub const LOAD_Y_GUARDS: u16 = 0xF300;

/// The guard of a load from Z + 0. The guards of the other displacements follow it.
pub const LOAD_Z_GUARDS: u16 = 0xF340;

/// The guard of an LDS. Its address is the word after the one at the return place.
pub const LOAD_LDS_GUARD: u16 = 0xF380;

/// The guard of a load from X.
pub const LOAD_X_GUARD: u16 = 0xF381;

/// The guard of a load from X that raises X afterwards.
pub const LOAD_X_INC_GUARD: u16 = 0xF382;

/// The guard of a load from X that lowers X first.
pub const LOAD_X_DEC_GUARD: u16 = 0xF383;

/// The guard of a load from Y that raises Y afterwards.
pub const LOAD_Y_INC_GUARD: u16 = 0xF384;

/// The guard of a load from Y that lowers Y first.
pub const LOAD_Y_DEC_GUARD: u16 = 0xF385;

/// The guard of a load from Z that raises Z afterwards.
pub const LOAD_Z_INC_GUARD: u16 = 0xF386;

/// The guard of a load from Z that lowers Z first.
pub const LOAD_Z_DEC_GUARD: u16 = 0xF387;

const LAST_STORE_Y_GUARD: u16 = STORE_Y_GUARDS + DISPLACEMENTS - 1;

const LAST_STORE_Z_GUARD: u16 = STORE_Z_GUARDS + DISPLACEMENTS - 1;

const LAST_KERNEL_ENTRY: u16 = KERNEL_ENTRIES + KERNEL_CALLS - 1;

const LAST_SLOT_ENTRY: u16 = SLOT_ENTRIES + SLOTS - 1;

const LAST_LOAD_Y_GUARD: u16 = LOAD_Y_GUARDS + DISPLACEMENTS - 1;

const LAST_LOAD_Z_GUARD: u16 = LOAD_Z_GUARDS + DISPLACEMENTS - 1;

/// What stands at an address of the entry page.
#[derive(Clone, Copy, PartialEq, Eq, Debug)]
pub enum Entry {
    /// The guard of `ST X`.
    StoreX,
    /// The guard of `ST X+`.
    StoreXInc,
    /// The guard of `ST -X`.
    StoreXDec,
    /// The guard of `ST Y+`.
    StoreYInc,
    /// The guard of `ST -Y`.
    StoreYDec,
    /// The guard of `ST Z+`.
    StoreZInc,
    /// The guard of `ST -Z`.
    StoreZDec,
    /// The guard of `STD Y+q`, with the displacement q.
    StoreY(u8),
    /// The guard of `STD Z+q`, with the displacement q.
    StoreZ(u8),
    /// The guard of `STS`.
    StoreSts,
    /// The guard of `LD X`.
    LoadX,
    /// The guard of `LD X+`.
    LoadXInc,
    /// The guard of `LD -X`.
    LoadXDec,
    /// The guard of `LD Y+`.
    LoadYInc,
    /// The guard of `LD -Y`.
    LoadYDec,
    /// The guard of `LD Z+`.
    LoadZInc,
    /// The guard of `LD -Z`.
    LoadZDec,
    /// The guard of `LDD Y+q`, with the displacement q.
    LoadY(u8),
    /// The guard of `LDD Z+q`, with the displacement q.
    LoadZ(u8),
    /// The guard of `LDS`.
    LoadLds,
    /// The guard of `PUSH`.
    PushGuard,
    /// The guard of `POP`.
    PopGuard,
    /// The guard of a group that sets the stack pointer.
    SpGuard,
    /// A call within the module.
    LocalCall,
    /// A call of the slot that Z names.
    SlotIndirect,
    /// The return from a call, or the end of the handler.
    Return,
    /// Room for two bytes on the stack.
    Reserve,
    /// The kernel call with this number.
    Kernel(u8),
    /// A call of the subscription slot with this number.
    Slot(u8),
}

/// The entry at a program address, or None where nothing stands there.
pub fn entry_of(address: u16) -> Option<Entry>
    ensures entry { (e : Entry) → (result ≡ Some e) ↔ StandsAt e address }
    ensures none { (result ≡ None) ↔ IsInNoRow address }
    ensures value { result ≡ entry_at address }
{
    row_of(address)
}

fn row_of(address: u16) -> Option<Entry>
    ensures standing { IfSome result (λ e. StandsAt e address) }
    ensures empty { IfNone result (IsInNoRow address) }
{
    match address {
        STORE_X_GUARD => Some(Entry::StoreX),
        STORE_X_INC_GUARD => Some(Entry::StoreXInc),
        STORE_X_DEC_GUARD => Some(Entry::StoreXDec),
        STORE_Y_INC_GUARD => Some(Entry::StoreYInc),
        STORE_Y_DEC_GUARD => Some(Entry::StoreYDec),
        STORE_Z_INC_GUARD => Some(Entry::StoreZInc),
        STORE_Z_DEC_GUARD => Some(Entry::StoreZDec),
        STORE_Y_GUARDS..=LAST_STORE_Y_GUARD => {
            Some(Entry::StoreY((address - STORE_Y_GUARDS) as u8))
        }
        STORE_Z_GUARDS..=LAST_STORE_Z_GUARD => {
            Some(Entry::StoreZ((address - STORE_Z_GUARDS) as u8))
        }
        STORE_STS_GUARD => Some(Entry::StoreSts),
        PUSH_GUARD => Some(Entry::PushGuard),
        POP_GUARD => Some(Entry::PopGuard),
        SP_GUARD => Some(Entry::SpGuard),
        LOCAL_CALL_ENTRY => Some(Entry::LocalCall),
        SLOT_INDIRECT_ENTRY => Some(Entry::SlotIndirect),
        RETURN_ENTRY => Some(Entry::Return),
        RESERVE_ENTRY => Some(Entry::Reserve),
        KERNEL_ENTRIES..=LAST_KERNEL_ENTRY => {
            Some(Entry::Kernel((address - KERNEL_ENTRIES) as u8))
        }
        SLOT_ENTRIES..=LAST_SLOT_ENTRY => Some(Entry::Slot((address - SLOT_ENTRIES) as u8)),
        LOAD_Y_GUARDS..=LOAD_Z_DEC_GUARD => Some(load_guard(address)),
        _ => None,
    }
}

/// The guard of a load, all of which stand side by side.
fn load_guard(address: u16) -> Entry
    requires from { LOAD_Y_GUARDS ≤ address }
    requires to { address ≤ LOAD_Z_DEC_GUARD }
    ensures { StandsAt result address }
{
    match address {
        LOAD_Y_GUARDS..=LAST_LOAD_Y_GUARD => Entry::LoadY((address - LOAD_Y_GUARDS) as u8),
        LOAD_Z_GUARDS..=LAST_LOAD_Z_GUARD => Entry::LoadZ((address - LOAD_Z_GUARDS) as u8),
        LOAD_LDS_GUARD => Entry::LoadLds,
        LOAD_X_GUARD => Entry::LoadX,
        LOAD_X_INC_GUARD => Entry::LoadXInc,
        LOAD_X_DEC_GUARD => Entry::LoadXDec,
        LOAD_Y_INC_GUARD => Entry::LoadYInc,
        LOAD_Y_DEC_GUARD => Entry::LoadYDec,
        LOAD_Z_INC_GUARD => Entry::LoadZInc,
        LOAD_Z_DEC_GUARD => Entry::LoadZDec,
        _ => unreachable!(),
    }
}

/// Law: each entry stands at the address that its constant says, and there are as many of each kind as
/// the constants say.
pub fn page_is_as_defined()
    ensures start { PAGE_START ≡ page_start }

    // The guards of stores.
    ensures stores_to_x { StandsAt Entry.StoreX STORE_X_GUARD × StandsAt Entry.StoreXInc STORE_X_INC_GUARD
        × StandsAt Entry.StoreXDec STORE_X_DEC_GUARD }
    ensures stores_to_y { StandsAt Entry.StoreYInc STORE_Y_INC_GUARD × StandsAt Entry.StoreYDec STORE_Y_DEC_GUARD
        × StandsAt (Entry.StoreY 0) STORE_Y_GUARDS }
    ensures stores_to_z { StandsAt Entry.StoreZInc STORE_Z_INC_GUARD × StandsAt Entry.StoreZDec STORE_Z_DEC_GUARD
        × StandsAt (Entry.StoreZ 0) STORE_Z_GUARDS }
    ensures displacements { DISPLACEMENTS ≡ displacement_count }
    ensures stores_to_words { StandsAt Entry.StoreSts STORE_STS_GUARD }

    // The guards of loads, which have the displacements of stores.
    ensures loads_from_x { StandsAt Entry.LoadX LOAD_X_GUARD × StandsAt Entry.LoadXInc LOAD_X_INC_GUARD
        × StandsAt Entry.LoadXDec LOAD_X_DEC_GUARD }
    ensures loads_from_y { StandsAt Entry.LoadYInc LOAD_Y_INC_GUARD × StandsAt Entry.LoadYDec LOAD_Y_DEC_GUARD
        × StandsAt (Entry.LoadY 0) LOAD_Y_GUARDS }
    ensures loads_from_z { StandsAt Entry.LoadZInc LOAD_Z_INC_GUARD × StandsAt Entry.LoadZDec LOAD_Z_DEC_GUARD
        × StandsAt (Entry.LoadZ 0) LOAD_Z_GUARDS }
    ensures loads_from_words { StandsAt Entry.LoadLds LOAD_LDS_GUARD }

    // The guards of the stack.
    ensures stack { StandsAt Entry.PushGuard PUSH_GUARD × StandsAt Entry.PopGuard POP_GUARD
        × StandsAt Entry.SpGuard SP_GUARD × StandsAt Entry.Reserve RESERVE_ENTRY }

    // Calls and the return.
    ensures calls { StandsAt Entry.LocalCall LOCAL_CALL_ENTRY × StandsAt Entry.SlotIndirect SLOT_INDIRECT_ENTRY
        × StandsAt Entry.Return RETURN_ENTRY }
    ensures kernel_calls { StandsAt (Entry.Kernel 0) KERNEL_ENTRIES × (KERNEL_CALLS ≡ kernel_call_count) }
    ensures slots { StandsAt (Entry.Slot 0) SLOT_ENTRIES × (SLOTS ≡ slot_count) }
{}
