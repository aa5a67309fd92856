//! Why a handler is stopped.

/// The need of a unit that was not met, or the watchdog.
#[derive(Clone, Copy, Debug, PartialEq, Eq)]
pub enum Rule {
    /// A store to an address that is not the domain's.
    Store,
    /// A load of a sealed module from an address that it may not read.
    Load,
    /// The stack would pass its floor.
    StackOver,
    /// The stack would pass the base of the running domain.
    StackUnder,
    /// Too many frames.
    Depth,
    /// A return with the stack pointer off its base.
    Balance,
    /// The handler ran as many units as one handler may.
    Watchdog,
    /// A kernel call with a block that is not the caller's.
    Owner,
    /// An indirect call of no slot.
    Target,
}

/// A fault and its address.
#[derive(Clone, Copy, Debug, PartialEq, Eq)]
pub struct FaultNote {
    pub rule: Rule,
    /// The refused address of a store or a load; the stack pointer that a group wants; the block's address that isn't
    /// the caller's; Z for an indirect call of no slot; and the stack pointer for all others.
    pub address: u16,
}

/// How a kernel call came back.
#[derive(Clone, Copy, Debug, PartialEq, Eq)]
pub enum Served {
    /// The handler goes on.
    Back,
    /// The call was refused, and changed nothing.
    Fault(FaultNote),
}

/// How a unit ended.
#[derive(Clone, Copy, Debug, PartialEq, Eq)]
pub enum UnitEnd {
    /// The handler goes on.
    On,
    /// The handler returned.
    Over,
    /// The unit was refused.
    Fault(FaultNote),
}
