//! What a running handler has: its domain with the stack that is its own.

/// The domain that runs. A store is permitted from above the stack pointer up to the bound.
#[derive(Clone, Copy, Debug, PartialEq, Eq)]
pub struct Running {
    pub domain: u8,
    /// The stack pointer at the domain's entry, to which it has to come back.
    pub base: u16,
    /// The last address of the stack that the domain may write.
    pub bound: u16,
}
