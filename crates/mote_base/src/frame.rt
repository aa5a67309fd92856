//! What a call leaves behind.

/// How many frames the safe stack holds.
pub const FRAMES: usize = 32;

/// Where a call comes back to, and what the caller may write from then on.
///
/// After Harbor (Kumar et al., IPSN 2007): return addresses are kept apart from the run-time stack.
#[derive(Clone, Copy, Debug, Default, PartialEq, Eq)]
pub struct Frame {
    /// The domain of the caller.
    pub domain: u8,
    /// The number of the unit at which the caller goes on.
    pub back: u16,
    /// The stack pointer at which the caller returns in its turn.
    pub base: u16,
    /// The last address of the stack that the caller may write.
    pub bound: u16,
    /// Whether the call went into a domain by one of its entries, and not to a function of the caller's own.
    pub cross: bool,
}
