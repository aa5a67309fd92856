//! Where the blocks of a module stand.

/// Where a module's two blocks begin, 0 for one that it doesn't ask for.
#[derive(Clone, Copy, Debug, PartialEq, Eq)]
pub struct Place {
    /// The block of its state, which is its domain's.
    pub state: u16,
    /// The block of its constants, which is the kernel's.
    pub constants: u16,
}
