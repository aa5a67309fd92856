//! A run of blocks with one owner.

/// A run of neighbouring blocks that one owner holds. Its owner is a domain or the kernel.
#[derive(Clone, Copy, PartialEq, Eq, Debug, Default)]
pub struct Segment {
    /// The number of its first block.
    pub first: u16,
    /// How many blocks it has.
    pub count: u16,
    /// The domain that holds it, or the kernel.
    pub owner: u8,
}
