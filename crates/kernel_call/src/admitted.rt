//! What becomes of a module that asks to come in.

/// The domain of a module that came in, or why it did not: the first of these that holds.
#[derive(Clone, Copy, Debug, PartialEq, Eq)]
pub enum Admitted {
    /// It is in this domain.
    Placed(u8),
    /// A module with its id is loaded.
    Duplicate,
    /// No domain is free.
    Domain,
    /// No run of free blocks is long enough for its state.
    Room,
}
