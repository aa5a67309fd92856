//! The part of the stack that belongs to the running domain.

/// The stack of the running domain. Its own bytes are those above `sp`, up to `bound`.
#[derive(Clone, Copy, PartialEq, Eq, Debug)]
pub struct Window {
    /// The stack pointer, which names the byte below the last one pushed.
    pub sp: u16,
    /// The stack pointer with which the running call began. It may not rise above.
    pub base: u16,
    /// The stack pointer with which the domain was entered. What is above belongs to the callers.
    pub bound: u16,
}
