//! What a module asks to be reminded of.

/// How many timers run at a time.
pub const TIMERS: usize = 16;

/// A timer of a module.
#[derive(Clone, Copy, Debug, Default, PartialEq, Eq)]
pub struct Timer {
    /// The id of the module that it reminds.
    pub module: u8,
    /// The number by which that module tells its timers apart.
    pub id: u8,
    /// The clock at which it fires.
    pub due: u64,
    /// How long after its start it fires.
    pub ticks: u16,
    /// Whether it starts anew when it fires.
    pub again: bool,
}
