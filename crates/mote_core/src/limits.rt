//! How much a run may do.

/// How many units may run.
#[derive(Clone, Copy, Debug, PartialEq, Eq)]
pub struct Limits {
    /// In the whole run, 1 to 1,000,000,000.
    pub units: u64,
    /// In one handler, 1 to 1,000,000.
    pub handler: u64,
}
