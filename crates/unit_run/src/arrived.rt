//! Where a run of words stands.

use domain_model::UnitEnd;

/// Where an instruction leads, with the row of the entry that it may have reached.
#[derive(Clone, Copy)]
pub enum Arrived {
    /// On at a program address.
    Going(u16),
    /// To the end of the unit: it is refused, or the handler is over.
    Stopped(UnitEnd),
}
