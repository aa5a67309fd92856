//! The code of a flash bank.

use crate::unit::Unit;
use std::marker::Model;

/// Rewritten words, the units that they spell, and the word at which each unit's template starts. It is seen as
/// the record of the three lists.
#[derive(Drop)]
pub struct BankCode {
    pub units: Vec<Unit>,
    pub words: Vec<u16>,
    pub starts: Vec<u16>,
}

impl Model for BankCode {
    ghost use Rattle.unit_code.specs.Listing.{BankListing};

    ghost Value = { BankListing };

    ghost view = { λ b. record { units = b.units.items; words = b.words.items; starts = b.starts.items } };
}
