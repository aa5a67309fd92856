//! The units of a list of words.

use crate::unit::Unit;
use std::marker::Model;

/// The units, each unit's first word, and the unit number of each mark. It is seen as the record of the three lists.
#[derive(Drop)]
pub struct UnitList {
    pub units: Vec<Unit>,
    pub places: Vec<u16>,
    pub marks: Vec<u16>,
}

impl Model for UnitList {
    ghost use Rattle.unit_code.specs.Listing.{Listing};

    ghost Value = { Listing };

    ghost view = { λ l. record { units = l.units.items; places = l.places.items; marks = l.marks.items } };
}
