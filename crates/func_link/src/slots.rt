//! What the slots of the modules that are in lead to.

ghost use Rattle.std.specs.Prelude.{◌≡◌, ℕ, None, get_or};
ghost use Rattle.std.specs.Option.{option_copied};
ghost use Rattle.module_image.specs.Links.{bound_slot, seat_in, seat_of};
ghost use Rattle.func_link.specs.Links.{AreSeats};

use crate::seat::Seat;
use mote_layout::{DOMAINS, SUBSCRIBED};

/// How many domains have a row.
const ROWS: usize = DOMAINS as usize;

/// What each slot of one module leads to, where None is an unbound slot.
type Row = [Option<(u8, u8)>; SUBSCRIBED];

/// What each slot of each domain leads to.
#[derive(Drop)]
pub struct Slots {
    rows: [Row; ROWS],
}

impl Slots {
    ghost use Rattle.func_link.specs.Slots.{AreSlots, slot_at};

    /// The slots of these modules.
    pub fn of(seats: &[Seat]) -> Slots
        requires { AreSeats seats.now }
        ensures { AreSlots seats.now result }
    {
        let mut rows = [[None; SUBSCRIBED]; ROWS];
        for domain in 0..DOMAINS {
            rows[usize::from(domain)] = row_of(seats, domain);
        }
        Slots { rows }
    }

    /// What a slot of a domain leads to.
    pub fn at(&self, domain: u8, slot: u8) -> Option<(u8, u8)>
        ensures { result ≡ slot_at self.now domain slot }
    {
        *self.rows.get(usize::from(domain))?.get(usize::from(slot))?
    }
}

/// What the slots of the module in a domain lead to.
fn row_of(seats: &[Seat], domain: u8) -> Row
    requires { AreSeats seats.now }
    ensures { (i : ℕ) → get_or result i None ≡ bound_slot seats.now domain i }
{
    let mut row = [None; SUBSCRIBED];
    for slot in 0..SUBSCRIBED {
        row[slot] = bound_slot(seats, domain, slot);
    }
    row
}

/// What one slot of the module in a domain leads to.
fn bound_slot(seats: &[Seat], domain: u8, slot: usize) -> Option<(u8, u8)>
    ensures { result ≡ bound_slot seats.now domain slot }
{
    let subscribed = seat_in(seats, domain)?.subscribed(slot)?;
    let provider = seat_of(seats, subscribed.module)?;
    let place = provider.place_of(&subscribed)?;
    Some((provider.domain(), place))
}

/// The module in a domain.
fn seat_in(seats: &[Seat], domain: u8) -> Option<&Seat>
    ensures { option_copied result ≡ seat_in domain seats.now }
{
    seats.iter().find(|seat| seat.domain() == domain)
}

/// The module of an id.
fn seat_of(seats: &[Seat], id: u8) -> Option<&Seat>
    ensures { option_copied result ≡ seat_of id seats.now }
{
    seats.iter().find(|seat| seat.id() == id)
}
