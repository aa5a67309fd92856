//! A module that is in: its domain and what it shows to others.

ghost use Rattle.std.specs.Prelude.{◌≡◌, ◌<◌, length, slice_get, IfSome};
ghost use Rattle.module_image.specs.Links.{place_of, serves};

use module_image::{Face, Provided, Subscribed};
use std::marker::Model;

/// A module that is in.
#[derive(Drop)]
pub struct Seat {
    domain: u8,
    face: Face,
}

impl Model for Seat {
    ghost use Rattle.module_image.specs.Links.{Seat as Seated};

    ghost Value = { Seated };

    ghost view = { λ s. record { domain = s.domain; face = s.face } };
}

impl Seat {
    /// The seat of a module with this face.
    pub fn new(domain: u8, face: &Face) -> Seat
        ensures { result ≡ record { domain = domain; face = face.now } }
    {
        Seat {
            domain,
            face: face.copied(),
        }
    }

    /// The domain that the module is in.
    pub fn domain(&self) -> u8
        ensures { result ≡ self.now.domain }
    {
        self.domain
    }

    /// The module's id.
    pub fn id(&self) -> u8
        ensures { result ≡ self.now.face.id }
    {
        self.face.id
    }

    /// The subscription of a slot, where the module has one.
    pub fn subscribed(&self, slot: usize) -> Option<Subscribed>
        ensures { result ≡ slice_get self.now.face.subscribed.items slot }
    {
        self.face.subscribed.get(slot).copied()
    }

    /// The place of the first provided function that serves a subscription.
    pub fn place_of(&self, subscribed: &Subscribed) -> Option<u8>
        ensures { result ≡ place_of subscribed.now self.now.face.provided.items }
    {
        let place = place_of(subscribed, self.face.provided.as_slice())?;
        Some(place as u8)
    }
}

fn place_of(subscribed: &Subscribed, provided: &[Provided]) -> Option<usize>
    ensures place { result ≡ place_of subscribed.now provided.now }
    ensures within { IfSome result (λ place. place < length provided.now) }
{
    provided.iter().position(|p| serves(subscribed, p))
}

/// Whether a provided function has the function id and the prototype of a subscription.
fn serves(subscribed: &Subscribed, provided: &Provided) -> bool
    ensures { result ≡ serves subscribed.now provided.now }
{
    provided.func == subscribed.func && provided.proto == subscribed.proto
}
