//! The links of all modules.

ghost use Rattle.std.specs.Prelude.{◌≡◌, ◌<◌, [], ◌∷◌, ◌++◌, None, IfOk};
ghost use Rattle.module_image.specs.Contents.{FaceRules};
ghost use Rattle.module_image.specs.Links.{bound_slot, seat_in, seat_of};
ghost use Rattle.func_link.specs.Links.{AreSeats, without};

use crate::seat::Seat;
use crate::slots::Slots;
use module_image::Face;
use mote_base::NoMemory;
use mote_layout::DOMAINS;
use std::alloc::Global;
use std::marker::Model;

/// The modules that are in, and what each slot of them leads to.
#[derive(Drop)]
pub struct Links {
    seats: Vec<Seat>,
    slots: Slots,
}

impl Model for Links {
    ghost use Rattle.std.specs.Prelude.{List, ◌≤◌};
    ghost use Rattle.std.specs.Vec.{vec_capacity};
    ghost use Rattle.mote_layout.specs.Memory.{domain_count};
    ghost use Rattle.module_image.specs.Links.{Seat};
    ghost use Rattle.func_link.specs.Links.{AreSeats};
    ghost use Rattle.func_link.specs.Slots.{AreSlots};

    ghost Value = { List Seat };

    ghost view = { λ l. l.seats.items };

    ghost invariant = { λ l. AreSeats l.seats.items × AreSlots l.seats.items l.slots
        × (domain_count ≤ vec_capacity l.seats) };
}

impl Links {
    /// No module is in. All memory that the links ever need is taken here.
    pub fn new(alloc: Global) -> Result<Links, NoMemory>
        ensures { IfOk result (λ links. links ≡ []) }
    {
        let seats = Vec::with_capacity(alloc, usize::from(DOMAINS))?;
        let slots = Slots::of(&seats);
        Ok(Links { seats, slots })
    }

    /// Puts a module into a domain. Every slot that it serves is bound to it, also of modules that came before it.
    pub fn module_in(&mut self, d: u8, face: &Face)
        requires domain { d < DOMAINS }
        requires free { seat_in d self.old ≡ None }
        requires face { FaceRules face.now }
        requires id { seat_of face.now.id self.old ≡ None }
        ensures seats { self.new ≡ self.old ++ record { domain = d; face = face.now } ∷ [] }
        ensures rules { AreSeats self.old × AreSeats self.new }
    {
        self.seats.push(Seat::new(d, face)).unwrap();
        self.slots = Slots::of(&self.seats);
    }

    /// Takes the module in a domain out, if there is one. No slot is bound to it any more.
    pub fn module_out(&mut self, d: u8)
        ensures seats { self.new ≡ without d self.old }
        ensures rules { AreSeats self.old × AreSeats self.new }
    {
        self.seats.retain(|seat| seat.domain() != d);
        let staying = &self.seats;
        self.slots = Slots::of(staying);
    }

    /// What slot `i` of the module in domain `d` leads to: the provider's domain, and the place in its provided list.
    pub fn bound(&self, d: u8, i: u8) -> Option<(u8, u8)>
        ensures slot { result ≡ bound_slot self.now d i }
        ensures rules { AreSeats self.now }
    {
        self.slots.at(d, i)
    }
}
