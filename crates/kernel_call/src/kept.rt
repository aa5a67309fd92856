//! The parcels of the modules' constants.
ghost use Rattle.std.specs.Prelude.{◌≡◌, ◌<◌, IfOk, None, Some, length, slice_set};
ghost use Rattle.mote_layout.specs.Memory.{domain_count};
ghost use Rattle.domain_model.specs.State.{payload_address};
ghost use Rattle.kernel_call.specs.Mail.{kept_for, none_kept};

use mote_base::NoMemory;
use mote_layout::DOMAINS;
use sos_heap::Parcel;
use std::alloc::Global;
use std::marker::Model;

/// A place for each domain, with the parcel of the constants of the module in it.
#[derive(Drop)]
pub struct Kept {
    places: Vec<Option<Parcel>>,
}

impl Model for Kept {
    ghost use Rattle.std.specs.Prelude.{◌≡◌, List, Option, length};
    ghost use Rattle.mote_layout.specs.Memory.{domain_count};
    ghost use Rattle.mote_layout.specs.Parcels.{Payload};

    ghost Value = { List (Option Payload) };

    ghost view = { λ k. k.places.items };

    ghost invariant = { λ k. length k.places.items ≡ domain_count };
}

impl Kept {
    /// Nothing is kept. No later call takes memory.
    pub fn new(alloc: Global) -> Result<Kept, NoMemory>
        ensures { IfOk result (λ k. k ≡ none_kept) }
    {
        let mut places = Vec::with_capacity(alloc, usize::from(DOMAINS))?;
        for _domain in 0..DOMAINS {
            places.push(None)?;
        }
        Ok(Kept { places })
    }

    /// There is a place for each domain.
    pub fn known(&self)
        ensures { length self.now ≡ domain_count }
    {
        let _places = &self.places;
    }

    /// Where the block begins that is kept for a domain, or 0.
    pub fn address(&self, domain: u8) -> u16
        ensures { result ≡ payload_address (kept_for self.now domain) }
    {
        match self.places.get(usize::from(domain)) {
            Some(Some(parcel)) => parcel.addr(),
            _ => 0,
        }
    }

    /// Keeps a parcel for a domain that has none.
    pub fn keep(&mut self, domain: u8, parcel: Parcel)
        requires domain { domain < domain_count }
        requires free { kept_for self.old domain ≡ None }
        ensures { self.new ≡ slice_set self.old domain (Some parcel) }
    {
        self.places[usize::from(domain)] = Some(parcel);
    }

    /// Hands out what is kept for a domain.
    pub fn hand_out(&mut self, domain: u8) -> Option<Parcel>
        requires { domain < domain_count }
        ensures parcel { result ≡ kept_for self.old domain }
        ensures rest { self.new ≡ slice_set self.old domain None }
    {
        self.places[usize::from(domain)].take()
    }
}
