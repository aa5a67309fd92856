//! A module that is loaded.
ghost use Rattle.std.specs.Prelude.{◌≡◌, ◌==◌, slice_get};
ghost use Rattle.std.specs.Option.{option_map_or};
ghost use Rattle.kernel_call.specs.Rows.{row_of};

use crate::place::Place;
use arrayvec::ArrayVec;
use module_image::Face;
use mote_layout::PROVIDED;
use std::marker::Model;

/// What a turn has to know of a module that is loaded.
#[derive(Clone, Copy, Debug, PartialEq, Eq)]
pub struct ModuleRow {
    /// 1 to 254.
    pub id: u8,
    pub domain: u8,
    /// The address of the module's state block, or 0 where it has none.
    pub state: u16,
    /// The unit at which a dispatch starts.
    pub handler: u16,
}

/// A module that is loaded. It is seen as the machine's record of one.
#[derive(Drop)]
pub struct Loaded {
    pub domain: u8,
    pub face: Face,
    /// The unit at which a dispatch starts.
    pub handler: u16,
    /// The units at which the functions that it provides begin.
    pub entries: ArrayVec<u16, PROVIDED>,
    /// Where its state block begins, and where its constants do.
    pub place: Place,
    /// Its loads are checked.
    pub sealed: bool,
}

impl Model for Loaded {
    ghost use Rattle.domain_model.specs.State.{Loaded as Seated};

    ghost Value = { Seated };

    ghost view = { λ m. record {
      face = m.face;
      domain = m.domain;
      state = m.place.state;
      constants = m.place.constants;
      handler = m.handler;
      entries = m.entries.items;
      sealed = m.sealed;
    } };
}

impl Loaded {
    /// The module's id is this one.
    pub fn has_id(&self, id: u8) -> bool
        ensures { result ≡ (self.now.face.id == id) }
    {
        self.face.id == id
    }

    /// The module is in this domain.
    pub fn is_in(&self, domain: u8) -> bool
        ensures { result ≡ (self.now.domain == domain) }
    {
        self.domain == domain
    }

    /// The id of the function at a place of the provided list, or 0 where there is none.
    pub fn function(&self, place: u8) -> u8
        ensures { result ≡ option_map_or (λ p. p.func) (slice_get self.now.face.provided.items place) 0 }
    {
        let provided = self.face.provided.as_slice();
        match provided.get(usize::from(place)) {
            Some(function) => function.func,
            None => 0,
        }
    }

    pub fn row(&self) -> ModuleRow
        ensures { result ≡ row_of self.now }
    {
        ModuleRow {
            id: self.face.id,
            domain: self.domain,
            state: self.place.state,
            handler: self.handler,
        }
    }
}
