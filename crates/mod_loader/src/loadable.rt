//! A module that may be loaded.
ghost use Rattle.std.specs.Prelude.{◌≡◌};
ghost use Rattle.domain_model.specs.Good.{GoodImage};
ghost use Rattle.domain_model.specs.Runners.{IsPlaceable};
ghost use Rattle.mod_loader.specs.Banks.{SpellUnits, code_of};

use arrayvec::ArrayVec;
use module_image::Face;
use mote_layout::PROVIDED;
use std::marker::Model;
use unit_code::BankCode;

/// A module that may be loaded. The words of its bank spell its units.
#[derive(Drop)]
pub struct Loadable {
    pub(crate) face: Face,
    pub(crate) state_size: u16,
    pub(crate) handler: u16,
    pub(crate) entries: ArrayVec<u16, PROVIDED>,
    pub(crate) code: BankCode,
    pub(crate) constants: Vec<u8>,
    pub(crate) sealed: bool,
}

impl Model for Loadable {
    ghost use Rattle.domain_model.specs.Good.{GoodImage};
    ghost use Rattle.mod_loader.specs.Banks.{Banked, SpellUnits};

    ghost Value = { Banked };

    ghost view = { λ m. record {
      loadable = record {
        face = m.face;
        state_size = m.state_size;
        handler = m.handler;
        entries = m.entries.items;
        units = m.code.units;
        constants = m.constants.items;
        sealed = m.sealed;
      };
      words = m.code.words;
      starts = m.code.starts;
    } };

    ghost invariant = { λ m. GoodImage (record {
      face = m.face;
      state_size = m.state_size;
      handler = m.handler;
      entries = m.entries.items;
      units = m.code.units;
      constants = m.constants.items;
      sealed = m.sealed;
    }) × SpellUnits m.code m.sealed };
}

impl Loadable {
    pub fn face(&self) -> &Face
        ensures { result.now ≡ self.now.loadable.face }
    {
        &self.face
    }

    pub fn state_size(&self) -> u16
        ensures { result ≡ self.now.loadable.state_size }
    {
        self.state_size
    }

    pub fn handler(&self) -> u16
        ensures { result ≡ self.now.loadable.handler }
    {
        self.handler
    }

    /// The units at which the functions that it provides begin.
    pub fn entries(&self) -> &[u16]
        ensures { result.now ≡ self.now.loadable.entries }
    {
        self.entries.as_slice()
    }

    /// The code of its bank: its units, with words that spell them.
    pub fn code(&self) -> &BankCode
        ensures code { result.now ≡ code_of self.now }
        ensures placeable { IsPlaceable result.now }
    {
        &self.code
    }

    /// The bytes that it may read and not write, a copy of the image's.
    pub fn constants(&self) -> &[u8]
        ensures { result.now ≡ self.now.loadable.constants }
    {
        self.constants.as_slice()
    }

    /// Whether the addresses of its loads are checked.
    pub fn sealed(&self) -> bool
        ensures { result ≡ self.now.loadable.sealed }
    {
        self.sealed
    }

    /// It is one that a kernel takes, and the words of its bank spell its units.
    pub fn known(&self)
        ensures good { GoodImage self.now.loadable }
        ensures spelled { SpellUnits (code_of self.now) self.now.loadable.sealed }
    {
        let _face = &self.face;
    }
}
