//! A table with a row for each domain.

ghost use Rattle.std.specs.Prelude.{◌≡◌, ◌<◌, ℕ, None};
ghost use Rattle.mote_layout.specs.Limits.{provided_limit};
ghost use Rattle.jump_table.specs.Entries.{unit_at, with_unit, without_domain};

use mote_layout::{DOMAINS, PROVIDED};
use std::marker::Model;

/// How many domains have a row.
const ROWS: usize = DOMAINS as usize;

/// The entries of all domains.
#[derive(Drop)]
pub struct JumpTable {
    units: [[Option<u16>; PROVIDED]; ROWS],
}

impl Model for JumpTable {
    ghost use Rattle.jump_table.specs.Entries.{Entries, AreRows};

    ghost Value = { Entries };

    ghost view = { λ t. t.units };

    ghost invariant = { λ t. AreRows t.units };
}

impl JumpTable {
    /// A table without entries.
    pub fn new() -> JumpTable
        ensures { (d i : ℕ) → unit_at result d i ≡ None }
    {
        JumpTable {
            units: [[None; PROVIDED]; ROWS],
        }
    }

    /// Sets an entry of a domain to a unit.
    pub fn set(&mut self, d: u8, i: u8, unit: u16)
        requires domain { d < DOMAINS }
        requires entry { i < provided_limit }
        ensures { (e j : ℕ) → unit_at self.new e j ≡ with_unit d i unit (unit_at self.old) e j }
    {
        self.units[usize::from(d)][usize::from(i)] = Some(unit);
    }

    /// Takes away all entries of a domain.
    pub fn clear(&mut self, d: u8)
        requires { d < DOMAINS }
        ensures { (e j : ℕ) → unit_at self.new e j ≡ without_domain d (unit_at self.old) e j }
    {
        self.units[usize::from(d)] = [None; PROVIDED];
    }

    /// The unit at which an entry of a domain begins.
    pub fn enter(&self, d: u8, i: u8) -> Option<u16>
        ensures { result ≡ unit_at self.now d i }
    {
        *self.units.get(usize::from(d))?.get(usize::from(i))?
    }
}
