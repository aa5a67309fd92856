//! The modules that are loaded.
ghost use Rattle.std.specs.Prelude.{◌≡◌, ◌<◌, ◌≤◌, ◌==◌, ◌++◌, ◌∷◌, [], ℕ, false, true, IfOk, IfSome, None, Some, length, option_map};
ghost use Rattle.std.specs.Vec.{vec_capacity};
ghost use Rattle.mote_layout.specs.Memory.{domain_count};
ghost use Rattle.mote_layout.specs.Limits.{provided_limit};
ghost use Rattle.module_image.specs.Contents.{FaceRules};
ghost use Rattle.module_image.specs.Links.{bound_slot};
ghost use Rattle.jump_table.specs.Entries.{unit_at};
ghost use Rattle.domain_model.specs.State.{seats};
ghost use Rattle.domain_model.specs.Frames.{entry_unit, function_id};
ghost use Rattle.domain_model.specs.Modules.{free_domain, id_at, in_use, is_loaded, module_at, module_named, without_domain};
ghost use Rattle.kernel_call.specs.Rows.{row_of};
ghost use Rattle.kernel_call.specs.Sound.{AreSeated};
ghost use Rattle.kernel_call.specs.Tables.{with_entries};

use crate::loaded::{Loaded, ModuleRow};
use func_link::Links;
use jump_table::JumpTable;
use mote_base::NoMemory;
use mote_layout::DOMAINS;
use std::alloc::Global;
use std::marker::Model;

/// The modules in the order of their loads: there is room for one in each domain, and its memory is taken once.
///
/// Beside them stand the link of each slot and the unit of each function that is provided. They follow from the
/// modules, so nothing of them is seen.
#[derive(Drop)]
pub struct Modules {
    jumps: JumpTable,
    links: Links,
    list: Vec<Loaded>,
}

impl Model for Modules {
    ghost use Rattle.std.specs.Prelude.{List};
    ghost use Rattle.std.specs.Vec.{vec_capacity};
    ghost use Rattle.domain_model.specs.State.{Loaded as Seated};
    ghost use Rattle.kernel_call.specs.Tables.{IsList};

    ghost Value = { List Seated };

    ghost view = { λ m. m.list.items };

    ghost invariant = { λ m. IsList (vec_capacity m.list) m.list.items m.links m.jumps };
}

impl Modules {
    /// No module is loaded.
    pub fn new(alloc: Global) -> Result<Modules, NoMemory>
        ensures { IfOk result (λ m. m ≡ []) }
    {
        Ok(Modules {
            list: Vec::with_capacity(alloc, usize::from(DOMAINS))?,
            links: Links::new(alloc)?,
            jumps: JumpTable::new(),
        })
    }

    /// The modules are in domains that there are, and no two share an id or a domain.
    pub fn known(&self)
        ensures { AreSeated self.now }
    {
        let _list = &self.list;
    }

    /// The row of the module in a domain.
    #[tactic(auto, using(crate::proofs::Seats::at_row))]
    pub fn at(&self, domain: u8) -> Option<ModuleRow>
        ensures row { result ≡ option_map row_of (module_at self.now domain) }
        ensures within { IfSome result (λ row. row.domain < domain_count) }
    {
        row_at(self.list.as_slice(), domain)
    }

    /// The row of the module with an id, which is the one in its domain.
    #[tactic(auto, using(crate::proofs::Seats::named_row, crate::proofs::Seats::named_within))]
    pub fn named(&self, id: u8) -> Option<ModuleRow>
        ensures row { result ≡ option_map row_of (module_named self.now id) }
        ensures within { IfSome result (λ row. row.domain < domain_count) }
        ensures there { IfSome result (λ row. module_at self.now row.domain ≡ module_named self.now id) }
    {
        row_named(self.list.as_slice(), id)
    }

    /// The id of the module in a domain, or 0 where there is none.
    pub fn id_at(&self, domain: u8) -> u8
        ensures { result ≡ id_at self.now domain }
    {
        match self.at(domain) {
            Some(row) => row.id,
            None => 0,
        }
    }

    /// Whether a module with that id is loaded.
    pub fn is_loaded(&self, id: u8) -> bool
        ensures { result ≡ is_loaded self.now id }
    {
        is_named(self.list.as_slice(), id)
    }

    /// The lowest domain that no module is in.
    pub fn free_domain(&self) -> Option<u8>
        ensures domain { result ≡ free_domain self.now }
        ensures there { IfSome result (λ domain. domain < domain_count) }
        ensures free { IfSome result (λ domain. in_use self.now domain ≡ false) }
    {
        first_free(self.list.as_slice())
    }

    /// What a slot of the module in a domain is bound to: the provider's domain, and the place in its provided list.
    pub fn bound(&self, domain: u8, slot: u8) -> Option<(u8, u8)>
        ensures slot { result ≡ bound_slot (seats self.now) domain slot }
        ensures within { IfSome result (λ target. target.0 < domain_count) }
        ensures used { IfSome result (λ target. in_use self.now target.0 ≡ true) }
    {
        self.links.bound(domain, slot)
    }

    /// The unit at which the function at a place of a domain's provided list begins, or 0 where there is none.
    #[tactic(auto, using(crate::proofs::Tables::entry_found))]
    pub fn entry(&self, domain: u8, place: u8) -> u16
        ensures { result ≡ entry_unit self.now domain place }
    {
        self.jumps.enter(domain, place).unwrap_or(0)
    }

    /// That function's id, or 0.
    pub fn function(&self, domain: u8, place: u8) -> u8
        ensures { result ≡ function_id self.now domain place }
    {
        function_at(self.list.as_slice(), domain, place)
    }

    /// Takes a module in. Slots are bound anew, those of modules that came before it too.
    #[tactic(auto, using(crate::proofs::Rooms::room_for, crate::proofs::Rooms::seated_push))]
    pub fn add(&mut self, loaded: Loaded)
        requires domain { loaded.domain < domain_count }
        requires free { in_use self.old loaded.domain ≡ false }
        requires id { is_loaded self.old loaded.face.id ≡ false }
        requires face { FaceRules loaded.face }
        ensures { self.new ≡ self.old ++ loaded ∷ [] }
    {
        self.links.module_in(loaded.domain, &loaded.face);
        enter_all(&mut self.jumps, loaded.domain, loaded.entries.as_slice());
        append(&mut self.list, loaded);
    }

    /// Takes the module in a domain out, if there is one. No slot is bound to it any more.
    #[tactic(auto, using(crate::proofs::Rooms::seated_without))]
    pub fn remove(&mut self, domain: u8)
        requires { domain < domain_count }
        ensures { self.new ≡ without_domain domain self.old }
    {
        self.list.retain(|loaded| !loaded.is_in(domain));
        self.links.module_out(domain);
        self.jumps.clear(domain);
    }
}

/// Puts a module behind the others, where there is room.
fn append(list: &mut Vec<Loaded>, loaded: Loaded)
    requires { length list.old.items < vec_capacity list.old }
    ensures items { list.new.items ≡ list.old.items ++ loaded ∷ [] }
    ensures capacity { vec_capacity list.old ≤ vec_capacity list.new }
{
    list.push(loaded).unwrap();
}

/// Sets the entries of a domain that has none.
fn enter_all(table: &mut JumpTable, domain: u8, units: &[u16])
    requires domain { domain < domain_count }
    requires few { length units.now ≤ provided_limit }
    requires none { (place : ℕ) → unit_at table.old domain place ≡ None }
    ensures { (d place : ℕ) → unit_at table.new d place ≡ with_entries domain units.now table.old d place }
{
    for place in 0..units.len() {
        table.set(domain, place as u8, units[place]);
    }
}

fn function_at(list: &[Loaded], domain: u8, place: u8) -> u8
    ensures { result ≡ function_id list.now domain place }
{
    for loaded in list {
        if loaded.is_in(domain) {
            return loaded.function(place);
        }
    }
    0
}

fn row_at(list: &[Loaded], domain: u8) -> Option<ModuleRow>
    ensures { result ≡ option_map row_of (module_at list.now domain) }
{
    for loaded in list {
        if loaded.is_in(domain) {
            return Some(loaded.row());
        }
    }
    None
}

fn row_named(list: &[Loaded], id: u8) -> Option<ModuleRow>
    ensures { result ≡ option_map row_of (module_named list.now id) }
{
    for loaded in list {
        if loaded.has_id(id) {
            return Some(loaded.row());
        }
    }
    None
}

fn is_named(list: &[Loaded], id: u8) -> bool
    ensures { result ≡ is_loaded list.now id }
{
    list.iter().any(|loaded| loaded.has_id(id))
}

fn in_use(list: &[Loaded], domain: u8) -> bool
    ensures { result ≡ in_use list.now domain }
{
    list.iter().any(|loaded| loaded.is_in(domain))
}

// The lowest domain that no module is in.
fn first_free(list: &[Loaded]) -> Option<u8>
    ensures domain { result ≡ free_domain list.now }
    ensures there { IfSome result (λ domain. domain < domain_count) }
    ensures free { IfSome result (λ domain. in_use list.now domain ≡ false) }
{
    for domain in 0..DOMAINS {
        if !in_use(list, domain) {
            return Some(domain);
        }
    }
    None
}
