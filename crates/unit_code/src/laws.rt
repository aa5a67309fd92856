//! Laws of the definitions.
ghost use Rattle.std.specs.Prelude.{◌≡◌, ◌^◌, ◌<◌, ◌≤◌, ℕ, Bool, List, None, length};
ghost use Rattle.std.specs.List.{AllByRecursion};
ghost use Rattle.mote_layout.specs.Page.{StandsAt};
ghost use Rattle.mote_layout.specs.declared.page.Entry.{Entry};
ghost use Rattle.unit_code.specs.Listing.{Listing};
ghost use Rattle.unit_code.specs.Spelled.{IsSpelled};
ghost use Rattle.unit_code.specs.Templates.{IsEntry, address_of};
ghost use Rattle.unit_code.specs.Units.{listed, refusal};

/// Words that are not refused are the instructions of their units, with each target's offset, and the first word of a
/// mark's unit is the mark. And words that are the instructions of proper units are read as these units.
pub fn one_reading()
    ensures spelled { (words marks : List ℕ) (sealed : Bool) → AllByRecursion (λ word. word < 2 ^ 16) words
        → refusal words marks sealed ≡ None → IsSpelled words marks sealed (listed words marks sealed) }
    ensures read { (words marks : List ℕ) (sealed : Bool) (list : Listing)
        → AllByRecursion (λ word. word < 2 ^ 16) words
        → length words ≤ 65535 → IsSpelled words marks sealed list
        → (refusal words marks sealed ≡ None) × (listed words marks sealed ≡ list) }
{}

/// Templates enter the kernel where the entry page says that their entries stand.
pub fn entries_stand()
    ensures { (e : Entry) → IsEntry e → StandsAt e (address_of e) }
{}
