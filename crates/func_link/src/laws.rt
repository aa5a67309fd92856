//! Laws of *Bound slot*.

ghost use Rattle.std.specs.Prelude.{◌≡◌, ◌↔◌, ℕ, List, Some};
ghost use Rattle.module_image.specs.Links.{Seat, bound_slot};
ghost use Rattle.func_link.specs.Links.{AreSeats, Leads};

/// A slot leads exactly to the function that its module subscribes to: the one of the module with that id, with that
/// function id and with the same prototype. Where there is none it leads nowhere.
pub fn bound_slot_laws()
    ensures leads { (seats : List Seat) (d i p n : ℕ) → AreSeats seats
        → (bound_slot seats d i ≡ Some (p, n)) ↔ Leads seats d i p n }
{}
