//! Where branches, jumps and calls lead.

ghost use Rattle.std.specs.Prelude.{◌≡◌, ◌+◌, ◌<◌, ◌≤◌, ℕ, length, slice_index};
ghost use Rattle.unit_code.specs.Targets.{number_of, number_reached, reached, AreFirstWords};

/// The word that an offset leads to, counted from the word behind the place. It is not reduced: there is none
/// before the first word, and it may lie behind the last.
#[tactic(auto, unfolding(crate::specs::Targets::reached))]
pub fn reached(place: u16, offset: i16) -> Option<usize>
    ensures { result ≡ reached place offset }
{
    let size = usize::from(offset.unsigned_abs());
    let next = usize::from(place) + 1;
    if offset >= 0 {
        Some(next + size)
    } else {
        next.checked_sub(size)
    }
}

/// The number of the unit that begins at a word, if one does.
pub fn number_of(places: &[u16], word: usize) -> Option<u16>
    requires { AreFirstWords places.now }
    ensures { result ≡ number_of places.now word }
{
    let Ok(word) = u16::try_from(word) else {
        return None;
    };
    match places.binary_search(&word) {
        Ok(number) => Some(number as u16),
        Err(_) => None,
    }
}

/// The number of the unit to which the offset leads, if it leads to one.
pub fn number_reached(places: &[u16], place: u16, offset: i16) -> Option<u16>
    requires { AreFirstWords places.now }
    ensures { result ≡ number_reached places.now (reached place offset) }
{
    number_of(places, reached(place, offset)?)
}
