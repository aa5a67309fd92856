//! The form of a unit among templates.

ghost use Rattle.std.specs.Prelude.{◌≡◌, ◌+◌, ◌<◌, ◌≤◌, ◌^◌, ℕ, length};
ghost use Rattle.unit_code.specs.Lengths.{spelled_length};
ghost use Rattle.unit_code.specs.Proper.{LeadsBelow};
ghost use Rattle.unit_code.specs.Spelled.{offset_to};
ghost use Rattle.unit_code.specs.Spelling.{form_of, start_of};
ghost use Rattle.harbor_spell.specs.Placed.{IsPlaced};

use unit_code::{Form, Shape, Unit};

/// The form of the i-th unit in a shape, among templates with these starts.
pub fn form_of(starts: &[u16], i: usize, unit: &Unit, shape: Shape) -> Form
    requires { IsPlaced starts.now i unit.now shape }
    ensures { result ≡ form_of starts.now i (start_of starts.now i) unit.now shape }
{
    let at = starts[i];
    match *unit {
        Unit::Skip(skip) => match shape {
            Shape::Long => Form::LongSkip(skip, offset_to(at + 2, starts[i + 2])),
            Shape::Short => Form::ShortSkip(skip),
        },
        Unit::Branch { set, bit, target } => {
            let word = starts[usize::from(target)];
            match shape {
                Shape::Long => Form::LongBranch {
                    set,
                    bit,
                    offset: offset_to(at + 1, word),
                },
                Shape::Short => Form::ShortBranch {
                    set,
                    bit,
                    offset: offset_to(at, word),
                },
            }
        }
        Unit::Jump(target) => Form::Jumping(offset_to(at, starts[usize::from(target)])),
        Unit::LocalCall(target) => Form::Calling(offset_to(at + 2, starts[usize::from(target)])),
        _ => Form::Whole(*unit),
    }
}

/// The offset that leads from a place to a word, counted from the word behind the place.
fn offset_to(place: u16, word: u16) -> i16
    requires place { place < 2 ^ 15 }
    requires word { word < 2 ^ 15 }
    ensures { result ≡ offset_to place word }
{
    if place < word {
        (word - place - 1) as i16
    } else {
        -((place - word) as i16) - 1
    }
}
