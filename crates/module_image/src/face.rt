//! What a module shows to others: its id, and the functions that it provides and subscribes to.
ghost use Rattle.std.specs.Prelude.{◌≡◌};

use arrayvec::ArrayVec;
use mote_layout::{PROVIDED, SUBSCRIBED};

/// A function that a module provides.
#[derive(Clone, Copy, Debug, Default, PartialEq, Eq)]
pub struct Provided {
    /// The function's id within the module.
    pub func: u8,
    /// The types of its result and arguments, as four printable characters.
    pub proto: [u8; 4],
    /// The index of the code word at which it begins.
    pub word: u16,
}

/// A function of another module that a module calls.
#[derive(Clone, Copy, Debug, Default, PartialEq, Eq)]
pub struct Subscribed {
    /// The id of the module that is to provide it.
    pub module: u8,
    pub func: u8,
    pub proto: [u8; 4],
}

/// What a module shows to others.
#[derive(Debug, Drop)]
pub struct Face {
    /// The module's id, from 1 to 254.
    pub id: u8,
    /// By rising function ids.
    pub provided: ArrayVec<Provided, PROVIDED>,
    pub subscribed: ArrayVec<Subscribed, SUBSCRIBED>,
}

impl Face {
    /// The same face once more. It takes no memory.
    pub fn copied(&self) -> Face
        ensures { result ≡ self.now }
    {
        Face {
            id: self.id,
            provided: copied(&self.provided),
            subscribed: copied(&self.subscribed),
        }
    }
}

fn copied<T: Copy + Default + Drop, const N: usize>(items: &ArrayVec<T, N>) -> ArrayVec<T, N>
    ensures { result.items ≡ items.now.items }
{
    let mut copy = ArrayVec::new();
    for item in items.as_slice() {
        copy.push(*item);
    }
    copy
}
