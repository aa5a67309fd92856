//! The lines of a text that say something.

use crate::stage::Stage;
use unit_code::Unit;

/// What a line says. A goal is what stands behind the dot of a target: a name or a number.
#[derive(Clone, Copy)]
pub enum Said<'a> {
    Module(u8),
    Version(u8),
    State(u16),
    Handler(&'a [u8]),
    Sealed,
    Provides {
        func: u8,
        proto: [u8; 4],
        goal: &'a [u8],
    },
    Subscribes {
        provider: u8,
        func: u8,
        proto: [u8; 4],
    },
    /// Pairs of hexadecimal digits.
    Const(&'a [u8]),
    Code,
    Label(&'a [u8]),
    /// A unit with target 0, and its goal, which is empty where it has none.
    Item(Unit, &'a [u8]),
}

/// A line that isn't blank: its number, where it stands, how many units and words of code come before it, and what it says.
#[derive(Clone, Copy)]
pub struct Row<'a> {
    pub line: u64,
    pub stage: Stage,
    pub unit: u64,
    pub place: u64,
    pub says: Option<Said<'a>>,
}
