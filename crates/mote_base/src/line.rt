//! A line of what is written.

use arrayvec::ArrayVec;

/// How many bytes a line has at most, its line feed included.
pub const LINE_BYTES: usize = 256;

/// A line of output, its line feed included.
pub type Line = ArrayVec<u8, LINE_BYTES>;
