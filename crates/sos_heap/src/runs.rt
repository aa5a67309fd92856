//! The runs of free blocks in a stretch of neighbouring blocks.

ghost use Rattle.std.specs.Prelude.{◌≡◌, ◌≤◌, ◌+◌, ℕ, Bool};
ghost use Rattle.sos_heap.specs.Runs.{AreRuns, joined, leaf};
ghost use Rattle.sos_heap.specs.Tree.{leaf_count};

/// How many blocks a stretch has, and how many of them are free side by side: at its left end, at its right end, and at
/// most anywhere.
#[derive(Clone, Copy, PartialEq, Eq, Debug, Default)]
pub struct Runs {
    /// How many blocks the stretch has.
    pub width: u16,
    /// The free blocks at its left end.
    pub left: u16,
    /// The free blocks at its right end.
    pub right: u16,
    /// The longest run of free blocks.
    pub longest: u16,
}

/// The runs of two neighbouring stretches, as those of both.
pub fn joined(a: Runs, b: Runs) -> Runs
    ensures value { result ≡ joined a b }
    ensures runs { (free : ℕ → Bool) (low : ℕ) → AreRuns free low a → AreRuns free (low + a.width) b
        → a.width + b.width ≤ leaf_count → AreRuns free low result }
{
    sums(a, b)
}

/// The numbers of the join. A run that fills its stretch goes on into the other.
fn sums(a: Runs, b: Runs) -> Runs
    ensures { result ≡ joined a b }
{
    Runs {
        width: a.width.saturating_add(b.width),
        left: if a.left < a.width {
            a.left
        } else {
            a.width.saturating_add(b.left)
        },
        right: if b.right < b.width {
            b.right
        } else {
            a.right.saturating_add(b.width)
        },
        longest: a.longest.max(b.longest).max(a.right.saturating_add(b.left)),
    }
}

/// The runs of one block.
pub fn leaf(free: bool) -> Runs
    ensures value { result ≡ leaf free }
    ensures runs { (test : ℕ → Bool) (block : ℕ) → test block ≡ free → AreRuns test block result }
{
    let run = if free { 1 } else { 0 };
    Runs {
        width: 1,
        left: run,
        right: run,
        longest: run,
    }
}
