//! The index of holes: a tree over the blocks of the heap, in which each node has the runs of its stretch.
//!
//! The root is node 1, the halves of a node stand at twice its number and behind that, and the blocks have the last
//! nodes. To find a place goes down once; to change a segment writes its leaves and joins the nodes above them again.

ghost use Rattle.std.specs.Prelude.{◌≡◌, ℕ, ◌≤◌, ◌<◌, ◌+◌, ◌/◌, Bool, length};
ghost use Rattle.sos_heap.specs.Tree.{IsAnswer, IsTree, changed, free_at, leaf_count, node_count};

use crate::runs::{Runs, joined, leaf};

/// The tree has a leaf for each block, and some beyond the heap, so that their number is a power of two.
pub const LEAVES: usize = 512;

/// How many nodes there are. The first is not used.
pub const NODES: usize = 2 * LEAVES;

/// The first block of the lowest run of `count` free blocks.
pub fn lowest(nodes: &[Runs; NODES], count: u16) -> Option<u16>
    requires some { 1 ≤ count }
    requires tree { IsTree (free_at nodes.now) nodes.now 0 0 }
    ensures { IsAnswer (free_at nodes.now) count result }
{
    if nodes[1].longest < count {
        return None;
    }
    let mut node = 1;
    let mut low = 0;
    while node < LEAVES {
        let left = nodes[2 * node];
        let right = nodes[2 * node + 1];
        if count <= left.longest {
            node = 2 * node;
        } else if count <= left.right + right.left {
            return Some(low + left.width - left.right);
        } else {
            low += left.width;
            node = 2 * node + 1;
        }
    }
    Some(low)
}

/// Frees the `count` blocks from `first` on, or takes them.
pub fn set_blocks(nodes: &mut [Runs; NODES], first: usize, count: usize, free: bool)
    requires size { length nodes.old ≡ node_count }
    requires within { first + count ≤ leaf_count }
    ensures size { length nodes.new ≡ node_count }
    ensures tree { (was : ℕ → Bool) → IsTree was nodes.old 0 0
        → IsTree (changed was first (first + count) free) nodes.new 0 0 }
{
    let end = first + count;
    set_leaves(nodes, first, end, free);
    mend(nodes, (LEAVES + first) / 2, (LEAVES + end + 1) / 2);
}

/// Writes the leaves of the blocks from `first` on, below `end`, which opens the nodes above them.
fn set_leaves(nodes: &mut [Runs; NODES], first: usize, end: usize, free: bool)
    requires size { length nodes.old ≡ node_count }
    requires order { first ≤ end }
    requires within { end ≤ leaf_count }
    ensures size { length nodes.new ≡ node_count }
    ensures tree { (was : ℕ → Bool) → IsTree was nodes.old 0 0
        → IsTree (changed was first end free) nodes.new ((leaf_count + first) / 2) ((leaf_count + end + 1) / 2) }
{
    for block in first..end {
        nodes[LEAVES + block] = leaf(free);
    }
}

/// Joins the nodes from `low` on, below `end`, again, and then all that stand above them.
pub fn mend(nodes: &mut [Runs; NODES], low: usize, end: usize)
    requires size { length nodes.old ≡ node_count }
    requires few { end ≤ leaf_count }
    ensures size { length nodes.new ≡ node_count }
    ensures tree { (free : ℕ → Bool) → IsTree free nodes.old low end → IsTree free nodes.new 0 0 }
{
    let mut first = low;
    let mut behind = end;
    while 1 < behind {
        mend_level(nodes, first, behind);
        first /= 2;
        behind = (behind + 1) / 2;
    }
}

/// Joins the nodes from `low` on, below `end`, again, which opens those above them.
fn mend_level(nodes: &mut [Runs; NODES], low: usize, end: usize)
    requires size { length nodes.old ≡ node_count }
    requires few { end ≤ leaf_count }
    ensures size { length nodes.new ≡ node_count }
    ensures tree { (free : ℕ → Bool) → IsTree free nodes.old low end
        → IsTree free nodes.new (low / 2) ((end + 1) / 2) }
{
    for node in low.max(1)..end {
        nodes[node] = joined(nodes[2 * node], nodes[2 * node + 1]);
    }
}
