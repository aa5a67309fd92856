//! One queue: a ring of messages.

ghost use Rattle.std.specs.Prelude.{◌≡◌, ◌<◌, ◌≤◌, [], ◌∷◌, ◌++◌, length, find, is_some};
ghost use Rattle.std.specs.List.{list_any};
ghost use Rattle.circular_buffer.specs.Buffer.{buffer};
ghost use Rattle.mote_base.specs.Messages.{names, without_first};

use circular_buffer::HeapCircularBuffer;
use mote_base::Msg;

/// Takes the first message that names the id out of a queue. The others keep their order.
pub(crate) fn take_first<P: Drop>(queue: &mut HeapCircularBuffer<Msg<P>>, id: u8) -> Option<Msg<P>>
    requires { length queue.old.items ≤ queue.old.capacity }
    ensures first { result ≡ find (names id) queue.old.items }
    ensures found { is_some result ≡ list_any (names id) queue.old.items }
    ensures rest { queue.new ≡ buffer (without_first (names id) queue.old.items) queue.old.capacity }
    ensures fits { length queue.new.items ≤ queue.new.capacity }
{
    let mut taken = None;
    // Once round the ring: each message is taken from the front and, but for the one, put back at the end.
    for _ in 0..queue.len() {
        let Some(m) = queue.pop_front() else {
            unreachable!()
        };
        if taken.is_none() && has_id(&m, id) {
            taken = Some(m);
        } else {
            put_back(queue, m);
        }
    }
    taken
}

/// Appends a message to a queue that has room.
fn put_back<P: Drop>(queue: &mut HeapCircularBuffer<Msg<P>>, m: Msg<P>)
    requires { length queue.old.items < queue.old.capacity }
    ensures { queue.new ≡ buffer (queue.old.items ++ m ∷ []) queue.old.capacity }
{
    queue.push_back(m);
}

/// Whether the sender or the receiver of a message has the id.
fn has_id<P>(m: &Msg<P>, id: u8) -> bool
    ensures { result ≡ names id m.now }
{
    m.from == id || m.to == id
}
