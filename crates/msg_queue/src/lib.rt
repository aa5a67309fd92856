//! The two message queues of a mote: high and low.
//!
//! After the message scheduler of SOS (Han et al., MobiSys 2005). The queues are seen as two lists of at most
//! `QUEUE_MESSAGES` messages each, `Lists` of `mote_base` (`specs/Messages.antt` there). `post` appends to one of the two or hands
//! the message back, `next` takes the front, that of the high list first, and `take_named` takes the first message
//! that names a module. No message is lost, copied or dropped, so a message may hold what must stay unique, such
//! as the block of its payload. Only `new` takes memory.
#![tactic(auto)]

mod laws;
mod queues;
mod ring;

pub use laws::the_rest_stays_in_order;
pub use mote_base::Msg;
pub use queues::Queues;
