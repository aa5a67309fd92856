//! The limits on what this crate declares.

ghost use Rattle.std.specs.Prelude.{◌≡◌};
ghost use Rattle.mote_base.specs.Frames.{frame_limit};
ghost use Rattle.mote_base.specs.Lines.{line_bytes};
ghost use Rattle.mote_base.specs.Messages.{queue_limit};
ghost use Rattle.mote_base.specs.Timers.{timer_limit};

use crate::frame::FRAMES;
use crate::line::LINE_BYTES;
use crate::message::QUEUE_MESSAGES;
use crate::timer::TIMERS;

/// Law: each limit is the number that the definitions give it. All of them are this project's own.
pub fn limits_are_as_defined()
    ensures frames { FRAMES ≡ frame_limit }
    ensures timers { TIMERS ≡ timer_limit }
    ensures queues { QUEUE_MESSAGES ≡ queue_limit }
    ensures lines { LINE_BYTES ≡ line_bytes }
{}
