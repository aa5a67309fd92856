//! A bounded stack of frames.

ghost use Rattle.std.specs.Prelude.{◌≡◌, ◌≤◌, ◌<◌, ◌↔◌, [], ◌∷◌, length, drop, slice_get, is_ok, None, IsOk};
ghost use Rattle.mote_base.specs.Frames.{frame_limit};
ghost use Rattle.safe_stack.specs.Stack.{pushed};

use arrayvec::ArrayVec;
use mote_base::{FRAMES, Frame};
use std::marker::Model;
use thiserror::Error;

/// The stack holds as many frames as it can.
#[derive(Clone, Copy, Debug, PartialEq, Eq, Error)]
#[error("the safe stack is full")]
pub struct Full;

/// The frames of the calls that have not returned.
#[derive(Drop)]
pub struct SafeStack {
    frames: ArrayVec<Frame, FRAMES>,
}

impl Model for SafeStack {
    ghost use Rattle.std.specs.Prelude.{◌≤◌, List, reverse, length};
    ghost use Rattle.mote_base.specs.declared.frame.Frame.{Frame};
    ghost use Rattle.mote_base.specs.Frames.{frame_limit};

    ghost Value = { List Frame };

    ghost view = { λ s. reverse s.frames.items };

    ghost invariant = { λ s. length s.frames.items ≤ frame_limit };
}

impl SafeStack {
    /// A stack without frames.
    pub fn new() -> SafeStack
        ensures { result ≡ [] }
    {
        SafeStack {
            frames: ArrayVec::new(),
        }
    }

    /// Puts a frame on top.
    pub fn push_frame(&mut self, f: Frame) -> Result<(), Full>
        ensures room { IsOk result ↔ (length self.old < frame_limit) }
        ensures pushed { self.new ≡ pushed f self.old }
    {
        self.frames.try_push(f).map_err(|_full| Full)
    }

    /// Takes the frame on top.
    pub fn pop_frame(&mut self) -> Option<Frame>
        ensures top { result ≡ slice_get self.old 0 }
        ensures none { (result ≡ None) ↔ (self.old ≡ []) }
        ensures rest { self.new ≡ drop 1 self.old }
    {
        self.frames.pop()
    }

    /// Takes all frames away.
    pub fn drop_all(&mut self)
        ensures { self.new ≡ [] }
    {
        self.frames.clear();
    }

    /// How many frames there are.
    pub fn depth(&self) -> usize
        ensures depth { result ≡ length self.now }
        ensures limit { result ≤ frame_limit }
    {
        self.frames.len()
    }
}
