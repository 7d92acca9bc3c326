//! What is carried from one instruction to the next, in memory that is taken once.
ghost use Rattle.std.specs.Prelude.{◌≡◌, ◌<◌, ◌≤◌, IsTrue, false, ◌||◌, ◌&&◌, [], length, IfOk, reverse, vec_capacity};
ghost use Rattle.pattern_match.specs.Marking.{frame, innermost_group, around, with_group, now_at_bar, frames_at_bar, now_at_close};

use crate::instruction::Frame;
use std::alloc::{AllocError, Global};
use std::marker::Model;

#[derive(Drop)]
pub struct Flow {
    live: bool,
    frames: Vec<Frame>,
}

impl Model for Flow {
    ghost use Rattle.std.specs.Prelude.{reverse, vec_capacity};
    ghost use Rattle.pattern_match.specs.inner.Carried.{Carried};

    ghost Value = { Carried };

    ghost view = { λ f. record { live = f.live; frames = reverse f.frames.items; capacity = vec_capacity f.frames } };
}

impl Flow {
    /// Room for so many groups, one in the other.
    pub fn new(alloc: Global, capacity: usize) -> Result<Flow, AllocError>
        ensures { IfOk result (λ f. capacity ≤ f.capacity) }
    {
        Ok(Flow {
            live: false,
            frames: Vec::with_capacity(alloc, capacity)?,
        })
    }

    /// Begins before the first instruction.
    pub fn begin(&mut self, live: bool)
        ensures live { self.new.live ≡ live }
        ensures frames { self.new.frames ≡ [] }
        ensures capacity { self.new.capacity ≡ self.old.capacity }
    {
        self.live = live;
        self.frames.clear();
    }

    /// Whether a word may go on here.
    pub fn is_live(&self) -> bool
        ensures { result ≡ self.now.live }
    {
        self.live
    }

    /// Sets whether a word may go on here.
    pub fn set_live(&mut self, live: bool)
        ensures live { self.new.live ≡ live }
        ensures frames { self.new.frames ≡ self.old.frames }
        ensures capacity { self.new.capacity ≡ self.old.capacity }
    {
        self.live = live;
    }

    /// Whether no word is anywhere on its way: none may go on here, and none has begun or left a group.
    pub fn is_idle(&self) -> bool
        ensures { IsTrue result → (self.now.live ≡ false) × (self.now.frames ≡ []) }
    {
        !self.live && self.frames.is_empty()
    }

    /// One group more: the first is not kept as long as no word has begun or left it.
    fn keep(&mut self, group: Frame)
        requires { length self.old.frames < self.old.capacity }
        ensures live { self.new.live ≡ self.old.live }
        ensures frames { self.new.frames ≡ with_group group self.old.frames }
        ensures capacity { self.old.capacity ≤ self.new.capacity }
    {
        if self.frames.is_empty() && !(group.entered || group.left) {
            return;
        }
        match self.frames.push(group) {
            Ok(()) => {}
            Err(_) => unreachable!(),
        }
    }

    /// The innermost group, which is kept no longer.
    fn leave(&mut self) -> Frame
        ensures result { result ≡ innermost_group self.old.frames }
        ensures live { self.new.live ≡ self.old.live }
        ensures frames { self.new.frames ≡ around self.old.frames }
        ensures capacity { self.new.capacity ≡ self.old.capacity }
    {
        match self.frames.pop() {
            Some(group) => group,
            None => Frame {
                entered: false,
                left: false,
            },
        }
    }

    /// Begins a group, which a word may also begin where it was left.
    pub fn open(&mut self, optional: bool, again: bool)
        requires { length self.old.frames < self.old.capacity }
        ensures live { self.new.live ≡ (self.old.live || again) }
        ensures frames { self.new.frames ≡ with_group (frame (self.old.live || again) (optional && self.old.live)) self.old.frames }
        ensures capacity { self.old.capacity ≤ self.new.capacity }
    {
        let left = optional && self.live;
        let entered = self.live || again;
        self.live = entered;
        self.keep(Frame { entered, left });
    }

    /// Ends a branch of the innermost group, and begins the next.
    pub fn bar(&mut self)
        requires { length self.old.frames < self.old.capacity }
        ensures live { self.new.live ≡ now_at_bar self.old.frames }
        ensures frames { self.new.frames ≡ frames_at_bar self.old.live self.old.frames }
        ensures capacity { self.old.capacity ≤ self.new.capacity }
    {
        let group = self.leave();
        let left = group.left || self.live;
        self.live = group.entered;
        self.keep(Frame {
            entered: group.entered,
            left,
        });
    }

    /// Ends the innermost group, and says whether a word may leave it here.
    pub fn close(&mut self) -> bool
        ensures result { result ≡ now_at_close self.old.live self.old.frames }
        ensures live { self.new.live ≡ now_at_close self.old.live self.old.frames }
        ensures frames { self.new.frames ≡ around self.old.frames }
        ensures capacity { self.old.capacity ≤ self.new.capacity }
    {
        let group = self.leave();
        self.live = group.left || self.live;
        self.live
    }
}
