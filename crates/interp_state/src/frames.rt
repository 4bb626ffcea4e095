//! Frames and goroutines.

ghost use Rattle.std.specs.Prelude.{◌≡◌, ◌∷◌, ◌++◌, [], IfSome, IfNone, OnOk, option_map};

use crate::stack::RegStack;
use code_plan::{BuiltinForm, PlannedFunction, Role, Step};
use go_base::{NoMemory, Text};
use go_value::{Address, Fault, Value};
use std::alloc::Global;

/// What a panic carries.
#[derive(Drop)]
pub enum Thrown {
    /// A value in an interface.
    Value(Value),
    /// The text of a fault, in a code that has no type for its value.
    Fault(Text),
}

/// What a frame is about.
#[derive(Drop)]
pub enum FrameState {
    Running,
    /// It makes its deferred calls, and then goes on at its place.
    Returning,
    /// It makes its deferred calls, and is then removed.
    Panicking(Thrown),
}

/// What a function value has besides its function.
#[derive(Drop)]
pub enum Bound {
    Nothing,
    Captured(Vec<Address>),
    Receiver(Value),
}

/// What is to be called, once its operands are known.
#[derive(Drop)]
pub enum Ready<'a> {
    Function { function: u32, bound: Bound },
    Builtin(&'a BuiltinForm),
    /// A nil function value.
    Nil,
}

/// A call that is made later.
#[derive(Drop)]
pub struct Later<'a> {
    pub ready: Ready<'a>,
    pub arguments: Vec<Value>,
    /// How many promotions through embedded interfaces led to it.
    pub chain: u64,
}

/// A call of a function that has not returned.
#[derive(Drop)]
pub struct Frame<'a> {
    pub function: &'a PlannedFunction,
    pub block: u32,
    /// The steps of the block.
    pub steps: &'a [Step],
    /// The index of the next step.
    pub step: usize,
    /// Whether it was started as a deferred call.
    pub deferred: bool,
    pub state: FrameState,
    pub defers: Vec<Later<'a>>,
    /// The slot of the frame below that gets the results.
    pub to: Option<u32>,
    pub chain: u64,
}

/// What is known of a frame that is gone.
#[derive(Clone, Copy)]
pub struct Left {
    pub role: Role,
    /// The slot of the frame on top that gets the results.
    pub to: Option<u32>,
}

impl<'a> Frame<'a> {
    ghost use Rattle.interp_state.specs.Machines.{frame_of};
    ghost use Rattle.interp_state.specs.States.{left_by};
    ghost use Rattle.plan_mean.specs.Unwinding.{at_recovery};

    fn left(&self) -> Left
        ensures { result ≡ left_by self.now }
    {
        Left {
            role: self.function.role,
            to: self.to,
        }
    }

    /// The state in which the frame was, and is no more.
    pub fn change(&mut self, state: FrameState) -> FrameState
        ensures before { result ≡ self.old.state }
        ensures after { self.new ≡ record self.old { state = state } }
    {
        std::mem::replace(&mut self.state, state)
    }

    /// The frame stands at the beginning of a block.
    pub fn stand_at(&mut self, block: u32, steps: &'a [Step])
        ensures { self.new ≡ record self.old { block = block; steps = steps.entry; step = 0 } }
    {
        self.block = block;
        self.steps = steps;
        self.step = 0;
    }

    /// The frame of a function that can recover stands at the block that gives its results then.
    pub fn stand_at_recovery(&mut self)
        ensures frame { frame_of self.new ≡ at_recovery (frame_of self.old) }
        ensures function { self.new.function ≡ self.old.function }
    {
        let function: &'a PlannedFunction = self.function;
        if let Some(number) = function.recover {
            if let Some(block) = function.blocks.get(number as usize) {
                self.stand_at(number, block.steps.as_slice());
            }
        }
    }
}

#[derive(Drop)]
pub struct Goroutine<'a> {
    /// The frames below the top one.
    pub below: Vec<Frame<'a>>,
    pub top: Option<Frame<'a>>,
    pub stack: RegStack,
    /// How many frames of source functions there are.
    pub sources: u32,
    /// What it calls as it begins.
    pub begin: Option<Later<'a>>,
    /// A fault that it meets as it goes on.
    pub fault: Option<Fault>,
}

impl<'a> Goroutine<'a> {
    ghost use Rattle.interp_state.specs.Frames.{frames_of};
    ghost use Rattle.interp_state.specs.Machines.{frame_of, goroutine_of, later_of};
    ghost use Rattle.interp_state.specs.States.{counted, frames_in, left_by};
    ghost use Rattle.plan_mean.specs.Calls.{new_goroutine};
    ghost use Rattle.plan_mean.specs.Slots.{below_top};
    ghost use Rattle.plan_mean.specs.Unwinding.{popped};

    /// A goroutine that is to make a call.
    pub fn new(alloc: Global, begin: Option<Later<'a>>) -> Goroutine<'a>
        ensures { goroutine_of result ≡ new_goroutine (option_map later_of begin.entry) }
    {
        Goroutine {
            below: Vec::new(alloc),
            top: None,
            stack: RegStack::new(alloc),
            sources: 0,
            begin,
            fault: None,
        }
    }

    /// Puts a frame on top. Of more source functions than 4,294,967,295 it counts so many.
    pub fn push(&mut self, frame: Frame<'a>) -> Result<(), NoMemory>
        ensures frames { OnOk result (frames_in self.new ≡ frame.entry ∷ frames_in self.old) }
        ensures sources { self.new.sources ≡ counted frame.entry.function.now.role self.old.sources }
        ensures others { self.new ≡ record self.old { below = self.new.below; top = self.new.top; sources = self.new.sources } }
    {
        if frame.function.role == Role::Source {
            self.sources = self.sources.saturating_add(1);
        }
        match std::mem::replace(&mut self.top, Some(frame)) {
            Some(below) => self.put_below(below),
            None => {
                self.below.clear();
                Ok(())
            }
        }
    }

    fn put_below(&mut self, frame: Frame<'a>) -> Result<(), NoMemory>
        ensures ok { OnOk result (self.new.below.items ≡ self.old.below.items ++ frame.entry ∷ []) }
        ensures others { self.new ≡ record self.old { below = self.new.below } }
    {
        self.below.push(frame)?;
        Ok(())
    }

    /// The top frame goes. None where there is none.
    pub fn pop(&mut self) -> Option<Left>
        ensures left { result ≡ option_map left_by self.old.top }
        ensures popped { IfSome self.old.top (λ _. goroutine_of self.new ≡ popped (goroutine_of self.old)) }
        ensures same { IfNone self.old.top (self.new ≡ self.old) }
    {
        let Some(top) = self.top.take() else {
            return None;
        };
        let left = top.left();
        drop(top);
        self.top = self.below.pop();
        self.stack.leave();
        if left.role == Role::Source {
            self.sources = self.sources.saturating_sub(1);
        }
        Some(left)
    }
}
