//! `select`. Go specification, "Select statements".

ghost use Rattle.std.specs.Prelude.{◌≡◌, ◌<◌, length, map, false, OnErr, OnOk, slice_get, slice_index};
ghost use Rattle.go_sched.specs.Channels.{case_of};
ghost use Rattle.go_sched.specs.Goroutines.{state_of, left_lists, stopped};
ghost use Rattle.go_sched.specs.Operations.{Makes, selected_of, selects, selects_among, acts, acts_at, ready_from, entered, all_entered};

use crate::lists::{Cases, ChanOp};
use crate::operations::{Received, Selected, Sent};
use crate::scheduling::{Sched, SchedError};
use go_base::NoMemory;

impl Sched {
    /// A `select` of the current goroutine: a choice among the cases that are ready, else the default, else it waits on
    /// all cases. `SendOnClosed` exactly where the case chosen sends on a closed channel; the choice is taken then, and
    /// nothing else has changed. After want of memory all is as before.
    pub fn select(&mut self, cases: &Cases, has_default: bool) -> Result<Selected, SchedError>
        ensures { Makes selected_of result (state_of self.old) (state_of self.new)
            (selects (state_of self.old) (map case_of cases.now) has_default) }
    {
        let count = self.count_ready(cases.as_slice());
        if count > 0 {
            return self.select_ready(cases.as_slice(), count);
        }
        if has_default {
            return Ok(Selected::Default);
        }
        self.wait_on_all(cases.as_slice())?;
        Ok(Selected::Blocks)
    }

    /// How many of some operations are ready.
    fn count_ready(&self, ops: &[ChanOp]) -> usize
        ensures { result ≡ length (ready_from 0 (state_of self.now) (map case_of ops.now)) }
    {
        let mut count = 0usize;
        for op in ops {
            if self.ready(op) {
                count += 1;
            }
        }
        count
    }

    /// Where the ready one stands before which so many are.
    fn nth_ready(&self, ops: &[ChanOp], before: u32) -> Option<usize>
        ensures { result ≡ slice_get (ready_from 0 (state_of self.now) (map case_of ops.now)) before }
    {
        let mut left = before;
        for (index, op) in ops.iter().enumerate() {
            if self.ready(op) {
                if left == 0 {
                    return Some(index);
                }
                left -= 1;
            }
        }
        None
    }

    /// Completes one of the cases that are ready, of which there are so many.
    fn select_ready(&mut self, ops: &[ChanOp], count: usize) -> Result<Selected, SchedError>
        requires some { 0 < count }
        requires counted { count ≡ length (ready_from 0 (state_of self.old) (map case_of ops.now)) }
        ensures { Makes selected_of result (state_of self.old) (state_of self.new)
            (selects_among (ready_from 0 (state_of self.old) (map case_of ops.now)) (state_of self.old)
            (map case_of ops.now) false) }
    {
        let before = self.choice(count as u64);
        let outcome = self.complete(ops, before);
        if !matches!(outcome, Err(SchedError::OutOfMemory)) {
            self.pick(count as u64);
        }
        outcome
    }

    /// Completes the ready operation before which so many are.
    fn complete(&mut self, ops: &[ChanOp], before: u32) -> Result<Selected, SchedError>
        requires { before < length (ready_from 0 (state_of self.old) (map case_of ops.now)) }
        ensures { Makes selected_of result (state_of self.old) (state_of self.new)
            (acts_at (slice_index (ready_from 0 (state_of self.old) (map case_of ops.now)) before) (state_of self.old)
            (map case_of ops.now)) }
    {
        let Some(index) = self.nth_ready(ops, before) else {
            return Err(SchedError::OutOfMemory);
        };
        let Some(op) = ops.get(index) else {
            return Err(SchedError::OutOfMemory);
        };
        let Ok(index) = u32::try_from(index) else {
            return Err(SchedError::OutOfMemory);
        };
        self.act(index, op)
    }

    /// Completes an operation.
    fn act(&mut self, index: u32, op: &ChanOp) -> Result<Selected, SchedError>
        ensures { Makes selected_of result (state_of self.old) (state_of self.new)
            (acts index (state_of self.old) (case_of op.now)) }
    {
        match op {
            ChanOp::Send { chan, value } => {
                let value = value.copy(self.alloc)?;
                Ok(match self.send_in(index, *chan, value)? {
                    Sent::Done(wakes) => Selected::Case {
                        index,
                        value: None,
                        wakes,
                    },
                    Sent::Blocks => Selected::Blocks,
                })
            }
            ChanOp::Receive { chan } => Ok(match self.receive_in(index, *chan)? {
                Received::Done { value, wakes } => Selected::Case {
                    index,
                    value,
                    wakes,
                },
                Received::Blocks => Selected::Blocks,
            }),
        }
    }

    /// The current goroutine waits on all cases. One that waits already does not run, and is refused.
    fn wait_on_all(&mut self, ops: &[ChanOp]) -> Result<(), NoMemory>
        ensures ok { OnOk result (state_of self.new ≡
            stopped (all_entered 0 (map case_of ops.now) (state_of self.old))) }
        ensures err { OnErr result (state_of self.new ≡ state_of self.old) }
    {
        if self.is_waiting() {
            return Err(NoMemory);
        }
        if self.enter_all(ops).is_err() {
            self.leave_lists(self.current);
            return Err(NoMemory);
        }
        self.stop();
        Ok(())
    }

    /// Whether the current goroutine waits at a channel.
    fn is_waiting(&self) -> bool
        ensures { result ≡ false → left_lists (state_of self.now).current (state_of self.now) ≡ state_of self.now }
    {
        match self.waits.get(self.current.number as usize) {
            Some(waits) => !waits.as_slice().is_empty(),
            None => false,
        }
    }

    fn enter_all(&mut self, ops: &[ChanOp]) -> Result<(), NoMemory>
        ensures ok { OnOk result (state_of self.new ≡ all_entered 0 (map case_of ops.now) (state_of self.old)) }
        ensures err { left_lists (state_of self.old).current (state_of self.new) ≡
            left_lists (state_of self.old).current (state_of self.old) }
    {
        for (index, op) in ops.iter().enumerate() {
            let Ok(index) = u32::try_from(index) else {
                return Err(NoMemory);
            };
            self.enter(index, op)?;
        }
        Ok(())
    }

    /// The current goroutine waits on one case.
    fn enter(&mut self, index: u32, op: &ChanOp) -> Result<(), NoMemory>
        ensures ok { OnOk result (state_of self.new ≡ entered index (case_of op.now) (state_of self.old)) }
        ensures err { OnErr result (state_of self.new ≡ state_of self.old) }
    {
        match op {
            ChanOp::Send {
                chan: Some(chan),
                value,
            } => {
                let value = value.copy(self.alloc)?;
                self.wait_to_send(*chan, index, value)
            }
            ChanOp::Receive { chan: Some(chan) } => self.wait_to_receive(*chan, index),
            _ => Ok(()),
        }
    }
}
