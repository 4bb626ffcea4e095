//! Sends, receives and closes. Go specification, "Send statements", "Receive operator" and "Close".

ghost use Rattle.std.specs.Prelude.{◌≡◌, Some};
ghost use Rattle.go_value.specs.Values.{value_of};
ghost use Rattle.go_sched.specs.Channels.{case_of};
ghost use Rattle.go_sched.specs.Goroutines.{state_of, is_ready, send_is_ready, receive_is_ready};
ghost use Rattle.go_sched.specs.Operations.{Makes, sent_in, received_in, closed_as, sends, receives, closes};

use crate::lists::{ChanOp, Wakes};
use crate::scheduling::{Sched, SchedError};
use go_base::ChanId;
use go_value::{Fault, Value};

/// What a send did.
#[derive(Drop)]
pub enum Sent {
    Done(Wakes),
    Blocks,
}

/// What a receive did. The value is None where the channel is closed and empty.
#[derive(Drop)]
pub enum Received {
    Done { value: Option<Value>, wakes: Wakes },
    Blocks,
}

/// What a `select` did.
#[derive(Drop)]
pub enum Selected {
    Case {
        index: u32,
        value: Option<Value>,
        wakes: Wakes,
    },
    Default,
    Blocks,
}

impl Sched {
    /// Whether an operation would complete at once. On a nil channel none does.
    pub fn ready(&self, op: &ChanOp) -> bool
        ensures { result ≡ is_ready (state_of self.now) (case_of op.now) }
    {
        match op {
            ChanOp::Send { chan, .. } => self.can_send(*chan),
            ChanOp::Receive { chan } => self.can_receive(*chan),
        }
    }

    fn can_send(&self, chan: Option<ChanId>) -> bool
        ensures { result ≡ send_is_ready (state_of self.now) chan }
    {
        match self.channel(chan) {
            Some(channel) => channel.can_send(),
            None => false,
        }
    }

    fn can_receive(&self, chan: Option<ChanId>) -> bool
        ensures { result ≡ receive_is_ready (state_of self.now) chan }
    {
        match self.channel(chan) {
            Some(channel) => channel.can_receive(),
            None => false,
        }
    }

    /// A send of the current goroutine. `Blocks` exactly where it is not ready: the goroutine then waits.
    /// `SendOnClosed` exactly where the channel is closed. After an error all is as before.
    pub fn send(&mut self, chan: Option<ChanId>, value: Value) -> Result<Sent, SchedError>
        ensures { Makes (sent_in 0) result (state_of self.old) (state_of self.new)
            (sends 0 (value_of value) (state_of self.old) chan) }
    {
        self.send_in(0, chan, value)
    }

    /// A receive of the current goroutine. `Blocks` exactly where it is not ready: the goroutine then waits. After an
    /// error all is as before.
    pub fn receive(&mut self, chan: Option<ChanId>) -> Result<Received, SchedError>
        ensures { Makes (received_in 0) result (state_of self.old) (state_of self.new)
            (receives 0 (state_of self.old) chan) }
    {
        self.receive_in(0, chan)
    }

    /// Closes a channel. Those that wait to receive are served before those that wait to send. `CloseOfNil` and
    /// `CloseOfClosed` exactly where the channel is that. After an error all is as before.
    pub fn close(&mut self, chan: Option<ChanId>) -> Result<Wakes, SchedError>
        ensures { Makes closed_as result (state_of self.old) (state_of self.new) (closes (state_of self.old) chan) }
    {
        let Some(id) = chan else {
            return Err(SchedError::Fault(Fault::CloseOfNil));
        };
        let Some(channel) = self.channel(chan) else {
            return Err(SchedError::OutOfMemory);
        };
        if channel.closed {
            return Err(SchedError::Fault(Fault::CloseOfClosed));
        }
        Ok(self.close_open(id)?)
    }

    /// A send in a case of a `select`, or by itself.
    pub(crate) fn send_in(
        &mut self,
        index: u32,
        chan: Option<ChanId>,
        value: Value,
    ) -> Result<Sent, SchedError>
        ensures { Makes (sent_in index) result (state_of self.old) (state_of self.new)
            (sends index (value_of value) (state_of self.old) chan) }
    {
        match chan {
            Some(id) => self.send_on(index, id, value),
            None => {
                drop(value);
                self.stop();
                Ok(Sent::Blocks)
            }
        }
    }

    /// A receive in a case of a `select`, or by itself.
    pub(crate) fn receive_in(
        &mut self,
        index: u32,
        chan: Option<ChanId>,
    ) -> Result<Received, SchedError>
        ensures { Makes (received_in index) result (state_of self.old) (state_of self.new)
            (receives index (state_of self.old) chan) }
    {
        match chan {
            Some(id) => self.receive_on(index, id),
            None => {
                self.stop();
                Ok(Received::Blocks)
            }
        }
    }
}

impl Sched {
    fn send_on(&mut self, index: u32, id: ChanId, value: Value) -> Result<Sent, SchedError>
        ensures { Makes (sent_in index) result (state_of self.old) (state_of self.new)
            (sends index (value_of value) (state_of self.old) (Some id)) }
    {
        let Some(channel) = self.channels.get(id.number as usize) else {
            drop(value);
            return Err(SchedError::OutOfMemory);
        };
        if channel.closed {
            drop(value);
            return Err(SchedError::Fault(Fault::SendOnClosed));
        }
        if let Some(receiver) = channel.receivers.front().copied() {
            let wakes = self.hand_over(id, receiver, value)?;
            return Ok(Sent::Done(wakes));
        }
        if channel.has_room() {
            self.keep(id, value)?;
            return Ok(Sent::Done(Wakes::new(self.alloc)));
        }
        self.wait_to_send(id, index, value)?;
        self.stop();
        Ok(Sent::Blocks)
    }

    fn receive_on(&mut self, index: u32, id: ChanId) -> Result<Received, SchedError>
        ensures { Makes (received_in index) result (state_of self.old) (state_of self.new)
            (receives index (state_of self.old) (Some id)) }
    {
        let Some(channel) = self.channels.get(id.number as usize) else {
            return Err(SchedError::OutOfMemory);
        };
        if let Some(wake) = channel.next_sender() {
            let (value, wakes) = self.take_over(id, wake)?;
            return Ok(Received::Done { value, wakes });
        }
        if channel.has_values() {
            let value = self.take(id);
            return Ok(Received::Done {
                value,
                wakes: Wakes::new(self.alloc),
            });
        }
        if channel.closed {
            return Ok(Received::Done {
                value: None,
                wakes: Wakes::new(self.alloc),
            });
        }
        self.wait_to_receive(id, index)?;
        self.stop();
        Ok(Received::Blocks)
    }
}
