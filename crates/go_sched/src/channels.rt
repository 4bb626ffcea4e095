//! Channels. Go specification, "Channel types".

ghost use Rattle.std.specs.Prelude.{◌≡◌, IfOk, OnOk, OnErr, Some, slice_get};
ghost use Rattle.std.specs.Option.{option_map};
ghost use Rattle.go_value.specs.Values.{value_of};
ghost use Rattle.go_sched.specs.Operations.{woken_of, taken_from};
ghost use Rattle.go_sched.specs.Channels.{chan_of, empty_chan, has_room, is_filled, can_send, can_receive, left_by, passed, passed_value, sending_of, with_value, with_sender, with_receiver, without_value, without_receiver, closed_down};

use crate::lists::{Wake, WakeResult};
use go_base::{GoId, NoMemory};
use go_value::Value;
use std::alloc::Global;
use std::collections::VecDeque;

/// A channel: its size, the values in its buffer, and those that wait, the first to be served first.
#[derive(Drop)]
pub(crate) struct Channel {
    pub(crate) size: u32,
    pub(crate) queue: VecDeque<Value>,
    pub(crate) senders: VecDeque<Sender>,
    pub(crate) receivers: VecDeque<Receiver>,
    pub(crate) closed: bool,
}

/// One that waits to send, in a case of its `select`.
#[derive(Drop)]
pub(crate) struct Sender {
    pub(crate) goroutine: GoId,
    pub(crate) index: u32,
    pub(crate) value: Value,
}

/// One that waits to receive, in a case of its `select`.
#[derive(Clone, Copy)]
pub(crate) struct Receiver {
    pub(crate) goroutine: GoId,
    pub(crate) index: u32,
}

impl Channel {
    pub(crate) fn new(alloc: Global, size: u32) -> Channel
        ensures { chan_of result ≡ empty_chan size }
    {
        Channel {
            size,
            queue: VecDeque::new(alloc),
            senders: VecDeque::new(alloc),
            receivers: VecDeque::new(alloc),
            closed: false,
        }
    }

    /// Whether the buffer has room for one more.
    pub(crate) fn has_room(&self) -> bool
        ensures { result ≡ has_room (chan_of self.now) }
    {
        self.queue.len() < self.size as usize
    }

    pub(crate) fn can_send(&self) -> bool
        ensures { result ≡ can_send (chan_of self.now) }
    {
        self.closed || self.has_room() || !self.receivers.is_empty()
    }

    pub(crate) fn can_receive(&self) -> bool
        ensures { result ≡ can_receive (chan_of self.now) }
    {
        self.closed || !self.queue.is_empty() || !self.senders.is_empty()
    }

    /// Takes a goroutine out of both lists.
    pub(crate) fn forget(&mut self, goroutine: GoId)
        ensures { chan_of self.new ≡ left_by goroutine.number (chan_of self.old) }
    {
        self.senders
            .retain(|waiter| waiter.goroutine.number != goroutine.number);
        self.receivers
            .retain(|waiter| waiter.goroutine.number != goroutine.number);
    }

    /// Puts a value behind those in the buffer.
    pub(crate) fn keep(&mut self, value: Value) -> Result<(), NoMemory>
        ensures ok { OnOk result (chan_of self.new ≡ with_value (value_of value) (chan_of self.old)) }
        ensures err { OnErr result (chan_of self.new ≡ chan_of self.old) }
    {
        self.queue.push_back(value)?;
        Ok(())
    }

    /// Takes the first value in the buffer.
    pub(crate) fn take(&mut self) -> Option<Value>
        ensures value { option_map value_of result ≡ slice_get (chan_of self.old).queue 0 }
        ensures after { chan_of self.new ≡ without_value (chan_of self.old) }
    {
        self.queue.pop_front()
    }

    /// One more that waits to send.
    pub(crate) fn push_sender(&mut self, sender: Sender) -> Result<(), NoMemory>
        ensures ok { OnOk result (chan_of self.new ≡ with_sender (sending_of sender) (chan_of self.old)) }
        ensures err { OnErr result (chan_of self.new ≡ chan_of self.old) }
    {
        self.senders.push_back(sender)?;
        Ok(())
    }

    /// One more that waits to receive.
    pub(crate) fn push_receiver(&mut self, receiver: Receiver) -> Result<(), NoMemory>
        ensures ok { OnOk result (chan_of self.new ≡ with_receiver receiver (chan_of self.old)) }
        ensures err { OnErr result (chan_of self.new ≡ chan_of self.old) }
    {
        self.receivers.push_back(receiver)?;
        Ok(())
    }

    /// Takes the first that waits to receive.
    pub(crate) fn pop_receiver(&mut self) -> Option<Receiver>
        ensures first { result ≡ slice_get (chan_of self.old).receivers 0 }
        ensures after { chan_of self.new ≡ without_receiver (chan_of self.old) }
    {
        self.receivers.pop_front()
    }

    /// The first that waits to send.
    pub(crate) fn first_sender(&self) -> Option<GoId>
        ensures { result ≡ option_map (λ it. it.goroutine) (slice_get (chan_of self.now).senders 0) }
    {
        self.senders.front().map(|sender| sender.goroutine)
    }

    /// How the first that waits to send goes on once it is served.
    pub(crate) fn next_sender(&self) -> Option<Wake>
        ensures { option_map woken_of result ≡ option_map taken_from (slice_get (chan_of self.now).senders 0) }
    {
        self.senders.front().map(|sender| Wake {
            goroutine: sender.goroutine,
            index: sender.index,
            result: WakeResult::Sent,
        })
    }

    /// Whether there is a value in the buffer.
    pub(crate) fn has_values(&self) -> bool
        ensures { result ≡ is_filled (chan_of self.now).queue }
    {
        !self.queue.is_empty()
    }

    /// Takes what the first that waits to send sends, which then waits no more: what is received is the first value in
    /// the buffer, behind which the other goes; that itself where there is no buffer.
    pub(crate) fn pass(&mut self) -> Result<Option<Value>, NoMemory>
        ensures value { IfOk result (λ it. option_map value_of it ≡ passed_value (Some (chan_of self.old))) }
        ensures ok { OnOk result (chan_of self.new ≡ passed (chan_of self.old)) }
        ensures err { OnErr result (chan_of self.new ≡ chan_of self.old) }
    {
        if self.queue.is_empty() {
            return Ok(self.senders.pop_front().map(|sender| sender.value));
        }
        self.queue.reserve(1)?;
        let Some(sender) = self.senders.pop_front() else {
            return Ok(None);
        };
        self.queue.push_back_reserved(sender.value);
        Ok(self.queue.pop_front())
    }

    /// Closes it. Nobody waits any more.
    pub(crate) fn close(&mut self)
        ensures { chan_of self.new ≡ closed_down (chan_of self.old) }
    {
        self.closed = true;
        self.receivers.clear();
        self.senders.clear();
    }
}
