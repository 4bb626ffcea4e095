//! How those that wait are served.

ghost use Rattle.std.specs.Prelude.{◌≡◌, ◌<◌, ◌≤◌, IsTrue, [], ◌∷◌, map, OnErr, OnOk, IfOk, slice_get};
ghost use Rattle.std.specs.List.{All};
ghost use Rattle.std.specs.Option.{option_map};
ghost use Rattle.go_value.specs.Values.{value_of};
ghost use Rattle.go_sched.specs.Channels.{chan_of, sending_of, passed_value};
ghost use Rattle.go_sched.specs.Goroutines.{state_of, left_lists, left_at, left_in, gone_on};
ghost use Rattle.go_sched.specs.Operations.{given_to, receiver_served, sender_served, first_value, kept, drawn_from, waits_to_send, waits_to_receive, served_at, served_by_close, shut, all_gone_on, woken_of, goes_on, with_first, with_firsts, closed_receiver, closed_sender};
ghost use Rattle.go_sched.specs.Standing.{standing, waiting, times_waiting, lists_of};

use crate::channels::{Channel, Receiver, Sender};
use crate::lists::{Wake, WakeResult, Wakes};
use crate::scheduling::Sched;
use go_base::{ChanId, GoId, NoMemory};
use go_value::Value;
use std::alloc::Global;

impl Sched {
    /// The first that waits to receive takes the value, and goes on.
    pub(crate) fn hand_over(
        &mut self,
        chan: ChanId,
        receiver: Receiver,
        value: Value,
    ) -> Result<Wakes, NoMemory>
        ensures wakes { IfOk result (λ wakes. map woken_of wakes ≡ given_to receiver (value_of value) ∷ []) }
        ensures ok { OnOk result (state_of self.new ≡ receiver_served chan (state_of self.old)) }
        ensures err { OnErr result (state_of self.new ≡ state_of self.old) }
    {
        let mut wakes = Wakes::new(self.alloc);
        wakes.push(Wake {
            goroutine: receiver.goroutine,
            index: receiver.index,
            result: WakeResult::Received(Some(value)),
        })?;
        self.serve_receiver(chan);
        Ok(wakes)
    }

    /// The first that waits to receive leaves the list, and goes on.
    fn serve_receiver(&mut self, chan: ChanId)
        ensures { state_of self.new ≡ receiver_served chan (state_of self.old) }
    {
        if let Some(channel) = self.channels.get_mut(chan.number as usize) {
            if let Some(receiver) = channel.pop_receiver() {
                self.wake_served(chan, receiver.goroutine);
            }
        }
    }

    /// The first that waits to send goes on. What is received is the first value in the buffer, behind which the value
    /// goes that is sent; that itself where there is no buffer.
    pub(crate) fn take_over(
        &mut self,
        chan: ChanId,
        wake: Wake,
    ) -> Result<(Option<Value>, Wakes), NoMemory>
        ensures wakes { IfOk result (λ it. map woken_of it.1 ≡ woken_of wake ∷ []) }
        ensures value { IfOk result (λ it.
            option_map value_of it.0 ≡ passed_value (slice_get (state_of self.old).channels chan.number)) }
        ensures ok { OnOk result (state_of self.new ≡ sender_served chan (state_of self.old)) }
        ensures err { OnErr result (state_of self.new ≡ state_of self.old) }
    {
        let mut wakes = Wakes::new(self.alloc);
        wakes.push(wake)?;
        let value = self.serve_sender(chan)?;
        Ok((value, wakes))
    }

    fn serve_sender(&mut self, chan: ChanId) -> Result<Option<Value>, NoMemory>
        ensures value { IfOk result (λ it.
            option_map value_of it ≡ passed_value (slice_get (state_of self.old).channels chan.number)) }
        ensures ok { OnOk result (state_of self.new ≡ sender_served chan (state_of self.old)) }
        ensures err { OnErr result (state_of self.new ≡ state_of self.old) }
    {
        let Some(channel) = self.channels.get_mut(chan.number as usize) else {
            return Ok(None);
        };
        let Some(goroutine) = channel.first_sender() else {
            return Ok(None);
        };
        let value = channel.pass()?;
        self.wake_served(chan, goroutine);
        Ok(value)
    }

    /// Puts a value behind those in the buffer.
    pub(crate) fn keep(&mut self, chan: ChanId, value: Value) -> Result<(), NoMemory>
        ensures ok { OnOk result (state_of self.new ≡ kept (value_of value) chan (state_of self.old)) }
        ensures err { OnErr result (state_of self.new ≡ state_of self.old) }
    {
        match self.channels.get_mut(chan.number as usize) {
            Some(channel) => channel.keep(value),
            None => {
                drop(value);
                Err(NoMemory)
            }
        }
    }

    /// Takes the first value in the buffer.
    pub(crate) fn take(&mut self, chan: ChanId) -> Option<Value>
        ensures value { option_map value_of result ≡ first_value (slice_get (state_of self.old).channels chan.number) }
        ensures after { state_of self.new ≡ drawn_from chan (state_of self.old) }
    {
        match self.channels.get_mut(chan.number as usize) {
            Some(channel) => channel.take(),
            None => None,
        }
    }

    /// The current goroutine stands last among those that wait to send.
    pub(crate) fn wait_to_send(
        &mut self,
        chan: ChanId,
        index: u32,
        value: Value,
    ) -> Result<(), NoMemory>
        ensures ok { OnOk result (state_of self.new ≡ waits_to_send index (value_of value) chan (state_of self.old)) }
        ensures err { OnErr result (state_of self.new ≡ state_of self.old) }
    {
        let goroutine = self.current;
        let sender = Sender {
            goroutine,
            index,
            value,
        };
        self.waits_at(chan)?;
        match self.channels.get_mut(chan.number as usize) {
            Some(channel) => channel.push_sender(sender),
            None => {
                drop(sender);
                Err(NoMemory)
            }
        }
    }

    /// The current goroutine stands last among those that wait to receive.
    pub(crate) fn wait_to_receive(&mut self, chan: ChanId, index: u32) -> Result<(), NoMemory>
        ensures ok { OnOk result (state_of self.new ≡ waits_to_receive index chan (state_of self.old)) }
        ensures err { OnErr result (state_of self.new ≡ state_of self.old) }
    {
        let goroutine = self.current;
        self.waits_at(chan)?;
        match self.channels.get_mut(chan.number as usize) {
            Some(channel) => channel.push_receiver(Receiver { goroutine, index }),
            None => Err(NoMemory),
        }
    }

    /// The current goroutine is about to stand in a list of a channel.
    fn waits_at(&mut self, chan: ChanId) -> Result<(), NoMemory>
        ensures same { state_of self.new ≡ state_of self.old }
        ensures counted { OnOk result
            (standing self.new.current.number (slice_get (state_of self.new).channels chan.number) <
            waiting chan.number (slice_get (lists_of self.new.waits.items) self.new.current.number)) }
    {
        match self.waits.get_mut(self.current.number as usize) {
            Some(waits) => {
                waits.push(chan)?;
                Ok(())
            }
            None => Err(NoMemory),
        }
    }
}

impl Sched {
    /// Closes a channel that is open.
    pub(crate) fn close_open(&mut self, chan: ChanId) -> Result<Wakes, NoMemory>
        ensures wakes { IfOk result (λ wakes. map woken_of wakes ≡ served_at chan (state_of self.old)) }
        ensures ok { OnOk result (state_of self.new ≡
            all_gone_on (served_at chan (state_of self.old)) (shut chan (state_of self.old))) }
        ensures err { OnErr result (state_of self.new ≡ state_of self.old) }
    {
        let wakes = self.served_by_close(chan)?;
        self.shut(chan);
        self.wake_all(wakes.as_slice());
        Ok(wakes)
    }

    /// Those that a close serves.
    fn served_by_close(&self, chan: ChanId) -> Result<Wakes, NoMemory>
        ensures { IfOk result (λ wakes. map woken_of wakes ≡ served_at chan (state_of self.now)) }
    {
        match self.channels.get(chan.number as usize) {
            Some(channel) => served_in(self.alloc, channel),
            None => Ok(Wakes::new(self.alloc)),
        }
    }

    fn shut(&mut self, chan: ChanId)
        ensures { state_of self.new ≡ shut chan (state_of self.old) }
    {
        if let Some(channel) = self.channels.get_mut(chan.number as usize) {
            channel.close();
        }
    }

    fn wake_all(&mut self, wakes: &[Wake])
        requires { All (λ wake. wake.goroutine.number < (state_of self.old).goroutines) wakes.now }
        ensures { state_of self.new ≡ all_gone_on (map woken_of wakes.now) (state_of self.old) }
    {
        for wake in wakes {
            self.wake(wake.goroutine);
        }
    }

    /// A goroutine that waited goes on.
    fn wake(&mut self, goroutine: GoId)
        requires { goroutine.number < (state_of self.old).goroutines }
        ensures { state_of self.new ≡ gone_on goroutine (state_of self.old) }
    {
        self.leave_lists(goroutine);
        self.start(goroutine);
    }

    /// A goroutine that was served at a channel goes on.
    fn wake_served(&mut self, chan: ChanId, goroutine: GoId)
        requires { standing goroutine.number (slice_get (state_of self.old).channels chan.number) <
            waiting chan.number (slice_get (lists_of self.old.waits.items) goroutine.number) }
        ensures { state_of self.new ≡ gone_on goroutine (state_of self.old) }
    {
        self.leave_served(chan, goroutine);
        self.start(goroutine);
    }

    /// A goroutine that was served at a channel leaves the lists. Where it waited there alone, it stands in none by
    /// now.
    fn leave_served(&mut self, chan: ChanId, goroutine: GoId)
        requires { standing goroutine.number (slice_get (state_of self.old).channels chan.number) <
            waiting chan.number (slice_get (lists_of self.old.waits.items) goroutine.number) }
        ensures { state_of self.new ≡ left_lists goroutine (state_of self.old) }
    {
        if self.waits_only(chan, goroutine) {
            self.waits_no_more(goroutine);
        } else {
            self.leave_lists(goroutine);
        }
    }

    /// Whether a goroutine waits at a channel alone.
    fn waits_only(&self, chan: ChanId, goroutine: GoId) -> bool
        ensures { IsTrue result → times_waiting (slice_get (lists_of self.now.waits.items) goroutine.number) ≤ 1 }
    {
        match self.waits.get(goroutine.number as usize) {
            Some(waits) => matches!(waits.as_slice(), [only] if only.number == chan.number),
            None => false,
        }
    }

    /// A goroutine that stands in no list waits no more.
    fn waits_no_more(&mut self, goroutine: GoId)
        requires { left_lists goroutine (state_of self.old) ≡ state_of self.old }
        ensures { state_of self.new ≡ state_of self.old }
    {
        if let Some(waits) = self.waits.get_mut(goroutine.number as usize) {
            waits.clear();
        }
    }

    /// A goroutine leaves the lists of all channels.
    pub(crate) fn leave_lists(&mut self, goroutine: GoId)
        ensures { state_of self.new ≡ left_lists goroutine (state_of self.old) }
    {
        if let Some(waits) = self.waits.get_mut(goroutine.number as usize) {
            forget_in(self.channels.as_mut_slice(), goroutine, waits.as_slice());
            waits.clear();
        }
    }
}

fn forget_in(channels: &mut [Channel], goroutine: GoId, chans: &[ChanId])
    ensures { map chan_of channels.new ≡ left_at goroutine.number chans.now (map chan_of channels.old) }
{
    for chan in chans {
        forget_at(channels, goroutine, *chan);
    }
}

fn forget_at(channels: &mut [Channel], goroutine: GoId, chan: ChanId)
    ensures { map chan_of channels.new ≡ left_in goroutine.number chan (map chan_of channels.old) }
{
    let place = chan.number as usize;
    if place < channels.len() {
        channels[place].forget(goroutine);
    }
}

/// Those that a close of a channel serves.
fn served_in(alloc: Global, channel: &Channel) -> Result<Wakes, NoMemory>
    ensures { IfOk result (λ wakes. map woken_of wakes ≡ served_by_close (chan_of channel.now)) }
{
    let mut wakes = Wakes::new(alloc);
    let (front, back) = channel.receivers.as_slices();
    push_receivers(&mut wakes, front)?;
    push_receivers(&mut wakes, back)?;
    let (front, back) = channel.senders.as_slices();
    push_senders(&mut wakes, front)?;
    push_senders(&mut wakes, back)?;
    Ok(wakes)
}

fn push_receivers(wakes: &mut Wakes, receivers: &[Receiver]) -> Result<(), NoMemory>
    ensures { OnOk result (map woken_of wakes.new ≡
        with_firsts (map closed_receiver receivers.now) (map woken_of wakes.old)) }
{
    for receiver in receivers {
        push_first(
            wakes,
            Wake {
                goroutine: receiver.goroutine,
                index: receiver.index,
                result: WakeResult::Received(None),
            },
        )?;
    }
    Ok(())
}

fn push_senders(wakes: &mut Wakes, senders: &[Sender]) -> Result<(), NoMemory>
    ensures { OnOk result (map woken_of wakes.new ≡
        with_firsts (map closed_sender (map sending_of senders.now)) (map woken_of wakes.old)) }
{
    for sender in senders {
        push_first(
            wakes,
            Wake {
                goroutine: sender.goroutine,
                index: sender.index,
                result: WakeResult::SendOnClosed,
            },
        )?;
    }
    Ok(())
}

/// Adds one that goes on, but only once.
fn push_first(wakes: &mut Wakes, wake: Wake) -> Result<(), NoMemory>
    ensures { OnOk result (map woken_of wakes.new ≡ with_first (woken_of wake) (map woken_of wakes.old)) }
{
    if is_woken(wakes, wake.goroutine) {
        drop(wake);
        return Ok(());
    }
    wakes.push(wake)
}

/// Whether a goroutine goes on already, which only one can that waits in a `select`.
fn is_woken(wakes: &Wakes, goroutine: GoId) -> bool
    ensures { result ≡ goes_on goroutine (map woken_of wakes.now) }
{
    for wake in wakes.as_slice() {
        if wake.goroutine.number == goroutine.number {
            return true;
        }
    }
    false
}
