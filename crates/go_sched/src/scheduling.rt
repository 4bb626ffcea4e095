//! Goroutines and switch points. Go specification, "Go statements".

ghost use Rattle.std.specs.Prelude.{◌≤◌, length, map};
ghost use Rattle.std.specs.Vec.{vec_capacity};
ghost use Rattle.go_sched.specs.Channels.{chan_of};
ghost use Rattle.go_sched.specs.Standing.{AreHeld, lists_of, Rises, Rises-prop};

use crate::channels::Channel;
use go_base::{ChanId, GoId, NoMemory};
use go_value::{Fault, ValueError};
use std::alloc::{AllocError, AllocFailed, Global};

/// A fault, or want of memory.
#[derive(Clone, Copy, PartialEq, Eq)]
pub enum SchedError {
    Fault(Fault),
    OutOfMemory,
}

impl From<NoMemory> for SchedError {
    ghost use Rattle.std.specs.Prelude.{◌≡◌};
    ghost use Rattle.go_sched.specs.declared.scheduling.SchedError.TheVariants.{OutOfMemory};

    ghost from_gives = { λ _ e. e ≡ OutOfMemory };

    fn from(_: NoMemory) -> SchedError {
        SchedError::OutOfMemory
    }
}

impl From<AllocError> for SchedError {
    ghost use Rattle.std.specs.Prelude.{◌≡◌};
    ghost use Rattle.go_sched.specs.declared.scheduling.SchedError.TheVariants.{OutOfMemory};

    ghost from_gives = { λ _ e. e ≡ OutOfMemory };

    fn from(_: AllocError) -> SchedError {
        SchedError::OutOfMemory
    }
}

impl<T: Drop> From<AllocFailed<T>> for SchedError {
    ghost use Rattle.std.specs.Prelude.{◌≡◌};
    ghost use Rattle.go_sched.specs.declared.scheduling.SchedError.TheVariants.{OutOfMemory};

    ghost from_gives = { λ _ e. e ≡ OutOfMemory };

    fn from(_: AllocFailed<T>) -> SchedError {
        SchedError::OutOfMemory
    }
}

impl From<ValueError> for SchedError {
    ghost use Rattle.std.specs.Prelude.{◌≡◌};
    ghost use Rattle.go_sched.specs.Goroutines.{error_of};

    ghost from_gives = { λ given e. e ≡ error_of given };

    fn from(error: ValueError) -> SchedError {
        match error {
            ValueError::Fault(fault) => SchedError::Fault(fault),
            ValueError::OutOfMemory => SchedError::OutOfMemory,
        }
    }
}

/// Why a goroutine is chosen: the current one goes on, stands last, waits, or has ended.
#[derive(Clone, Copy, PartialEq, Eq)]
pub enum Point {
    After,
    Yield,
    Blocked,
    Ended,
}

/// The goroutines, the channels and the choices of a run.
#[derive(Drop)]
pub struct Sched {
    pub(crate) alloc: Global,
    pub(crate) choices: Vec<u32>,
    /// How many of the choices were used.
    pub(crate) used: usize,
    pub(crate) records: bool,
    pub(crate) taken: Vec<u32>,
    /// The numbers of those that are runnable, ascending, with room for all.
    pub(crate) runnable: Vec<u64>,
    /// For each goroutine the channels in whose lists it stands.
    pub(crate) waits: Vec<Vec<ChanId>>,
    pub(crate) current: GoId,
    pub(crate) channels: Vec<Channel>,
    ghost ascending: { Rises 0 (length waits.items) runnable.items } by { Rises-prop 0 (length waits.items) runnable.items },
    ghost room: { length waits.items ≤ vec_capacity runnable },
    ghost standing: { AreHeld (map chan_of channels.items) (lists_of waits.items) },
}

impl Sched {
    ghost use Rattle.std.specs.Prelude.{◌≡◌, ◌↔◌, ◌≤◌, ◌<◌, IsTrue, slice_get, IfOk, OnErr, IfSome, IfNone, OnOk, Some, None, length, false, true};
    ghost use Rattle.go_sched.specs.Goroutines.{state_of, started, spawned, with_new_chan, meant, size_of, queue_length, made_runnable, stopped, below};
    ghost use Rattle.go_sched.specs.Choices.{next_at, switched, candidates, cyclic_after, from_place, next_among, switched_among};

    /// Goroutine 0, which is current and runnable, no channels, and the choices that are to be taken.
    pub fn new(alloc: Global, choices: &[u32]) -> Result<Sched, NoMemory>
        ensures { IfOk result (λ made. state_of made ≡ started choices.now false) }
    {
        Sched::with(alloc, choices, false)
    }

    /// As `new`, and the numbers that choices take are recorded.
    pub fn recording(alloc: Global, choices: &[u32]) -> Result<Sched, NoMemory>
        ensures { IfOk result (λ made. state_of made ≡ started choices.now true) }
    {
        Sched::with(alloc, choices, true)
    }

    fn with(alloc: Global, choices: &[u32], records: bool) -> Result<Sched, NoMemory>
        ensures { IfOk result (λ made. state_of made ≡ started choices.now records) }
    {
        let mut waits = Vec::new(alloc);
        waits.push(Vec::new(alloc))?;
        let mut runnable = Vec::new(alloc);
        runnable.push(0u64)?;
        Ok(Sched {
            alloc,
            choices: Vec::from_slice(alloc, choices)?,
            used: 0,
            records,
            taken: Vec::new(alloc),
            runnable,
            waits,
            current: GoId { number: 0 },
            channels: Vec::new(alloc),
        })
    }

    /// The goroutine that runs.
    pub fn current(&self) -> GoId
        ensures { result ≡ (state_of self.now).current }
    {
        self.current
    }

    /// A new goroutine, which is runnable. After `NoMemory` all is as before.
    pub fn spawn(&mut self) -> Result<GoId, NoMemory>
        ensures number { IfOk result (λ made. made.number ≡ (state_of self.old).goroutines) }
        ensures ok { OnOk result (state_of self.new ≡ spawned (state_of self.old)) }
        ensures err { OnErr result (state_of self.new ≡ state_of self.old) }
    {
        let number = self.waits.len() as u64;
        let more = self
            .waits
            .len()
            .saturating_add(1)
            .saturating_sub(self.runnable.len());
        self.runnable.reserve(more)?;
        self.waits.push(Vec::new(self.alloc))?;
        self.runnable.push_reserved(number);
        Ok(GoId { number })
    }

    /// A new channel of a size. After `NoMemory` all is as before.
    pub fn make_chan(&mut self, size: u32) -> Result<ChanId, NoMemory>
        ensures number { IfOk result (λ made. made.number ≡ length (state_of self.old).channels) }
        ensures ok { OnOk result (state_of self.new ≡ with_new_chan size (state_of self.old)) }
        ensures err { OnErr result (state_of self.new ≡ state_of self.old) }
    {
        let number = self.channels.len() as u64;
        self.channels.push(Channel::new(self.alloc, size))?;
        Ok(ChanId { number })
    }

    /// The number of values in the buffer of a channel; 0 where it is nil.
    pub fn len(&self, chan: Option<ChanId>) -> u64
        ensures { result ≡ queue_length (meant (state_of self.now) chan) }
    {
        match self.channel(chan) {
            Some(channel) => channel.queue.len() as u64,
            None => 0,
        }
    }

    /// The size of a channel; 0 where it is nil.
    pub fn cap(&self, chan: Option<ChanId>) -> u64
        ensures { result ≡ size_of (meant (state_of self.now) chan) }
    {
        match self.channel(chan) {
            Some(channel) => u64::from(channel.size),
            None => 0,
        }
    }

    pub(crate) fn channel(&self, chan: Option<ChanId>) -> Option<&Channel>
        ensures some { IfSome result (λ channel. meant (state_of self.now) chan ≡ Some (chan_of channel.now)) }
        ensures none { IfNone result (meant (state_of self.now) chan ≡ None) }
    {
        self.channels.get(chan?.number as usize)
    }

    /// Where a goroutine stands among those that are runnable, or would stand.
    fn place(&self, goroutine: GoId) -> usize
        ensures { result ≡ below goroutine.number (state_of self.now).runnable }
    {
        self.runnable
            .as_slice()
            .partition_point(|number| *number < goroutine.number)
    }

    /// The place behind a goroutine among those that are runnable.
    fn place_behind(&self, goroutine: GoId) -> usize
        ensures within { result ≤ length (state_of self.now).runnable }
        ensures first { from_place result (state_of self.now).runnable ≡
            cyclic_after goroutine.number (state_of self.now).runnable }
    {
        self.runnable
            .as_slice()
            .partition_point(|number| *number <= goroutine.number)
    }

    /// Whether a goroutine stands at a place among those that are runnable.
    fn is_at(&self, place: usize, goroutine: GoId) -> bool
        ensures { IsTrue result ↔ (slice_get (state_of self.now).runnable place ≡ Some goroutine.number) }
    {
        match self.runnable.get(place) {
            Some(number) => *number == goroutine.number,
            None => false,
        }
    }

    /// The current goroutine is runnable no more.
    pub(crate) fn stop(&mut self)
        ensures { state_of self.new ≡ stopped (state_of self.old) }
    {
        let place = self.place(self.current);
        if self.is_at(place, self.current) {
            self.runnable.remove(place);
        }
    }

    /// Puts a goroutine among those that are runnable.
    pub(crate) fn start(&mut self, goroutine: GoId)
        requires { goroutine.number < (state_of self.old).goroutines }
        ensures { state_of self.new ≡ made_runnable goroutine (state_of self.old) }
    {
        let place = self.place(goroutine);
        if !self.is_at(place, goroutine) {
            let _has_room = self.runnable.insert(place, goroutine.number).is_ok();
        }
    }

    /// Chooses the goroutine that runs next: among the current one, where it is runnable, and those that are runnable
    /// after it, in cyclic order. Under `Yield` the current one stands last. None exactly where none is runnable.
    pub fn switch(&mut self, point: Point) -> Option<GoId>
        ensures next { result ≡ next_at point (state_of self.old) }
        ensures after { state_of self.new ≡ switched point (state_of self.old) }
    {
        if let Point::Ended = point {
            self.stop();
        }
        let first = self.first_place(point);
        self.go_on_from(first)
    }

    /// Where the candidates begin among those that are runnable, in cyclic order.
    fn first_place(&self, point: Point) -> usize
        ensures within { result ≤ length (state_of self.now).runnable }
        ensures first { from_place result (state_of self.now).runnable ≡ candidates point (state_of self.now) }
    {
        match point {
            Point::Yield => self.place_behind(self.current),
            Point::After | Point::Blocked | Point::Ended => self.place(self.current),
        }
    }

    /// Chooses among those that are runnable, in cyclic order from a place on.
    fn go_on_from(&mut self, first: usize) -> Option<GoId>
        requires { first ≤ length (state_of self.old).runnable }
        ensures next { result ≡ next_among (from_place first (state_of self.old).runnable) (state_of self.old) }
        ensures after { state_of self.new ≡
            switched_among (from_place first (state_of self.old).runnable) (state_of self.old) }
    {
        let count = self.runnable.len();
        if count == 0 {
            return None;
        }
        let chosen = self.pick(count as u64) as usize;
        let at = first.saturating_add(chosen) % count;
        match self.runnable.get(at) {
            Some(number) => {
                self.current = GoId { number: *number };
                Some(self.current)
            }
            None => None,
        }
    }
}
