//! Operations on channels, and what they make of those that waited. A contract sees each list as a list.

ghost use Rattle.std.specs.Prelude.{◌≡◌, ◌++◌, ◌∷◌, ◌==◌, [], length, OnOk, OnErr};

use go_base::{ChanId, GoId, NoMemory};
use go_value::Value;
use std::alloc::Global;
use std::marker::Model;

/// A send or a receive.
#[derive(Drop)]
pub enum ChanOp {
    Send { chan: Option<ChanId>, value: Value },
    Receive { chan: Option<ChanId> },
}

/// The cases of a `select`, in source order.
#[derive(Drop)]
pub struct Cases {
    cases: Vec<ChanOp>,
}

impl Model for Cases {
    ghost use Rattle.std.specs.Prelude.{List};
    ghost use Rattle.go_sched.specs.declared.lists.ChanOp.{ChanOp};

    ghost Value = { List ChanOp };

    ghost view = { λ c. c.cases.items };

    ghost use Rattle.go_value.specs.contracts.values.Value as e;
    ghost use Rattle.std.specs.Coded.{codes};

    ghost coded = { Prim.hlevel (codes, e.the_row.coded) };
}

impl Cases {
    /// No cases.
    pub fn new(alloc: Global) -> Cases
        ensures { result ≡ [] }
    {
        Cases {
            cases: Vec::new(alloc),
        }
    }

    /// Adds a case at the end. After `NoMemory` the list is as before.
    pub fn push(&mut self, case: ChanOp) -> Result<(), NoMemory>
        ensures ok { OnOk result (self.new ≡ self.old ++ case ∷ []) }
        ensures err { OnErr result (self.new ≡ self.old) }
    {
        self.cases.push(case)?;
        Ok(())
    }

    /// The cases themselves.
    pub fn as_slice(&self) -> &[ChanOp]
        ensures { result.now ≡ self.now }
    {
        self.cases.as_slice()
    }

    /// How many cases there are.
    pub fn len(&self) -> usize
        ensures { result ≡ length self.now }
    {
        self.cases.len()
    }

    /// Whether there are none.
    pub fn is_empty(&self) -> bool
        ensures { result ≡ (length self.now == 0) }
    {
        self.cases.len() == 0
    }
}

/// How a goroutine goes on that waited.
#[derive(Drop)]
pub enum WakeResult {
    Sent,
    /// None where the channel was closed.
    Received(Option<Value>),
    /// It waited to send on the channel that is closed.
    SendOnClosed,
}

/// A goroutine that goes on, with a case of its `select` in source order, which is 0 where it waited in a send or
/// receive.
#[derive(Drop)]
pub struct Wake {
    pub goroutine: GoId,
    pub index: u32,
    pub result: WakeResult,
}

/// Those that go on, in the order in which they are served.
#[derive(Drop)]
pub struct Wakes {
    wakes: Vec<Wake>,
}

impl Model for Wakes {
    ghost use Rattle.std.specs.Prelude.{List};
    ghost use Rattle.go_sched.specs.declared.lists.Wake.{Wake};

    ghost Value = { List Wake };

    ghost view = { λ w. w.wakes.items };

    ghost use Rattle.go_value.specs.contracts.values.Value as e;
    ghost use Rattle.std.specs.Coded.{codes};

    ghost coded = { Prim.hlevel (codes, e.the_row.coded) };
}

impl Wakes {
    /// Nobody.
    pub fn new(alloc: Global) -> Wakes
        ensures { result ≡ [] }
    {
        Wakes {
            wakes: Vec::new(alloc),
        }
    }

    /// Adds one at the end. After `NoMemory` the list is as before.
    pub fn push(&mut self, wake: Wake) -> Result<(), NoMemory>
        ensures ok { OnOk result (self.new ≡ self.old ++ wake ∷ []) }
        ensures err { OnErr result (self.new ≡ self.old) }
    {
        self.wakes.push(wake)?;
        Ok(())
    }

    /// Those that go on.
    pub fn as_slice(&self) -> &[Wake]
        ensures { result.now ≡ self.now }
    {
        self.wakes.as_slice()
    }

    /// Those that go on, handed over.
    pub fn into_items(self) -> Vec<Wake>
        ensures { result.items ≡ self }
    {
        self.wakes
    }

    /// How many go on.
    pub fn len(&self) -> usize
        ensures { result ≡ length self.now }
    {
        self.wakes.len()
    }

    /// Whether nobody does.
    pub fn is_empty(&self) -> bool
        ensures { result ≡ (length self.now == 0) }
    {
        self.wakes.len() == 0
    }
}
