//! The state of a run, and how operands are read and registers written.

ghost use Rattle.std.specs.Prelude.{◌≡◌, ◌<◌, ◌++◌, List, Some, true, IfOk, OnOk, OnErr, map, slice_get};
ghost use Rattle.go_value.specs.Values.{Val, value_of};
ghost use Rattle.go_value.specs.Values as vals;
ghost use Rattle.plan_mean.specs.State.{World};

use crate::error::lost;
use crate::frames::Goroutine;
use code_plan::{Arg, MethodName, MethodOf, Plan, PlannedFunction};
use go_base::{Bytes, ChanId, Ending, NoMemory, TypeId};
use go_sched::{Sched, SchedError};
use go_store::Store;
use go_type::implements;
use go_value::{Address, Fault, Part, SliceValue, Value, ValueError};
use indexmap::IndexMap;
use ssa_ir::Code;
use std::alloc::{AllocError, AllocFailed, Global};
use std::rc::Rc;

/// What a step came to. What an ending is stands in the machine.
#[derive(Clone, Copy)]
pub enum Turn {
    Goes,
    Ends,
    WantsMemory,
}

impl Turn {
    /// What a step comes to that may want memory.
    pub fn after(outcome: Result<(), NoMemory>) -> Turn
        ensures ok { OnOk outcome (result ≡ Turn.Goes) }
        ensures err { OnErr outcome (result ≡ Turn.WantsMemory) }
    {
        match outcome {
            Ok(()) => Turn::Goes,
            Err(_) => Turn::WantsMemory,
        }
    }
}

/// A pair of types: one in an interface, and an interface.
#[derive(Clone, Copy, PartialEq, Eq, Hash)]
pub struct TypePair {
    pub of: TypeId,
    pub interface: TypeId,
}

/// The state of a run.
#[derive(Drop)]
pub struct Machine<'a> {
    pub alloc: Global,
    pub code: &'a Code,
    pub plan: &'a Plan,
    pub store: Store,
    pub sched: Sched,
    /// The goroutines but the current one, which stands in `current`.
    pub goroutines: Vec<Goroutine<'a>>,
    pub current: Goroutine<'a>,
    /// How many of the starts were made.
    pub started: usize,
    pub ticks: u64,
    pub output: Vec<u8>,
    pub ending: Option<Ending>,
    /// Values that are on their way.
    pub waiting: Vec<Value>,
    /// Which types implement which interfaces, as far as it was asked.
    pub implemented: IndexMap<TypePair, bool>,
}

/// What a call that may meet a fault makes of it.
#[derive(Clone, Copy)]
pub enum Met {
    Fault(Fault),
    Memory,
}

impl From<ValueError> for Met {
    ghost use Rattle.std.specs.Prelude.{◌≡◌};
    ghost use Rattle.interp_state.specs.Errors.{met_of};

    ghost from_gives = { λ error met. met ≡ met_of error };

    fn from(error: ValueError) -> Met {
        match error {
            ValueError::Fault(fault) => Met::Fault(fault),
            ValueError::OutOfMemory => Met::Memory,
        }
    }
}

impl From<NoMemory> for Met {
    ghost use Rattle.std.specs.Prelude.{◌≡◌};
    ghost use Rattle.interp_state.specs.declared.machine.Met.TheVariants.{Memory};

    ghost from_gives = { λ _ met. met ≡ Memory };

    fn from(_: NoMemory) -> Met {
        Met::Memory
    }
}

impl From<AllocError> for Met {
    ghost use Rattle.std.specs.Prelude.{◌≡◌};
    ghost use Rattle.interp_state.specs.declared.machine.Met.TheVariants.{Memory};

    ghost from_gives = { λ _ met. met ≡ Memory };

    fn from(_: AllocError) -> Met {
        Met::Memory
    }
}

impl<T: Drop> From<AllocFailed<T>> for Met {
    ghost use Rattle.std.specs.Prelude.{◌≡◌};
    ghost use Rattle.interp_state.specs.declared.machine.Met.TheVariants.{Memory};

    ghost from_gives = { λ _ met. met ≡ Memory };

    fn from(_: AllocFailed<T>) -> Met {
        Met::Memory
    }
}

impl From<SchedError> for Met {
    ghost use Rattle.std.specs.Prelude.{◌≡◌};
    ghost use Rattle.interp_state.specs.Errors.{met_of_sched};

    ghost from_gives = { λ error met. met ≡ met_of_sched error };

    fn from(error: SchedError) -> Met {
        match error {
            SchedError::Fault(fault) => Met::Fault(fault),
            SchedError::OutOfMemory => Met::Memory,
        }
    }
}

impl From<Fault> for Met {
    ghost use Rattle.std.specs.Prelude.{◌≡◌};
    ghost use Rattle.interp_state.specs.Errors.{met_of_fault};

    ghost from_gives = { λ error met. met ≡ met_of_fault error };

    fn from(fault: Fault) -> Met {
        Met::Fault(fault)
    }
}

impl<'a> Machine<'a> {
    ghost use Rattle.interp_state.specs.Asked.{AreAsked};
    ghost use Rattle.interp_state.specs.Machines.{machine_of};
    ghost use Rattle.interp_state.specs.States.{looked, PushesRead, Spent, Wrote};
    ghost use Rattle.interp_state.specs.Turns.{Does, Gives, IsIn};
    ghost use Rattle.plan_mean.specs.Calls.{method_at};
    ghost use Rattle.plan_mean.specs.Operands.{look_at_all};
    ghost use Rattle.ssa_mean.specs.Making as making;

    /// A function of the plan.
    pub fn function(&self, number: u32) -> Result<&'a PlannedFunction, NoMemory>
        ensures { IfOk result (λ it. slice_get self.now.plan.now.functions.items number ≡ Some it.now) }
    {
        let plan: &'a Plan = self.plan;
        match plan.functions.get(number as usize) {
            Some(function) => Ok(function),
            None => Err(lost()),
        }
    }

    /// The value of an operand.
    pub fn look<'b>(&'b self, arg: &'b Arg) -> Result<&'b Value, NoMemory>
        ensures { IfOk result (λ it. looked self.now arg.now ≡ Some (value_of it.now)) }
    {
        match arg {
            Arg::Slot(slot) => match self.current.stack.get(*slot as u64) {
                Some(value) => Ok(value),
                None => Err(lost()),
            },
            Arg::Cell(slot) => self.look_in_cell(*slot),
            Arg::Held(value) => Ok(value),
        }
    }

    /// What the cell holds to which the pointer in a slot points.
    fn look_in_cell(&self, slot: u32) -> Result<&Value, NoMemory>
        ensures { IfOk result (λ it. looked self.now (Arg.Cell slot) ≡ Some (value_of it.now)) }
    {
        match self.current.stack.get(slot as u64) {
            Some(Value::Pointer(address)) => match self.store.value_at(address) {
                Some(value) => Ok(value),
                None => Err(lost()),
            },
            _ => Err(lost()),
        }
    }

    /// A copy of the value of an operand.
    pub fn read(&self, arg: &Arg) -> Result<Value, NoMemory>
        ensures { IfOk result (λ it. looked self.now arg.now ≡ Some (value_of it)) }
    {
        self.look(arg)?.copy(self.alloc)
    }

    /// The integer that an operand is.
    pub fn int(&self, arg: &Arg) -> Result<i128, NoMemory>
        ensures { IfOk result (λ it. looked self.now arg.now ≡ Some (vals.number it)) }
    {
        match self.look(arg)? {
            Value::Int(number) => Ok(*number),
            _ => Err(lost()),
        }
    }

    /// The truth value that an operand is.
    pub fn truth(&self, arg: &Arg) -> Result<bool, NoMemory>
        ensures { IfOk result (λ it. looked self.now arg.now ≡ Some (vals.truth it)) }
    {
        match self.look(arg)? {
            Value::Truth(truth) => Ok(*truth),
            _ => Err(lost()),
        }
    }

    /// The address that an operand is.
    pub fn address<'b>(&'b self, arg: &'b Arg) -> Result<&'b Address, NoMemory>
        ensures { IfOk result (λ it. looked self.now arg.now ≡ Some (vals.pointer it.now)) }
    {
        match self.look(arg)? {
            Value::Pointer(address) => Ok(address),
            _ => Err(lost()),
        }
    }

    /// The text that an operand is.
    pub fn text<'b>(&'b self, arg: &'b Arg) -> Result<&'b Rc<Bytes>, NoMemory>
        ensures { IfOk result (λ it. looked self.now arg.now ≡ Some (vals.text it.now.value)) }
    {
        match self.look(arg)? {
            Value::Text(bytes) => Ok(bytes),
            _ => Err(lost()),
        }
    }

    /// The slice that an operand is.
    pub fn slice<'b>(&'b self, arg: &'b Arg) -> Result<&'b SliceValue, NoMemory>
        ensures { IfOk result (λ it. looked self.now arg.now ≡ Some (vals.slice it.now)) }
    {
        match self.look(arg)? {
            Value::Slice(slice) => Ok(slice),
            _ => Err(lost()),
        }
    }

    /// Gives a register a value.
    pub fn set(&mut self, to: u32, value: Value)
        ensures { Wrote to (value_of value) self.old self.new }
    {
        self.current.stack.set(to as u64, value);
    }

    /// Gives a register an integer.
    pub fn set_int(&mut self, to: u32, number: i128) -> Turn
        ensures goes { result ≡ Turn.Goes }
        ensures wrote { Wrote to (vals.number number) self.old self.new }
    {
        self.current.stack.set_int(to as u64, number);
        Turn::Goes
    }

    /// Gives a register a truth value.
    pub fn set_truth(&mut self, to: u32, truth: bool) -> Turn
        ensures goes { result ≡ Turn.Goes }
        ensures wrote { Wrote to (vals.truth truth) self.old self.new }
    {
        self.current.stack.set(to as u64, Value::Truth(truth));
        Turn::Goes
    }

    /// Gives a register what an operation gave, or meets its fault.
    #[inline(never)]
    pub fn give(&mut self, to: u32, outcome: Result<Value, Met>) -> Turn
        ensures { Gives to outcome result self.old self.new }
    {
        match outcome {
            Ok(value) => {
                self.current.stack.set(to as u64, value);
                Turn::Goes
            }
            Err(met) => self.meet(met),
        }
    }

    /// Goes on after an operation without a register, or meets its fault.
    pub fn done(&mut self, outcome: Result<(), Met>) -> Turn
        ensures { Does outcome result self.old self.new }
    {
        match outcome {
            Ok(()) => Turn::Goes,
            Err(met) => self.meet(met),
        }
    }

    /// The run ends.
    pub fn end(&mut self, ending: Ending) -> Turn
        ensures ends { result ≡ Turn.Ends }
        ensures ending { self.new ≡ record self.old { ending = Some ending } }
    {
        self.ending = Some(ending);
        Turn::Ends
    }

    /// Spends a tick. The run ends where none is left.
    pub fn spend(&mut self) -> Turn
        ensures none { self.old.ticks ≡ 0 → (result ≡ Turn.Ends) × (self.new ≡ record self.old { ending = Some Ending.Bound }) }
        ensures spent { 0 < self.old.ticks → (result ≡ Turn.Goes) × Spent self.old self.new }
    {
        if self.ticks == 0 {
            return self.end(Ending::Bound);
        }
        self.ticks = self.ticks.saturating_sub(1);
        Turn::Goes
    }

    /// The function of a method of a dynamic type.
    pub fn method(&self, receiver: TypeId, method: MethodName) -> Result<u32, NoMemory>
        ensures { IfOk result (λ it. (w : World) → IsIn w self.now → method_at w (record { receiver = receiver; method = method }) ≡ Some it) }
    {
        match self.plan.methods.get(&MethodOf { receiver, method }) {
            Some(function) => Ok(*function),
            None => Err(lost()),
        }
    }

    /// Whether a type implements an interface.
    pub fn implements(&mut self, of: TypeId, interface: TypeId) -> Result<bool, NoMemory>
        ensures answer { IfOk result (λ it. (w : World) → IsIn w self.old → it ≡ w.answers.implements of interface) }
        ensures asked { (w : World) → IsIn w self.old → AreAsked w.answers.implements self.new.implemented }
        ensures others { self.new ≡ record self.old { implemented = self.new.implemented } }
    {
        let pair = TypePair { of, interface };
        if let Some(answer) = self.implemented.get(&pair) {
            return Ok(*answer);
        }
        let answer = implements(&self.code.types, of, interface);
        self.implemented.insert(pair, answer)?;
        Ok(answer)
    }

    /// The channel that an operand is.
    pub fn chan(&self, arg: &Arg) -> Result<Option<ChanId>, NoMemory>
        ensures { IfOk result (λ it. looked self.now arg.now ≡ Some (vals.chan_number it)) }
    {
        match self.look(arg)? {
            Value::Chan(chan) => Ok(*chan),
            _ => Err(lost()),
        }
    }

    /// A value and whether there was one.
    pub fn with_ok(&self, value: Value, ok: bool) -> Result<Value, NoMemory>
        ensures { IfOk result (λ it. value_of it ≡ making.with_ok true (value_of value) ok) }
    {
        let mut parts = Vec::new(self.alloc);
        parts.push(Part::plain(value))?;
        parts.push(Part::plain(Value::Truth(ok)))?;
        Value::parts(self.alloc, parts)
    }

    /// A value, with whether there was one where that is asked.
    pub fn with_ok_where(&self, asked: bool, value: Value, ok: bool) -> Result<Value, NoMemory>
        ensures { IfOk result (λ it. value_of it ≡ making.with_ok asked (value_of value) ok) }
    {
        if asked {
            self.with_ok(value, ok)
        } else {
            Ok(value)
        }
    }

    /// The arguments are on their way, behind what was.
    pub fn push_args(&mut self, args: &[Arg]) -> Result<(), NoMemory>
        ensures read { IfOk result (λ _. (its : List Val) × ((look_at_all (machine_of self.old) args.now ≡ Some its) × (map value_of self.new.waiting.items ≡ map value_of self.old.waiting.items ++ its))) }
        ensures others { self.new ≡ record self.old { waiting = self.new.waiting } }
    {
        for arg in args {
            self.push_arg(arg)?;
        }
        Ok(())
    }

    /// One argument more is on its way.
    fn push_arg(&mut self, arg: &Arg) -> Result<(), NoMemory>
        ensures read { OnOk result (PushesRead self.old arg.now self.old.waiting.items self.new.waiting.items) }
        ensures others { self.new ≡ record self.old { waiting = self.new.waiting } }
    {
        let value = self.read(arg)?;
        self.waiting.push(value)?;
        Ok(())
    }
}
