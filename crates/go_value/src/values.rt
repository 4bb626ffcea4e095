//! Values.

ghost use Rattle.std.specs.Prelude.{◌≡◌, IfOk, false};
ghost use Rattle.go_value.specs.Values.{value_of, range_of, function_of, parts_of};
ghost use Rattle.go_value.specs.Kinds.{renumbered};
ghost use Rattle.go_value.specs.Values as vals;

use crate::address::{Address, SliceValue};
use crate::memory::shared;
use go_base::{Bytes, ChanId, FuncId, MapId, NameId, NoMemory, TypeId};
use std::alloc::Global;
use std::marker::Model;
use std::rc::Rc;

/// A value. What owns memory is shared, so that a copy takes none.
#[cycle(value)]
pub enum Value {
    Truth(bool),
    Int(i128),
    Text(Rc<Bytes>),
    Pointer(Address),
    Slice(Rc<SliceValue>),
    Map(Option<MapId>),
    Chan(Option<ChanId>),
    Func(Rc<FuncValue>),
    NilInterface,
    Interface(Rc<Dynamic>),
    /// An array or a struct; in registers also a tuple.
    Parts(Rc<Vec<Part>>),
    /// The state of a range. Of registers alone.
    Iter(Box<RangeState>),
}

impl Drop for Value {
    #[cycle(drops)]
    fn drop(self) {
        match self {
            Value::Truth(_held) => {}
            Value::Int(_held) => {}
            Value::Text(_held) => {}
            Value::Pointer(_held) => {}
            Value::Slice(_held) => {}
            Value::Map(_held) => {}
            Value::Chan(_held) => {}
            Value::Func(_held) => {}
            Value::NilInterface => {}
            Value::Interface(_held) => {}
            Value::Parts(_held) => {}
            Value::Iter(_held) => {}
        }
    }
}

/// An element or a field. A contract sees what its value is.
#[cycle(value)]
pub struct Part {
    pub value: Value,
    /// Whether it is a field named `_`.
    pub blank: bool,
}

impl Drop for Part {
    #[cycle(drops)]
    fn drop(self) {
        let Part {
            value: _value,
            blank: _blank,
        } = self;
    }
}

impl Model for Part {
    ghost use Rattle.std.specs.Coded.{codes};
    ghost use Rattle.go_value.specs.Plain.{Field};
    ghost use Rattle.go_value.specs.Counts.{count};
    ghost use Rattle.go_value.specs.Signs.{field_code};

    ghost Value = { Field };

    ghost coded = { field_code (Prim.hlevel codes) };

    ghost use Rattle.go_value.specs.Values.{value_of};

    ghost view = { λ p. record { value = value_of p.value; blank = p.blank } };

    ghost size = { λ f. count f.value };

    ghost use Rattle.go_value.specs.Falls.{values_fall};

    ghost size_decreases = { λ p _. values_fall p.value };
}

/// What an interface holds: a value and its type, which is no interface. A contract sees what the value is.
#[cycle(value)]
pub struct Dynamic {
    pub(crate) of: TypeId,
    pub(crate) value: Value,
    /// The depth of the value.
    pub(crate) inner_depth: u64,
}

impl Drop for Dynamic {
    #[cycle(drops)]
    fn drop(self) {
        let Dynamic {
            of: _of,
            value: _value,
            inner_depth: _inner_depth,
        } = self;
    }
}

impl Model for Dynamic {
    ghost use Rattle.std.specs.Prelude.{◌≡◌};
    ghost use Rattle.std.specs.Coded.{codes};
    ghost use Rattle.go_value.specs.Plain.{Typed};
    ghost use Rattle.go_value.specs.Counts.{count};
    ghost use Rattle.go_value.specs.Signs.{typed_code};

    ghost Value = { Typed };

    ghost coded = { typed_code (Prim.hlevel codes) (Prim.hlevel codes) };

    ghost use Rattle.go_value.specs.Depths.{depth, capped};
    ghost use Rattle.go_value.specs.Values.{value_of};

    ghost view = { λ d. record { of = d.of; value = value_of d.value } };

    ghost invariant = { λ d. d.inner_depth ≡ capped (depth (value_of d.value)) };

    ghost size = { λ t. count t.value };

    ghost use Rattle.go_value.specs.Falls.{values_fall};

    ghost size_decreases = { λ d _. values_fall d.value };
}

/// The receiver that a method value is bound to. A contract sees what it is.
#[cycle(value)]
pub struct Receiver {
    pub(crate) value: Value,
    /// The depth of the value.
    pub(crate) inner_depth: u64,
}

impl Drop for Receiver {
    #[cycle(drops)]
    fn drop(self) {
        let Receiver {
            value: _value,
            inner_depth: _inner_depth,
        } = self;
    }
}

impl Model for Receiver {
    ghost use Rattle.std.specs.Prelude.{◌≡◌};
    ghost use Rattle.std.specs.Coded.{codes};
    ghost use Rattle.go_value.specs.Plain.{Val};
    ghost use Rattle.go_value.specs.Counts.{count};
    ghost use Rattle.go_value.specs.Signs.{value_code};

    ghost Value = { Val };

    ghost coded = { value_code (Prim.hlevel codes) };

    ghost use Rattle.go_value.specs.Depths.{depth, capped};
    ghost use Rattle.go_value.specs.Values.{value_of};

    ghost view = { λ r. value_of r.value };

    ghost invariant = { λ r. r.inner_depth ≡ capped (depth (value_of r.value)) };

    ghost size = { count };

    ghost use Rattle.go_value.specs.Falls.{values_fall};

    ghost size_decreases = { λ r _. values_fall r.value };
}

/// A function value.
#[cycle(value)]
pub enum FuncValue {
    Nil,
    Closure {
        function: FuncId,
        captured: Vec<Address>,
    },
    Bound {
        target: BoundTarget,
        receiver: Box<Receiver>,
    },
    Expression {
        receiver: TypeId,
        name: NameId,
        package: u32,
    },
}

impl Drop for FuncValue {
    #[cycle(drops)]
    fn drop(self) {
        match self {
            FuncValue::Nil => {}
            FuncValue::Closure {
                function: _function,
                captured: _captured,
            } => {}
            FuncValue::Bound {
                target: _target,
                receiver: _receiver,
            } => {}
            FuncValue::Expression {
                receiver: _receiver,
                name: _name,
                package: _package,
            } => {}
        }
    }
}

/// What a method value calls.
#[derive(Clone, Copy, PartialEq, Eq)]
pub enum BoundTarget {
    Function(FuncId),
    Interface { name: NameId, package: u32 },
}

/// How far a range over a text or a map has come.
#[derive(Drop)]
pub enum RangeState {
    Text { bytes: Rc<Bytes>, next: u64 },
    /// The numbers of the entries that were not produced yet, the last first.
    Map { map: Option<MapId>, left: Vec<u64> },
}

impl RangeState {
    /// The same state once more.
    pub fn copy(&self, alloc: Global) -> Result<RangeState, NoMemory>
        ensures { IfOk result (λ copy. range_of copy ≡ range_of self.now) }
    {
        Ok(match self {
            RangeState::Text { bytes, next } => RangeState::Text {
                bytes: bytes.clone()?,
                next: *next,
            },
            RangeState::Map { map, left } => RangeState::Map {
                map: *map,
                left: Vec::from_slice(alloc, left.as_slice())?,
            },
        })
    }
}

impl Value {
    /// The same value once more. It takes no memory but for the state of a range.
    pub fn copy(&self, alloc: Global) -> Result<Value, NoMemory>
        ensures { IfOk result (λ copy. value_of copy ≡ value_of self.now) }
    {
        Ok(match self {
            Value::Truth(truth) => Value::Truth(*truth),
            Value::Int(number) => Value::Int(*number),
            Value::Text(text) => Value::Text(text.clone()?),
            Value::Pointer(address) => Value::Pointer(address.copy()?),
            Value::Slice(slice) => Value::Slice(slice.clone()?),
            Value::Map(map) => Value::Map(*map),
            Value::Chan(chan) => Value::Chan(*chan),
            Value::Func(function) => Value::Func(function.clone()?),
            Value::NilInterface => Value::NilInterface,
            Value::Interface(dynamic) => Value::Interface(dynamic.clone()?),
            Value::Parts(parts) => Value::Parts(parts.clone()?),
            Value::Iter(state) => Value::Iter(Box::new(alloc, state.copy(alloc)?)?),
        })
    }

    /// The value of a text.
    pub fn text(alloc: Global, bytes: Bytes) -> Result<Value, NoMemory>
        ensures { IfOk result (λ value. value_of value ≡ vals.text bytes) }
    {
        Ok(Value::Text(shared(alloc, bytes)?))
    }

    /// The value of a slice.
    pub fn slice(alloc: Global, slice: SliceValue) -> Result<Value, NoMemory>
        ensures { IfOk result (λ value. value_of value ≡ vals.slice slice) }
    {
        Ok(Value::Slice(shared(alloc, slice)?))
    }

    /// The value of a function.
    pub fn function(alloc: Global, function: FuncValue) -> Result<Value, NoMemory>
        ensures { IfOk result (λ value. value_of value ≡ function_of function) }
    {
        Ok(Value::Func(shared(alloc, function)?))
    }

    /// The value of parts.
    pub fn parts(alloc: Global, parts: Vec<Part>) -> Result<Value, NoMemory>
        ensures { IfOk result (λ value. value_of value ≡ vals.parts (parts_of parts.items)) }
    {
        Ok(Value::Parts(shared(alloc, parts)?))
    }
}

impl Value {
    /// Puts an integer in the place of one. Any other value stays as it is.
    pub fn put_int(&mut self, number: i128)
        ensures { value_of self.new ≡ renumbered number (value_of self.old) }
    {
        match self {
            Value::Int(place) => *place = number,
            _ => {}
        }
    }
}

impl Part {
    /// A part that is no field named `_`.
    pub fn plain(value: Value) -> Part
        ensures { result ≡ record { value = value_of value; blank = false } }
    {
        Part {
            value,
            blank: false,
        }
    }
}
