//! Whether operands have values: no constant is the zero value of a type that has none.

ghost use Rattle.std.specs.Prelude.{◌≡◌, ◌∷◌, ◌++◌, [], is_some};
ghost use Rattle.std.specs.List.{list_all};
ghost use Rattle.ssa_mean.specs.Operands.{constant_value};
ghost use Rattle.ssa_runnable.specs.Runnable.{has_meaning, operands_if, operands_of_call, operands_of_cases, operands_of_edges, operands_of};

use crate::sites::Site;
use go_base::TypeId;
use ssa_ir::{Call, ConstValue, Op, Operand, PhiEdge, SelectCase};

impl Site<'_> {
    /// Whether the operands of an instruction have values.
    pub fn have_meaning(&self, op: &Op) -> bool
        ensures { result ≡ list_all (has_meaning self.now.code.now) (operands_of op.now) }
    {
        match op {
            Op::New(_) | Op::MakeMap(_) | Op::RunDefers | Op::Tick | Op::Jump(_) => true,
            Op::Phi(edges) => self.edges(edges.as_slice()),
            Op::Unary { operand, .. }
            | Op::Load(operand)
            | Op::Field { operand, .. }
            | Op::FieldAddress { operand, .. }
            | Op::Convert { operand, .. }
            | Op::ChangeType { operand, .. }
            | Op::MakeInterface { operand, .. }
            | Op::ChangeInterface { operand, .. }
            | Op::TypeAssert { operand, .. }
            | Op::Range(operand)
            | Op::Next(operand)
            | Op::Extract { operand, .. }
            | Op::Panic(operand) => self.one(operand),
            Op::MakeChan { size, .. } => self.one(size),
            Op::Receive { channel, .. } => self.one(channel),
            Op::If { test, .. } => self.one(test),
            Op::Binary { left, right, .. } => self.two(left, right),
            Op::Store { at, value } => self.two(at, value),
            Op::Index { operand, index } | Op::IndexAddress { operand, index } => {
                self.two(operand, index)
            }
            Op::Lookup { map, key, .. } => self.two(map, key),
            Op::MakeSlice { len, cap, .. } => self.two(len, cap),
            Op::Send { channel, value } => self.two(channel, value),
            Op::Update { map, key, value } => self.has_meaning(map) && self.two(key, value),
            Op::Slice {
                operand,
                low,
                high,
                max,
            } => self.has_meaning(operand) && self.bounds(low, high, max),
            Op::MakeClosure { captured, .. } => self.all(captured.as_slice()),
            Op::Return(results) => self.all(results.as_slice()),
            Op::Call(call) | Op::Go(call) | Op::Defer(call) => self.call(call),
            Op::Select { cases, .. } => self.cases(cases.as_slice()),
        }
    }

    fn has_meaning(&self, operand: &Operand) -> bool
        ensures { result ≡ has_meaning self.now.code.now operand.now }
    {
        match operand {
            Operand::Constant { value, of } => self.has_constant(value, *of),
            _ => true,
        }
    }

    fn has_constant(&self, value: &ConstValue, of: TypeId) -> bool
        ensures { result ≡ is_some (constant_value self.now.code.now value.now of) }
    {
        match value {
            ConstValue::Nil | ConstValue::Zero => self.has_zero(of),
            _ => true,
        }
    }

    fn one(&self, operand: &Operand) -> bool
        ensures { result ≡ list_all (has_meaning self.now.code.now) (operand.now ∷ []) }
    {
        self.has_meaning(operand)
    }

    fn two(&self, first: &Operand, second: &Operand) -> bool
        ensures { result ≡ list_all (has_meaning self.now.code.now) (first.now ∷ second.now ∷ []) }
    {
        self.has_meaning(first) && self.one(second)
    }

    fn where_there(&self, operand: &Option<Operand>) -> bool
        ensures { result ≡ list_all (has_meaning self.now.code.now) (operands_if operand.now) }
    {
        match operand {
            Some(operand) => self.one(operand),
            None => true,
        }
    }

    #[tactic(auto, using(crate::proofs::Lists::all_three))]
    fn bounds(&self, low: &Option<Operand>, high: &Option<Operand>, max: &Option<Operand>) -> bool
        ensures { result ≡ list_all (has_meaning self.now.code.now) (operands_if low.now ++ (operands_if high.now ++ operands_if max.now)) }
    {
        self.where_there(low) && self.where_there(high) && self.where_there(max)
    }

    fn all(&self, operands: &[Operand]) -> bool
        ensures { result ≡ list_all (has_meaning self.now.code.now) operands.now }
    {
        for operand in operands {
            if !self.has_meaning(operand) {
                return false;
            }
        }
        true
    }

    fn call(&self, call: &Call) -> bool
        ensures { result ≡ list_all (has_meaning self.now.code.now) (operands_of_call call.now) }
    {
        match call {
            Call::Static { arguments, .. } | Call::Builtin { arguments, .. } => {
                self.all(arguments.as_slice())
            }
            Call::Dynamic { callee, arguments } => {
                self.has_meaning(callee) && self.all(arguments.as_slice())
            }
            Call::Invoke {
                receiver,
                arguments,
                ..
            } => self.has_meaning(receiver) && self.all(arguments.as_slice()),
        }
    }

    fn edges(&self, edges: &[PhiEdge]) -> bool
        ensures { result ≡ list_all (has_meaning self.now.code.now) (operands_of_edges edges.now) }
    {
        for edge in edges {
            if !self.has_meaning(&edge.value) {
                return false;
            }
        }
        true
    }

    fn cases(&self, cases: &[SelectCase]) -> bool
        ensures { result ≡ list_all (has_meaning self.now.code.now) (operands_of_cases cases.now) }
    {
        for case in cases {
            if !self.case(case) {
                return false;
            }
        }
        true
    }

    fn case(&self, case: &SelectCase) -> bool
        ensures { result ≡ list_all (has_meaning self.now.code.now) (operands_of_cases (case.now ∷ [])) }
    {
        match case {
            SelectCase::Send { channel, value } => self.two(channel, value),
            SelectCase::Receive { channel } => self.one(channel),
        }
    }
}
