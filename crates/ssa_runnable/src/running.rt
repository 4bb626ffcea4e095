//! Whether an instruction has a meaning wherever a run comes to it.

ghost use Rattle.std.specs.Prelude.{◌≡◌, IfOk, false, is_some};
ghost use Rattle.std.specs.List.{list_all};
ghost use Rattle.std.specs.Option.{option_copied, option_map_or};
ghost use Rattle.go_type.specs.Assignable.{underlying_term_of};
ghost use Rattle.go_type.specs.Selector.{is_pointer};
ghost use Rattle.ssa_mean.specs.BuiltIns.{clear_of, first_term};
ghost use Rattle.ssa_mean.specs.Operands as ir;
ghost use Rattle.ssa_mean.specs.Ranges.{ranged};
ghost use Rattle.ssa_runnable.specs.Runnable.{captures, has_edges, has_length, has_turns, has_zero, receives_zero, runs, runs_builtin, runs_call, runs_op};

use crate::sites::Site;
use go_base::{FuncId, NoMemory, TypeId};
use go_type::{Basic, Builtin, TypeTerm, Types};
use ssa_ir::{Call, Function, FunctionKind, Op, Operand, PhiEdge, SelectCase};

impl Site<'_> {
    pub fn runs(&self, op: &Op) -> Result<bool, NoMemory>
        ensures { IfOk result (λ r. r ≡ runs self.now.code.now self.now.function.now op.now) }
    {
        Ok(self.runs_op(op)? && self.have_meaning(op))
    }

    fn runs_op(&self, op: &Op) -> Result<bool, NoMemory>
        ensures { IfOk result (λ r. r ≡ runs_op self.now.code.now self.now.function.now op.now) }
    {
        match op {
            Op::New(of) => Ok(self.has_zero(*of)),
            Op::Phi(edges) => Ok(has_edges(edges.as_slice())),
            Op::Lookup { map, .. } => self.elements_have_zero(map),
            Op::MakeInterface { operand, .. } => Ok(self.type_of(operand)?.is_some()),
            Op::MakeClosure { function, .. } => Ok(self.captures(*function)),
            Op::MakeSlice { of, .. } => Ok(self.has_zero_where(self.element_below(*of))),
            Op::TypeAssert { to, .. } => Ok(self.has_zero(*to)),
            Op::Call(call) | Op::Go(call) | Op::Defer(call) => self.runs_call(call),
            Op::Receive { channel, .. } => self.elements_have_zero(channel),
            Op::Select { cases, .. } => self.receive_zeros(cases.as_slice()),
            Op::Next(range) => self.has_turns(range),
            _ => Ok(true),
        }
    }

    fn elements_have_zero(&self, operand: &Operand) -> Result<bool, NoMemory>
        ensures { let c = self.now.code.now in IfOk result (λ r. r ≡ has_zero c (ir.element_type c self.now.function.now operand.now)) }
    {
        let elem = self.element_type(operand)?;
        Ok(self.has_zero_where(elem))
    }

    /// A method binds its receiver; any other closure captures pointers.
    fn captures(&self, id: FuncId) -> bool
        ensures { let c = self.now.code.now in result ≡ option_map_or (λ function. captures c.types function.kind function.free) (ir.function_at c id) false }
    {
        match self.code.functions.as_slice().get(id.number as usize) {
            Some(function) => captures(&self.code.types, function),
            None => false,
        }
    }

    fn runs_call(&self, call: &Call) -> Result<bool, NoMemory>
        ensures { IfOk result (λ r. r ≡ runs_call self.now.code.now self.now.function.now call.now) }
    {
        match call {
            Call::Builtin { builtin, arguments } => {
                self.runs_builtin(*builtin, arguments.as_slice())
            }
            _ => Ok(true),
        }
    }

    fn runs_builtin(&self, builtin: Builtin, arguments: &[Operand]) -> Result<bool, NoMemory>
        ensures { IfOk result (λ r. r ≡ runs_builtin self.now.code.now self.now.function.now builtin arguments.now) }
    {
        match builtin {
            Builtin::Clear => self.clears(arguments),
            Builtin::Len | Builtin::Cap => self.has_length(arguments),
            _ => Ok(true),
        }
    }

    /// The elements of a slice that is cleared have a zero value.
    fn clears(&self, arguments: &[Operand]) -> Result<bool, NoMemory>
        ensures { let c = self.now.code.now in IfOk result (λ r. r ≡ is_some (clear_of c (first_term c self.now.function.now arguments.now))) }
    {
        match self.first_term(arguments)? {
            Some(TypeTerm::Slice(elem)) => Ok(self.has_zero(*elem)),
            _ => Ok(true),
        }
    }

    /// Lengths of arrays are constants, and need no call.
    fn has_length(&self, arguments: &[Operand]) -> Result<bool, NoMemory>
        ensures { let c = self.now.code.now in IfOk result (λ r. r ≡ has_length (first_term c self.now.function.now arguments.now)) }
    {
        let first = self.first_term(arguments)?;
        Ok(matches!(
            first,
            Some(
                TypeTerm::Basic(Basic::Text)
                    | TypeTerm::Slice(_)
                    | TypeTerm::Map { .. }
                    | TypeTerm::Chan { .. }
            )
        ))
    }

    fn first_term(&self, arguments: &[Operand]) -> Result<Option<&TypeTerm>, NoMemory>
        ensures { IfOk result (λ term. option_copied term ≡ first_term self.now.code.now self.now.function.now arguments.now) }
    {
        match arguments.first() {
            Some(first) => self.term_of(first),
            None => Ok(None),
        }
    }

    fn receive_zeros(&self, cases: &[SelectCase]) -> Result<bool, NoMemory>
        ensures { let c = self.now.code.now in IfOk result (λ r. r ≡ list_all (receives_zero c self.now.function.now) cases.now) }
    {
        for case in cases {
            if !self.receives_zero(case)? {
                return Ok(false);
            }
        }
        Ok(true)
    }

    fn receives_zero(&self, case: &SelectCase) -> Result<bool, NoMemory>
        ensures { IfOk result (λ r. r ≡ receives_zero self.now.code.now self.now.function.now case.now) }
    {
        match case {
            SelectCase::Send { .. } => Ok(true),
            SelectCase::Receive { channel } => self.elements_have_zero(channel),
        }
    }

    /// A string is ranged over, or a map whose keys and elements have zero values.
    fn has_turns(&self, range: &Operand) -> Result<bool, NoMemory>
        ensures { let c = self.now.code.now in IfOk result (λ r. r ≡ has_turns c (ranged c (ir.term_of c self.now.function.now range.now))) }
    {
        match self.term_of(range)? {
            Some(TypeTerm::Iter(over)) => Ok(self.ranges(*over)),
            _ => Ok(true),
        }
    }

    fn ranges(&self, over: TypeId) -> bool
        ensures { let c = self.now.code.now in result ≡ has_turns c (underlying_term_of c.types over) }
    {
        match self.code.types.underlying_term(over) {
            Some(TypeTerm::Map { key, elem }) => self.has_zero(*key) && self.has_zero(*elem),
            _ => true,
        }
    }
}

fn has_edges(edges: &[PhiEdge]) -> bool
    ensures { result ≡ has_edges edges.now }
{
    !edges.is_empty()
}

fn captures(types: &Types, function: &Function) -> bool
    ensures { result ≡ captures types.now function.now.kind function.now.free }
{
    let free = function.free.as_slice();
    match function.kind {
        FunctionKind::Wrapper => free.len() == 1,
        _ => are_pointers(types, free),
    }
}

fn are_pointers(types: &Types, ids: &[TypeId]) -> bool
    ensures { result ≡ list_all (λ of. is_pointer (underlying_term_of types.now of)) ids.now }
{
    for id in ids {
        if !is_pointer(types, *id) {
            return false;
        }
    }
    true
}

fn is_pointer(types: &Types, of: TypeId) -> bool
    ensures { result ≡ is_pointer (underlying_term_of types.now of) }
{
    matches!(types.underlying_term(of), Some(TypeTerm::Pointer(_)))
}
