//! The functions that methods are, by their types and names.

ghost use Rattle.std.specs.Prelude.{◌≡◌, ◌∷◌, ◌==◌, ◌&&◌, IfOk, OnOk, length, slice_get};
ghost use Rattle.go_type.specs.Same.{same_ids};
ghost use Rattle.go_type.specs.Table.{term_at};
ghost use Rattle.std.specs.List.{list_all};
ghost use Rattle.ssa_mean.specs.Calls as calls;
ghost use Rattle.ssa_mean.specs.Operands as ir;
ghost use Rattle.ssa_runnable.specs.Methods.{KnowsMethods, with_method};
ghost use Rattle.ssa_runnable.specs.Runnable as spec;

use go_base::{FuncId, NameId, NoMemory, TypeId};
use go_type::{MethodType, Signature, TypeTerm};
use indexmap::IndexMap;
use ssa_ir::{Code, Function, MethodLine};
use std::alloc::Global;

/// A method of a type.
#[derive(Clone, Copy, PartialEq, Eq, Hash)]
pub struct MethodOf {
    pub receiver: TypeId,
    pub name: NameId,
    pub package: u32,
}

/// The functions that methods are.
pub(crate) fn methods(alloc: Global, code: &Code) -> Result<IndexMap<MethodOf, FuncId>, NoMemory>
    ensures { IfOk result (λ all. KnowsMethods code.now.methods all.entries) }
{
    let mut all = IndexMap::new(alloc);
    for line in code.methods.as_slice() {
        add_method(&mut all, line)?;
    }
    Ok(all)
}

/// Adds a method; the first of its name stays.
fn add_method(all: &mut IndexMap<MethodOf, FuncId>, line: &MethodLine) -> Result<(), NoMemory>
    ensures { OnOk result (all.new.entries ≡ with_method line.now all.old.entries) }
{
    let method = MethodOf {
        receiver: line.receiver,
        name: line.name,
        package: line.package,
    };
    if all.get(&method).is_none() {
        all.insert(method, line.function)?;
    }
    Ok(())
}

/// A code, and its methods.
#[derive(Clone, Copy)]
pub(crate) struct Lines<'a> {
    pub code: &'a Code,
    pub all: &'a IndexMap<MethodOf, FuncId>,
    ghost known: { KnowsMethods code.now.methods all.now.entries },
}

impl Lines<'_> {
    /// Whether the code has methods for a type.
    pub fn have_all(&self, of: TypeId, methods: &[MethodType]) -> bool
        ensures { result ≡ list_all (spec.has_method self.now.code.now of) methods.now }
    {
        for method in methods {
            if !self.has_method(of, method) {
                return false;
            }
        }
        true
    }

    fn has_method(&self, of: TypeId, method: &MethodType) -> bool
        ensures { result ≡ spec.has_method self.now.code.now of method.now }
    {
        match self.method_of(of, method) {
            Some(id) => self.is_method(of, method.of, id),
            None => false,
        }
    }

    fn method_of(&self, of: TypeId, method: &MethodType) -> Option<FuncId>
        ensures { result ≡ calls.method_of self.now.code.now of method.now.name method.now.package }
    {
        let wanted = MethodOf {
            receiver: of,
            name: method.name,
            package: method.package,
        };
        self.all.get(&wanted).copied()
    }

    /// Whether a function takes a receiver of a type, and has a signature.
    fn is_method(&self, of: TypeId, signature: TypeId, id: FuncId) -> bool
        ensures { let c = self.now.code.now in result ≡ spec.is_method of (term_at c.types signature) (ir.function_at c id) }
    {
        let functions = self.code.functions.as_slice();
        match (
            self.code.types.get(signature),
            functions.get(id.number as usize),
        ) {
            (Some(TypeTerm::Func(signature)), Some(function)) => {
                takes_receiver(of, signature, function)
            }
            _ => false,
        }
    }
}

fn takes_receiver(of: TypeId, signature: &Signature, function: &Function) -> bool
    ensures { result ≡ ((length function.now.free == 0) && (same_ids function.now.params (of ∷ signature.now.params) && same_ids function.now.results signature.now.results)) }
{
    function.free.as_slice().is_empty()
        && is_led_by(function.params.as_slice(), of, signature.params.as_slice())
        && function.results.as_slice() == signature.results.as_slice()
}

fn is_led_by(ids: &[TypeId], first: TypeId, others: &[TypeId]) -> bool
    ensures { result ≡ same_ids ids.now (first ∷ others.now) }
{
    match ids {
        [id, rest @ ..] => *id == first && rest == others,
        [] => false,
    }
}
