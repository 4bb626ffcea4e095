//! Whether what is put into interfaces has the methods of those that it implements.

ghost use Rattle.std.specs.Prelude.{◌≡◌, IfOk, IsTrue, ◌↔◌};
ghost use Rattle.std.specs.List.{All, Contains};
ghost use Rattle.go_base.specs.declared.ids.TypeId.{TypeId as Id};
ghost use Rattle.ssa_runnable.specs.Methods.{AllHave, HasAll};

use crate::methods::Lines;
use go_base::{NoMemory, TypeId};
use go_type::{MethodType, TypeTerm, implements};
use indexmap::IndexSet;
use std::alloc::Global;

/// The types of a list, each once.
pub(crate) fn distinct(alloc: Global, types: &[TypeId]) -> Result<IndexSet<TypeId>, NoMemory>
    ensures all { IfOk result (λ set. All (Contains set.keys) types.now) }
    ensures only { IfOk result (λ set. All (Contains types.now) set.keys) }
{
    let mut set = IndexSet::new(alloc);
    for of in types {
        set.insert(*of)?;
    }
    Ok(set)
}

impl Lines<'_> {
    /// Whether types have every method of each interface that they implement.
    pub fn stand_everywhere(&self, types: &[TypeId]) -> bool
        ensures { IsTrue result ↔ ((of : Id) → AllHave self.now.code.now types.now of) }
    {
        for number in 0..self.code.types.len() {
            let of = TypeId {
                number: number as u64,
            };
            if !self.stand_at(types, of) {
                return false;
            }
        }
        true
    }

    fn stand_at(&self, types: &[TypeId], interface: TypeId) -> bool
        ensures { IsTrue result ↔ AllHave self.now.code.now types.now interface }
    {
        match self.code.types.underlying_term(interface) {
            Some(TypeTerm::Interface(methods)) => {
                self.stand_for(types, interface, methods.as_slice())
            }
            _ => true,
        }
    }

    fn stand_for(&self, types: &[TypeId], interface: TypeId, methods: &[MethodType]) -> bool
        ensures { IsTrue result ↔ All (HasAll self.now.code.now interface methods.now) types.now }
    {
        for of in types {
            if !self.stands_for(*of, interface, methods) {
                return false;
            }
        }
        true
    }

    fn stands_for(&self, of: TypeId, interface: TypeId, methods: &[MethodType]) -> bool
        ensures { IsTrue result ↔ HasAll self.now.code.now interface methods.now of }
    {
        !implements(&self.code.types, of, interface) || self.have_all(of, methods)
    }
}
