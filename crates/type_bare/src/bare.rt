//! The bare types: each type without the tags of fields, its own and those of the types that it names.

ghost use Rattle.std.specs.Prelude.{◌≡◌, ◌<◌, ◌≤◌, ◌+◌, ◌↔◌, IsTrue, length, IfOk, OnOk, Some, [], slice_get};
ghost use Rattle.go_type.specs.Grows.{Grows};
ghost use Rattle.go_type.specs.Table.{Table};
ghost use Rattle.type_bare.specs.Same.{SameButTags};
ghost use Rattle.type_bare.specs.Stripped.{AreBare, bare_of, IsBareOf, KeepsBare, KeepsDefinitions};

use crate::strip::{bare_of, is_declared, stripped};
use go_base::{NoMemory, TypeId};
use go_type::Types;
use std::alloc::Global;
use std::marker::Model;

/// The bare types that are known: the place of each is the number of the type's id.
#[derive(Drop)]
pub struct Bare {
    types: Vec<TypeId>,
}

impl Model for Bare {
    ghost use Rattle.std.specs.Prelude.{List};
    ghost use Rattle.go_base.specs.declared.ids.TypeId.{TypeId};

    ghost Value = { List TypeId };

    ghost view = { λ b. b.types.items };
}

impl Bare {
    /// None is known.
    pub fn new(alloc: Global) -> Bare
        ensures value { result ≡ [] }
        ensures known { (types : Table) → AreBare result types }
    {
        Bare {
            types: Vec::new(alloc),
        }
    }

    /// The bare type of a type. What is known stays right, also after `NoMemory`.
    pub fn of(&mut self, types: &mut Types, id: TypeId) -> Result<TypeId, NoMemory>
        ensures ok { IfOk result (λ bare. slice_get self.new id.number ≡ Some bare) }
        ensures known { AreBare self.old types.old → AreBare self.new types.new }
        ensures keeps { KeepsBare self.old self.new }
        ensures grows { Grows types.old types.new }
        ensures definitions { KeepsDefinitions types.old types.new }
    {
        self.know(types, (id.number as usize).saturating_add(1))?;
        self.known(id)
    }

    /// The bare types of all types that are held.
    pub fn know_all(&mut self, types: &mut Types) -> Result<(), NoMemory>
        ensures ok { OnOk result (length types.old.terms ≤ length self.new) }
        ensures known { AreBare self.old types.old → AreBare self.new types.new }
        ensures keeps { KeepsBare self.old self.new }
        ensures grows { Grows types.old types.new }
        ensures definitions { KeepsDefinitions types.old types.new }
    {
        let count = types.len();
        self.know(types, count)
    }

    /// The bare type of a type, and the type itself where that is not known.
    pub fn at(&self, id: TypeId) -> TypeId
        ensures { result ≡ bare_of self.now id }
    {
        bare_of(self.types.as_slice(), id)
    }

    /// The bare type of a type, where it is known.
    fn known(&self, id: TypeId) -> Result<TypeId, NoMemory>
        ensures { IfOk result (λ bare. slice_get self.now id.number ≡ Some bare) }
    {
        match self.types.get(id.number as usize) {
            Some(bare) => Ok(*bare),
            None => Err(NoMemory),
        }
    }

    /// Adds the bare types of the types up to a number.
    fn know(&mut self, types: &mut Types, count: usize) -> Result<(), NoMemory>
        ensures ok { OnOk result (count ≤ length self.new) }
        ensures known { AreBare self.old types.old → AreBare self.new types.new }
        ensures keeps { KeepsBare self.old self.new }
        ensures grows { Grows types.old types.new }
        ensures definitions { KeepsDefinitions types.old types.new }
    {
        for place in self.types.len()..count {
            self.add(
                types,
                TypeId {
                    number: place as u64,
                },
            )?;
        }
        Ok(())
    }

    /// Adds the bare type of the first type whose bare type is not known.
    fn add(&mut self, types: &mut Types, id: TypeId) -> Result<(), NoMemory>
        requires { id.number ≡ length self.old }
        ensures ok { OnOk result (length self.new ≡ length self.old + 1) }
        ensures known { AreBare self.old types.old → AreBare self.new types.new }
        ensures keeps { KeepsBare self.old self.new }
        ensures grows { Grows types.old types.new }
        ensures definitions { KeepsDefinitions types.old types.new }
    {
        let bare = self.find(types, id)?;
        types.laws();
        self.types.push(bare)?;
        Ok(())
    }

    /// The bare type of a type, where those of its parts are known.
    fn find(&self, types: &mut Types, id: TypeId) -> Result<TypeId, NoMemory>
        ensures ok { IfOk result (IsBareOf types.new self.now id) }
        ensures held { OnOk result (id.number < length types.old.terms) }
        ensures grows { Grows types.old types.new }
        ensures definitions { KeepsDefinitions types.old types.new }
    {
        let Some(term) = types.get(id) else {
            return Err(NoMemory);
        };
        if is_declared(term) {
            return Ok(id);
        }
        let bare = stripped(types.allocator(), self.types.as_slice(), term)?;
        if !types.can_hold(&bare) {
            return Err(NoMemory);
        }
        types.hold(bare)
    }
}

/// Whether two types are identical but for the tags of fields. What is known stays right, also after `NoMemory`.
pub fn same_but_tags(
    bare: &mut Bare,
    types: &mut Types,
    a: TypeId,
    b: TypeId,
) -> Result<bool, NoMemory>
    ensures ok { AreBare bare.old types.old → IfOk result (λ same. IsTrue same ↔ SameButTags types.new a b) }
    ensures known { AreBare bare.old types.old → AreBare bare.new types.new }
    ensures keeps { KeepsBare bare.old bare.new }
    ensures grows { Grows types.old types.new }
    ensures definitions { KeepsDefinitions types.old types.new }
{
    let first = bare.of(types, a)?;
    let second = bare.of(types, b)?;
    types.laws();
    Ok(first == second)
}
