//! The classes of a program: its declared types that are no interfaces, its struct types, and pointers to both; and the
//! methods that they have. Go specification, "Method sets".

ghost use Rattle.std.specs.Prelude.{◌≡◌, ◌+◌, ◌<◌, IfOk, OnOk, IfSome, length, [], Some, None, ℕ};
ghost use Rattle.cg_numbers.specs.Numbered.{Extends, IsAt, IsOnce};
ghost use Rattle.cg_sets.specs.Candidates.{ArePointed, IsBase};
ghost use Rattle.cg_sets.specs.Classes.{AreClasses, HasMethods, Below, MethodAt, PutsMethod, key_of, method_at};

use crate::aiming::{Aiming, aiming_of};
use crate::class_list::{ClassList, class_list};
use cg_numbers::Numbers;
use cg_solve::Table;
use go_base::{NameId, NoMemory, TypeId};
use go_tree::Program;
use go_type::{MethodEntry, method_set};
use indexmap::{IndexMap, IndexSet};
use std::alloc::Global;

/// The name of a method, with the package that it belongs to.
#[derive(Clone, Copy, PartialEq, Eq, Hash)]
pub struct MethodName {
    pub name: NameId,
    pub package: u32,
}

/// A method of a class, by the class's place and the name's number.
#[derive(Clone, Copy, PartialEq, Eq, Hash)]
pub struct MethodOf {
    pub class: usize,
    pub name: usize,
}

/// A method of a class.
#[derive(Clone, Copy)]
pub struct ClassMethod {
    /// Its function type without the receiver, without tags.
    pub of: TypeId,
    pub aiming: Aiming,
}

/// The classes and their methods.
#[derive(Drop)]
pub struct Classes {
    pub list: ClassList,
    pub names: IndexSet<MethodName>,
    pub methods: IndexMap<MethodOf, ClassMethod>,
    /// The places of the classes that have a method of a name, by the name's number.
    pub having: Table<usize>,
}

/// The classes of a program.
pub fn classes_of(
    alloc: Global,
    program: &Program,
    numbers: &mut Numbers,
) -> Result<Classes, NoMemory>
    ensures classes { IfOk result (AreClasses program.now numbers.new) }
    ensures pointed { OnOk result (ArePointed numbers.new.likeness.types (IsBase program.now numbers.new.likeness.types numbers.new.likeness.bares)) }
    ensures extends { OnOk result (Extends numbers.old numbers.new) }
{
    let list = class_list(alloc, program, numbers)?;
    let mut classes = Classes {
        list,
        names: IndexSet::new(alloc),
        methods: IndexMap::new(alloc),
        having: Table::new(alloc),
    };
    classes.add_methods(alloc, program, numbers)?;
    Ok(classes)
}

impl Classes {
    fn add_methods(
        &mut self,
        alloc: Global,
        program: &Program,
        numbers: &mut Numbers,
    ) -> Result<(), NoMemory>
        ensures list { OnOk result (self.new.list ≡ self.old.list) }
        ensures extends { OnOk result (Extends numbers.old numbers.new) }
        ensures methods { OnOk result (HasMethods program.now numbers.old self.old (Below 0) → HasMethods program.now numbers.new self.new (Below (length self.new.list.types.keys))) }
    {
        for class in 0..self.list.types.len() {
            self.add_methods_of(alloc, program, numbers, class)?;
        }
        Ok(())
    }

    /// The methods of the class at a place.
    fn add_methods_of(
        &mut self,
        alloc: Global,
        program: &Program,
        numbers: &mut Numbers,
        class: usize,
    ) -> Result<(), NoMemory>
        ensures list { OnOk result (self.new.list ≡ self.old.list) }
        ensures extends { OnOk result (Extends numbers.old numbers.new) }
        ensures methods { OnOk result (HasMethods program.now numbers.old self.old (Below class) → HasMethods program.now numbers.new self.new (Below (class + 1))) }
    {
        let Some(of) = self.list.at(class) else {
            return Ok(());
        };
        let set = method_set(alloc, &numbers.likeness.types, of)?;
        for entry in set.as_slice() {
            self.add_method(alloc, program, numbers, class, of, entry)?;
        }
        Ok(())
    }

    fn add_method(
        &mut self,
        alloc: Global,
        program: &Program,
        numbers: &mut Numbers,
        class: usize,
        of: TypeId,
        entry: &MethodEntry,
    ) -> Result<(), NoMemory>
        ensures list { OnOk result (self.new.list ≡ self.old.list) }
        ensures extends { OnOk result (Extends numbers.old numbers.new) }
        ensures puts { OnOk result (PutsMethod program.now.functions numbers.new self.old self.new class of entry.now) }
    {
        let bare = numbers.likeness.bare(entry.of);
        let aiming = aiming_of(program, numbers, of, entry)?;
        let method = ClassMethod { of: bare, aiming };
        let (name, _) = self.names.insert_full(MethodName {
            name: entry.name,
            package: entry.package,
        })?;
        let _ = self.methods.insert(MethodOf { class, name }, method)?;
        self.having.put(alloc, name, class)?;
        Ok(())
    }

    /// Each name is listed once.
    pub fn laws(&self)
        ensures { IsOnce self.now.names.keys }
    {
        let _names = self.names.len();
    }

    /// The method of the name of a number that the class at a place has.
    pub fn method(&self, class: usize, name: usize) -> Option<ClassMethod>
        ensures { result ≡ method_at self.now class name }
    {
        self.methods.get(&MethodOf { class, name }).copied()
    }

    /// The number of a method's name. None where no class has such a method.
    pub fn name(&self, name: NameId, package: u32) -> Option<usize>
        ensures some { IfSome result (λ j. IsAt self.now.names.keys j (record { name = name; «package» = «package» })) }
        ensures none { result ≡ None → (j : ℕ) → IsAt self.now.names.keys j (record { name = name; «package» = «package» }) → ⊥ }
    {
        self.names.get_index_of(&MethodName { name, package })
    }
}
