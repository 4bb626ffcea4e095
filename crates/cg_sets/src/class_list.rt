//! The types of classes, each once, and the numbers of their values.

ghost use Rattle.std.specs.Prelude.{◌≡◌, ◌&&◌, ◌∷◌, [], IfOk, OnOk, not, length, slice_get};
ghost use Rattle.cg_nodes.specs.Kinds as kind;
ghost use Rattle.cg_numbers.specs.Alike.{bare};
ghost use Rattle.cg_numbers.specs.Numbered.{Extends};
ghost use Rattle.cg_sets.specs.Candidates.{IsBase, ArePointed, is_in_some};
ghost use Rattle.cg_sets.specs.ClassLists.{AddsBases, AreListed, AreValued, ListsMore, IsThat, IsDeclaredBase, IsStructBase, IsThisStruct, is_struct_term};
ghost use Rattle.go_type.specs.Table.{term_at};

use cg_nodes::{Value, is_interface};
use cg_numbers::Numbers;
use go_base::{NoMemory, TypeId};
use go_tree::{DeclaredType, Program};
use go_type::{TypeTerm, Types};
use indexmap::IndexSet;
use std::alloc::Global;
use tree_facts::is_in_program;

/// The types of classes, and by place the numbers of their values.
#[derive(Drop)]
pub struct ClassList {
    /// Each without tags and once.
    pub types: IndexSet<TypeId>,
    pub values: Vec<usize>,
}

/// The types of the classes of a program.
pub fn class_list(
    alloc: Global,
    program: &Program,
    numbers: &mut Numbers,
) -> Result<ClassList, NoMemory>
    ensures listed { IfOk result (AreListed program.now numbers.new) }
    ensures pointed { OnOk result (ArePointed numbers.new.likeness.types (IsBase program.now numbers.new.likeness.types numbers.new.likeness.bares)) }
    ensures extends { OnOk result (Extends numbers.old numbers.new) }
{
    let mut list = ClassList {
        types: IndexSet::new(alloc),
        values: Vec::new(alloc),
    };
    list.add_declared(program, numbers)?;
    list.add_structs(program, numbers)?;
    Ok(list)
}

impl ClassList {
    /// The type of the class at a place.
    pub fn at(&self, place: usize) -> Option<TypeId>
        ensures { result ≡ slice_get self.now.types.keys place }
    {
        self.types.get_index(place).copied()
    }

    /// The declared types that are no interfaces. Those that functions named `_` declare are no part of the program.
    fn add_declared(&mut self, program: &Program, numbers: &mut Numbers) -> Result<(), NoMemory>
        ensures { OnOk result (AddsBases numbers.old numbers.new self.old self.new (IsDeclaredBase program.now.declared program.now numbers.old.likeness.types numbers.old.likeness.bares)) }
    {
        for declared in program.declared.as_slice() {
            self.add_one_declared(program, numbers, *declared)?;
        }
        Ok(())
    }

    /// The struct types.
    fn add_structs(&mut self, program: &Program, numbers: &mut Numbers) -> Result<(), NoMemory>
        ensures { OnOk result (AddsBases numbers.old numbers.new self.old self.new (IsStructBase (length program.now.types.terms) numbers.old.likeness.types numbers.old.likeness.bares)) }
    {
        for number in 0..program.types.len() as u64 {
            self.add_struct(numbers, TypeId { number })?;
        }
        Ok(())
    }

    fn add_one_declared(
        &mut self,
        program: &Program,
        numbers: &mut Numbers,
        declared: DeclaredType,
    ) -> Result<(), NoMemory>
        ensures { OnOk result (AddsBases numbers.old numbers.new self.old self.new (IsDeclaredBase (declared ∷ []) program.now numbers.old.likeness.types numbers.old.likeness.bares)) }
    {
        if is_base(program, &numbers.likeness.types, &declared) {
            self.add_class(numbers, declared.id)?;
            return Ok(());
        }
        Ok(())
    }

    fn add_struct(&mut self, numbers: &mut Numbers, of: TypeId) -> Result<(), NoMemory>
        ensures { OnOk result (AddsBases numbers.old numbers.new self.old self.new (IsThisStruct of numbers.old.likeness.types numbers.old.likeness.bares)) }
    {
        if is_struct(&numbers.likeness.types, of) {
            self.add_class(numbers, of)?;
            return Ok(());
        }
        Ok(())
    }

    /// A type without tags, and pointers to it.
    fn add_class(&mut self, numbers: &mut Numbers, of: TypeId) -> Result<(), NoMemory>
        ensures { OnOk result (AddsBases numbers.old numbers.new self.old self.new (IsThat (bare numbers.old.likeness.types numbers.old.likeness.bares of))) }
    {
        numbers.likeness.types.laws();
        let bare = numbers.likeness.bare(of);
        let pointer = numbers.likeness.pointer_to(bare)?;
        self.add_type(numbers, bare)?;
        self.add_type(numbers, pointer)?;
        Ok(())
    }

    fn add_type(&mut self, numbers: &mut Numbers, of: TypeId) -> Result<(), NoMemory>
        ensures extends { OnOk result (Extends numbers.old numbers.new) }
        ensures valued { OnOk result (AreValued numbers.old self.old.types.keys self.old.values.items → AreValued numbers.new self.new.types.keys self.new.values.items) }
        ensures listed { OnOk result (ListsMore self.old.types.keys self.new.types.keys (IsThat of)) }
    {
        let (_, is_new) = self.types.insert_full(of)?;
        if !is_new {
            return Ok(());
        }
        let value = numbers.bare_value(Value::Class(of))?;
        self.values.push(value)?;
        Ok(())
    }
}

/// Whether a declared type is a class.
fn is_base(program: &Program, types: &Types, declared: &DeclaredType) -> bool
    ensures { result ≡ (is_in_some program.now declared.now.function && not (kind.is_interface types.now declared.now.id)) }
{
    let is_written = match declared.function {
        Some(function) => is_in_program(program, function),
        None => true,
    };
    is_written && !is_interface(types, declared.id)
}

fn is_struct(types: &Types, of: TypeId) -> bool
    ensures { result ≡ is_struct_term (term_at types.now of) }
{
    matches!(types.get(of), Some(TypeTerm::Struct(_)))
}
