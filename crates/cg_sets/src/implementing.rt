//! Which classes implement an interface, found once an interface. Go specification, "Implementing an interface".

ghost use Rattle.std.specs.Prelude.{◌≡◌, ◌⊎◌, ◌++◌, ◌==◌, IfOk, IfSome, OnOk, None, List, false, length, ℕ, ◌∷◌, []};
ghost use Rattle.std.specs.List.{AllZip, Contains, filter, list_any};
ghost use Rattle.cg_numbers.specs.Numbered.{IsAt};
ghost use Rattle.cg_sets.specs.Classes.{AreClasses};
ghost use Rattle.cg_sets.specs.Implementing as implements;
ghost use Rattle.cg_sets.specs.Implementing.{AreFound, AreImplementers, IsOneRow, IsRequired, methods_in, name_of};
ghost use Rattle.cg_solve.specs.Tables.{row};
ghost use Rattle.go_tree.specs.declared.program.Program.{Program};
ghost use Rattle.go_type.specs.Same.{same_id};
ghost use Rattle.go_type.specs.Table.{term_at};
ghost use Rattle.go_type.specs.declared.term.MethodType.{MethodType};
ghost use Rattle.cg_numbers.specs.declared.numbers.Numbers.{Numbers};
ghost use Rattle.cg_sets.specs.declared.classes.Classes.{Classes};

use crate::classes::Classes;
use cg_nodes::Selector;
use cg_numbers::{Likeness, Numbers};
use cg_solve::Table;
use go_base::{NoMemory, TypeId};
use go_type::{MethodType, TypeTerm, Types};
use indexmap::IndexSet;
use std::alloc::Global;

/// A method that an interface asks for: the number of its name, and its type without tags.
#[derive(Clone, Copy)]
pub struct Required {
    pub name: usize,
    pub of: TypeId,
}

/// The places of the classes that implement interfaces.
#[derive(Drop)]
pub struct Implementing {
    /// The interfaces that were asked for.
    pub interfaces: IndexSet<TypeId>,
    /// By the place of the interface, the places of the classes that implement it.
    pub classes: Table<usize>,
}

impl Implementing {
    /// No interface was asked for.
    pub fn new(alloc: Global) -> Implementing
        ensures { (p : Program) (n : Numbers) (cs : Classes) → AreFound p n cs result }
    {
        Implementing {
            interfaces: IndexSet::new(alloc),
            classes: Table::new(alloc),
        }
    }

    /// Finds the classes that implement an interface, where they were not found before, and gives its place.
    pub fn find(
        &mut self,
        alloc: Global,
        numbers: &Numbers,
        classes: &Classes,
        interface: TypeId,
    ) -> Result<usize, NoMemory>
        ensures found { (p : Program) → AreClasses p numbers.now classes.now → AreFound p numbers.now classes.now self.old → OnOk result (AreFound p numbers.now classes.now self.new) }
        ensures place { IfOk result (λ k. IsAt self.new.interfaces.keys k interface) }
    {
        match self.place_of(interface) {
            Some(place) => Ok(place),
            None => self.find_new(alloc, numbers, classes, interface),
        }
    }

    /// The place of an interface. None where it was not asked for.
    fn place_of(&self, interface: TypeId) -> Option<usize>
        ensures some { IfSome result (λ k. IsAt self.now.interfaces.keys k interface) }
        ensures none { result ≡ None → list_any (same_id interface) self.now.interfaces.keys ≡ false }
    {
        self.interfaces.get_index_of(&interface)
    }

    fn find_new(
        &mut self,
        alloc: Global,
        numbers: &Numbers,
        classes: &Classes,
        interface: TypeId,
    ) -> Result<usize, NoMemory>
        ensures found { list_any (same_id interface) self.old.interfaces.keys ≡ false → (p : Program) → AreClasses p numbers.now classes.now → AreFound p numbers.now classes.now self.old → OnOk result (AreFound p numbers.now classes.now self.new) }
        ensures place { list_any (same_id interface) self.old.interfaces.keys ≡ false → IfOk result (λ k. IsAt self.new.interfaces.keys k interface) }
    {
        let found = implementers(alloc, &numbers.likeness, classes, interface)?;
        let place = self.interfaces.len();
        self.put_all(alloc, place, found.as_slice())?;
        let _ = self.interfaces.insert_full(interface)?;
        Ok(place)
    }

    fn put_all(&mut self, alloc: Global, place: usize, classes: &[usize]) -> Result<(), NoMemory>
        ensures same { OnOk result (self.new.interfaces ≡ self.old.interfaces) }
        ensures rows { OnOk result ((k : ℕ) → row self.new.classes k ≡ row self.old.classes k ++ implements.if_so (place == k) classes.now) }
    {
        for class in classes {
            self.classes.put(alloc, place, *class)?;
        }
        Ok(())
    }

    /// The classes of a place.
    pub fn list(&self, place: usize) -> &[usize]
        ensures { result.now ≡ row self.now.classes place }
    {
        self.classes.row(place)
    }
}

/// The classes that implement an interface with methods.
fn implementers(
    alloc: Global,
    likeness: &Likeness,
    classes: &Classes,
    interface: TypeId,
) -> Result<Vec<usize>, NoMemory>
    ensures { (p : Program) (n : Numbers) → n.likeness ≡ likeness.now → AreClasses p n classes.now → IfOk result (λ places. AreImplementers p n classes.now interface places.items) }
{
    classes.laws();
    let methods = methods_of(&likeness.types, interface);
    let required = required_of(alloc, likeness, classes, methods)?;
    match required {
        Some(required) => having(alloc, classes, required.as_slice()),
        None => Ok(Vec::new(alloc)),
    }
}

/// The classes that have all methods that are asked for.
fn having(alloc: Global, classes: &Classes, required: &[Required]) -> Result<Vec<usize>, NoMemory>
    ensures { IfOk result (λ found. (places : List ℕ) × IsOneRow classes.now required.now places × (found.items ≡ filter (implements.has_all classes.now required.now) places)) }
{
    let places = fewest(classes, required);
    having_all(alloc, classes, places, required)
}

/// Those of the classes at places that have all methods that are asked for.
fn having_all(
    alloc: Global,
    classes: &Classes,
    places: &[usize],
    required: &[Required],
) -> Result<Vec<usize>, NoMemory>
    ensures { IfOk result (λ found. found.items ≡ filter (implements.has_all classes.now required.now) places.now) }
{
    let mut found = Vec::new(alloc);
    for class in places {
        put_having(&mut found, classes, *class, required)?;
    }
    Ok(found)
}

fn put_having(
    found: &mut Vec<usize>,
    classes: &Classes,
    class: usize,
    required: &[Required],
) -> Result<(), NoMemory>
    ensures { OnOk result (found.new.items ≡ found.old.items ++ filter (implements.has_all classes.now required.now) (class ∷ [])) }
{
    if has_all(classes, class, required) {
        found.push(class)?;
    }
    Ok(())
}

fn methods_of(types: &Types, interface: TypeId) -> &[MethodType]
    ensures { result.now ≡ methods_in (term_at types.now interface) }
{
    match types.get(interface) {
        Some(TypeTerm::Interface(methods)) => methods.as_slice(),
        _ => &[],
    }
}

/// The methods that are asked for. None where no class has a method of a name.
fn required_of(
    alloc: Global,
    likeness: &Likeness,
    classes: &Classes,
    methods: &[MethodType],
) -> Result<Option<Vec<Required>>, NoMemory>
    ensures some { IfOk result (λ found. IfSome found (λ required. AllZip (IsRequired likeness.now classes.now) methods.now required.items)) }
    ensures none { IfOk result (λ found. found ≡ None → (m : MethodType) × Contains methods.now m × ((j : ℕ) → IsAt classes.now.names.keys j (name_of m) → ⊥)) }
{
    let mut required = Vec::new(alloc);
    for method in methods {
        let Some(name) = classes.name(method.name, method.package) else {
            return Ok(None);
        };
        let of = likeness.bare(method.of);
        required.push(Required { name, of })?;
    }
    Ok(Some(required))
}

/// The classes that have the method that the fewest have.
fn fewest<'a>(classes: &'a Classes, required: &[Required]) -> &'a [usize]
    ensures { IsOneRow classes.now required.now result.now }
{
    let Some((first, rest)) = required.split_first() else {
        return &[];
    };
    let mut least = classes.having.row(first.name);
    for method in rest {
        least = shorter(least, classes.having.row(method.name));
    }
    least
}

fn shorter<'a>(one: &'a [usize], other: &'a [usize]) -> &'a [usize]
    ensures { (result.now ≡ one.now) ⊎ (result.now ≡ other.now) }
{
    if other.len() < one.len() { other } else { one }
}

fn has_all(classes: &Classes, class: usize, required: &[Required]) -> bool
    ensures { result ≡ implements.has_all classes.now required.now class }
{
    for method in required {
        if !has_one(classes, class, *method) {
            return false;
        }
    }
    true
}

fn has_one(classes: &Classes, class: usize, required: Required) -> bool
    ensures { result ≡ implements.has_one classes.now class required }
{
    match classes.method(class, required.name) {
        Some(found) => found.of == required.of,
        None => false,
    }
}

/// Whether a selector selects a method of an interface.
pub fn offers(types: &Types, selector: Selector) -> bool
    ensures { result ≡ list_any (implements.is_named selector.name selector.package) (methods_in (term_at types.now selector.of)) }
{
    for method in methods_of(types, selector.of) {
        if method.name == selector.name && method.package == selector.package {
            return true;
        }
    }
    false
}
