//! The candidates of every group: what each value stands for in it.

ghost use Rattle.std.specs.Prelude.{◌≡◌, ◌++◌, ◌==◌, ℕ, IfOk, IfSome, None, OnOk, flat_map, length, option_to_list};
ghost use Rattle.cg_nodes.specs.declared.nodes.Group.TheVariants as group_of;
ghost use Rattle.cg_nodes.specs.declared.nodes.Selector.{Selector};
ghost use Rattle.cg_numbers.specs.Numbered.{Extends, IsAt};
ghost use Rattle.cg_sets.specs.Answering as answering;
ghost use Rattle.cg_sets.specs.Answering.{AreAnswers, ListsMade, OfFunctions, OfGroup, OfGroups, OfValues, Puts};
ghost use Rattle.cg_sets.specs.Candidates.{IsBase, ArePointed};
ghost use Rattle.cg_sets.specs.Classes.{AreClasses};
ghost use Rattle.cg_sets.specs.Implementing.{AreFound};
ghost use Rattle.cg_solve.specs.Tables.{row};
ghost use Rattle.go_tree.specs.declared.program.Program.{Program};

use crate::candidates::{Candidate, Placed};
use crate::classes::{ClassMethod, Classes, classes_of};
use crate::implementing::{Implementing, offers};
use crate::placing::{base_of, of_function, of_value};
use cg_nodes::{Group, Selector};
use cg_numbers::Numbers;
use cg_solve::Table;
use go_base::{FuncId, NoMemory};
use go_tree::Program;
use std::alloc::Global;

/// The candidates, by the number of the group.
#[derive(Drop)]
pub struct Answers {
    pub rows: Table<Candidate>,
}

/// The candidates of the groups that were met, of those of embedded interfaces, and of the signatures of all functions.
pub fn answers_of(
    alloc: Global,
    program: &Program,
    numbers: &mut Numbers,
) -> Result<Answers, NoMemory>
    ensures answers { ListsMade program.now numbers.old → IfOk result (λ found. AreAnswers program.now numbers.new (row found.rows)) }
    ensures pointed { OnOk result (ArePointed numbers.new.likeness.types (IsBase program.now numbers.new.likeness.types numbers.new.likeness.bares)) }
    ensures extends { OnOk result (Extends numbers.old numbers.new) }
{
    let mut answers = Answers {
        rows: Table::new(alloc),
    };
    answers.add_values(alloc, program, numbers)?;
    answers.add_functions(alloc, program, numbers)?;
    let classes = classes_of(alloc, program, numbers)?;
    numbers.laws();
    answers.add_selected(alloc, numbers, &classes)?;
    Ok(answers)
}

impl Answers {
    /// The method values and method expressions that were met.
    fn add_values(
        &mut self,
        alloc: Global,
        program: &Program,
        numbers: &mut Numbers,
    ) -> Result<(), NoMemory>
        ensures puts { ListsMade program.now numbers.old → OnOk result (Puts numbers.new (row self.old.rows) (row self.new.rows) (OfValues program.now numbers.old.likeness numbers.old.values.keys (length numbers.old.values.keys))) }
        ensures extends { OnOk result (Extends numbers.old numbers.new) }
    {
        for number in 0..numbers.values().len() {
            let placed = of_value(alloc, program, numbers, number)?;
            self.put(alloc, placed)?;
        }
        Ok(())
    }

    /// The declared functions and the literals, each for itself.
    fn add_functions(
        &mut self,
        alloc: Global,
        program: &Program,
        numbers: &mut Numbers,
    ) -> Result<(), NoMemory>
        ensures puts { OnOk result (Puts numbers.new (row self.old.rows) (row self.new.rows) (OfFunctions program.now numbers.old.likeness (length program.now.functions))) }
        ensures extends { OnOk result (Extends numbers.old numbers.new) }
    {
        for number in 0..program.functions.len() as u64 {
            let placed = of_function(program, numbers, FuncId { number })?;
            self.put(alloc, placed)?;
        }
        Ok(())
    }

    fn put(&mut self, alloc: Global, placed: Option<Placed>) -> Result<(), NoMemory>
        ensures { OnOk result ((k : ℕ) → row self.new.rows k ≡ row self.old.rows k ++ answering.placed_in k placed) }
    {
        match placed {
            Some(placed) => self.rows.put(alloc, placed.group, placed.candidate),
            None => Ok(()),
        }
    }

    /// The methods that selectors select.
    fn add_selected(
        &mut self,
        alloc: Global,
        numbers: &Numbers,
        classes: &Classes,
    ) -> Result<(), NoMemory>
        ensures puts { OnOk result ((p : Program) → AreClasses p numbers.now classes.now → Puts numbers.now (row self.old.rows) (row self.new.rows) (OfGroups p numbers.now.likeness numbers.now.groups.keys (length numbers.now.groups.keys))) }
    {
        let mut implementing = Implementing::new(alloc);
        for number in 0..numbers.groups().len() {
            self.add_group(alloc, numbers, classes, &mut implementing, number)?;
        }
        Ok(())
    }

    fn add_group(
        &mut self,
        alloc: Global,
        numbers: &Numbers,
        classes: &Classes,
        implementing: &mut Implementing,
        group: usize,
    ) -> Result<(), NoMemory>
        ensures puts { OnOk result ((p : Program) → AreClasses p numbers.now classes.now → AreFound p numbers.now classes.now implementing.old → Puts numbers.now (row self.old.rows) (row self.new.rows) (OfGroup p numbers.now.likeness numbers.now.groups.keys group)) }
        ensures found { OnOk result ((p : Program) → AreClasses p numbers.now classes.now → AreFound p numbers.now classes.now implementing.old → AreFound p numbers.now classes.now implementing.new) }
    {
        classes.laws();
        let Some(selector) = selector_at(numbers, group) else {
            return Ok(());
        };
        if !offers(&numbers.likeness.types, selector) {
            return Ok(());
        }
        let Some(name) = classes.name(selector.name, selector.package) else {
            return Ok(());
        };
        let place = implementing.find(alloc, numbers, classes, selector.of)?;
        self.add_classes(alloc, classes, group, name, implementing.list(place))?;
        Ok(())
    }

    fn add_classes(
        &mut self,
        alloc: Global,
        classes: &Classes,
        group: usize,
        name: usize,
        places: &[usize],
    ) -> Result<(), NoMemory>
        ensures { OnOk result ((k : ℕ) → row self.new.rows k ≡ row self.old.rows k ++ answering.if_so (group == k) (flat_map (answering.class_candidate classes.now name) places.now)) }
    {
        for place in places {
            self.add_class(alloc, classes, group, name, *place)?;
        }
        Ok(())
    }

    fn add_class(
        &mut self,
        alloc: Global,
        classes: &Classes,
        group: usize,
        name: usize,
        place: usize,
    ) -> Result<(), NoMemory>
        ensures { OnOk result ((k : ℕ) → row self.new.rows k ≡ row self.old.rows k ++ answering.if_so (group == k) (answering.class_candidate classes.now name place)) }
    {
        match class_candidate(classes, name, place) {
            Some(candidate) => self.rows.put(alloc, group, candidate),
            None => Ok(()),
        }
    }
}

/// The selector of the group of a number. None where that is of a signature.
fn selector_at(numbers: &Numbers, group: usize) -> Option<Selector>
    ensures some { IfSome result (λ s. IsAt numbers.now.groups.keys group (group_of.Selected s)) }
    ensures none { result ≡ None → (s : Selector) → IsAt numbers.now.groups.keys group (group_of.Selected s) → ⊥ }
{
    match numbers.groups().get(group).copied() {
        Some(Group::Selected(selector)) => Some(selector),
        _ => None,
    }
}

/// The candidate of the class at a place, by the method of the name of a number.
fn class_candidate(classes: &Classes, name: usize, place: usize) -> Option<Candidate>
    ensures { option_to_list result ≡ answering.class_candidate classes.now name place }
{
    match classes.method(place, name) {
        Some(method) => match classes.list.values.get(place) {
            Some(value) => Some(of_class(*value, method)),
            None => None,
        },
        None => None,
    }
}

/// What a class stands for.
fn of_class(value: usize, method: ClassMethod) -> Candidate
    ensures { result ≡ answering.of_class value method }
{
    Candidate {
        value,
        goal: method.aiming.goal,
        skip: 0,
        base: base_of(method.aiming.goal),
        receiver: method.aiming.receiver,
    }
}
