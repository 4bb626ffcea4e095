//! The labels of a function, and the statements that a branch may leave.

ghost use Rattle.std.specs.Prelude.{◌≡◌, Bool, true, false, not, List, [], ◌∷◌, ◌++◌, reverse, map, option_map, IfOk, OnOk, OnErr, slice_set};
ghost use Rattle.flow_rules.specs.Surroundings.{nothing, in_label, behind_label, unnamed, in_statement, behind_statement, is_left, break_levels, behind_break, continue_levels, behind_continue, held, is_declared, has_label, is_meant, levels_to, loops, left, named};

use crate::around::{
    Around, Label, held, leave_at, levels_among_all, levels_among_loops, name_labels,
};
use go_base::{NameId, NoMemory, Pos};
use indexmap::IndexSet;
use std::alloc::Global;
use std::marker::Model;

/// The labels that a function or literal has declared, and what stands around the place in it that is looked at. Bodies
/// of literals have their own.
#[derive(Drop)]
pub struct Branches {
    declared: IndexSet<NameId>,
    labels: Vec<Label>,
    around: Vec<Around>,
}

impl Model for Branches {
    ghost use Rattle.std.specs.Prelude.{reverse};
    ghost use Rattle.flow_rules.specs.Surroundings.{Surroundings};

    ghost Value = { Surroundings };

    ghost view = { λ b. record { declared = b.declared.keys; labels = reverse b.labels.items; around = reverse b.around.items } };
}

impl Branches {
    /// At the beginning of a body.
    pub fn new(alloc: Global) -> Branches
        ensures { result ≡ nothing }
    {
        Branches {
            declared: IndexSet::new(alloc),
            labels: Vec::new(alloc),
            around: Vec::new(alloc),
        }
    }

    /// The statement of a label begins. Whether it is the first label of its name in the body. After `NoMemory` all is as
    /// before.
    pub fn begin_label(&mut self, name: NameId, at: Pos) -> Result<bool, NoMemory>
        ensures first { IfOk result (λ r. r ≡ not (is_declared name self.old.declared)) }
        ensures begun { OnOk result (self.new ≡ in_label name at self.old) }
        ensures err { OnErr result (self.new ≡ self.old) }
    {
        self.labels.push(Label {
            name,
            at,
            is_named: false,
        })?;
        match self.declared.insert(name) {
            Ok(is_new) => Ok(is_new),
            Err(_) => {
                let _label = self.labels.pop();
                Err(NoMemory)
            }
        }
    }

    /// The statement of the label that began last ends. Its place, where no branch in the statement names it.
    pub fn end_label(&mut self) -> Option<Pos>
        ensures unnamed { result ≡ unnamed self.old.labels }
        ensures behind { self.new ≡ behind_label self.old }
    {
        let label = self.labels.pop()?;
        if label.is_named { None } else { Some(label.at) }
    }

    /// A `for`, `switch` or `select` begins, with the last of its labels. After `NoMemory` all is as before.
    pub fn enter(&mut self, label: Option<NameId>, is_loop: bool) -> Result<(), NoMemory>
        ensures entered { OnOk result (self.new ≡ in_statement label is_loop self.old) }
        ensures err { OnErr result (self.new ≡ self.old) }
    {
        self.around.push(Around {
            label,
            is_loop,
            is_left: false,
        })?;
        Ok(())
    }

    /// The statement that was entered last ends. Whether a `break` leaves it.
    pub fn leave(&mut self) -> bool
        ensures left { result ≡ is_left self.old.around }
        ensures behind { self.new ≡ behind_statement self.old }
    {
        match self.around.pop() {
            Some(around) => around.is_left,
            None => false,
        }
    }

    /// A `break`, with its label: how many statements that may be left it leaves, less one. None where it has nothing to
    /// leave.
    pub fn break_levels(&mut self, label: Option<NameId>) -> Option<u32>
        ensures levels { result ≡ option_map held (break_levels label self.old) }
        ensures behind { self.new ≡ behind_break label self.old }
    {
        name_labels(&mut self.labels, label);
        let levels = levels_among_all(&self.around, label)?;
        leave_at(&mut self.around, levels);
        Some(held(levels))
    }

    /// A `continue`, with its label: how many loops around the innermost it goes out to. None where there is no such loop.
    pub fn continue_levels(&mut self, label: Option<NameId>) -> Option<u32>
        ensures levels { result ≡ option_map held (continue_levels label self.old) }
        ensures behind { self.new ≡ behind_continue label self.old }
    {
        name_labels(&mut self.labels, label);
        let levels = levels_among_loops(&self.around, label)?;
        Some(held(levels))
    }
}
