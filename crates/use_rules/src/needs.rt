//! Names that have to be used.

ghost use Rattle.std.specs.Prelude.{◌≡◌, ◌==◌, ◌&&◌, ◌++◌, ◌∷◌, [], ℕ, length, IfOk, OnOk, OnErr, if◌then◌else◌};
ghost use Rattle.std.specs.List.{list_any};
ghost use Rattle.go_base.specs.declared.ids.VarId.{VarId as Variable};
ghost use Rattle.go_faults.specs.Faults.{least_with};
ghost use Rattle.use_rules.specs.Uses.{fault_of, flag_at, is_read, unused, unused_from};

use crate::flags::{is_marked, mark};
use go_base::{NoMemory, Pos, Rule, VarId};
use go_faults::{Fault, Least};
use go_names::{Mention, Mentioned};
use std::alloc::Global;
use std::marker::Model;

/// A name that has to be used: of a variable, or of the variables of the clauses of a type switch.
#[derive(Clone, Copy)]
pub struct Need {
    pub at: Pos,
    pub package: u32,
}

/// The names in bodies that have to be used, each with its number, and the variables that they name.
#[derive(Drop)]
pub struct Needs {
    alloc: Global,
    names: Vec<Need>,
    variables: Vec<(VarId, usize)>,
}

impl Model for Needs {
    ghost use Rattle.use_rules.specs.Uses.{Needed};

    ghost Value = { Needed };

    ghost view = { λ needs. record { names = needs.names.items; variables = needs.variables.items } };
}

impl Needs {
    /// No names.
    pub fn new(alloc: Global) -> Needs
        ensures { result ≡ record { names = []; variables = [] } }
    {
        Needs {
            alloc,
            names: Vec::new(alloc),
            variables: Vec::new(alloc),
        }
    }

    /// A name has to be used. Its number is answered. Without memory nothing changes.
    pub fn add_name(&mut self, at: Pos, package: u32) -> Result<usize, NoMemory>
        ensures number { IfOk result (λ number. number ≡ length self.old.names) }
        ensures added { OnOk result (self.new ≡ record self.old { names = self.old.names ++ record { at = at; «package» = «package» } ∷ [] }) }
        ensures err { OnErr result (self.new ≡ self.old) }
    {
        let number = self.names.len();
        self.names.push(Need { at, package })?;
        Ok(number)
    }

    /// A use of the variable is one of the name with a number. Without memory nothing changes.
    pub fn add_variable(&mut self, variable: VarId, name: usize) -> Result<(), NoMemory>
        ensures added { OnOk result (self.new ≡ record self.old { variables = self.old.variables ++ (variable, name) ∷ [] }) }
        ensures err { OnErr result (self.new ≡ self.old) }
    {
        self.variables.push((variable, name))?;
        Ok(())
    }

    /// `VariableNotUsed` at each name of which no variable is read.
    pub fn report_unused(&self, mentions: &[Mention], later: &mut Least) -> Result<(), NoMemory>
        ensures { OnOk result (later.new.fault ≡ least_with later.old.fault (unused self.now mentions.now)) }
    {
        let read = variables_read(self.alloc, mentions)?;
        let used = names_used(self.alloc, self.variables.as_slice(), &read)?;
        report(self.names.as_slice(), &used, later);
        Ok(())
    }
}

/// By their numbers, which variables are read.
fn variables_read(alloc: Global, mentions: &[Mention]) -> Result<Vec<bool>, NoMemory>
    ensures { IfOk result (λ read. (v : Variable) → flag_at read.items v.number ≡ is_read mentions.now v) }
{
    let mut read = Vec::new(alloc);
    for mention in mentions {
        if let Mentioned::Variable(variable) = mention.what {
            if !mention.assigned {
                mark(&mut read, variable.number as usize)?;
            }
        }
    }
    Ok(read)
}

/// By their numbers, which names are used: those of which a variable is read.
fn names_used(
    alloc: Global,
    variables: &[(VarId, usize)],
    read: &[bool],
) -> Result<Vec<bool>, NoMemory>
    ensures { IfOk result (λ used. (k : ℕ) → flag_at used.items k ≡ list_any (λ it. (it.1 == k) && flag_at read.now it.0.number) variables.now) }
{
    let mut used = Vec::new(alloc);
    for (variable, name) in variables {
        if is_marked(read, variable.number as usize) {
            mark(&mut used, *name)?;
        }
    }
    Ok(used)
}

/// `VariableNotUsed` at each name whose number is not marked.
fn report(names: &[Need], used: &[bool], later: &mut Least)
    ensures { later.new.fault ≡ least_with later.old.fault (unused_from (flag_at used.now) 0 names.now) }
{
    for (number, need) in names.iter().enumerate() {
        report_need(*need, is_marked(used, number), later);
    }
}

/// `VariableNotUsed` at a name that is not used.
fn report_need(need: Need, is_used: bool, later: &mut Least)
    ensures { later.new.fault ≡ least_with later.old.fault (if is_used then [] else fault_of need ∷ []) }
{
    if !is_used {
        later.report(fault_of(need));
    }
}

/// That a name is not used: asked once all bodies break no rule.
fn fault_of(need: Need) -> Fault
    ensures { result ≡ fault_of need }
{
    Fault {
        phase: 4,
        package: need.package,
        pos: need.at,
        rule: Rule::VariableNotUsed,
    }
}
