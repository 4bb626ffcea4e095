//! The variables and the declared types of a program. Go specification, "Variables", "Type declarations".

ghost use Rattle.std.specs.Prelude.{◌≡◌, ◌==◌, ◌++◌, ◌∷◌, [], length, OnOk, OnErr, IfOk};

use go_base::{FuncId, NameId, NoMemory, Pos, TypeId, VarId};
use std::alloc::Global;
use std::marker::Model;

/// A variable of a program: one of a package, or one of a function, its parameters and results too.
#[derive(Clone, Copy, PartialEq, Eq)]
pub struct Variable {
    /// `_` for a parameter or result without a name.
    pub name: NameId,
    /// Its name, or the first byte of its type where it has none; for the variable of a clause of a type switch the
    /// first byte of the clause.
    pub at: Pos,
    pub of: TypeId,
    /// The function that it belongs to; None for a variable of a package.
    pub function: Option<FuncId>,
}

/// A type declaration that declares a type.
#[derive(Clone, Copy, PartialEq, Eq)]
pub struct DeclaredType {
    pub id: TypeId,
    /// Its name.
    pub at: Pos,
    /// The function in which it stands; None at package level.
    pub function: Option<FuncId>,
}

/// Variables, by their numbers.
#[derive(Drop)]
pub struct Variables {
    items: Vec<Variable>,
}

impl Model for Variables {
    ghost use Rattle.std.specs.Prelude.{List};
    ghost use Rattle.go_tree.specs.declared.variables.Variable.{Variable};

    ghost Value = { List Variable };

    ghost view = { λ l. l.items.items };
}

impl Variables {
    /// No variables.
    pub fn new(alloc: Global) -> Variables
        ensures { result ≡ [] }
    {
        Variables {
            items: Vec::new(alloc),
        }
    }

    /// Adds a variable at the end. After `NoMemory` the list is as before.
    pub fn push(&mut self, item: Variable) -> Result<(), NoMemory>
        ensures ok { OnOk result (self.new ≡ self.old ++ item ∷ []) }
        ensures err { OnErr result (self.new ≡ self.old) }
    {
        self.items.push(item)?;
        Ok(())
    }

    /// The variables themselves.
    pub fn as_slice(&self) -> &[Variable]
        ensures { result.now ≡ self.now }
    {
        self.items.as_slice()
    }

    /// How many variables there are.
    pub fn len(&self) -> usize
        ensures { result ≡ length self.now }
    {
        self.items.len()
    }

    /// Whether there are none.
    pub fn is_empty(&self) -> bool
        ensures { result ≡ (length self.now == 0) }
    {
        self.items.is_empty()
    }

    /// The same variables once more.
    pub fn copy(&self, alloc: Global) -> Result<Variables, NoMemory>
        ensures { IfOk result (λ copy. copy ≡ self.now) }
    {
        Ok(Variables {
            items: Vec::from_slice(alloc, self.items.as_slice())?,
        })
    }
}

/// Numbers of variables, in order.
#[derive(Drop)]
pub struct VarIds {
    items: Vec<VarId>,
}

impl Model for VarIds {
    ghost use Rattle.std.specs.Prelude.{List};
    ghost use Rattle.go_base.specs.declared.ids.VarId.{VarId};

    ghost Value = { List VarId };

    ghost view = { λ l. l.items.items };
}

impl VarIds {
    /// No numbers.
    pub fn new(alloc: Global) -> VarIds
        ensures { result ≡ [] }
    {
        VarIds {
            items: Vec::new(alloc),
        }
    }

    /// Adds a number at the end. After `NoMemory` the list is as before.
    pub fn push(&mut self, item: VarId) -> Result<(), NoMemory>
        ensures ok { OnOk result (self.new ≡ self.old ++ item ∷ []) }
        ensures err { OnErr result (self.new ≡ self.old) }
    {
        self.items.push(item)?;
        Ok(())
    }

    /// The numbers themselves.
    pub fn as_slice(&self) -> &[VarId]
        ensures { result.now ≡ self.now }
    {
        self.items.as_slice()
    }

    /// How many numbers there are.
    pub fn len(&self) -> usize
        ensures { result ≡ length self.now }
    {
        self.items.len()
    }

    /// Whether there are none.
    pub fn is_empty(&self) -> bool
        ensures { result ≡ (length self.now == 0) }
    {
        self.items.is_empty()
    }

    /// The same numbers once more.
    pub fn copy(&self, alloc: Global) -> Result<VarIds, NoMemory>
        ensures { IfOk result (λ copy. copy ≡ self.now) }
    {
        Ok(VarIds {
            items: Vec::from_slice(alloc, self.items.as_slice())?,
        })
    }
}

/// Declared types, by package and then by place.
#[derive(Drop)]
pub struct DeclaredTypes {
    items: Vec<DeclaredType>,
}

impl Model for DeclaredTypes {
    ghost use Rattle.std.specs.Prelude.{List};
    ghost use Rattle.go_tree.specs.declared.variables.DeclaredType.{DeclaredType};

    ghost Value = { List DeclaredType };

    ghost view = { λ l. l.items.items };
}

impl DeclaredTypes {
    /// No types.
    pub fn new(alloc: Global) -> DeclaredTypes
        ensures { result ≡ [] }
    {
        DeclaredTypes {
            items: Vec::new(alloc),
        }
    }

    /// Adds a type at the end. After `NoMemory` the list is as before.
    pub fn push(&mut self, item: DeclaredType) -> Result<(), NoMemory>
        ensures ok { OnOk result (self.new ≡ self.old ++ item ∷ []) }
        ensures err { OnErr result (self.new ≡ self.old) }
    {
        self.items.push(item)?;
        Ok(())
    }

    /// The types themselves.
    pub fn as_slice(&self) -> &[DeclaredType]
        ensures { result.now ≡ self.now }
    {
        self.items.as_slice()
    }

    /// How many types there are.
    pub fn len(&self) -> usize
        ensures { result ≡ length self.now }
    {
        self.items.len()
    }

    /// Whether there are none.
    pub fn is_empty(&self) -> bool
        ensures { result ≡ (length self.now == 0) }
    {
        self.items.is_empty()
    }

    /// The same types once more.
    pub fn copy(&self, alloc: Global) -> Result<DeclaredTypes, NoMemory>
        ensures { IfOk result (λ copy. copy ≡ self.now) }
    {
        Ok(DeclaredTypes {
            items: Vec::from_slice(alloc, self.items.as_slice())?,
        })
    }
}
