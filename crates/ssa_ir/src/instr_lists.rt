//! Lists of what instructions are made of. A contract sees each as a list.

ghost use Rattle.std.specs.Prelude.{◌≡◌, ◌==◌, ◌++◌, ◌∷◌, [], OnOk, OnErr, IfOk, length};

use crate::operands::Operand;
use crate::ops::{Instr, PhiEdge, SelectCase};
use go_base::NoMemory;
use std::alloc::Global;
use std::marker::Model;

/// Operands, in order.
pub struct Operands {
    items: Vec<Operand>,
}

impl Drop for Operands {
    fn drop(self) {
        let Operands { items: _items } = self;
    }
}

impl Model for Operands {
    ghost use Rattle.std.specs.Prelude.{List};
    ghost use Rattle.ssa_ir.specs.declared.operands.Operand.{Operand};

    ghost Value = { List Operand };

    ghost view = { λ list. list.items.items };
}

impl Operands {
    /// None.
    pub fn new(alloc: Global) -> Operands
        ensures { result ≡ [] }
    {
        Operands {
            items: Vec::new(alloc),
        }
    }

    /// Adds one at the end. After `NoMemory` the list is as before.
    pub fn push(&mut self, item: Operand) -> Result<(), NoMemory>
        ensures ok { OnOk result (self.new ≡ self.old ++ item ∷ []) }
        ensures err { OnErr result (self.new ≡ self.old) }
    {
        self.items.push(item)?;
        Ok(())
    }

    /// The items themselves.
    pub fn as_slice(&self) -> &[Operand]
        ensures { result.now ≡ self.now }
    {
        self.items.as_slice()
    }

    /// How many there are.
    pub fn len(&self) -> usize
        ensures { result ≡ length self.now }
    {
        self.items.len()
    }

    /// Whether there are none.
    pub fn is_empty(&self) -> bool
        ensures { result ≡ (length self.now == 0) }
    {
        self.items.is_empty()
    }
}

/// The values of a phi, one for each predecessor.
pub struct PhiEdges {
    items: Vec<PhiEdge>,
}

impl Drop for PhiEdges {
    fn drop(self) {
        let PhiEdges { items: _items } = self;
    }
}

impl Model for PhiEdges {
    ghost use Rattle.std.specs.Prelude.{List};
    ghost use Rattle.ssa_ir.specs.declared.ops.PhiEdge.{PhiEdge};

    ghost Value = { List PhiEdge };

    ghost view = { λ list. list.items.items };
}

impl PhiEdges {
    /// None.
    pub fn new(alloc: Global) -> PhiEdges
        ensures { result ≡ [] }
    {
        PhiEdges {
            items: Vec::new(alloc),
        }
    }

    /// Adds one at the end. After `NoMemory` the list is as before.
    pub fn push(&mut self, item: PhiEdge) -> Result<(), NoMemory>
        ensures ok { OnOk result (self.new ≡ self.old ++ item ∷ []) }
        ensures err { OnErr result (self.new ≡ self.old) }
    {
        self.items.push(item)?;
        Ok(())
    }

    /// The items themselves.
    pub fn as_slice(&self) -> &[PhiEdge]
        ensures { result.now ≡ self.now }
    {
        self.items.as_slice()
    }

    /// How many there are.
    pub fn len(&self) -> usize
        ensures { result ≡ length self.now }
    {
        self.items.len()
    }

    /// Whether there are none.
    pub fn is_empty(&self) -> bool
        ensures { result ≡ (length self.now == 0) }
    {
        self.items.is_empty()
    }
}

/// The cases of a `select`, in order.
pub struct SelectCases {
    items: Vec<SelectCase>,
}

impl Drop for SelectCases {
    fn drop(self) {
        let SelectCases { items: _items } = self;
    }
}

impl Model for SelectCases {
    ghost use Rattle.std.specs.Prelude.{List};
    ghost use Rattle.ssa_ir.specs.declared.ops.SelectCase.{SelectCase};

    ghost Value = { List SelectCase };

    ghost view = { λ list. list.items.items };
}

impl SelectCases {
    /// None.
    pub fn new(alloc: Global) -> SelectCases
        ensures { result ≡ [] }
    {
        SelectCases {
            items: Vec::new(alloc),
        }
    }

    /// Adds one at the end. After `NoMemory` the list is as before.
    pub fn push(&mut self, item: SelectCase) -> Result<(), NoMemory>
        ensures ok { OnOk result (self.new ≡ self.old ++ item ∷ []) }
        ensures err { OnErr result (self.new ≡ self.old) }
    {
        self.items.push(item)?;
        Ok(())
    }

    /// The items themselves.
    pub fn as_slice(&self) -> &[SelectCase]
        ensures { result.now ≡ self.now }
    {
        self.items.as_slice()
    }

    /// How many there are.
    pub fn len(&self) -> usize
        ensures { result ≡ length self.now }
    {
        self.items.len()
    }

    /// Whether there are none.
    pub fn is_empty(&self) -> bool
        ensures { result ≡ (length self.now == 0) }
    {
        self.items.is_empty()
    }
}

/// Instructions, in order.
pub struct Instrs {
    items: Vec<Instr>,
}

impl Drop for Instrs {
    fn drop(self) {
        let Instrs { items: _items } = self;
    }
}

impl Model for Instrs {
    ghost use Rattle.std.specs.Prelude.{List};
    ghost use Rattle.ssa_ir.specs.declared.ops.Instr.{Instr};

    ghost Value = { List Instr };

    ghost view = { λ list. list.items.items };
}

impl Instrs {
    /// None.
    pub fn new(alloc: Global) -> Instrs
        ensures { result ≡ [] }
    {
        Instrs {
            items: Vec::new(alloc),
        }
    }

    /// Adds one at the end. After `NoMemory` the list is as before.
    pub fn push(&mut self, item: Instr) -> Result<(), NoMemory>
        ensures ok { OnOk result (self.new ≡ self.old ++ item ∷ []) }
        ensures err { OnErr result (self.new ≡ self.old) }
    {
        self.items.push(item)?;
        Ok(())
    }

    /// The items themselves.
    pub fn as_slice(&self) -> &[Instr]
        ensures { result.now ≡ self.now }
    {
        self.items.as_slice()
    }

    /// How many there are.
    pub fn len(&self) -> usize
        ensures { result ≡ length self.now }
    {
        self.items.len()
    }

    /// Whether there are none.
    pub fn is_empty(&self) -> bool
        ensures { result ≡ (length self.now == 0) }
    {
        self.items.is_empty()
    }
}
