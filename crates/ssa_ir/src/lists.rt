//! Lists of what codes are made of. A contract sees each as a list.

ghost use Rattle.std.specs.Prelude.{◌≡◌, ◌==◌, ◌++◌, ◌∷◌, [], OnOk, OnErr, IfOk, length};

use crate::code::{Block, CodeVariable, Function, MethodLine, WrapNeed};
use go_base::{BlockId, NoMemory};
use std::alloc::Global;
use std::marker::Model;

/// Blocks of a function.
pub struct BlockIds {
    items: Vec<BlockId>,
}

impl Drop for BlockIds {
    fn drop(self) {
        let BlockIds { items: _items } = self;
    }
}

impl Model for BlockIds {
    ghost use Rattle.std.specs.Prelude.{List};
    ghost use Rattle.go_base.specs.declared.ids.BlockId.{BlockId};

    ghost Value = { List BlockId };

    ghost view = { λ list. list.items.items };
}

impl BlockIds {
    /// None.
    pub fn new(alloc: Global) -> BlockIds
        ensures { result ≡ [] }
    {
        BlockIds {
            items: Vec::new(alloc),
        }
    }

    /// Adds one at the end. After `NoMemory` the list is as before.
    pub fn push(&mut self, item: BlockId) -> Result<(), NoMemory>
        ensures ok { OnOk result (self.new ≡ self.old ++ item ∷ []) }
        ensures err { OnErr result (self.new ≡ self.old) }
    {
        self.items.push(item)?;
        Ok(())
    }

    /// The items themselves.
    pub fn as_slice(&self) -> &[BlockId]
        ensures { result.now ≡ self.now }
    {
        self.items.as_slice()
    }

    /// How many there are.
    pub fn len(&self) -> usize
        ensures { result ≡ length self.now }
    {
        self.items.len()
    }

    /// Whether there are none.
    pub fn is_empty(&self) -> bool
        ensures { result ≡ (length self.now == 0) }
    {
        self.items.is_empty()
    }

    /// The same list once more.
    pub fn copy(&self, alloc: Global) -> Result<BlockIds, NoMemory>
        ensures { IfOk result (λ copy. copy ≡ self.now) }
    {
        Ok(BlockIds {
            items: Vec::from_slice(alloc, self.items.as_slice())?,
        })
    }
}

/// The blocks of a function, by number.
pub struct Blocks {
    items: Vec<Block>,
}

impl Drop for Blocks {
    fn drop(self) {
        let Blocks { items: _items } = self;
    }
}

impl Model for Blocks {
    ghost use Rattle.std.specs.Prelude.{List};
    ghost use Rattle.ssa_ir.specs.declared.code.Block.{Block};

    ghost Value = { List Block };

    ghost view = { λ list. list.items.items };
}

impl Blocks {
    /// None.
    pub fn new(alloc: Global) -> Blocks
        ensures { result ≡ [] }
    {
        Blocks {
            items: Vec::new(alloc),
        }
    }

    /// Adds one at the end. After `NoMemory` the list is as before.
    pub fn push(&mut self, item: Block) -> Result<(), NoMemory>
        ensures ok { OnOk result (self.new ≡ self.old ++ item ∷ []) }
        ensures err { OnErr result (self.new ≡ self.old) }
    {
        self.items.push(item)?;
        Ok(())
    }

    /// The items themselves.
    pub fn as_slice(&self) -> &[Block]
        ensures { result.now ≡ self.now }
    {
        self.items.as_slice()
    }

    /// How many there are.
    pub fn len(&self) -> usize
        ensures { result ≡ length self.now }
    {
        self.items.len()
    }

    /// Whether there are none.
    pub fn is_empty(&self) -> bool
        ensures { result ≡ (length self.now == 0) }
    {
        self.items.is_empty()
    }
}

/// The functions of a code, by number.
pub struct Functions {
    items: Vec<Function>,
}

impl Drop for Functions {
    fn drop(self) {
        let Functions { items: _items } = self;
    }
}

impl Model for Functions {
    ghost use Rattle.std.specs.Prelude.{List};
    ghost use Rattle.ssa_ir.specs.declared.code.Function.{Function};

    ghost Value = { List Function };

    ghost view = { λ list. list.items.items };
}

impl Functions {
    /// None.
    pub fn new(alloc: Global) -> Functions
        ensures { result ≡ [] }
    {
        Functions {
            items: Vec::new(alloc),
        }
    }

    /// Adds one at the end. After `NoMemory` the list is as before.
    pub fn push(&mut self, item: Function) -> Result<(), NoMemory>
        ensures ok { OnOk result (self.new ≡ self.old ++ item ∷ []) }
        ensures err { OnErr result (self.new ≡ self.old) }
    {
        self.items.push(item)?;
        Ok(())
    }

    /// The items themselves.
    pub fn as_slice(&self) -> &[Function]
        ensures { result.now ≡ self.now }
    {
        self.items.as_slice()
    }

    /// How many there are.
    pub fn len(&self) -> usize
        ensures { result ≡ length self.now }
    {
        self.items.len()
    }

    /// Whether there are none.
    pub fn is_empty(&self) -> bool
        ensures { result ≡ (length self.now == 0) }
    {
        self.items.is_empty()
    }
}

/// The package variables of a code, by number.
pub struct CodeVariables {
    items: Vec<CodeVariable>,
}

impl Drop for CodeVariables {
    fn drop(self) {
        let CodeVariables { items: _items } = self;
    }
}

impl Model for CodeVariables {
    ghost use Rattle.std.specs.Prelude.{List};
    ghost use Rattle.ssa_ir.specs.declared.code.CodeVariable.{CodeVariable};

    ghost Value = { List CodeVariable };

    ghost view = { λ list. list.items.items };
}

impl CodeVariables {
    /// None.
    pub fn new(alloc: Global) -> CodeVariables
        ensures { result ≡ [] }
    {
        CodeVariables {
            items: Vec::new(alloc),
        }
    }

    /// Adds one at the end. After `NoMemory` the list is as before.
    pub fn push(&mut self, item: CodeVariable) -> Result<(), NoMemory>
        ensures ok { OnOk result (self.new ≡ self.old ++ item ∷ []) }
        ensures err { OnErr result (self.new ≡ self.old) }
    {
        self.items.push(item)?;
        Ok(())
    }

    /// The items themselves.
    pub fn as_slice(&self) -> &[CodeVariable]
        ensures { result.now ≡ self.now }
    {
        self.items.as_slice()
    }

    /// How many there are.
    pub fn len(&self) -> usize
        ensures { result ≡ length self.now }
    {
        self.items.len()
    }

    /// Whether there are none.
    pub fn is_empty(&self) -> bool
        ensures { result ≡ (length self.now == 0) }
    {
        self.items.is_empty()
    }

    /// The same list once more.
    pub fn copy(&self, alloc: Global) -> Result<CodeVariables, NoMemory>
        ensures { IfOk result (λ copy. copy ≡ self.now) }
    {
        Ok(CodeVariables {
            items: Vec::from_slice(alloc, self.items.as_slice())?,
        })
    }
}

/// Methods of types.
pub struct MethodLines {
    items: Vec<MethodLine>,
}

impl Drop for MethodLines {
    fn drop(self) {
        let MethodLines { items: _items } = self;
    }
}

impl Model for MethodLines {
    ghost use Rattle.std.specs.Prelude.{List};
    ghost use Rattle.ssa_ir.specs.declared.code.MethodLine.{MethodLine};

    ghost Value = { List MethodLine };

    ghost view = { λ list. list.items.items };
}

impl MethodLines {
    /// None.
    pub fn new(alloc: Global) -> MethodLines
        ensures { result ≡ [] }
    {
        MethodLines {
            items: Vec::new(alloc),
        }
    }

    /// Adds one at the end. After `NoMemory` the list is as before.
    pub fn push(&mut self, item: MethodLine) -> Result<(), NoMemory>
        ensures ok { OnOk result (self.new ≡ self.old ++ item ∷ []) }
        ensures err { OnErr result (self.new ≡ self.old) }
    {
        self.items.push(item)?;
        Ok(())
    }

    /// The items themselves.
    pub fn as_slice(&self) -> &[MethodLine]
        ensures { result.now ≡ self.now }
    {
        self.items.as_slice()
    }

    /// How many there are.
    pub fn len(&self) -> usize
        ensures { result ≡ length self.now }
    {
        self.items.len()
    }

    /// Whether there are none.
    pub fn is_empty(&self) -> bool
        ensures { result ≡ (length self.now == 0) }
    {
        self.items.is_empty()
    }

    /// The same list once more.
    pub fn copy(&self, alloc: Global) -> Result<MethodLines, NoMemory>
        ensures { IfOk result (λ copy. copy ≡ self.now) }
    {
        Ok(MethodLines {
            items: Vec::from_slice(alloc, self.items.as_slice())?,
        })
    }
}

/// Wrappers that are needed.
pub struct Needs {
    items: Vec<WrapNeed>,
}

impl Drop for Needs {
    fn drop(self) {
        let Needs { items: _items } = self;
    }
}

impl Model for Needs {
    ghost use Rattle.std.specs.Prelude.{List};
    ghost use Rattle.ssa_ir.specs.declared.code.WrapNeed.{WrapNeed};

    ghost Value = { List WrapNeed };

    ghost view = { λ list. list.items.items };
}

impl Needs {
    /// None.
    pub fn new(alloc: Global) -> Needs
        ensures { result ≡ [] }
    {
        Needs {
            items: Vec::new(alloc),
        }
    }

    /// Adds one at the end. After `NoMemory` the list is as before.
    pub fn push(&mut self, item: WrapNeed) -> Result<(), NoMemory>
        ensures ok { OnOk result (self.new ≡ self.old ++ item ∷ []) }
        ensures err { OnErr result (self.new ≡ self.old) }
    {
        self.items.push(item)?;
        Ok(())
    }

    /// The items themselves.
    pub fn as_slice(&self) -> &[WrapNeed]
        ensures { result.now ≡ self.now }
    {
        self.items.as_slice()
    }

    /// How many there are.
    pub fn len(&self) -> usize
        ensures { result ≡ length self.now }
    {
        self.items.len()
    }

    /// Whether there are none.
    pub fn is_empty(&self) -> bool
        ensures { result ≡ (length self.now == 0) }
    {
        self.items.is_empty()
    }

    /// The same list once more.
    pub fn copy(&self, alloc: Global) -> Result<Needs, NoMemory>
        ensures { IfOk result (λ copy. copy ≡ self.now) }
    {
        Ok(Needs {
            items: Vec::from_slice(alloc, self.items.as_slice())?,
        })
    }
}
