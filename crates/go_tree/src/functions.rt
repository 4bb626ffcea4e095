//! The functions of a program. Go specification, "Function declarations", "Method declarations", "Function literals".

ghost use Rattle.std.specs.Prelude.{◌≡◌, ◌==◌, ◌++◌, ◌∷◌, [], length, OnOk, OnErr, IfOk};

use go_base::{FuncId, NameId, NoMemory, Pos, TypeId};
use std::alloc::Global;
use std::marker::Model;

/// What a function is.
#[derive(Clone, Copy, PartialEq, Eq)]
pub enum FunctionForm {
    Function,
    Method,
    /// A function named `init`.
    Init,
    /// What initialises a package: its variables, and then its functions named `init`.
    PackageInit,
    Literal { within: FuncId },
}

/// A function of a program, without its body.
#[derive(Clone, Copy, PartialEq, Eq)]
pub struct FunctionDecl {
    /// `_` for a literal and for what initialises a package.
    pub name: NameId,
    pub package: u32,
    /// Its name; the first byte of a literal; offset 0 of the first file for what initialises a package.
    pub at: Pos,
    /// Its type, without the receiver.
    pub signature: TypeId,
    /// The receiver's type, exactly where it is a method.
    pub receiver: Option<TypeId>,
    /// Whether it has a body: what initialises a package has none, nor have `os.Exit` and `runtime.Gosched`.
    pub has_body: bool,
    pub form: FunctionForm,
}

/// Functions, by their numbers.
#[derive(Drop)]
pub struct FunctionDecls {
    items: Vec<FunctionDecl>,
}

impl Model for FunctionDecls {
    ghost use Rattle.std.specs.Prelude.{List};
    ghost use Rattle.go_tree.specs.declared.functions.FunctionDecl.{FunctionDecl};

    ghost Value = { List FunctionDecl };

    ghost view = { λ l. l.items.items };
}

impl FunctionDecls {
    /// No functions.
    pub fn new(alloc: Global) -> FunctionDecls
        ensures { result ≡ [] }
    {
        FunctionDecls {
            items: Vec::new(alloc),
        }
    }

    /// Adds a function at the end. After `NoMemory` the list is as before.
    pub fn push(&mut self, item: FunctionDecl) -> Result<(), NoMemory>
        ensures ok { OnOk result (self.new ≡ self.old ++ item ∷ []) }
        ensures err { OnErr result (self.new ≡ self.old) }
    {
        self.items.push(item)?;
        Ok(())
    }

    /// The functions themselves.
    pub fn as_slice(&self) -> &[FunctionDecl]
        ensures { result.now ≡ self.now }
    {
        self.items.as_slice()
    }

    /// How many functions there are.
    pub fn len(&self) -> usize
        ensures { result ≡ length self.now }
    {
        self.items.len()
    }

    /// Whether there are none.
    pub fn is_empty(&self) -> bool
        ensures { result ≡ (length self.now == 0) }
    {
        self.items.is_empty()
    }

    /// The same functions once more.
    pub fn copy(&self, alloc: Global) -> Result<FunctionDecls, NoMemory>
        ensures { IfOk result (λ copy. copy ≡ self.now) }
    {
        Ok(FunctionDecls {
            items: Vec::from_slice(alloc, self.items.as_slice())?,
        })
    }
}
