//! Programs: the tables of what they declare, the bodies of functions and the order of initialisers.

ghost use Rattle.std.specs.Prelude.{◌≡◌, ◌==◌, ◌++◌, ◌∷◌, [], length, OnOk, OnErr};

use crate::exprs::Values;
use crate::functions::FunctionDecls;
use crate::packages::Packages;
use crate::stmts::TypedBlock;
use crate::variables::{DeclaredTypes, VarIds, Variables};
use go_base::{FuncId, Names, NoMemory, Pos, TypeId};
use go_type::Types;
use std::alloc::Global;
use std::marker::Model;

/// The body of a function.
pub struct Body {
    /// The receiver first.
    pub params: VarIds,
    pub results: VarIds,
    /// The variables of functions around it that it names, or that literals within it name, ascending.
    pub captured: VarIds,
    /// Whether a `defer` of its own stands in it.
    pub has_defer: bool,
    pub block: TypedBlock,
}

impl Drop for Body {
    fn drop(self) {
        let Body {
            params: _params,
            results: _results,
            captured: _captured,
            has_defer: _has_defer,
            block: _block,
        } = self;
    }
}

/// The bodies of functions, by the number of the function.
#[derive(Drop)]
pub struct Bodies {
    items: Vec<Option<Body>>,
}

impl Model for Bodies {
    ghost use Rattle.std.specs.Prelude.{List};
    ghost use Rattle.std.specs.Prelude.{Option};
    ghost use Rattle.go_tree.specs.declared.program.Body.{Body};

    ghost Value = { List (Option Body) };

    ghost use Rattle.std.specs.Coded.{codes};
    ghost use Rattle.go_tree.specs.contracts.stmts.TypedBlock as block;

    ghost coded = { Prim.hlevel (codes, block.the_row.coded) };

    ghost view = { λ l. l.items.items };
}

impl Bodies {
    /// No bodies.
    pub fn new(alloc: Global) -> Bodies
        ensures { result ≡ [] }
    {
        Bodies {
            items: Vec::new(alloc),
        }
    }

    /// Adds a body at the end. After `NoMemory` the list is as before.
    pub fn push(&mut self, item: Option<Body>) -> Result<(), NoMemory>
        ensures ok { OnOk result (self.new ≡ self.old ++ item ∷ []) }
        ensures err { OnErr result (self.new ≡ self.old) }
    {
        self.items.push(item)?;
        Ok(())
    }

    /// The bodies themselves.
    pub fn as_slice(&self) -> &[Option<Body>]
        ensures { result.now ≡ self.now }
    {
        self.items.as_slice()
    }

    /// How many functions there are.
    pub fn len(&self) -> usize
        ensures { result ≡ length self.now }
    {
        self.items.len()
    }

    /// Whether there are none.
    pub fn is_empty(&self) -> bool
        ensures { result ≡ (length self.now == 0) }
    {
        self.items.is_empty()
    }
}

/// The initialisation of package variables by one specification, or of a variable by its value.
pub struct InitStep {
    pub package: u32,
    pub at: Pos,
    pub variables: VarIds,
    pub values: Values,
}

impl Drop for InitStep {
    fn drop(self) {
        let InitStep {
            package: _package,
            at: _at,
            variables: _variables,
            values: _values,
        } = self;
    }
}

/// Initialisations, in order.
#[derive(Drop)]
pub struct InitSteps {
    items: Vec<InitStep>,
}

impl Model for InitSteps {
    ghost use Rattle.std.specs.Prelude.{List};
    ghost use Rattle.go_tree.specs.declared.program.InitStep.{InitStep};

    ghost Value = { List InitStep };

    ghost use Rattle.std.specs.Coded.{codes};
    ghost use Rattle.go_tree.specs.contracts.exprs.Values as values;

    ghost coded = { Prim.hlevel (codes, values.the_row.coded) };

    ghost view = { λ l. l.items.items };
}

impl InitSteps {
    /// No steps.
    pub fn new(alloc: Global) -> InitSteps
        ensures { result ≡ [] }
    {
        InitSteps {
            items: Vec::new(alloc),
        }
    }

    /// Adds a step at the end. After `NoMemory` the list is as before.
    pub fn push(&mut self, item: InitStep) -> Result<(), NoMemory>
        ensures ok { OnOk result (self.new ≡ self.old ++ item ∷ []) }
        ensures err { OnErr result (self.new ≡ self.old) }
    {
        self.items.push(item)?;
        Ok(())
    }

    /// The steps themselves.
    pub fn as_slice(&self) -> &[InitStep]
        ensures { result.now ≡ self.now }
    {
        self.items.as_slice()
    }

    /// How many steps there are.
    pub fn len(&self) -> usize
        ensures { result ≡ length self.now }
    {
        self.items.len()
    }

    /// Whether there are none.
    pub fn is_empty(&self) -> bool
        ensures { result ≡ (length self.now == 0) }
    {
        self.items.is_empty()
    }
}

/// A program that breaks no rule.
#[derive(Drop)]
pub struct Program {
    pub names: Names,
    pub types: Types,
    pub packages: Packages,
    pub functions: FunctionDecls,
    pub variables: Variables,
    /// Without `error`.
    pub declared: DeclaredTypes,
    /// Of the whole program, in order. Go specification, "Package initialization".
    pub initialisers: InitSteps,
    pub bodies: Bodies,
    /// The type `errorString` of package `runtime`, whose values are the faults of a run.
    pub error_string: TypeId,
    /// `main` of the target, where that is a program.
    pub main: Option<FuncId>,
}
