//! Functions and whole codes.

use crate::instr_lists::Instrs;
use crate::lists::{BlockIds, Blocks, CodeVariables, Functions, MethodLines};
use go_base::{BlockId, FuncId, NameId, Names, Text, TypeId};
use go_text::Labels;
use go_type::{TypeIds, Types};

/// How variables are kept.
#[derive(Clone, Copy, PartialEq, Eq)]
pub enum Form {
    /// Every variable has a cell.
    Naive,
}

/// Instructions that run one after another; the last alone leads elsewhere.
pub struct Block {
    /// The blocks that lead to it, each once.
    pub preds: BlockIds,
    pub instrs: Instrs,
}

impl Drop for Block {
    fn drop(self) {
        let Block {
            preds: _preds,
            instrs: _instrs,
        } = self;
    }
}

#[derive(Clone, Copy, PartialEq, Eq)]
pub enum FunctionKind {
    Source,
    /// The initialisation of a package.
    Init,
    Wrapper,
    /// Without a body.
    External,
}

/// A function of blocks.
pub struct Function {
    pub name: Text,
    pub kind: FunctionKind,
    /// A receiver is the first.
    pub params: TypeIds,
    pub variadic: bool,
    pub free: TypeIds,
    pub results: TypeIds,
    /// By the number of the register. Those that no instruction gives may have any type.
    pub registers: TypeIds,
    pub blocks: Blocks,
    /// Gives the results after a recovery.
    pub recover: Option<BlockId>,
}

impl Drop for Function {
    fn drop(self) {
        let Function {
            name: _name,
            kind: _kind,
            params: _params,
            variadic: _variadic,
            free: _free,
            results: _results,
            registers: _registers,
            blocks: _blocks,
            recover: _recover,
        } = self;
    }
}

/// A package variable.
#[derive(Clone, Copy, PartialEq, Eq)]
pub struct CodeVariable {
    pub name: NameId,
    pub package: u32,
    pub of: TypeId,
}

/// The function that a method of a type is.
#[derive(Clone, Copy, PartialEq, Eq)]
pub struct MethodLine {
    pub receiver: TypeId,
    pub name: NameId,
    /// The package of the name, or `EXPORTED`.
    pub package: u32,
    pub function: FuncId,
}

/// A whole code.
pub struct Code {
    pub types: Types,
    pub names: Names,
    /// The labels of the packages, in the order of their initialisation. A package's number is an index.
    pub packages: Labels,
    /// The declared types, by package and place; those named `_` are left out.
    pub declared: TypeIds,
    /// By package and place, blank ones too.
    pub variables: CodeVariables,
    /// Those of the declared types, in their order, and of each first those of its values; then those of unnamed
    /// struct types and of pointers to them.
    pub methods: MethodLines,
    /// By package, its initialisation first, then by place; then the wrappers by name.
    pub functions: Functions,
}

impl Drop for Code {
    fn drop(self) {
        let Code {
            types: _types,
            names: _names,
            packages: _packages,
            declared: _declared,
            variables: _variables,
            methods: _methods,
            functions: _functions,
        } = self;
    }
}

/// A function that stands for a method under another signature.
#[derive(Clone, Copy, PartialEq, Eq)]
pub enum WrapNeed {
    /// A method that a type has through embedded fields.
    Promotion {
        receiver: TypeId,
        name: NameId,
        package: u32,
    },
    /// A method value.
    Bound {
        receiver: TypeId,
        name: NameId,
        package: u32,
    },
    /// A method expression.
    Expression {
        receiver: TypeId,
        name: NameId,
        package: u32,
    },
}
