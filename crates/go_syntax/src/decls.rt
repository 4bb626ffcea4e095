//! Declarations and files. Go specification, "Declarations and scope", "Source file organization".

use crate::exprs::ListedExpr;
use crate::stmts::Block;
use crate::type_exprs::{ListedName, Params, Signature, TypeExpr};
use go_ast::Token;

/// A file: its package clause, then imports, then declarations.
#[derive(Drop)]
pub struct FileTree {
    pub word: Token,
    pub name: Token,
    pub semicolon: Token,
    pub imports: Vec<ImportDecl>,
    pub decls: Vec<DeclLine>,
}

/// `import` with one specification, or with any number of them in parentheses. Go specification, "Import declarations".
#[derive(Drop)]
pub struct ImportDecl {
    pub word: Token,
    pub open: Option<Token>,
    pub specs: Vec<ImportSpec>,
    pub close: Option<Token>,
    pub semicolon: Token,
}

/// An import, and the semicolon behind it in parentheses.
#[derive(Clone, Copy, PartialEq, Eq)]
pub struct ImportSpec {
    pub name: Option<Token>,
    pub path: Token,
    pub semicolon: Option<Token>,
}

/// A declaration at package level, and the semicolon behind it.
#[derive(Drop)]
pub struct DeclLine {
    pub decl: Decl,
    pub semicolon: Token,
}

/// A declaration. One of constants, types or variables has one specification, or any number of them in parentheses.
/// Within a function there is none of a function.
#[cycle(syntax)]
pub enum Decl {
    /// Go specification, "Constant declarations".
    Const {
        word: Token,
        open: Option<Token>,
        specs: Vec<ValueSpec>,
        close: Option<Token>,
    },
    /// Go specification, "Type declarations".
    TypeDecl {
        word: Token,
        open: Option<Token>,
        specs: Vec<TypeSpec>,
        close: Option<Token>,
    },
    /// Go specification, "Variable declarations".
    Var {
        word: Token,
        open: Option<Token>,
        specs: Vec<ValueSpec>,
        close: Option<Token>,
    },
    Func(Box<FuncDecl>),
}

impl Drop for Decl {
    #[cycle(drops)]
    fn drop(self) {
        match self {
            Decl::Const {
                word: _word,
                open: _open,
                specs: _specs,
                close: _close,
            } => {}
            Decl::TypeDecl {
                word: _word,
                open: _open,
                specs: _specs,
                close: _close,
            } => {}
            Decl::Var {
                word: _word,
                open: _open,
                specs: _specs,
                close: _close,
            } => {}
            Decl::Func(_tree) => {}
        }
    }
}

/// Names of constants or variables with their type and values, and the semicolon behind them in parentheses. Constants
/// without values have no type; variables have a type, values or both.
#[cycle(syntax)]
pub struct ValueSpec {
    pub names: Vec<ListedName>,
    pub form: Option<Box<TypeExpr>>,
    pub assign: Option<Token>,
    pub values: Vec<ListedExpr>,
    pub semicolon: Option<Token>,
}

impl Drop for ValueSpec {
    #[cycle(drops)]
    fn drop(self) {
        let ValueSpec {
            names: _names,
            form: _form,
            assign: _assign,
            values: _values,
            semicolon: _semicolon,
        } = self;
    }
}

/// A name and its type, with `=` where it is an alias, and the semicolon behind it in parentheses.
#[cycle(syntax)]
pub struct TypeSpec {
    pub name: Token,
    pub assign: Option<Token>,
    pub form: Box<TypeExpr>,
    pub semicolon: Option<Token>,
}

impl Drop for TypeSpec {
    #[cycle(drops)]
    fn drop(self) {
        let TypeSpec {
            name: _name,
            assign: _assign,
            form: _form,
            semicolon: _semicolon,
        } = self;
    }
}

/// A function, or a method, whose receiver is one parameter with at most one name. Go specification, "Function
/// declarations", "Method declarations".
#[cycle(syntax)]
pub struct FuncDecl {
    pub word: Token,
    pub receiver: Option<Params>,
    pub name: Token,
    pub signature: Signature,
    pub body: Option<Block>,
}

impl Drop for FuncDecl {
    #[cycle(drops)]
    fn drop(self) {
        let FuncDecl {
            word: _word,
            receiver: _receiver,
            name: _name,
            signature: _signature,
            body: _body,
        } = self;
    }
}
