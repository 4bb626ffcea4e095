//! Statements. Go specification, "Statements".

use crate::decls::Decl;
use crate::exprs::{Expr, ListedExpr};
use go_ast::Token;

/// Statements in braces. Go specification, "Blocks".
#[cycle(syntax)]
pub struct Block {
    pub open: Token,
    pub statements: Vec<StmtLine>,
    pub close: Token,
}

impl Drop for Block {
    #[cycle(drops)]
    fn drop(self) {
        let Block {
            open: _open,
            statements: _statements,
            close: _close,
        } = self;
    }
}

/// A statement, or the empty one, and the semicolon behind it.
#[cycle(syntax)]
pub struct StmtLine {
    pub stmt: Option<Box<Stmt>>,
    pub semicolon: Option<Token>,
}

impl Drop for StmtLine {
    #[cycle(drops)]
    fn drop(self) {
        let StmtLine {
            stmt: _stmt,
            semicolon: _semicolon,
        } = self;
    }
}

/// A statement that is not empty.
#[cycle(syntax)]
pub enum Stmt {
    /// A declaration of constants, types or variables.
    Decl(Box<Decl>),
    /// One label or more, and a statement without a label, or the empty one.
    Labeled {
        labels: Vec<Label>,
        stmt: Option<Box<Stmt>>,
    },
    Expr(Box<Expr>),
    /// `channel <- value`
    Send {
        channel: Box<Expr>,
        arrow: Token,
        value: Box<Expr>,
    },
    /// `x++` or `x--`
    Step {
        operand: Box<Expr>,
        operator: Token,
    },
    /// With `=`, or with an operator such as `+=`.
    Assign {
        targets: Vec<ListedExpr>,
        operator: Token,
        values: Vec<ListedExpr>,
    },
    /// With `:=`.
    Define {
        targets: Vec<ListedExpr>,
        operator: Token,
        values: Vec<ListedExpr>,
    },
    Go {
        word: Token,
        call: Box<Expr>,
    },
    Defer {
        word: Token,
        call: Box<Expr>,
    },
    Return {
        word: Token,
        results: Vec<ListedExpr>,
    },
    Break {
        word: Token,
        label: Option<Token>,
    },
    Continue {
        word: Token,
        label: Option<Token>,
    },
    Fallthrough(Token),
    Block(Block),
    /// The arms are the first and each `else if`. Go specification, "If statements".
    If {
        arms: Vec<IfArm>,
        else_word: Option<Token>,
        otherwise: Option<Box<Block>>,
    },
    Switch(Box<SwitchStmt>),
    TypeSwitch(Box<TypeSwitchStmt>),
    Select {
        word: Token,
        open: Token,
        clauses: Vec<CommClause>,
        close: Token,
    },
    /// `for` with a condition, or without one.
    While {
        word: Token,
        condition: Option<Box<Expr>>,
        body: Box<Block>,
    },
    /// `for` with clauses.
    For(Box<ForStmt>),
    Range(Box<RangeStmt>),
}

impl Drop for Stmt {
    #[cycle(drops)]
    fn drop(self) {
        match self {
            Stmt::Decl(_tree) => {}
            Stmt::Labeled {
                labels: _labels,
                stmt: _stmt,
            } => {}
            Stmt::Expr(_tree) => {}
            Stmt::Send {
                channel: _channel,
                arrow: _arrow,
                value: _value,
            } => {}
            Stmt::Step {
                operand: _operand,
                operator: _operator,
            } => {}
            Stmt::Assign {
                targets: _targets,
                operator: _operator,
                values: _values,
            } => {}
            Stmt::Define {
                targets: _targets,
                operator: _operator,
                values: _values,
            } => {}
            Stmt::Go {
                word: _word,
                call: _call,
            } => {}
            Stmt::Defer {
                word: _word,
                call: _call,
            } => {}
            Stmt::Return {
                word: _word,
                results: _results,
            } => {}
            Stmt::Break {
                word: _word,
                label: _label,
            } => {}
            Stmt::Continue {
                word: _word,
                label: _label,
            } => {}
            Stmt::Fallthrough(_token) => {}
            Stmt::Block(_tree) => {}
            Stmt::If {
                arms: _arms,
                else_word: _else_word,
                otherwise: _otherwise,
            } => {}
            Stmt::Switch(_tree) => {}
            Stmt::TypeSwitch(_tree) => {}
            Stmt::Select {
                word: _word,
                open: _open,
                clauses: _clauses,
                close: _close,
            } => {}
            Stmt::While {
                word: _word,
                condition: _condition,
                body: _body,
            } => {}
            Stmt::For(_tree) => {}
            Stmt::Range(_tree) => {}
        }
    }
}

/// `name :`
#[derive(Clone, Copy, PartialEq, Eq)]
pub struct Label {
    pub name: Token,
    pub colon: Token,
}

/// An arm of an `if`, with the `else` before it where it is not the first. The first statement is a simple one; a
/// semicolon stands behind it, or without it.
#[cycle(syntax)]
pub struct IfArm {
    pub else_word: Option<Token>,
    pub word: Token,
    pub init: Option<Box<Stmt>>,
    pub semicolon: Option<Token>,
    pub condition: Box<Expr>,
    pub body: Block,
}

impl Drop for IfArm {
    #[cycle(drops)]
    fn drop(self) {
        let IfArm {
            else_word: _else_word,
            word: _word,
            init: _init,
            semicolon: _semicolon,
            condition: _condition,
            body: _body,
        } = self;
    }
}

/// `switch` over values. Go specification, "Expression switches".
#[cycle(syntax)]
pub struct SwitchStmt {
    pub word: Token,
    pub init: Option<Box<Stmt>>,
    pub semicolon: Option<Token>,
    pub tag: Option<Box<Expr>>,
    pub open: Token,
    pub clauses: Vec<CaseClause>,
    pub close: Token,
}

impl Drop for SwitchStmt {
    #[cycle(drops)]
    fn drop(self) {
        let SwitchStmt {
            word: _word,
            init: _init,
            semicolon: _semicolon,
            tag: _tag,
            open: _open,
            clauses: _clauses,
            close: _close,
        } = self;
    }
}

/// `switch` over types, of `operand.(type)`. Go specification, "Type switches".
#[cycle(syntax)]
pub struct TypeSwitchStmt {
    pub word: Token,
    pub init: Option<Box<Stmt>>,
    pub semicolon: Option<Token>,
    pub binding: Option<Binding>,
    pub operand: Box<Expr>,
    pub dot: Token,
    pub open_paren: Token,
    pub type_word: Token,
    pub close_paren: Token,
    pub open: Token,
    pub clauses: Vec<CaseClause>,
    pub close: Token,
}

impl Drop for TypeSwitchStmt {
    #[cycle(drops)]
    fn drop(self) {
        let TypeSwitchStmt {
            word: _word,
            init: _init,
            semicolon: _semicolon,
            binding: _binding,
            operand: _operand,
            dot: _dot,
            open_paren: _open_paren,
            type_word: _type_word,
            close_paren: _close_paren,
            open: _open,
            clauses: _clauses,
            close: _close,
        } = self;
    }
}

/// `name :=`
#[derive(Clone, Copy, PartialEq, Eq)]
pub struct Binding {
    pub name: Token,
    pub define: Token,
}

/// A clause of a switch: `case` with expressions or types, or `default` without.
#[cycle(syntax)]
pub struct CaseClause {
    pub word: Token,
    pub items: Vec<ListedExpr>,
    pub colon: Token,
    pub statements: Vec<StmtLine>,
}

impl Drop for CaseClause {
    #[cycle(drops)]
    fn drop(self) {
        let CaseClause {
            word: _word,
            items: _items,
            colon: _colon,
            statements: _statements,
        } = self;
    }
}

/// A clause of a select: `case` with a send, a receive, or an assignment or definition of what is received, or
/// `default` without. Go specification, "Select statements".
#[cycle(syntax)]
pub struct CommClause {
    pub word: Token,
    pub comm: Option<Box<Stmt>>,
    pub colon: Token,
    pub statements: Vec<StmtLine>,
}

impl Drop for CommClause {
    #[cycle(drops)]
    fn drop(self) {
        let CommClause {
            word: _word,
            comm: _comm,
            colon: _colon,
            statements: _statements,
        } = self;
    }
}

/// `for init; condition; post`. Go specification, "For statements with for clause".
#[cycle(syntax)]
pub struct ForStmt {
    pub word: Token,
    pub init: Option<Box<Stmt>>,
    pub first: Token,
    pub condition: Option<Box<Expr>>,
    pub second: Token,
    pub post: Option<Box<Stmt>>,
    pub body: Block,
}

impl Drop for ForStmt {
    #[cycle(drops)]
    fn drop(self) {
        let ForStmt {
            word: _word,
            init: _init,
            first: _first,
            condition: _condition,
            second: _second,
            post: _post,
            body: _body,
        } = self;
    }
}

/// `for targets = range operand`, with `=` or `:=`, or without targets. Go specification, "For statements with range
/// clause".
#[cycle(syntax)]
pub struct RangeStmt {
    pub word: Token,
    pub targets: Vec<ListedExpr>,
    pub operator: Option<Token>,
    pub range: Token,
    pub operand: Box<Expr>,
    pub body: Block,
}

impl Drop for RangeStmt {
    #[cycle(drops)]
    fn drop(self) {
        let RangeStmt {
            word: _word,
            targets: _targets,
            operator: _operator,
            range: _range,
            operand: _operand,
            body: _body,
        } = self;
    }
}
