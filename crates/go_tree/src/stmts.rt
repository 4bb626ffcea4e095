//! Typed statements. Go specification, "Statements".

ghost use Rattle.std.specs.Prelude.{◌≡◌};

use crate::exprs::{TypedExpr, Values};
use go_base::{NameId, Pos, TypeId, VarId};
use go_type::BinaryOp;

/// Statements with a scope of their own.
#[cycle(typed_stmt)]
pub struct TypedBlock {
    pub at: Pos,
    /// What closes the scope: the `}`, or the word of the next clause.
    pub end: Pos,
    pub statements: Vec<TypedStmt>,
}

impl Drop for TypedBlock {
    #[cycle(drops)]
    fn drop(self) {
        let TypedBlock {
            at: _at,
            end: _end,
            statements: _statements,
        } = self;
    }
}

/// A statement. `at` is its first byte.
#[cycle(typed_stmt)]
pub enum TypedStmt {
    /// A declaration of constants, which does nothing.
    Const {
        at: Pos,
    },
    /// A declaration of types, which does nothing.
    TypeDecl {
        at: Pos,
    },
    /// One specification of variables.
    Var {
        at: Pos,
        variables: Vec<VarId>,
        values: Option<Values>,
    },
    Labeled {
        at: Pos,
        labels: Vec<NameId>,
        stmt: Option<Box<TypedStmt>>,
    },
    Expr {
        at: Pos,
        expr: TypedExpr,
    },
    Send {
        at: Pos,
        channel: TypedExpr,
        value: TypedExpr,
    },
    /// `x++` or `x--`: `x op= one`.
    Step {
        at: Pos,
        target: TypedExpr,
        op: BinaryOp,
        one: TypedExpr,
    },
    Assign {
        at: Pos,
        targets: Vec<Target>,
        values: Values,
    },
    AssignOp {
        at: Pos,
        target: TypedExpr,
        op: BinaryOp,
        value: TypedExpr,
    },
    Define {
        at: Pos,
        targets: Vec<DefineTarget>,
        values: Values,
    },
    /// Of a call or a call of a built-in function.
    Go {
        at: Pos,
        call: TypedExpr,
    },
    /// Of a call or a call of a built-in function.
    Defer {
        at: Pos,
        call: TypedExpr,
    },
    Return {
        at: Pos,
        values: Option<Values>,
    },
    /// How many switches, selects and loops are left, less one.
    Break {
        at: Pos,
        levels: u32,
    },
    /// How many loops around the innermost are left.
    Continue {
        at: Pos,
        levels: u32,
    },
    /// The last of a clause's statements.
    Fallthrough {
        at: Pos,
    },
    Block(TypedBlock),
    If {
        at: Pos,
        arms: Vec<TypedArm>,
        otherwise: Option<TypedBlock>,
    },
    Switch {
        at: Pos,
        init: Option<Box<TypedStmt>>,
        tag: Option<TypedExpr>,
        clauses: Vec<TypedClause>,
        end: Pos,
    },
    TypeSwitch {
        at: Pos,
        init: Option<Box<TypedStmt>>,
        operand: TypedExpr,
        clauses: Vec<TypeClause>,
        end: Pos,
    },
    Select {
        at: Pos,
        clauses: Vec<SelectClause>,
        end: Pos,
    },
    For {
        at: Pos,
        /// Whether each turn has variables of its own.
        fresh: bool,
        init: Option<Box<TypedStmt>>,
        condition: Option<TypedExpr>,
        post: Option<Box<TypedStmt>>,
        body: TypedBlock,
    },
    Range {
        at: Pos,
        /// Whether each turn has variables of its own.
        fresh: bool,
        over: RangeOver,
        operand: TypedExpr,
        targets: RangeTargets,
        body: TypedBlock,
    },
}

impl Drop for TypedStmt {
    #[cycle(drops)]
    fn drop(self) {
        match self {
            TypedStmt::Const { at: _at } => {}
            TypedStmt::TypeDecl { at: _at } => {}
            TypedStmt::Var {
                at: _at,
                variables: _variables,
                values: _values,
            } => {}
            TypedStmt::Labeled {
                at: _at,
                labels: _labels,
                stmt: _stmt,
            } => {}
            TypedStmt::Expr {
                at: _at,
                expr: _expr,
            } => {}
            TypedStmt::Send {
                at: _at,
                channel: _channel,
                value: _value,
            } => {}
            TypedStmt::Step {
                at: _at,
                target: _target,
                op: _op,
                one: _one,
            } => {}
            TypedStmt::Assign {
                at: _at,
                targets: _targets,
                values: _values,
            } => {}
            TypedStmt::AssignOp {
                at: _at,
                target: _target,
                op: _op,
                value: _value,
            } => {}
            TypedStmt::Define {
                at: _at,
                targets: _targets,
                values: _values,
            } => {}
            TypedStmt::Go {
                at: _at,
                call: _call,
            } => {}
            TypedStmt::Defer {
                at: _at,
                call: _call,
            } => {}
            TypedStmt::Return {
                at: _at,
                values: _values,
            } => {}
            TypedStmt::Break {
                at: _at,
                levels: _levels,
            } => {}
            TypedStmt::Continue {
                at: _at,
                levels: _levels,
            } => {}
            TypedStmt::Fallthrough { at: _at } => {}
            TypedStmt::Block(_held) => {}
            TypedStmt::If {
                at: _at,
                arms: _arms,
                otherwise: _otherwise,
            } => {}
            TypedStmt::Switch {
                at: _at,
                init: _init,
                tag: _tag,
                clauses: _clauses,
                end: _end,
            } => {}
            TypedStmt::TypeSwitch {
                at: _at,
                init: _init,
                operand: _operand,
                clauses: _clauses,
                end: _end,
            } => {}
            TypedStmt::Select {
                at: _at,
                clauses: _clauses,
                end: _end,
            } => {}
            TypedStmt::For {
                at: _at,
                fresh: _fresh,
                init: _init,
                condition: _condition,
                post: _post,
                body: _body,
            } => {}
            TypedStmt::Range {
                at: _at,
                fresh: _fresh,
                over: _over,
                operand: _operand,
                targets: _targets,
                body: _body,
            } => {}
        }
    }
}

/// What is assigned to: a place or an element of a map, or nothing.
pub enum Target {
    Place(TypedExpr),
    Blank,
}

impl Drop for Target {
    fn drop(self) {
        match self {
            Target::Place(_held) => {}
            Target::Blank => {}
        }
    }
}

/// What `:=` sets.
#[derive(Clone, Copy, PartialEq, Eq)]
pub enum DefineTarget {
    New(VarId),
    Old(VarId),
    Blank,
}

/// An arm of an `if`.
#[cycle(typed_stmt)]
pub struct TypedArm {
    pub at: Pos,
    pub init: Option<Box<TypedStmt>>,
    pub condition: TypedExpr,
    pub body: TypedBlock,
}

impl Drop for TypedArm {
    #[cycle(drops)]
    fn drop(self) {
        let TypedArm {
            at: _at,
            init: _init,
            condition: _condition,
            body: _body,
        } = self;
    }
}

/// A clause of a switch over values.
#[cycle(typed_stmt)]
pub struct TypedClause {
    pub at: Pos,
    pub is_default: bool,
    pub cases: Vec<TypedCase>,
    pub body: TypedBlock,
}

impl Drop for TypedClause {
    #[cycle(drops)]
    fn drop(self) {
        let TypedClause {
            at: _at,
            is_default: _is_default,
            cases: _cases,
            body: _body,
        } = self;
    }
}

/// A case: with a tag the value that it is compared with, and else the condition itself.
pub struct TypedCase {
    pub at: Pos,
    /// The interface that the tag is made a value of before it is compared.
    pub tag_to: Option<TypeId>,
    pub value: TypedExpr,
}

impl TypedCase {
    /// Its place, the interface that the tag is made a value of, and its value.
    pub fn into_parts(self) -> (Pos, Option<TypeId>, TypedExpr)
        ensures at { result.0 ≡ self.at }
        ensures tag_to { result.1 ≡ self.tag_to }
        ensures value { result.2 ≡ self.value }
    {
        let TypedCase { at, tag_to, value } = self;
        (at, tag_to, value)
    }
}

impl Drop for TypedCase {
    fn drop(self) {
        let TypedCase {
            at: _at,
            tag_to: _tag_to,
            value: _value,
        } = self;
    }
}

/// A clause of a switch over types.
#[cycle(typed_stmt)]
pub struct TypeClause {
    pub at: Pos,
    pub is_default: bool,
    pub cases: Vec<TypeCase>,
    /// The variable of this clause, where the switch binds one.
    pub variable: Option<VarId>,
    pub body: TypedBlock,
}

impl Drop for TypeClause {
    #[cycle(drops)]
    fn drop(self) {
        let TypeClause {
            at: _at,
            is_default: _is_default,
            cases: _cases,
            variable: _variable,
            body: _body,
        } = self;
    }
}

/// A case of a switch over types.
#[derive(Clone, Copy, PartialEq, Eq)]
pub enum TypeCase {
    Nil,
    Of(TypeId),
}

/// A clause of a select.
#[cycle(typed_stmt)]
pub struct SelectClause {
    pub at: Pos,
    pub comm: Comm,
    pub body: TypedBlock,
}

impl Drop for SelectClause {
    #[cycle(drops)]
    fn drop(self) {
        let SelectClause {
            at: _at,
            comm: _comm,
            body: _body,
        } = self;
    }
}

/// What a clause of a select waits for.
pub enum Comm {
    Default,
    Send {
        channel: TypedExpr,
        value: TypedExpr,
    },
    Receive {
        channel: TypedExpr,
        into: ReceiveInto,
    },
}

impl Drop for Comm {
    fn drop(self) {
        match self {
            Comm::Default => {}
            Comm::Send {
                channel: _channel,
                value: _value,
            } => {}
            Comm::Receive {
                channel: _channel,
                into: _into,
            } => {}
        }
    }
}

/// Where what is received goes: its parts are the value, and whether it was sent.
pub enum ReceiveInto {
    Nothing,
    Define {
        targets: Vec<DefineTarget>,
    },
    Assign {
        targets: Vec<Target>,
        parts: Vec<TypedExpr>,
    },
}

impl Drop for ReceiveInto {
    fn drop(self) {
        match self {
            ReceiveInto::Nothing => {}
            ReceiveInto::Define { targets: _targets } => {}
            ReceiveInto::Assign {
                targets: _targets,
                parts: _parts,
            } => {}
        }
    }
}

/// What a range goes over.
#[derive(Clone, Copy, PartialEq, Eq)]
pub enum RangeOver {
    Array,
    ArrayPointer,
    Slice,
    Text,
    Map,
    Channel,
    /// An array or a pointer to one, with at most one variable: the operand is not evaluated.
    Constant(u64),
    Integer,
}

/// What a range sets in each turn: its parts are the key and the value.
pub enum RangeTargets {
    None,
    Define {
        key: Option<VarId>,
        value: Option<VarId>,
    },
    Assign {
        key: Option<Target>,
        value: Option<Target>,
        parts: Vec<TypedExpr>,
    },
}

impl Drop for RangeTargets {
    fn drop(self) {
        match self {
            RangeTargets::None => {}
            RangeTargets::Define {
                key: _key,
                value: _value,
            } => {}
            RangeTargets::Assign {
                key: _key,
                value: _value,
                parts: _parts,
            } => {}
        }
    }
}
