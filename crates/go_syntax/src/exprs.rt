//! Expressions. Go specification, "Expressions".

ghost use Rattle.std.specs.Prelude.{◌≡◌, IfOk, IfErr};
ghost use Rattle.std.specs.Global.{Box};
ghost use Rattle.go_syntax.specs.declared.type_exprs.TypeExpr.{TypeExpr};
ghost use Rattle.go_syntax.specs.declared.exprs.Expr.TheVariants as exprs;
ghost use Rattle.go_syntax.specs.declared.decls.Decl.TheViews.{out-ListedExpr};

use crate::stmts::Block;
use crate::type_exprs::{Signature, TypeExpr};
use go_ast::Token;

/// An expression; in an operand's parentheses, as an argument and in a case also a type that is no expression.
#[cycle(syntax)]
pub enum Expr {
    /// An integer literal.
    Int(Token),
    /// A rune literal.
    Rune(Token),
    /// A string literal, raw or interpreted.
    Text(Token),
    /// A name: of a variable, a constant, a function, a package or a type.
    Name(Token),
    /// `( x )`, where `x` is an expression or a type.
    Paren {
        open: Token,
        inner: Box<Expr>,
        close: Token,
    },
    /// Go specification, "Function literals".
    Function {
        word: Token,
        signature: Box<Signature>,
        body: Box<Block>,
    },
    /// A type that is no name: a slice, array, map, struct or interface type, and where types may stand any other.
    TypeForm(Box<TypeExpr>),
    /// Elements in braces behind their type, which may be left out within a literal. Go specification, "Composite
    /// literals".
    Composite {
        form: Option<Box<TypeExpr>>,
        open: Token,
        elements: Vec<Element>,
        close: Token,
    },
    /// `x.name`. Go specification, "Selectors".
    Selector {
        operand: Box<Expr>,
        dot: Token,
        name: Token,
    },
    /// `x.(T)`. Go specification, "Type assertions".
    Assertion {
        operand: Box<Expr>,
        dot: Token,
        open: Token,
        form: Box<TypeExpr>,
        close: Token,
    },
    /// `x[index]`. Go specification, "Index expressions".
    Index {
        operand: Box<Expr>,
        open: Token,
        index: Box<Expr>,
        close: Token,
    },
    /// `x[low:high]`. Go specification, "Simple slice expressions".
    Slice {
        operand: Box<Expr>,
        open: Token,
        low: Option<Box<Expr>>,
        colon: Token,
        high: Option<Box<Expr>>,
        close: Token,
    },
    /// `x[low:high:max]`. Go specification, "Full slice expressions".
    FullSlice {
        operand: Box<Expr>,
        open: Token,
        low: Option<Box<Expr>>,
        colon: Token,
        high: Box<Expr>,
        second_colon: Token,
        max: Box<Expr>,
        close: Token,
    },
    /// `f(x, y...)`, where a comma may stand behind the last argument. Go specification, "Calls".
    Call {
        callee: Box<Expr>,
        open: Token,
        arguments: Vec<ListedExpr>,
        ellipsis: Option<Token>,
        comma: Option<Token>,
        close: Token,
    },
    /// One of `+ - ! ^ * & <-` before an operand.
    Unary {
        operator: Token,
        operand: Box<Expr>,
    },
    /// An operator between two operands.
    Binary {
        left: Box<Expr>,
        operator: Token,
        right: Box<Expr>,
    },
}

impl Expr {
    /// The type that stands here as an expression; anything else is given back.
    pub fn into_type(self) -> Result<Box<TypeExpr>, Expr>
        ensures form { IfOk result (λ form. self ≡ exprs.TypeForm form) }
        ensures same { IfErr result (λ other. other ≡ self) }
        ensures other { IfErr result (λ other. (form : Box TypeExpr) → self ≡ exprs.TypeForm form → ⊥) }
    {
        match self {
            Expr::TypeForm(form) => Ok(form),
            other => Err(other),
        }
    }
}

impl Drop for Expr {
    #[cycle(drops)]
    fn drop(self) {
        match self {
            Expr::Int(_token) => {}
            Expr::Rune(_token) => {}
            Expr::Text(_token) => {}
            Expr::Name(_token) => {}
            Expr::Paren {
                open: _open,
                inner: _inner,
                close: _close,
            } => {}
            Expr::Function {
                word: _word,
                signature: _signature,
                body: _body,
            } => {}
            Expr::TypeForm(_tree) => {}
            Expr::Composite {
                form: _form,
                open: _open,
                elements: _elements,
                close: _close,
            } => {}
            Expr::Selector {
                operand: _operand,
                dot: _dot,
                name: _name,
            } => {}
            Expr::Assertion {
                operand: _operand,
                dot: _dot,
                open: _open,
                form: _form,
                close: _close,
            } => {}
            Expr::Index {
                operand: _operand,
                open: _open,
                index: _index,
                close: _close,
            } => {}
            Expr::Slice {
                operand: _operand,
                open: _open,
                low: _low,
                colon: _colon,
                high: _high,
                close: _close,
            } => {}
            Expr::FullSlice {
                operand: _operand,
                open: _open,
                low: _low,
                colon: _colon,
                high: _high,
                second_colon: _second_colon,
                max: _max,
                close: _close,
            } => {}
            Expr::Call {
                callee: _callee,
                open: _open,
                arguments: _arguments,
                ellipsis: _ellipsis,
                comma: _comma,
                close: _close,
            } => {}
            Expr::Unary {
                operator: _operator,
                operand: _operand,
            } => {}
            Expr::Binary {
                left: _left,
                operator: _operator,
                right: _right,
            } => {}
        }
    }
}

/// An expression of a list, and the comma behind it.
#[cycle(syntax)]
pub struct ListedExpr {
    pub expr: Box<Expr>,
    pub comma: Option<Token>,
}

impl ListedExpr {
    /// The expression, and the comma behind it.
    pub fn into_parts(self) -> (Box<Expr>, Option<Token>)
        ensures expr { result.0 ≡ (out-ListedExpr self).expr }
        ensures comma { result.1 ≡ (out-ListedExpr self).comma }
    {
        let ListedExpr { expr, comma } = self;
        (expr, comma)
    }
}

impl Drop for ListedExpr {
    #[cycle(drops)]
    fn drop(self) {
        let ListedExpr {
            expr: _expr,
            comma: _comma,
        } = self;
    }
}

/// An element of a composite literal, with its key and colon where it has one, and the comma behind it.
#[cycle(syntax)]
pub struct Element {
    pub key: Option<Box<Expr>>,
    pub colon: Option<Token>,
    pub value: Box<Expr>,
    pub comma: Option<Token>,
}

impl Drop for Element {
    #[cycle(drops)]
    fn drop(self) {
        let Element {
            key: _key,
            colon: _colon,
            value: _value,
            comma: _comma,
        } = self;
    }
}
