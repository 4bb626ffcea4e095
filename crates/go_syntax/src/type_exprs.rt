//! Types as they are written. Go specification, "Types".

use crate::exprs::Expr;
use go_ast::Token;

/// A name of a type, of this package or of an imported one.
#[derive(Clone, Copy, PartialEq, Eq)]
pub enum NamedType {
    Local(Token),
    Imported {
        package: Token,
        dot: Token,
        name: Token,
    },
}

/// A name of a list, and the comma behind it.
#[derive(Clone, Copy, PartialEq, Eq)]
pub struct ListedName {
    pub name: Token,
    pub comma: Option<Token>,
}

/// A type as it is written.
#[cycle(syntax)]
pub enum TypeExpr {
    Name(NamedType),
    /// `( T )`
    Paren {
        open: Token,
        inner: Box<TypeExpr>,
        close: Token,
    },
    /// `*T`
    Pointer {
        star: Token,
        base: Box<TypeExpr>,
    },
    /// `[]T`
    Slice {
        open: Token,
        close: Token,
        element: Box<TypeExpr>,
    },
    /// `[length]T`
    Array {
        open: Token,
        length: Box<Expr>,
        close: Token,
        element: Box<TypeExpr>,
    },
    /// `[...]T`, the type of a composite literal alone.
    OpenArray {
        open: Token,
        ellipsis: Token,
        close: Token,
        element: Box<TypeExpr>,
    },
    /// `map[K]V`
    Map {
        word: Token,
        open: Token,
        key: Box<TypeExpr>,
        close: Token,
        element: Box<TypeExpr>,
    },
    /// `chan T`, or `chan<- T`.
    Chan {
        word: Token,
        arrow: Option<Token>,
        element: Box<TypeExpr>,
    },
    /// `<-chan T`
    ReceiveChan {
        arrow: Token,
        word: Token,
        element: Box<TypeExpr>,
    },
    /// `func` with a signature.
    Function {
        word: Token,
        signature: Box<Signature>,
    },
    Struct {
        word: Token,
        open: Token,
        fields: Vec<FieldLine>,
        close: Token,
    },
    Interface {
        word: Token,
        open: Token,
        elements: Vec<ElementLine>,
        close: Token,
    },
}

impl Drop for TypeExpr {
    #[cycle(drops)]
    fn drop(self) {
        match self {
            TypeExpr::Name(_token) => {}
            TypeExpr::Paren {
                open: _open,
                inner: _inner,
                close: _close,
            } => {}
            TypeExpr::Pointer {
                star: _star,
                base: _base,
            } => {}
            TypeExpr::Slice {
                open: _open,
                close: _close,
                element: _element,
            } => {}
            TypeExpr::Array {
                open: _open,
                length: _length,
                close: _close,
                element: _element,
            } => {}
            TypeExpr::OpenArray {
                open: _open,
                ellipsis: _ellipsis,
                close: _close,
                element: _element,
            } => {}
            TypeExpr::Map {
                word: _word,
                open: _open,
                key: _key,
                close: _close,
                element: _element,
            } => {}
            TypeExpr::Chan {
                word: _word,
                arrow: _arrow,
                element: _element,
            } => {}
            TypeExpr::ReceiveChan {
                arrow: _arrow,
                word: _word,
                element: _element,
            } => {}
            TypeExpr::Function {
                word: _word,
                signature: _signature,
            } => {}
            TypeExpr::Struct {
                word: _word,
                open: _open,
                fields: _fields,
                close: _close,
            } => {}
            TypeExpr::Interface {
                word: _word,
                open: _open,
                elements: _elements,
                close: _close,
            } => {}
        }
    }
}

/// Parameters and results. Go specification, "Function types".
#[cycle(syntax)]
pub struct Signature {
    pub params: Params,
    pub result: ResultForm,
}

impl Drop for Signature {
    #[cycle(drops)]
    fn drop(self) {
        let Signature {
            params: _params,
            result: _result,
        } = self;
    }
}

/// The results of a function: none, a list in parentheses, or one type without them.
#[cycle(syntax)]
pub enum ResultForm {
    None,
    Params(Params),
    TypeForm(Box<TypeExpr>),
}

impl Drop for ResultForm {
    #[cycle(drops)]
    fn drop(self) {
        match self {
            ResultForm::None => {}
            ResultForm::Params(_tree) => {}
            ResultForm::TypeForm(_tree) => {}
        }
    }
}

/// Parameters, results or a receiver in parentheses: all of them without names, or all with names.
#[cycle(syntax)]
pub struct Params {
    pub open: Token,
    pub params: Vec<Param>,
    pub close: Token,
}

impl Drop for Params {
    #[cycle(drops)]
    fn drop(self) {
        let Params {
            open: _open,
            params: _params,
            close: _close,
        } = self;
    }
}

/// A type alone, or names with their type; with the `...` of a variadic parameter, and the comma behind it.
#[cycle(syntax)]
pub struct Param {
    pub names: Vec<ListedName>,
    pub ellipsis: Option<Token>,
    pub form: Box<TypeExpr>,
    pub comma: Option<Token>,
}

impl Drop for Param {
    #[cycle(drops)]
    fn drop(self) {
        let Param {
            names: _names,
            ellipsis: _ellipsis,
            form: _form,
            comma: _comma,
        } = self;
    }
}

/// A field declaration, or nothing, and the semicolon behind it. Go specification, "Struct types".
#[cycle(syntax)]
pub enum FieldLine {
    Empty(Token),
    /// Fields of one type.
    Named {
        names: Vec<ListedName>,
        form: Box<TypeExpr>,
        tag: Option<Token>,
        semicolon: Option<Token>,
    },
    /// `T` or `*T`
    Embedded {
        star: Option<Token>,
        name: NamedType,
        tag: Option<Token>,
        semicolon: Option<Token>,
    },
}

impl Drop for FieldLine {
    #[cycle(drops)]
    fn drop(self) {
        match self {
            FieldLine::Empty(_token) => {}
            FieldLine::Named {
                names: _names,
                form: _form,
                tag: _tag,
                semicolon: _semicolon,
            } => {}
            FieldLine::Embedded {
                star: _star,
                name: _name,
                tag: _tag,
                semicolon: _semicolon,
            } => {}
        }
    }
}

/// An element of an interface, or nothing, and the semicolon behind it. Go specification, "Interface types".
#[cycle(syntax)]
pub enum ElementLine {
    Empty(Token),
    Method {
        name: Token,
        signature: Box<Signature>,
        semicolon: Option<Token>,
    },
    Embedded {
        name: NamedType,
        semicolon: Option<Token>,
    },
}

impl Drop for ElementLine {
    #[cycle(drops)]
    fn drop(self) {
        match self {
            ElementLine::Empty(_token) => {}
            ElementLine::Method {
                name: _name,
                signature: _signature,
                semicolon: _semicolon,
            } => {}
            ElementLine::Embedded {
                name: _name,
                semicolon: _semicolon,
            } => {}
        }
    }
}
