//! Typed expressions: each with its type, and with implicit conversions, dereferences and address operations as nodes of
//! their own. Go specification, "Expressions".

ghost use Rattle.std.specs.Prelude.{◌≡◌};
ghost use Rattle.go_tree.specs.declared.exprs.Callee.TheViews.{out-TypedExpr};

use go_base::{FuncId, NameId, Pos, TypeId, VarId};
use go_type::{BinaryOp, Builtin, CompareOp, Const, UnaryOp};

/// An expression with its type. Parentheses leave no node.
#[cycle(typed)]
pub struct TypedExpr {
    /// The first byte; the `(` of a call, and the `{` of a composite literal. An implicit node has that of its operand.
    pub at: Pos,
    pub of: TypeId,
    pub kind: ExprKind,
}

impl TypedExpr {
    /// Its place, its type and what it is made of.
    pub fn into_parts(self) -> (Pos, TypeId, ExprKind)
        ensures at { result.0 ≡ (out-TypedExpr self).at }
        ensures of { result.1 ≡ (out-TypedExpr self).of }
        ensures kind { result.2 ≡ (out-TypedExpr self).kind }
    {
        let TypedExpr { at, of, kind } = self;
        (at, of, kind)
    }
}

impl Drop for TypedExpr {
    #[cycle(drops)]
    fn drop(self) {
        let TypedExpr {
            at: _at,
            of: _of,
            kind: _kind,
        } = self;
    }
}

/// What an expression is made of. A place is a variable, a dereference, an element of a slice, and a field of a place or
/// an element of an array that is a place.
#[cycle(typed)]
#[derive(Drop)]
pub enum ExprKind {
    ConstOf(Const),
    NilOf,
    VarOf(VarId),
    /// A declared function, as a value.
    FunctionOf(FuncId),
    /// A function literal, as a value.
    LiteralOf(FuncId),
    /// `x.m`, not called. Go specification, "Method values".
    MethodValue {
        receiver: Box<TypedExpr>,
        method: Method,
    },
    /// `T.m`. Go specification, "Method expressions".
    MethodExpr {
        receiver: TypeId,
        name: NameId,
        package: u32,
    },
    FieldOf {
        operand: Box<TypedExpr>,
        field: u32,
    },
    IndexOf {
        base: IndexBase,
        operand: Box<TypedExpr>,
        index: Box<TypedExpr>,
    },
    MapIndex {
        map: Box<TypedExpr>,
        key: Box<TypedExpr>,
        comma_ok: bool,
    },
    SliceOf {
        base: SliceBase,
        operand: Box<TypedExpr>,
        low: Option<Box<TypedExpr>>,
        high: Option<Box<TypedExpr>>,
        max: Option<Box<TypedExpr>>,
    },
    Deref(Box<TypedExpr>),
    /// Of a place or a composite literal.
    AddressOf(Box<TypedExpr>),
    UnaryOf {
        op: UnaryOp,
        operand: Box<TypedExpr>,
    },
    BinaryOf {
        op: BinaryOp,
        left: Box<TypedExpr>,
        right: Box<TypedExpr>,
    },
    CompareOf {
        op: CompareOp,
        left: Box<TypedExpr>,
        right: Box<TypedExpr>,
    },
    AndAlso {
        left: Box<TypedExpr>,
        right: Box<TypedExpr>,
    },
    OrElse {
        left: Box<TypedExpr>,
        right: Box<TypedExpr>,
    },
    Receive {
        channel: Box<TypedExpr>,
        comma_ok: bool,
    },
    CallOf {
        callee: Callee,
        arguments: Values,
    },
    BuiltinOf {
        builtin: Builtin,
        /// The type that `make` and `new` are given.
        form: Option<TypeId>,
        arguments: Vec<TypedExpr>,
        /// Whether `...` stands behind the last argument, or the second is a string that is appended to bytes.
        spread: bool,
    },
    /// A conversion to a type that is no interface.
    ConvertTo(Box<TypedExpr>),
    /// A value made one of an interface.
    ToInterface(Box<TypedExpr>),
    AssertTo {
        operand: Box<TypedExpr>,
        to: TypeId,
        comma_ok: bool,
    },
    CompositeOf(Elements),
    /// One of several values that were evaluated just before.
    PartOf(u32),
}

/// A method that is selected.
#[derive(Clone, Copy, PartialEq, Eq)]
pub enum Method {
    Concrete(FuncId),
    Interface { name: NameId, package: u32 },
}

/// What is indexed.
#[derive(Clone, Copy, PartialEq, Eq)]
pub enum IndexBase {
    Array,
    Slice,
    Text,
}

/// What is sliced.
#[derive(Clone, Copy, PartialEq, Eq)]
pub enum SliceBase {
    ArrayPointer,
    Slice,
    Text,
}

/// What is called. Go specification, "Calls".
#[cycle(typed)]
pub enum Callee {
    /// A declared function.
    Function(FuncId),
    /// A function literal where it stands.
    Literal(FuncId),
    /// A declared method.
    Method {
        receiver: Box<TypedExpr>,
        function: FuncId,
    },
    /// A method of an interface.
    Interface {
        receiver: Box<TypedExpr>,
        name: NameId,
        package: u32,
    },
    /// A value of a function type.
    Value(Box<TypedExpr>),
}

impl Drop for Callee {
    #[cycle(drops)]
    fn drop(self) {
        match self {
            Callee::Function(_held) => {}
            Callee::Literal(_held) => {}
            Callee::Method {
                receiver: _receiver,
                function: _function,
            } => {}
            Callee::Interface {
                receiver: _receiver,
                name: _name,
                package: _package,
            } => {}
            Callee::Value(_held) => {}
        }
    }
}

/// The values of a list: one expression each, or one expression of several values with what is made of its parts.
#[cycle(typed)]
pub enum Values {
    Each(Vec<TypedExpr>),
    Spread {
        tuple: Box<TypedExpr>,
        parts: Vec<TypedExpr>,
    },
}

impl Drop for Values {
    #[cycle(drops)]
    fn drop(self) {
        match self {
            Values::Each(_held) => {}
            Values::Spread {
                tuple: _tuple,
                parts: _parts,
            } => {}
        }
    }
}

/// The elements of a composite literal. Go specification, "Composite literals".
#[cycle(typed)]
pub enum Elements {
    /// Of a struct, in the order in which they are written, each field at most once.
    Fields(Vec<FieldInit>),
    /// Of an array or slice. `len` is that of the array, or one more than the greatest index.
    Items { items: Vec<ItemInit>, len: u64 },
    /// Of a map.
    Entries(Vec<EntryInit>),
}

impl Drop for Elements {
    #[cycle(drops)]
    fn drop(self) {
        match self {
            Elements::Fields(_held) => {}
            Elements::Items {
                items: _items,
                len: _len,
            } => {}
            Elements::Entries(_held) => {}
        }
    }
}

/// A field, by its number, and its value.
#[cycle(typed)]
pub struct FieldInit {
    pub field: u32,
    pub value: TypedExpr,
}

impl Drop for FieldInit {
    #[cycle(drops)]
    fn drop(self) {
        let FieldInit {
            field: _field,
            value: _value,
        } = self;
    }
}

/// An element, by its index, and its value.
#[cycle(typed)]
pub struct ItemInit {
    pub index: u64,
    pub value: TypedExpr,
}

impl Drop for ItemInit {
    #[cycle(drops)]
    fn drop(self) {
        let ItemInit {
            index: _index,
            value: _value,
        } = self;
    }
}

/// A key and its value.
#[cycle(typed)]
pub struct EntryInit {
    pub key: TypedExpr,
    pub value: TypedExpr,
}

impl Drop for EntryInit {
    #[cycle(drops)]
    fn drop(self) {
        let EntryInit {
            key: _key,
            value: _value,
        } = self;
    }
}
