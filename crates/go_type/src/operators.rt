//! The operators and the built-in functions. Go specification, "Operators" and "Built-in functions".

ghost use Rattle.std.specs.Prelude.{◌≡◌};
ghost use Rattle.go_type.specs.Operators.{int_op_of, shift_of, text_of};

use crate::constants::ConstOp;

/// The operators on one operand. `+a` is `a`.
#[derive(Clone, Copy, PartialEq, Eq)]
pub enum UnaryOp {
    /// `-`
    Negate,
    /// `^`
    Complement,
    /// `!`
    Not,
}

/// The operators on two operands whose result has the type of the left one.
#[derive(Clone, Copy, PartialEq, Eq)]
pub enum BinaryOp {
    Add,
    Sub,
    Mul,
    Div,
    Rem,
    And,
    Or,
    Xor,
    AndNot,
    ShiftLeft,
    ShiftRight,
}

/// The comparisons.
#[derive(Clone, Copy, PartialEq, Eq)]
pub enum CompareOp {
    Equal,
    NotEqual,
    Less,
    LessEqual,
    Greater,
    GreaterEqual,
}

/// The built-in functions.
#[derive(Clone, Copy, PartialEq, Eq)]
pub enum Builtin {
    Append,
    Cap,
    Clear,
    Close,
    Copy,
    Delete,
    Len,
    Make,
    Max,
    Min,
    New,
    Panic,
    Print,
    Println,
    Recover,
}

impl BinaryOp {
    /// The operator on integers of one type that it is. None for a shift.
    pub fn int_op(self) -> Option<ConstOp>
        ensures { result ≡ int_op_of self }
    {
        match self {
            BinaryOp::Add => Some(ConstOp::Add),
            BinaryOp::Sub => Some(ConstOp::Sub),
            BinaryOp::Mul => Some(ConstOp::Mul),
            BinaryOp::Div => Some(ConstOp::Div),
            BinaryOp::Rem => Some(ConstOp::Rem),
            BinaryOp::And => Some(ConstOp::And),
            BinaryOp::Or => Some(ConstOp::Or),
            BinaryOp::Xor => Some(ConstOp::Xor),
            BinaryOp::AndNot => Some(ConstOp::AndNot),
            BinaryOp::ShiftLeft | BinaryOp::ShiftRight => None,
        }
    }

    /// Whether a shift is one to the left. None where it is no shift.
    pub fn shift(self) -> Option<bool>
        ensures { result ≡ shift_of self }
    {
        match self {
            BinaryOp::ShiftLeft => Some(true),
            BinaryOp::ShiftRight => Some(false),
            _ => None,
        }
    }
}

impl Builtin {
    /// Its name.
    pub fn text(self) -> &'static str
        ensures { result.now ≡ text_of self }
    {
        match self {
            Builtin::Append => "append",
            Builtin::Cap => "cap",
            Builtin::Clear => "clear",
            Builtin::Close => "close",
            Builtin::Copy => "copy",
            Builtin::Delete => "delete",
            Builtin::Len => "len",
            Builtin::Make => "make",
            Builtin::Max => "max",
            Builtin::Min => "min",
            Builtin::New => "new",
            Builtin::Panic => "panic",
            Builtin::Print => "print",
            Builtin::Println => "println",
            Builtin::Recover => "recover",
        }
    }
}
