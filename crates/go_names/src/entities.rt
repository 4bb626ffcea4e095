//! What a name stands for. Go specification, "Declarations and scope".

use go_base::{FuncId, TypeId, VarId};
use go_type::Builtin;

/// What a name stands for.
#[derive(Clone, Copy, PartialEq, Eq)]
pub enum Entity {
    /// A constant, by its number among the constants.
    Constant(u64),
    /// `true` or `false` of the universe.
    Truth(bool),
    TypeName(TypeId),
    Variable(VarId),
    Function(FuncId),
    /// A package, by the index of its import in its file.
    Import(u32),
    Builtin(Builtin),
    /// `iota` of the universe.
    Iota,
    /// `nil` of the universe.
    Nil,
    /// A name whose declaration is broken, or stands on something that is.
    Unsound,
}
