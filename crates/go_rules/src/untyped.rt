//! Untyped operands. Go specification, "Constants", "Representability" and "Constant expressions".

ghost use Rattle.std.specs.Prelude.{◌≡◌};
ghost use Rattle.go_rules.specs.Untyped.{basic_of, default_of, fits_type, is_bool_type, is_text_type, joined, kind_at, kind_of_basic};
ghost use Rattle.go_type.specs.Table.{basic_id};
ghost use Rattle.std.specs.Option.{option_map};

use crate::operands::is_nillable;
use go_base::TypeId;
use go_type::{Basic, TypeTerm, Types, basic, int_kind};

/// The kinds of untyped operands: `nil`, constants, and what is made of such.
#[derive(Clone, Copy, PartialEq, Eq)]
pub enum Untyped {
    Nil,
    Bool,
    Int,
    Rune,
    Text,
}

/// The kind of an operand whose type is one of the untyped ones. None for any other.
pub fn untyped_kind(types: &Types, of: TypeId) -> Option<Untyped>
    ensures { result ≡ kind_at types.now of }
{
    match types.get(of) {
        Some(TypeTerm::Basic(basic)) => kind_of_basic(*basic),
        _ => None,
    }
}

fn kind_of_basic(basic: Basic) -> Option<Untyped>
    ensures { result ≡ kind_of_basic basic }
{
    match basic {
        Basic::UntypedNil => Some(Untyped::Nil),
        Basic::UntypedBool => Some(Untyped::Bool),
        Basic::UntypedInt => Some(Untyped::Int),
        Basic::UntypedRune => Some(Untyped::Rune),
        Basic::UntypedText => Some(Untyped::Text),
        _ => None,
    }
}

impl Untyped {
    const fn basic(self) -> Basic
        ensures { result ≡ basic_of self }
    {
        match self {
            Untyped::Nil => Basic::UntypedNil,
            Untyped::Bool => Basic::UntypedBool,
            Untyped::Int => Basic::UntypedInt,
            Untyped::Rune => Basic::UntypedRune,
            Untyped::Text => Basic::UntypedText,
        }
    }

    /// The untyped type that operands of the kind have.
    pub const fn type_id(self) -> TypeId
        ensures { result ≡ basic_id (basic_of self) }
    {
        basic(self.basic())
    }

    /// The default type, which an operand takes where the context gives it no other. `nil` has none.
    pub const fn default_type(self) -> Option<TypeId>
        ensures { result ≡ option_map basic_id (default_of self) }
    {
        match self {
            Untyped::Nil => None,
            Untyped::Bool => Some(basic(Basic::Bool)),
            Untyped::Int => Some(basic(Basic::Int)),
            Untyped::Rune => Some(basic(Basic::Int32)),
            Untyped::Text => Some(basic(Basic::Text)),
        }
    }

    /// The kind of an operation on untyped operands of two kinds. None where there is no such operation.
    pub const fn joined(self, other: Untyped) -> Option<Untyped>
        ensures { result ≡ joined self other }
    {
        match (self, other) {
            (Untyped::Bool, Untyped::Bool) => Some(Untyped::Bool),
            (Untyped::Int, Untyped::Int) => Some(Untyped::Int),
            (Untyped::Int, Untyped::Rune) => Some(Untyped::Rune),
            (Untyped::Rune, Untyped::Int) => Some(Untyped::Rune),
            (Untyped::Rune, Untyped::Rune) => Some(Untyped::Rune),
            (Untyped::Text, Untyped::Text) => Some(Untyped::Text),
            _ => None,
        }
    }
}

/// Whether an untyped operand of a kind may take a type: `nil` one that has it, a boolean a boolean type, an integer or
/// a rune an integer type, and a text a string type. Whether its value is in that type is another question.
pub fn kind_fits(types: &Types, kind: Untyped, to: TypeId) -> bool
    ensures { result ≡ fits_type types.now kind to }
{
    match kind {
        Untyped::Nil => is_nillable(types, to),
        Untyped::Bool => is_bool_type(types, to),
        Untyped::Int => int_kind(types, to).is_some(),
        Untyped::Rune => int_kind(types, to).is_some(),
        Untyped::Text => is_text_type(types, to),
    }
}

fn is_bool_type(types: &Types, of: TypeId) -> bool
    ensures { result ≡ is_bool_type types.now of }
{
    matches!(
        types.underlying_term(of),
        Some(TypeTerm::Basic(Basic::Bool))
    )
}

fn is_text_type(types: &Types, of: TypeId) -> bool
    ensures { result ≡ is_text_type types.now of }
{
    matches!(
        types.underlying_term(of),
        Some(TypeTerm::Basic(Basic::Text))
    )
}
