//! Which types' values flow. Go specification, "Interface types" and "Function types".

ghost use Rattle.std.specs.Prelude.{◌≡◌};
ghost use Rattle.cg_nodes.specs.Kinds as kind;

use go_base::TypeId;
use go_type::{TypeTerm, Types};

/// Whether a type is an interface.
pub fn is_interface(types: &Types, of: TypeId) -> bool
    ensures { result ≡ kind.is_interface types.now of }
{
    match types.underlying_term(of) {
        Some(TypeTerm::Interface(_)) => true,
        _ => false,
    }
}

/// Whether a type is a function type.
pub fn is_function(types: &Types, of: TypeId) -> bool
    ensures { result ≡ kind.is_function types.now of }
{
    match types.underlying_term(of) {
        Some(TypeTerm::Func(_)) => true,
        _ => false,
    }
}

/// Whether values of a type flow: those of interfaces and of function types alone do.
pub fn carries(types: &Types, of: TypeId) -> bool
    ensures { result ≡ kind.carries types.now of }
{
    is_interface(types, of) || is_function(types, of)
}
