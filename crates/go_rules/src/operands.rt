//! Which operands an operator takes. Go specification, "Operators", "Arithmetic operators", "Logical operators" and
//! "Comparison operators".

ghost use Rattle.std.specs.Prelude.{◌≡◌, ◌↔◌, IsTrue};
ghost use Rattle.go_rules.specs.Operands.{class_at, class_of_basic, is_integer, is_truth, is_nillable, ordered, takes, TakesComparison};

use go_base::TypeId;
use go_type::{Basic, CompareOp, ConstOp, TypeTerm, Types, comparable};

/// What the values of a basic type are, untyped ones too.
#[derive(Clone, Copy, PartialEq, Eq)]
enum Class {
    Truth,
    Integer,
    Text,
}

fn class_at(types: &Types, of: TypeId) -> Option<Class>
    ensures { result ≡ class_at types.now of }
{
    match types.underlying_term(of) {
        Some(TypeTerm::Basic(basic)) => class_of_basic(*basic),
        _ => None,
    }
}

fn class_of_basic(basic: Basic) -> Option<Class>
    ensures { result ≡ class_of_basic basic }
{
    match basic {
        Basic::Bool | Basic::UntypedBool => Some(Class::Truth),
        Basic::Text | Basic::UntypedText => Some(Class::Text),
        Basic::UntypedNil => None,
        _ => Some(Class::Integer),
    }
}

/// Whether an arithmetic operator takes operands of a type: integers, and `+` strings too.
pub fn takes_arithmetic(types: &Types, op: ConstOp, of: TypeId) -> bool
    ensures { result ≡ takes op (class_at types.now of) }
{
    match class_at(types, of) {
        Some(Class::Integer) => true,
        Some(Class::Text) => matches!(op, ConstOp::Add),
        _ => false,
    }
}

/// Whether the signs `+`, `-` and `^` take operands of a type: integers.
pub fn takes_sign(types: &Types, of: TypeId) -> bool
    ensures { result ≡ is_integer types.now of }
{
    matches!(class_at(types, of), Some(Class::Integer))
}

/// Whether a shift takes operands of a type, on either side: integers.
pub fn takes_shift(types: &Types, of: TypeId) -> bool
    ensures { result ≡ is_integer types.now of }
{
    matches!(class_at(types, of), Some(Class::Integer))
}

/// Whether `!`, `&&` and `||` take operands of a type: booleans.
pub fn takes_logic(types: &Types, of: TypeId) -> bool
    ensures { result ≡ is_truth types.now of }
{
    matches!(class_at(types, of), Some(Class::Truth))
}

/// Whether `<`, `<=`, `>` and `>=` compare values of a type: integers and strings.
pub fn is_ordered(types: &Types, of: TypeId) -> bool
    ensures { result ≡ ordered (class_at types.now of) }
{
    matches!(
        class_at(types, of),
        Some(Class::Integer) | Some(Class::Text)
    )
}

/// Whether a comparison compares values of a type.
#[tactic(auto, using(crate::proofs::Tests::same_test))]
pub fn takes_comparison(types: &Types, op: CompareOp, of: TypeId) -> bool
    ensures { IsTrue result ↔ TakesComparison types.now op of }
{
    match op {
        CompareOp::Equal => comparable(types, of),
        CompareOp::NotEqual => comparable(types, of),
        CompareOp::Less => is_ordered(types, of),
        CompareOp::LessEqual => is_ordered(types, of),
        CompareOp::Greater => is_ordered(types, of),
        CompareOp::GreaterEqual => is_ordered(types, of),
    }
}

/// Whether `nil` is a value of a type: of pointers, functions, slices, maps, channels and interfaces.
pub fn is_nillable(types: &Types, of: TypeId) -> bool
    ensures { result ≡ is_nillable types.now of }
{
    matches!(
        types.underlying_term(of),
        Some(
            TypeTerm::Pointer(_)
                | TypeTerm::Func(_)
                | TypeTerm::Slice(_)
                | TypeTerm::Map { .. }
                | TypeTerm::Chan { .. }
                | TypeTerm::Interface(_)
        )
    )
}
