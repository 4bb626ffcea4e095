//! What parts of an expression mean, and what is asked of every part. Go specification, "Operands", "Calls" and "Address
//! operators".

ghost use Rattle.std.specs.Prelude.{◌≡◌, is_some};
ghost use Rattle.typed_parts.specs.Judged.{reported};
ghost use Rattle.typed_parts.specs.Looks.{is_place};
ghost use Rattle.typed_parts.specs.Meanings.{is_constant, is_tuple, one_value, parenthesized, placed, single, type_in, type_meaning, type_of, value_meaning, value_of};

use crate::ground::Ground;
use crate::joining::asked;
use go_base::{Pos, Rule, TypeId};
use go_rules::untyped_kind;
use go_tree::{ExprKind, IndexBase, TypedExpr};
use go_type::{Builtin, TypeTerm, Types};

/// What a written expression stands for, before anything is asked of it.
#[derive(Drop)]
pub enum Meaning {
    /// A value, or several as a call gives them, whose type is then a tuple.
    Value(TypedExpr),
    Type(TypeId),
    Builtin(Builtin),
}

/// What was seen of a written expression.
#[derive(Drop)]
pub struct Seen {
    /// Its first byte as written, with parentheses.
    pub at: Pos,
    /// None where it is unsound.
    pub meaning: Option<Meaning>,
}

/// A value, and the first byte of its expression as written.
#[derive(Drop)]
pub struct Given {
    pub at: Pos,
    pub expr: TypedExpr,
}

impl Seen {
    /// A value, where it is sound.
    pub fn value(at: Pos, expr: Option<TypedExpr>) -> Seen
        ensures { result ≡ record { at = at; meaning = value_meaning expr } }
    {
        match expr {
            Some(expr) => Seen {
                at,
                meaning: Some(Meaning::Value(expr)),
            },
            None => Seen { at, meaning: None },
        }
    }

    /// A type, where it is sound.
    pub fn of_type(at: Pos, of: Option<TypeId>) -> Seen
        ensures { result ≡ record { at = at; meaning = type_meaning of } }
    {
        match of {
            Some(of) => Seen {
                at,
                meaning: Some(Meaning::Type(of)),
            },
            None => Seen { at, meaning: None },
        }
    }

    /// Whether it is a constant.
    pub fn is_constant(&self) -> bool
        ensures { result ≡ is_constant self.now.meaning }
    {
        match &self.meaning {
            Some(Meaning::Value(expr)) => matches!(&expr.kind, ExprKind::ConstOf(_)),
            _ => false,
        }
    }
}

/// The value or values that a part stands for. `WrongKindOfName` at a type, and `BadBuiltInCall` at a built-in function.
pub fn value_of(ground: &mut Ground, part: Seen) -> Option<Given>
    ensures answer { result ≡ (value_of part).sound }
    ensures broken { ground.new ≡ reported ground.old (value_of part).broken }
{
    let Seen { at, meaning } = part;
    match meaning? {
        Meaning::Value(expr) => Some(Given { at, expr }),
        Meaning::Type(_) => {
            ground.report(at, Rule::WrongKindOfName);
            None
        }
        Meaning::Builtin(_) => {
            ground.report(at, Rule::BadBuiltInCall);
            None
        }
    }
}

/// The one value that a part stands for: as `value_of`, and `WrongNumberOfValues` at a call of none or several.
pub fn one_value(ground: &mut Ground, part: Seen) -> Option<Given>
    ensures answer { result ≡ (one_value ground.old.types part).sound }
    ensures broken { ground.new ≡ reported ground.old (one_value ground.old.types part).broken }
{
    let given = value_of(ground, part)?;
    single(ground, given)
}

/// A value that is one.
pub fn single(ground: &mut Ground, given: Given) -> Option<Given>
    ensures answer { result ≡ (single ground.old.types given).sound }
    ensures broken { ground.new ≡ reported ground.old (single ground.old.types given).broken }
{
    let is_one = !is_tuple(&ground.types, given.expr.of);
    asked(ground, given, is_one, Rule::WrongNumberOfValues)
}

/// Whether a type is that of several values, or of none.
pub fn is_tuple(types: &Types, of: TypeId) -> bool
    ensures { result ≡ is_tuple types.now of }
{
    matches!(types.get(of), Some(TypeTerm::Tuple(_)))
}

/// The type that a part stands for. `WrongKindOfName` at a value and at a built-in function.
pub fn type_of(ground: &mut Ground, part: Seen) -> Option<TypeId>
    ensures answer { result ≡ (type_of part).sound }
    ensures broken { ground.new ≡ reported ground.old (type_of part).broken }
{
    let of = seen_type(&part);
    if of.is_none() && part.meaning.is_some() {
        ground.report(part.at, Rule::WrongKindOfName);
    }
    drop(part);
    of
}

/// The type that a part stands for, where it is one.
pub fn seen_type(part: &Seen) -> Option<TypeId>
    ensures { result ≡ type_in part.now.meaning }
{
    match &part.meaning {
        Some(Meaning::Type(of)) => Some(*of),
        _ => None,
    }
}

/// What stands in parentheses, whose first is at the place. Go specification, "Operands".
pub fn parenthesized(types: &Types, at: Pos, inside: Seen) -> Seen
    ensures { result ≡ parenthesized types.now at inside }
{
    let meaning = match inside.meaning {
        Some(Meaning::Value(expr)) => Some(Meaning::Value(placed(types, at, expr))),
        other => other,
    };
    Seen { at, meaning }
}

/// An untyped operand has its place as written.
fn placed(types: &Types, at: Pos, expr: TypedExpr) -> TypedExpr
    ensures { result ≡ placed types.now at expr }
{
    if untyped_kind(types, expr.of).is_none() {
        return expr;
    }
    let (_at, of, kind) = expr.into_parts();
    TypedExpr { at, of, kind }
}

/// Whether an expression is a place: a variable, a dereference, an element of a slice, or a field or an element of an array
/// that is a place.
#[tactic(auto, using(crate::proofs::Forms::expr_is, crate::proofs::Forms::kind_forms))]
pub fn is_place(expr: &TypedExpr) -> bool
    ensures { result ≡ is_place expr.now }
{
    match &expr.kind {
        ExprKind::VarOf(_) | ExprKind::Deref(_) => true,
        ExprKind::FieldOf { operand, .. } => is_place(operand),
        ExprKind::IndexOf { base, operand, .. } => match base {
            IndexBase::Slice => true,
            IndexBase::Array => is_place(operand),
            IndexBase::Text => false,
        },
        ExprKind::ConstOf(_)
        | ExprKind::NilOf
        | ExprKind::FunctionOf(_)
        | ExprKind::LiteralOf(_)
        | ExprKind::MethodValue { .. }
        | ExprKind::MethodExpr { .. }
        | ExprKind::MapIndex { .. }
        | ExprKind::SliceOf { .. }
        | ExprKind::AddressOf(_)
        | ExprKind::UnaryOf { .. }
        | ExprKind::BinaryOf { .. }
        | ExprKind::CompareOf { .. }
        | ExprKind::AndAlso { .. }
        | ExprKind::OrElse { .. }
        | ExprKind::Receive { .. }
        | ExprKind::CallOf { .. }
        | ExprKind::BuiltinOf { .. }
        | ExprKind::ConvertTo(_)
        | ExprKind::ToInterface(_)
        | ExprKind::AssertTo { .. }
        | ExprKind::CompositeOf(_)
        | ExprKind::PartOf(_) => false,
    }
}
