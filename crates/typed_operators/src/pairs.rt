//! Two operands that become ones of one type or kind. Go specification, "Operators" and "Constants".

ghost use Rattle.std.specs.Prelude.{◌≡◌, Some, Ok, option_copied};
ghost use Rattle.std.specs.Option.{option_map};
ghost use Rattle.typed_operators.specs.Pairs.{IsPaired, constants, joined};
ghost use Rattle.typed_parts.specs.Joining.{paired};
ghost use Rattle.typed_parts.specs.Judged.{Comes};
ghost use Rattle.typed_parts.specs.Numbers.{constant_in};

use go_base::NoMemory;
use go_rules::Matched;
use go_tree::{ExprKind, TypedExpr};
use go_type::Const;
use typed_parts::{Ground, both, defaulted, rekinded, retyped};

/// Two operands that became ones of one type, or of one untyped kind.
#[derive(Drop)]
pub struct Pair {
    pub left: TypedExpr,
    pub right: TypedExpr,
}

/// The operands as what they become by `how`. None where a constant does not fit, which is reported.
pub fn paired(
    ground: &mut Ground,
    how: Matched,
    left: TypedExpr,
    right: TypedExpr,
) -> Result<Option<Pair>, NoMemory>
    ensures { Comes ground.old ground.new result (IsPaired ground.old.types how left right) }
{
    let (first, second) = (left.of, right.of);
    match how {
        Matched::Typed => Ok(Some(Pair { left, right })),
        Matched::Untyped(kind) => {
            let left = rekinded(ground, left, kind);
            let right = rekinded(ground, right, kind);
            pair_of(Ok(left), Ok(right))
        }
        Matched::FirstConverted => with_right(retyped(ground, left, second), right),
        Matched::SecondConverted => with_left(left, retyped(ground, right, first)),
        Matched::FirstDefault => with_right(defaulted(ground, left), right),
        Matched::SecondDefault => with_left(left, defaulted(ground, right)),
    }
}

fn with_right(
    left: Result<Option<TypedExpr>, NoMemory>,
    right: TypedExpr,
) -> Result<Option<Pair>, NoMemory>
    ensures { result ≡ paired joined left (Ok (Some right)) }
{
    pair_of(left, Ok(Some(right)))
}

fn with_left(
    left: TypedExpr,
    right: Result<Option<TypedExpr>, NoMemory>,
) -> Result<Option<Pair>, NoMemory>
    ensures { result ≡ paired joined (Ok (Some left)) right }
{
    pair_of(Ok(Some(left)), right)
}

/// Two operands, where both came and are sound.
pub fn pair_of(
    left: Result<Option<TypedExpr>, NoMemory>,
    right: Result<Option<TypedExpr>, NoMemory>,
) -> Result<Option<Pair>, NoMemory>
    ensures { result ≡ paired joined left right }
{
    match both(left, right)? {
        Some((left, right)) => Ok(Some(Pair { left, right })),
        None => Ok(None),
    }
}

impl Pair {
    /// The values of the two, where both are constants.
    pub fn constants(&self) -> Option<(&Const, &Const)>
        ensures { option_map (λ pair. (pair.0.now, pair.1.now)) result ≡ constants self.now }
    {
        let left = constant_of(&self.left)?;
        let right = constant_of(&self.right)?;
        Some((left, right))
    }
}

fn constant_of(expr: &TypedExpr) -> Option<&Const>
    ensures { option_copied result ≡ constant_in expr.now.kind }
{
    match &expr.kind {
        ExprKind::ConstOf(value) => Some(value),
        _ => None,
    }
}
