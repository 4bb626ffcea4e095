//! What is seen of expressions and of the values of lists.

ghost use Rattle.std.specs.Prelude.{◌≡◌, IfOk, map};
ghost use Rattle.expr_typing.specs.Telling.{at_tests};
ghost use Rattle.typed_trees.specs.Expressions.{seen, seen_values};
ghost use Rattle.typed_trees.specs.Tests.{Tests, AreTold};

use crate::around::Around;
use crate::calls::exprs_of;
use crate::expressions::{fits, fits_part_of, fits_values};
use crate::forms::form_of;
use go_base::{NoMemory, TypeId};
use go_tree::{TypedExpr, Values};
use std::alloc::Global;
use typed_trees::Form;

/// What is seen of an expression: its type, what it is, and whether the types in it fit.
#[derive(Clone, Copy)]
pub struct Seen {
    pub of: TypeId,
    pub form: Form,
    pub fits: bool,
}

/// The types of the values of a list, and whether the types in them fit.
#[derive(Drop)]
pub struct SeenValues {
    pub types: Vec<TypeId>,
    pub fits: bool,
}

/// What is seen of an expression. Go specification, "Expressions".
#[tactic(auto, using(crate::proofs::Layers::of_is))]
pub fn see(around: Around<'_>, expr: &TypedExpr) -> Result<Seen, NoMemory>
    ensures of { (tests : Tests) → AreTold around.entry.program.now.types tests → IfOk result (λ s. s.of ≡ (seen (at_tests around.entry tests) expr.now).of) }
    ensures form { (tests : Tests) → AreTold around.entry.program.now.types tests → IfOk result (λ s. s.form ≡ (seen (at_tests around.entry tests) expr.now).form) }
    ensures fits { (tests : Tests) → AreTold around.entry.program.now.types tests → IfOk result (λ s. s.fits ≡ (seen (at_tests around.entry tests) expr.now).fits) }
{
    let fits = fits(around, expr)?;
    Ok(Seen {
        of: expr.of,
        form: form_of(expr),
        fits,
    })
}

/// Whether the types in an expression fit where it is made of the parts of several values of types. Go specification,
/// "Assignment statements".
pub fn fits_part(around: Around<'_>, expr: &TypedExpr, types: &[TypeId]) -> Result<bool, NoMemory>
    ensures { (tests : Tests) → AreTold around.entry.program.now.types tests → IfOk result (λ r. r ≡ (seen (at_tests around.entry tests) expr.now).fits_part types.now) }
{
    let fits = fits_part_of(around, expr, types)?;
    Ok(fits)
}

/// What is seen of the values of a list. Go specification, "Assignment statements" and "Calls".
#[tactic(auto, using(crate::proofs::Lists::value_types))]
pub fn see_values(around: Around<'_>, values: &Values) -> Result<SeenValues, NoMemory>
    ensures types { (tests : Tests) → AreTold around.entry.program.now.types tests → IfOk result (λ s. s.types.items ≡ (seen_values (at_tests around.entry tests) values.now).types) }
    ensures fits { (tests : Tests) → AreTold around.entry.program.now.types tests → IfOk result (λ s. s.fits ≡ (seen_values (at_tests around.entry tests) values.now).fits) }
{
    let fits = fits_values(around, values)?;
    let types = types_of(around.alloc, exprs_of(values))?;
    Ok(SeenValues { types, fits })
}

/// The types of expressions.
fn types_of(alloc: Global, exprs: &[TypedExpr]) -> Result<Vec<TypeId>, NoMemory>
    ensures { IfOk result (λ types. types.items ≡ map (λ x. x.of) exprs.now) }
{
    let mut types = Vec::new(alloc);
    for expr in exprs {
        types.push(expr.of)?;
    }
    Ok(types)
}
