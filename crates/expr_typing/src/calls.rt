//! Which types calls need. Go specification, "Calls".

ghost use Rattle.std.specs.Prelude.{◌≡◌, option_copied};
ghost use Rattle.std.specs.Cmp.Lexicographic.{pointwise};
ghost use Rattle.std.specs.Option.{option_and_then};
ghost use Rattle.go_type.specs.Table.{term_at};
ghost use Rattle.expr_typing.specs.Telling.{at_tests};
ghost use Rattle.expr_typing.specs.Trees.{seen_callee, value_exprs, has_type};
ghost use Rattle.type_shapes.specs.Shapes.{parts_of};
ghost use Rattle.typed_trees.specs.Around as spec;
ghost use Rattle.typed_trees.specs.Expressions.{seen_values};
ghost use Rattle.typed_trees.specs.Nodes as node;
ghost use Rattle.typed_trees.specs.Tests.{Tests};

use crate::around::{Around, function_type, literal_type, method_type_of};
use crate::nodes::interface_method;
use go_base::TypeId;
use go_tree::{Callee, TypedExpr, Values};
use go_type::{Signature, TypeTerm, Types};
use type_shapes::parts;

/// The signature of a type.
fn signature_at<'a>(around: Around<'a>, of: Option<TypeId>) -> Option<&'a Signature>
    ensures { option_copied result ≡ option_and_then (λ it. spec.signature_in (term_at around.entry.program.now.types it)) of }
{
    match of {
        Some(of) => signature_in(around.program.types.get(of)),
        None => None,
    }
}

fn signature_in(term: Option<&TypeTerm>) -> Option<&Signature>
    ensures { option_copied result ≡ spec.signature_in (option_copied term.entry) }
{
    match term {
        Some(TypeTerm::Func(signature)) => Some(signature),
        _ => None,
    }
}

/// The signature of what is called, without a receiver.
#[tactic(auto, using(crate::proofs::Layers::callee_signatures, crate::proofs::Lists::method_names))]
pub fn callee_signature<'a>(around: Around<'a>, callee: &Callee) -> Option<&'a Signature>
    ensures { (tests : Tests) → option_copied result ≡ (seen_callee (at_tests around.entry tests) callee.now).signature }
{
    match callee {
        Callee::Function(function) => signature_at(around, function_type(around, *function)),
        Callee::Literal(function) => signature_at(around, literal_type(around, *function)),
        Callee::Method { receiver, function } => {
            signature_at(around, method_type_of(around, *function, receiver.of))
        }
        Callee::Interface {
            receiver,
            name,
            package,
        } => signature_at(
            around,
            interface_method(around, *name, *package, receiver.of),
        ),
        Callee::Value(value) => signature_in(around.program.types.underlying_term(value.of)),
    }
}

/// Whether a call of a signature takes arguments and gives a value of a type.
#[tactic(auto, using(crate::proofs::Lists::value_types))]
pub fn fits_call(
    around: Around<'_>,
    signature: Option<&Signature>,
    arguments: &Values,
    of: TypeId,
) -> bool
    ensures { (tests : Tests) → result ≡ node.fits_call_of (at_tests around.entry tests) (option_copied signature.entry) (seen_values (at_tests around.entry tests) arguments.now).types of }
{
    match signature {
        Some(signature) => {
            have_types(exprs_of(arguments), signature.params.as_slice())
                && gives(around, signature.results.as_slice(), of)
        }
        None => false,
    }
}

/// The expressions of the values of a list.
#[tactic(auto, using(crate::proofs::Layers::listed_values))]
pub fn exprs_of(values: &Values) -> &[TypedExpr]
    ensures { result.now ≡ value_exprs values.now }
{
    match values {
        Values::Each(exprs) => exprs.as_slice(),
        Values::Spread { parts, .. } => parts.as_slice(),
    }
}

/// Whether expressions have types, one each.
fn have_types(exprs: &[TypedExpr], types: &[TypeId]) -> bool
    ensures { result ≡ pointwise has_type exprs.now types.now }
{
    if exprs.len() != types.len() {
        return false;
    }
    for (index, expr) in exprs.iter().enumerate() {
        if !has_type(expr, types[index]) {
            return false;
        }
    }
    true
}

fn has_type(expr: &TypedExpr, of: TypeId) -> bool
    ensures { result ≡ has_type expr.now of }
{
    expr.of == of
}

/// Whether results are given as a value of a type: one as itself, none or several as a tuple.
fn gives(around: Around<'_>, results: &[TypeId], of: TypeId) -> bool
    ensures { (tests : Tests) → result ≡ node.gives (at_tests around.entry tests) results.now of }
{
    match results {
        [one] => *one == of,
        _ => is_tuple(&around.program.types, of, results),
    }
}

/// Whether a type is that of several values.
pub fn is_tuple(types: &Types, of: TypeId, results: &[TypeId]) -> bool
    ensures { result ≡ node.is_tuple results.now (parts_of (term_at types.now of)) }
{
    match parts(types, of) {
        Some(parts) => parts == results,
        None => false,
    }
}
