//! Which types the built-in functions need. Go specification, "Built-in functions".

ghost use Rattle.std.specs.Prelude.{◌≡◌, ◌&&◌, [], length, map, false};
ghost use Rattle.std.specs.List.{list_all};
ghost use Rattle.go_type.specs.Assignable.{underlying_term_of};
ghost use Rattle.go_type.specs.Same.{same_id};
ghost use Rattle.go_type.specs.Table.{term_at};
ghost use Rattle.expr_typing.specs.Parts.{is_integer_type, is_printed_type};
ghost use Rattle.expr_typing.specs.Telling.{at_tests};
ghost use Rattle.expr_typing.specs.Trees.{typed_as};
ghost use Rattle.typed_trees.specs.Around.{has_integers};
ghost use Rattle.typed_trees.specs.BuiltIns as built_in;
ghost use Rattle.type_shapes.specs.Shapes.{parts_of};
ghost use Rattle.typed_trees.specs.Nodes.{is_tuple};
ghost use Rattle.typed_trees.specs.Tests.{Tests};

use crate::around::Around;
use crate::calls::is_tuple;
use crate::nodes::{has_integers, is_ordered};
use go_base::TypeId;
use go_tree::TypedExpr;
use go_type::{Basic, Builtin, TypeTerm, Types};
use type_shapes::{is_any, is_byte, is_plain, is_pointer_to, is_truth, may_send};

/// Whether a call of a built-in function has arguments and a result of the types that it needs.
pub fn fits_built_in(
    around: Around<'_>,
    builtin: Builtin,
    form: Option<TypeId>,
    spread: bool,
    arguments: &[TypedExpr],
    of: TypeId,
) -> bool
    ensures { (tests : Tests) → result ≡ built_in.fits_built_in (at_tests around.entry tests) builtin form spread (map typed_as arguments.now) of }
{
    match builtin {
        Builtin::Make => !spread && makes(around, form, arguments, of),
        Builtin::New => !spread && arguments.is_empty() && allocates(around, form, of),
        _ => form.is_none() & takes(around, builtin, spread, arguments, of),
    }
}

fn makes(around: Around<'_>, form: Option<TypeId>, sizes: &[TypedExpr], of: TypeId) -> bool
    ensures { (tests : Tests) → result ≡ built_in.makes (at_tests around.entry tests) form (map typed_as sizes.now) of }
{
    match form {
        Some(form) => (form == of) & are_sizes(around, sizes, of),
        None => false,
    }
}

/// A slice takes a length and a capacity, a map or a channel one size.
fn are_sizes(around: Around<'_>, sizes: &[TypedExpr], of: TypeId) -> bool
    ensures { (tests : Tests) → result ≡ (built_in.takes_sizes (at_tests around.entry tests) (underlying_term_of around.entry.program.now.types of) (length (map typed_as sizes.now)) && list_all (λ it. has_integers (at_tests around.entry tests) it.of) (map typed_as sizes.now)) }
{
    takes_sizes(around, of, sizes.len()) & have_integers(around, sizes)
}

fn takes_sizes(around: Around<'_>, of: TypeId, count: usize) -> bool
    ensures { (tests : Tests) → result ≡ built_in.takes_sizes (at_tests around.entry tests) (underlying_term_of around.entry.program.now.types of) count }
{
    match around.program.types.underlying_term(of) {
        Some(TypeTerm::Slice(_)) => count == 1 || count == 2,
        Some(TypeTerm::Map { .. } | TypeTerm::Chan { .. }) => count == 0 || count == 1,
        _ => false,
    }
}

fn have_integers(around: Around<'_>, exprs: &[TypedExpr]) -> bool
    ensures { result ≡ list_all (λ x. is_integer_type around.entry.program.now.types x.of) exprs.now }
{
    for expr in exprs {
        if !has_integers(around, expr.of) {
            return false;
        }
    }
    true
}

fn allocates(around: Around<'_>, form: Option<TypeId>, of: TypeId) -> bool
    ensures { (tests : Tests) → result ≡ built_in.allocates (at_tests around.entry tests) form of }
{
    match form {
        Some(base) => is_pointer_to(&around.program.types, of, base),
        None => false,
    }
}

/// The arguments of a built-in function that is given no type.
fn takes(
    around: Around<'_>,
    builtin: Builtin,
    spread: bool,
    arguments: &[TypedExpr],
    of: TypeId,
) -> bool
    ensures { (tests : Tests) → result ≡ built_in.takes (at_tests around.entry tests) builtin spread (map typed_as arguments.now) of }
{
    match builtin {
        Builtin::Append => takes_append(around, spread, arguments, of),
        Builtin::Make | Builtin::New => false,
        _ => !spread && takes_each(around, builtin, arguments, of),
    }
}

fn takes_append(around: Around<'_>, spread: bool, arguments: &[TypedExpr], of: TypeId) -> bool
    ensures { (tests : Tests) → result ≡ built_in.takes (at_tests around.entry tests) Builtin.Append spread (map typed_as arguments.now) of }
{
    match arguments {
        [slice, items @ ..] => slice.of == of && appends_to(around, spread, items, of),
        [] => false,
    }
}

/// The arguments of one that is given no list.
fn takes_each(around: Around<'_>, builtin: Builtin, arguments: &[TypedExpr], of: TypeId) -> bool
    ensures { (tests : Tests) → result ≡ built_in.takes (at_tests around.entry tests) builtin false (map typed_as arguments.now) of }
{
    match builtin {
        Builtin::Append => takes_append(around, false, arguments, of),
        Builtin::Cap => takes_cap(around, arguments, of),
        Builtin::Clear => takes_clear(around, arguments, of),
        Builtin::Close => takes_close(around, arguments, of),
        Builtin::Copy => takes_copy(around, arguments, of),
        Builtin::Delete => takes_delete(around, arguments, of),
        Builtin::Len => takes_len(around, arguments, of),
        Builtin::Max => takes_max(around, arguments, of),
        Builtin::Min => takes_max(around, arguments, of),
        Builtin::Panic => takes_panic(around, arguments, of),
        Builtin::Print => takes_printed(around, arguments, of),
        Builtin::Println => takes_printed(around, arguments, of),
        Builtin::Recover => arguments.is_empty() && is_any(&around.program.types, of),
        Builtin::Make | Builtin::New => false,
    }
}

fn takes_cap(around: Around<'_>, arguments: &[TypedExpr], of: TypeId) -> bool
    ensures { (tests : Tests) → result ≡ built_in.takes (at_tests around.entry tests) Builtin.Cap false (map typed_as arguments.now) of }
{
    match arguments {
        [one] => has_capacity(around, one.of) & is_plain(of, Basic::Int),
        _ => false,
    }
}

fn takes_len(around: Around<'_>, arguments: &[TypedExpr], of: TypeId) -> bool
    ensures { (tests : Tests) → result ≡ built_in.takes (at_tests around.entry tests) Builtin.Len false (map typed_as arguments.now) of }
{
    match arguments {
        [one] => has_length(around, one.of) & is_plain(of, Basic::Int),
        _ => false,
    }
}

fn takes_clear(around: Around<'_>, arguments: &[TypedExpr], of: TypeId) -> bool
    ensures { (tests : Tests) → result ≡ built_in.takes (at_tests around.entry tests) Builtin.Clear false (map typed_as arguments.now) of }
{
    match arguments {
        [one] => is_cleared(around, one.of) & gives_nothing(&around.program.types, of),
        _ => false,
    }
}

fn takes_close(around: Around<'_>, arguments: &[TypedExpr], of: TypeId) -> bool
    ensures { (tests : Tests) → result ≡ built_in.takes (at_tests around.entry tests) Builtin.Close false (map typed_as arguments.now) of }
{
    match arguments {
        [one] => is_closed(around, one.of) & gives_nothing(&around.program.types, of),
        _ => false,
    }
}

fn takes_copy(around: Around<'_>, arguments: &[TypedExpr], of: TypeId) -> bool
    ensures { (tests : Tests) → result ≡ built_in.takes (at_tests around.entry tests) Builtin.Copy false (map typed_as arguments.now) of }
{
    match arguments {
        [to, from] => copies(around, to.of, from.of) & is_plain(of, Basic::Int),
        _ => false,
    }
}

fn takes_delete(around: Around<'_>, arguments: &[TypedExpr], of: TypeId) -> bool
    ensures { (tests : Tests) → result ≡ built_in.takes (at_tests around.entry tests) Builtin.Delete false (map typed_as arguments.now) of }
{
    match arguments {
        [table, key] => deletes(around, table.of, key.of)
            & gives_nothing(&around.program.types, of),
        _ => false,
    }
}

fn takes_panic(around: Around<'_>, arguments: &[TypedExpr], of: TypeId) -> bool
    ensures { (tests : Tests) → result ≡ built_in.takes (at_tests around.entry tests) Builtin.Panic false (map typed_as arguments.now) of }
{
    match arguments {
        [one] => is_any(&around.program.types, one.of) & gives_nothing(&around.program.types, of),
        _ => false,
    }
}

/// Those of `max` and `min`, which are asked the same.
fn takes_max(around: Around<'_>, arguments: &[TypedExpr], of: TypeId) -> bool
    ensures max { (tests : Tests) → result ≡ built_in.takes (at_tests around.entry tests) Builtin.Max false (map typed_as arguments.now) of }
    ensures min { (tests : Tests) → result ≡ built_in.takes (at_tests around.entry tests) Builtin.Min false (map typed_as arguments.now) of }
{
    let fits = is_ordered(around, of) & are_of(arguments, of);
    match arguments {
        [_, ..] => fits,
        [] => false,
    }
}

/// Those of `print` and `println`, which are asked the same.
fn takes_printed(around: Around<'_>, arguments: &[TypedExpr], of: TypeId) -> bool
    ensures print { (tests : Tests) → result ≡ built_in.takes (at_tests around.entry tests) Builtin.Print false (map typed_as arguments.now) of }
    ensures println { (tests : Tests) → result ≡ built_in.takes (at_tests around.entry tests) Builtin.Println false (map typed_as arguments.now) of }
{
    are_printed(around, arguments) & gives_nothing(&around.program.types, of)
}

/// Items that are appended to a slice, or one operand that stands for its elements.
fn appends_to(around: Around<'_>, spread: bool, items: &[TypedExpr], of: TypeId) -> bool
    ensures { (tests : Tests) → result ≡ built_in.appends_to (at_tests around.entry tests) (underlying_term_of around.entry.program.now.types of) spread (map typed_as items.now) }
{
    match around.program.types.underlying_term(of) {
        Some(TypeTerm::Slice(elem)) => appends(around, *elem, spread, items),
        _ => false,
    }
}

#[tactic(auto, using(crate::proofs::Lists::argument_rules))]
fn appends(around: Around<'_>, elem: TypeId, spread: bool, items: &[TypedExpr]) -> bool
    ensures { (tests : Tests) → result ≡ built_in.appends_to (at_tests around.entry tests) (Some (TypeTerm.Slice elem)) spread (map typed_as items.now) }
{
    if spread {
        appends_all(around, elem, items)
    } else {
        are_of(items, elem)
    }
}

fn appends_all(around: Around<'_>, elem: TypeId, items: &[TypedExpr]) -> bool
    ensures { (tests : Tests) → result ≡ built_in.appends_all (at_tests around.entry tests) elem (map typed_as items.now) }
{
    match items {
        [more] => is_run_of(around, more.of, elem),
        _ => false,
    }
}

/// Whether a type is one of slices of elements, or of strings where these are bytes.
fn is_run_of(around: Around<'_>, of: TypeId, elem: TypeId) -> bool
    ensures { (tests : Tests) → result ≡ built_in.is_run_of (at_tests around.entry tests) (underlying_term_of around.entry.program.now.types of) elem }
{
    match around.program.types.underlying_term(of) {
        Some(TypeTerm::Slice(other)) => *other == elem,
        Some(TypeTerm::Basic(Basic::Text)) => is_byte(&around.program.types, elem),
        _ => false,
    }
}

fn are_of(exprs: &[TypedExpr], of: TypeId) -> bool
    ensures { result ≡ list_all (λ x. same_id x.of of) exprs.now }
{
    for expr in exprs {
        if expr.of != of {
            return false;
        }
    }
    true
}

fn copies(around: Around<'_>, to: TypeId, from: TypeId) -> bool
    ensures { (tests : Tests) → result ≡ built_in.copies (at_tests around.entry tests) (underlying_term_of around.entry.program.now.types to) from }
{
    match around.program.types.underlying_term(to) {
        Some(TypeTerm::Slice(elem)) => is_run_of(around, from, *elem),
        _ => false,
    }
}

fn has_capacity(around: Around<'_>, of: TypeId) -> bool
    ensures { (tests : Tests) → result ≡ built_in.has_capacity (at_tests around.entry tests) (underlying_term_of around.entry.program.now.types of) }
{
    match around.program.types.underlying_term(of) {
        Some(TypeTerm::Array { .. } | TypeTerm::Slice(_) | TypeTerm::Chan { .. }) => true,
        Some(TypeTerm::Pointer(base)) => is_array(around, *base),
        _ => false,
    }
}

fn is_array(around: Around<'_>, of: TypeId) -> bool
    ensures { (tests : Tests) → result ≡ built_in.is_array (at_tests around.entry tests) (underlying_term_of around.entry.program.now.types of) }
{
    matches!(
        around.program.types.underlying_term(of),
        Some(TypeTerm::Array { .. })
    )
}

fn has_length(around: Around<'_>, of: TypeId) -> bool
    ensures { (tests : Tests) → result ≡ built_in.has_length (at_tests around.entry tests) (underlying_term_of around.entry.program.now.types of) }
{
    match around.program.types.underlying_term(of) {
        Some(TypeTerm::Basic(Basic::Text) | TypeTerm::Map { .. }) => true,
        Some(TypeTerm::Array { .. } | TypeTerm::Slice(_) | TypeTerm::Chan { .. }) => true,
        Some(TypeTerm::Pointer(base)) => is_array(around, *base),
        _ => false,
    }
}

fn is_cleared(around: Around<'_>, of: TypeId) -> bool
    ensures { (tests : Tests) → result ≡ built_in.is_cleared (at_tests around.entry tests) (underlying_term_of around.entry.program.now.types of) }
{
    matches!(
        around.program.types.underlying_term(of),
        Some(TypeTerm::Map { .. } | TypeTerm::Slice(_))
    )
}

fn is_closed(around: Around<'_>, of: TypeId) -> bool
    ensures { (tests : Tests) → result ≡ built_in.is_closed (at_tests around.entry tests) (underlying_term_of around.entry.program.now.types of) }
{
    match around.program.types.underlying_term(of) {
        Some(TypeTerm::Chan { dir, .. }) => may_send(*dir),
        _ => false,
    }
}

fn deletes(around: Around<'_>, table: TypeId, by: TypeId) -> bool
    ensures { (tests : Tests) → result ≡ built_in.deletes (at_tests around.entry tests) (underlying_term_of around.entry.program.now.types table) by }
{
    match around.program.types.underlying_term(table) {
        Some(TypeTerm::Map { key, .. }) => by == *key,
        _ => false,
    }
}

/// Whether a type is that of a call that gives nothing.
fn gives_nothing(types: &Types, of: TypeId) -> bool
    ensures { result ≡ is_tuple [] (parts_of (term_at types.now of)) }
{
    is_tuple(types, of, &[])
}

fn are_printed(around: Around<'_>, exprs: &[TypedExpr]) -> bool
    ensures { result ≡ list_all (λ x. is_printed_type around.entry.program.now.types x.of) exprs.now }
{
    for expr in exprs {
        if !is_printed(around, expr.of) {
            return false;
        }
    }
    true
}

fn is_printed(around: Around<'_>, of: TypeId) -> bool
    ensures { result ≡ is_printed_type around.entry.program.now.types of }
{
    is_truth(&around.program.types, of) || is_ordered(around, of)
}
