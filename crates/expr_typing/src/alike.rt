//! Which types are identical but for the tags of fields. Go specification, "Conversions": "ignoring struct tags".

ghost use Rattle.std.specs.Prelude.{◌≡◌, ◌↔◌, IsTrue};
ghost use Rattle.std.specs.Cmp.Lexicographic.{pointwise};
ghost use Rattle.go_type.specs.Identity.{like_method, like_term, same_name};
ghost use Rattle.expr_typing.specs.Alike.{like_bare_field};
ghost use Rattle.type_bare.specs.Same.{SameButTags, same_to, untagged};

use go_base::TypeId;
use go_type::{Field, MethodType, TypeName, TypeTerm, Types};

/// Whether two types are identical but for the tags of fields.
pub fn is_same_but_tags(types: &Types, a: TypeId, b: TypeId) -> bool
    ensures { IsTrue result ↔ SameButTags types.now a b }
{
    types.laws();
    is_same(types, a, b, types.len())
}

/// Whether that shows by as many steps into their parts. Those with one id are so at once.
#[cycle(same)]
fn is_same(types: &Types, a: TypeId, b: TypeId, depth: usize) -> bool
    ensures { result ≡ same_to depth types.now a b }
{
    if a == b {
        return true;
    }
    if depth == 0 {
        return false;
    }
    match (types.get(a), types.get(b)) {
        (Some(a), Some(b)) => is_same_term(types, a, b, depth - 1),
        _ => false,
    }
}

#[cycle(same)]
#[tactic(auto, using(crate::proofs::SameTypes::bare_fields))]
fn is_same_term(types: &Types, a: &TypeTerm, b: &TypeTerm, depth: usize) -> bool
    ensures { result ≡ like_term (same_to depth types.now) (untagged a.now) (untagged b.now) }
{
    match (a, b) {
        (TypeTerm::Basic(a), TypeTerm::Basic(b)) => a == b,
        (TypeTerm::Declared(a), TypeTerm::Declared(b)) => is_same_name(*a, *b),
        (TypeTerm::Pointer(a), TypeTerm::Pointer(b))
        | (TypeTerm::Slice(a), TypeTerm::Slice(b))
        | (TypeTerm::Iter(a), TypeTerm::Iter(b)) => is_same(types, *a, *b, depth),
        (
            TypeTerm::Array { len, elem },
            TypeTerm::Array {
                len: n,
                elem: other,
            },
        ) => { len == n && is_same(types, *elem, *other, depth) }
        (
            TypeTerm::Map { key, elem },
            TypeTerm::Map {
                key: by,
                elem: other,
            },
        ) => { is_same(types, *key, *by, depth) && is_same(types, *elem, *other, depth) }
        (
            TypeTerm::Chan { dir, elem },
            TypeTerm::Chan {
                dir: way,
                elem: other,
            },
        ) => { dir == way && is_same(types, *elem, *other, depth) }
        (TypeTerm::Func(a), TypeTerm::Func(b)) => {
            are_same(types, a.params.as_slice(), b.params.as_slice(), depth)
                && are_same(types, a.results.as_slice(), b.results.as_slice(), depth)
                && a.variadic == b.variadic
        }
        (TypeTerm::Struct(a), TypeTerm::Struct(b)) => {
            are_same_fields(types, a.as_slice(), b.as_slice(), depth)
        }
        (TypeTerm::Interface(a), TypeTerm::Interface(b)) => {
            are_same_methods(types, a.as_slice(), b.as_slice(), depth)
        }
        (TypeTerm::Tuple(a), TypeTerm::Tuple(b)) => {
            are_same(types, a.as_slice(), b.as_slice(), depth)
        }
        _ => false,
    }
}

fn is_same_name(a: TypeName, b: TypeName) -> bool
    ensures { result ≡ same_name a b }
{
    a.name == b.name && a.package == b.package && a.number == b.number
}

#[cycle(same)]
fn are_same(types: &Types, a: &[TypeId], b: &[TypeId], depth: usize) -> bool
    ensures { result ≡ pointwise (same_to depth types.now) a.now b.now }
{
    if a.len() != b.len() {
        return false;
    }
    for (index, one) in a.iter().enumerate() {
        if !is_same(types, *one, b[index], depth) {
            return false;
        }
    }
    true
}

#[cycle(same)]
fn are_same_fields(types: &Types, a: &[Field], b: &[Field], depth: usize) -> bool
    ensures { result ≡ pointwise (like_bare_field (same_to depth types.now)) a.now b.now }
{
    if a.len() != b.len() {
        return false;
    }
    for (index, one) in a.iter().enumerate() {
        if !is_same_field(types, one, &b[index], depth) {
            return false;
        }
    }
    true
}

#[cycle(same)]
fn is_same_field(types: &Types, a: &Field, b: &Field, depth: usize) -> bool
    ensures { result ≡ like_bare_field (same_to depth types.now) a.now b.now }
{
    a.name == b.name
        && a.package == b.package
        && is_same(types, a.of, b.of, depth)
        && a.embedded == b.embedded
}

#[cycle(same)]
fn are_same_methods(types: &Types, a: &[MethodType], b: &[MethodType], depth: usize) -> bool
    ensures { result ≡ pointwise (like_method (same_to depth types.now)) a.now b.now }
{
    if a.len() != b.len() {
        return false;
    }
    for (index, one) in a.iter().enumerate() {
        if !is_same_method(types, *one, b[index], depth) {
            return false;
        }
    }
    true
}

#[cycle(same)]
fn is_same_method(types: &Types, a: MethodType, b: MethodType, depth: usize) -> bool
    ensures { result ≡ like_method (same_to depth types.now) a b }
{
    a.name == b.name && a.package == b.package && is_same(types, a.of, b.of, depth)
}
