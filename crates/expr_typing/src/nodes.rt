//! Which types constants, names, selectors, elements and slices need. Go specification, "Constants", "Method values",
//! "Method expressions", "Selectors", "Index expressions" and "Slice expressions".

ghost use Rattle.std.specs.Option.{option_and_then, option_map_or};
ghost use Rattle.std.specs.Prelude.{◌≡◌, ◌&&◌, ◌||◌, not, true, false, IfOk};
ghost use Rattle.go_type.specs.Assignable.{underlying_term_of};
ghost use Rattle.go_type.specs.Table.{term_at};
ghost use Rattle.expr_typing.specs.Parts as part;
ghost use Rattle.expr_typing.specs.Telling.{Told, at_tests};
ghost use Rattle.type_shapes.specs.Shapes as shape;
ghost use Rattle.typed_trees.specs.Around as spec;
ghost use Rattle.typed_trees.specs.Nodes as node;
ghost use Rattle.typed_trees.specs.Tests.{Tests};

use crate::around::{Around, method_type_of};
use crate::asking::method_of;
use go_base::{NameId, NoMemory, TypeId};
use go_tree::{IndexBase, Method, SliceBase};
use go_type::{Basic, Const, MethodType, Signature, TypeTerm, Types, int_kind, represent};
use type_shapes::{
    array_elem, base_of, field_of, has_nil, is_id, is_plain, is_slice, is_slice_of, is_text,
    is_with_ok,
};

/// Whether the underlying type of a type is one of integers.
pub fn has_integers(around: Around<'_>, of: TypeId) -> bool
    ensures { result ≡ part.is_integer_type around.entry.program.now.types of }
{
    match int_kind(&around.program.types, of) {
        Some(_) => true,
        None => false,
    }
}

/// Whether values of a type are ordered: integers and strings.
pub fn is_ordered(around: Around<'_>, of: TypeId) -> bool
    ensures { result ≡ part.is_ordered_type around.entry.program.now.types of }
{
    has_integers(around, of) || is_text(&around.program.types, of)
}

pub fn fits_constant(around: Around<'_>, value: &Const, of: TypeId) -> bool
    ensures { (tests : Tests) → result ≡ node.fits_constant (at_tests around.entry tests) value.now of }
{
    is_typed_basic(around, of) & represent(&around.program.types, value, of)
}

fn is_typed_basic(around: Around<'_>, of: TypeId) -> bool
    ensures { (tests : Tests) → result ≡ node.is_typed_basic (at_tests around.entry tests) (term_at around.entry.program.now.types of) }
{
    match around.program.types.get(of) {
        Some(TypeTerm::Basic(basic)) => is_typed(*basic),
        _ => true,
    }
}

fn is_typed(basic: Basic) -> bool
    ensures { result ≡ part.is_typed basic }
{
    match basic {
        Basic::UntypedBool
        | Basic::UntypedInt
        | Basic::UntypedRune
        | Basic::UntypedText
        | Basic::UntypedNil => false,
        _ => true,
    }
}

pub fn fits_nil(around: Around<'_>, of: TypeId) -> bool
    ensures { result ≡ shape.has_nil (underlying_term_of around.entry.program.now.types of) }
{
    has_nil(&around.program.types, of)
}

/// The type of a method of an interface.
pub fn interface_method(
    around: Around<'_>,
    name: NameId,
    package: u32,
    of: TypeId,
) -> Option<TypeId>
    ensures { result ≡ part.interface_method name «package» (underlying_term_of around.entry.program.now.types of) }
{
    match around.program.types.underlying_term(of) {
        Some(TypeTerm::Interface(methods)) => method_named(methods.as_slice(), name, package),
        _ => None,
    }
}

fn method_named(methods: &[MethodType], name: NameId, package: u32) -> Option<TypeId>
    ensures { result ≡ part.method_named name «package» methods.now }
{
    for method in methods {
        if method.name == name && method.package == package {
            return Some(method.of);
        }
    }
    None
}

#[tactic(auto, using(crate::proofs::Lists::method_names))]
pub fn fits_method(around: Around<'_>, method: Method, receiver: TypeId, of: TypeId) -> bool
    ensures { (tests : Tests) → result ≡ node.fits_method (at_tests around.entry tests) method receiver of }
{
    match method {
        Method::Concrete(function) => is_id(method_type_of(around, function, receiver), of),
        Method::Interface { name, package } => {
            is_id(interface_method(around, name, package, receiver), of)
        }
    }
}

/// Whether a method expression has the type of the method with the receiver as its first parameter.
pub fn fits_method_expression(
    around: Around<'_>,
    receiver: TypeId,
    name: NameId,
    package: u32,
    of: TypeId,
) -> Result<bool, NoMemory>
    ensures { (told : Told around.entry.program.now.types) → IfOk result (λ r. r ≡ node.fits_method_expression (at_tests around.entry told.tests) receiver name «package» of) }
{
    let method = method_of(around, receiver, name, package)?;
    Ok(is_expression_of(around, receiver, method, of))
}

fn is_expression_of(
    around: Around<'_>,
    receiver: TypeId,
    method: Option<TypeId>,
    of: TypeId,
) -> bool
    ensures { (tests : Tests) → result ≡ node.is_method_expression (at_tests around.entry tests) receiver of (option_and_then (λ method. spec.signature_in (term_at around.entry.program.now.types method)) method) (spec.signature_in (term_at around.entry.program.now.types of)) }
{
    match method {
        Some(method) => is_method_expression(around, receiver, method, of),
        None => false,
    }
}

fn is_method_expression(around: Around<'_>, receiver: TypeId, method: TypeId, of: TypeId) -> bool
    ensures { (tests : Tests) → result ≡ node.is_method_expression (at_tests around.entry tests) receiver of (spec.signature_in (term_at around.entry.program.now.types method)) (spec.signature_in (term_at around.entry.program.now.types of)) }
{
    match (
        around.program.types.get(method),
        around.program.types.get(of),
    ) {
        (Some(TypeTerm::Func(method)), Some(TypeTerm::Func(signature))) => {
            takes_receiver(receiver, method, signature)
        }
        _ => false,
    }
}

fn takes_receiver(receiver: TypeId, method: &Signature, signature: &Signature) -> bool
    ensures { result ≡ part.takes_receiver receiver method.now signature.now }
{
    match signature.params.as_slice() {
        [first, rest @ ..] => {
            *first == receiver
                && rest == method.params.as_slice()
                && signature.results.as_slice() == method.results.as_slice()
                && signature.variadic == method.variadic
        }
        [] => false,
    }
}

pub fn fits_field(around: Around<'_>, field: u32, operand: TypeId, of: TypeId) -> bool
    ensures { result ≡ shape.is_id (shape.field_of field (underlying_term_of around.entry.program.now.types operand)) of }
{
    is_id(field_of(&around.program.types, operand, field), of)
}

/// The type of the elements of a slice type.
pub fn slice_elem(types: &Types, of: TypeId) -> Option<TypeId>
    ensures { result ≡ part.slice_type (underlying_term_of types.now of) }
{
    match types.underlying_term(of) {
        Some(TypeTerm::Slice(elem)) => Some(*elem),
        _ => None,
    }
}

/// Whether an operand that is indexed by integers has elements of a type.
pub fn fits_index(
    around: Around<'_>,
    base: IndexBase,
    operand: TypeId,
    index: TypeId,
    of: TypeId,
) -> bool
    ensures { (tests : Tests) → result ≡ (node.fits_element (at_tests around.entry tests) base operand of && part.is_integer_type around.entry.program.now.types index) }
{
    fits_element(around, base, operand, of) && has_integers(around, index)
}

#[tactic(auto, using(crate::proofs::Lists::slice_rules))]
fn fits_element(around: Around<'_>, base: IndexBase, operand: TypeId, of: TypeId) -> bool
    ensures { (tests : Tests) → result ≡ node.fits_element (at_tests around.entry tests) base operand of }
{
    let types = &around.program.types;
    match base {
        IndexBase::Array => is_id(array_elem(types, operand), of),
        IndexBase::Slice => is_id(slice_elem(types, operand), of),
        IndexBase::Text => is_text(types, operand) && is_plain(of, Basic::Uint8),
    }
}

/// Whether a type is that of a value, or with a second boolean value the tuple of both.
pub fn is_value_or_both(types: &Types, comma_ok: bool, value: TypeId, of: TypeId) -> bool
    ensures { result ≡ node.is_value_or_both (shape.parts_of (term_at types.now of)) comma_ok value of }
{
    if comma_ok {
        is_with_ok(types, of, value)
    } else {
        of == value
    }
}

pub fn fits_map_index(
    around: Around<'_>,
    map: TypeId,
    by: TypeId,
    comma_ok: bool,
    of: TypeId,
) -> bool
    ensures { (tests : Tests) → result ≡ node.fits_map_index (at_tests around.entry tests) map by comma_ok of }
{
    let types = &around.program.types;
    match types.underlying_term(map) {
        Some(TypeTerm::Map { key, elem }) => {
            by == *key && is_value_or_both(types, comma_ok, *elem, of)
        }
        _ => false,
    }
}

/// Whether a slice of an operand has a type.
#[tactic(auto, using(crate::proofs::Lists::slice_rules))]
pub fn fits_sliced(around: Around<'_>, base: SliceBase, operand: TypeId, of: TypeId) -> bool
    ensures { (tests : Tests) → result ≡ node.fits_sliced (at_tests around.entry tests) base operand of }
{
    let types = &around.program.types;
    match base {
        SliceBase::ArrayPointer => is_slice_of_array(around, pointed_elem(types, operand), of),
        SliceBase::Slice => is_slice(types, operand) && of == operand,
        SliceBase::Text => is_text(types, operand) && of == operand,
    }
}

/// The type of the elements of the array that a pointer type points to.
fn pointed_elem(types: &Types, of: TypeId) -> Option<TypeId>
    ensures { result ≡ option_and_then (λ base. shape.array_elem (underlying_term_of types.now base)) (shape.base_of (underlying_term_of types.now of)) }
{
    match base_of(types, of) {
        Some(base) => array_elem(types, base),
        None => None,
    }
}

fn is_slice_of_array(around: Around<'_>, elem: Option<TypeId>, of: TypeId) -> bool
    ensures { (tests : Tests) → result ≡ node.is_slice_of_array (at_tests around.entry tests) elem of }
{
    match elem {
        Some(elem) => is_slice_of(&around.program.types, of, elem),
        None => false,
    }
}

/// Whether a slice expression may have a third place.
pub fn takes_max(base: SliceBase, has_max: bool) -> bool
    ensures { result ≡ (not (part.is_text_base base) || not has_max) }
{
    match base {
        SliceBase::Text => !has_max,
        SliceBase::Slice | SliceBase::ArrayPointer => true,
    }
}

pub fn fits_deref(around: Around<'_>, operand: TypeId, of: TypeId) -> bool
    ensures { result ≡ shape.is_id (shape.base_of (underlying_term_of around.entry.program.now.types operand)) of }
{
    is_id(base_of(&around.program.types, operand), of)
}
