//! What a range gives in each turn. Go specification, "For statements with range clause".

ghost use Rattle.std.specs.Prelude.{◌≡◌, option_map};
ghost use Rattle.expr_typing.specs.Telling.{at_tests};
ghost use Rattle.go_type.specs.Assignable.{underlying_term_of};
ghost use Rattle.program_typing.specs.Turning.{turns_as};
ghost use Rattle.typed_trees.specs.Around.{Around as Near};
ghost use Rattle.typed_trees.specs.Targets as aims;
ghost use Rattle.typed_trees.specs.Tests.{Tests};

use crate::expressions::received_elem;
use expr_typing::Around;
use go_base::TypeId;
use go_tree::RangeOver;
use go_type::{Basic, TypeTerm, Types, basic};
use type_shapes::is_text;

/// What a range gives in each turn: a key, and perhaps a value.
#[derive(Clone, Copy)]
pub struct Turns {
    pub key: TypeId,
    pub value: Option<TypeId>,
}

/// What a range over an operand of a type gives.
pub fn turns_of(around: Around<'_>, over: RangeOver, of: TypeId) -> Option<Turns>
    ensures { (tests : Tests) → option_map turns_as result ≡ aims.turns_of (at_tests around.entry tests) over of }
{
    let types = &around.program.types;
    match over {
        RangeOver::Array => with_elements(array_elements(types, of)),
        RangeOver::ArrayPointer => with_elements(pointed_elements(around, of)),
        RangeOver::Slice => with_elements(slice_elements(types, of)),
        RangeOver::Text => text_turns(is_text(types, of)),
        RangeOver::Map => map_turns(types, of),
        RangeOver::Channel => channel_turns(received_elem(types, of)),
        RangeOver::Constant(len) => constant_turns(around, len, of),
        RangeOver::Integer => None,
    }
}

fn with_elements(elem: Option<TypeId>) -> Option<Turns>
    ensures { (a : Near) → option_map turns_as result ≡ aims.with_elements a elem }
{
    match elem {
        Some(elem) => Some(Turns {
            key: basic(Basic::Int),
            value: Some(elem),
        }),
        None => None,
    }
}

fn array_elements(types: &Types, of: TypeId) -> Option<TypeId>
    ensures { (a : Near) → result ≡ aims.array_elements a (underlying_term_of types.now of) }
{
    match types.underlying_term(of) {
        Some(TypeTerm::Array { elem, .. }) => Some(*elem),
        _ => None,
    }
}

/// The elements of an array that is pointed to.
fn pointed_elements(around: Around<'_>, of: TypeId) -> Option<TypeId>
    ensures { (tests : Tests) → result ≡ aims.pointed_elements (at_tests around.entry tests) (underlying_term_of around.entry.program.now.types of) }
{
    let types = &around.program.types;
    match types.underlying_term(of) {
        Some(TypeTerm::Pointer(base)) => array_elements(types, *base),
        _ => None,
    }
}

fn slice_elements(types: &Types, of: TypeId) -> Option<TypeId>
    ensures { (a : Near) → result ≡ aims.slice_elements a (underlying_term_of types.now of) }
{
    match types.underlying_term(of) {
        Some(TypeTerm::Slice(elem)) => Some(*elem),
        _ => None,
    }
}

fn text_turns(is_text: bool) -> Option<Turns>
    ensures { (a : Near) → option_map turns_as result ≡ aims.text_turns a is_text }
{
    if is_text {
        return Some(Turns {
            key: basic(Basic::Int),
            value: Some(basic(Basic::Int32)),
        });
    }
    None
}

fn map_turns(types: &Types, of: TypeId) -> Option<Turns>
    ensures { (a : Near) → option_map turns_as result ≡ aims.map_turns a (underlying_term_of types.now of) }
{
    match types.underlying_term(of) {
        Some(TypeTerm::Map { key, elem }) => Some(Turns {
            key: *key,
            value: Some(*elem),
        }),
        _ => None,
    }
}

fn channel_turns(elem: Option<TypeId>) -> Option<Turns>
    ensures { (a : Near) → option_map turns_as result ≡ aims.channel_turns a elem }
{
    match elem {
        Some(elem) => Some(Turns {
            key: elem,
            value: None,
        }),
        None => None,
    }
}

/// What is known of an array of a length, or of a pointer to one, that is not evaluated.
fn constant_turns(around: Around<'_>, len: u64, of: TypeId) -> Option<Turns>
    ensures { (tests : Tests) → option_map turns_as result ≡ aims.turns_of (at_tests around.entry tests) (RangeOver.Constant len) of }
{
    if !is_array_of(around, len, of) {
        return None;
    }
    with_elements(elements_below(around, of))
}

/// The elements of an array, or of one that is pointed to.
fn elements_below(around: Around<'_>, of: TypeId) -> Option<TypeId>
    ensures { (tests : Tests) → result ≡ aims.elements_below (at_tests around.entry tests) (underlying_term_of around.entry.program.now.types of) }
{
    let types = &around.program.types;
    match types.underlying_term(of) {
        Some(TypeTerm::Pointer(base)) => array_elements(types, *base),
        Some(TypeTerm::Array { elem, .. }) => Some(*elem),
        _ => None,
    }
}

/// Whether a type is one of arrays of a length, or of pointers to such.
fn is_array_of(around: Around<'_>, len: u64, of: TypeId) -> bool
    ensures { (tests : Tests) → result ≡ aims.is_array_of (at_tests around.entry tests) len (underlying_term_of around.entry.program.now.types of) }
{
    let types = &around.program.types;
    match types.underlying_term(of) {
        Some(TypeTerm::Pointer(base)) => has_length(types, len, *base),
        Some(TypeTerm::Array { len: size, .. }) => len == *size,
        _ => false,
    }
}

fn has_length(types: &Types, len: u64, of: TypeId) -> bool
    ensures { (a : Near) → result ≡ aims.has_length a len (underlying_term_of types.now of) }
{
    match types.underlying_term(of) {
        Some(TypeTerm::Array { len: size, .. }) => len == *size,
        _ => false,
    }
}
