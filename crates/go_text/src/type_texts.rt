//! The texts of types.

ghost use Rattle.std.specs.Prelude.{◌≡◌, ◌++◌, OnOk, IfOk, IsErr, codes};
ghost use Rattle.go_text.specs.Joined.{joined};
ghost use Rattle.go_text.specs.TypeText.{type_text_of, type_text_to, term_text, basic_text, chan_text, is_receiving, signature_text, variadic_text, last_param_text, results_text, tuple_text, field_name_text, field_text, is_bare, tag_text, struct_text, method_text, interface_text};
ghost use Rattle.go_type.specs.Table.{term_at};

use crate::joining::separate;
use crate::labels::Labels;
use crate::naming::{Namer, push_declared, push_member};
use crate::scalars::{push_number, push_quoted};
use crate::sorting::by_name;
use go_base::{Names, NoMemory, Text, TypeId};
use go_type::{Basic, Dir, EXPORTED, Field, MethodType, Signature, TypeTerm, Types};
use std::alloc::Global;

/// The text of a type.
pub fn type_text(
    alloc: Global,
    names: &Names,
    labels: &Labels,
    types: &Types,
    id: TypeId,
) -> Result<Text, NoMemory>
    ensures { IfOk result (λ text. text ≡ type_text_of (record { names = names.now; labels = labels.now; types = types.now }) id) }
{
    let mut bytes = Vec::new(alloc);
    push_type(&mut bytes, names, labels, types, id)?;
    match std::str::from_utf8(bytes.as_slice()) {
        Ok(text) => Text::new(alloc, text),
        Err(_) => lost(),
    }
}

/// A text that is made of texts is one.
fn lost() -> Result<Text, NoMemory>
    ensures { IsErr result }
{
    Err(NoMemory)
}

/// Adds the text of a type.
pub fn push_type(
    text: &mut Vec<u8>,
    names: &Names,
    labels: &Labels,
    types: &Types,
    id: TypeId,
) -> Result<(), NoMemory>
    ensures { OnOk result (text.new.items ≡ text.old.items ++ type_text_of (record { names = names.now; labels = labels.now; types = types.now }) id) }
{
    let namer = Namer {
        names,
        labels,
        types,
    };
    push_to(text, &namer, id, types.len())
}

/// Adds the text of a type whose parts are nested less deep than the depth.
#[cycle(text)]
#[tactic(auto, unfolding(crate::specs::TypeText::type_text_to))]
fn push_to(text: &mut Vec<u8>, namer: &Namer, id: TypeId, depth: usize) -> Result<(), NoMemory>
    ensures { OnOk result (text.new.items ≡ text.old.items ++ type_text_to depth namer.now id) }
{
    if depth == 0 {
        return Ok(());
    }
    match namer.types.get(id) {
        Some(term) => push_term(text, namer, term, depth - 1),
        None => Ok(()),
    }
}

#[cycle(text)]
#[tactic(auto, unfolding(crate::specs::TypeText::term_text))]
fn push_term(
    text: &mut Vec<u8>,
    namer: &Namer,
    term: &TypeTerm,
    depth: usize,
) -> Result<(), NoMemory>
    ensures { OnOk result (text.new.items ≡ text.old.items ++ term_text namer.now (type_text_to depth namer.now) term.now) }
{
    match term {
        TypeTerm::Basic(basic) => push_basic(text, *basic),
        TypeTerm::Declared(name) => push_declared(text, namer.names, namer.labels, *name),
        TypeTerm::Pointer(elem) => push_prefixed(text, namer, b"*", *elem, depth),
        TypeTerm::Slice(elem) => push_prefixed(text, namer, b"[]", *elem, depth),
        TypeTerm::Array { len, elem } => push_array(text, namer, *len, *elem, depth),
        TypeTerm::Map { key, elem } => push_map(text, namer, *key, *elem, depth),
        TypeTerm::Chan { dir, elem } => push_chan(text, namer, *dir, *elem, depth),
        TypeTerm::Func(signature) => push_func(text, namer, signature, depth),
        TypeTerm::Struct(fields) => push_struct(text, namer, fields.as_slice(), depth),
        TypeTerm::Interface(methods) => push_interface(text, namer, methods.as_slice(), depth),
        TypeTerm::Tuple(parts) => push_tuple(text, namer, parts.as_slice(), depth),
        TypeTerm::Iter(elem) => push_prefixed(text, namer, b"iter ", *elem, depth),
    }
}

fn push_basic(text: &mut Vec<u8>, basic: Basic) -> Result<(), NoMemory>
    ensures { OnOk result (text.new.items ≡ text.old.items ++ basic_text basic) }
{
    text.extend_from_slice(basic_name(basic).as_bytes())?;
    Ok(())
}

fn basic_name(basic: Basic) -> &'static str
    ensures { result.now ≡ basic_text basic }
{
    match basic {
        Basic::Bool => "bool",
        Basic::Int => "int",
        Basic::Int8 => "int8",
        Basic::Int16 => "int16",
        Basic::Int32 => "int32",
        Basic::Int64 => "int64",
        Basic::Uint => "uint",
        Basic::Uint8 => "uint8",
        Basic::Uint16 => "uint16",
        Basic::Uint32 => "uint32",
        Basic::Uint64 => "uint64",
        Basic::Text => "string",
        Basic::UntypedBool => "untyped bool",
        Basic::UntypedInt => "untyped int",
        Basic::UntypedRune => "untyped rune",
        Basic::UntypedText => "untyped string",
        Basic::UntypedNil => "untyped nil",
    }
}

/// Words before the text of a type.
#[cycle(text)]
fn push_prefixed(
    text: &mut Vec<u8>,
    namer: &Namer,
    words: &[u8],
    id: TypeId,
    depth: usize,
) -> Result<(), NoMemory>
    ensures { OnOk result (text.new.items ≡ text.old.items ++ (words.now ++ type_text_to depth namer.now id)) }
{
    text.extend_from_slice(words)?;
    push_to(text, namer, id, depth)
}

#[cycle(text)]
#[tactic(auto, unfolding(crate::specs::TypeText::term_text))]
fn push_array(
    text: &mut Vec<u8>,
    namer: &Namer,
    len: u64,
    elem: TypeId,
    depth: usize,
) -> Result<(), NoMemory>
    ensures { OnOk result (text.new.items ≡ text.old.items ++ term_text namer.now (type_text_to depth namer.now) (TypeTerm.Array len elem)) }
{
    text.push(b'[')?;
    push_number(text, len)?;
    text.push(b']')?;
    push_to(text, namer, elem, depth)
}

#[cycle(text)]
#[tactic(auto, unfolding(crate::specs::TypeText::term_text))]
fn push_map(
    text: &mut Vec<u8>,
    namer: &Namer,
    key: TypeId,
    elem: TypeId,
    depth: usize,
) -> Result<(), NoMemory>
    ensures { OnOk result (text.new.items ≡ text.old.items ++ term_text namer.now (type_text_to depth namer.now) (TypeTerm.Map key elem)) }
{
    text.extend_from_slice(b"map[")?;
    push_to(text, namer, key, depth)?;
    text.push(b']')?;
    push_to(text, namer, elem, depth)
}

/// A channel type. Parentheses keep `chan (<-chan T)` apart from `chan<- chan T`.
#[cycle(text)]
fn push_chan(
    text: &mut Vec<u8>,
    namer: &Namer,
    dir: Dir,
    elem: TypeId,
    depth: usize,
) -> Result<(), NoMemory>
    ensures { OnOk result (text.new.items ≡ text.old.items ++ chan_text namer.now (type_text_to depth namer.now) dir elem) }
{
    match dir {
        Dir::Send => push_prefixed(text, namer, b"chan<- ", elem, depth),
        Dir::Receive => push_prefixed(text, namer, b"<-chan ", elem, depth),
        Dir::Both if receives_alone(namer, elem) => push_within(text, namer, elem, depth),
        Dir::Both => push_prefixed(text, namer, b"chan ", elem, depth),
    }
}

fn receives_alone(namer: &Namer, id: TypeId) -> bool
    ensures { result ≡ is_receiving (term_at namer.now.types id) }
{
    matches!(
        namer.types.get(id),
        Some(TypeTerm::Chan {
            dir: Dir::Receive,
            ..
        })
    )
}

#[cycle(text)]
fn push_within(
    text: &mut Vec<u8>,
    namer: &Namer,
    elem: TypeId,
    depth: usize,
) -> Result<(), NoMemory>
    ensures { OnOk result (text.new.items ≡ text.old.items ++ (codes "chan (" ++ (type_text_to depth namer.now elem ++ codes ")"))) }
{
    text.extend_from_slice(b"chan (")?;
    push_to(text, namer, elem, depth)?;
    text.push(b')')?;
    Ok(())
}

#[cycle(text)]
fn push_func(
    text: &mut Vec<u8>,
    namer: &Namer,
    signature: &Signature,
    depth: usize,
) -> Result<(), NoMemory>
    ensures { OnOk result (text.new.items ≡ text.old.items ++ (codes "func" ++ signature_text namer.now (type_text_to depth namer.now) signature.now)) }
{
    text.extend_from_slice(b"func")?;
    push_signature(text, namer, signature, depth)
}

/// Parameters and results, as they stand behind `func` or behind the name of a method.
#[cycle(text)]
fn push_signature(
    text: &mut Vec<u8>,
    namer: &Namer,
    signature: &Signature,
    depth: usize,
) -> Result<(), NoMemory>
    ensures { OnOk result (text.new.items ≡ text.old.items ++ signature_text namer.now (type_text_to depth namer.now) signature.now) }
{
    text.push(b'(')?;
    if signature.variadic {
        push_variadic(text, namer, signature.params.as_slice(), depth)?;
    } else {
        push_types(text, namer, signature.params.as_slice(), depth)?;
    }
    text.push(b')')?;
    push_results(text, namer, signature.results.as_slice(), depth)
}

/// Types, with commas between them.
#[cycle(text)]
fn push_types(
    text: &mut Vec<u8>,
    namer: &Namer,
    ids: &[TypeId],
    depth: usize,
) -> Result<(), NoMemory>
    ensures { OnOk result (text.new.items ≡ text.old.items ++ joined (codes ", ") (type_text_to depth namer.now) ids.now) }
{
    for (index, id) in ids.iter().enumerate() {
        separate(text, b", ", index)?;
        push_to(text, namer, *id, depth)?;
    }
    Ok(())
}

/// The parameters of a variadic function.
#[cycle(text)]
fn push_variadic(
    text: &mut Vec<u8>,
    namer: &Namer,
    params: &[TypeId],
    depth: usize,
) -> Result<(), NoMemory>
    ensures { OnOk result (text.new.items ≡ text.old.items ++ variadic_text namer.now (type_text_to depth namer.now) params.now) }
{
    let Some((last, front)) = params.split_last() else {
        return Ok(());
    };
    for id in front {
        push_to(text, namer, *id, depth)?;
        text.extend_from_slice(b", ")?;
    }
    push_last(text, namer, *last, depth)?;
    Ok(())
}

/// The last parameter of a variadic function, a slice type.
#[cycle(text)]
fn push_last(text: &mut Vec<u8>, namer: &Namer, id: TypeId, depth: usize) -> Result<(), NoMemory>
    ensures { OnOk result (text.new.items ≡ text.old.items ++ last_param_text namer.now (type_text_to depth namer.now) id) }
{
    match namer.types.get(id) {
        Some(TypeTerm::Slice(elem)) => push_prefixed(text, namer, b"...", *elem, depth),
        _ => push_prefixed(text, namer, b"...", id, depth),
    }
}

/// The results: nothing, a type, or types in parentheses.
#[cycle(text)]
fn push_results(
    text: &mut Vec<u8>,
    namer: &Namer,
    results: &[TypeId],
    depth: usize,
) -> Result<(), NoMemory>
    ensures { OnOk result (text.new.items ≡ text.old.items ++ results_text (type_text_to depth namer.now) results.now) }
{
    match results {
        [] => Ok(()),
        [one] => push_prefixed(text, namer, b" ", *one, depth),
        _ => {
            text.push(b' ')?;
            push_tuple(text, namer, results, depth)
        }
    }
}

#[cycle(text)]
fn push_tuple(
    text: &mut Vec<u8>,
    namer: &Namer,
    parts: &[TypeId],
    depth: usize,
) -> Result<(), NoMemory>
    ensures { OnOk result (text.new.items ≡ text.old.items ++ tuple_text (type_text_to depth namer.now) parts.now) }
{
    text.push(b'(')?;
    push_types(text, namer, parts, depth)?;
    text.push(b')')?;
    Ok(())
}

#[cycle(text)]
fn push_struct(
    text: &mut Vec<u8>,
    namer: &Namer,
    fields: &[Field],
    depth: usize,
) -> Result<(), NoMemory>
    ensures { OnOk result (text.new.items ≡ text.old.items ++ struct_text namer.now (type_text_to depth namer.now) fields.now) }
{
    text.extend_from_slice(b"struct{")?;
    push_fields(text, namer, fields, depth)?;
    text.push(b'}')?;
    Ok(())
}

#[cycle(text)]
fn push_fields(
    text: &mut Vec<u8>,
    namer: &Namer,
    fields: &[Field],
    depth: usize,
) -> Result<(), NoMemory>
    ensures { OnOk result (text.new.items ≡ text.old.items ++ joined (codes "; ") (field_text namer.now (type_text_to depth namer.now)) fields.now) }
{
    for (index, field) in fields.iter().enumerate() {
        separate(text, b"; ", index)?;
        push_field(text, namer, field, depth)?;
    }
    Ok(())
}

#[cycle(text)]
fn push_field(
    text: &mut Vec<u8>,
    namer: &Namer,
    field: &Field,
    depth: usize,
) -> Result<(), NoMemory>
    ensures { OnOk result (text.new.items ≡ text.old.items ++ field_text namer.now (type_text_to depth namer.now) field.now) }
{
    push_field_name(text, namer, field)?;
    push_to(text, namer, field.of, depth)?;
    push_tag(text, field.tag.as_slice())
}

/// What stands before a field's type. An embedded field that is called as its type has no name of its own.
fn push_field_name(text: &mut Vec<u8>, namer: &Namer, field: &Field) -> Result<(), NoMemory>
    ensures { OnOk result (text.new.items ≡ text.old.items ++ field_name_text namer.now field.now) }
{
    if is_bare_field(namer, field) {
        return Ok(());
    }
    push_member(text, namer.names, namer.labels, field.name, field.package)?;
    text.push(if field.embedded { b'=' } else { b' ' })?;
    Ok(())
}

/// Whether a field is embedded, exported and called as its type, or for a pointer as what that points to.
fn is_bare_field(namer: &Namer, field: &Field) -> bool
    ensures { result ≡ is_bare namer.now field.now }
{
    if !field.embedded || field.package != EXPORTED {
        return false;
    }
    match namer.types.get(field.of) {
        Some(TypeTerm::Declared(name)) => name.name == field.name,
        Some(TypeTerm::Pointer(base)) => match namer.types.get(*base) {
            Some(TypeTerm::Declared(name)) => name.name == field.name,
            _ => false,
        },
        _ => false,
    }
}

fn push_tag(text: &mut Vec<u8>, tag: &[u8]) -> Result<(), NoMemory>
    ensures { OnOk result (text.new.items ≡ text.old.items ++ tag_text tag.now) }
{
    if tag.is_empty() {
        return Ok(());
    }
    text.push(b' ')?;
    push_quoted(text, tag)
}

#[cycle(text)]
fn push_interface(
    text: &mut Vec<u8>,
    namer: &Namer,
    methods: &[MethodType],
    depth: usize,
) -> Result<(), NoMemory>
    ensures { OnOk result (text.new.items ≡ text.old.items ++ interface_text namer.now (type_text_to depth namer.now) methods.now) }
{
    let sorted = by_name(*text.allocator(), namer, methods)?;
    text.extend_from_slice(b"interface{")?;
    push_methods(text, namer, sorted.as_slice(), depth)?;
    text.push(b'}')?;
    Ok(())
}

/// The methods of an interface, with semicolons between them.
#[cycle(text)]
fn push_methods(
    text: &mut Vec<u8>,
    namer: &Namer,
    methods: &[MethodType],
    depth: usize,
) -> Result<(), NoMemory>
    ensures { OnOk result (text.new.items ≡ text.old.items ++ joined (codes "; ") (method_text namer.now (type_text_to depth namer.now)) methods.now) }
{
    for (index, method) in methods.iter().enumerate() {
        separate(text, b"; ", index)?;
        push_interface_method(text, namer, *method, depth)?;
    }
    Ok(())
}

#[cycle(text)]
fn push_interface_method(
    text: &mut Vec<u8>,
    namer: &Namer,
    method: MethodType,
    depth: usize,
) -> Result<(), NoMemory>
    ensures { OnOk result (text.new.items ≡ text.old.items ++ method_text namer.now (type_text_to depth namer.now) method) }
{
    push_member(text, namer.names, namer.labels, method.name, method.package)?;
    match namer.types.get(method.of) {
        Some(TypeTerm::Func(signature)) => push_signature(text, namer, signature, depth),
        _ => push_prefixed(text, namer, b" ", method.of, depth),
    }
}
