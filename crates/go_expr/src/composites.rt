//! Composite literals as they are written. Go specification, "Composite literals".

use crate::exprs::see;
use crate::types::see_type;
use go_ast::Token;
use go_base::{NameId, NoMemory, Pos};
use go_scope::{Position, Scope};
use go_sources::SourceFile;
use go_syntax::{Element, Expr, TypeExpr};
use std::alloc::Global;
use typed_literals::{
    Entry, FieldEntry, Hint, Literal, LiteralKind, elided_literal, indexed_literal, map_literal,
    open_array_literal, struct_literal, written_literal,
};
use typed_parts::{Seen, beside};

/// The value or key of an element, which may be a composite literal without its type: then the hint says what it is.
#[cycle(seeing)]
fn see_part(
    alloc: Global,
    source: &SourceFile,
    scope: &mut Scope,
    part: &Expr,
    hint: Hint,
) -> Result<Seen, NoMemory> {
    match part {
        Expr::Composite {
            form: None,
            open,
            elements,
            ..
        } => {
            let brace = scope.pos(open.start);
            let literal = elided_literal(scope.ground(), brace, hint);
            see_elements(alloc, source, scope, elements.as_slice(), brace, literal)
        }
        _ => see(alloc, source, scope, part),
    }
}

/// The first byte of a composite literal, and what it is by its type. One without a type stands only where a hint says what
/// it is.
#[cycle(seeing)]
pub(crate) fn see_form(
    alloc: Global,
    source: &SourceFile,
    scope: &mut Scope,
    form: &Option<Box<TypeExpr>>,
    open: Token,
) -> Result<(Pos, Option<Literal>), NoMemory> {
    let brace = scope.pos(open.start);
    let Some(form) = form else {
        return Ok((brace, elided_literal(scope.ground(), brace, Hint::Nothing)));
    };
    let at = scope.type_place(form);
    if let TypeExpr::OpenArray { element, .. } = &**form {
        let elem = see_type(alloc, source, scope, element, Position::Apart)?;
        return Ok((at, open_array_literal(at, brace, elem)));
    }
    let of = see_type(alloc, source, scope, form, Position::Apart)?;
    Ok((at, written_literal(scope.ground(), at, brace, of)))
}

/// The elements of a composite literal, and the literal that they make.
#[cycle(seeing)]
pub(crate) fn see_elements(
    alloc: Global,
    source: &SourceFile,
    scope: &mut Scope,
    elements: &[Element],
    at: Pos,
    literal: Option<Literal>,
) -> Result<Seen, NoMemory> {
    let Some(known) = literal else {
        see_values(alloc, source, scope, elements)?;
        return Ok(Seen { at, meaning: None });
    };
    let expr = match known.kind {
        LiteralKind::Struct => {
            let entries = see_fields(alloc, source, scope, elements)?;
            let package = scope.package();
            struct_literal(scope.ground(), package, literal, entries)?
        }
        LiteralKind::Map { .. } => {
            let entries = see_entries(alloc, source, scope, elements, known)?;
            map_literal(scope.ground(), literal, entries)?
        }
        _ => {
            let entries = see_entries(alloc, source, scope, elements, known)?;
            indexed_literal(scope.ground(), literal, entries)?
        }
    };
    Ok(Seen::value(at, expr))
}

/// The values of a literal that is not sound.
#[cycle(seeing)]
fn see_values(
    alloc: Global,
    source: &SourceFile,
    scope: &mut Scope,
    elements: &[Element],
) -> Result<(), NoMemory> {
    for element in elements {
        drop(see_part(alloc, source, scope, &element.value, Hint::Unsound)?);
    }
    Ok(())
}

/// The elements of a struct.
#[cycle(seeing)]
fn see_fields(
    alloc: Global,
    source: &SourceFile,
    scope: &mut Scope,
    elements: &[Element],
) -> Result<Vec<FieldEntry>, NoMemory> {
    let mut entries = Vec::new(alloc);
    for element in elements {
        let value = see_part(alloc, source, scope, &element.value, Hint::Nothing)?;
        let entry = field_entry(source, scope, element, value)?;
        entries.push(entry)?;
    }
    Ok(entries)
}

/// The elements of an array, a slice or a map.
#[cycle(seeing)]
fn see_entries(
    alloc: Global,
    source: &SourceFile,
    scope: &mut Scope,
    elements: &[Element],
    literal: Literal,
) -> Result<Vec<Entry>, NoMemory> {
    let mut entries = Vec::new(alloc);
    for element in elements {
        let key = match &element.key {
            Some(key) => { Some(see_part(alloc, source, scope, key, literal.key_hint())?) }
            None => None,
        };
        let value = see_part(alloc, source, scope, &element.value, literal.value_hint());
        let (value, key) = beside(value, key)?;
        let at = entry_at(&key, value.at);
        entries.push(Entry { at, key, value })?;
    }
    Ok(entries)
}

/// The first byte of an element whose value is at a place.
fn entry_at(key: &Option<Seen>, value_at: Pos) -> Pos {
    match key {
        Some(key) => key.at,
        None => value_at,
    }
}

/// The first byte of an element of a struct, the name of its key and the package of that.
#[derive(Clone, Copy)]
struct FieldKey {
    at: Pos,
    name: Option<NameId>,
    package: u32,
}

fn field_entry(
    source: &SourceFile,
    scope: &mut Scope,
    element: &Element,
    value: Seen,
) -> Result<FieldEntry, NoMemory> {
    let key = field_key(source, scope, element, value.at);
    let (key, value) = beside(key, value)?;
    Ok(FieldEntry {
        at: key.at,
        has_key: element.key.is_some(),
        name: key.name,
        package: key.package,
        value,
    })
}

/// The key of an element whose value is at a place.
fn field_key(
    source: &SourceFile,
    scope: &mut Scope,
    element: &Element,
    value_at: Pos,
) -> Result<FieldKey, NoMemory> {
    let Some(key) = &element.key else {
        return Ok(FieldKey {
            at: value_at,
            name: None,
            package: scope.package(),
        });
    };
    let at = scope.pos(go_places::expr_start(key));
    let (name, package) = match &**key {
        Expr::Name(token) => field_name(source, scope, *token)?,
        _ => (None, scope.package()),
    };
    Ok(FieldKey { at, name, package })
}

/// The name of a key and its package; no name where it is `_`.
fn field_name(
    source: &SourceFile,
    scope: &mut Scope,
    token: Token,
) -> Result<(Option<NameId>, u32), NoMemory> {
    let (name, package) = scope.named_in_package(source, token)?;
    if name == scope.blank() {
        return Ok((None, package));
    }
    Ok((Some(name), package))
}
