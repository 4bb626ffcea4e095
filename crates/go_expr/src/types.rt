//! Types as they are written in bodies and initialisers. Go specification, "Types".

use crate::error::lost;
use crate::exprs::see;
use go_base::{NoMemory, TypeId};
use go_scope::{Asking, Elements, FieldTypes, ParamTypes, Position, Scope};
use go_sources::SourceFile;
use go_syntax::{ElementLine, Expr, FieldLine, Param, ResultForm, Signature, TypeExpr};
use go_type::{Dir, TypeTerm};
use std::alloc::Global;
use typed_operators::array_length;

/// The type that is written, where it is sound. Each row that is broken in it is reported.
#[cycle(seeing)]
pub(crate) fn see_type(
    alloc: Global,
    source: &SourceFile,
    scope: &mut Scope,
    form: &TypeExpr,
    position: Position,
) -> Result<Option<TypeId>, NoMemory> {
    let before = scope.own_mentions();
    let at = scope.type_place(form);
    let term = match form {
        TypeExpr::Name(name) => return scope.named(source, *name, position),
        TypeExpr::Paren { inner, .. } => return see_type(alloc, source, scope, inner, position),
        TypeExpr::Pointer { base, .. } => {
            let base = see_type(alloc, source, scope, base, Position::Apart)?;
            base.map(TypeTerm::Pointer)
        }
        TypeExpr::Slice { element, .. } => {
            let element = see_type(alloc, source, scope, element, Position::Apart)?;
            element.map(TypeTerm::Slice)
        }
        TypeExpr::Array {
            length,
            element,
            ..
        } => {
            let length = see_length(alloc, source, scope, length)?;
            let element = see_type(alloc, source, scope, element, position.inside())?;
            array_of(length, element)
        }
        TypeExpr::OpenArray { .. } => return Err(lost()),
        TypeExpr::Map { key, element, .. } => {
            let key = see_key(alloc, source, scope, key)?;
            let element = see_type(alloc, source, scope, element, Position::Apart)?;
            map_of(key, element)
        }
        TypeExpr::Chan { arrow, element, .. } => {
            let element = see_type(alloc, source, scope, element, Position::Apart)?;
            let dir = if arrow.is_some() {
                Dir::Send
            } else {
                Dir::Both
            };
            chan_of(dir, element)
        }
        TypeExpr::ReceiveChan { element, .. } => {
            let element = see_type(alloc, source, scope, element, Position::Apart)?;
            chan_of(Dir::Receive, element)
        }
        TypeExpr::Function { signature, .. } => {
            let of = see_signature(alloc, source, scope, signature)?;
            return scope.limited(at, of, before);
        }
        TypeExpr::Struct { fields, .. } => {
            let of = see_struct(alloc, source, scope, fields.as_slice(), position)?;
            return scope.limited(at, of, before);
        }
        TypeExpr::Interface { elements, .. } => {
            let of = see_interface(alloc, source, scope, elements.as_slice())?;
            return scope.limited(at, of, before);
        }
    };
    let of = scope.held_term(term)?;
    scope.limited(at, of, before)
}

/// The length of an array: N13, N10.
#[cycle(seeing)]
fn see_length(
    alloc: Global,
    source: &SourceFile,
    scope: &mut Scope,
    length: &Expr,
) -> Result<Option<u64>, NoMemory> {
    let was_in_length = scope.enter_length(true);
    let seen = see(alloc, source, scope, length)?;
    let _ = scope.enter_length(was_in_length);
    Ok(array_length(scope.ground(), seen))
}

/// The key of a map: N9.
#[cycle(seeing)]
fn see_key(
    alloc: Global,
    source: &SourceFile,
    scope: &mut Scope,
    key: &TypeExpr,
) -> Result<Option<TypeId>, NoMemory> {
    let before = scope.own_mentions();
    let of = see_type(alloc, source, scope, key, Position::Apart)?;
    let at = scope.type_place(key);
    scope.asked(at, of, Asking::Key, before)
}

/// The function type of a signature.
#[cycle(seeing)]
pub(crate) fn see_signature(
    alloc: Global,
    source: &SourceFile,
    scope: &mut Scope,
    signature: &Signature,
) -> Result<Option<TypeId>, NoMemory> {
    let mut types = ParamTypes::new(alloc);
    see_params(
        alloc,
        source,
        scope,
        signature.params.params.as_slice(),
        &mut types,
    )?;
    types.begin_results();
    match &signature.result {
        ResultForm::None => {}
        ResultForm::Params(results) => {
            see_params(alloc, source, scope, results.params.as_slice(), &mut types)?;
        }
        ResultForm::TypeForm(form) => {
            let of = see_type(alloc, source, scope, form, Position::Apart)?;
            types.add_unnamed(of)?;
        }
    }
    types.finish(scope)
}

#[cycle(seeing)]
fn see_params(
    alloc: Global,
    source: &SourceFile,
    scope: &mut Scope,
    params: &[Param],
    types: &mut ParamTypes,
) -> Result<(), NoMemory> {
    for param in params {
        let of = see_type(alloc, source, scope, &param.form, Position::Apart)?;
        types.add(source, scope, param, of)?;
    }
    Ok(())
}

#[cycle(seeing)]
fn see_struct(
    alloc: Global,
    source: &SourceFile,
    scope: &mut Scope,
    lines: &[FieldLine],
    position: Position,
) -> Result<Option<TypeId>, NoMemory> {
    let mut fields = FieldTypes::new(alloc);
    for line in lines {
        see_field(alloc, source, scope, line, position, &mut fields)?;
    }
    fields.finish(scope)
}

#[cycle(seeing)]
fn see_field(
    alloc: Global,
    source: &SourceFile,
    scope: &mut Scope,
    line: &FieldLine,
    position: Position,
    fields: &mut FieldTypes,
) -> Result<(), NoMemory> {
    match line {
        FieldLine::Empty(_) => Ok(()),
        FieldLine::Named {
            names,
            form,
            tag,
            ..
        } => {
            let of = see_type(alloc, source, scope, form, position.inside())?;
            fields.add_named(source, scope, names.as_slice(), of, *tag)
        }
        FieldLine::Embedded {
            star,
            name,
            tag,
            ..
        } => { fields.add_embedded(source, scope, *star, *name, *tag, position) }
    }
}

#[cycle(seeing)]
fn see_interface(
    alloc: Global,
    source: &SourceFile,
    scope: &mut Scope,
    lines: &[ElementLine],
) -> Result<Option<TypeId>, NoMemory> {
    let mut elements = Elements::new(alloc);
    for line in lines {
        see_element(alloc, source, scope, line, &mut elements)?;
    }
    elements.finish(scope)
}

#[cycle(seeing)]
fn see_element(
    alloc: Global,
    source: &SourceFile,
    scope: &mut Scope,
    line: &ElementLine,
    elements: &mut Elements,
) -> Result<(), NoMemory> {
    match line {
        ElementLine::Empty(_) => Ok(()),
        ElementLine::Method {
            name,
            signature,
            ..
        } => {
            let before = scope.own_mentions();
            let of = see_signature(alloc, source, scope, signature)?;
            elements.add_method(source, scope, *name, of, before)
        }
        ElementLine::Embedded { name, .. } => elements.add_embedded(source, scope, *name),
    }
}

fn array_of(length: Option<u64>, element: Option<TypeId>) -> Option<TypeTerm> {
    Some(TypeTerm::Array {
        len: length?,
        elem: element?,
    })
}

fn map_of(key: Option<TypeId>, element: Option<TypeId>) -> Option<TypeTerm> {
    Some(TypeTerm::Map {
        key: key?,
        elem: element?,
    })
}

fn chan_of(dir: Dir, element: Option<TypeId>) -> Option<TypeTerm> {
    Some(TypeTerm::Chan {
        dir,
        elem: element?,
    })
}
