//! A type's term without tags, whose parts are replaced by their bare types.

ghost use Rattle.std.specs.Prelude.{◌≡◌, map, IfOk, Some};
ghost use Rattle.go_type.specs.Sizes.{is_declared};
ghost use Rattle.type_bare.specs.Stripped.{bare_of, bare_field, bare_method, stripped_signature, stripped};

use go_base::{Bytes, NoMemory, TypeId};
use go_type::{Field, Fields, MethodType, MethodTypes, Signature, TypeIds, TypeTerm};
use std::alloc::Global;

/// Whether a term is that of a declared type.
pub fn is_declared(term: &TypeTerm) -> bool
    ensures { result ≡ is_declared (Some term.now) }
{
    matches!(term, TypeTerm::Declared(_))
}

/// The term without tags, of which each part is replaced by its bare type.
pub fn stripped(alloc: Global, bares: &[TypeId], term: &TypeTerm) -> Result<TypeTerm, NoMemory>
    ensures { IfOk result (λ bare. bare ≡ stripped (bare_of bares.now) term.now) }
{
    Ok(match term {
        TypeTerm::Basic(basic) => TypeTerm::Basic(*basic),
        TypeTerm::Declared(name) => TypeTerm::Declared(*name),
        TypeTerm::Pointer(elem) => TypeTerm::Pointer(bare_of(bares, *elem)),
        TypeTerm::Slice(elem) => TypeTerm::Slice(bare_of(bares, *elem)),
        TypeTerm::Array { len, elem } => TypeTerm::Array {
            len: *len,
            elem: bare_of(bares, *elem),
        },
        TypeTerm::Map { key, elem } => TypeTerm::Map {
            key: bare_of(bares, *key),
            elem: bare_of(bares, *elem),
        },
        TypeTerm::Chan { dir, elem } => TypeTerm::Chan {
            dir: *dir,
            elem: bare_of(bares, *elem),
        },
        TypeTerm::Func(signature) => TypeTerm::Func(bare_signature(alloc, bares, signature)?),
        TypeTerm::Struct(fields) => TypeTerm::Struct(bare_fields(alloc, bares, fields.as_slice())?),
        TypeTerm::Interface(methods) => {
            TypeTerm::Interface(bare_methods(alloc, bares, methods.as_slice())?)
        }
        TypeTerm::Tuple(parts) => TypeTerm::Tuple(bare_ids(alloc, bares, parts.as_slice())?),
        TypeTerm::Iter(over) => TypeTerm::Iter(bare_of(bares, *over)),
    })
}

/// The bare type of a type, or the type itself where it is not known.
pub fn bare_of(bares: &[TypeId], id: TypeId) -> TypeId
    ensures { result ≡ bare_of bares.now id }
{
    match bares.get(id.number as usize) {
        Some(bare) => *bare,
        None => id,
    }
}

fn bare_signature(
    alloc: Global,
    bares: &[TypeId],
    signature: &Signature,
) -> Result<Signature, NoMemory>
    ensures { IfOk result (λ bare. bare ≡ stripped_signature (bare_of bares.now) signature.now) }
{
    Ok(Signature {
        params: bare_ids(alloc, bares, signature.params.as_slice())?,
        results: bare_ids(alloc, bares, signature.results.as_slice())?,
        variadic: signature.variadic,
    })
}

fn bare_ids(alloc: Global, bares: &[TypeId], ids: &[TypeId]) -> Result<TypeIds, NoMemory>
    ensures { IfOk result (λ bare. bare ≡ map (bare_of bares.now) ids.now) }
{
    let mut bare = TypeIds::new(alloc);
    for id in ids {
        bare.push(bare_of(bares, *id))?;
    }
    Ok(bare)
}

fn bare_fields(alloc: Global, bares: &[TypeId], fields: &[Field]) -> Result<Fields, NoMemory>
    ensures { IfOk result (λ bare. bare ≡ map (bare_field (bare_of bares.now)) fields.now) }
{
    let mut bare = Fields::new(alloc);
    for field in fields {
        bare.push(bare_field(alloc, bares, field))?;
    }
    Ok(bare)
}

fn bare_field(alloc: Global, bares: &[TypeId], field: &Field) -> Field
    ensures { result ≡ bare_field (bare_of bares.now) field.now }
{
    Field {
        name: field.name,
        package: field.package,
        of: bare_of(bares, field.of),
        embedded: field.embedded,
        tag: Bytes::new(Vec::new(alloc)),
    }
}

fn bare_methods(
    alloc: Global,
    bares: &[TypeId],
    methods: &[MethodType],
) -> Result<MethodTypes, NoMemory>
    ensures { IfOk result (λ bare. bare ≡ map (bare_method (bare_of bares.now)) methods.now) }
{
    let mut bare = MethodTypes::new(alloc);
    for method in methods {
        bare.push(bare_method(bares, method))?;
    }
    Ok(bare)
}

fn bare_method(bares: &[TypeId], method: &MethodType) -> MethodType
    ensures { result ≡ bare_method (bare_of bares.now) method.now }
{
    MethodType {
        name: method.name,
        package: method.package,
        of: bare_of(bares, method.of),
    }
}
