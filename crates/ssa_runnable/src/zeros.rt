//! Which types have a zero value. Go specification, "The zero value".

ghost use Rattle.std.specs.Prelude.{◌≡◌, IfOk};
ghost use Rattle.std.specs.List.{list_all};
ghost use Rattle.go_base.specs.declared.ids.TypeId.{TypeId as Id};
ghost use Rattle.go_type.specs.Assignable.{underlying_term_of};
ghost use Rattle.ssa_runnable.specs.Zeros.{has_basic_zero, has_zero_term, zero_at, KnowsZeros};

use go_base::{NoMemory, TypeId};
use go_type::{Basic, Field, MAX_NESTING, TypeTerm, Types};
use ssa_ir::Code;
use std::alloc::Global;

/// Whether each type of a code has a zero value: of parts that are nested at most 1,000 deep. What changes nothing in one
/// step changes nothing later.
pub(crate) fn zeros(alloc: Global, code: &Code) -> Result<Vec<bool>, NoMemory>
    ensures { IfOk result (λ it. KnowsZeros code.now it.items) }
{
    let mut known = Vec::new(alloc);
    for depth in 0..MAX_NESTING {
        let deeper = deeper(alloc, &code.types, known.as_slice())?;
        if deeper.as_slice() == known.as_slice() {
            return Ok(known);
        }
        known = deeper;
    }
    Ok(known)
}

/// Whether each type has one, where that is known of its parts.
fn deeper(alloc: Global, types: &Types, known: &[bool]) -> Result<Vec<bool>, NoMemory>
    ensures { IfOk result (λ it. (of : Id) → zero_at it.items of ≡ has_zero_term (zero_at known.now) (underlying_term_of types.now of)) }
{
    let mut all = Vec::new(alloc);
    for number in 0..types.len() {
        let of = TypeId {
            number: number as u64,
        };
        all.push(has_zero(types, known, of))?;
    }
    Ok(all)
}

fn has_zero(types: &Types, known: &[bool], of: TypeId) -> bool
    ensures { result ≡ has_zero_term (zero_at known.now) (underlying_term_of types.now of) }
{
    match types.underlying_term(of) {
        Some(TypeTerm::Basic(kind)) => has_basic_zero(*kind),
        Some(TypeTerm::Array { len, elem }) => *len == 0 || zero_at(known, *elem),
        Some(TypeTerm::Struct(fields)) => fields_have(known, fields.as_slice()),
        Some(TypeTerm::Tuple(ids)) => all_have(known, ids.as_slice()),
        Some(TypeTerm::Declared(_) | TypeTerm::Iter(_)) | None => false,
        Some(_) => true,
    }
}

fn has_basic_zero(kind: Basic) -> bool
    ensures { result ≡ has_basic_zero kind }
{
    !matches!(kind, Basic::UntypedNil)
}

fn fields_have(known: &[bool], fields: &[Field]) -> bool
    ensures { result ≡ list_all (λ field. zero_at known.now field.of) fields.now }
{
    for field in fields {
        if !zero_at(known, field.of) {
            return false;
        }
    }
    true
}

fn all_have(known: &[bool], ids: &[TypeId]) -> bool
    ensures { result ≡ list_all (zero_at known.now) ids.now }
{
    for id in ids {
        if !zero_at(known, *id) {
            return false;
        }
    }
    true
}

/// Whether it is known of a type that it has one.
pub(crate) fn zero_at(known: &[bool], of: TypeId) -> bool
    ensures { result ≡ zero_at known.now of }
{
    match known.get(of.number as usize) {
        Some(has) => *has,
        None => false,
    }
}
