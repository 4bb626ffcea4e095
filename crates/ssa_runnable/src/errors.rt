//! The type of what a run-time fault throws: `errorString` of package `runtime`, which holds strings.

ghost use Rattle.std.specs.Prelude.{◌≡◌, false, codes, slice_get};
ghost use Rattle.std.specs.Option.{option_map_or};
ghost use Rattle.std.specs.Str.{bytes_eq};
ghost use Rattle.go_text.specs.Naming.{name_text};
ghost use Rattle.go_type.specs.Assignable.{underlying_term_of};
ghost use Rattle.go_type.specs.Table.{term_at};
ghost use Rattle.ssa_mean.specs.BuiltIns.{is_text_term};
ghost use Rattle.ssa_mean.specs.Faults as faults;
ghost use Rattle.ssa_runnable.specs.Tests.{fits_error};

use go_base::{NameId, TypeId};
use go_type::{Basic, TypeName, TypeTerm, Types};
use ssa_ir::Code;

/// The type, where the code has it.
pub(crate) fn error_string(code: &Code) -> Option<TypeId>
    ensures { result ≡ faults.error_string code.now }
{
    for id in code.declared.as_slice() {
        if is_error_string(code, *id) {
            return Some(*id);
        }
    }
    None
}

fn is_error_string(code: &Code, id: TypeId) -> bool
    ensures { result ≡ faults.is_error_term code.now (term_at code.now.types id) }
{
    match code.types.get(id) {
        Some(TypeTerm::Declared(name)) => is_error_name(code, name),
        _ => false,
    }
}

fn is_error_name(code: &Code, name: &TypeName) -> bool
    ensures { result ≡ faults.is_error_name code.now name.now }
{
    if name.number != 0 || !is_runtime(code, name.package) {
        return false;
    }
    is_error_text(code, name.name)
}

/// Whether a package is `runtime`.
fn is_runtime(code: &Code, number: u32) -> bool
    ensures { result ≡ option_map_or (bytes_eq (codes "runtime")) (slice_get code.now.packages number) false }
{
    match code.packages.as_slice().get(number as usize) {
        Some(label) => "runtime" == label.as_str(),
        None => false,
    }
}

fn is_error_text(code: &Code, name: NameId) -> bool
    ensures { result ≡ bytes_eq (codes "errorString") (name_text code.now.names name) }
{
    match code.names.text(name) {
        Some(text) => "errorString" == text,
        None => false,
    }
}

pub(crate) fn fits_error(types: &Types, of: Option<TypeId>) -> bool
    ensures { result ≡ fits_error types.now of }
{
    match of {
        Some(of) => is_text(types, of),
        None => true,
    }
}

fn is_text(types: &Types, of: TypeId) -> bool
    ensures { result ≡ is_text_term (underlying_term_of types.now of) }
{
    matches!(
        types.underlying_term(of),
        Some(TypeTerm::Basic(Basic::Text))
    )
}
