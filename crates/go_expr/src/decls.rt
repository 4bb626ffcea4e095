//! Declarations of constants and types in bodies. Go specification, "Constant declarations", "Type declarations".

use crate::constants::see_specs;
use crate::types::see_type;
use go_base::{NoMemory, Rule};
use go_faults::Least;
use go_names::Entity;
use go_scope::{Own, Position, Scope};
use go_sources::SourceFile;
use go_syntax::{Decl, TypeSpec};
use std::alloc::Global;

/// Holds the constants or types of a declaration; each row that is broken in it is reported.
pub(crate) fn see_decl_in(
    alloc: Global,
    source: &SourceFile,
    scope: &mut Scope,
    decl: &Decl,
) -> Result<(), NoMemory> {
    match decl {
        Decl::Const { specs, .. } => see_specs(alloc, source, scope, specs.as_slice()),
        Decl::TypeDecl { specs, .. } => {
            for spec in specs.as_slice() {
                see_type_spec(alloc, source, scope, spec)?;
            }
            Ok(())
        }
        Decl::Var { .. } | Decl::Func(_) => Ok(()),
    }
}

/// A type declaration: N1 at its name; the rows of its type; N7, N12 at its name.
fn see_type_spec(
    alloc: Global,
    source: &SourceFile,
    scope: &mut Scope,
    spec: &TypeSpec,
) -> Result<(), NoMemory> {
    let at = scope.pos(spec.name.start);
    let name = scope.interned(source, spec.name)?;
    let is_taken = scope.is_taken(name);
    if is_taken {
        scope.report(at, Rule::RedeclaredInThisBlock);
    }
    let id = match spec.assign {
        Some(_) => None,
        None => Some(scope.declare_type(at, name)?),
    };
    let is_named = !is_taken && name != scope.blank();
    if is_named {
        // what its own name stands for while its type is read is asked of `own`
        scope.bind(name, Entity::Unsound)?;
        scope.begin_own(Own::new(alloc, name, id));
    }
    let before = scope.set_least(Least::new());
    let of = see_type(alloc, source, scope, &spec.form, Position::Whole)?;
    let own = scope.end_own();
    let declared = scope.settle_type(at, id, of, &own);
    drop(own);
    let declared = declared?;
    let found = scope.set_least(before);
    if let Some(fault) = found.fault {
        scope.ground().least.report(fault);
    }
    match declared {
        Some(of) if is_named => scope.put(name, Entity::TypeName(of)),
        _ => Ok(()),
    }
}
