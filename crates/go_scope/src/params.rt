//! Parameters and results. Go specification, "Function types".

use crate::scope::Scope;
use go_base::{NameId, NoMemory, Rule, TypeId};
use go_sources::SourceFile;
use go_syntax::Param;
use go_type::{Signature, TypeIds, TypeTerm};
use indexmap::IndexSet;
use std::alloc::Global;
use typed_parts::only;

/// The parameters and results of a function that were seen so far.
#[derive(Drop)]
pub struct ParamTypes {
    names: IndexSet<NameId>,
    params: TypeIds,
    results: TypeIds,
    variadic: bool,
    /// Whether results are read.
    in_results: bool,
    /// Whether a type is unsound, or a name stands twice.
    is_unsound: bool,
}

impl ParamTypes {
    /// None.
    pub fn new(alloc: Global) -> ParamTypes {
        ParamTypes {
            names: IndexSet::new(alloc),
            params: TypeIds::new(alloc),
            results: TypeIds::new(alloc),
            variadic: false,
            in_results: false,
            is_unsound: false,
        }
    }

    /// What follows are results.
    pub fn begin_results(&mut self) {
        self.in_results = true;
    }

    /// Parameters or results of one type: N1 at a name that stands before.
    pub fn add(
        &mut self,
        source: &SourceFile,
        scope: &mut Scope,
        param: &Param,
        of: Option<TypeId>,
    ) -> Result<(), NoMemory> {
        let of = match (param.ellipsis, of) {
            (Some(_), Some(of)) => {
                self.variadic = true;
                Some(scope.hold(TypeTerm::Slice(of))?)
            }
            _ => of,
        };
        if param.names.is_empty() {
            return self.add_unnamed(of);
        }
        for listed in param.names.as_slice() {
            let name = scope.interned(source, listed.name)?;
            if name != scope.blank() && self.names.contains(&name) {
                let at = scope.pos(listed.name.start);
                scope.report(at, Rule::RedeclaredInThisBlock);
                self.is_unsound = true;
            }
            self.names.insert(name)?;
            self.add_unnamed(of)?;
        }
        Ok(())
    }

    /// A parameter or result, whatever its name.
    pub fn add_unnamed(&mut self, of: Option<TypeId>) -> Result<(), NoMemory> {
        let Some(of) = of else {
            self.is_unsound = true;
            return Ok(());
        };
        if self.in_results {
            self.results.push(of)
        } else {
            self.params.push(of)
        }
    }

    /// The type of the function, where it is sound.
    pub fn finish(self, scope: &mut Scope) -> Result<Option<TypeId>, NoMemory> {
        let ParamTypes {
            names,
            params,
            results,
            variadic,
            in_results: _,
            is_unsound,
        } = self;
        drop(names);
        let term = TypeTerm::Func(Signature {
            params,
            results,
            variadic,
        });
        scope.held_term(only(Some(term), !is_unsound))
    }
}
