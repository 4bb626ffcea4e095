//! Types by their names and terms, as they stand where types are written. Go specification, "Types".

use crate::own::{Asking, Position};
use crate::scope::Scope;
use go_base::{NoMemory, Pos, TypeId};
use go_places::type_start;
use go_sources::SourceFile;
use go_syntax::{NamedType, TypeExpr};
use go_type::TypeTerm;

impl Scope {
    /// The place of a type.
    pub fn type_place(&self, form: &TypeExpr) -> Pos {
        self.pos(type_start(form))
    }

    /// A name of a type, of this package or of an imported one.
    pub fn named(
        &mut self,
        source: &SourceFile,
        name: NamedType,
        position: Position,
    ) -> Result<Option<TypeId>, NoMemory> {
        match name {
            NamedType::Local(token) => self.type_named(source, token, position),
            NamedType::Imported { package, name, .. } => self.type_imported(source, package, name),
        }
    }

    /// The id of a type, where its parts are sound.
    pub fn held_term(&mut self, term: Option<TypeTerm>) -> Result<Option<TypeId>, NoMemory> {
        match term {
            Some(term) => Ok(Some(self.ground.hold(term)?)),
            None => Ok(None),
        }
    }

    /// A type as it is written, which began when so many names of the local type that is declared were met: N11.
    pub fn limited(
        &mut self,
        at: Pos,
        of: Option<TypeId>,
        before: u64,
    ) -> Result<Option<TypeId>, NoMemory> {
        self.asked(at, of, Asking::Size, before)
    }
}
