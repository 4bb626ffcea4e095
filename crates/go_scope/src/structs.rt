//! Fields of structs. Go specification, "Struct types".

use crate::literals::tag_value;
use crate::own::{Asking, Position};
use crate::scope::Scope;
use go_ast::Token;
use go_base::{NameId, NoMemory, Pos, Rule, TypeId};
use go_sources::SourceFile;
use go_syntax::{ListedName, NamedType};
use go_type::{Field, Fields, TypeTerm};
use indexmap::IndexSet;
use std::alloc::Global;
use typed_parts::only;

/// The fields of a struct that were seen so far.
#[derive(Drop)]
pub struct FieldTypes {
    alloc: Global,
    names: IndexSet<NameId>,
    fields: Fields,
    /// Whether a type is unsound, or a name stands twice.
    is_unsound: bool,
}

impl FieldTypes {
    /// None.
    pub fn new(alloc: Global) -> FieldTypes {
        FieldTypes {
            alloc,
            names: IndexSet::new(alloc),
            fields: Fields::new(alloc),
            is_unsound: false,
        }
    }

    /// Fields of one type: N6 at a name that stands before.
    pub fn add_named(
        &mut self,
        source: &SourceFile,
        scope: &mut Scope,
        names: &[ListedName],
        of: Option<TypeId>,
        tag: Option<Token>,
    ) -> Result<(), NoMemory> {
        for listed in names {
            self.add(source, scope, listed.name, of, false, tag)?;
        }
        Ok(())
    }

    /// `T` or `*T`: N8, and N6 at its name.
    pub fn add_embedded(
        &mut self,
        source: &SourceFile,
        scope: &mut Scope,
        star: Option<Token>,
        name: NamedType,
        tag: Option<Token>,
        position: Position,
    ) -> Result<(), NoMemory> {
        let before = scope.own_mentions();
        let (first, last) = ends(name);
        let position = match star {
            Some(_) => Position::Apart,
            None => position.inside(),
        };
        let named = scope.named(source, name, position)?;
        let (at, asking) = match star {
            Some(star) => (scope.pos(star.start), Asking::EmbeddedPointer),
            None => (scope.pos(first.start), Asking::Embedded),
        };
        let asked = scope.asked(at, named, asking, before)?;
        let of = embedded_type(scope, star, asked)?;
        self.add(source, scope, last, of, true, tag)
    }

    fn add(
        &mut self,
        source: &SourceFile,
        scope: &mut Scope,
        token: Token,
        of: Option<TypeId>,
        embedded: bool,
        tag: Option<Token>,
    ) -> Result<(), NoMemory> {
        let (name, package) = scope.named_in_package(source, token)?;
        let at = scope.pos(token.start);
        self.take_name(scope, at, name)?;
        let Some(of) = of else {
            self.is_unsound = true;
            return Ok(());
        };
        self.fields.push(Field {
            name,
            package,
            of,
            embedded,
            tag: tag_value(self.alloc, source, tag)?,
        })
    }

    fn take_name(&mut self, scope: &mut Scope, at: Pos, name: NameId) -> Result<(), NoMemory> {
        if name == scope.blank() {
            return Ok(());
        }
        if self.names.contains(&name) {
            scope.report(at, Rule::DuplicateFieldOrMethod);
            self.is_unsound = true;
            return Ok(());
        }
        self.names.insert(name)?;
        Ok(())
    }

    /// The type of the struct, where it is sound.
    pub fn finish(self, scope: &mut Scope) -> Result<Option<TypeId>, NoMemory> {
        let FieldTypes {
            alloc: _,
            names,
            fields,
            is_unsound,
        } = self;
        drop(names);
        scope.held_term(only(Some(TypeTerm::Struct(fields)), !is_unsound))
    }
}

/// The first and the last name of a name of a type.
pub(crate) fn ends(name: NamedType) -> (Token, Token) {
    match name {
        NamedType::Local(token) => (token, token),
        NamedType::Imported { package, name, .. } => (package, name),
    }
}

fn embedded_type(
    scope: &mut Scope,
    star: Option<Token>,
    of: Option<TypeId>,
) -> Result<Option<TypeId>, NoMemory> {
    match (star, of) {
        (Some(_), Some(of)) => Ok(Some(scope.hold(TypeTerm::Pointer(of))?)),
        _ => Ok(of),
    }
}
