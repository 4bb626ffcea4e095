//! What names mean where they stand in expressions and types. Go specification, "Declarations and scope", "Qualified
//! identifiers".

use crate::own::Position;
use crate::scope::Scope;
use crate::text::text_of;
use go_ast::Token;
use go_base::{FuncId, NameId, NoMemory, Pos, Rule, TypeId, VarId};
use go_names::{Entity, ImportOf, Mention, Mentioned};
use go_scan::is_exported;
use go_sources::SourceFile;
use go_type::{Basic, Const, EXPORTED, basic};
use typed_parts::{Meaning, Seen, constant, function, iota, nil, variable};

impl Scope {
    /// A name in an expression.
    pub fn see_name(&mut self, source: &SourceFile, token: Token) -> Result<Seen, NoMemory> {
        let at = self.pos(token.start);
        let meaning = self.identifier(at, text_of(source, token)?)?;
        Ok(Seen { at, meaning })
    }

    fn identifier(&mut self, at: Pos, text: &str) -> Result<Option<Meaning>, NoMemory> {
        if text == "_" {
            self.report(at, Rule::WrongKindOfName);
            return Ok(None);
        }
        let Some(name) = self.names.find(text) else {
            self.report(at, Rule::Undefined);
            return Ok(None);
        };
        if self.is_own(name) {
            return Ok(self.mention_own(Position::Apart));
        }
        let Some(entity) = self.look_up(name) else {
            self.report(at, Rule::Undefined);
            return Ok(None);
        };
        self.meaning_of(at, entity)
    }

    /// What a name means that stands for something.
    fn meaning_of(&mut self, at: Pos, entity: Entity) -> Result<Option<Meaning>, NoMemory> {
        match entity {
            Entity::Constant(number) => self.meaning_of_constant(at, number),
            Entity::Truth(truth) => self.meaning_of_truth(at, truth),
            Entity::TypeName(of) => Ok(Some(Meaning::Type(of))),
            Entity::Variable(var) => self.meaning_of_variable(at, var),
            Entity::Function(id) => self.meaning_of_function(at, id),
            Entity::Import(_) => {
                self.report(at, Rule::WrongKindOfName);
                Ok(None)
            }
            Entity::Builtin(builtin) => Ok(Some(Meaning::Builtin(builtin))),
            Entity::Iota => Ok(self.meaning_of_iota(at)),
            Entity::Nil => Ok(Some(Meaning::Value(nil(at)))),
            Entity::Unsound => Ok(None),
        }
    }

    fn meaning_of_constant(&self, at: Pos, number: u64) -> Result<Option<Meaning>, NoMemory> {
        match self.constants.get(number) {
            Some(found) => {
                let expr = constant(self.alloc, at, found.of, &found.value)?;
                Ok(Some(Meaning::Value(expr)))
            }
            None => Ok(None),
        }
    }

    fn meaning_of_truth(&self, at: Pos, truth: bool) -> Result<Option<Meaning>, NoMemory> {
        let of = basic(Basic::UntypedBool);
        let value = Const::Truth(truth);
        let expr = constant(self.alloc, at, of, &value);
        drop(value);
        Ok(Some(Meaning::Value(expr?)))
    }

    fn meaning_of_variable(&mut self, at: Pos, var: VarId) -> Result<Option<Meaning>, NoMemory> {
        self.mention_of(at, Mentioned::Variable(var))?;
        if !self.is_sound(var) {
            return Ok(None);
        }
        match self.variable(var) {
            Some(found) => Ok(Some(Meaning::Value(variable(at, var, found.of)))),
            None => Ok(None),
        }
    }

    fn meaning_of_function(&mut self, at: Pos, id: FuncId) -> Result<Option<Meaning>, NoMemory> {
        self.mention_of(at, Mentioned::Function(id))?;
        match self.function(id) {
            Some(found) => Ok(Some(Meaning::Value(function(at, id, found.signature)))),
            None => Ok(None),
        }
    }

    fn meaning_of_iota(&mut self, at: Pos) -> Option<Meaning> {
        match self.iota {
            Some(number) => Some(Meaning::Value(iota(at, number))),
            None => {
                self.report(at, Rule::Undefined);
                None
            }
        }
    }

    /// Notes that something is read at a place.
    pub fn mention_of(&mut self, at: Pos, what: Mentioned) -> Result<(), NoMemory> {
        self.mention(Mention {
            at,
            what,
            assigned: false,
        })?;
        Ok(())
    }

    /// Whether a name is that of the local type that is declared.
    fn is_own(&self, name: NameId) -> bool {
        match &self.own {
            Some(own) => own.name == name,
            None => false,
        }
    }

    fn mention_own(&mut self, position: Position) -> Option<Meaning> {
        match &mut self.own {
            Some(own) => match own.mention(position) {
                Some(of) => Some(Meaning::Type(of)),
                None => None,
            },
            None => None,
        }
    }

    /// The import that a name of an expression stands for.
    pub fn import_named(
        &self,
        source: &SourceFile,
        token: Token,
    ) -> Result<Option<ImportOf>, NoMemory> {
        let text = text_of(source, token)?;
        let Some(name) = self.names.find(text) else {
            return Ok(None);
        };
        if text == "_" || self.is_own(name) {
            return Ok(None);
        }
        Ok(self.import(name))
    }

    /// `p.name` in an expression, where `p` is an import that stands at a place.
    pub fn see_qualified(
        &mut self,
        source: &SourceFile,
        at: Pos,
        import: ImportOf,
        token: Token,
    ) -> Result<Seen, NoMemory> {
        let meaning = match self.qualified(source, at, import, token)? {
            Some(entity) => self.meaning_of(at, entity)?,
            None => None,
        };
        Ok(Seen { at, meaning })
    }

    /// What `p.name` stands for. N2 at the name where the package does not export it.
    fn qualified(
        &mut self,
        source: &SourceFile,
        at: Pos,
        import: ImportOf,
        token: Token,
    ) -> Result<Option<Entity>, NoMemory> {
        self.mention_of(
            at,
            Mentioned::Import {
                file: self.file,
                index: import.index,
            },
        )?;
        let text = text_of(source, token)?;
        let found = match self.names.find(text) {
            Some(name) if is_exported(text.as_bytes()) => {
                self.package_blocks.find(import.package, name)
            }
            _ => None,
        };
        if found.is_none() {
            let name_at = self.pos(token.start);
            self.report(name_at, Rule::Undefined);
        }
        Ok(found)
    }

    // ---- names of types

    /// A name where a type stands.
    pub(crate) fn type_named(
        &mut self,
        source: &SourceFile,
        token: Token,
        position: Position,
    ) -> Result<Option<TypeId>, NoMemory> {
        let at = self.pos(token.start);
        let text = text_of(source, token)?;
        if text == "_" {
            self.report(at, Rule::WrongKindOfName);
            return Ok(None);
        }
        let Some(name) = self.names.find(text) else {
            self.report(at, Rule::Undefined);
            return Ok(None);
        };
        if self.is_own(name) {
            return Ok(match &mut self.own {
                Some(own) => own.mention(position),
                None => None,
            });
        }
        match self.look_up(name) {
            Some(entity) => Ok(self.type_of_entity(at, entity)),
            None => {
                self.report(at, Rule::Undefined);
                Ok(None)
            }
        }
    }

    /// Whether a token is the name of the local type that is declared.
    pub(crate) fn is_own_token(&self, source: &SourceFile, token: Token) -> Result<bool, NoMemory> {
        match self.names.find(text_of(source, token)?) {
            Some(name) => Ok(self.is_own(name)),
            None => Ok(false),
        }
    }

    fn type_of_entity(&mut self, at: Pos, entity: Entity) -> Option<TypeId> {
        match entity {
            Entity::TypeName(of) => Some(of),
            Entity::Unsound => None,
            Entity::Variable(var) if !self.is_sound(var) => None,
            _ => {
                self.report(at, Rule::WrongKindOfName);
                None
            }
        }
    }

    /// `p.name` where a type stands.
    pub(crate) fn type_imported(
        &mut self,
        source: &SourceFile,
        package: Token,
        token: Token,
    ) -> Result<Option<TypeId>, NoMemory> {
        let at = self.pos(package.start);
        if let Some(import) = self.import_named(source, package)? {
            return match self.qualified(source, at, import, token)? {
                Some(entity) => Ok(self.type_of_entity(at, entity)),
                None => Ok(None),
            };
        }
        let text = text_of(source, package)?;
        let entity = match self.names.find(text) {
            Some(name) => self.look_up(name),
            None => None,
        };
        match entity {
            _ if text == "_" => self.report(at, Rule::WrongKindOfName),
            None => self.report(at, Rule::Undefined),
            Some(Entity::Unsound) => {}
            Some(Entity::Variable(var)) if !self.is_sound(var) => {}
            Some(_) => self.report(at, Rule::WrongKindOfName),
        }
        Ok(None)
    }

    /// A name that is declared.
    pub fn interned(&mut self, source: &SourceFile, token: Token) -> Result<NameId, NoMemory> {
        let name = self.names.intern(text_of(source, token)?)?;
        Ok(name)
    }

    /// A name that is declared, and the package that it is of: `EXPORTED` where every package means the same by it.
    pub fn named_in_package(
        &mut self,
        source: &SourceFile,
        token: Token,
    ) -> Result<(NameId, u32), NoMemory> {
        let text = text_of(source, token)?;
        let name = self.names.intern(text)?;
        if is_exported(text.as_bytes()) {
            Ok((name, EXPORTED))
        } else {
            Ok((name, self.package))
        }
    }
}
