//! The universe block. Go specification, "Predeclared identifiers".

use crate::entities::Entity;
use go_base::{NameId, Names, NoMemory, TypeId};
use go_type::{Basic, Builtin, MethodTypes, TypeTerm, Types, basic};
use indexmap::IndexMap;
use std::alloc::Global;

/// The names of the predeclared types that are basic.
const BASIC_NAMES: [(&str, Basic); 14] = [
    ("bool", Basic::Bool),
    ("string", Basic::Text),
    ("int", Basic::Int),
    ("int8", Basic::Int8),
    ("int16", Basic::Int16),
    ("int32", Basic::Int32),
    ("int64", Basic::Int64),
    ("uint", Basic::Uint),
    ("uint8", Basic::Uint8),
    ("uint16", Basic::Uint16),
    ("uint32", Basic::Uint32),
    ("uint64", Basic::Uint64),
    ("byte", Basic::Uint8),
    ("rune", Basic::Int32),
];

/// The predeclared functions.
const BUILTINS: [Builtin; 15] = [
    Builtin::Append,
    Builtin::Cap,
    Builtin::Clear,
    Builtin::Close,
    Builtin::Copy,
    Builtin::Delete,
    Builtin::Len,
    Builtin::Make,
    Builtin::Max,
    Builtin::Min,
    Builtin::New,
    Builtin::Panic,
    Builtin::Print,
    Builtin::Println,
    Builtin::Recover,
];

/// What the universe declares.
#[derive(Drop)]
pub struct Universe {
    entities: IndexMap<NameId, Entity>,
    /// The name `_`.
    blank: NameId,
    /// The empty interface.
    any: TypeId,
}

impl Universe {
    /// The predeclared names; `_` is told to the types as the blank name. What is held stays held.
    pub fn new(alloc: Global, names: &mut Names, types: &mut Types) -> Result<Universe, NoMemory> {
        let blank = names.intern("_")?;
        types.set_blank(blank);
        let any = types.hold(TypeTerm::Interface(MethodTypes::new(alloc)))?;
        let mut universe = Universe {
            entities: IndexMap::new(alloc),
            blank,
            any,
        };
        universe.add_types(names, types.error())?;
        universe.add_values(names)?;
        universe.add_functions(names)?;
        Ok(universe)
    }

    fn add(&mut self, names: &mut Names, text: &str, entity: Entity) -> Result<(), NoMemory> {
        let name = names.intern(text)?;
        self.entities.insert(name, entity)?;
        Ok(())
    }

    fn add_types(&mut self, names: &mut Names, error: TypeId) -> Result<(), NoMemory> {
        for (text, kind) in &BASIC_NAMES {
            self.add(names, text, Entity::TypeName(basic(*kind)))?;
        }
        self.add(names, "error", Entity::TypeName(error))?;
        self.add(names, "any", Entity::TypeName(self.any))?;
        Ok(())
    }

    fn add_values(&mut self, names: &mut Names) -> Result<(), NoMemory> {
        self.add(names, "true", Entity::Truth(true))?;
        self.add(names, "false", Entity::Truth(false))?;
        self.add(names, "iota", Entity::Iota)?;
        self.add(names, "nil", Entity::Nil)?;
        Ok(())
    }

    fn add_functions(&mut self, names: &mut Names) -> Result<(), NoMemory> {
        for builtin in &BUILTINS {
            self.add(names, builtin.text(), Entity::Builtin(*builtin))?;
        }
        Ok(())
    }

    /// What a name stands for in the universe. None where it does not declare it.
    pub fn find(&self, name: NameId) -> Option<Entity> {
        self.entities.get(&name).copied()
    }

    /// The name `_`.
    pub fn blank(&self) -> NameId {
        self.blank
    }

    /// The empty interface.
    pub fn any(&self) -> TypeId {
        self.any
    }
}
