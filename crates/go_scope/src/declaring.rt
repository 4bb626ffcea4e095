//! Types that are declared in bodies. Go specification, "Type declarations".

use crate::error::lost;
use crate::own::Own;
use crate::scope::Scope;
use go_base::{NameId, NoMemory, Pos, Rule, TypeId};
use go_tree::DeclaredType;
use go_type::TypeName;

impl Scope {
    /// A new local type, whose name stands at a place.
    pub fn declare_type(&mut self, at: Pos, name: NameId) -> Result<TypeId, NoMemory> {
        let Some(number) = self.local_types.number(at) else {
            return Err(lost());
        };
        let name = TypeName {
            name,
            package: self.package,
            number,
        };
        if self.ground.types.is_declared(name) {
            return Err(lost());
        }
        let id = self.ground.types.declare(name)?;
        let function = self.extents.innermost(at);
        self.declared.push(DeclaredType { id, at, function })?;
        Ok(id)
    }

    /// What a declaration declares, where that is sound: its type is defined, and what waited for that is asked.
    pub fn settle_type(
        &mut self,
        at: Pos,
        id: Option<TypeId>,
        of: Option<TypeId>,
        own: &Option<Own>,
    ) -> Result<Option<TypeId>, NoMemory> {
        if self.ground.least.fault.is_some() {
            return Ok(None);
        }
        if let Some(own) = own {
            if self.is_cyclic(at, own) {
                return Ok(None);
            }
        }
        let Some(of) = of else {
            return Ok(None);
        };
        let Some(id) = id else {
            return Ok(Some(of));
        };
        self.define(id, of)?;
        let is_sound = match own {
            Some(own) => self.ask_all(own.later.as_slice())?,
            None => true,
        };
        if is_sound { Ok(Some(id)) } else { Ok(None) }
    }

    /// Whether a type stands on itself where it may not: N7, N12 at its name.
    fn is_cyclic(&mut self, at: Pos, own: &Own) -> bool {
        if own.is_recursive {
            self.report(at, Rule::InvalidRecursiveType);
        }
        if own.is_in_length {
            self.report(at, Rule::DeclarationRefersToItself);
        }
        own.is_recursive || own.is_in_length
    }

    fn define(&mut self, id: TypeId, of: TypeId) -> Result<(), NoMemory> {
        let underlying = self.ground.types.underlying(of);
        if !self.ground.types.can_define(id, underlying) {
            return Err(lost());
        }
        self.ground.types.define(id, underlying);
        Ok(())
    }
}
