//! What is asked of types once they are known: keys, embedded types, sizes. Go specification, "Map types", "Struct types".

use crate::own::{Asking, Later};
use crate::scope::Scope;
use go_base::{NoMemory, Pos, Rule, TypeId};
use go_type::{TypeTerm, comparable};

impl Scope {
    /// How often the name of the local type that is declared was met where it may stand.
    pub fn own_mentions(&self) -> u64 {
        match &self.own {
            Some(own) => own.mentions,
            None => 0,
        }
    }

    /// Begins or ends the length of an array; whether one was read before.
    pub fn enter_length(&mut self, in_length: bool) -> bool {
        match &mut self.own {
            Some(own) => {
                let before = own.in_length;
                own.in_length = in_length;
                before
            }
            None => false,
        }
    }

    /// Asks something of a part that began when so many names of the local type that is declared were met: at once, or
    /// where one was met in it once the type is defined. None where it is not sound.
    pub fn asked(
        &mut self,
        at: Pos,
        of: Option<TypeId>,
        asking: Asking,
        before: u64,
    ) -> Result<Option<TypeId>, NoMemory> {
        let Some(of) = of else {
            return Ok(None);
        };
        if self.own_mentions() != before {
            self.ask_later(Later { at, asking, of })?;
            return Ok(Some(of));
        }
        if self.is_kept(at, asking, of)? {
            Ok(Some(of))
        } else {
            Ok(None)
        }
    }

    fn ask_later(&mut self, later: Later) -> Result<(), NoMemory> {
        match &mut self.own {
            Some(own) => own.ask(later),
            None => Ok(()),
        }
    }

    /// Whether what is asked of a type holds; else the rule is reported at the place.
    fn is_kept(&mut self, at: Pos, asking: Asking, of: TypeId) -> Result<bool, NoMemory> {
        let broken = match asking {
            Asking::Size => return self.ground.within_limits(at, of),
            Asking::Key if comparable(&self.ground.types, of) => None,
            Asking::Key => Some(Rule::MapKeyNotComparable),
            Asking::Embedded if !self.is_pointer(of) => None,
            Asking::EmbeddedPointer if !self.is_pointer(of) && !self.is_interface(of) => None,
            Asking::Embedded | Asking::EmbeddedPointer => Some(Rule::BadEmbeddedType),
            Asking::Broken(rule) => Some(rule),
        };
        match broken {
            Some(rule) => {
                self.report(at, rule);
                Ok(false)
            }
            None => Ok(true),
        }
    }

    fn is_pointer(&self, of: TypeId) -> bool {
        matches!(
            self.ground.types.underlying_term(of),
            Some(TypeTerm::Pointer(_))
        )
    }

    fn is_interface(&self, of: TypeId) -> bool {
        matches!(
            self.ground.types.underlying_term(of),
            Some(TypeTerm::Interface(_))
        )
    }

    /// Asks what was to be asked once the type is defined, from the inside to the outside: what holds a part that is not
    /// sound is not asked. Whether all of it holds.
    pub(crate) fn ask_all(&mut self, later: &[Later]) -> Result<bool, NoMemory> {
        let mut last_broken: Option<Pos> = None;
        for ask in later {
            let holds_broken = match last_broken {
                Some(at) => ask.at <= at,
                None => false,
            };
            if !holds_broken && !self.is_kept(ask.at, ask.asking, ask.of)? {
                last_broken = Some(match last_broken {
                    Some(at) => at.max(ask.at),
                    None => ask.at,
                });
            }
        }
        Ok(last_broken.is_none())
    }
}
