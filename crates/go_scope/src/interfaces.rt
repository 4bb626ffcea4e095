//! Methods of interfaces. Go specification, "Interface types".

use crate::own::{Asking, Later, Position};
use crate::scope::Scope;
use crate::structs::ends;
use go_ast::Token;
use go_base::{NameId, NoMemory, Pos, Rule, TypeId};
use go_sources::SourceFile;
use go_syntax::NamedType;
use go_type::{MethodType, MethodTypes, TypeTerm};
use indexmap::IndexSet;
use std::alloc::Global;
use std::collections::BTreeMap;

/// The name of a method, in the order of the methods of an interface.
#[derive(Clone, Copy, PartialEq, Eq, PartialOrd, Ord)]
struct MethodName {
    name: NameId,
    package: u32,
}

/// What brings a method.
#[derive(Clone, Copy)]
struct Brought {
    /// Its type, where that is sound.
    of: Option<TypeId>,
    /// Whether an element brings it that is no embedded interface.
    is_written: bool,
}

/// The elements of an interface that were seen so far.
#[derive(Drop)]
pub struct Elements {
    methods: BTreeMap<MethodName, Brought>,
    /// The interfaces that are embedded.
    embedded: IndexSet<TypeId>,
    has_unsound_embedded: bool,
    is_unsound: bool,
    alloc: Global,
}

impl Elements {
    /// None.
    pub fn new(alloc: Global) -> Elements {
        Elements {
            methods: BTreeMap::new(alloc),
            embedded: IndexSet::new(alloc),
            has_unsound_embedded: false,
            is_unsound: false,
            alloc,
        }
    }

    /// A method: N6 at a name that stands before, at `_`, and where an embedded interface has it with another type.
    pub fn add_method(
        &mut self,
        source: &SourceFile,
        scope: &mut Scope,
        token: Token,
        of: Option<TypeId>,
        before: u64,
    ) -> Result<(), NoMemory> {
        let at = scope.pos(token.start);
        let (name, package) = scope.named_in_package(source, token)?;
        if of.is_none() {
            self.is_unsound = true;
        }
        if name == scope.blank() {
            self.refuse(scope, at);
            return Ok(());
        }
        let key = MethodName { name, package };
        match self.methods.get(&key).copied() {
            Some(other) if other.is_written => self.refuse(scope, at),
            Some(other) => {
                if differ(other.of, of) {
                    self.refuse_at(scope, at, before)?;
                }
            }
            None => {}
        }
        self.methods.insert(
            key,
            Brought {
                of,
                is_written: true,
            },
        )?;
        Ok(())
    }

    /// An embedded interface: N8, and N6 where another element has one of its methods with another type.
    pub fn add_embedded(
        &mut self,
        source: &SourceFile,
        scope: &mut Scope,
        name: NamedType,
    ) -> Result<(), NoMemory> {
        let (first, _) = ends(name);
        let at = scope.pos(first.start);
        if scope.embeds_own(source, name)? {
            self.has_unsound_embedded = true;
            self.is_unsound = true;
            return Ok(());
        }
        let of = scope.named(source, name, Position::Apart)?;
        let Some(methods) = self.methods_of(scope, at, of)? else {
            self.has_unsound_embedded = true;
            self.is_unsound = true;
            return Ok(());
        };
        self.add_all(scope, at, methods.as_slice())
    }

    /// The methods of an embedded type; none of one that is embedded again. None where it is no interface.
    fn methods_of(
        &mut self,
        scope: &mut Scope,
        at: Pos,
        of: Option<TypeId>,
    ) -> Result<Option<MethodTypes>, NoMemory> {
        let Some(of) = of else {
            return Ok(None);
        };
        let under = scope.ground.types.underlying(of);
        let is_new = !self.embedded.contains(&under);
        let methods = match scope.ground.types.get(under) {
            Some(TypeTerm::Interface(methods)) if is_new => methods.copy(self.alloc)?,
            Some(TypeTerm::Interface(_)) => MethodTypes::new(self.alloc),
            _ => {
                scope.report(at, Rule::BadEmbeddedType);
                return Ok(None);
            }
        };
        self.embedded.insert(under)?;
        Ok(Some(methods))
    }

    fn add_all(
        &mut self,
        scope: &mut Scope,
        at: Pos,
        methods: &[MethodType],
    ) -> Result<(), NoMemory> {
        for method in methods {
            let key = MethodName {
                name: method.name,
                package: method.package,
            };
            match self.methods.get(&key).copied() {
                Some(other) => {
                    if differ(other.of, Some(method.of)) && !self.has_unsound_embedded {
                        self.refuse(scope, at);
                    }
                }
                None => {
                    self.methods.insert(
                        key,
                        Brought {
                            of: Some(method.of),
                            is_written: false,
                        },
                    )?;
                }
            }
        }
        Ok(())
    }

    fn refuse(&mut self, scope: &mut Scope, at: Pos) {
        scope.report(at, Rule::DuplicateFieldOrMethod);
        self.is_unsound = true;
    }

    /// Refuses a method whose type stands on the embedded interfaces before it, and perhaps on the type that is declared.
    fn refuse_at(&mut self, scope: &mut Scope, at: Pos, before: u64) -> Result<(), NoMemory> {
        if self.has_unsound_embedded {
            return Ok(());
        }
        self.is_unsound = true;
        scope.report_node(at, Rule::DuplicateFieldOrMethod, before)
    }

    /// The type of the interface, where it is sound.
    pub fn finish(self, scope: &mut Scope) -> Result<Option<TypeId>, NoMemory> {
        if self.is_unsound {
            drop(self);
            return Ok(None);
        }
        let list = self.listed();
        drop(self);
        scope.held_term(Some(TypeTerm::Interface(list?)))
    }

    /// The methods, in order.
    fn listed(&self) -> Result<MethodTypes, NoMemory> {
        let mut list = MethodTypes::new(self.alloc);
        for (key, brought) in self.methods.iter() {
            if let Some(of) = brought.of {
                list.push(MethodType {
                    name: key.name,
                    package: key.package,
                    of,
                })?;
            }
        }
        Ok(list)
    }
}

/// Whether two types are sound and differ.
fn differ(a: Option<TypeId>, b: Option<TypeId>) -> bool {
    match (a, b) {
        (Some(a), Some(b)) => a != b,
        _ => false,
    }
}

impl Scope {
    /// Whether the local type that is declared is embedded in an interface, where it may not stand.
    fn embeds_own(&mut self, source: &SourceFile, name: NamedType) -> Result<bool, NoMemory> {
        let NamedType::Local(token) = name else {
            return Ok(false);
        };
        if !self.is_own_token(source, token)? {
            return Ok(false);
        }
        if let Some(own) = &mut self.own {
            own.mention_embedded();
        }
        Ok(true)
    }

    /// Reports a broken rule at a node that began when so many names of the local type that is declared were met. Where one
    /// was met in it the rule counts only once the type is defined.
    fn report_node(&mut self, at: Pos, rule: Rule, before: u64) -> Result<(), NoMemory> {
        if self.own_mentions() == before {
            self.report(at, rule);
            return Ok(());
        }
        let of = self.ground.types.error();
        if let Some(own) = &mut self.own {
            own.ask(Later {
                at,
                asking: Asking::Broken(rule),
                of,
            })?;
        }
        Ok(())
    }
}
