//! Statements that declare variables. Go specification, "Variable declarations", "Short variable declarations".

use crate::joining::kept;
use crate::walker::{Walker, are_values};
use go_ast::Token;
use go_base::{NameId, NoMemory, Pos, Rule, TypeId, VarId};
use go_names::{Entity, Mention, Mentioned};
use go_syntax::{Expr, ListedExpr, ListedName, ValueSpec};
use go_tree::{DefineTarget, TypedStmt, Values};
use indexmap::IndexSet;
use typed_parts::{beside, only};
use typed_primaries::{Into, Listed, values_into};

/// A name on the left of `:=`.
#[derive(Clone, Copy)]
pub enum Left {
    Blank,
    /// A variable of the innermost block.
    Old(VarId),
    New(Token),
    /// What is no new name and no variable.
    Broken,
}

/// The left side of `:=`.
#[derive(Drop)]
pub struct Lefts {
    pub names: Vec<Left>,
    /// Whether each side is a bare name.
    pub are_names: bool,
    /// Whether one is new and not `_`.
    pub any_new: bool,
    pub is_sound: bool,
}

/// A short variable declaration whose values are seen, and whose names are not declared yet.
#[derive(Drop)]
pub struct Defining {
    pub at: Pos,
    pub lefts: Lefts,
    pub listed: Listed,
    pub is_sound: bool,
}

/// A specification of variables whose values are seen, and whose names are not declared yet.
#[derive(Drop)]
pub struct Specified {
    /// The written type, where it is sound; outside None where there is none.
    pub form: Option<Option<TypeId>>,
    pub listed: Option<Listed>,
}

/// The variables that a specification declares.
#[derive(Drop)]
struct SpecNames {
    variables: Vec<VarId>,
    /// Whether the written type is sound, and each name is new in its block.
    is_sound: bool,
}

impl<'s> Walker<'s> {
    /// The values of `:=`, and what is on its left.
    pub fn see_define(
        &mut self,
        at: Pos,
        targets: &[ListedExpr],
        values: &[ListedExpr],
    ) -> Result<Defining, NoMemory> {
        let lefts = self.lefts(targets)?;
        let (values, lefts) = beside(self.see_list(values), lefts)?;
        let mut is_sound = lefts.is_sound;
        if are_values(&values) && !(lefts.are_names && lefts.any_new) {
            self.report(at, Rule::NoNewVariable);
            is_sound = false;
        }
        let intos = self.intos_of_lefts(lefts.names.as_slice());
        let (intos, (values, lefts)) = beside(intos, (values, lefts))?;
        let listed = values_into(self.scope.ground(), at, values, &intos, true);
        let (listed, lefts) = beside(listed, lefts)?;
        Ok(Defining {
            at,
            lefts,
            listed,
            is_sound,
        })
    }

    /// What is on the left of `:=`.
    pub fn lefts(&mut self, targets: &[ListedExpr]) -> Result<Lefts, NoMemory> {
        let mut lefts = Lefts {
            names: Vec::new(self.alloc),
            are_names: true,
            any_new: false,
            is_sound: true,
        };
        let mut earlier = IndexSet::new(self.alloc);
        let done = self.add_lefts(&mut lefts, &mut earlier, targets);
        drop(earlier);
        kept(lefts, done)
    }

    fn add_lefts(
        &mut self,
        lefts: &mut Lefts,
        earlier: &mut IndexSet<NameId>,
        targets: &[ListedExpr],
    ) -> Result<(), NoMemory> {
        for target in targets {
            self.add_left(lefts, earlier, &target.expr)?;
        }
        Ok(())
    }

    fn add_left(
        &mut self,
        lefts: &mut Lefts,
        earlier: &mut IndexSet<NameId>,
        expr: &Expr,
    ) -> Result<(), NoMemory> {
        let Expr::Name(token) = expr else {
            lefts.are_names = false;
            lefts.is_sound = false;
            lefts.names.push(Left::Broken)?;
            return Ok(());
        };
        let left = self.left(earlier, *token)?;
        match left {
            Left::New(_) => lefts.any_new = true,
            Left::Broken => lefts.is_sound = false,
            _ => {}
        }
        lefts.names.push(left)?;
        Ok(())
    }

    /// What a name on the left of `:=` is, behind other names.
    fn left(&mut self, earlier: &mut IndexSet<NameId>, token: Token) -> Result<Left, NoMemory> {
        let name = self.name(token)?;
        if name == self.scope.blank() {
            return Ok(Left::Blank);
        }
        let at = self.at(token);
        if !earlier.insert(name)? {
            self.report(at, Rule::RedeclaredInThisBlock);
            return Ok(Left::Broken);
        }
        match self.scope.found_in_block(self.sources, token) {
            None => Ok(Left::New(token)),
            Some(Entity::Variable(variable)) => {
                self.scope.mention(Mention {
                    at,
                    what: Mentioned::Variable(variable),
                    assigned: true,
                })?;
                Ok(Left::Old(variable))
            }
            Some(_) => {
                self.report(at, Rule::CannotAssign);
                Ok(Left::Broken)
            }
        }
    }

    fn intos_of_lefts(&mut self, lefts: &[Left]) -> Result<Vec<Into>, NoMemory> {
        let mut intos = Vec::new(self.alloc);
        for left in lefts {
            intos.push(match left {
                Left::Old(variable) => self.into_variable(*variable),
                _ => Into::Any,
            })?;
        }
        Ok(intos)
    }

    /// Where a value of a variable goes.
    fn into_variable(&self, variable: VarId) -> Into {
        if !self.scope.is_sound(variable) {
            return Into::Unsound;
        }
        match self.scope.variable(variable) {
            Some(variable) => Into::Type(variable.of),
            None => Into::Unsound,
        }
    }

    /// The names of `:=` are in scope from here on.
    pub fn finish_define(&mut self, defining: Defining) -> Result<Option<TypedStmt>, NoMemory> {
        let Defining {
            at,
            lefts,
            listed,
            is_sound,
        } = defining;
        let Listed { values, types } = listed;
        let targets = self.declare_lefts(lefts.names.as_slice(), types.as_slice());
        let (targets, values) = beside(targets, values)?;
        match only(values, is_sound) {
            Some(values) => Ok(Some(TypedStmt::Define {
                at,
                targets,
                values,
            })),
            None => Ok(None),
        }
    }

    /// Declares the new ones among the names on the left, with their types.
    pub fn declare_lefts(
        &mut self,
        lefts: &[Left],
        types: &[Option<TypeId>],
    ) -> Result<Vec<DefineTarget>, NoMemory> {
        let mut targets = Vec::new(self.alloc);
        for (index, left) in lefts.iter().enumerate() {
            let of = types.get(index).copied().flatten();
            let target = match left {
                Left::New(token) => DefineTarget::New(self.declare(*token, of)?),
                Left::Old(variable) => DefineTarget::Old(*variable),
                Left::Blank | Left::Broken => DefineTarget::Blank,
            };
            targets.push(target)?;
        }
        Ok(targets)
    }

    /// A variable of the innermost block, which has to be used; unsound where it has no type.
    pub fn declare(&mut self, token: Token, of: Option<TypeId>) -> Result<VarId, NoMemory> {
        let name = self.name(token)?;
        let at = self.at(token);
        let variable = self.scope.add_named(name, at, of)?;
        if name != self.scope.blank() {
            let need = self.needs.add_name(at, self.scope.package())?;
            self.needs.add_variable(variable, need)?;
        }
        Ok(variable)
    }

    /// The type and the values of a specification of variables.
    pub fn see_spec(&mut self, spec: &ValueSpec) -> Result<Specified, NoMemory> {
        let form = match &spec.form {
            Some(form) => Some(self.see_type(form)?),
            None => None,
        };
        if spec.values.is_empty() {
            return Ok(Specified { form, listed: None });
        }
        let into = match form {
            None => Into::Any,
            Some(Some(of)) => Into::Type(of),
            Some(None) => Into::Unsound,
        };
        let mut intos = Vec::new(self.alloc);
        for _ in &spec.names {
            intos.push(into)?;
        }
        let values = self.see_list(&spec.values)?;
        let at = match values.first() {
            Some(first) => first.at,
            None => self.pos(0),
        };
        let listed = values_into(self.scope.ground(), at, values, &intos, true)?;
        Ok(Specified {
            form,
            listed: Some(listed),
        })
    }

    /// The names of a specification of variables are in scope from here on.
    pub fn finish_spec(
        &mut self,
        at: Pos,
        names: &[ListedName],
        specified: Specified,
    ) -> Result<Option<TypedStmt>, NoMemory> {
        let Specified { form, listed } = specified;
        let declared = self.declare_spec(names, form, &listed);
        let (declared, listed) = beside(declared, listed)?;
        let variables = declared.variables;
        match only(Some(listed), declared.is_sound) {
            None => Ok(None),
            Some(None) => Ok(Some(TypedStmt::Var {
                at,
                variables,
                values: None,
            })),
            Some(Some(listed)) => Ok(var_with(at, variables, listed.values)),
        }
    }

    /// Declares the names of a specification of variables.
    fn declare_spec(
        &mut self,
        names: &[ListedName],
        form: Option<Option<TypeId>>,
        listed: &Option<Listed>,
    ) -> Result<SpecNames, NoMemory> {
        let mut declared = SpecNames {
            variables: Vec::new(self.alloc),
            is_sound: form != Some(None),
        };
        for (index, name) in names.iter().enumerate() {
            let of = match form {
                Some(of) => of,
                None => type_at(listed, index),
            };
            if self.is_taken(name.name)? {
                self.report(self.at(name.name), Rule::RedeclaredInThisBlock);
                declared.is_sound = false;
            } else {
                declared.variables.push(self.declare(name.name, of)?)?;
            }
        }
        Ok(declared)
    }

    /// Whether the innermost block has a name, which is not `_`.
    fn is_taken(&mut self, token: Token) -> Result<bool, NoMemory> {
        let name = self.name(token)?;
        Ok(self.scope.is_taken(name))
    }
}

/// The type that the value of the variable of a number has.
fn type_at(listed: &Option<Listed>, index: usize) -> Option<TypeId> {
    match listed {
        Some(listed) => listed.types.get(index).copied().flatten(),
        None => None,
    }
}

/// Variables with values, where these are sound.
fn var_with(at: Pos, variables: Vec<VarId>, values: Option<Values>) -> Option<TypedStmt> {
    let values = values?;
    Some(TypedStmt::Var {
        at,
        variables,
        values: Some(values),
    })
}
