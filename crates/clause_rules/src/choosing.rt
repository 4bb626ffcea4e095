//! The tags and cases of switches. Go specification, "Expression switches", "Type switches".

use go_ast::Token;
use go_base::{Bytes, NoMemory, Pos, Rule, TypeId, VarId};
use go_names::Entity;
use go_places::expr_start;
use go_syntax::{Binding, Expr};
use go_tree::{ExprKind, TypeCase, TypedCase, TypedExpr};
use go_type::Const;
use indexmap::IndexSet;
use std::alloc::Global;
use stmt_rules::{Walker, bare_name};
use typed_operators::{case_value, switch_tag, truth_case};
use typed_parts::{beside, one_value};
use typed_primaries::{asserted_case, interface_operand};

/// What the cases of a switch are compared with.
#[derive(Clone, Copy, PartialEq, Eq)]
pub enum Tag {
    /// There is no tag: with `true`.
    Truth,
    /// A tag of a type; None where it is unsound.
    Of(Option<TypeId>),
}

/// A tag, and its type for the cases.
#[derive(Drop)]
pub struct SeenTag {
    pub tag: Tag,
    pub expr: Option<TypedExpr>,
}

impl SeenTag {
    /// Whether the tag is sound, or there is none.
    pub fn is_sound(&self) -> bool {
        self.tag != Tag::Of(None)
    }
}

/// A constant of a case, with its type.
#[derive(Drop, PartialEq, Eq, Hash)]
pub enum CaseKey {
    Number(TypeId, i128),
    Text(TypeId, Bytes),
}

/// The cases of a switch so far.
#[derive(Drop)]
pub struct Cases {
    constants: IndexSet<CaseKey>,
    types: IndexSet<TypeId>,
    has_nil: bool,
    pub has_default: bool,
}

impl Cases {
    /// No cases.
    pub fn new(alloc: Global) -> Cases {
        Cases {
            constants: IndexSet::new(alloc),
            types: IndexSet::new(alloc),
            has_nil: false,
            has_default: false,
        }
    }
}

/// The operand of a type switch: its type for the cases, and the variable of the clauses.
#[derive(Clone, Copy)]
pub struct Matched {
    pub of: Option<TypeId>,
    pub binding: Option<Bound>,
}

/// The name that a type switch binds, and its number among the names that have to be used.
#[derive(Clone, Copy)]
pub struct Bound {
    pub name: Token,
    pub need: usize,
}

/// A case of a type switch, where its type is sound.
#[derive(Clone, Copy)]
pub struct SeenCase {
    pub case: Option<TypeCase>,
    /// Whether it breaks no rule.
    pub is_sound: bool,
}

/// The integer, rune or text that a case is compared with.
fn key_of(alloc: Global, expr: &TypedExpr) -> Result<Option<CaseKey>, NoMemory> {
    match &expr.kind {
        ExprKind::ConstOf(Const::Int(number) | Const::Rune(number)) => {
            Ok(Some(CaseKey::Number(expr.of, *number)))
        }
        ExprKind::ConstOf(Const::Text(text)) => {
            Ok(Some(CaseKey::Text(expr.of, text.copy(alloc)?)))
        }
        _ => Ok(None),
    }
}

/// A value before it is made one of an interface.
fn before_interface(expr: &TypedExpr) -> &TypedExpr {
    match &expr.kind {
        ExprKind::ToInterface(operand) => operand,
        _ => expr,
    }
}

/// The tag of a switch.
pub fn see_tag(walker: &mut Walker<'_>, tag: &Option<Box<Expr>>) -> Result<SeenTag, NoMemory> {
    let Some(tag) = tag else {
        return Ok(SeenTag {
            tag: Tag::Truth,
            expr: None,
        });
    };
    let seen = walker.see(tag)?;
    let expr = switch_tag(walker.scope.ground(), seen)?;
    let of = match &expr {
        Some(expr) => Some(expr.of),
        None => None,
    };
    Ok(SeenTag {
        tag: Tag::Of(of),
        expr,
    })
}

/// A case of a switch over values.
pub fn see_case(
    walker: &mut Walker<'_>,
    expr: &Expr,
    tag: Tag,
    cases: &mut Cases,
) -> Result<Option<TypedCase>, NoMemory> {
    let seen = walker.see(expr)?;
    let at = seen.at;
    let is_constant = seen.is_constant();
    let case = match tag {
        Tag::Truth => truth_case(walker.scope.ground(), seen)?,
        Tag::Of(Some(of)) => case_value(walker.scope.ground(), of, seen)?,
        Tag::Of(None) => {
            drop(one_value(walker.scope.ground(), seen));
            None
        }
    };
    let Some(case) = case else {
        return Ok(None);
    };
    if !is_constant {
        return Ok(Some(case));
    }
    let is_new = is_new_value(walker, at, &case, cases);
    let (is_new, case) = beside(is_new, case)?;
    Ok(is_new.then_some(case))
}

/// Whether a case is no constant that came before.
fn is_new_value(
    walker: &mut Walker<'_>,
    at: Pos,
    case: &TypedCase,
    cases: &mut Cases,
) -> Result<bool, NoMemory> {
    let Some(key) = key_of(walker.alloc, before_interface(&case.value))? else {
        return Ok(true);
    };
    let is_new = cases.constants.insert(key)?;
    if !is_new {
        walker.report(at, Rule::BadCase);
    }
    Ok(is_new)
}

/// The word `default` of a clause.
pub fn see_default(walker: &mut Walker<'_>, word: Token, cases: &mut Cases) -> bool {
    if cases.has_default {
        walker.report(walker.at(word), Rule::BadCase);
        return false;
    }
    cases.has_default = true;
    true
}

/// The operand of a type switch.
pub fn see_matched(
    walker: &mut Walker<'_>,
    operand: &Expr,
    binding: &Option<Binding>,
) -> Result<(Option<TypedExpr>, Matched), NoMemory> {
    let seen = walker.see(operand)?;
    let given = interface_operand(walker.scope.ground(), seen);
    let bound = match binding {
        Some(binding) => see_binding(walker, binding.name, given.is_some()),
        None => Ok(None),
    };
    let (binding, given) = beside(bound, given)?;
    match given {
        Some(given) => {
            let of = Some(given.expr.of);
            Ok((Some(given.expr), Matched { of, binding }))
        }
        None => Ok((None, Matched { of: None, binding })),
    }
}

/// The name that a type switch binds. It may not be `_`.
fn see_binding(
    walker: &mut Walker<'_>,
    name: Token,
    is_sound: bool,
) -> Result<Option<Bound>, NoMemory> {
    let at = walker.at(name);
    if walker.is_blank(name)? {
        if is_sound {
            walker.report(at, Rule::NoNewVariable);
        }
        return Ok(None);
    }
    let need = walker.needs.add_name(at, walker.scope.package())?;
    Ok(Some(Bound { name, need }))
}

/// A case of a type switch.
pub fn see_type_case(
    walker: &mut Walker<'_>,
    expr: &Expr,
    matched: Matched,
    cases: &mut Cases,
) -> Result<SeenCase, NoMemory> {
    let at = walker.pos(expr_start(expr));
    if is_nil(walker, expr) {
        let is_new = !cases.has_nil;
        cases.has_nil = true;
        return Ok(new_case(walker, at, TypeCase::Nil, is_new));
    }
    let Some(to) = walker.see_item(expr)? else {
        return Ok(SeenCase {
            case: None,
            is_sound: false,
        });
    };
    let is_new = cases.types.insert(to)?;
    let mut seen = new_case(walker, at, TypeCase::Of(to), is_new);
    if let Some(of) = matched.of {
        if !asserted_case(walker.scope.ground(), of, to, at) {
            seen.is_sound = false;
        }
    }
    Ok(seen)
}

/// A case of a type switch that is not to have come before.
fn new_case(walker: &mut Walker<'_>, at: Pos, case: TypeCase, is_new: bool) -> SeenCase {
    if !is_new {
        walker.report(at, Rule::BadCase);
    }
    SeenCase {
        case: Some(case),
        is_sound: is_new,
    }
}

/// Whether an expression is `nil` of the universe, in parentheses or not.
fn is_nil(walker: &Walker<'_>, expr: &Expr) -> bool {
    match bare_name(expr) {
        Some(name) => walker.scope.found(walker.sources, name) == Some(Entity::Nil),
        None => false,
    }
}

/// The variable of a clause of a type switch with these cases, where it binds one.
pub fn bind_clause(
    walker: &mut Walker<'_>,
    at: Pos,
    matched: Matched,
    cases: &[Option<TypeCase>],
) -> Result<Option<VarId>, NoMemory> {
    let Some(bound) = matched.binding else {
        return Ok(None);
    };
    let of = match cases {
        [Some(TypeCase::Of(to))] => Some(*to),
        [None] => None,
        _ => matched.of,
    };
    let name = walker.name(bound.name)?;
    let variable = walker.scope.add_named(name, at, of)?;
    walker.needs.add_variable(variable, bound.need)?;
    Ok(Some(variable))
}
