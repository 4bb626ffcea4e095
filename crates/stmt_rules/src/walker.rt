//! What is kept while initialisers and bodies are walked.

use crate::frames::Frame;
use crate::joining::{kept, push_come, put_at};
use crate::uses::{Holder, Reading};
use go_ast::Token;
use go_base::{NameId, NoMemory, Pos, Rule, TypeId};
use go_expr::{see_expr, see_item, see_type};
use go_faults::{Fault, Least};
use go_places::expr_start;
use go_scope::Scope;
use go_sources::Sources;
use go_syntax::{Expr, ListedExpr, TypeExpr};
use go_tree::{Bodies, Body};
use go_type::{TypeTerm, Types};
use std::alloc::Global;
use typed_parts::{Given, Meaning, Seen, value_of};
use use_rules::Needs;

/// The first minor version of Go in which each turn of a loop has variables of its own.
const FRESH_LOOPS: u32 = 22;

/// What is kept while initialisers and bodies are walked. The least fault of phase 3 is that of the scope.
#[derive(Drop)]
pub struct Walker<'s> {
    pub alloc: Global,
    pub sources: &'s Sources,
    pub scope: Scope,
    /// The function or literal whose body is walked.
    pub frame: Frame,
    /// The bodies that are sound, by the number of the function.
    pub bodies: Vec<Option<Body>>,
    pub needs: Needs,
    pub readings: Vec<Reading>,
    /// The least fault of the phases after the third.
    pub later: Least,
    /// How many variables are of packages: they come before all others.
    pub package_variables: usize,
    /// Whether each turn of a loop has variables of its own, in the file that is entered.
    pub fresh: bool,
}

impl<'s> Walker<'s> {
    /// Nothing is walked yet.
    pub fn new(alloc: Global, sources: &'s Sources, scope: Scope) -> Walker<'s> {
        let package_variables = scope.variables().len();
        Walker {
            alloc,
            sources,
            scope,
            frame: Frame::new(alloc),
            bodies: Vec::new(alloc),
            needs: Needs::new(alloc),
            readings: Vec::new(alloc),
            later: Least::new(),
            package_variables,
            fresh: false,
        }
    }

    /// Goes to a file.
    pub fn enter_file(&mut self, file: u32) {
        self.scope.enter_file(file);
        if let Some(source) = self.sources.file(file) {
            self.fresh = self.sources.version(source.package) >= FRESH_LOOPS;
        }
    }

    /// The types that are held.
    pub fn types(&self) -> &Types {
        self.scope.types()
    }

    /// The underlying type of a type.
    pub fn underlying(&self, of: TypeId) -> Option<&TypeTerm> {
        self.scope.types().underlying_term(of)
    }

    /// A place in the file that is entered.
    pub fn pos(&self, offset: u32) -> Pos {
        self.scope.pos(offset)
    }

    /// The place of a token of the file that is entered.
    pub fn at(&self, token: Token) -> Pos {
        self.scope.pos(token.start)
    }

    /// Reports a broken rule of bodies and initialisers.
    pub fn report(&mut self, at: Pos, rule: Rule) {
        self.scope.report(at, rule);
    }

    /// Reports a broken rule that is asked of sound programs alone.
    pub fn report_later(&mut self, at: Pos, rule: Rule) {
        self.later.report(Fault {
            phase: 4,
            package: self.scope.package(),
            pos: at,
            rule,
        });
    }

    /// What a token of the file that is entered is called.
    pub fn name(&mut self, token: Token) -> Result<NameId, NoMemory> {
        self.scope.name(self.sources, token)
    }

    /// Whether a name is `_`.
    pub fn is_blank(&mut self, token: Token) -> Result<bool, NoMemory> {
        let name = self.name(token)?;
        Ok(name == self.scope.blank())
    }

    /// What an expression stands for, before anything is asked of it.
    pub fn see(&mut self, expr: &Expr) -> Result<Seen, NoMemory> {
        see_expr(self.alloc, self.sources, &mut self.scope, expr)
    }

    /// What the expressions of a list stand for.
    pub fn see_list(&mut self, exprs: &[ListedExpr]) -> Result<Vec<Seen>, NoMemory> {
        let mut list = Vec::new(self.alloc);
        let done = self.see_all(exprs, &mut list);
        kept(list, done)
    }

    fn see_all(&mut self, exprs: &[ListedExpr], list: &mut Vec<Seen>) -> Result<(), NoMemory> {
        for expr in exprs {
            push_come(list, self.see(&expr.expr))?;
        }
        Ok(())
    }

    /// The value or values of an expression that stands alone.
    pub fn see_value(&mut self, expr: &Expr) -> Result<Option<Given>, NoMemory> {
        let seen = self.see(expr)?;
        Ok(value_of(self.scope.ground(), seen))
    }

    /// A type as it is written.
    pub fn see_type(&mut self, form: &TypeExpr) -> Result<Option<TypeId>, NoMemory> {
        see_type(self.alloc, self.sources, &mut self.scope, form)
    }

    /// A type that is written as an expression.
    pub fn see_item(&mut self, expr: &Expr) -> Result<Option<TypeId>, NoMemory> {
        see_item(self.alloc, self.sources, &mut self.scope, expr)
    }

    /// The first byte of a list.
    pub fn list_at(&self, list: &[ListedExpr]) -> Pos {
        match list.first() {
            Some(first) => self.pos(expr_start(&first.expr)),
            None => self.pos(0),
        }
    }

    /// Keeps the body of a function.
    pub fn keep_body(&mut self, function: usize, body: Body) -> Result<(), NoMemory> {
        put_at(&mut self.bodies, function, body)
    }

    /// What was read from a mention on is named by a holder.
    pub fn read_by(&mut self, holder: Holder, from: usize) -> Result<(), NoMemory> {
        let to = self.scope.mention_count();
        self.readings.push(Reading { holder, from, to })?;
        Ok(())
    }
}

/// The bodies of all functions; those that have none count as None.
pub fn all_bodies(
    alloc: Global,
    bodies: Vec<Option<Body>>,
    count: usize,
) -> Result<Bodies, NoMemory> {
    let mut all = Bodies::new(alloc);
    let done = push_bodies(&mut all, bodies, count);
    kept(all, done)
}

/// Adds bodies, and that there is none for those that lack.
fn push_bodies(all: &mut Bodies, bodies: Vec<Option<Body>>, count: usize) -> Result<(), NoMemory> {
    for body in bodies {
        all.push(body)?;
    }
    for _ in all.len()..count {
        all.push(None)?;
    }
    Ok(())
}

/// Whether all parts of a list are sound, and values.
pub fn are_values(list: &[Seen]) -> bool {
    for seen in list {
        match &seen.meaning {
            Some(Meaning::Value(_)) => {}
            _ => return false,
        }
    }
    true
}

/// The name that an expression is, in parentheses or not.
pub fn bare_name(expr: &Expr) -> Option<Token> {
    match expr {
        Expr::Name(token) => Some(*token),
        Expr::Paren { inner, .. } => bare_name(inner),
        _ => None,
    }
}
