//! Statements without statements in them: expressions, sends, steps, assignments, `go`, `defer`, `return` and branches. Go
//! specification, "Expression statements", "Send statements", "IncDec statements", "Assignment statements", "Go statements",
//! "Defer statements", "Return statements", "Break statements", "Continue statements".

use crate::joining::{kept, nothing, push_come};
use crate::walker::{Walker, are_values, bare_name};
use go_ast::{Kind, Token};
use go_base::{NoMemory, Pos, Rule};
use go_names::Entity;
use go_places::stmt_start;
use go_syntax::{Expr, ListedExpr, Stmt};
use go_tree::{ExprKind, Target, TypedExpr, TypedStmt};
use go_type::{BinaryOp, Builtin};
use std::alloc::Global;
use typed_operators::{binary_expression, send, step, target};
use typed_parts::{Meaning, Seen, asked, beside, is_place, only, value_of, with_last};
use typed_primaries::{Into, Listed, values_into};

/// A side of an assignment.
#[derive(Drop)]
pub enum Side {
    /// `_`
    Blank,
    /// None where it is unsound.
    Place(Option<TypedExpr>),
}

impl Side {
    /// Where a value goes that is assigned to the side.
    pub fn into(&self) -> Into {
        match self {
            Side::Blank => Into::Any,
            Side::Place(Some(place)) => Into::Type(place.of),
            Side::Place(None) => Into::Unsound,
        }
    }
}

/// The sides as targets, where all are sound.
pub fn targets_of(alloc: Global, sides: Vec<Side>) -> Result<Option<Vec<Target>>, NoMemory> {
    let mut targets = Some(Vec::new(alloc));
    for side in sides {
        targets = with_last(targets, target_of(side))?;
    }
    Ok(targets)
}

/// A side as a target, where it is sound.
pub fn target_of(side: Side) -> Option<Target> {
    match side {
        Side::Blank => Some(Target::Blank),
        Side::Place(Some(place)) => Some(Target::Place(place)),
        Side::Place(None) => None,
    }
}

/// Where the values of sides go.
pub fn intos_of(alloc: Global, sides: &[Side]) -> Result<Vec<Into>, NoMemory> {
    let mut intos = Vec::new(alloc);
    for side in sides {
        intos.push(side.into())?;
    }
    Ok(intos)
}

/// Whether an expression is a call or a receive that may stand alone.
fn stands_alone(expr: &TypedExpr) -> bool {
    match &expr.kind {
        ExprKind::CallOf { .. } | ExprKind::Receive { .. } => true,
        ExprKind::BuiltinOf { builtin, .. } => !has_result_alone(*builtin),
        _ => false,
    }
}

/// Whether a call of a built-in function is of no use but for its result.
fn has_result_alone(builtin: Builtin) -> bool {
    matches!(
        builtin,
        Builtin::Append
            | Builtin::Cap
            | Builtin::Len
            | Builtin::Make
            | Builtin::Max
            | Builtin::Min
            | Builtin::New
    )
}

/// Whether a typed statement is a call of `panic`.
pub fn is_panic(stmt: &Option<TypedStmt>) -> bool {
    match stmt {
        Some(TypedStmt::Expr { expr, .. }) => matches!(
            &expr.kind,
            ExprKind::BuiltinOf {
                builtin: Builtin::Panic,
                ..
            }
        ),
        _ => false,
    }
}

/// The operator of an assignment with an operator.
fn assigned_op(kind: Kind) -> Option<BinaryOp> {
    match kind {
        Kind::PlusAssign => Some(BinaryOp::Add),
        Kind::MinusAssign => Some(BinaryOp::Sub),
        Kind::StarAssign => Some(BinaryOp::Mul),
        Kind::SlashAssign => Some(BinaryOp::Div),
        Kind::PercentAssign => Some(BinaryOp::Rem),
        Kind::AmpersandAssign => Some(BinaryOp::And),
        Kind::PipeAssign => Some(BinaryOp::Or),
        Kind::CaretAssign => Some(BinaryOp::Xor),
        Kind::ShiftLeftAssign => Some(BinaryOp::ShiftLeft),
        Kind::ShiftRightAssign => Some(BinaryOp::ShiftRight),
        Kind::AndNotAssign => Some(BinaryOp::AndNot),
        _ => None,
    }
}

/// The one expression of a list.
fn single(exprs: &[ListedExpr]) -> Option<&Expr> {
    match exprs {
        [one] => Some(&one.expr),
        _ => None,
    }
}

impl<'s> Walker<'s> {
    /// A statement without statements in it that declares nothing; None where it is unsound.
    pub fn simple(&mut self, stmt: &Stmt) -> Result<Option<TypedStmt>, NoMemory> {
        let at = self.pos(stmt_start(stmt));
        match stmt {
            Stmt::Expr(expr) => self.expression(at, expr),
            Stmt::Send { channel, value, .. } => self.send(at, channel, value),
            Stmt::Step { operand, operator } => self.step(at, operand, *operator),
            Stmt::Assign {
                targets,
                operator,
                values,
            } => self.assignment(at, targets, *operator, values),
            Stmt::Go { call, .. } => self.go(at, call),
            Stmt::Defer { call, .. } => self.defer(at, call),
            Stmt::Return { results, .. } => self.returning(at, results),
            Stmt::Break { label, .. } => self.breaking(at, *label),
            Stmt::Continue { label, .. } => self.continuing(at, *label),
            _ => Ok(None),
        }
    }

    fn expression(&mut self, at: Pos, expr: &Expr) -> Result<Option<TypedStmt>, NoMemory> {
        let Some(given) = self.see_value(expr)? else {
            return Ok(None);
        };
        let holds = stands_alone(&given.expr);
        match asked(self.scope.ground(), given, holds, Rule::ResultNotUsed) {
            Some(given) => Ok(Some(TypedStmt::Expr {
                at,
                expr: given.expr,
            })),
            None => Ok(None),
        }
    }

    fn send(
        &mut self,
        at: Pos,
        channel: &Expr,
        value: &Expr,
    ) -> Result<Option<TypedStmt>, NoMemory> {
        let channel = self.see(channel)?;
        let (value, channel) = beside(self.see(value), channel)?;
        match send(self.scope.ground(), channel, value)? {
            Some(sent) => Ok(Some(TypedStmt::Send {
                at,
                channel: sent.channel,
                value: sent.value,
            })),
            None => Ok(None),
        }
    }

    fn step(
        &mut self,
        at: Pos,
        operand: &Expr,
        operator: Token,
    ) -> Result<Option<TypedStmt>, NoMemory> {
        let operand = self.see(operand)?;
        let op = if operator.kind == Kind::Decrement {
            BinaryOp::Sub
        } else {
            BinaryOp::Add
        };
        match step(self.scope.ground(), operand) {
            Some(stepped) => Ok(Some(TypedStmt::Step {
                at,
                target: stepped.target,
                op,
                one: stepped.one,
            })),
            None => Ok(None),
        }
    }

    fn assignment(
        &mut self,
        at: Pos,
        targets: &[ListedExpr],
        operator: Token,
        values: &[ListedExpr],
    ) -> Result<Option<TypedStmt>, NoMemory> {
        match assigned_op(operator.kind) {
            Some(op) => self.assign_op(at, targets, op, values),
            None => self.assign(at, targets, values),
        }
    }

    /// `x = e`, of any number of sides.
    fn assign(
        &mut self,
        at: Pos,
        targets: &[ListedExpr],
        values: &[ListedExpr],
    ) -> Result<Option<TypedStmt>, NoMemory> {
        let sides = self.sides(targets)?;
        let (values, sides) = beside(self.see_list(values), sides)?;
        let intos = intos_of(self.alloc, &sides);
        let (intos, (values, sides)) = beside(intos, (values, sides))?;
        let listed = values_into(self.scope.ground(), at, values, &intos, true);
        let (listed, sides) = beside(listed, sides)?;
        let (targets, listed) = beside(targets_of(self.alloc, sides), listed)?;
        match targets.zip(listed.values) {
            Some((targets, values)) => Ok(Some(TypedStmt::Assign {
                at,
                targets,
                values,
            })),
            None => Ok(None),
        }
    }

    /// The sides of an assignment.
    pub fn sides(&mut self, targets: &[ListedExpr]) -> Result<Vec<Side>, NoMemory> {
        let mut sides = Vec::new(self.alloc);
        let done = self.add_sides(targets, &mut sides);
        kept(sides, done)
    }

    fn add_sides(&mut self, targets: &[ListedExpr], sides: &mut Vec<Side>) -> Result<(), NoMemory> {
        for target in targets {
            push_come(sides, self.side(&target.expr))?;
        }
        Ok(())
    }

    /// A side of an assignment: `_`, or what can be assigned to. A variable by its name alone is not used by that.
    pub fn side(&mut self, expr: &Expr) -> Result<Side, NoMemory> {
        let Some(name) = bare_name(expr) else {
            let seen = self.see(expr)?;
            return Ok(Side::Place(target(self.scope.ground(), seen)));
        };
        if self.is_blank(name)? {
            return Ok(Side::Blank);
        }
        let before = self.scope.mention_count();
        let seen = self.see(expr)?;
        if before < self.scope.mention_count() {
            self.scope.mark_assigned(before);
        }
        Ok(Side::Place(target(self.scope.ground(), seen)))
    }

    /// `x op= e`
    fn assign_op(
        &mut self,
        at: Pos,
        targets: &[ListedExpr],
        op: BinaryOp,
        values: &[ListedExpr],
    ) -> Result<Option<TypedStmt>, NoMemory> {
        match (single(targets), single(values)) {
            (Some(side), Some(value)) => self.assign_one(at, side, op, value),
            _ => self.assign_many(at, targets, values),
        }
    }

    /// Several sides with an operator.
    fn assign_many(
        &mut self,
        at: Pos,
        targets: &[ListedExpr],
        values: &[ListedExpr],
    ) -> Result<Option<TypedStmt>, NoMemory> {
        let sides = self.see_list(targets)?;
        let (values, sides) = beside(self.see_list(values), sides)?;
        if are_values(&sides) && are_values(&values) {
            self.report(at, Rule::CannotAssign);
        }
        self.all_values(sides);
        self.all_values(values);
        Ok(None)
    }

    /// Each part of a list is to be a value.
    fn all_values(&mut self, list: Vec<Seen>) {
        for seen in list {
            drop(value_of(self.scope.ground(), seen));
        }
    }

    fn assign_one(
        &mut self,
        at: Pos,
        side: &Expr,
        op: BinaryOp,
        value: &Expr,
    ) -> Result<Option<TypedStmt>, NoMemory> {
        let side = self.see(side)?;
        let (value, side) = beside(self.see(value), side)?;
        let is_target = match &side.meaning {
            Some(Meaning::Value(expr)) => can_be_assigned(expr),
            _ => true,
        };
        if !is_target {
            self.report(side.at, Rule::CannotAssign);
        }
        let whole = binary_expression(self.scope.ground(), op, side, value)?;
        let Some(whole) = only(whole, is_target) else {
            return Ok(None);
        };
        let (_at, _of, kind) = whole.into_parts();
        match kind {
            ExprKind::BinaryOf { op, left, right } => Ok(Some(TypedStmt::AssignOp {
                at,
                target: Box::into_inner(left),
                op,
                value: Box::into_inner(right),
            })),
            kind => Ok(nothing(kind)),
        }
    }

    fn go(&mut self, at: Pos, call: &Expr) -> Result<Option<TypedStmt>, NoMemory> {
        match self.called(call)? {
            Some(call) => Ok(Some(TypedStmt::Go { at, call })),
            None => Ok(None),
        }
    }

    fn defer(&mut self, at: Pos, call: &Expr) -> Result<Option<TypedStmt>, NoMemory> {
        self.frame.has_defer = true;
        match self.called(call)? {
            Some(call) => Ok(Some(TypedStmt::Defer { at, call })),
            None => Ok(None),
        }
    }

    /// The call of a `go` or `defer`.
    fn called(&mut self, call: &Expr) -> Result<Option<TypedExpr>, NoMemory> {
        let Some(given) = self.see_value(call)? else {
            return Ok(None);
        };
        let holds = matches!(call, Expr::Call { .. }) && stands_alone(&given.expr);
        match asked(self.scope.ground(), given, holds, Rule::BadGoOrDefer) {
            Some(given) => Ok(Some(given.expr)),
            None => Ok(None),
        }
    }

    fn returning(
        &mut self,
        at: Pos,
        results: &[ListedExpr],
    ) -> Result<Option<TypedStmt>, NoMemory> {
        if results.is_empty() {
            return Ok(self.bare_return(at));
        }
        let values = self.see_list(results)?;
        if self.frame.results.is_empty() {
            self.return_of_nothing(values);
            return Ok(None);
        }
        let (intos, values) = beside(self.result_intos(), values)?;
        let Listed { values, types: _ } = values_into(
            self.scope.ground(),
            at,
            values,
            &intos,
            false,
        )?;
        match values {
            Some(values) => Ok(Some(TypedStmt::Return {
                at,
                values: Some(values),
            })),
            None => Ok(None),
        }
    }

    /// Where the values that are returned go.
    fn result_intos(&self) -> Result<Vec<Into>, NoMemory> {
        let mut intos = Vec::new(self.alloc);
        for result in &self.frame.results {
            intos.push(match result.of {
                Some(of) => Into::Type(of),
                None => Into::Unsound,
            })?;
        }
        Ok(intos)
    }

    /// Values that are returned by a function without results.
    fn return_of_nothing(&mut self, values: Vec<Seen>) {
        let first = values.first().map(|seen| seen.at);
        if are_values(&values) {
            if let Some(at) = first {
                self.report(at, Rule::WrongNumberOfValues);
            }
        }
        self.all_values(values);
    }

    /// `return` without values: the results have names, and each is what its name stands for here.
    fn bare_return(&mut self, at: Pos) -> Option<TypedStmt> {
        let mut is_sound = true;
        for result in &self.frame.results {
            let Some(name) = result.name else {
                self.scope.report(at, Rule::WrongNumberOfValues);
                return None;
            };
            let found = self.scope.found(self.sources, name);
            let is_hidden = match self.scope.variable(result.variable) {
                Some(variable) => variable.name != self.scope.blank(),
                None => false,
            };
            if is_hidden && found != Some(Entity::Variable(result.variable)) {
                self.scope.report(at, Rule::ResultHiddenAtReturn);
                is_sound = false;
            }
        }
        if is_sound {
            Some(TypedStmt::Return { at, values: None })
        } else {
            None
        }
    }

    fn breaking(&mut self, at: Pos, label: Option<Token>) -> Result<Option<TypedStmt>, NoMemory> {
        let name = match label {
            Some(label) => Some(self.name(label)?),
            None => None,
        };
        let levels = self.frame.branches.break_levels(name);
        self.branch(at, label, levels.is_some());
        Ok(Some(TypedStmt::Break {
            at,
            levels: levels.unwrap_or(0),
        }))
    }

    fn continuing(&mut self, at: Pos, label: Option<Token>) -> Result<Option<TypedStmt>, NoMemory> {
        let name = match label {
            Some(label) => Some(self.name(label)?),
            None => None,
        };
        let levels = self.frame.branches.continue_levels(name);
        self.branch(at, label, levels.is_some());
        Ok(Some(TypedStmt::Continue {
            at,
            levels: levels.unwrap_or(0),
        }))
    }

    /// A branch has a statement to which it leads, and else breaks a rule at its label or at itself.
    fn branch(&mut self, at: Pos, label: Option<Token>, leads: bool) {
        if leads {
            return;
        }
        match label {
            Some(label) => self.report_later(self.at(label), Rule::BadLabel),
            None => self.report_later(at, Rule::BreakOrContinueMisplaced),
        }
    }
}

/// Whether a value can be assigned to.
fn can_be_assigned(expr: &TypedExpr) -> bool {
    is_place(expr) || matches!(&expr.kind, ExprKind::MapIndex { .. })
}
