//! Statements with statements in them. Go specification, "Statements".

use crate::clauses::{
    clause_behind, comm_behind, finish_clause, finish_comm_clause, see_clause, see_type_clause,
};
use crate::literals::{
    bodies_of_comm, bodies_of_expr, bodies_of_list, bodies_of_option, bodies_of_simple,
    bodies_of_spec, bodies_of_specs, bodies_of_type_specs,
};
use clause_rules::{
    Cases, Matched, Tag, begin_labels, bind_clause, end_labels, enter_decl, fall, finish_arm,
    finish_choice, finish_comm, finish_for, finish_range, finish_switch, finish_type_clause,
    finish_type_switch, see_comm_of, see_condition, see_loop_condition, see_matched, see_range,
    see_tag,
};
use flow_rules::{loop_ends, select_ends, switch_ends};
use go_ast::Token;
use go_base::{NoMemory, Pos};
use go_places::stmt_start;
use go_syntax::{
    Block, CaseClause, CommClause, Decl, Expr, ForStmt, IfArm, Label, ListedExpr, RangeStmt, Stmt,
    StmtLine, SwitchStmt, TypeSwitchStmt, ValueSpec,
};
use go_tree::{SelectClause, TypeClause, TypedArm, TypedClause, TypedStmt};
use stmt_rules::{First, Gathered, Spot, Steps, WalkedArm, WalkedBlock, Walker, is_panic, kept};
use typed_parts::{beside, sound};

/// The statements of a list; `falls` says whether its last may be `fallthrough`.
#[cycle(bodies)]
pub fn walk_statements(
    walker: &mut Walker<'_>,
    lines: &[StmtLine],
    falls: bool,
) -> Result<Steps, NoMemory> {
    let mut steps = Steps::new(walker.alloc);
    let done = walk_lines(walker, lines, falls, &mut steps);
    kept(steps, done)
}

/// The statements of a list, each behind those before it.
#[cycle(bodies)]
fn walk_lines(
    walker: &mut Walker<'_>,
    lines: &[StmtLine],
    falls: bool,
    steps: &mut Steps,
) -> Result<(), NoMemory> {
    let last = last_filled(lines);
    for (index, line) in lines.iter().enumerate() {
        if let Some(stmt) = &line.stmt {
            let spot = Spot {
                label: None,
                falls: falls && Some(index) == last,
            };
            walk_statement(walker, stmt, spot, steps)?;
        }
    }
    Ok(())
}

/// A statement that may be left out.
#[cycle(bodies)]
fn walk_optional(
    walker: &mut Walker<'_>,
    stmt: &Option<Box<Stmt>>,
    spot: Spot,
    steps: &mut Steps,
) -> Result<(), NoMemory> {
    match stmt {
        Some(stmt) => walk_statement(walker, stmt, spot, steps),
        None => Ok(()),
    }
}

/// A statement. What it declares is in scope behind it.
#[cycle(bodies)]
pub fn walk_statement(
    walker: &mut Walker<'_>,
    stmt: &Stmt,
    spot: Spot,
    steps: &mut Steps,
) -> Result<(), NoMemory> {
    match stmt {
        Stmt::Decl(decl) => walk_declaration(walker, decl, steps),
        Stmt::Labeled { labels, stmt } => walk_labeled(walker, labels, stmt, spot.falls, steps),
        Stmt::Define { .. } => walk_define(walker, stmt, steps),
        Stmt::Fallthrough(word) => fall(walker, *word, spot.falls, steps),
        Stmt::Block(block) => walk_inner_block(walker, block, steps),
        Stmt::If { .. } => walk_choice(walker, stmt, steps),
        Stmt::Switch(switch) => walk_switch(walker, switch, spot, steps),
        Stmt::TypeSwitch(switch) => walk_type_switch(walker, switch, spot, steps),
        Stmt::Select {
            word,
            clauses,
            close,
            ..
        } => walk_select(walker, *word, clauses, *close, spot, steps),
        Stmt::While { .. } => walk_while(walker, stmt, spot, steps),
        Stmt::For(stmt) => walk_for(walker, stmt, spot, steps),
        Stmt::Range(stmt) => walk_range(walker, stmt, spot, steps),
        _ => walk_plain(walker, stmt, steps),
    }
}

/// A statement without statements in it that declares nothing.
#[cycle(bodies)]
fn walk_plain(walker: &mut Walker<'_>, stmt: &Stmt, steps: &mut Steps) -> Result<(), NoMemory> {
    let typed = walker.simple(stmt)?;
    let typed = kept(typed, bodies_of_simple(walker, stmt))?;
    let ends = is_panic(&typed) || matches!(stmt, Stmt::Return { .. });
    steps.push(typed, ends)
}

/// A short variable declaration.
#[cycle(bodies)]
fn walk_define(walker: &mut Walker<'_>, stmt: &Stmt, steps: &mut Steps) -> Result<(), NoMemory> {
    let Stmt::Define {
        targets,
        values,
        ..
    } = stmt
    else {
        return Ok(());
    };
    let at = walker.list_at(targets);
    let seen = walker.see_define(at, targets, values)?;
    let seen = kept(seen, bodies_of_list(walker, values))?;
    let typed = walker.finish_define(seen)?;
    steps.push(typed, false)
}

#[cycle(bodies)]
fn walk_declaration(
    walker: &mut Walker<'_>,
    decl: &Decl,
    steps: &mut Steps,
) -> Result<(), NoMemory> {
    match decl {
        Decl::Const { word, specs, .. } => {
            enter_decl(walker, decl)?;
            bodies_of_specs(walker, specs)?;
            steps.push(
                Some(TypedStmt::Const {
                    at: walker.at(*word),
                }),
                false,
            )
        }
        Decl::TypeDecl { word, specs, .. } => {
            enter_decl(walker, decl)?;
            bodies_of_type_specs(walker, specs)?;
            steps.push(
                Some(TypedStmt::TypeDecl {
                    at: walker.at(*word),
                }),
                false,
            )
        }
        Decl::Var {
            word,
            open,
            specs,
            ..
        } => walk_variables(walker, *word, open.is_some(), specs, steps),
        Decl::Func(_) => Ok(()),
    }
}

/// Specifications of variables, in parentheses or not.
#[cycle(bodies)]
fn walk_variables(
    walker: &mut Walker<'_>,
    word: Token,
    is_list: bool,
    specs: &[ValueSpec],
    steps: &mut Steps,
) -> Result<(), NoMemory> {
    for spec in specs {
        let seen = walker.see_spec(spec)?;
        let seen = kept(seen, bodies_of_spec(walker, spec))?;
        let at = match spec.names.first() {
            Some(name) if is_list => walker.at(name.name),
            _ => walker.at(word),
        };
        let typed = walker.finish_spec(at, &spec.names, seen)?;
        steps.push(typed, false)?;
    }
    Ok(())
}

#[cycle(bodies)]
fn walk_labeled(
    walker: &mut Walker<'_>,
    labels: &[Label],
    stmt: &Option<Box<Stmt>>,
    falls: bool,
    steps: &mut Steps,
) -> Result<(), NoMemory> {
    let began = begin_labels(walker, labels)?;
    let mut inner = Steps::new(walker.alloc);
    let spot = Spot {
        label: began.last,
        falls,
    };
    let done = walk_optional(walker, stmt, spot, &mut inner);
    let (began, inner) = kept((began, inner), done)?;
    end_labels(walker, began.count);
    steps.push_labeled(began.at, began.names, inner)
}

#[cycle(bodies)]
fn walk_inner_block(
    walker: &mut Walker<'_>,
    block: &Block,
    steps: &mut Steps,
) -> Result<(), NoMemory> {
    let walked = walk_block(walker, block)?;
    let typed = walked.block.map(TypedStmt::Block);
    steps.push(typed, walked.ends)
}

/// A block, with a scope of its own.
#[cycle(bodies)]
fn walk_block(walker: &mut Walker<'_>, block: &Block) -> Result<WalkedBlock, NoMemory> {
    let at = walker.at(block.open);
    let end = walker.at(block.close);
    walk_scope(walker, &block.statements, at, end, false)
}

/// The statements of a scope of their own, between two places.
#[cycle(bodies)]
fn walk_scope(
    walker: &mut Walker<'_>,
    lines: &[StmtLine],
    at: Pos,
    end: Pos,
    falls: bool,
) -> Result<WalkedBlock, NoMemory> {
    walker.scope.open_block()?;
    let steps = walk_statements(walker, lines, falls)?;
    walker.scope.close_block();
    Ok(WalkedBlock::new(at, end, steps))
}

/// The simple statement before a condition, a tag or a loop.
#[cycle(bodies)]
fn walk_first(walker: &mut Walker<'_>, stmt: &Option<Box<Stmt>>) -> Result<First, NoMemory> {
    let mut steps = Steps::new(walker.alloc);
    let done = walk_optional(walker, stmt, Spot::plain(), &mut steps);
    kept(steps, done)?.into_first()
}

/// An `if`: each arm stands in the scope of those before it.
#[cycle(bodies)]
fn walk_choice(walker: &mut Walker<'_>, stmt: &Stmt, steps: &mut Steps) -> Result<(), NoMemory> {
    let Stmt::If {
        arms,
        otherwise,
        ..
    } = stmt
    else {
        return Ok(());
    };
    let mut walked = Gathered::new(walker.alloc);
    let done = walk_arms(walker, arms, &mut walked);
    let walked = kept(walked, done)?;
    let (last, walked) = beside(walk_otherwise(walker, otherwise), walked)?;
    for _ in arms {
        walker.scope.close_block();
    }
    finish_choice(walker, arms, walked, last, steps)
}

#[cycle(bodies)]
fn walk_arms(
    walker: &mut Walker<'_>,
    arms: &[IfArm],
    walked: &mut Gathered<TypedArm>,
) -> Result<(), NoMemory> {
    for arm in arms {
        walker.scope.open_block()?;
        let arm = walk_arm(walker, arm)?;
        walked.push(arm.arm, arm.ends)?;
    }
    Ok(())
}

/// The block of the last `else`.
#[cycle(bodies)]
fn walk_otherwise(
    walker: &mut Walker<'_>,
    block: &Option<Box<Block>>,
) -> Result<Option<WalkedBlock>, NoMemory> {
    match block {
        Some(block) => sound(walk_block(walker, block)),
        None => Ok(None),
    }
}

#[cycle(bodies)]
fn walk_arm(walker: &mut Walker<'_>, arm: &IfArm) -> Result<WalkedArm, NoMemory> {
    let init = walk_first(walker, &arm.init)?;
    let head = beside(see_condition(walker, &arm.condition), init)?;
    let head = kept(head, bodies_of_expr(walker, &arm.condition))?;
    let (body, (condition, init)) = beside(walk_block(walker, &arm.body), head)?;
    Ok(finish_arm(walker, arm.word, init, condition, body))
}

#[cycle(bodies)]
fn walk_switch(
    walker: &mut Walker<'_>,
    switch: &SwitchStmt,
    spot: Spot,
    steps: &mut Steps,
) -> Result<(), NoMemory> {
    walker.scope.open_block()?;
    let init = walk_first(walker, &switch.init)?;
    let head = beside(see_tag(walker, &switch.tag), init)?;
    let head = kept(head, bodies_of_option(walker, &switch.tag))?;
    let entered = walker.frame.branches.enter(spot.label, false);
    let (tag, init) = kept(head, entered)?;
    let mut cases = Cases::new(walker.alloc);
    let mut clauses = Gathered::new(walker.alloc);
    let done = walk_clauses(walker, switch, tag.tag, &mut cases, &mut clauses);
    let has_default = cases.has_default;
    drop(cases);
    let (clauses, (tag, init)) = kept((clauses, (tag, init)), done)?;
    let is_left = walker.frame.branches.leave();
    walker.scope.close_block();
    let ends = switch_ends(has_default, clauses.all_end, is_left);
    let typed = finish_switch(walker, switch.word, init, tag, clauses.items, switch.close);
    steps.push(typed, ends)
}

/// The clauses of a switch over values.
#[cycle(bodies)]
fn walk_clauses(
    walker: &mut Walker<'_>,
    switch: &SwitchStmt,
    tag: Tag,
    cases: &mut Cases,
    walked: &mut Gathered<TypedClause>,
) -> Result<(), NoMemory> {
    for (index, clause) in switch.clauses.iter().enumerate() {
        let next = clause_behind(&switch.clauses, index);
        let end = walker.at(next.unwrap_or(switch.close));
        let typed = see_clause(walker, clause, tag, cases)?;
        let typed = kept(typed, bodies_of_list(walker, &clause.items))?;
        let at = walker.at(clause.word);
        let body = walk_scope(walker, &clause.statements, at, end, next.is_some());
        let (body, typed) = beside(body, typed)?;
        finish_clause(at, clause.items.is_empty(), typed, body, walked)?;
    }
    Ok(())
}

#[cycle(bodies)]
fn walk_type_switch(
    walker: &mut Walker<'_>,
    switch: &TypeSwitchStmt,
    spot: Spot,
    steps: &mut Steps,
) -> Result<(), NoMemory> {
    walker.scope.open_block()?;
    let init = walk_first(walker, &switch.init)?;
    let seen = see_matched(walker, &switch.operand, &switch.binding);
    let ((operand, matched), init) = beside(seen, init)?;
    let head = kept((operand, init), bodies_of_expr(walker, &switch.operand))?;
    let entered = walker.frame.branches.enter(spot.label, false);
    let head = kept(head, entered)?;
    let mut cases = Cases::new(walker.alloc);
    let mut clauses = Gathered::new(walker.alloc);
    let done = walk_type_clauses(walker, switch, matched, &mut cases, &mut clauses);
    let has_default = cases.has_default;
    drop(cases);
    let (clauses, (operand, init)) = kept((clauses, head), done)?;
    let is_left = walker.frame.branches.leave();
    walker.scope.close_block();
    let ends = switch_ends(has_default, clauses.all_end, is_left);
    let typed = finish_type_switch(walker, switch, init, operand, matched, clauses.items);
    steps.push(typed, ends)
}

/// The clauses of a type switch.
#[cycle(bodies)]
fn walk_type_clauses(
    walker: &mut Walker<'_>,
    switch: &TypeSwitchStmt,
    matched: Matched,
    cases: &mut Cases,
    walked: &mut Gathered<TypeClause>,
) -> Result<(), NoMemory> {
    for (index, clause) in switch.clauses.iter().enumerate() {
        let next = clause_behind(&switch.clauses, index);
        let end = walker.at(next.unwrap_or(switch.close));
        walk_type_clause(walker, clause, end, matched, cases, walked)?;
    }
    Ok(())
}

#[cycle(bodies)]
fn walk_type_clause(
    walker: &mut Walker<'_>,
    clause: &CaseClause,
    end: Pos,
    matched: Matched,
    cases: &mut Cases,
    walked: &mut Gathered<TypeClause>,
) -> Result<(), NoMemory> {
    let at = walker.at(clause.word);
    let seen = see_type_clause(walker, clause, matched, cases)?;
    let seen = kept(seen, bodies_of_list(walker, &clause.items))?;
    let seen = kept(seen, walker.scope.open_block())?;
    let variable = bind_clause(walker, at, matched, seen.cases.as_slice());
    let (variable, seen) = beside(variable, seen)?;
    let steps = walk_statements(walker, &clause.statements, false);
    let (steps, seen) = beside(steps, seen)?;
    walker.scope.close_block();
    let body = WalkedBlock::new(at, end, steps);
    let ends = body.ends;
    let is_default = clause.items.is_empty();
    let typed = finish_type_clause(walker, at, is_default, seen, variable, body)?;
    walked.push(typed, ends)
}

#[cycle(bodies)]
fn walk_select(
    walker: &mut Walker<'_>,
    word: Token,
    clauses: &[CommClause],
    close: Token,
    spot: Spot,
    steps: &mut Steps,
) -> Result<(), NoMemory> {
    let at = walker.at(word);
    let end = walker.at(close);
    walker.frame.branches.enter(spot.label, false)?;
    let mut cases = Cases::new(walker.alloc);
    let mut walked = Gathered::new(walker.alloc);
    let done = walk_comm_clauses(walker, clauses, close, &mut cases, &mut walked);
    drop(cases);
    let walked = kept(walked, done)?;
    let is_left = walker.frame.branches.leave();
    let ends = select_ends(walked.all_end, is_left);
    let typed = match walked.items {
        Some(clauses) => Some(TypedStmt::Select { at, clauses, end }),
        None => None,
    };
    steps.push(typed, ends)
}

/// The clauses of a select.
#[cycle(bodies)]
fn walk_comm_clauses(
    walker: &mut Walker<'_>,
    clauses: &[CommClause],
    close: Token,
    cases: &mut Cases,
    walked: &mut Gathered<SelectClause>,
) -> Result<(), NoMemory> {
    for (index, clause) in clauses.iter().enumerate() {
        let end = walker.at(comm_behind(clauses, index).unwrap_or(close));
        walk_comm_clause(walker, clause, end, cases, walked)?;
    }
    Ok(())
}

#[cycle(bodies)]
fn walk_comm_clause(
    walker: &mut Walker<'_>,
    clause: &CommClause,
    end: Pos,
    cases: &mut Cases,
    walked: &mut Gathered<SelectClause>,
) -> Result<(), NoMemory> {
    let at = walker.at(clause.word);
    walker.scope.open_block()?;
    let seen = see_comm_of(walker, &clause.comm, clause.word, cases)?;
    let seen = kept(seen, bodies_of_comm(walker, &clause.comm))?;
    let comm = finish_comm(walker, seen)?;
    let steps = walk_statements(walker, &clause.statements, false);
    let (steps, comm) = beside(steps, comm)?;
    walker.scope.close_block();
    let body = WalkedBlock::new(at, end, steps);
    finish_comm_clause(at, comm, body, walked)
}

/// A `for` with a condition, or without one.
#[cycle(bodies)]
fn walk_while(
    walker: &mut Walker<'_>,
    stmt: &Stmt,
    spot: Spot,
    steps: &mut Steps,
) -> Result<(), NoMemory> {
    let Stmt::While {
        word,
        condition,
        body,
    } = stmt
    else {
        return Ok(());
    };
    let seen = see_loop_condition(walker, condition)?;
    let seen = kept(seen, bodies_of_option(walker, condition))?;
    let entered = walker.frame.branches.enter(spot.label, true);
    let seen = kept(seen, entered)?;
    let (body, seen) = beside(walk_block(walker, body), seen)?;
    let is_left = walker.frame.branches.leave();
    let ends = loop_ends(condition.is_some(), is_left);
    let none = First {
        is_sound: true,
        stmt: None,
    };
    let post = First {
        is_sound: true,
        stmt: None,
    };
    let typed = finish_for(walker, *word, none, seen, post, body);
    steps.push(typed, ends)
}

/// A `for` with clauses.
#[cycle(bodies)]
fn walk_for(
    walker: &mut Walker<'_>,
    stmt: &ForStmt,
    spot: Spot,
    steps: &mut Steps,
) -> Result<(), NoMemory> {
    walker.scope.open_block()?;
    let init = walk_first(walker, &stmt.init)?;
    let head = beside(see_loop_condition(walker, &stmt.condition), init)?;
    let head = kept(head, bodies_of_option(walker, &stmt.condition))?;
    let head = beside(walk_first(walker, &stmt.post), head)?;
    let entered = walker.frame.branches.enter(spot.label, true);
    let head = kept(head, entered)?;
    let (body, (post, (seen, init))) = beside(walk_block(walker, &stmt.body), head)?;
    let is_left = walker.frame.branches.leave();
    walker.scope.close_block();
    let ends = loop_ends(stmt.condition.is_some(), is_left);
    let typed = finish_for(walker, stmt.word, init, seen, post, body);
    steps.push(typed, ends)
}

#[cycle(bodies)]
fn walk_range(
    walker: &mut Walker<'_>,
    stmt: &RangeStmt,
    spot: Spot,
    steps: &mut Steps,
) -> Result<(), NoMemory> {
    let seen = see_range(walker, &stmt.targets, stmt.operator, &stmt.operand)?;
    let seen = kept(seen, bodies_of_expr(walker, &stmt.operand))?;
    let seen = kept(seen, bodies_of_list(walker, &stmt.targets))?;
    let seen = kept(seen, walker.scope.open_block())?;
    let head = finish_range(walker, seen)?;
    let entered = walker.frame.branches.enter(spot.label, true);
    let head = kept(head, entered)?;
    let (body, head) = beside(walk_block(walker, &stmt.body), head)?;
    walker.frame.branches.leave();
    walker.scope.close_block();
    let at = walker.at(stmt.word);
    let typed = match head.zip(body.block) {
        Some((head, body)) => Some(TypedStmt::Range {
            at,
            fresh: walker.fresh,
            over: head.over,
            operand: head.operand,
            targets: head.targets,
            body,
        }),
        None => None,
    };
    steps.push(typed, false)
}

/// The last statement of a list that is not empty.
fn last_filled(lines: &[StmtLine]) -> Option<usize> {
    let mut last = None;
    for (index, line) in lines.iter().enumerate() {
        if line.stmt.is_some() {
            last = Some(index);
        }
    }
    last
}
