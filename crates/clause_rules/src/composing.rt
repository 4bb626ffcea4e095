//! Statements put together from their parts, without a walk over statements.

use crate::choosing::{Cases, Matched, SeenTag, Tag, see_case, see_default, see_type_case};
use crate::receiving::{SeenComm, see_comm};
use flow_rules::choice_ends;
use go_ast::Token;
use go_base::{NameId, NoMemory, Pos, Rule, VarId};
use go_expr::see_decl;
use go_syntax::{Decl, Expr, IfArm, Label, ListedExpr, Stmt, TypeSwitchStmt};
use go_tree::{Comm, TypeCase, TypeClause, TypedArm, TypedCase, TypedClause, TypedExpr, TypedStmt};
use stmt_rules::{First, Gathered, Steps, WalkedArm, WalkedBlock, Walker};
use typed_operators::condition;
use typed_parts::{beside, only, with_last};

/// Labels whose statement begins.
#[derive(Drop)]
pub struct Began {
    /// The first byte of the first.
    pub at: Pos,
    pub names: Vec<NameId>,
    /// The last, where it is not `_`.
    pub last: Option<NameId>,
    /// How many of them are not `_`.
    pub count: usize,
}

/// The condition of a loop.
#[derive(Drop)]
pub struct LoopCondition {
    pub is_sound: bool,
    pub condition: Option<TypedExpr>,
}

/// The cases of a clause of a type switch, None where a type is unsound.
#[derive(Drop)]
pub struct SeenCases {
    pub cases: Vec<Option<TypeCase>>,
    /// Whether none breaks a rule.
    pub is_sound: bool,
}

/// Constants and types of a declaration are in scope from here on.
pub fn enter_decl(walker: &mut Walker<'_>, decl: &Decl) -> Result<(), NoMemory> {
    see_decl(walker.alloc, walker.sources, &mut walker.scope, decl)
}

/// The statement behind labels begins.
pub fn begin_labels(walker: &mut Walker<'_>, labels: &[Label]) -> Result<Began, NoMemory> {
    let at = match labels.first() {
        Some(label) => walker.at(label.name),
        None => walker.pos(0),
    };
    let mut began = Began {
        at,
        names: Vec::new(walker.alloc),
        last: None,
        count: 0,
    };
    for label in labels {
        begin_label(walker, &mut began, label.name)?;
    }
    Ok(began)
}

/// A label begins. One named `_` labels nothing.
fn begin_label(walker: &mut Walker<'_>, began: &mut Began, token: Token) -> Result<(), NoMemory> {
    let name = walker.name(token)?;
    let at = walker.at(token);
    began.names.push(name)?;
    if name == walker.scope.blank() {
        began.last = None;
        return Ok(());
    }
    began.last = Some(name);
    began.count = began.count.saturating_add(1);
    if !walker.frame.branches.begin_label(name, at)? {
        walker.report_later(at, Rule::BadLabel);
    }
    Ok(())
}

/// The statement behind so many labels ends. Each of them is to be named in it.
pub fn end_labels(walker: &mut Walker<'_>, count: usize) {
    for _ in 0..count {
        if let Some(at) = walker.frame.branches.end_label() {
            walker.report_later(at, Rule::LabelNotUsed);
        }
    }
}

/// A `fallthrough`.
pub fn fall(
    walker: &mut Walker<'_>,
    word: Token,
    falls: bool,
    steps: &mut Steps,
) -> Result<(), NoMemory> {
    let at = walker.at(word);
    if falls {
        steps.push(Some(TypedStmt::Fallthrough { at }), true)
    } else {
        walker.report(at, Rule::BadCase);
        steps.push(None, true)
    }
}

/// A condition.
pub fn see_condition(walker: &mut Walker<'_>, expr: &Expr) -> Result<Option<TypedExpr>, NoMemory> {
    let seen = walker.see(expr)?;
    condition(walker.scope.ground(), seen)
}

/// The condition of a loop, which may be left out.
pub fn see_loop_condition(
    walker: &mut Walker<'_>,
    expr: &Option<Box<Expr>>,
) -> Result<LoopCondition, NoMemory> {
    let Some(expr) = expr else {
        return Ok(LoopCondition {
            is_sound: true,
            condition: None,
        });
    };
    let condition = see_condition(walker, expr)?;
    Ok(LoopCondition {
        is_sound: condition.is_some(),
        condition,
    })
}

/// An arm of an `if`, at its word.
pub fn finish_arm(
    walker: &Walker<'_>,
    word: Token,
    init: First,
    condition: Option<TypedExpr>,
    body: WalkedBlock,
) -> WalkedArm {
    let ends = body.ends;
    let parts = only(condition.zip(body.block), init.is_sound);
    let arm = match parts.zip(Some(init.stmt)) {
        Some(((condition, body), init)) => Some(TypedArm {
            at: walker.at(word),
            init,
            condition,
            body,
        }),
        None => None,
    };
    WalkedArm { arm, ends }
}

/// An `if` from its arms and the block of its last `else`.
pub fn finish_choice(
    walker: &Walker<'_>,
    arms: &[IfArm],
    walked: Gathered<TypedArm>,
    last: Option<WalkedBlock>,
    steps: &mut Steps,
) -> Result<(), NoMemory> {
    let at = match arms.first() {
        Some(arm) => walker.at(arm.word),
        None => walker.pos(0),
    };
    let all_end = walked.all_end;
    let Some(last) = last else {
        let stmt = match walked.items {
            Some(arms) => Some(TypedStmt::If {
                at,
                arms,
                otherwise: None,
            }),
            None => None,
        };
        return steps.push(stmt, choice_ends(all_end, None));
    };
    let ends = choice_ends(all_end, Some(last.ends));
    let stmt = match walked.items.zip(last.block) {
        Some((arms, block)) => Some(TypedStmt::If {
            at,
            arms,
            otherwise: Some(block),
        }),
        None => None,
    };
    steps.push(stmt, ends)
}

/// The cases of a clause, where all are sound.
pub fn see_cases(
    walker: &mut Walker<'_>,
    items: &[ListedExpr],
    tag: Tag,
    cases: &mut Cases,
) -> Result<Option<Vec<TypedCase>>, NoMemory> {
    let mut typed = Some(Vec::new(walker.alloc));
    for item in items {
        let (case, before) = beside(see_case(walker, &item.expr, tag, cases), typed)?;
        typed = with_last(before, case)?;
    }
    Ok(typed)
}

/// A switch from its parts.
pub fn finish_switch(
    walker: &Walker<'_>,
    word: Token,
    init: First,
    tag: SeenTag,
    clauses: Option<Vec<TypedClause>>,
    close: Token,
) -> Option<TypedStmt> {
    let is_sound = init.is_sound && tag.is_sound();
    let head = Some((tag.expr, init.stmt));
    let (clauses, (tag, init)) = only(clauses, is_sound).zip(head)?;
    Some(TypedStmt::Switch {
        at: walker.at(word),
        init,
        tag,
        clauses,
        end: walker.at(close),
    })
}

/// The cases of a clause of a type switch.
pub fn see_type_cases(
    walker: &mut Walker<'_>,
    items: &[ListedExpr],
    matched: Matched,
    cases: &mut Cases,
) -> Result<SeenCases, NoMemory> {
    let mut seen = SeenCases {
        cases: Vec::new(walker.alloc),
        is_sound: true,
    };
    for item in items {
        let case = see_type_case(walker, &item.expr, matched, cases)?;
        seen.cases.push(case.case)?;
        seen.is_sound = seen.is_sound && case.is_sound;
    }
    Ok(seen)
}

/// A clause of a type switch from its parts.
pub fn finish_type_clause(
    walker: &Walker<'_>,
    at: Pos,
    is_default: bool,
    seen: SeenCases,
    variable: Option<VarId>,
    body: WalkedBlock,
) -> Result<Option<TypeClause>, NoMemory> {
    let (cases, body) = beside(sound_cases(walker, &seen), body.block)?;
    match only(body, seen.is_sound).zip(Some(cases)) {
        Some((body, cases)) => Ok(Some(TypeClause {
            at,
            is_default,
            cases,
            variable,
            body,
        })),
        None => Ok(None),
    }
}

/// The cases whose types are sound.
fn sound_cases(walker: &Walker<'_>, seen: &SeenCases) -> Result<Vec<TypeCase>, NoMemory> {
    let mut cases = Vec::new(walker.alloc);
    for case in &seen.cases {
        if let Some(case) = case {
            cases.push(*case)?;
        }
    }
    Ok(cases)
}

/// A type switch from its parts.
pub fn finish_type_switch(
    walker: &Walker<'_>,
    switch: &TypeSwitchStmt,
    init: First,
    operand: Option<TypedExpr>,
    matched: Matched,
    clauses: Option<Vec<TypeClause>>,
) -> Option<TypedStmt> {
    let is_bound = switch.binding.is_some() == matched.binding.is_some();
    let parts = only(operand.zip(clauses), init.is_sound && is_bound);
    let ((operand, clauses), init) = parts.zip(Some(init.stmt))?;
    Some(TypedStmt::TypeSwitch {
        at: walker.at(switch.word),
        init,
        operand,
        clauses,
        end: walker.at(switch.close),
    })
}

/// What a clause of a select waits for; `default` waits for nothing.
pub fn see_comm_of(
    walker: &mut Walker<'_>,
    comm: &Option<Box<Stmt>>,
    word: Token,
    cases: &mut Cases,
) -> Result<SeenComm, NoMemory> {
    match comm {
        Some(comm) => see_comm(walker, comm),
        None if see_default(walker, word, cases) => Ok(SeenComm::Whole(Comm::Default)),
        None => Ok(SeenComm::Unsound),
    }
}

/// A `for` from its parts.
pub fn finish_for(
    walker: &Walker<'_>,
    word: Token,
    init: First,
    condition: LoopCondition,
    post: First,
    body: WalkedBlock,
) -> Option<TypedStmt> {
    let is_sound = init.is_sound && condition.is_sound && post.is_sound;
    let head = Some((condition.condition, (init.stmt, post.stmt)));
    let (body, (condition, (init, post))) = only(body.block, is_sound).zip(head)?;
    Some(TypedStmt::For {
        at: walker.at(word),
        fresh: walker.fresh,
        init,
        condition,
        post,
        body,
    })
}
