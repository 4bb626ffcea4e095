//! `if` and `switch`. Go specification, "If statements" and "Switch statements".

use crate::error::lost;
use crate::statements::{lower_block, lower_init};
use go_base::{BlockId, NoMemory, Pos, TypeId};
use go_tree::{TypeCase, TypeClause, TypedArm, TypedCase, TypedClause, TypedExpr, TypedStmt};
use go_type::{CompareOp, TypeTerm};
use ssa_expr::lower_expr;
use ssa_ir::{ConstValue, Infix, Op, Operand};
use ssa_simple::{Exit, Flow, begin_with, bool_type};

#[cycle(statements)]
pub(crate) fn lower_if(flow: &mut Flow<'_>, stmt: &TypedStmt) -> Result<(), NoMemory> {
    let TypedStmt::If {
        arms,
        otherwise,
        ..
    } = stmt
    else {
        return Err(lost());
    };
    let mut join = None;
    lower_arms(flow, arms.as_slice(), otherwise.is_some(), &mut join)?;
    if let Some(block) = otherwise {
        if !flow.builder.is_ended() {
            lower_block(flow, block)?;
            flow.leave_to(&mut join, block.end)?;
        }
    }
    if join.is_some() && flow.builder.is_ended() {
        flow.enter_if_filled(join)?;
    }
    Ok(())
}

/// The arms of an `if`, one behind another. Where an `else` follows, the builder then stands there.
#[cycle(statements)]
fn lower_arms(
    flow: &mut Flow<'_>,
    arms: &[TypedArm],
    has_else: bool,
    join: &mut Option<BlockId>,
) -> Result<(), NoMemory> {
    let mut left = arms.len();
    for arm in arms {
        left = left.saturating_sub(1);
        lower_init(flow, &arm.init)?;
        if flow.builder.is_ended() {
            return Ok(());
        }
        let test = lower_expr(&mut flow.builder, &arm.condition)?;
        let follows = left > 0 || has_else;
        let else_to = branch_to_arm(flow, test, follows, join, arm.condition.at)?;
        lower_block(flow, &arm.body)?;
        flow.leave_to(join, arm.body.end)?;
        if follows {
            flow.enter(else_to)?;
        }
    }
    Ok(())
}

/// An arm is next where its test holds. The answer is the block where it does not.
fn branch_to_arm(
    flow: &mut Flow<'_>,
    test: Operand,
    follows: bool,
    join: &mut Option<BlockId>,
    at: Pos,
) -> Result<BlockId, NoMemory> {
    let then_to = flow.builder.add_block()?;
    let else_to = if follows {
        flow.builder.add_block()?
    } else {
        flow.builder.to(join)?
    };
    let op = Op::If {
        test,
        then_to,
        else_to,
    };
    flow.builder.effect(op, at)?;
    flow.enter(then_to)?;
    Ok(else_to)
}

/// The body of each clause, once something leads there.
#[derive(Drop)]
struct Slots {
    slots: Vec<Option<BlockId>>,
}

impl Slots {
    fn new(flow: &Flow<'_>, count: usize) -> Result<Slots, NoMemory> {
        let mut slots = Vec::new(flow.builder.allocator());
        for _ in 0..count {
            slots.push(None)?;
        }
        Ok(Slots { slots })
    }

    fn get(&self, place: usize) -> Option<BlockId> {
        self.slots.get(place).copied().flatten()
    }

    fn set(&mut self, place: usize, block: Option<BlockId>) {
        if let Some(slot) = self.slots.get_mut(place) {
            *slot = block;
        }
    }

    /// The body of a clause; a new block, where nothing leads there yet.
    fn to(&mut self, flow: &mut Flow<'_>, place: usize) -> Result<BlockId, NoMemory> {
        let mut slot = self.get(place);
        let block = flow.builder.to(&mut slot)?;
        self.set(place, slot);
        Ok(block)
    }
}

/// The tests of a switch while they are built.
#[derive(Drop)]
struct Tests {
    slots: Slots,
    /// How many tests are left.
    left: usize,
    /// The number of the default clause.
    default: Option<usize>,
}

impl Tests {
    /// Where a test leads that does not hold.
    fn otherwise(&mut self, flow: &mut Flow<'_>) -> Result<BlockId, NoMemory> {
        if self.left > 0 {
            return flow.builder.add_block();
        }
        match self.default {
            Some(place) => self.slots.to(flow, place),
            None => flow.behind(),
        }
    }

    /// A test of a case of a clause.
    fn branch(
        &mut self,
        flow: &mut Flow<'_>,
        place: usize,
        test: Operand,
        at: Pos,
    ) -> Result<(), NoMemory> {
        self.left = self.left.saturating_sub(1);
        let then_to = self.slots.to(flow, place)?;
        let else_to = self.otherwise(flow)?;
        let op = Op::If {
            test,
            then_to,
            else_to,
        };
        flow.builder.effect(op, at)?;
        if self.left > 0 {
            flow.enter(else_to)?;
        }
        Ok(())
    }

    /// Without any test the default is next.
    fn untested(&mut self, flow: &mut Flow<'_>, at: Pos) -> Result<(), NoMemory> {
        if let Some(place) = self.default {
            let to = self.slots.to(flow, place)?;
            flow.builder.jump(to, at)?;
        }
        Ok(())
    }
}

#[cycle(statements)]
pub(crate) fn lower_switch(flow: &mut Flow<'_>, stmt: &TypedStmt) -> Result<(), NoMemory> {
    let TypedStmt::Switch {
        at,
        init,
        tag,
        clauses,
        ..
    } = stmt
    else {
        return Err(lost());
    };
    lower_init(flow, init)?;
    if flow.builder.is_ended() {
        return Ok(());
    }
    flow.push_exit(Exit::of_choice())?;
    let slots = lower_tests(flow, tag, clauses.as_slice(), *at)?;
    lower_clauses(flow, clauses.as_slice(), slots)?;
    leave_choice(flow)
}

fn leave_choice(flow: &mut Flow<'_>) -> Result<(), NoMemory> {
    let exit = flow.pop_exit()?;
    if flow.builder.is_ended() {
        flow.enter_if_filled(exit.behind)?;
    }
    Ok(())
}

fn case_count(clauses: &[TypedClause]) -> usize {
    let mut count = 0usize;
    for clause in clauses {
        count = count.saturating_add(clause.cases.len());
    }
    count
}

fn default_of(clauses: &[TypedClause]) -> Option<usize> {
    clauses.iter().position(|clause| clause.is_default)
}

/// The tag, once, and the tests in source order.
fn lower_tests(
    flow: &mut Flow<'_>,
    tag: &Option<TypedExpr>,
    clauses: &[TypedClause],
    at: Pos,
) -> Result<Slots, NoMemory> {
    let tag = match tag {
        Some(tag) => Some((lower_expr(&mut flow.builder, tag)?, tag.of)),
        None => None,
    };
    let mut tests = Tests {
        slots: Slots::new(flow, clauses.len())?,
        left: case_count(clauses),
        default: default_of(clauses),
    };
    if tests.left == 0 {
        tests.untested(flow, at)?;
        return Ok(tests.slots);
    }
    for (place, clause) in clauses.iter().enumerate() {
        lower_cases(flow, &mut tests, place, &tag, clause.cases.as_slice())?;
    }
    Ok(tests.slots)
}

fn lower_cases(
    flow: &mut Flow<'_>,
    tests: &mut Tests,
    place: usize,
    tag: &Option<(Operand, TypeId)>,
    cases: &[TypedCase],
) -> Result<(), NoMemory> {
    for case in cases {
        let test = lower_case(flow, tag, case)?;
        tests.branch(flow, place, test, case.at)?;
    }
    Ok(())
}

/// Whether a case is met.
fn lower_case(
    flow: &mut Flow<'_>,
    tag: &Option<(Operand, TypeId)>,
    case: &TypedCase,
) -> Result<Operand, NoMemory> {
    let Some((tag, of)) = tag else {
        return lower_expr(&mut flow.builder, &case.value);
    };
    let left = widened(flow, tag, *of, case)?;
    let right = lower_expr(&mut flow.builder, &case.value)?;
    let op = Infix::Compare(CompareOp::Equal);
    flow.builder
        .value(Op::Binary { op, left, right }, bool_type(), case.at)
}

/// The tag as it is compared with a case: made one of an interface, or a channel of one direction.
fn widened(
    flow: &mut Flow<'_>,
    tag: &Operand,
    of: TypeId,
    case: &TypedCase,
) -> Result<Operand, NoMemory> {
    let operand = tag.copy(flow.builder.allocator())?;
    let Some(to) = case.tag_to else {
        return Ok(operand);
    };
    let becomes_interface = matches!(flow.builder.under(to)?, TypeTerm::Interface(_));
    let is_interface = matches!(flow.builder.under(of)?, TypeTerm::Interface(_));
    let op = widening(becomes_interface, is_interface, to, operand);
    flow.builder.value(op, to, case.at)
}

/// What makes an operand one of another type.
fn widening(becomes_interface: bool, is_interface: bool, to: TypeId, operand: Operand) -> Op {
    match (becomes_interface, is_interface) {
        (false, _) => Op::ChangeType { to, operand },
        (true, true) => Op::ChangeInterface { to, operand },
        (true, false) => Op::MakeInterface { to, operand },
    }
}

#[cycle(statements)]
fn lower_clauses(
    flow: &mut Flow<'_>,
    clauses: &[TypedClause],
    slots: Slots,
) -> Result<(), NoMemory> {
    let mut slots = slots;
    let mut place = 0usize;
    for clause in clauses {
        let next = place.saturating_add(1);
        if let Some(block) = slots.get(place) {
            flow.set_clause(slots.get(next));
            flow.enter(block)?;
            lower_block(flow, &clause.body)?;
            slots.set(next, flow.clause());
            leave_clause(flow, clause.body.end)?;
        }
        place = next;
    }
    Ok(())
}

/// A clause that comes to its end leads behind the statement.
pub(crate) fn leave_clause(flow: &mut Flow<'_>, at: Pos) -> Result<(), NoMemory> {
    if flow.builder.is_ended() {
        return Ok(());
    }
    let to = flow.behind()?;
    flow.builder.jump(to, at)
}

/// What a switch over types has found out: the operand, its type, and for each clause of one case that is a type the tuple
/// of the assertion.
#[derive(Drop)]
struct Looked {
    operand: Operand,
    of: TypeId,
    asserted: Vec<Option<Operand>>,
}

#[cycle(statements)]
pub(crate) fn lower_type_switch(flow: &mut Flow<'_>, stmt: &TypedStmt) -> Result<(), NoMemory> {
    let TypedStmt::TypeSwitch {
        at,
        init,
        operand,
        clauses,
        ..
    } = stmt
    else {
        return Err(lost());
    };
    lower_init(flow, init)?;
    if flow.builder.is_ended() {
        return Ok(());
    }
    let of = operand.of;
    let operand = lower_expr(&mut flow.builder, operand)?;
    flow.push_exit(Exit::of_choice())?;
    let mut looked = Looked {
        operand,
        of,
        asserted: Vec::new(flow.builder.allocator()),
    };
    let slots = lower_type_tests(flow, &mut looked, clauses.as_slice(), *at)?;
    lower_type_clauses(flow, clauses.as_slice(), slots, looked)?;
    leave_choice(flow)
}

fn type_case_count(clauses: &[TypeClause]) -> usize {
    let mut count = 0usize;
    for clause in clauses {
        count = count.saturating_add(clause.cases.len());
    }
    count
}

fn type_default_of(clauses: &[TypeClause]) -> Option<usize> {
    clauses.iter().position(|clause| clause.is_default)
}

fn lower_type_tests(
    flow: &mut Flow<'_>,
    looked: &mut Looked,
    clauses: &[TypeClause],
    at: Pos,
) -> Result<Slots, NoMemory> {
    let mut tests = Tests {
        slots: Slots::new(flow, clauses.len())?,
        left: type_case_count(clauses),
        default: type_default_of(clauses),
    };
    if tests.left == 0 {
        tests.untested(flow, at)?;
    }
    for (place, clause) in clauses.iter().enumerate() {
        let asserted = lower_type_cases(flow, &mut tests, place, looked, clause)?;
        looked.asserted.push(asserted)?;
    }
    Ok(tests.slots)
}

/// The tests of a clause; the tuple of the assertion where it has one case, which is a type.
fn lower_type_cases(
    flow: &mut Flow<'_>,
    tests: &mut Tests,
    place: usize,
    looked: &Looked,
    clause: &TypeClause,
) -> Result<Option<Operand>, NoMemory> {
    let mut asserted = None;
    for case in clause.cases.as_slice() {
        let (tuple, test) = lower_type_case(flow, looked, *case, clause.at)?;
        tests.branch(flow, place, test, clause.at)?;
        asserted = tuple;
    }
    if clause.cases.len() == 1 {
        return Ok(asserted);
    }
    Ok(None)
}

fn lower_type_case(
    flow: &mut Flow<'_>,
    looked: &Looked,
    case: TypeCase,
    at: Pos,
) -> Result<(Option<Operand>, Operand), NoMemory> {
    let operand = looked.operand.copy(flow.builder.allocator())?;
    match case {
        TypeCase::Nil => {
            let right = Operand::Constant {
                value: ConstValue::Nil,
                of: looked.of,
            };
            let op = Op::Binary {
                op: Infix::Compare(CompareOp::Equal),
                left: operand,
                right,
            };
            Ok((None, flow.builder.value(op, bool_type(), at)?))
        }
        TypeCase::Of(to) => {
            let tuple_of = flow.builder.tuple_of(&[to, bool_type()])?;
            let op = Op::TypeAssert {
                operand,
                to,
                comma_ok: true,
            };
            let tuple = flow.builder.value(op, tuple_of, at)?;
            let whole = tuple.copy(flow.builder.allocator())?;
            let op = Op::Extract {
                operand: whole,
                part: 1,
            };
            let test = flow.builder.value(op, bool_type(), at)?;
            Ok((Some(tuple), test))
        }
    }
}

#[cycle(statements)]
fn lower_type_clauses(
    flow: &mut Flow<'_>,
    clauses: &[TypeClause],
    slots: Slots,
    looked: Looked,
) -> Result<(), NoMemory> {
    let mut place = 0usize;
    for clause in clauses {
        if let Some(block) = slots.get(place) {
            flow.enter(block)?;
            bind_clause(flow, clause, &looked, place)?;
            lower_block(flow, &clause.body)?;
            leave_clause(flow, clause.body.end)?;
        }
        place = place.saturating_add(1);
    }
    Ok(())
}

/// The variable of a clause begins.
fn bind_clause(
    flow: &mut Flow<'_>,
    clause: &TypeClause,
    looked: &Looked,
    place: usize,
) -> Result<(), NoMemory> {
    let Some(var) = clause.variable else {
        return Ok(());
    };
    let alloc = flow.builder.allocator();
    match looked.asserted.get(place) {
        Some(Some(tuple)) => {
            let operand = tuple.copy(alloc)?;
            let variable = *flow.builder.variable(var)?;
            flow.builder.begin_var(var)?;
            let op = Op::Extract { operand, part: 0 };
            let value = flow.builder.value(op, variable.of, variable.at)?;
            flow.builder.write_var(var, value, variable.at)
        }
        Some(None) => {
            let value = looked.operand.copy(alloc)?;
            begin_with(flow, var, value)
        }
        None => Err(lost()),
    }
}
