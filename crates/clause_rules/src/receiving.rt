//! The cases of a select. Go specification, "Select statements".

use go_base::{NoMemory, Pos, Rule, TypeId};
use go_places::{expr_start, stmt_start};
use go_syntax::{Expr, ListedExpr, Stmt};
use go_tree::{Comm, ExprKind, ReceiveInto, TypedExpr};
use go_type::{Basic, basic};
use stmt_rules::{Left, Lefts, Side, Walker, nothing, targets_of};
use typed_operators::send;
use typed_parts::{Given, assigned_ok, assigned_part, beside, both, only, with_last};

/// A case of a select that was seen, and whose names are not declared yet.
#[derive(Drop)]
pub enum SeenComm {
    /// Something in it is unsound.
    Unsound,
    Whole(Comm),
    /// A receive that declares variables, of the type of the element.
    Define {
        channel: Option<TypedExpr>,
        of: Option<TypeId>,
        lefts: Lefts,
    },
}

/// The channel of a receive, and the type of what is received.
#[derive(Drop)]
pub struct Received {
    pub channel: TypedExpr,
    pub of: TypeId,
}

/// The channel of a typed receive.
fn receive_of(expr: TypedExpr) -> Option<Received> {
    let (_at, of, kind) = expr.into_parts();
    match kind {
        ExprKind::Receive { channel, .. } => Some(Received {
            channel: Box::into_inner(channel),
            of,
        }),
        kind => nothing(kind),
    }
}

/// Whether a typed expression is a receive.
fn is_receive(expr: &TypedExpr) -> bool {
    matches!(&expr.kind, ExprKind::Receive { .. })
}

/// What a clause of a select waits for.
pub fn see_comm(walker: &mut Walker<'_>, comm: &Stmt) -> Result<SeenComm, NoMemory> {
    let at = walker.pos(stmt_start(comm));
    match comm {
        Stmt::Send { channel, value, .. } => comm_send(walker, channel, value),
        Stmt::Expr(expr) => comm_receive(walker, at, expr),
        Stmt::Assign {
            targets,
            values,
            ..
        } => comm_assign(walker, at, targets, values),
        Stmt::Define {
            targets,
            values,
            ..
        } => comm_define(walker, at, targets, values),
        _ => Ok(SeenComm::Unsound),
    }
}

fn comm_send(walker: &mut Walker<'_>, channel: &Expr, value: &Expr) -> Result<SeenComm, NoMemory> {
    let channel = walker.see(channel)?;
    let (value, channel) = beside(walker.see(value), channel)?;
    match send(walker.scope.ground(), channel, value)? {
        Some(sent) => Ok(SeenComm::Whole(Comm::Send {
            channel: sent.channel,
            value: sent.value,
        })),
        None => Ok(SeenComm::Unsound),
    }
}

fn comm_receive(walker: &mut Walker<'_>, at: Pos, expr: &Expr) -> Result<SeenComm, NoMemory> {
    let Some(given) = walker.see_value(expr)? else {
        return Ok(SeenComm::Unsound);
    };
    let Some(received) = receive_of(given.expr) else {
        walker.report(at, Rule::BadChannelOperation);
        return Ok(SeenComm::Unsound);
    };
    Ok(SeenComm::Whole(Comm::Receive {
        channel: received.channel,
        into: ReceiveInto::Nothing,
    }))
}

/// The one value of a receiving case.
fn comm_value(walker: &mut Walker<'_>, values: &[ListedExpr]) -> Result<Option<Given>, NoMemory> {
    match values {
        [value] => walker.see_value(&value.expr),
        _ => Ok(None),
    }
}

fn comm_assign(
    walker: &mut Walker<'_>,
    at: Pos,
    targets: &[ListedExpr],
    values: &[ListedExpr],
) -> Result<SeenComm, NoMemory> {
    let sides = walker.sides(targets)?;
    let (given, sides) = beside(comm_value(walker, values), sides)?;
    let Some((given, sides)) = given.zip(Some(sides)) else {
        return Ok(SeenComm::Unsound);
    };
    if sides.len() > 2 {
        walker.report(given.at, Rule::WrongNumberOfValues);
    }
    let are_sound = are_sound(&sides);
    if are_sound && !is_receive(&given.expr) {
        walker.report(at, Rule::BadChannelOperation);
    }
    let (value_at, of) = (given.at, given.expr.of);
    match receive_of(given.expr).zip(Some(sides)) {
        Some((received, sides)) => assigned_comm(walker, value_at, of, received, sides),
        None => Ok(SeenComm::Unsound),
    }
}

/// A receive that assigns what is received, of a type, to sides.
fn assigned_comm(
    walker: &mut Walker<'_>,
    at: Pos,
    of: TypeId,
    received: Received,
    sides: Vec<Side>,
) -> Result<SeenComm, NoMemory> {
    let fits = sides.len() <= 2;
    let parts = parts_of(walker, at, of, &sides);
    let into = both(targets_of(walker.alloc, sides), parts);
    let (into, received) = beside(into, received)?;
    match only(into, fits).zip(Some(received.channel)) {
        Some(((targets, parts), channel)) => Ok(SeenComm::Whole(Comm::Receive {
            channel,
            into: ReceiveInto::Assign { targets, parts },
        })),
        None => Ok(SeenComm::Unsound),
    }
}

/// What is received, as values of the sides: the element, and whether it was sent.
fn parts_of(
    walker: &mut Walker<'_>,
    at: Pos,
    of: TypeId,
    sides: &[Side],
) -> Result<Option<Vec<TypedExpr>>, NoMemory> {
    let mut parts = Some(Vec::new(walker.alloc));
    for (index, side) in sides.iter().enumerate() {
        let (part, before) = beside(part_of(walker, at, of, index, side), parts)?;
        parts = with_last(before, part)?;
    }
    Ok(parts)
}

/// What is received, as the value of the side of an index.
fn part_of(
    walker: &mut Walker<'_>,
    at: Pos,
    of: TypeId,
    index: usize,
    side: &Side,
) -> Result<Option<TypedExpr>, NoMemory> {
    match (index, side) {
        (_, Side::Place(None)) => Ok(None),
        (0, side) => {
            let to = type_of_side(side).unwrap_or(of);
            assigned_part(walker.scope.ground(), at, 0, of, to)
        }
        (1, side) => {
            let to = type_of_side(side).unwrap_or(basic(Basic::Bool));
            assigned_ok(walker.scope.ground(), at, to)
        }
        _ => Ok(None),
    }
}

fn comm_define(
    walker: &mut Walker<'_>,
    at: Pos,
    targets: &[ListedExpr],
    values: &[ListedExpr],
) -> Result<SeenComm, NoMemory> {
    let mut lefts = walker.lefts(targets)?;
    let given = comm_value(walker, values)?;
    let Some(given) = given else {
        lefts.is_sound = false;
        return Ok(SeenComm::Define {
            channel: None,
            of: None,
            lefts,
        });
    };
    if !(lefts.are_names && lefts.any_new) {
        walker.report(at, Rule::NoNewVariable);
        lefts.is_sound = false;
    }
    if targets.len() > 2 {
        walker.report(given.at, Rule::WrongNumberOfValues);
        lefts.is_sound = false;
    }
    if !is_receive(&given.expr) {
        walker.report(at, Rule::BadChannelOperation);
    }
    match receive_of(given.expr) {
        Some(received) => Ok(SeenComm::Define {
            channel: Some(received.channel),
            of: Some(received.of),
            lefts,
        }),
        None => Ok(SeenComm::Define {
            channel: None,
            of: None,
            lefts,
        }),
    }
}

/// The names of a receiving case are in scope from here on.
pub fn finish_comm(walker: &mut Walker<'_>, seen: SeenComm) -> Result<Option<Comm>, NoMemory> {
    match seen {
        SeenComm::Unsound => Ok(None),
        SeenComm::Whole(comm) => Ok(Some(comm)),
        SeenComm::Define { channel, of, lefts } => define_comm(walker, channel, of, &lefts),
    }
}

/// A receiving case that declares variables.
fn define_comm(
    walker: &mut Walker<'_>,
    channel: Option<TypedExpr>,
    of: Option<TypeId>,
    lefts: &Lefts,
) -> Result<Option<Comm>, NoMemory> {
    let truth = of.map(|_| basic(Basic::Bool));
    let types = [of, truth];
    let targets = walker.declare_lefts(lefts.names.as_slice(), &types);
    let (targets, channel) = beside(targets, channel)?;
    match only(channel, lefts.is_sound).zip(Some(targets)) {
        Some((channel, targets)) => Ok(Some(Comm::Receive {
            channel,
            into: ReceiveInto::Define { targets },
        })),
        None => Ok(None),
    }
}

/// Whether all sides are sound.
fn are_sound(sides: &[Side]) -> bool {
    for side in sides {
        if let Side::Place(None) = side {
            return false;
        }
    }
    true
}

/// The type of a side, where it is a place.
pub fn type_of_side(side: &Side) -> Option<TypeId> {
    match side {
        Side::Place(Some(place)) => Some(place.of),
        _ => None,
    }
}
