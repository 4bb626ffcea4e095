//! Code of expressions. Go specification, "Expressions" and "Order of evaluation".

use crate::builder::{Builder, Parts};
use crate::built_ins::lower_builtin;
use crate::calls::lower_call;
use crate::composites::{composite_address, composite_value};
use crate::error::lost;
use crate::joining::{beside, kept};
use crate::places::{address, check_pointer, read_place};
use go_base::{BlockId, Bytes, FuncId, NameId, NoMemory, Pos, TypeId, VarId};
use go_tree::{ExprKind, IndexBase, Method, TypedExpr};
use go_type::{
    Basic, BinaryOp, CompareOp, Const, SelectionKind, TypeTerm, UnaryOp, basic, int_kind,
};
use ssa_ir::{ConstValue, Infix, Op, Operand, Operands, PhiEdge, PhiEdges, WrapNeed};
use std::alloc::Global;

/// The operand that an expression is, and its code in the builder's current block.
#[cycle(lower)]
pub fn lower_expr(builder: &mut Builder<'_>, expr: &TypedExpr) -> Result<Operand, NoMemory> {
    match &expr.kind {
        ExprKind::ConstOf(_)
        | ExprKind::NilOf
        | ExprKind::VarOf(_)
        | ExprKind::FunctionOf(_)
        | ExprKind::LiteralOf(_)
        | ExprKind::MethodExpr { .. }
        | ExprKind::PartOf(_) => lower_leaf(builder, expr),
        ExprKind::MethodValue { .. }
        | ExprKind::UnaryOf { .. }
        | ExprKind::Receive { .. }
        | ExprKind::ConvertTo(_)
        | ExprKind::ToInterface(_)
        | ExprKind::AssertTo { .. } => lower_unary(builder, expr),
        ExprKind::BinaryOf { .. }
        | ExprKind::CompareOf { .. }
        | ExprKind::AndAlso { .. }
        | ExprKind::OrElse { .. }
        | ExprKind::MapIndex { .. }
        | ExprKind::IndexOf {
            base: IndexBase::Text,
            ..
        } => lower_binary(builder, expr),
        ExprKind::FieldOf { .. } | ExprKind::Deref(_) | ExprKind::IndexOf { .. } => {
            read_place(builder, expr)
        }
        ExprKind::SliceOf { .. } => lower_slice(builder, expr),
        ExprKind::AddressOf(place) => address_of(builder, place, expr.of),
        ExprKind::CallOf { .. } => lower_call(builder, expr),
        ExprKind::BuiltinOf { .. } => lower_builtin(builder, expr),
        ExprKind::CompositeOf(elements) => composite_value(builder, elements, expr.of, expr.at),
    }
}

/// An expression without operands.
fn lower_leaf(builder: &mut Builder<'_>, expr: &TypedExpr) -> Result<Operand, NoMemory> {
    match &expr.kind {
        ExprKind::ConstOf(value) => constant(builder.allocator(), value, expr.of),
        ExprKind::NilOf => Ok(nil(expr.of)),
        ExprKind::VarOf(var) => builder.read_var(*var, expr.at),
        ExprKind::FunctionOf(function) => Ok(Operand::Function(*function)),
        ExprKind::LiteralOf(function) => literal(builder, *function, expr.of, expr.at),
        ExprKind::MethodExpr {
            receiver,
            name,
            package,
        } => method_expression(builder, *receiver, *name, *package),
        ExprKind::PartOf(part) => lower_part(builder, *part, expr.of, expr.at),
        _ => Err(lost()),
    }
}

/// An expression of one operand.
#[cycle(lower)]
fn lower_unary(builder: &mut Builder<'_>, expr: &TypedExpr) -> Result<Operand, NoMemory> {
    match &expr.kind {
        ExprKind::MethodValue { receiver, method } => {
            let operand = lower_expr(builder, receiver)?;
            bound_method(builder, operand, receiver.of, *method, expr)
        }
        ExprKind::UnaryOf { op, operand } => {
            let operand = lower_expr(builder, operand)?;
            unary(builder, *op, operand, expr)
        }
        ExprKind::Receive { channel, comma_ok } => {
            let channel = lower_expr(builder, channel)?;
            receive(builder, channel, *comma_ok, expr)
        }
        ExprKind::ConvertTo(operand) => {
            let from = operand.of;
            let operand = lower_expr(builder, operand)?;
            convert(builder, operand, from, expr)
        }
        ExprKind::ToInterface(operand) => {
            let from = operand.of;
            let operand = lower_expr(builder, operand)?;
            to_interface(builder, operand, from, expr)
        }
        ExprKind::AssertTo {
            operand,
            to,
            comma_ok,
        } => {
            let operand = lower_expr(builder, operand)?;
            assert(builder, operand, *to, *comma_ok, expr)
        }
        _ => Err(lost()),
    }
}

/// An expression of two operands, the left one first.
#[cycle(lower)]
fn lower_binary(builder: &mut Builder<'_>, expr: &TypedExpr) -> Result<Operand, NoMemory> {
    match &expr.kind {
        ExprKind::BinaryOf { op, left, right } => {
            let left = lower_expr(builder, left)?;
            let (right, left) = beside(lower_expr(builder, right), left)?;
            binary(builder, *op, left, right, expr)
        }
        ExprKind::CompareOf { op, left, right } => {
            let left = lower_expr(builder, left)?;
            let (right, left) = beside(lower_expr(builder, right), left)?;
            compare(builder, *op, left, right, expr)
        }
        ExprKind::AndAlso { left, right } => {
            let test = lower_expr(builder, left)?;
            lower_right(builder, true, test, right, expr.of, expr.at)
        }
        ExprKind::OrElse { left, right } => {
            let test = lower_expr(builder, left)?;
            lower_right(builder, false, test, right, expr.of, expr.at)
        }
        ExprKind::MapIndex { map, key, comma_ok } => {
            let map = lower_expr(builder, map)?;
            let (key, map) = beside(lower_expr(builder, key), map)?;
            lookup(builder, map, key, *comma_ok, expr)
        }
        ExprKind::IndexOf { operand, index, .. } => {
            let operand = lower_expr(builder, operand)?;
            let (index, operand) = beside(lower_expr(builder, index), operand)?;
            builder.value(Op::Index { operand, index }, expr.of, expr.at)
        }
        _ => Err(lost()),
    }
}

#[cycle(lower)]
fn lower_slice(builder: &mut Builder<'_>, expr: &TypedExpr) -> Result<Operand, NoMemory> {
    let ExprKind::SliceOf {
        operand,
        low,
        high,
        max,
        ..
    } = &expr.kind
    else {
        return Err(lost());
    };
    let operand = lower_expr(builder, operand)?;
    let (low, operand) = beside(lower_bound(builder, low), operand)?;
    let (high, (operand, low)) = beside(lower_bound(builder, high), (operand, low))?;
    let (max, (operand, low, high)) = beside(lower_bound(builder, max), (operand, low, high))?;
    slice(builder, operand, low, high, max, expr)
}

#[cycle(lower)]
fn lower_bound(
    builder: &mut Builder<'_>,
    bound: &Option<Box<TypedExpr>>,
) -> Result<Option<Operand>, NoMemory> {
    match bound {
        Some(bound) => Ok(Some(lower_expr(builder, bound)?)),
        None => Ok(None),
    }
}

/// The address of a place or of a new composite value; the pointer itself under a dereference, once it is not nil.
#[cycle(lower)]
fn address_of(
    builder: &mut Builder<'_>,
    place: &TypedExpr,
    of: TypeId,
) -> Result<Operand, NoMemory> {
    match &place.kind {
        ExprKind::CompositeOf(elements) => {
            composite_address(builder, elements, place.of, of, place.at)
        }
        ExprKind::Deref(pointer) => {
            let pointer = lower_expr(builder, pointer)?;
            let checked = check_pointer(builder, &pointer, place);
            kept(pointer, checked)
        }
        _ => address(builder, place),
    }
}

/// `&&` and `||`, the left side evaluated: the right side is evaluated where that does not decide.
#[cycle(lower)]
fn lower_right(
    builder: &mut Builder<'_>,
    both: bool,
    test: Operand,
    right: &TypedExpr,
    of: TypeId,
    at: Pos,
) -> Result<Operand, NoMemory> {
    let from = builder.current();
    let join = branch_right(builder, both, test, at)?;
    let value = lower_expr(builder, right)?;
    let end = builder.current();
    let joined = go_on(builder, join, at);
    let value = kept(value, joined)?;
    let decided = truth(!both, of);
    if is_truth(&value, !both) {
        drop(value);
        return Ok(decided);
    }
    let mut edges = PhiEdges::new(builder.allocator());
    let pushed = edges.push(PhiEdge {
        from,
        value: decided,
    });
    let value = kept(value, pushed)?;
    edges.push(PhiEdge { from: end, value })?;
    builder.value(Op::Phi(edges), of, at)
}

/// The current block leads to another, which is then the current one and has all its predecessors.
fn go_on(builder: &mut Builder<'_>, to: BlockId, at: Pos) -> Result<(), NoMemory> {
    builder.jump(to, at)?;
    builder.enter(to);
    builder.seal(to)
}

/// The builder then stands where the right side is evaluated. The answer is the block behind it.
fn branch_right(
    builder: &mut Builder<'_>,
    both: bool,
    test: Operand,
    at: Pos,
) -> Result<BlockId, NoMemory> {
    let ((right_block, join), test) = beside(two_blocks(builder), test)?;
    let (then_to, else_to) = if both {
        (right_block, join)
    } else {
        (join, right_block)
    };
    builder.effect(
        Op::If {
            test,
            then_to,
            else_to,
        },
        at,
    )?;
    builder.enter(right_block);
    builder.seal(right_block)?;
    Ok(join)
}

fn two_blocks(builder: &mut Builder<'_>) -> Result<(BlockId, BlockId), NoMemory> {
    let first = builder.add_block()?;
    let second = builder.add_block()?;
    Ok((first, second))
}

/// Whether an operand is the constant of a truth.
fn is_truth(operand: &Operand, wanted: bool) -> bool {
    match operand {
        Operand::Constant {
            value: ConstValue::Truth(truth),
            ..
        } => *truth == wanted,
        _ => false,
    }
}

fn truth(value: bool, of: TypeId) -> Operand {
    Operand::Constant {
        value: ConstValue::Truth(value),
        of,
    }
}

/// The operand `nil` of a type.
pub(crate) fn nil(of: TypeId) -> Operand {
    Operand::Constant {
        value: ConstValue::Nil,
        of,
    }
}

fn constant(alloc: Global, value: &Const, of: TypeId) -> Result<Operand, NoMemory> {
    let value = const_value(alloc, value)?;
    Ok(Operand::Constant { value, of })
}

fn const_value(alloc: Global, value: &Const) -> Result<ConstValue, NoMemory> {
    match value {
        Const::Int(number) | Const::Rune(number) => Ok(ConstValue::Int(*number)),
        Const::Text(bytes) => {
            let bytes = Vec::from_slice(alloc, bytes.as_slice())?;
            Ok(ConstValue::Text(Bytes::new(bytes)))
        }
        Const::Truth(truth) => Ok(ConstValue::Truth(*truth)),
    }
}

/// The variables that a function literal captures.
pub(crate) fn captured_by<'a>(
    builder: &Builder<'a>,
    function: FuncId,
) -> Result<&'a [VarId], NoMemory> {
    let bodies = builder.program().bodies.as_slice();
    match bodies.get(function.number as usize) {
        Some(Some(body)) => Ok(body.captured.as_slice()),
        _ => Err(lost()),
    }
}

/// A function literal as a value.
pub(crate) fn literal(
    builder: &mut Builder<'_>,
    function: FuncId,
    of: TypeId,
    at: Pos,
) -> Result<Operand, NoMemory> {
    let variables = captured_by(builder, function)?;
    if variables.is_empty() {
        return Ok(Operand::Function(function));
    }
    let mut captured = Operands::new(builder.allocator());
    for var in variables {
        match builder.cell(*var)? {
            Some(cell) => captured.push(cell)?,
            None => return Err(lost()),
        }
    }
    builder.value(Op::MakeClosure { function, captured }, of, at)
}

/// A method with its receiver.
fn bound_method(
    builder: &mut Builder<'_>,
    operand: Operand,
    of: TypeId,
    method: Method,
    expr: &TypedExpr,
) -> Result<Operand, NoMemory> {
    let function = bound_function(builder, of, method);
    let (function, operand) = beside(function, operand)?;
    let mut captured = Operands::new(builder.allocator());
    captured.push(operand)?;
    builder.value(Op::MakeClosure { function, captured }, expr.of, expr.at)
}

/// The function of a method value.
fn bound_function(
    builder: &mut Builder<'_>,
    receiver: TypeId,
    method: Method,
) -> Result<FuncId, NoMemory> {
    let need = match method {
        Method::Interface { name, package } => WrapNeed::Bound {
            receiver,
            name,
            package,
        },
        Method::Concrete(function) => concrete_need(builder, function)?,
    };
    builder.need(need)
}

/// The need of a method value of a concrete method.
fn concrete_need(builder: &Builder<'_>, function: FuncId) -> Result<WrapNeed, NoMemory> {
    let functions = builder.program().functions.as_slice();
    let Some(decl) = functions.get(function.number as usize) else {
        return Err(lost());
    };
    let Some(receiver) = decl.receiver else {
        return Err(lost());
    };
    let base = match builder.types().get(receiver) {
        Some(TypeTerm::Pointer(base)) => *base,
        _ => receiver,
    };
    let methods = builder.types().methods(base);
    let found = methods
        .iter()
        .find(|entry| entry.kind == SelectionKind::Method(function));
    match found {
        Some(entry) => Ok(WrapNeed::Bound {
            receiver,
            name: entry.name,
            package: entry.package,
        }),
        None => Err(lost()),
    }
}

fn method_expression(
    builder: &mut Builder<'_>,
    receiver: TypeId,
    name: NameId,
    package: u32,
) -> Result<Operand, NoMemory> {
    let function = builder.need(WrapNeed::Expression {
        receiver,
        name,
        package,
    })?;
    Ok(Operand::Function(function))
}

fn slice(
    builder: &mut Builder<'_>,
    operand: Operand,
    low: Option<Operand>,
    high: Option<Operand>,
    max: Option<Operand>,
    expr: &TypedExpr,
) -> Result<Operand, NoMemory> {
    let op = Op::Slice {
        operand,
        low,
        high,
        max,
    };
    builder.value(op, expr.of, expr.at)
}

fn unary(
    builder: &mut Builder<'_>,
    op: UnaryOp,
    operand: Operand,
    expr: &TypedExpr,
) -> Result<Operand, NoMemory> {
    builder.value(Op::Unary { op, operand }, expr.of, expr.at)
}

fn receive(
    builder: &mut Builder<'_>,
    channel: Operand,
    comma_ok: bool,
    expr: &TypedExpr,
) -> Result<Operand, NoMemory> {
    builder.value(Op::Receive { channel, comma_ok }, expr.of, expr.at)
}

fn lookup(
    builder: &mut Builder<'_>,
    map: Operand,
    key: Operand,
    comma_ok: bool,
    expr: &TypedExpr,
) -> Result<Operand, NoMemory> {
    builder.value(Op::Lookup { map, key, comma_ok }, expr.of, expr.at)
}

fn binary(
    builder: &mut Builder<'_>,
    op: BinaryOp,
    left: Operand,
    right: Operand,
    expr: &TypedExpr,
) -> Result<Operand, NoMemory> {
    let op = Infix::Operate(op);
    builder.value(Op::Binary { op, left, right }, expr.of, expr.at)
}

fn compare(
    builder: &mut Builder<'_>,
    op: CompareOp,
    left: Operand,
    right: Operand,
    expr: &TypedExpr,
) -> Result<Operand, NoMemory> {
    let op = Infix::Compare(op);
    builder.value(Op::Binary { op, left, right }, expr.of, expr.at)
}

/// What a conversion between two types does.
fn convert(
    builder: &mut Builder<'_>,
    operand: Operand,
    from: TypeId,
    expr: &TypedExpr,
) -> Result<Operand, NoMemory> {
    let to = expr.of;
    let (changes, operand) = beside(changes_value(builder, from, to), operand)?;
    let op = if changes {
        Op::Convert { to, operand }
    } else {
        Op::ChangeType { to, operand }
    };
    builder.value(op, to, expr.at)
}

/// Whether a conversion makes another value: from integers to integers or strings, and between strings and slices.
fn changes_value(builder: &Builder<'_>, from: TypeId, to: TypeId) -> Result<bool, NoMemory> {
    if int_kind(builder.types(), from).is_some() {
        return Ok(true);
    }
    let from = builder.under(from)?;
    let to = builder.under(to)?;
    let slices = matches!(from, TypeTerm::Slice(_)) || matches!(to, TypeTerm::Slice(_));
    let texts = is_text(from) || is_text(to);
    Ok(slices && texts)
}

fn is_text(term: &TypeTerm) -> bool {
    matches!(term, TypeTerm::Basic(Basic::Text))
}

fn to_interface(
    builder: &mut Builder<'_>,
    operand: Operand,
    from: TypeId,
    expr: &TypedExpr,
) -> Result<Operand, NoMemory> {
    let to = expr.of;
    let (changes, operand) = beside(is_interface(builder, from), operand)?;
    let op = if changes {
        Op::ChangeInterface { to, operand }
    } else {
        Op::MakeInterface { to, operand }
    };
    builder.value(op, to, expr.at)
}

fn is_interface(builder: &Builder<'_>, of: TypeId) -> Result<bool, NoMemory> {
    Ok(matches!(builder.under(of)?, TypeTerm::Interface(_)))
}

fn assert(
    builder: &mut Builder<'_>,
    operand: Operand,
    to: TypeId,
    comma_ok: bool,
    expr: &TypedExpr,
) -> Result<Operand, NoMemory> {
    let op = Op::TypeAssert {
        operand,
        to,
        comma_ok,
    };
    builder.value(op, expr.of, expr.at)
}

/// A part of the tuple or the operands in force.
fn lower_part(
    builder: &mut Builder<'_>,
    part: u32,
    of: TypeId,
    at: Pos,
) -> Result<Operand, NoMemory> {
    let alloc = builder.allocator();
    let operand = match &builder.parts {
        Parts::Tuple(tuple) => tuple.copy(alloc)?,
        Parts::List(operands) => {
            return match operands.get(part as usize) {
                Some(operand) => operand.copy(alloc),
                None => Err(lost()),
            };
        }
        Parts::Nothing => return Err(lost()),
    };
    builder.value(Op::Extract { operand, part }, of, at)
}

/// The type `int`.
pub(crate) fn int_type() -> TypeId {
    basic(Basic::Int)
}
