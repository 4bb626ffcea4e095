//! Calls of built-in functions. Go specification, "Built-in functions".

use crate::builder::{Builder, integer, zero};
use crate::calls::{lower_list, make_call, push_all};
use crate::error::lost;
use crate::exprs::int_type;
use crate::joining::{beside, two};
use crate::places::index_address;
use go_base::{NoMemory, Pos, TypeId};
use go_tree::{ExprKind, TypedExpr};
use go_type::{Builtin, TypeTerm};
use ssa_ir::{Call, Op, Operand, Operands};

/// A call of a built-in function in an expression.
#[cycle(lower)]
pub(crate) fn lower_builtin(
    builder: &mut Builder<'_>,
    expr: &TypedExpr,
) -> Result<Operand, NoMemory> {
    let ExprKind::BuiltinOf {
        builtin,
        form,
        arguments,
        spread,
    } = &expr.kind
    else {
        return Err(lost());
    };
    let values = lower_list(builder, arguments.as_slice())?;
    match builtin {
        Builtin::Make => make(builder, *form, values, expr.at),
        Builtin::New => new(builder, *form, expr),
        Builtin::Append => append(builder, values, arguments.as_slice(), *spread, expr),
        Builtin::Len | Builtin::Cap => length(
            builder,
            *builtin,
            values,
            arguments.as_slice(),
            expr,
        ),
        _ => value_of(builder, *builtin, values, expr.of, expr.at),
    }
}

/// A call of a built-in function with its operands.
pub(crate) fn builtin_call(
    builder: &Builder<'_>,
    builtin: Builtin,
    values: Vec<Operand>,
) -> Result<Call, NoMemory> {
    let mut arguments = Operands::new(builder.allocator());
    push_all(&mut arguments, values)?;
    Ok(Call::Builtin { builtin, arguments })
}

fn value_of(
    builder: &mut Builder<'_>,
    builtin: Builtin,
    values: Vec<Operand>,
    of: TypeId,
    at: Pos,
) -> Result<Operand, NoMemory> {
    let call = builtin_call(builder, builtin, values)?;
    make_call(builder, call, of, at)
}

fn make(
    builder: &mut Builder<'_>,
    form: Option<TypeId>,
    values: Vec<Operand>,
    at: Pos,
) -> Result<Operand, NoMemory> {
    let Some(of) = form else {
        return Err(lost());
    };
    let op = making(builder, of, values)?;
    builder.value(op, of, at)
}

fn making(builder: &Builder<'_>, of: TypeId, values: Vec<Operand>) -> Result<Op, NoMemory> {
    match builder.under(of)? {
        TypeTerm::Map { .. } => Ok(Op::MakeMap(of)),
        TypeTerm::Chan { .. } => Ok(make_chan(of, values)),
        TypeTerm::Slice(_) => make_slice(builder, of, values),
        _ => Err(lost()),
    }
}

/// `make` of a channel. Without a size that is zero.
fn make_chan(of: TypeId, values: Vec<Operand>) -> Op {
    let mut values = values.into_iter();
    let size = match values.next() {
        Some(size) => size,
        None => integer(0, int_type()),
    };
    Op::MakeChan { of, size }
}

/// `make` of a slice. Without a capacity that is the length.
fn make_slice(builder: &Builder<'_>, of: TypeId, values: Vec<Operand>) -> Result<Op, NoMemory> {
    let mut values = values.into_iter();
    let Some(len) = values.next() else {
        return Err(lost());
    };
    let cap = match values.next() {
        Some(cap) => Ok(cap),
        None => len.copy(builder.allocator()),
    };
    let (cap, len) = beside(cap, len)?;
    Ok(Op::MakeSlice { of, len, cap })
}

fn new(
    builder: &mut Builder<'_>,
    form: Option<TypeId>,
    expr: &TypedExpr,
) -> Result<Operand, NoMemory> {
    match form {
        Some(of) => builder.value(Op::New(of), expr.of, expr.at),
        None => Err(lost()),
    }
}

/// `append`. One item that would itself read as a slice of items is packed into a slice.
fn append(
    builder: &mut Builder<'_>,
    values: Vec<Operand>,
    arguments: &[TypedExpr],
    spread: bool,
    expr: &TypedExpr,
) -> Result<Operand, NoMemory> {
    let [slice, item] = arguments else {
        return value_of(builder, Builtin::Append, values, expr.of, expr.at);
    };
    if spread || !reads_as_spread(builder, slice.of, item.of)? {
        return value_of(builder, Builtin::Append, values, expr.of, expr.at);
    }
    let mut values = values.into_iter();
    let first = values.next();
    let Some((slice_value, item_value)) = first.zip(values.next()) else {
        return Err(lost());
    };
    let packed = packed(builder, slice.of, item_value, item.of, expr.at);
    let (packed, slice_value) = beside(packed, slice_value)?;
    let both = two(builder.allocator(), slice_value, packed)?;
    value_of(builder, Builtin::Append, both, expr.of, expr.at)
}

/// Whether an item of a type would read as a slice of the elements of another.
fn reads_as_spread(builder: &Builder<'_>, slice: TypeId, item: TypeId) -> Result<bool, NoMemory> {
    match (builder.under(slice)?, builder.under(item)?) {
        (TypeTerm::Slice(elem), TypeTerm::Slice(of)) => Ok(*elem == *of),
        _ => Ok(false),
    }
}

/// A slice of one item.
fn packed(
    builder: &mut Builder<'_>,
    of: TypeId,
    item: Operand,
    item_of: TypeId,
    at: Pos,
) -> Result<Operand, NoMemory> {
    let op = Op::MakeSlice {
        of,
        len: integer(1, int_type()),
        cap: integer(1, int_type()),
    };
    let (slice, item) = beside(builder.register(op, of, at), item)?;
    let first = integer(0, int_type());
    let place = index_address(builder, Operand::Register(slice), first, item_of, at);
    builder.store(place, item, at)?;
    Ok(Operand::Register(slice))
}

/// `len` and `cap`; of an array, or of what a pointer to one points to, a constant.
fn length(
    builder: &mut Builder<'_>,
    builtin: Builtin,
    values: Vec<Operand>,
    arguments: &[TypedExpr],
    expr: &TypedExpr,
) -> Result<Operand, NoMemory> {
    let Some(argument) = arguments.first() else {
        return Err(lost());
    };
    match array_length(builder, argument.of) {
        Some(len) => Ok(integer(i128::from(len), expr.of)),
        None => value_of(builder, builtin, values, expr.of, expr.at),
    }
}

fn array_length(builder: &Builder<'_>, of: TypeId) -> Option<u64> {
    match builder.types().underlying_term(of)? {
        TypeTerm::Array { len, .. } => Some(*len),
        TypeTerm::Pointer(base) => match builder.types().underlying_term(*base)? {
            TypeTerm::Array { len, .. } => Some(*len),
            _ => None,
        },
        _ => None,
    }
}
