//! Calls and lists of values. Go specification, "Calls".

use crate::builder::{Builder, Parts, zero};
use crate::built_ins::builtin_call;
use crate::error::lost;
use crate::exprs::{captured_by, literal, lower_expr};
use crate::joining::kept;
use go_base::{FuncId, NameId, NoMemory, Pos, TypeId};
use go_tree::{Callee, ExprKind, TypedExpr, Values};
use go_type::{Builtin, TypeTerm};
use ssa_ir::{Call, Op, Operand, Operands};

/// What a call calls, once its operands are evaluated.
#[derive(Drop)]
enum Called {
    /// A function, or a method whose receiver is its first argument.
    Function(FuncId),
    Value(Operand),
    Interface {
        receiver: Operand,
        name: NameId,
        package: u32,
    },
}

/// A call in an expression: its results as one operand, which nobody reads where there are none.
#[cycle(lower)]
pub(crate) fn lower_call(builder: &mut Builder<'_>, expr: &TypedExpr) -> Result<Operand, NoMemory> {
    let call = lower_callee(builder, expr)?;
    make_call(builder, call, expr.of, expr.at)
}

/// A call and its arguments, all evaluated.
#[cycle(lower)]
fn lower_callee(builder: &mut Builder<'_>, expr: &TypedExpr) -> Result<Call, NoMemory> {
    let ExprKind::CallOf { callee, arguments } = &expr.kind else {
        return Err(lost());
    };
    let mut operands = Operands::new(builder.allocator());
    let called = lower_called(builder, callee, &mut operands)?;
    let lowered = lower_arguments(builder, arguments, &mut operands);
    let called = kept(called, lowered)?;
    Ok(call_of(called, operands))
}

/// What is called. The receiver of a method becomes the first of the operands.
#[cycle(lower)]
fn lower_called(
    builder: &mut Builder<'_>,
    callee: &Callee,
    operands: &mut Operands,
) -> Result<Called, NoMemory> {
    match callee {
        Callee::Function(function) => Ok(Called::Function(*function)),
        Callee::Literal(function) => called_literal(builder, *function),
        Callee::Method { receiver, function } => {
            let receiver = lower_expr(builder, receiver)?;
            operands.push(receiver)?;
            Ok(Called::Function(*function))
        }
        Callee::Interface {
            receiver,
            name,
            package,
        } => {
            let receiver = lower_expr(builder, receiver)?;
            Ok(Called::Interface {
                receiver,
                name: *name,
                package: *package,
            })
        }
        Callee::Value(value) => Ok(Called::Value(lower_expr(builder, value)?)),
    }
}

/// The values of a list become the last of the operands.
#[cycle(lower)]
fn lower_arguments(
    builder: &mut Builder<'_>,
    values: &Values,
    operands: &mut Operands,
) -> Result<(), NoMemory> {
    let values = lower_values(builder, values)?;
    push_all(operands, values)
}

/// The values of a list, in order.
#[cycle(lower)]
pub fn lower_values(builder: &mut Builder<'_>, values: &Values) -> Result<Vec<Operand>, NoMemory> {
    match values {
        Values::Each(exprs) => lower_list(builder, exprs.as_slice()),
        Values::Spread { tuple, parts } => {
            let tuple = lower_expr(builder, tuple)?;
            let outer = builder.set_parts(Parts::Tuple(tuple));
            let values = lower_list(builder, parts.as_slice());
            drop(builder.set_parts(outer));
            values
        }
    }
}

#[cycle(lower)]
pub(crate) fn lower_list(
    builder: &mut Builder<'_>,
    exprs: &[TypedExpr],
) -> Result<Vec<Operand>, NoMemory> {
    let mut operands = Vec::new(builder.allocator());
    for expr in exprs {
        let operand = lower_expr(builder, expr)?;
        operands.push(operand)?;
    }
    Ok(operands)
}

/// A literal that is called where it stands. One that captures variables is made first.
fn called_literal(builder: &mut Builder<'_>, function: FuncId) -> Result<Called, NoMemory> {
    let functions = builder.program().functions.as_slice();
    let Some(decl) = functions.get(function.number as usize) else {
        return Err(lost());
    };
    if captured_by(builder, function)?.is_empty() {
        return Ok(Called::Function(function));
    }
    let value = literal(builder, function, decl.signature, decl.at)?;
    Ok(Called::Value(value))
}

fn call_of(called: Called, arguments: Operands) -> Call {
    match called {
        Called::Function(function) => Call::Static {
            function,
            arguments,
        },
        Called::Value(callee) => Call::Dynamic { callee, arguments },
        Called::Interface {
            receiver,
            name,
            package,
        } => Call::Invoke {
            receiver,
            name,
            package,
            arguments,
        },
    }
}

pub(crate) fn push_all(arguments: &mut Operands, values: Vec<Operand>) -> Result<(), NoMemory> {
    for value in values {
        arguments.push(value)?;
    }
    Ok(())
}

/// The type of the register of a call. None where it has no results.
fn register_type(builder: &Builder<'_>, of: TypeId) -> Option<TypeId> {
    match builder.types().get(of) {
        Some(TypeTerm::Tuple(parts)) if parts.as_slice().is_empty() => None,
        _ => Some(of),
    }
}

pub(crate) fn make_call(
    builder: &mut Builder<'_>,
    call: Call,
    of: TypeId,
    at: Pos,
) -> Result<Operand, NoMemory> {
    let register = register_type(builder, of);
    match builder.emit(Op::Call(call), register, at)? {
        Some(operand) => Ok(operand),
        None => Ok(zero(of)),
    }
}

/// The call of a `go` or `defer` statement, its operands evaluated.
pub fn later_call(builder: &mut Builder<'_>, expr: &TypedExpr) -> Result<Call, NoMemory> {
    match &expr.kind {
        ExprKind::CallOf { .. } => lower_callee(builder, expr),
        ExprKind::BuiltinOf {
            builtin,
            arguments,
            ..
        } => {
            let values = lower_list(builder, arguments.as_slice())?;
            builtin_call(builder, *builtin, values)
        }
        _ => Err(lost()),
    }
}

/// The argument of a call of `panic`. None where the expression is none.
pub fn panic_argument(expr: &TypedExpr) -> Option<&TypedExpr> {
    match &expr.kind {
        ExprKind::BuiltinOf {
            builtin: Builtin::Panic,
            arguments,
            ..
        } => arguments.first(),
        _ => None,
    }
}
