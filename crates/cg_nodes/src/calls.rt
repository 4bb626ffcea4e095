//! Calls: what is called, and where the arguments go.

ghost use Rattle.std.specs.Prelude.{◌≡◌, ◌++◌, ◌∷◌, ◌<◌, [], OnOk};
ghost use Rattle.cg_nodes.specs.Passing.{into_node};
ghost use Rattle.cg_nodes.specs.Uses as use_of;

use crate::flows::{flow, put};
use crate::nodes::{Called, Group, Mention, Node, Parts};
use crate::places::{exprs_of, node_of, parts_in, selected};
use go_base::{FuncId, NoMemory, Pos};
use go_tree::{Callee, TypedExpr, Values};
use go_type::Types;

/// Where arguments go.
#[derive(Clone, Copy)]
pub enum Into {
    /// To the parameters of a function.
    Parameters(FuncId),
    /// To those behind the receiver.
    BehindReceiver(FuncId),
    Arguments(Group),
}

/// A call: what is called, and where its arguments go.
#[tactic(auto, using(crate::proofs::Forms::values_seen), unfolding(crate::specs::Uses::called_with))]
pub fn call(
    types: &Types,
    parts: Parts,
    at: Pos,
    callee: &Callee,
    arguments: &Values,
    out: &mut Vec<Mention>,
) -> Result<(), NoMemory>
    ensures { OnOk result (out.new.items ≡ out.old.items ++ use_of.called_with parts at (use_of.seen_callee types.now callee.now) (use_of.seen_values types.now arguments.now)) }
{
    let given = parts_in(types, parts, arguments);
    let exprs = exprs_of(arguments);
    let first = first_node(types, given, exprs);
    put_call(types, parts, at, callee, first, out)?;
    pass(types, given, exprs, into_of(types, callee), out)
}

/// The node of the first argument.
fn first_node(types: &Types, parts: Parts, exprs: &[TypedExpr]) -> Node
    ensures { result ≡ use_of.first_node parts (use_of.seen_all types.now exprs.now) }
{
    match exprs.split_first() {
        Some((first, _)) => node_of(types, parts, first),
        None => Node::Nothing,
    }
}

/// The call, and the flow of its receiver.
#[tactic(auto, using(crate::proofs::Forms::callee_forms))]
fn put_call(
    types: &Types,
    parts: Parts,
    at: Pos,
    callee: &Callee,
    first: Node,
    out: &mut Vec<Mention>,
) -> Result<(), NoMemory>
    ensures { OnOk result (out.new.items ≡ out.old.items ++ (use_of.seen_callee types.now callee.now).call parts at first) }
{
    match callee {
        Callee::Function(function) | Callee::Literal(function) => put_fixed(at, *function, out),
        Callee::Method { receiver, function } => {
            put_fixed(at, *function, out)?;
            let from = node_of(types, parts, receiver);
            flow(from, Node::Parameter(*function, 0), out)
        }
        Callee::Interface {
            receiver,
            name,
            package,
        } => {
            let of = node_of(types, parts, receiver);
            let group = selected(receiver.of, *name, *package);
            put_chosen(at, of, Node::Nothing, group, out)
        }
        Callee::Value(value) => {
            let of = node_of(types, parts, value);
            put_chosen(at, of, first, Group::Signed(value.of), out)
        }
    }
}

fn put_fixed(at: Pos, function: FuncId, out: &mut Vec<Mention>) -> Result<(), NoMemory>
    ensures { OnOk result (out.new.items ≡ out.old.items ++ use_of.calls_fixed at function) }
{
    let called = Called::Fixed(function);
    put(Mention::Call { at, called }, out)
}

fn put_chosen(
    at: Pos,
    of: Node,
    first: Node,
    group: Group,
    out: &mut Vec<Mention>,
) -> Result<(), NoMemory>
    ensures { OnOk result (out.new.items ≡ out.old.items ++ use_of.calls_chosen at of first group) }
{
    let called = Called::Chosen { of, first, group };
    put(Mention::Call { at, called }, out)
}

/// Where the arguments of a call go.
#[tactic(auto, using(crate::proofs::Forms::callee_forms))]
fn into_of(types: &Types, callee: &Callee) -> Into
    ensures { into_node result ≡ (use_of.seen_callee types.now callee.now).into }
{
    match callee {
        Callee::Function(function) | Callee::Literal(function) => Into::Parameters(*function),
        Callee::Method { function, .. } => Into::BehindReceiver(*function),
        Callee::Interface {
            receiver,
            name,
            package,
        } => Into::Arguments(selected(receiver.of, *name, *package)),
        Callee::Value(value) => Into::Arguments(Group::Signed(value.of)),
    }
}

/// Each argument goes to its place.
fn pass(
    types: &Types,
    parts: Parts,
    exprs: &[TypedExpr],
    into: Into,
    out: &mut Vec<Mention>,
) -> Result<(), NoMemory>
    ensures { OnOk result (out.new.items ≡ out.old.items ++ use_of.passed parts (into_node into) (use_of.seen_all types.now exprs.now)) }
{
    for (index, expr) in exprs.iter().enumerate() {
        pass_one(types, parts, expr, index, into, out)?;
    }
    Ok(())
}

fn pass_one(
    types: &Types,
    parts: Parts,
    expr: &TypedExpr,
    index: usize,
    into: Into,
    out: &mut Vec<Mention>,
) -> Result<(), NoMemory>
    requires { index < usize.MAX }
    ensures { OnOk result (out.new.items ≡ out.old.items ++ use_of.passes parts (into_node into) index (use_of.seen_expr types.now expr.now)) }
{
    let from = node_of(types, parts, expr);
    flow(from, target_of(into, index), out)
}

fn target_of(into: Into, index: usize) -> Node
    requires { index < usize.MAX }
    ensures { result ≡ into_node into index }
{
    match into {
        Into::Parameters(function) => Node::Parameter(function, index),
        Into::BehindReceiver(function) => Node::Parameter(function, index + 1),
        Into::Arguments(group) => Node::Argument(group, index),
    }
}
