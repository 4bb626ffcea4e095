//! What each form of expression adds to the list of what stands in a body.

ghost use Rattle.std.specs.Prelude.{◌≡◌, ◌++◌, ◌∷◌, [], OnOk, flat_map};
ghost use Rattle.cg_nodes.specs.Places as place;
ghost use Rattle.cg_nodes.specs.Uses as use_of;

use crate::kinds::{is_function, is_interface};
use crate::nodes::{Mention, Node, Parts, Spot, Value};
use crate::places::node_of;
use go_base::{NoMemory, Pos, TypeId};
use go_tree::{Method, TypedExpr};
use go_type::{Builtin, Types};

/// Adds a mention.
pub fn put(mention: Mention, out: &mut Vec<Mention>) -> Result<(), NoMemory>
    ensures { OnOk result (out.new.items ≡ out.old.items ++ mention ∷ []) }
{
    out.push(mention)?;
    Ok(())
}

/// Adds a flow, where both places are some.
#[tactic(auto, using(crate::proofs::Forms::types_of), unfolding(crate::specs::Places::flow))]
pub fn flow(from: Node, to: Node, out: &mut Vec<Mention>) -> Result<(), NoMemory>
    ensures { OnOk result (out.new.items ≡ out.old.items ++ place.flow from to) }
{
    if is_nothing(from) || is_nothing(to) {
        return Ok(());
    }
    put(Mention::Flow { from, to }, out)
}

pub fn is_nothing(node: Node) -> bool
    ensures { result ≡ place.is_nothing node }
{
    match node {
        Node::Nothing => true,
        _ => false,
    }
}

/// The receiver of a method value flows into the method, or is kept for those that it stands for.
#[tactic(auto, unfolding(crate::specs::Uses::bound))]
pub fn bind(
    types: &Types,
    parts: Parts,
    at: Pos,
    receiver: &TypedExpr,
    method: Method,
    out: &mut Vec<Mention>,
) -> Result<(), NoMemory>
    ensures { OnOk result (out.new.items ≡ out.old.items ++ use_of.bound parts at (use_of.seen_expr types.now receiver.now) method) }
{
    let from = node_of(types, parts, receiver);
    match method {
        Method::Concrete(function) => flow(from, Node::Parameter(function, 0), out),
        Method::Interface { .. } => flow(from, Node::Operand(Spot::at(at)), out),
    }
}

/// A value is made one of an interface: a class is made, and a function is put into one.
#[tactic(auto, using(crate::proofs::Forms::types_of), unfolding(crate::specs::Uses::boxed_uses))]
pub fn box_value(
    types: &Types,
    parts: Parts,
    operand: &TypedExpr,
    out: &mut Vec<Mention>,
) -> Result<(), NoMemory>
    ensures { OnOk result (out.new.items ≡ out.old.items ++ use_of.boxed_uses types.now parts (use_of.seen_expr types.now operand.now)) }
{
    if is_interface(types, operand.of) {
        return Ok(());
    }
    put(Mention::Seed(Value::Class(operand.of)), out)?;
    if is_function(types, operand.of) {
        let from = node_of(types, parts, operand);
        return flow(from, Node::Boxed(operand.of), out);
    }
    Ok(())
}

/// The address of a place is taken: it is read and stored to through pointers.
#[tactic(auto, using(crate::proofs::Forms::types_of), unfolding(crate::specs::Uses::addressed))]
pub fn take_address(
    types: &Types,
    parts: Parts,
    operand: &TypedExpr,
    out: &mut Vec<Mention>,
) -> Result<(), NoMemory>
    ensures { OnOk result (out.new.items ≡ out.old.items ++ use_of.addressed operand.now.of ((use_of.seen_expr types.now operand.now).node parts)) }
{
    let node = node_of(types, parts, operand);
    if is_nothing(node) {
        return Ok(());
    }
    flow(node, Node::Ptr(operand.of), out)?;
    flow(Node::Ptr(operand.of), node, out)
}

/// A call of a built-in function.
#[tactic(auto, using(crate::proofs::Forms::types_of), unfolding(crate::specs::Uses::built_in_uses))]
pub fn call_built_in(
    types: &Types,
    parts: Parts,
    builtin: Builtin,
    arguments: &[TypedExpr],
    out: &mut Vec<Mention>,
) -> Result<(), NoMemory>
    ensures { OnOk result (out.new.items ≡ out.old.items ++ use_of.built_in_uses parts builtin (use_of.seen_all types.now arguments.now)) }
{
    match builtin {
        Builtin::Panic => panic_with(types, parts, arguments, out),
        Builtin::Append => append_to(types, parts, arguments, out),
        _ => Ok(()),
    }
}

#[tactic(auto, using(crate::proofs::Forms::types_of), unfolding(crate::specs::Uses::panics))]
fn panic_with(
    types: &Types,
    parts: Parts,
    arguments: &[TypedExpr],
    out: &mut Vec<Mention>,
) -> Result<(), NoMemory>
    ensures { OnOk result (out.new.items ≡ out.old.items ++ use_of.panics parts (use_of.seen_all types.now arguments.now)) }
{
    match arguments.split_first() {
        Some((value, _)) => {
            let from = node_of(types, parts, value);
            flow(from, Node::Recover, out)
        }
        None => Ok(()),
    }
}

/// A slice whose elements are appended has the same elements' place already.
#[tactic(auto, using(crate::proofs::Forms::types_of), unfolding(crate::specs::Uses::appends))]
fn append_to(
    types: &Types,
    parts: Parts,
    arguments: &[TypedExpr],
    out: &mut Vec<Mention>,
) -> Result<(), NoMemory>
    ensures { OnOk result (out.new.items ≡ out.old.items ++ use_of.appends parts (use_of.seen_all types.now arguments.now)) }
{
    match arguments.split_first() {
        Some((_, items)) => store_elements(types, parts, items, out),
        None => Ok(()),
    }
}

/// Values become elements.
fn store_elements(
    types: &Types,
    parts: Parts,
    items: &[TypedExpr],
    out: &mut Vec<Mention>,
) -> Result<(), NoMemory>
    ensures { OnOk result (out.new.items ≡ out.old.items ++ flat_map (use_of.stored_elem parts) (use_of.seen_all types.now items.now)) }
{
    for item in items {
        store_element(types, parts, item, out)?;
    }
    Ok(())
}

/// A value becomes an element.
#[tactic(auto, using(crate::proofs::Forms::types_of), unfolding(crate::specs::Uses::stored_elem))]
pub fn store_element(
    types: &Types,
    parts: Parts,
    item: &TypedExpr,
    out: &mut Vec<Mention>,
) -> Result<(), NoMemory>
    ensures { OnOk result (out.new.items ≡ out.old.items ++ use_of.stored_elem parts (use_of.seen_expr types.now item.now)) }
{
    let from = node_of(types, parts, item);
    flow(from, Node::Elem(item.of), out)
}

/// A value becomes a key.
#[tactic(auto, using(crate::proofs::Forms::types_of), unfolding(crate::specs::Uses::stored_key))]
pub fn store_key(
    types: &Types,
    parts: Parts,
    key: &TypedExpr,
    out: &mut Vec<Mention>,
) -> Result<(), NoMemory>
    ensures { OnOk result (out.new.items ≡ out.old.items ++ use_of.stored_key parts (use_of.seen_expr types.now key.now)) }
{
    let from = node_of(types, parts, key);
    flow(from, Node::Key(key.of), out)
}

/// A value becomes one of a map.
#[tactic(auto, using(crate::proofs::Forms::types_of), unfolding(crate::specs::Uses::stored_val))]
pub fn store_value(
    types: &Types,
    parts: Parts,
    value: &TypedExpr,
    out: &mut Vec<Mention>,
) -> Result<(), NoMemory>
    ensures { OnOk result (out.new.items ≡ out.old.items ++ use_of.stored_val parts (use_of.seen_expr types.now value.now)) }
{
    let from = node_of(types, parts, value);
    flow(from, Node::Val(value.of), out)
}

/// A value becomes that of a field of a struct type.
pub fn store_field(
    types: &Types,
    parts: Parts,
    of: TypeId,
    field: u32,
    value: &TypedExpr,
    out: &mut Vec<Mention>,
) -> Result<(), NoMemory>
    ensures { OnOk result (out.new.items ≡ out.old.items ++ use_of.stored_field of parts field (use_of.seen_expr types.now value.now)) }
{
    let from = node_of(types, parts, value);
    flow(from, Node::Field(of, field as usize), out)
}
