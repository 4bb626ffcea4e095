//! The node of an expression: the place that it reads, or the place of all expressions that make its value.

ghost use Rattle.std.specs.Prelude.{◌≡◌, if◌then◌else◌};
ghost use Rattle.cg_nodes.specs.Places as place;
ghost use Rattle.cg_nodes.specs.Uses as use_of;

use crate::kinds::{carries, is_function, is_interface};
use crate::nodes::{Group, Node, Parts, Selector, Spot, Value};
use go_base::{NameId, Pos, TypeId};
use go_tree::{Callee, ExprKind, Method, RangeOver, TypedExpr, Values};
use go_type::{Builtin, Types};

/// The node of an expression. Conversions and assertions between interfaces, and between function types, give their
/// operand's. `parts` says what the parts of several values are, which were evaluated just before.
#[cycle(node)]
#[tactic(auto, using(crate::proofs::Forms::node_forms), unfolding(crate::specs::Places::carrying))]
pub fn node_of(types: &Types, parts: Parts, expr: &TypedExpr) -> Node
    ensures { result ≡ (use_of.seen_expr types.now expr.now).node parts }
{
    if carries(types, expr.of) {
        return carried_node(types, parts, expr);
    }
    Node::Nothing
}

/// The node of an expression whose values flow.
#[cycle(node)]
#[tactic(auto, using(crate::proofs::Forms::node_forms))]
fn carried_node(types: &Types, parts: Parts, expr: &TypedExpr) -> Node
    ensures { result ≡ (use_of.seen_kind types.now expr.now.kind expr.now.at expr.now.of).node parts }
{
    match &expr.kind {
        ExprKind::VarOf(variable) => Node::Variable(*variable),
        ExprKind::FunctionOf(function) | ExprKind::LiteralOf(function) => {
            Node::Made(Value::Function(*function))
        }
        ExprKind::MethodValue { receiver, method } => {
            Node::Made(method_value(expr.at, expr.of, receiver.of, *method))
        }
        ExprKind::MethodExpr {
            receiver,
            name,
            package,
        } => Node::Made(method_expression(expr.of, *receiver, *name, *package)),
        ExprKind::FieldOf { operand, field } => Node::Field(operand.of, *field as usize),
        ExprKind::IndexOf { .. } => Node::Elem(expr.of),
        ExprKind::MapIndex { .. } => Node::Val(expr.of),
        ExprKind::Deref(_) => Node::Ptr(expr.of),
        ExprKind::Receive { .. } => Node::Chan(expr.of),
        ExprKind::CallOf { callee, .. } => part_node(types, results_of(types, callee), 0, expr.of),
        ExprKind::BuiltinOf { builtin, .. } => built_in_node(*builtin),
        ExprKind::ConvertTo(operand) => node_of(types, parts, operand),
        ExprKind::ToInterface(operand) => boxed_node(types, parts, operand),
        ExprKind::AssertTo { operand, .. } => asserted_node(types, parts, operand, expr.of),
        ExprKind::PartOf(index) => part_node(types, parts, *index as usize, expr.of),
        ExprKind::ConstOf(_)
        | ExprKind::NilOf
        | ExprKind::SliceOf { .. }
        | ExprKind::AddressOf(_)
        | ExprKind::UnaryOf { .. }
        | ExprKind::BinaryOf { .. }
        | ExprKind::CompareOf { .. }
        | ExprKind::AndAlso { .. }
        | ExprKind::OrElse { .. }
        | ExprKind::CompositeOf(_) => Node::Nothing,
    }
}

/// The node of a value that is made one of an interface.
#[cycle(node)]
#[tactic(auto, using(crate::proofs::Forms::types_of), unfolding(crate::specs::Uses::boxed_node))]
fn boxed_node(types: &Types, parts: Parts, operand: &TypedExpr) -> Node
    ensures { result ≡ use_of.boxed_node types.now parts (use_of.seen_expr types.now operand.now) }
{
    if is_interface(types, operand.of) {
        return node_of(types, parts, operand);
    }
    Node::Made(Value::Class(operand.of))
}

/// The node of a value that is asserted to have a type.
#[cycle(node)]
#[tactic(auto, unfolding(crate::specs::Uses::asserted))]
fn asserted_node(types: &Types, parts: Parts, operand: &TypedExpr, to: TypeId) -> Node
    ensures { result ≡ use_of.asserted types.now to ((use_of.seen_expr types.now operand.now).node parts) }
{
    if is_function(types, to) {
        return Node::Boxed(to);
    }
    node_of(types, parts, operand)
}

/// The value of a method value of a type, at a place.
#[tactic(auto, unfolding(crate::specs::Uses::method_value))]
pub fn method_value(at: Pos, of: TypeId, receiver: TypeId, method: Method) -> Value
    ensures { result ≡ use_of.method_value at of receiver method }
{
    match method {
        Method::Concrete(function) => Value::Bound(function),
        Method::Interface { name, package } => Value::BoundSelector {
            at: Spot::at(at),
            selector: Selector {
                of: receiver,
                name,
                package,
            },
            signature: of,
        },
    }
}

/// The value of a method expression of a type.
pub fn method_expression(of: TypeId, receiver: TypeId, name: NameId, package: u32) -> Value
    ensures { result ≡ use_of.method_expression of receiver name «package» }
{
    Value::Unbound {
        selector: Selector {
            of: receiver,
            name,
            package,
        },
        signature: of,
    }
}

#[tactic(auto, unfolding(crate::specs::Uses::built_in_node))]
fn built_in_node(builtin: Builtin) -> Node
    ensures { result ≡ use_of.built_in_node builtin }
{
    match builtin {
        Builtin::Recover => Node::Recover,
        _ => Node::Nothing,
    }
}

/// What a call of an interface's method chooses from.
pub fn selected(receiver: TypeId, name: NameId, package: u32) -> Group
    ensures { result ≡ use_of.selected receiver name «package» }
{
    Group::Selected(Selector {
        of: receiver,
        name,
        package,
    })
}

/// What a call gives.
#[tactic(auto, using(crate::proofs::Forms::callee_forms))]
fn results_of(types: &Types, callee: &Callee) -> Parts
    ensures { result ≡ (use_of.seen_callee types.now callee.now).results }
{
    match callee {
        Callee::Function(function) | Callee::Literal(function) => Parts::Returned(*function),
        Callee::Method { function, .. } => Parts::Returned(*function),
        Callee::Interface {
            receiver,
            name,
            package,
        } => Parts::Outcome(selected(receiver.of, *name, *package)),
        Callee::Value(value) => Parts::Outcome(Group::Signed(value.of)),
    }
}

/// The node of a part, whose type is given.
#[tactic(auto, unfolding(crate::specs::Places::carrying))]
pub fn part_node(types: &Types, parts: Parts, index: usize, of: TypeId) -> Node
    ensures { result ≡ place.part_node types.now parts index of }
{
    if carries(types, of) {
        return part_at(parts, index, of);
    }
    Node::Nothing
}

#[tactic(auto, unfolding(crate::specs::Places::part_at))]
fn part_at(parts: Parts, index: usize, of: TypeId) -> Node
    ensures { result ≡ place.part_at parts index of }
{
    match parts {
        Parts::Nothing => Node::Nothing,
        Parts::Returned(function) => Node::Returned(function, index),
        Parts::Outcome(group) => Node::Outcome(group, index),
        Parts::First(node) => only(index == 0, node),
        Parts::Lookup => only(index == 0, Node::Val(of)),
        Parts::Received => only(index == 0, Node::Chan(of)),
        Parts::Entry => entry_node(index, of),
        Parts::Item => only(index == 1, Node::Elem(of)),
    }
}

fn entry_node(index: usize, of: TypeId) -> Node
    ensures { result ≡ place.entry_node index of }
{
    if index == 0 {
        return Node::Key(of);
    }
    Node::Val(of)
}

#[tactic(auto, unfolding(crate::specs::Places::only))]
fn only(test: bool, node: Node) -> Node
    ensures { result ≡ place.only test node }
{
    if test {
        return node;
    }
    Node::Nothing
}

/// What the parts of an expression of several values are.
#[tactic(auto, using(crate::proofs::Forms::part_forms))]
pub fn parts_of(types: &Types, parts: Parts, tuple: &TypedExpr) -> Parts
    ensures { result ≡ (use_of.seen_expr types.now tuple.now).parts parts }
{
    match &tuple.kind {
        ExprKind::CallOf { callee, .. } => results_of(types, callee),
        ExprKind::MapIndex { .. } => Parts::Lookup,
        ExprKind::Receive { .. } => Parts::Received,
        ExprKind::AssertTo { operand, to, .. } => {
            Parts::First(asserted_node(types, parts, operand, *to))
        }
        _ => Parts::Nothing,
    }
}

/// The expressions of the values of a list.
#[tactic(auto, using(crate::proofs::Forms::values_seen))]
pub fn exprs_of(values: &Values) -> &[TypedExpr]
    ensures { result.now ≡ use_of.value_exprs values.now }
{
    match values {
        Values::Each(exprs) => exprs.as_slice(),
        Values::Spread { parts, .. } => parts.as_slice(),
    }
}

/// What the parts in the expressions of a list are.
#[tactic(auto, using(crate::proofs::Forms::values_seen))]
pub fn parts_in(types: &Types, parts: Parts, values: &Values) -> Parts
    ensures { result ≡ (use_of.seen_values types.now values.now).parts parts }
{
    match values {
        Values::Each(_) => parts,
        Values::Spread { tuple, .. } => parts_of(types, parts, tuple),
    }
}

/// What a range gives in each turn.
#[tactic(auto, unfolding(crate::specs::Places::range_parts))]
pub fn range_parts(over: RangeOver) -> Parts
    ensures { result ≡ place.range_parts over }
{
    match over {
        RangeOver::Array | RangeOver::ArrayPointer | RangeOver::Slice => Parts::Item,
        RangeOver::Map => Parts::Entry,
        RangeOver::Channel => Parts::Received,
        RangeOver::Text | RangeOver::Constant(_) | RangeOver::Integer => Parts::Nothing,
    }
}
