//! Values that go to variables and places: declarations, assignments, returns, sends and ranges.

ghost use Rattle.std.specs.Prelude.{◌≡◌, ◌++◌, OnOk, slice_get, option_copied};
ghost use Rattle.cg_nodes.specs.Places.{range_parts};
ghost use Rattle.cg_nodes.specs.Uses.{seen_expr, seen_values, seen_all};
ghost use Rattle.cg_uses.specs.Settings.{setting_of};
ghost use Rattle.cg_uses.specs.Statements as statement;

use crate::settings::{Around, part_of_variable, variable_node};
use cg_nodes::{
    Mention, Node, Parts, exprs_of, flow, in_expr, in_list, in_values, node_of, parts_in,
    range_parts, store_key,
};
use go_base::{NoMemory, VarId};
use go_tree::{
    DefineTarget, ExprKind, RangeOver, RangeTargets, ReceiveInto, Target, TypedExpr, Values,
};

/// Variables with first values, where they are given any.
#[tactic(auto, using(cg_nodes::proofs::Forms::types_of), unfolding(crate::specs::Statements::declares))]
pub fn in_var(
    around: &Around,
    variables: &[VarId],
    values: &Option<Values>,
    out: &mut Vec<Mention>,
) -> Result<(), NoMemory>
    ensures { OnOk result (out.new.items ≡ out.old.items ++ statement.declares (setting_of around.now) variables.now values.now) }
{
    match values {
        Some(values) => initialise(around, variables, values, out),
        None => Ok(()),
    }
}

/// Variables get their first values.
#[tactic(auto, using(cg_nodes::proofs::Forms::values_seen), unfolding(crate::specs::Statements::initialises))]
pub fn initialise(
    around: &Around,
    variables: &[VarId],
    values: &Values,
    out: &mut Vec<Mention>,
) -> Result<(), NoMemory>
    ensures { OnOk result (out.new.items ≡ out.old.items ++ statement.initialises (setting_of around.now) variables.now (seen_values around.now.types.now values.now)) }
{
    in_values(around.types, Parts::Nothing, values, out)?;
    let parts = parts_in(around.types, Parts::Nothing, values);
    initialise_each(around, variables, parts, exprs_of(values), out)
}

fn initialise_each(
    around: &Around,
    variables: &[VarId],
    parts: Parts,
    exprs: &[TypedExpr],
    out: &mut Vec<Mention>,
) -> Result<(), NoMemory>
    ensures { OnOk result (out.new.items ≡ out.old.items ++ statement.initialises_all (setting_of around.now) parts variables.now (seen_all around.now.types.now exprs.now)) }
{
    for (index, expr) in exprs.iter().enumerate() {
        initialise_one(around, variables.get(index), parts, expr, out)?;
    }
    Ok(())
}

#[tactic(auto, using(cg_nodes::proofs::Forms::types_of), unfolding(crate::specs::Statements::initialises_one))]
fn initialise_one(
    around: &Around,
    variable: Option<&VarId>,
    parts: Parts,
    expr: &TypedExpr,
    out: &mut Vec<Mention>,
) -> Result<(), NoMemory>
    ensures { OnOk result (out.new.items ≡ out.old.items ++ statement.initialises_any (setting_of around.now) parts (seen_expr around.now.types.now expr.now) (option_copied variable.entry)) }
{
    match variable {
        Some(variable) => {
            let from = node_of(around.types, parts, expr);
            flow(from, variable_node(around, *variable), out)
        }
        None => Ok(()),
    }
}

/// What is returned is a result, and the value of the result's variable.
#[tactic(auto, using(cg_nodes::proofs::Forms::types_of), unfolding(crate::specs::Statements::returns_any))]
pub fn in_return(
    around: &Around,
    values: &Option<Values>,
    out: &mut Vec<Mention>,
) -> Result<(), NoMemory>
    ensures { OnOk result (out.new.items ≡ out.old.items ++ statement.returns_any (setting_of around.now) values.now) }
{
    match values {
        Some(values) => return_values(around, values, out),
        None => Ok(()),
    }
}

#[tactic(auto, using(cg_nodes::proofs::Forms::values_seen), unfolding(crate::specs::Statements::returns))]
fn return_values(around: &Around, values: &Values, out: &mut Vec<Mention>) -> Result<(), NoMemory>
    ensures { OnOk result (out.new.items ≡ out.old.items ++ statement.returns (setting_of around.now) (seen_values around.now.types.now values.now)) }
{
    in_values(around.types, Parts::Nothing, values, out)?;
    let parts = parts_in(around.types, Parts::Nothing, values);
    give_each(around, parts, exprs_of(values), out)
}

fn give_each(
    around: &Around,
    parts: Parts,
    exprs: &[TypedExpr],
    out: &mut Vec<Mention>,
) -> Result<(), NoMemory>
    ensures { OnOk result (out.new.items ≡ out.old.items ++ statement.gives_all (setting_of around.now) parts (seen_all around.now.types.now exprs.now)) }
{
    for (index, expr) in exprs.iter().enumerate() {
        give(around, parts, index, expr, out)?;
    }
    Ok(())
}

#[tactic(auto, using(cg_nodes::proofs::Forms::types_of))]
fn give(
    around: &Around,
    parts: Parts,
    index: usize,
    expr: &TypedExpr,
    out: &mut Vec<Mention>,
) -> Result<(), NoMemory>
    ensures { OnOk result (out.new.items ≡ out.old.items ++ statement.gives (setting_of around.now) parts index (seen_expr around.now.types.now expr.now)) }
{
    let from = node_of(around.types, parts, expr);
    flow(from, Node::Returned(around.function, index), out)?;
    give_result(around, index, from, out)
}

#[tactic(auto, using(cg_nodes::proofs::Forms::types_of))]
fn give_result(
    around: &Around,
    index: usize,
    from: Node,
    out: &mut Vec<Mention>,
) -> Result<(), NoMemory>
    ensures { OnOk result (out.new.items ≡ out.old.items ++ statement.result_variable (setting_of around.now) index from) }
{
    match around.results.get(index) {
        Some(result) => flow(from, variable_node(around, *result), out),
        None => Ok(()),
    }
}

/// A value is sent on a channel.
#[tactic(auto, using(cg_nodes::proofs::Forms::types_of), unfolding(crate::specs::Statements::sends))]
pub fn in_send(
    around: &Around,
    channel: &TypedExpr,
    value: &TypedExpr,
    out: &mut Vec<Mention>,
) -> Result<(), NoMemory>
    ensures { OnOk result (out.new.items ≡ out.old.items ++ statement.sends (setting_of around.now) channel.now value.now) }
{
    in_expr(around.types, Parts::Nothing, channel, out)?;
    in_expr(around.types, Parts::Nothing, value, out)?;
    let from = node_of(around.types, Parts::Nothing, value);
    flow(from, Node::Chan(value.of), out)
}

/// A place that is stored to. An element of a map is stored with its key.
pub fn store_to(around: &Around, place: &TypedExpr, out: &mut Vec<Mention>) -> Result<(), NoMemory>
    ensures { OnOk result (out.new.items ≡ out.old.items ++ statement.stores_to (setting_of around.now) place.now) }
{
    in_expr(around.types, Parts::Nothing, place, out)?;
    match &place.kind {
        ExprKind::MapIndex { key, .. } => store_key(around.types, Parts::Nothing, key, out),
        _ => Ok(()),
    }
}

#[tactic(auto, using(cg_nodes::proofs::Forms::types_of), unfolding(crate::specs::Statements::in_target))]
fn in_target(around: &Around, target: &Target, out: &mut Vec<Mention>) -> Result<(), NoMemory>
    ensures { OnOk result (out.new.items ≡ out.old.items ++ statement.in_target (setting_of around.now) target.now) }
{
    match target {
        Target::Place(place) => store_to(around, place, out),
        Target::Blank => Ok(()),
    }
}

fn in_targets(around: &Around, targets: &[Target], out: &mut Vec<Mention>) -> Result<(), NoMemory>
    ensures { OnOk result (out.new.items ≡ out.old.items ++ statement.in_targets (setting_of around.now) targets.now) }
{
    for target in targets {
        in_target(around, target, out)?;
    }
    Ok(())
}

/// An assignment.
#[tactic(auto, using(cg_nodes::proofs::Forms::values_seen), unfolding(crate::specs::Statements::assigns_all))]
pub fn in_assign(
    around: &Around,
    targets: &[Target],
    values: &Values,
    out: &mut Vec<Mention>,
) -> Result<(), NoMemory>
    ensures { OnOk result (out.new.items ≡ out.old.items ++ statement.assigns_all (setting_of around.now) targets.now (seen_values around.now.types.now values.now)) }
{
    in_targets(around, targets, out)?;
    in_values(around.types, Parts::Nothing, values, out)?;
    let parts = parts_in(around.types, Parts::Nothing, values);
    assign(around, targets, parts, exprs_of(values), out)
}

fn assign(
    around: &Around,
    targets: &[Target],
    parts: Parts,
    exprs: &[TypedExpr],
    out: &mut Vec<Mention>,
) -> Result<(), NoMemory>
    ensures { OnOk result (out.new.items ≡ out.old.items ++ statement.assigns (setting_of around.now) parts targets.now (seen_all around.now.types.now exprs.now)) }
{
    for (index, expr) in exprs.iter().enumerate() {
        assign_any(around, targets.get(index), parts, expr, out)?;
    }
    Ok(())
}

#[tactic(auto, using(cg_nodes::proofs::Forms::types_of))]
fn assign_any(
    around: &Around,
    target: Option<&Target>,
    parts: Parts,
    expr: &TypedExpr,
    out: &mut Vec<Mention>,
) -> Result<(), NoMemory>
    ensures { OnOk result (out.new.items ≡ out.old.items ++ statement.assigns_any (setting_of around.now) parts (seen_expr around.now.types.now expr.now) (option_copied target.entry)) }
{
    match target {
        Some(target) => assign_one(around, target, parts, expr, out),
        None => Ok(()),
    }
}

#[tactic(auto, using(cg_nodes::proofs::Forms::types_of), unfolding(crate::specs::Statements::assigns_one))]
fn assign_one(
    around: &Around,
    target: &Target,
    parts: Parts,
    expr: &TypedExpr,
    out: &mut Vec<Mention>,
) -> Result<(), NoMemory>
    ensures { OnOk result (out.new.items ≡ out.old.items ++ statement.assigns_one (setting_of around.now) parts target.now (seen_expr around.now.types.now expr.now)) }
{
    match target {
        Target::Place(place) => {
            let from = node_of(around.types, parts, expr);
            let to = node_of(around.types, Parts::Nothing, place);
            flow(from, to, out)
        }
        Target::Blank => Ok(()),
    }
}

/// A short variable declaration.
#[tactic(auto, using(cg_nodes::proofs::Forms::values_seen), unfolding(crate::specs::Statements::defines_each))]
pub fn in_define(
    around: &Around,
    targets: &[DefineTarget],
    values: &Values,
    out: &mut Vec<Mention>,
) -> Result<(), NoMemory>
    ensures { OnOk result (out.new.items ≡ out.old.items ++ statement.defines_each (setting_of around.now) targets.now (seen_values around.now.types.now values.now)) }
{
    in_values(around.types, Parts::Nothing, values, out)?;
    let parts = parts_in(around.types, Parts::Nothing, values);
    define_each(around, targets, parts, exprs_of(values), out)
}

fn define_each(
    around: &Around,
    targets: &[DefineTarget],
    parts: Parts,
    exprs: &[TypedExpr],
    out: &mut Vec<Mention>,
) -> Result<(), NoMemory>
    ensures { OnOk result (out.new.items ≡ out.old.items ++ statement.defines_all (setting_of around.now) parts targets.now (seen_all around.now.types.now exprs.now)) }
{
    for (index, expr) in exprs.iter().enumerate() {
        define_any(around, targets.get(index), parts, expr, out)?;
    }
    Ok(())
}

#[tactic(auto, using(cg_nodes::proofs::Forms::types_of), unfolding(crate::specs::Statements::defines_from))]
fn define_any(
    around: &Around,
    target: Option<&DefineTarget>,
    parts: Parts,
    expr: &TypedExpr,
    out: &mut Vec<Mention>,
) -> Result<(), NoMemory>
    ensures { OnOk result (out.new.items ≡ out.old.items ++ statement.defines_any (setting_of around.now) parts (seen_expr around.now.types.now expr.now) (option_copied target.entry)) }
{
    match target {
        Some(target) => {
            let from = node_of(around.types, parts, expr);
            flow(from, defined(around, *target), out)
        }
        None => Ok(()),
    }
}

/// The node of what `:=` sets.
#[tactic(auto, unfolding(crate::specs::Statements::defined))]
fn defined(around: &Around, target: DefineTarget) -> Node
    ensures { result ≡ statement.defined (setting_of around.now) target }
{
    match target {
        DefineTarget::New(variable) | DefineTarget::Old(variable) => {
            variable_node(around, variable)
        }
        DefineTarget::Blank => Node::Nothing,
    }
}

/// Where what is received goes.
#[tactic(auto, using(cg_nodes::proofs::Forms::types_of), unfolding(crate::specs::Statements::in_received))]
pub fn in_received(
    around: &Around,
    into: &ReceiveInto,
    out: &mut Vec<Mention>,
) -> Result<(), NoMemory>
    ensures { OnOk result (out.new.items ≡ out.old.items ++ statement.in_received (setting_of around.now) into.now) }
{
    match into {
        ReceiveInto::Nothing => Ok(()),
        ReceiveInto::Define { targets } => receive_each(around, targets, out),
        ReceiveInto::Assign { targets, parts } => {
            in_targets(around, targets, out)?;
            in_list(around.types, Parts::Received, parts, out)?;
            assign(around, targets, Parts::Received, parts, out)
        }
    }
}

fn receive_each(
    around: &Around,
    targets: &[DefineTarget],
    out: &mut Vec<Mention>,
) -> Result<(), NoMemory>
    ensures { OnOk result (out.new.items ≡ out.old.items ++ statement.receives_all (setting_of around.now) targets.now) }
{
    for (index, target) in targets.iter().enumerate() {
        receive_one(around, index, *target, out)?;
    }
    Ok(())
}

#[tactic(auto, using(cg_nodes::proofs::Forms::types_of), unfolding(crate::specs::Statements::defines_one))]
fn receive_one(
    around: &Around,
    index: usize,
    target: DefineTarget,
    out: &mut Vec<Mention>,
) -> Result<(), NoMemory>
    ensures { OnOk result (out.new.items ≡ out.old.items ++ statement.defines_one (setting_of around.now) index target) }
{
    match target {
        DefineTarget::New(variable) | DefineTarget::Old(variable) => {
            define(around, Parts::Received, index, variable, out)
        }
        DefineTarget::Blank => Ok(()),
    }
}

/// A part becomes the value of a variable.
#[tactic(auto, unfolding(crate::specs::Statements::defines))]
fn define(
    around: &Around,
    parts: Parts,
    index: usize,
    variable: VarId,
    out: &mut Vec<Mention>,
) -> Result<(), NoMemory>
    ensures { OnOk result (out.new.items ≡ out.old.items ++ statement.defines (setting_of around.now) parts index variable) }
{
    let from = part_of_variable(around, parts, index, variable);
    flow(from, variable_node(around, variable), out)
}

/// What a range sets in each turn.
#[tactic(auto, using(cg_nodes::proofs::Forms::types_of), unfolding(crate::specs::Statements::in_range_targets))]
pub fn in_range_targets(
    around: &Around,
    over: RangeOver,
    targets: &RangeTargets,
    out: &mut Vec<Mention>,
) -> Result<(), NoMemory>
    ensures { OnOk result (out.new.items ≡ out.old.items ++ statement.in_range_targets (setting_of around.now) (range_parts over) targets.now) }
{
    let given = range_parts(over);
    match targets {
        RangeTargets::None => Ok(()),
        RangeTargets::Define { key, value } => {
            define_if(around, given, 0, *key, out)?;
            define_if(around, given, 1, *value, out)
        }
        RangeTargets::Assign { key, value, parts } => {
            in_target_if(around, key, out)?;
            in_target_if(around, value, out)?;
            in_list(around.types, given, parts, out)?;
            assign_part(around, key, given, parts.get(0), out)?;
            assign_part(around, value, given, parts.get(1), out)
        }
    }
}

#[tactic(auto, using(cg_nodes::proofs::Forms::types_of))]
fn define_if(
    around: &Around,
    parts: Parts,
    index: usize,
    variable: Option<VarId>,
    out: &mut Vec<Mention>,
) -> Result<(), NoMemory>
    ensures { OnOk result (out.new.items ≡ out.old.items ++ statement.defines_if (setting_of around.now) parts index variable) }
{
    match variable {
        Some(variable) => define(around, parts, index, variable, out),
        None => Ok(()),
    }
}

#[tactic(auto, using(cg_nodes::proofs::Forms::types_of))]
fn in_target_if(
    around: &Around,
    target: &Option<Target>,
    out: &mut Vec<Mention>,
) -> Result<(), NoMemory>
    ensures { OnOk result (out.new.items ≡ out.old.items ++ statement.in_target_if (setting_of around.now) target.now) }
{
    match target {
        Some(target) => in_target(around, target, out),
        None => Ok(()),
    }
}

#[tactic(auto, using(cg_nodes::proofs::Forms::types_of), unfolding(crate::specs::Statements::assigns_part))]
fn assign_part(
    around: &Around,
    target: &Option<Target>,
    parts: Parts,
    part: Option<&TypedExpr>,
    out: &mut Vec<Mention>,
) -> Result<(), NoMemory>
    ensures { OnOk result (out.new.items ≡ out.old.items ++ statement.assigns_part (setting_of around.now) parts target.now (option_copied part.entry)) }
{
    let Some(target) = target else {
        return Ok(());
    };
    match part {
        Some(part) => assign_one(around, target, parts, part, out),
        None => Ok(()),
    }
}
