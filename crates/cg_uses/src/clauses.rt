//! Clauses of switches and selects.

ghost use Rattle.std.specs.Prelude.{◌≡◌, ◌++◌, OnOk};
ghost use Rattle.cg_uses.specs.Settings.{setting_of};
ghost use Rattle.cg_uses.specs.Statements as statement;

use crate::settings::{Around, variable_node};
use crate::targets::{in_received, in_send};
use cg_nodes::{
    Mention, Node, Parts, box_value, flow, in_expr, is_function, is_interface, node_of,
};
use go_base::{NoMemory, TypeId, VarId};
use go_tree::{Comm, TypeCase, TypedCase, TypedExpr};

/// The cases of a clause.
pub fn in_cases(
    around: &Around,
    cases: &[TypedCase],
    tag: &Option<TypedExpr>,
    out: &mut Vec<Mention>,
) -> Result<(), NoMemory>
    ensures { OnOk result (out.new.items ≡ out.old.items ++ statement.in_cases (setting_of around.now) tag.now cases.now) }
{
    for case in cases {
        in_case(around, case, tag, out)?;
    }
    Ok(())
}

fn in_case(
    around: &Around,
    case: &TypedCase,
    tag: &Option<TypedExpr>,
    out: &mut Vec<Mention>,
) -> Result<(), NoMemory>
    ensures { OnOk result (out.new.items ≡ out.old.items ++ statement.in_case (setting_of around.now) tag.now case.now) }
{
    in_expr(around.types, Parts::Nothing, &case.value, out)?;
    box_tag(around, case, tag, out)
}

/// The tag is made a value of an interface where a case asks for it.
#[tactic(auto, using(cg_nodes::proofs::Forms::types_of), unfolding(crate::specs::Statements::boxed_tag))]
fn box_tag(
    around: &Around,
    case: &TypedCase,
    tag: &Option<TypedExpr>,
    out: &mut Vec<Mention>,
) -> Result<(), NoMemory>
    ensures { OnOk result (out.new.items ≡ out.old.items ++ statement.boxed_tag (setting_of around.now) tag.now case.now) }
{
    let Some(tag) = tag else {
        return Ok(());
    };
    match case.tag_to {
        Some(_) => box_value(around.types, Parts::Nothing, tag, out),
        None => Ok(()),
    }
}

/// The variable of a clause of a switch over types.
#[tactic(auto, using(cg_nodes::proofs::Forms::types_of), unfolding(crate::specs::Statements::binds_any))]
pub fn bind_clause(
    around: &Around,
    operand: &TypedExpr,
    variable: Option<VarId>,
    cases: &[TypeCase],
    out: &mut Vec<Mention>,
) -> Result<(), NoMemory>
    ensures { OnOk result (out.new.items ≡ out.old.items ++ statement.binds_any (setting_of around.now) operand.now cases.now variable) }
{
    match variable {
        Some(variable) => {
            let from = clause_node(around, operand, cases);
            flow(from, variable_node(around, variable), out)
        }
        None => Ok(()),
    }
}

/// What a clause gives its variable: the operand's values where the clause has an interface type, several types, `nil` or
/// none, and with a function type those that were put into interfaces.
#[tactic(auto, unfolding(crate::specs::Statements::clause_node))]
fn clause_node(around: &Around, operand: &TypedExpr, cases: &[TypeCase]) -> Node
    ensures { result ≡ statement.clause_node (setting_of around.now) operand.now cases.now }
{
    match cases {
        [TypeCase::Of(of)] => case_node(around, operand, *of),
        _ => node_of(around.types, Parts::Nothing, operand),
    }
}

fn case_node(around: &Around, operand: &TypedExpr, of: TypeId) -> Node
    ensures { result ≡ statement.case_node (setting_of around.now) operand.now of }
{
    if is_function(around.types, of) {
        return Node::Boxed(of);
    }
    if is_interface(around.types, of) {
        return node_of(around.types, Parts::Nothing, operand);
    }
    Node::Nothing
}

/// What a clause of a select waits for.
#[tactic(auto, using(cg_nodes::proofs::Forms::types_of), unfolding(crate::specs::Statements::in_comm))]
pub fn in_comm(around: &Around, comm: &Comm, out: &mut Vec<Mention>) -> Result<(), NoMemory>
    ensures { OnOk result (out.new.items ≡ out.old.items ++ statement.in_comm (setting_of around.now) comm.now) }
{
    match comm {
        Comm::Default => Ok(()),
        Comm::Send { channel, value } => in_send(around, channel, value, out),
        Comm::Receive { channel, into } => {
            in_expr(around.types, Parts::Nothing, channel, out)?;
            in_received(around, into, out)
        }
    }
}
