//! The function that a statement stands in, and what its variables stand for.

ghost use Rattle.std.specs.Prelude.{◌≡◌};
ghost use Rattle.cg_uses.specs.Settings.{setting_of};
ghost use Rattle.cg_uses.specs.Statements as statement;

use cg_nodes::{Node, Parts, carries, part_node};
use go_base::{FuncId, TypeId, VarId};
use go_tree::Variable;
use go_type::Types;

/// The function that a statement stands in, with the variables of its results, and all types and variables.
#[derive(Clone, Copy)]
pub struct Around<'a> {
    pub types: &'a Types,
    pub variables: &'a [Variable],
    pub function: FuncId,
    pub results: &'a [VarId],
}

/// The node of a variable.
#[tactic(auto, unfolding(cg_nodes::specs::Places::carrying))]
pub fn variable_node(around: &Around, variable: VarId) -> Node
    ensures { result ≡ statement.variable_node (setting_of around.now) variable }
{
    match around.variables.get(variable.number as usize) {
        Some(found) => typed_node(around, variable, found.of),
        None => Node::Nothing,
    }
}

/// The node of a variable of a type.
#[tactic(auto, unfolding(cg_nodes::specs::Places::carrying))]
fn typed_node(around: &Around, variable: VarId, of: TypeId) -> Node
    ensures { result ≡ statement.node_of_type (setting_of around.now) variable of }
{
    if carries(around.types, of) {
        return Node::Variable(variable);
    }
    Node::Nothing
}

/// The node of a part that becomes the value of a variable.
pub fn part_of_variable(around: &Around, parts: Parts, index: usize, variable: VarId) -> Node
    ensures { result ≡ statement.part_for (setting_of around.now) parts index variable }
{
    match around.variables.get(variable.number as usize) {
        Some(found) => part_node(around.types, parts, index, found.of),
        None => Node::Nothing,
    }
}
