//! The way from a value to a method of it, through embedded fields. Go specification, "Struct types" and "Selectors".

ghost use Rattle.std.specs.Prelude.{◌≡◌};
ghost use Rattle.cg_sets.specs.Embedding as embedding;

use cg_nodes::{Node, is_function};
use go_base::{FuncId, TypeId};
use go_tree::FunctionDecl;
use go_type::{TypeTerm, Types};

/// The last embedded field on a way.
#[derive(Clone, Copy)]
pub struct Embedded {
    /// The struct type that has it.
    pub within: TypeId,
    pub field: u32,
    pub of: TypeId,
}

/// The last embedded field on a path. None where the path is empty.
pub fn last_embedded(types: &Types, class: TypeId, path: &[u32]) -> Option<Embedded>
    ensures { result ≡ embedding.last_on types.now (embedding.pointed types.now class) path.now }
{
    let mut within = pointed(types, class);
    let mut last = None;
    for field in path {
        let of = field_type(types, within, *field)?;
        last = Some(Embedded {
            within,
            field: *field,
            of,
        });
        within = pointed(types, of);
    }
    last
}

/// What a pointer type points to, and any other type as it is.
fn pointed(types: &Types, of: TypeId) -> TypeId
    ensures { result ≡ embedding.pointed types.now of }
{
    match types.get(of) {
        Some(TypeTerm::Pointer(base)) => *base,
        _ => of,
    }
}

fn is_pointer(types: &Types, of: TypeId) -> bool
    ensures { result ≡ embedding.is_pointer types.now of }
{
    matches!(types.get(of), Some(TypeTerm::Pointer(_)))
}

fn field_type(types: &Types, of: TypeId, field: u32) -> Option<TypeId>
    ensures { result ≡ embedding.field_type types.now of field }
{
    match types.underlying_term(of) {
        Some(TypeTerm::Struct(fields)) => match fields.as_slice().get(field as usize) {
            Some(field) => Some(field.of),
            None => None,
        },
        _ => None,
    }
}

/// The type of a method's receiver.
pub fn receiver_type(functions: &[FunctionDecl], function: FuncId) -> Option<TypeId>
    ensures { result ≡ embedding.receiver_type functions.now function }
{
    match functions.get(function.number as usize) {
        Some(decl) => decl.receiver,
        None => None,
    }
}

/// Where a method's receiver comes from, if it is of a function type.
#[tactic(auto, unfolding(crate::specs::Embedding::receiver_of))]
pub fn receiver_of(
    types: &Types,
    functions: &[FunctionDecl],
    class: TypeId,
    path: &[u32],
    function: FuncId,
) -> Node
    ensures { result ≡ embedding.receiver_of types.now functions.now class path.now function }
{
    match receiver_type(functions, function) {
        Some(receiver) if is_function(types, receiver) => {
            let last = last_embedded(types, class, path);
            receiver_node(types, class, last, receiver)
        }
        _ => Node::Nothing,
    }
}

/// Where a receiver of a function type comes from: the last embedded field, what a pointer that is loaded points to, or
/// what was put into an interface.
#[tactic(auto, unfolding(crate::specs::Embedding::receiver_on))]
fn receiver_node(types: &Types, class: TypeId, last: Option<Embedded>, receiver: TypeId) -> Node
    ensures { result ≡ embedding.receiver_on types.now class receiver last }
{
    match last {
        Some(last) => {
            if is_pointer(types, last.of) {
                return Node::Ptr(receiver);
            }
            Node::Field(last.within, last.field as usize)
        }
        None => {
            if is_pointer(types, class) {
                return Node::Ptr(receiver);
            }
            Node::Boxed(receiver)
        }
    }
}
