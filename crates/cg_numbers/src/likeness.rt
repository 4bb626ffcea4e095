//! Types up to identity, without the tags of fields: values, nodes and groups in the one form that stands for all that are
//! alike. Go specification, "Type identity" and "Conversions".

ghost use Rattle.std.specs.Prelude.{◌≡◌, IfOk, OnOk, Some};
ghost use Rattle.cg_numbers.specs.Alike as alike;
ghost use Rattle.cg_numbers.specs.Numbered.{StandsFor};
ghost use Rattle.go_type.specs.Grows.{Grows};
ghost use Rattle.go_type.specs.Table.{term_at};
ghost use Rattle.go_type.specs.declared.term.TypeTerm.TheVariants.{Pointer};
ghost use Rattle.type_bare.specs.Stripped.{KeepsDefinitions};

use crate::error::lost;
use cg_nodes::{Group, Node, Selector, Value, is_interface};
use go_base::{NoMemory, TypeId};
use go_type::{TypeTerm, Types};
use std::alloc::Global;
use type_bare::Bare;

/// The types of a program, those without tags among them.
#[derive(Drop)]
pub struct Likeness {
    pub types: Types,
    /// The types without tags.
    pub bares: Bare,
}

impl Likeness {
    /// The types of a program, with those of pointers to its declared and its struct types.
    pub fn new(alloc: Global, types: &Types) -> Result<Likeness, NoMemory>
        ensures { IfOk result (λ like. StandsFor types.now like.types like.bares) }
    {
        let mut copy = types.copy(alloc)?;
        let mut bares = Bare::new(alloc);
        bares.know_all(&mut copy)?;
        hold_pointers(&mut copy, &bares, types.len())?;
        Ok(Likeness { types: copy, bares })
    }

    /// The type without tags.
    pub fn bare(&self, of: TypeId) -> TypeId
        ensures { result ≡ alike.bare self.now.types self.now.bares of }
    {
        self.bares.at(of)
    }

    /// The underlying type without tags.
    pub fn under(&self, of: TypeId) -> TypeId
        ensures { result ≡ alike.under self.now.types self.now.bares of }
    {
        self.bares.at(self.types.underlying(of))
    }

    /// The type of pointers to a declared type, or to a struct type without tags.
    pub fn pointer_to(&self, of: TypeId) -> Result<TypeId, NoMemory>
        ensures { IfOk result (λ id. term_at self.now.types id ≡ Some (Pointer of)) }
    {
        self.types.find(&TypeTerm::Pointer(of)).ok_or(lost())
    }

    /// A method of an interface by its underlying type; that of another type by the type.
    pub fn selector(&self, selector: Selector) -> Selector
        ensures { result ≡ alike.like_selector self.now.types self.now.bares selector }
    {
        Selector {
            of: self.selected(selector.of),
            name: selector.name,
            package: selector.package,
        }
    }

    /// The type that stands for one whose method is selected.
    fn selected(&self, of: TypeId) -> TypeId
        ensures { result ≡ alike.selected_of self.now.types self.now.bares of }
    {
        if is_interface(&self.types, of) {
            return self.under(of);
        }
        self.bare(of)
    }

    /// A group.
    #[tactic(auto, unfolding(crate::specs::Alike::like_group))]
    pub fn group(&self, group: Group) -> Group
        ensures { result ≡ alike.like_group self.now.types self.now.bares group }
    {
        match group {
            Group::Selected(selector) => Group::Selected(self.selector(selector)),
            Group::Signed(of) => Group::Signed(self.under(of)),
        }
    }

    /// A value.
    #[tactic(auto, unfolding(crate::specs::Alike::like_value))]
    pub fn value(&self, value: Value) -> Value
        ensures { result ≡ alike.like_value self.now.types self.now.bares value }
    {
        match value {
            Value::Class(of) => Value::Class(self.bare(of)),
            Value::Function(function) => Value::Function(function),
            Value::Bound(function) => Value::Bound(function),
            Value::BoundSelector {
                at,
                selector,
                signature,
            } => Value::BoundSelector {
                at,
                selector: self.selector(selector),
                signature: self.under(signature),
            },
            Value::Unbound {
                selector,
                signature,
            } => Value::Unbound {
                selector: self.selector(selector),
                signature: self.under(signature),
            },
        }
    }

    /// A node. Fields are those of the underlying type.
    #[tactic(auto, unfolding(crate::specs::Alike::like_node))]
    pub fn node(&self, node: Node) -> Node
        ensures { result ≡ alike.like_node self.now.types self.now.bares node }
    {
        match node {
            Node::Nothing => Node::Nothing,
            Node::Variable(variable) => Node::Variable(variable),
            Node::Parameter(function, index) => Node::Parameter(function, index),
            Node::Returned(function, index) => Node::Returned(function, index),
            Node::Operand(at) => Node::Operand(at),
            Node::Recover => Node::Recover,
            Node::Field(of, field) => Node::Field(self.under(of), field),
            Node::Elem(of) => Node::Elem(self.bare(of)),
            Node::Key(of) => Node::Key(self.bare(of)),
            Node::Val(of) => Node::Val(self.bare(of)),
            Node::Chan(of) => Node::Chan(self.bare(of)),
            Node::Ptr(of) => Node::Ptr(self.bare(of)),
            Node::Boxed(of) => Node::Boxed(self.bare(of)),
            Node::Made(value) => Node::Made(self.value(value)),
            Node::Argument(group, index) => Node::Argument(self.group(group), index),
            Node::Outcome(group, index) => Node::Outcome(self.group(group), index),
        }
    }
}

/// Holds the types of pointers to the declared types and the struct types of so many, which may be in interfaces.
fn hold_pointers(types: &mut Types, bares: &Bare, count: usize) -> Result<(), NoMemory>
    ensures grows { Grows types.old types.new }
    ensures definitions { KeepsDefinitions types.old types.new }
{
    for number in 0..count as u64 {
        hold_pointer(types, bares, TypeId { number })?;
    }
    Ok(())
}

fn hold_pointer(types: &mut Types, bares: &Bare, to: TypeId) -> Result<(), NoMemory>
    ensures grows { Grows types.old types.new }
    ensures definitions { KeepsDefinitions types.old types.new }
{
    if !is_class(types, to) {
        return Ok(());
    }
    let pointer = TypeTerm::Pointer(bares.at(to));
    if !types.can_hold(&pointer) {
        return Ok(());
    }
    types.hold(pointer)?;
    Ok(())
}

/// Whether a type is a declared one or a struct type.
fn is_class(types: &Types, id: TypeId) -> bool {
    matches!(
        types.get(id),
        Some(TypeTerm::Declared(_) | TypeTerm::Struct(_))
    )
}
