//! Values that flow, the places that they flow through, and what calls choose from. Types are as they stand in the tree.

ghost use Rattle.std.specs.Prelude.{◌≡◌};
ghost use Rattle.cg_nodes.specs.Places.{spot_at};

use go_base::{FuncId, NameId, Pos, TypeId, VarId};

/// A method of an interface, or of another type, by its name.
#[derive(Clone, Copy, PartialEq, Eq, Hash)]
pub struct Selector {
    /// The type that the method is selected of.
    pub of: TypeId,
    pub name: NameId,
    pub package: u32,
}

/// A place in a file, by which a method value is known.
#[derive(Clone, Copy, PartialEq, Eq, Hash)]
pub struct Spot {
    pub file: u32,
    pub offset: u32,
}

impl Spot {
    /// The spot of a position.
    pub fn at(pos: Pos) -> Spot
        ensures { result ≡ spot_at pos }
    {
        Spot {
            file: pos.file,
            offset: pos.offset,
        }
    }
}

/// A value that flows: one of a class, or a function value. `signature` is the function's type.
#[derive(Clone, Copy, PartialEq, Eq, Hash)]
pub enum Value {
    /// A value of a class, in an interface.
    Class(TypeId),
    /// A declared function or a literal.
    Function(FuncId),
    /// A method value of a declared method.
    Bound(FuncId),
    /// A method value of an interface, which stands at a spot.
    BoundSelector {
        at: Spot,
        selector: Selector,
        signature: TypeId,
    },
    /// A method expression.
    Unbound {
        selector: Selector,
        signature: TypeId,
    },
}

/// What a call chooses from: the methods of an interface's implementations, or the functions of a signature.
#[derive(Clone, Copy, PartialEq, Eq, Hash)]
pub enum Group {
    Selected(Selector),
    Signed(TypeId),
}

/// A place that values flow through. Places of one struct type, and of one type of elements, keys or the like, are one.
#[derive(Clone, Copy, PartialEq, Eq, Hash)]
pub enum Node {
    /// No place: nothing flows there.
    Nothing,
    Variable(VarId),
    /// What a function is given, the receiver first.
    Parameter(FuncId, usize),
    /// A result of a function.
    Returned(FuncId, usize),
    /// A field of a struct type.
    Field(TypeId, usize),
    /// The elements of arrays and slices, by their type.
    Elem(TypeId),
    Key(TypeId),
    /// The values of maps.
    Val(TypeId),
    Chan(TypeId),
    /// What pointers to a type point to.
    Ptr(TypeId),
    /// The functions of a type that were put into interfaces.
    Boxed(TypeId),
    /// Every expression that makes the value anew.
    Made(Value),
    /// The operand of a method value of an interface.
    Operand(Spot),
    /// What the calls that choose from a group give.
    Argument(Group, usize),
    /// What the calls that choose from a group get.
    Outcome(Group, usize),
    /// What `recover` gives.
    Recover,
}

/// What the parts of several values are read from.
#[derive(Clone, Copy, PartialEq, Eq)]
pub enum Parts {
    Nothing,
    /// The results of a function.
    Returned(FuncId),
    /// The results of calls that choose from a group.
    Outcome(Group),
    /// A node, and whether it holds.
    First(Node),
    /// A value of a map, and whether it is there.
    Lookup,
    /// What comes from a channel, and whether it was sent.
    Received,
    /// A key and a value of a map.
    Entry,
    /// An index and an element.
    Item,
}

/// What a call calls: a function, or what the values in a node stand for in a group. `first` is the node of the first
/// argument, whose method a method expression calls.
#[derive(Clone, Copy, PartialEq, Eq)]
pub enum Called {
    Fixed(FuncId),
    Chosen { of: Node, first: Node, group: Group },
}

/// What stands in a body.
#[derive(Clone, Copy, PartialEq, Eq)]
pub enum Mention {
    /// The value is made.
    Seed(Value),
    /// What is in one node is in the other.
    Flow { from: Node, to: Node },
    /// A call, with its `(`.
    Call { at: Pos, called: Called },
}
