//! The nodes of declarations, numbered, and what each of them stands on.

ghost use Rattle.std.specs.Prelude.{◌≡◌, map, length, option_copied, slice_get, IfOk, OnOk, OnErr};
ghost use Rattle.decl_nodes.specs.Edges.{with_edge, with_edges};
ghost use Rattle.decl_nodes.specs.Numbered.{no_nodes, with_node, with_kind, kind_at};

use crate::graphs::{add_edge, add_edges};
use go_base::{Bytes, NameId, NoMemory, Pos, TypeId};
use go_rules::LogicOp;
use go_type::{CompareOp, Const, ConstOp, Dir, UnaryOp};
use std::alloc::Global;
use std::marker::Model;

/// A field of a struct. Go specification, "Struct types".
#[derive(Drop)]
pub struct FieldNode {
    pub name: NameId,
    /// The package of the struct, or `EXPORTED`.
    pub package: u32,
    /// Its type; of an embedded field the node of that.
    pub form: usize,
    pub embedded: bool,
    pub tag: Bytes,
}

/// An element of an interface. Go specification, "Interface types".
#[derive(Clone, Copy)]
pub enum ElementNode {
    Own {
        node: usize,
        name: NameId,
        /// The package of the interface, or `EXPORTED`.
        package: u32,
        signature: usize,
    },
    Embedded {
        node: usize,
        name: usize,
    },
}

/// The types of parameters and results. Go specification, "Function types".
#[derive(Drop)]
pub struct SignatureNode {
    pub params: Vec<usize>,
    pub results: Vec<usize>,
    pub variadic: bool,
}

/// An operator on two constants.
#[derive(Clone, Copy)]
pub enum Operator {
    Arithmetic(ConstOp),
    Logic(LogicOp),
    Comparison(CompareOp),
    /// To the left, or to the right.
    Shift(bool),
}

/// The arguments of a conversion or of a call of a built-in function.
#[derive(Drop)]
pub struct Arguments {
    pub values: Vec<usize>,
    /// The `...` behind them.
    pub dots: Option<Pos>,
    /// The first of them; without any the call.
    pub at: Pos,
}

/// The built-in functions that make constants of constants.
#[derive(Clone, Copy, PartialEq, Eq)]
pub enum Folded {
    Length,
    Least,
    Greatest,
}

/// What a node is.
#[derive(Drop)]
pub enum Kind {
    /// What nothing is computed of.
    Plain,
    /// A constant that is declared.
    Constant {
        init: Option<usize>,
    },
    /// A declared type.
    Defined {
        of: TypeId,
        form: usize,
    },
    Alias {
        form: usize,
    },
    /// The value of a constant as assigned, and its written type.
    Init {
        value: usize,
        form: Option<usize>,
    },
    /// A name of a declared type or an alias.
    Named(usize),
    /// A name of a predeclared type.
    Predeclared(TypeId),
    /// A type or a constant in parentheses.
    Paren(usize),
    Pointer(usize),
    Slice(usize),
    Array {
        length: usize,
        element: usize,
    },
    Map {
        key: usize,
        element: usize,
    },
    Chan {
        dir: Dir,
        element: usize,
    },
    /// A function type as written, of a signature.
    Function(usize),
    Signature(SignatureNode),
    Struct(Vec<FieldNode>),
    /// An embedded field, of a name or a pointer to it.
    Embedded {
        name: usize,
        pointer: bool,
    },
    Interface(Vec<ElementNode>),
    /// A literal, or a constant of the universe.
    Literal(Const),
    /// A name of a declared constant.
    Value(usize),
    /// `+x` where there is no operator.
    Unary {
        op: Option<UnaryOp>,
        operand: usize,
    },
    Binary {
        op: Operator,
        first: usize,
        second: usize,
    },
    Conversion {
        to: usize,
        arguments: Arguments,
    },
    Fold {
        by: Folded,
        arguments: Arguments,
    },
}

/// A node: a part of a declaration.
#[derive(Drop)]
pub struct Node {
    pub package: u32,
    /// Where its rules stand.
    pub at: Pos,
    pub kind: Kind,
}

/// The nodes, and for each the nodes on which it stands in one step.
#[derive(Drop)]
pub struct Nodes {
    alloc: Global,
    items: Vec<Node>,
    edges: Vec<Vec<usize>>,
}

impl Model for Nodes {
    ghost use Rattle.std.specs.Prelude.{map};
    ghost use Rattle.decl_nodes.specs.Numbered.{Numbered};

    ghost Value = { Numbered };

    ghost view = { λ n. record { list = n.items.items; edges = map (λ r. r.items) n.edges.items } };
}

impl Nodes {
    /// No nodes.
    pub fn new(alloc: Global) -> Nodes
        ensures { result ≡ no_nodes }
    {
        Nodes {
            alloc,
            items: Vec::new(alloc),
            edges: Vec::new(alloc),
        }
    }

    /// Adds a node that stands on nothing yet, and gives its number.
    pub fn push(&mut self, package: u32, at: Pos, kind: Kind) -> Result<usize, NoMemory>
        ensures number { IfOk result (λ n. n ≡ length self.old.list) }
        ensures pushed { OnOk result (self.new ≡ with_node (record { «package» = «package»; at = at; kind = kind }) self.old) }
    {
        let number = self.items.len();
        self.items.push(Node { package, at, kind })?;
        self.edges.push(Vec::new(self.alloc))?;
        Ok(number)
    }

    /// Says what a node is.
    pub fn set(&mut self, node: usize, kind: Kind)
        ensures { self.new ≡ with_kind node kind self.old }
    {
        if node < self.items.len() {
            self.items[node].kind = kind;
        }
    }

    /// A node stands on another. After `NoMemory` all is as before.
    pub fn stand(&mut self, node: usize, on: usize) -> Result<(), NoMemory>
        ensures stands { OnOk result (self.new ≡ record self.old { edges = with_edge node on self.old.edges }) }
        ensures err { OnErr result (self.new ≡ self.old) }
    {
        add_edge(&mut self.edges, node, on)
    }

    /// A node stands on others. After `NoMemory` all is as before.
    pub fn stand_all(&mut self, node: usize, on: &[usize]) -> Result<(), NoMemory>
        ensures stands { OnOk result (self.new ≡ record self.old { edges = with_edges node on.now self.old.edges }) }
        ensures err { OnErr result (self.new ≡ self.old) }
    {
        add_edges(&mut self.edges, node, on)
    }

    /// The node of a number.
    pub fn get(&self, node: usize) -> Option<&Node>
        ensures { option_copied result ≡ slice_get self.now.list node }
    {
        self.items.as_slice().get(node)
    }

    /// What a node is.
    pub fn kind(&self, node: usize) -> Option<&Kind>
        ensures { option_copied result ≡ kind_at self.now.list node }
    {
        match self.items.as_slice().get(node) {
            Some(item) => Some(&item.kind),
            None => None,
        }
    }

    /// The nodes themselves.
    pub fn as_slice(&self) -> &[Node]
        ensures { result.now ≡ self.now.list }
    {
        self.items.as_slice()
    }

    /// What each node stands on.
    pub fn edges(&self) -> &[Vec<usize>]
        ensures { map (λ r. r.items) result.now ≡ self.now.edges }
    {
        self.edges.as_slice()
    }

    /// How many nodes there are.
    pub fn len(&self) -> usize
        ensures { result ≡ length self.now.list }
    {
        self.items.len()
    }
}
