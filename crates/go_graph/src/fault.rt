//! What is wrong at a node.

/// Something that is wrong at a node.
#[derive(Clone, Copy, PartialEq, Eq)]
pub struct Fault {
    pub node: usize,
    /// Whether it is this that is wrong: the node stands on itself.
    pub on_cycle: bool,
}
