//! What a value stands for where a call chooses.

use go_base::FuncId;

/// What is called: a function, or in turn what the values of a node stand for in a group. `First` is that of the node of the
/// call's first argument.
#[derive(Clone, Copy)]
pub enum Goal {
    Function(FuncId),
    Group { of: usize, group: usize },
    First { group: usize },
}

/// A value stands for a goal. Of the arguments the first `skip` are not handed on, and the others go from the parameter `base`
/// on. `receiver` is the node that a receiver of a function type comes from.
#[derive(Clone, Copy)]
pub struct Candidate {
    pub value: usize,
    pub goal: Goal,
    pub skip: usize,
    pub base: usize,
    pub receiver: usize,
}

/// A candidate, and the number of the group that it belongs to.
#[derive(Clone, Copy)]
pub struct Placed {
    pub group: usize,
    pub candidate: Candidate,
}
