//! The function or literal whose body is walked.

use flow_rules::Branches;
use go_ast::Token;
use go_base::{TypeId, VarId};
use std::alloc::Global;

/// A result of the function.
#[derive(Clone, Copy)]
pub struct ResultOf {
    pub variable: VarId,
    /// Its name, which may be `_`.
    pub name: Option<Token>,
    /// None where it is unsound.
    pub of: Option<TypeId>,
}

/// The function or literal whose body is walked.
#[derive(Drop)]
pub struct Frame {
    pub results: Vec<ResultOf>,
    pub branches: Branches,
    /// Whether a `defer` of its own stands in it.
    pub has_defer: bool,
}

impl Frame {
    /// Without results.
    pub fn new(alloc: Global) -> Frame {
        Frame {
            results: Vec::new(alloc),
            branches: Branches::new(alloc),
            has_defer: false,
        }
    }
}
