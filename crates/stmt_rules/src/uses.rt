//! By whom names are read.

use go_base::FuncId;
use go_names::Mention;

/// Who names what is read in an initialiser or a body.
#[derive(Clone, Copy, PartialEq, Eq)]
pub enum Holder {
    /// An initialisation, by its number.
    Step(usize),
    Function(FuncId),
}

/// Names that were read one after the other in what one holds, by their numbers from `from` to before `to`.
#[derive(Clone, Copy)]
pub struct Reading {
    pub holder: Holder,
    pub from: usize,
    pub to: usize,
}

/// The names that were read from a number on.
pub fn mentions_from(mentions: &[Mention], from: usize) -> &[Mention] {
    if from <= mentions.len() {
        &mentions[from..]
    } else {
        &[]
    }
}
