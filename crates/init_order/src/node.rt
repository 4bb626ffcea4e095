//! What names and is named.

/// A variable of a package, an initialisation, or a function, by its number.
#[derive(Clone, Copy, PartialEq, Eq)]
pub enum Node {
    Variable(usize),
    /// The initialisation of one variable by its value, or of several by one call.
    Step(usize),
    Function(usize),
}
