//! What an expression is for the one above it.

/// What an expression is for the one above it. Go specification, "Address operators", "Assignment statements" and
/// "Expression statements".
#[derive(Clone, Copy, PartialEq, Eq)]
pub enum Form {
    /// A variable, a dereference, an element of a slice, a field of a place or an element of an array that is a place.
    Place,
    /// A composite literal.
    Composite,
    /// `nil`.
    Nothing,
    /// A call of a function or of a built-in function.
    Call,
    /// An element of a map, whose presence is not asked for.
    Entry,
    Other,
}
