//! What the rules of Go for expressions over sound parts stand on: what is seen of the parts of an expression, the ground
//! that rules ask and change, and how operands take types. Go specification, "Expressions", "Constants" and "Assignability".
//!
//! Whoever walks trees owns one `Ground`, as a field of what it owns itself: the table of types, where rules report what is
//! broken (`least`), and the phase and package that faults have. It sees each part of an expression, with its place as
//! written (`Seen`), and hands the parts to the rule of the expression, which gives the typed node, or None where
//! something is unsound. An untyped operand has one of the five untyped types, until `assigned`, `by_default` or `settle`
//! gives it a type. No rule knows of scopes, of sources, or of names but by their numbers.
//!
//! A rule first asks what it asks through borrows, and then hands the parts on: `joining` has what puts parts together.
#![tactic(auto)]

mod adapting;
mod ground;
mod holding;
mod joining;
mod laws;
mod meaning;
mod nodes;
mod numbers;
mod retyping;
mod several;
mod shapes;

pub use adapting::{
    assigned, assigned_ok, assigned_part, by_default, is_interface, is_nil, made, may_pass, settle,
};
pub use ground::{Ground, lost};
pub use holding::holds_call;
pub use joining::{asked, beside, both, only, sound, with_last};
pub use laws::{reported_in_two_goes, settled_limits_stay, told_limits_are_right};
pub use meaning::{
    Given, Meaning, Seen, is_place, is_tuple, one_value, parenthesized, seen_type, single, type_of,
    value_of,
};
pub use nodes::{
    boxed, boxed_both, boxed_sound, boxes, constant, function, function_literal, integer_literal,
    iota, nil, node, rune_literal, text_literal, variable,
};
pub use numbers::{as_untyped, integer_of, is_constant, text_length, whole_index, with_text_type};
pub use retyping::{and_also, binary_of, defaulted, or_else, rekinded, retyped};
pub use several::{place_of, several_parts};
pub use shapes::{Shape, elem_of, fields_of, is_text, is_untyped_text, pointed, shape_of};
