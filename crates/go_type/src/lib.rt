//! Types, method sets, selectors and constants of Go.
#![tactic(auto)]

mod assigning;
mod comparing;
mod conditions;
mod constants;
mod inline;
mod kinds;
mod laws;
mod levels;
mod lists;
mod members;
mod method_sets;
mod methods;
mod operators;
mod representable;
mod selectors;
mod sights;
mod sizes;
mod term;
mod types;

pub use assigning::{assignable, implements};
pub use comparing::comparable;
pub use constants::{
    Const, ConstError, ConstOp, IntFault, int_binary, int_shift, join, same_value, value_order,
};
pub use kinds::{IntKind, basic, int_kind};
pub use laws::{settled_selectors_stay, settled_types_stay, types_grow};
pub use lists::{Fields, MethodTypes, TypeIds};
pub use method_sets::method_set;
pub use methods::{MethodEntry, MethodSet, Path, SelectError, Selection, SelectionKind};
pub use operators::{BinaryOp, Builtin, CompareOp, UnaryOp};
pub use representable::represent;
pub use selectors::find_selector;
pub use sizes::{MAX_LEAVES, MAX_NESTING, leaves_up_to};
pub use term::{ALL_BASIC, Basic, Dir, EXPORTED, Field, MethodType, Signature, TypeName, TypeTerm};
pub use types::{Definition, Types, identical};
