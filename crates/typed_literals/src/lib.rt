//! The rules of Go for composite literals over sound parts: of structs, arrays, slices and maps. Go specification,
//! "Composite literals".
#![tactic(auto)]

mod arrays;
mod composing;
mod maps;
mod structs;

pub use arrays::indexed_literal;
pub use composing::{
    Entry, FieldEntry, Hint, Literal, LiteralKind, elided_literal, open_array_literal,
    written_literal,
};
pub use maps::map_literal;
pub use structs::struct_literal;
