//! The grammar of Go files as data: which trees are well formed, and with which tokens they are written; and how tokens
//! are read from left to right.
#![tactic(auto)]

mod laws;

pub use laws::{
    cut_parts, first_bad_part, one_place, one_tree, read_again, sound_parts, sound_reading,
};
