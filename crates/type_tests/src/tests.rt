//! The Go specification's examples, by concern.

mod constants;
mod relations;
mod tables;
