//! Finding what a program is made of: go.mod, the Go files of directories, and the packages that imports name. Nothing
//! here parses, so that it is proved beside the parser.
#![tactic(auto)]

mod error;
mod file_bytes;
pub mod find_module;
mod found;
mod go_mod;
mod import_paths;
mod links;
mod listing;
mod paths;
mod target;
mod versions;
mod words;

pub use error::LoadError;
pub use file_bytes::{read_whole, refuse_at, refuse_first, refuse_in};
pub use found::{Entry, Found, Origin, number_after};
pub use links::{Link, push_links};
pub use listing::list_go_files;
pub use target::{target_dir, target_path};
