//! Loading of a Go program: go.mod, the files of the target, and the packages that they import, or the first rule that
//! the files break.
//!
//! `load` asks the files one call at a time: go.mod, then package after package in the order in which they are
//! imported. Within a package each file is read, scanned and parsed in turn.
#![tactic(auto)]

mod imports;
mod loader;
mod loading;
mod one_file;
mod package_files;
mod read;

pub use go_base::Target;
pub use go_finding::LoadError;
pub use loading::{from_text, load};
