//! What a Go program is loaded from: its files with their trees, its packages and their imports, and what holds of all of
//! them together.
#![tactic(auto)]

mod built_in;
mod places;
mod program;
mod soundness;
mod sources;
mod versions;

pub use built_in::BuiltIn;
pub use places::place_at;
pub use program::Sources;
pub use sources::{Import, SourceFile, SourcePackage};
pub use versions::NEWEST_MINOR;
