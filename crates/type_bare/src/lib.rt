//! Types without the tags of fields: two types are identical but for tags where these are one.
#![tactic(auto)]

mod bare;
mod laws;
mod strip;

pub use bare::{Bare, same_but_tags};
pub use laws::{bare_stays, bare_tells};
