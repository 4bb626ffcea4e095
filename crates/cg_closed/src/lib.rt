//! That call graphs are sound, as far as no run is named: the parameters of each graph are closed under what a run does.
//! So a run that stays in them makes no call that is no edge.
#![tactic(auto)]

mod laws;

pub use laws::{cha_is_closed, rta_is_closed, vta_is_closed};
