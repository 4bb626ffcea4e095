//! The work on a program that breaks no rule: its code is printed, a call graph listed, and it is run, each where that is
//! asked. It meets `Working`.
#![tactic(auto)]

mod coding;
mod graphs;
mod outcome;
mod printing;
mod stop;
mod work;

pub use coding::sound_code;
pub use graphs::edges_of;
pub use outcome::Outcome;
pub use stop::Stop;
pub use work::{run_code, work_on};
