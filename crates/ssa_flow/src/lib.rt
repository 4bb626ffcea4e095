//! Code of programs: functions, the initialisation of packages, and the wrappers that code needs. Go specification,
//! "Function declarations" and "Program initialization and execution".
#![tactic(auto)]

mod building;
mod error;
mod functions;
mod made;
mod methods;
mod ordering;
mod renumbering;

pub use building::build;
