//! Call graphs by classes and by what is reached. golang.org/x/tools, packages callgraph/cha and callgraph/rta.
//!
//! A graph is what calls choose of candidates. Each call chooses from a group: the methods of an interface, or the functions
//! of a signature. What a value stands for in a group is found once, however many calls choose from it.
#![tactic(auto)]

mod aiming;
mod answers;
mod asking;
mod by_class;
mod by_reach;
mod candidates;
mod class_list;
mod classes;
mod edges;
mod embedding;
mod error;
mod implementing;
mod laws;
mod placing;

pub use answers::{Answers, answers_of};
pub use asking::{Asked, Question, edges_of, put_answer, target_number};
pub use by_class::cha;
pub use by_reach::rta;
pub use candidates::{Candidate, Goal};
pub use edges::{Edge, Edges};
pub use laws::rta_within_cha;
