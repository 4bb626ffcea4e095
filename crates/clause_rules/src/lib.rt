//! What the rules ask of the parts of statements with statements in them: conditions, loops, switches, selects and labels. Go
//! specification, "Labeled statements" to "Select statements".
//!
//! The walk itself, over statements with statements in them, stands in a library above this one: it calls what is here in
//! the order in which the parts stand.
#![tactic(auto)]

mod choosing;
mod composing;
mod ranging;
mod receiving;

pub use choosing::{Cases, Matched, SeenTag, Tag, bind_clause, see_default, see_matched, see_tag};
pub use composing::{
    Began, LoopCondition, SeenCases, begin_labels, end_labels, enter_decl, fall, finish_arm,
    finish_choice, finish_for, finish_switch, finish_type_clause, finish_type_switch, see_cases,
    see_comm_of, see_condition, see_loop_condition, see_type_cases,
};
pub use ranging::{Head, SeenRange, finish_range, see_range};
pub use receiving::{SeenComm, finish_comm};
