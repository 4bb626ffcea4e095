//! What a run of code is: the machine that runs it, as definitions, and the laws about them. The crate has no code that
//! runs.
#![tactic(auto)]

mod laws;

pub use laws::{
    appends_are_one, choices_decide, conversions_are_one, exits_are_bytes, faults_unwind,
    fronts_stand, invokes_find_methods, lone_send_blocks, map_calls_are_one, one_outcome,
    phis_swap, ranges_choose, recovery_gives_results, runes_are_one, selects_choose, slices_grow,
    slots_tell, strings_are_decoded,
};
