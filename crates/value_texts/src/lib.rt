//! What `print` writes, and the texts of faults and of panics.
#![tactic(auto)]

mod fault_texts;
mod printing;

pub use fault_texts::{fault_text, panic_text};
pub use printing::push_printed;
