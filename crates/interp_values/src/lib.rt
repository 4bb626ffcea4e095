//! What the steps of planned code make of values: operators, cells and the parts of values, maps, slices, conversions,
//! interfaces, function values and ranges. Each step gives a register its value, or meets its fault.
#![tactic(auto)]

pub mod arithmetic;
pub mod making;
pub mod places;
pub mod ranging;
