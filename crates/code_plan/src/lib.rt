//! Code as a machine runs it: each operand is a slot of the frame, or a value that is there already, and each instruction
//! has the one form that its types ask for.
#![tactic(auto)]

mod blocks;
mod calls;
mod cells;
mod channels;
mod error;
mod jumps;
mod late;
mod making;
mod operands;
mod operations;
mod operators;
mod planner;
mod planning;
mod steps;
mod writes;

pub use planning::plan;
pub use steps::{
    Arg, Bounds, BuiltinForm, Callee, ConvertForm, CutForm, MethodName, MethodOf, Plan,
    PlannedBlock, PlannedCall, PlannedCase, PlannedEdge, PlannedFunction, PlannedPhi, Role, Step,
};
