//! Code: functions of blocks of instructions.
#![tactic(auto)]

mod code;
mod instr_lists;
mod lists;
mod operands;
mod ops;

pub use code::{Block, Code, CodeVariable, Form, Function, FunctionKind, MethodLine, WrapNeed};
pub use instr_lists::{Instrs, Operands, PhiEdges, SelectCases};
pub use lists::{BlockIds, Blocks, CodeVariables, Functions, MethodLines, Needs};
pub use operands::{ConstValue, Operand};
pub use ops::{Call, Infix, Instr, Op, PhiEdge, SelectCase};
