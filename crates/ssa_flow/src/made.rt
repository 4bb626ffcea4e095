//! Which unnamed struct types are put into interfaces.

use go_base::{NoMemory, TypeId, VarId};
use go_tree::Program;
use go_type::{TypeTerm, Types};
use indexmap::IndexSet;
use ssa_ir::{Block, Function, Op, Operand};

/// Adds the unnamed struct types, and pointers to such, of values that a function puts into interfaces.
pub(crate) fn push_made(
    program: &Program,
    types: &Types,
    function: &Function,
    dynamic: &mut IndexSet<TypeId>,
) -> Result<(), NoMemory> {
    for block in function.blocks.as_slice() {
        push_of_block(program, types, function, block, dynamic)?;
    }
    Ok(())
}

fn push_of_block(
    program: &Program,
    types: &Types,
    function: &Function,
    block: &Block,
    dynamic: &mut IndexSet<TypeId>,
) -> Result<(), NoMemory> {
    for instr in block.instrs.as_slice() {
        if let Op::MakeInterface { operand, .. } = &instr.op {
            if let Some(of) = type_of(program, types, function, operand) {
                if is_unnamed_struct(types, of) {
                    dynamic.insert(of)?;
                }
            }
        }
    }
    Ok(())
}

fn type_of(
    program: &Program,
    types: &Types,
    function: &Function,
    operand: &Operand,
) -> Option<TypeId> {
    match operand {
        Operand::Param(number) => function.params.as_slice().get(*number as usize).copied(),
        Operand::Free(number) => function.free.as_slice().get(*number as usize).copied(),
        Operand::Register(number) => function.registers.as_slice().get(*number as usize).copied(),
        Operand::Constant { of, .. } => Some(*of),
        Operand::Variable(variable) => pointer_to(program, types, *variable),
        Operand::Function(_) => None,
    }
}

/// The type of pointers to a variable of a package.
fn pointer_to(program: &Program, types: &Types, variable: VarId) -> Option<TypeId> {
    let variable = program.variables.as_slice().get(variable.number as usize)?;
    types.find(&TypeTerm::Pointer(variable.of))
}

/// Whether a type is an unnamed struct type, or a pointer to one.
fn is_unnamed_struct(types: &Types, of: TypeId) -> bool {
    match types.get(of) {
        Some(TypeTerm::Struct(_)) => true,
        Some(TypeTerm::Pointer(base)) => matches!(types.get(*base), Some(TypeTerm::Struct(_))),
        _ => false,
    }
}
