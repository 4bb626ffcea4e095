//! The types that a code puts into interfaces.

ghost use Rattle.std.specs.Prelude.{◌≡◌, ◌++◌, IfOk, OnOk};
ghost use Rattle.go_value.specs.Interfaces.{is_interface_type};
ghost use Rattle.ssa_mean.specs.Operands as ir;
ghost use Rattle.ssa_runnable.specs.Boxed.{boxed_all, boxed_by, boxed_blocks, types_where};

use crate::sites::Site;
use go_base::{NoMemory, TypeId};
use go_type::{TypeTerm, Types};
use ssa_ir::{Block, Instr, Op};

impl Site<'_> {
    /// Adds the types of which instructions of the function put values into interfaces.
    pub fn push_boxed(&self, boxed: &mut Vec<TypeId>) -> Result<(), NoMemory>
        ensures { let f = self.now.function.now in OnOk result (boxed.new.items ≡ boxed.old.items ++ boxed_blocks self.now.code.now f f.blocks) }
    {
        self.push_blocks(boxed, self.function.blocks.as_slice())
    }

    fn push_blocks(&self, boxed: &mut Vec<TypeId>, blocks: &[Block]) -> Result<(), NoMemory>
        ensures { OnOk result (boxed.new.items ≡ boxed.old.items ++ boxed_blocks self.now.code.now self.now.function.now blocks.now) }
    {
        for block in blocks {
            self.push_all(boxed, block.instrs.as_slice())?;
        }
        Ok(())
    }

    fn push_all(&self, boxed: &mut Vec<TypeId>, instrs: &[Instr]) -> Result<(), NoMemory>
        ensures { OnOk result (boxed.new.items ≡ boxed.old.items ++ boxed_all self.now.code.now self.now.function.now instrs.now) }
    {
        for instr in instrs {
            self.push_by(boxed, &instr.op)?;
        }
        Ok(())
    }

    fn push_by(&self, boxed: &mut Vec<TypeId>, op: &Op) -> Result<(), NoMemory>
        ensures { OnOk result (boxed.new.items ≡ boxed.old.items ++ boxed_by self.now.code.now self.now.function.now op.now) }
    {
        match op {
            Op::MakeInterface { operand, .. } => {
                let of = self.type_of(operand)?;
                push_where(&self.code.types, boxed, of)
            }
            _ => Ok(()),
        }
    }
}

fn push_where(types: &Types, boxed: &mut Vec<TypeId>, of: Option<TypeId>) -> Result<(), NoMemory>
    ensures { OnOk result (boxed.new.items ≡ boxed.old.items ++ types_where types.now of) }
{
    if let Some(of) = of {
        if !is_interface(types, of) {
            boxed.push(of)?;
        }
    }
    Ok(())
}

pub(crate) fn is_interface(types: &Types, of: TypeId) -> bool
    ensures { result ≡ is_interface_type types.now of }
{
    matches!(types.underlying_term(of), Some(TypeTerm::Interface(_)))
}
