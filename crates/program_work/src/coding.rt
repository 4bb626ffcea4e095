//! The code of a program.

ghost use Rattle.std.specs.Prelude.{IfOk, OnOk, IsErrOf};
ghost use Rattle.program_work.specs.Working.{AreSane, IsSound};
ghost use Rattle.program_work.specs.declared.stop.Stop.TheVariants.{WriteFault};

use crate::stop::Stop;
use go_tree::Program;
use ssa_flow::build;
use ssa_ir::{Code, Form, Function};
use ssa_runnable::is_runnable;
use ssa_sane::sanity;
use ssa_typed::type_code;
use std::alloc::Global;

/// The code of a program. It is judged before it is printed or run: each function is sane, and the code is typed and
/// runnable. Its types are held.
pub fn sound_code(alloc: Global, program: &Program) -> Result<Code, Stop>
    ensures sound { IfOk result IsSound }
    ensures fault { IsErrOf result WriteFault → ⊥ }
{
    let code = build(alloc, program, Form::Naive)?;
    judge(alloc, code.functions.as_slice())?;
    type_code(alloc, &code)?;
    let runs = is_runnable(alloc, &code)?;
    if !runs {
        return Err(Stop::Internal);
    }
    code.types.laws();
    Ok(code)
}

// Stops at the first function that is not sane.
#[tactic(auto, using(crate::proofs::Judged::none_sane))]
fn judge(alloc: Global, functions: &[Function]) -> Result<(), Stop>
    ensures sane { OnOk result (AreSane functions.now) }
    ensures fault { IsErrOf result WriteFault → ⊥ }
{
    for function in functions {
        sanity(alloc, function)?;
    }
    Ok(())
}
