//! What may write to cells.

ghost use Rattle.std.specs.Prelude.{◌≡◌};
ghost use Rattle.code_plan.specs.Registers as registers;

use crate::steps::{ConvertForm, Step};

/// Whether a step may write to a cell, make one, or let other code do so.
pub(crate) fn may_write(step: &Step) -> bool
    ensures { result ≡ registers.may_write step.now }
{
    match step {
        Step::New { .. }
        | Step::Store { .. }
        | Step::Update { .. }
        | Step::MakeMap { .. }
        | Step::MakeSlice { .. }
        | Step::Call { .. }
        | Step::Go { .. }
        | Step::Defer { .. }
        | Step::RunDefers
        | Step::Send { .. }
        | Step::Receive { .. }
        | Step::Select { .. }
        | Step::NextText { .. }
        | Step::NextMap { .. }
        | Step::Jump { .. }
        | Step::If { .. }
        | Step::Return { .. }
        | Step::Panic { .. } => true,
        Step::Convert {
            form: ConvertForm::TextToBytes | ConvertForm::TextToRunes,
            ..
        } => true,
        _ => false,
    }
}
