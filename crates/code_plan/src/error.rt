//! What cannot come, and numbers that fit.

ghost use Rattle.std.specs.Prelude.{◌≡◌, IfOk};

use go_base::NoMemory;

/// What a case answers that cannot come for code that is sane and typed.
pub(crate) fn lost() -> NoMemory {
    NoMemory
}

/// A number as a slot, a block or a function has it.
pub(crate) fn small(number: u64) -> Result<u32, NoMemory>
    ensures { IfOk result (λ it. it ≡ number) }
{
    match u32::try_from(number) {
        Ok(number) => Ok(number),
        Err(_) => Err(lost()),
    }
}
