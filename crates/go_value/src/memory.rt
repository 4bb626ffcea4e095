//! Want of memory, and values that are shared.

ghost use Rattle.std.specs.Prelude.{◌≡◌, IfOk};

use go_base::NoMemory;
use std::alloc::Global;
use std::rc::Rc;

/// What a case answers that cannot come for values of the types that the program gives them.
pub(crate) fn lost() -> NoMemory {
    NoMemory
}

/// An item that may be shared.
pub(crate) fn shared<T>(alloc: Global, item: T) -> Result<Rc<T>, NoMemory>
where
    T: Drop,
    ensures { IfOk result (λ rc. rc.value ≡ item) }
{
    match Rc::new(alloc, item) {
        Ok(shared) => Ok(shared),
        Err(_) => Err(NoMemory),
    }
}
