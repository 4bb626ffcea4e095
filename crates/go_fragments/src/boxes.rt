//! Boxes of what was read.

ghost use Rattle.std.specs.Prelude.{◌≡◌, IfOk, IfErr};
ghost use Rattle.go_fragments.specs.declared.stop.Stop.TheVariants as stops;

use crate::stop::Stop;
use std::alloc::Global;

/// A value in a box of its own. A caller that makes a tree has no path of its own on which the tree is let go.
pub fn boxed<T: Drop>(alloc: Global, value: T) -> Result<Box<T>, Stop>
    ensures ok { IfOk result (λ x. x.value ≡ value) }
    ensures memory { IfErr result (λ stop. stop ≡ stops.Memory) }
{
    Ok(Box::new(alloc, value)?)
}
