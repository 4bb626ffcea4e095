//! Run-time faults. Go specification, "Run-time panics".

use go_base::{NoMemory, TypeId};
use std::alloc::{AllocError, AllocFailed};

/// Why an operation of a run has no value.
#[derive(Clone, Copy, PartialEq, Eq)]
pub enum Fault {
    Index {
        index: i128,
        len: u64,
    },
    SliceBounds,
    ZeroDivisor,
    NilPointer,
    NilMap,
    NegativeShift,
    MakeSliceLen,
    MakeSliceCap,
    GrowSlice,
    MakeChan,
    TextTooLong,
    SendOnClosed,
    CloseOfClosed,
    CloseOfNil,
    /// A map key whose dynamic type is not comparable.
    Unhashable(TypeId),
    /// A comparison of values of a dynamic type that is not comparable.
    Uncomparable(TypeId),
    Assertion {
        dynamic: Option<TypeId>,
        wanted: TypeId,
    },
    PanicNil,
    TooDeep,
}

/// A fault, or want of memory.
#[derive(Clone, Copy, PartialEq, Eq)]
pub enum ValueError {
    Fault(Fault),
    OutOfMemory,
}

impl From<NoMemory> for ValueError {
    ghost use Rattle.std.specs.Prelude.{◌≡◌};
    ghost use Rattle.go_value.specs.declared.faults.ValueError.TheVariants.{OutOfMemory};

    ghost from_gives = { λ _ e. e ≡ OutOfMemory };

    fn from(_: NoMemory) -> ValueError {
        ValueError::OutOfMemory
    }
}

impl From<AllocError> for ValueError {
    ghost use Rattle.std.specs.Prelude.{◌≡◌};
    ghost use Rattle.go_value.specs.declared.faults.ValueError.TheVariants.{OutOfMemory};

    ghost from_gives = { λ _ e. e ≡ OutOfMemory };

    fn from(_: AllocError) -> ValueError {
        ValueError::OutOfMemory
    }
}

impl<T: Drop> From<AllocFailed<T>> for ValueError {
    ghost use Rattle.std.specs.Prelude.{◌≡◌};
    ghost use Rattle.go_value.specs.declared.faults.ValueError.TheVariants.{OutOfMemory};

    ghost from_gives = { λ _ e. e ≡ OutOfMemory };

    fn from(_: AllocFailed<T>) -> ValueError {
        ValueError::OutOfMemory
    }
}
