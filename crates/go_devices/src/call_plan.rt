//! Which calls of a device in memory fail.

ghost use Rattle.std.specs.Prelude.{◌≡◌, ◌==◌, IfOk};
ghost use Rattle.std.specs.List.{list_any};
ghost use Rattle.std.specs.List.Sorted.{IsStrictlyIncreasing};
ghost use Rattle.go_devices.specs.CallPlan.{after_call, fails_next};

use go_base::NoMemory;
use std::alloc::Global;
use std::marker::Model;

/// The calls of a device in memory, of which those with given numbers fail.
#[derive(Debug, Drop)]
pub(crate) struct FaultPlan {
    /// The calls made so far. It stops at its last value.
    calls: u64,
    /// The numbers of the calls that fail, from 1, ascending.
    fail: Vec<u64>,
    /// The calls that have failed so far.
    faults: u64,
}

impl Model for FaultPlan {
    ghost use Rattle.std.specs.Prelude.{◌≤◌};
    ghost use Rattle.std.specs.List.Sorted.{IsStrictlyIncreasing};
    ghost use Rattle.go_devices.specs.CallPlan.{CallPlan};

    ghost Value = { CallPlan };

    ghost view = { λ p. record { calls = p.calls; fail = p.fail.items; faults = p.faults } };

    ghost invariant = { λ p. IsStrictlyIncreasing p.fail.items × (p.faults ≤ p.calls) };
}

impl FaultPlan {
    /// The plan before the first call.
    pub(crate) fn new(alloc: Global, fail: &[u64]) -> Result<FaultPlan, NoMemory>
        requires { IsStrictlyIncreasing fail.now }
        ensures { IfOk result (λ plan. plan ≡ record { calls = 0; fail = fail.now; faults = 0 }) }
    {
        Ok(FaultPlan {
            calls: 0,
            fail: Vec::from_slice(alloc, fail)?,
            faults: 0,
        })
    }

    /// Counts a call, and tells whether it is one that fails.
    pub(crate) fn next_fails(&mut self) -> bool
        ensures answer { result ≡ fails_next self.old }
        ensures counted { self.new ≡ after_call self.old }
    {
        if self.calls == u64::MAX {
            return false;
        }
        self.calls += 1;
        let fails = is_listed(&self.fail, self.calls);
        if fails {
            self.faults += 1;
        }
        fails
    }
}

/// Whether a number is among numbers that ascend.
fn is_listed(numbers: &[u64], number: u64) -> bool
    requires { IsStrictlyIncreasing numbers.now }
    ensures { result ≡ list_any (λ other. other == number) numbers.now }
{
    numbers.binary_search(&number).is_ok()
}
