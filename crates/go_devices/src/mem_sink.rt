//! A sink in memory.

ghost use Rattle.std.specs.Prelude.{◌≡◌, ◌↔◌, ◌≤◌, ◌++◌, [], Some, IfOk, OnOk, OnErr, IsErrOf, IsTrue, is_ok, if◌then◌else◌};
ghost use Rattle.std.specs.List.Sorted.{IsStrictlyIncreasing};
ghost use Rattle.std.specs.Io.KnownBytes.{Appends};
ghost use Rattle.go_devices.specs.CallPlan.{after_call, fails_next};
ghost use Rattle.go_base.specs.Devices.{AppendsFront, HasFaulted};

use crate::call_plan::FaultPlan;
use go_base::{NoMemory, Sink, SinkError};
use std::alloc::Global;
use std::marker::Model;

/// A sink that keeps what is written, and fails at given calls.
#[derive(Debug, Drop)]
pub struct MemSink {
    bytes: Vec<u8>,
    plan: FaultPlan,
}

impl Model for MemSink {
    ghost use Rattle.go_devices.specs.Memory.{MemSinkState};

    ghost Value = { MemSinkState };

    ghost view = { λ s. record { bytes = s.bytes.items; plan = s.plan } };
}

impl MemSink {
    /// A sink with no bytes. Its calls of `write` with the numbers in `fail`, counted from 1, answer `Failed`, up to
    /// the call of the last number of a `u64`; no other call does.
    pub fn new(alloc: Global, fail: &[u64]) -> Result<MemSink, NoMemory>
        requires { IsStrictlyIncreasing fail.now }
        ensures { IfOk result (λ sink. sink ≡ record { bytes = []; plan = record { calls = 0; fail = fail.now; faults = 0 } }) }
    {
        Ok(MemSink {
            bytes: Vec::new(alloc),
            plan: FaultPlan::new(alloc, fail)?,
        })
    }

    /// The bytes written so far.
    pub fn bytes(&self) -> &[u8]
        ensures { result.now ≡ self.now.bytes }
    {
        self.bytes.as_slice()
    }
}

impl Sink for MemSink {
    ghost written = { λ s. Some s.bytes };

    ghost faults = { λ s. s.plan.faults };

    /// Appends all of the bytes, or none where it is refused.
    fn write(&mut self, bytes: &[u8]) -> Result<(), SinkError>
        ensures ok { OnOk result (Appends (Some self.old.bytes) (Some self.new.bytes) bytes.now) }
        ensures err { OnErr result (AppendsFront (Some self.old.bytes) (Some self.new.bytes) bytes.now) }
        ensures later { self.old.plan.faults ≤ self.new.plan.faults }
        ensures failed { IsErrOf result SinkError.Failed → HasFaulted self.old.plan.faults self.new.plan.faults }
        ensures fails { IsErrOf result SinkError.Failed ↔ IsTrue (fails_next self.old.plan) }
        ensures after { self.new ≡ record {
          bytes = (if is_ok result then self.old.bytes ++ bytes.now else self.old.bytes);
          plan = after_call self.old.plan;
        } }
    {
        if self.plan.next_fails() {
            return Err(SinkError::Failed);
        }
        self.bytes.extend_from_slice(bytes)?;
        Ok(())
    }
}
