//! Methods and selections. Go specification, "Method sets" and "Selectors".

ghost use Rattle.std.specs.Prelude.{◌≡◌, ◌==◌, ◌<◌, ◌+◌, ◌-◌, ◌^◌, ◌↔◌, IsTrue, length, slice_get, slice_index, slice_set, ◌++◌, ◌∷◌, [], OnOk, OnErr, IfOk, reverse};

use go_base::{FuncId, NameId, NoMemory, TypeId};
use std::alloc::Global;
use std::marker::Model;

/// Field numbers from 0, the outermost first. A contract sees the list.
#[derive(Drop)]
pub struct Path {
    steps: Vec<u32>,
}

impl Model for Path {
    ghost use Rattle.std.specs.Prelude.{List, ℕ};

    ghost Value = { List ℕ };

    ghost view = { λ p. p.steps.items };
}

impl Path {
    /// No steps.
    pub fn new(alloc: Global) -> Path
        ensures { result ≡ [] }
    {
        Path {
            steps: Vec::new(alloc),
        }
    }

    /// Adds a step at the end. After `NoMemory` the path is as before.
    pub fn push(&mut self, step: u32) -> Result<(), NoMemory>
        ensures ok { OnOk result (self.new ≡ self.old ++ step ∷ []) }
        ensures err { OnErr result (self.new ≡ self.old) }
    {
        self.steps.push(step)?;
        Ok(())
    }

    /// The steps themselves.
    pub fn as_slice(&self) -> &[u32]
        ensures { result.now ≡ self.now }
    {
        self.steps.as_slice()
    }

    /// How many steps there are.
    pub fn len(&self) -> usize
        ensures { result ≡ length self.now }
    {
        self.steps.len()
    }

    /// Whether there are none.
    pub fn is_empty(&self) -> bool
        ensures { result ≡ (length self.now == 0) }
    {
        self.steps.is_empty()
    }

    /// The last step.
    pub fn last(&self) -> Option<u32>
        ensures { result ≡ slice_get self.now (length self.now - 1) }
    {
        self.steps.last().copied()
    }

    /// Adds a number to the last step. `can_add_to_last` tells whether there is one and the sum fits.
    pub fn add_to_last(&mut self, by: u32)
        requires some { 0 < length self.old }
        requires fits { slice_index self.old (length self.old - 1) + by < 2 ^ 32 }
        ensures { let last = length self.old - 1 in self.new ≡ slice_set self.old last (slice_index self.old last + by) }
    {
        let last = self.steps.len() - 1;
        self.steps[last] += by;
    }

    /// Whether there is a last step, and its sum with a number has 32 bits.
    pub fn can_add_to_last(&self, by: u32) -> bool
        ensures { IsTrue result ↔ ((0 < length self.now) × (slice_index self.now (length self.now - 1) + by < 2 ^ 32)) }
    {
        if self.steps.is_empty() {
            return false;
        }
        let last = self.steps.len() - 1;
        self.steps[last] <= u32::MAX - by
    }

    /// The path of steps that begin with the last.
    pub fn from_last(steps: Vec<u32>) -> Path
        ensures { result ≡ reverse steps.items }
    {
        let mut steps = steps;
        steps.as_mut_slice().reverse();
        Path { steps }
    }

    /// The same path once more.
    pub fn copy(&self, alloc: Global) -> Result<Path, NoMemory>
        ensures { IfOk result (λ copy. copy ≡ self.now) }
    {
        Ok(Path {
            steps: Vec::from_slice(alloc, self.steps.as_slice())?,
        })
    }
}

/// What a selector selects.
#[derive(Clone, Copy, PartialEq, Eq)]
pub enum SelectionKind {
    Field,
    Method(FuncId),
    InterfaceMethod,
}

/// A field or method that a selector selects.
#[derive(Drop)]
pub struct Selection {
    /// The embedded fields that lead to it, and the field itself where it is one.
    pub path: Path,
    pub kind: SelectionKind,
    /// The type of the field, or the method's function type without the receiver.
    pub result: TypeId,
}

/// Why a selector selects nothing.
#[derive(Drop)]
pub enum SelectError {
    /// There is no field or method of the name.
    Absent,
    /// There are two at the least depth; these are the first two.
    Ambiguous { first: Path, second: Path },
    OutOfMemory,
}

/// A method that a type has, its own or that of an embedded field.
#[derive(Drop)]
pub struct MethodEntry {
    pub name: NameId,
    /// The package of the method, or `EXPORTED`.
    pub package: u32,
    /// The embedded fields that lead to it; empty for a method of the type itself.
    pub path: Path,
    pub kind: SelectionKind,
    /// Its function type, without the receiver.
    pub of: TypeId,
    /// Whether the receiver is a pointer.
    pub pointer: bool,
}

impl MethodEntry {
    /// The same entry once more.
    pub fn copy(&self, alloc: Global) -> Result<MethodEntry, NoMemory>
        ensures { IfOk result (λ copy. copy ≡ self.now) }
    {
        Ok(MethodEntry {
            name: self.name,
            package: self.package,
            path: self.path.copy(alloc)?,
            kind: self.kind,
            of: self.of,
            pointer: self.pointer,
        })
    }
}

/// Methods. Those of a method set ascend by the number of the name's id, then by package.
#[derive(Drop)]
pub struct MethodSet {
    entries: Vec<MethodEntry>,
}

impl Model for MethodSet {
    ghost use Rattle.std.specs.Prelude.{List};
    ghost use Rattle.go_type.specs.declared.methods.MethodEntry.{MethodEntry};

    ghost Value = { List MethodEntry };

    ghost view = { λ m. m.entries.items };
}

impl MethodSet {
    /// No methods.
    pub fn new(alloc: Global) -> MethodSet
        ensures { result ≡ [] }
    {
        MethodSet {
            entries: Vec::new(alloc),
        }
    }

    /// The methods of a vector.
    pub fn from_entries(entries: Vec<MethodEntry>) -> MethodSet
        ensures { result ≡ entries.items }
    {
        MethodSet { entries }
    }

    /// Adds a method at the end. After `NoMemory` the methods are as before.
    pub fn push(&mut self, entry: MethodEntry) -> Result<(), NoMemory>
        ensures ok { OnOk result (self.new ≡ self.old ++ entry ∷ []) }
        ensures err { OnErr result (self.new ≡ self.old) }
    {
        self.entries.push(entry)?;
        Ok(())
    }

    /// The methods themselves.
    pub fn as_slice(&self) -> &[MethodEntry]
        ensures { result.now ≡ self.now }
    {
        self.entries.as_slice()
    }

    /// The same methods once more.
    pub fn copy(&self, alloc: Global) -> Result<MethodSet, NoMemory>
        ensures { IfOk result (λ copy. copy ≡ self.now) }
    {
        let mut copy = MethodSet::new(alloc);
        for entry in self.entries.as_slice() {
            copy.push(entry.copy(alloc)?)?;
        }
        Ok(copy)
    }
}
