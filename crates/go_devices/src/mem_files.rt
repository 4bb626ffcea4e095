//! Files in memory.

ghost use Rattle.std.specs.Prelude.{map, string_bytes, option_copied, ◌≡◌, ◌↔◌, ℕ, List, [], Some, IfOk, OnErr, IsErrOf, IsTrue, bytes_eq, if◌then◌else◌};
ghost use Rattle.std.specs.List.Sorted.{IsStrictlyIncreasing};
ghost use Rattle.go_devices.specs.CallPlan.{after_call, fails_next};
ghost use Rattle.go_base.specs.Devices.{ListsTree, ReadsTree, file_at, name_in, names_in, is_directory};
ghost use Rattle.go_devices.specs.Memory.{tree_of};

use crate::call_plan::FaultPlan;
use go_base::{FileError, Files, NoMemory, rest_below};
use std::alloc::Global;
use std::collections::BTreeMap;
use std::marker::Model;

/// Files that are held in memory, and fail at given calls.
#[derive(Drop)]
pub struct MemFiles {
    alloc: Global,
    files: BTreeMap<String, Vec<u8>>,
    plan: FaultPlan,
}

impl Model for MemFiles {
    ghost use Rattle.std.specs.String.{string_cmp};
    ghost use Rattle.std.specs.BTreeMap.{IsOrdered};
    ghost use Rattle.go_devices.specs.Memory.{MemFilesState, tree_of};

    ghost Value = { MemFilesState };

    ghost view = { λ m. record { files = tree_of m.files.entries; plan = m.plan } };

    ghost invariant = { λ m. IsOrdered string_cmp m.files };
}

impl MemFiles {
    /// Files that hold none. Their calls of `list` and `read` with the numbers in `fail`, counted together from 1,
    /// answer `Failed`, up to the call of the last number of a `u64`; no other call does.
    pub fn new(alloc: Global, fail: &[u64]) -> Result<MemFiles, NoMemory>
        requires { IsStrictlyIncreasing fail.now }
        ensures { IfOk result (λ files. files ≡ record { files = []; plan = record { calls = 0; fail = fail.now; faults = 0 } }) }
    {
        Ok(MemFiles {
            alloc,
            files: BTreeMap::new(alloc),
            plan: FaultPlan::new(alloc, fail)?,
        })
    }

    /// Puts a file in place of any at that path. Where no memory is found all is as before.
    pub fn add(&mut self, path: &str, bytes: &[u8]) -> Result<(), NoMemory>
        ensures file { IfOk result (λ _. (q : List ℕ) →
            file_at self.new.files q ≡ (if bytes_eq path.now q then Some bytes.now else file_at self.old.files q)) }
        ensures plan { self.new.plan ≡ self.old.plan }
        ensures err { OnErr result (self.new ≡ self.old) }
    {
        let path = String::from_str(self.alloc, path)?;
        let bytes = Vec::from_slice(self.alloc, bytes)?;
        self.files.insert(path, bytes)?;
        Ok(())
    }
}

/// The name of a file that lies in a directory itself.
fn name_in<'a>(dir: &str, path: &'a str) -> Option<&'a str>
    ensures { option_copied result ≡ name_in dir.now path.now }
{
    let rest = rest_below(dir, path)?;
    if rest.as_bytes().contains(&b'/') {
        None
    } else {
        Some(rest)
    }
}

/// Whether any file lies below a directory.
fn is_directory(files: &BTreeMap<String, Vec<u8>>, dir: &str) -> bool
    ensures { result ≡ is_directory (tree_of files.now.entries) dir.now }
{
    for (path, _) in files {
        if rest_below(dir, path.as_str()).is_some() {
            return true;
        }
    }
    false
}

/// The names of the files that lie in a directory itself.
fn names_in(
    alloc: Global,
    files: &BTreeMap<String, Vec<u8>>,
    dir: &str,
) -> Result<Vec<String>, NoMemory>
    ensures { IfOk result (λ names. map string_bytes names.items ≡ names_in dir.now (tree_of files.now.entries)) }
{
    let mut names = Vec::new(alloc);
    for (path, _) in files {
        if let Some(name) = name_in(dir, path.as_str()) {
            names.push(String::from_str(alloc, name)?)?;
        }
    }
    Ok(names)
}

impl Files for MemFiles {
    ghost tree = { λ m. Some m.files };

    ghost faults = { λ m. m.plan.faults };

    fn list(&mut self, alloc: Global, dir: &str) -> Result<Vec<String>, FileError>
        ensures answer { ListsTree self.old.files dir.now result }
        ensures failed { IsErrOf result FileError.Failed ↔ IsTrue (fails_next self.old.plan) }
        ensures after { self.new ≡ record self.old { plan = after_call self.old.plan } }
    {
        if self.plan.next_fails() {
            return Err(FileError::Failed);
        }
        if !is_directory(&self.files, dir) {
            return Err(FileError::Absent);
        }
        let names = names_in(alloc, &self.files, dir)?;
        Ok(names)
    }

    fn read(&mut self, alloc: Global, path: &str, limit: usize) -> Result<Vec<u8>, FileError>
        ensures answer { ReadsTree self.old.files path.now limit result }
        ensures failed { IsErrOf result FileError.Failed ↔ IsTrue (fails_next self.old.plan) }
        ensures after { self.new ≡ record self.old { plan = after_call self.old.plan } }
    {
        if self.plan.next_fails() {
            return Err(FileError::Failed);
        }
        let Some(bytes) = self.files.get(path) else {
            return Err(FileError::Absent);
        };
        if bytes.len() > limit {
            return Err(FileError::TooLarge);
        }
        let copy = Vec::from_slice(alloc, bytes)?;
        Ok(copy)
    }
}
