//! The verdict on a program alone.

use crate::program::check;
use go_declared::CheckError;
use go_sources::Sources;
use std::alloc::Global;

/// Whether a program that breaks no rule can be run: its target is a package main, with a function main. `Refused` with
/// the first rule that is broken, as `check`.
pub fn can_run(alloc: Global, sources: &Sources) -> Result<bool, CheckError> {
    let program = check(alloc, sources)?;
    let has_main = program.main.is_some();
    drop(program);
    Ok(has_main)
}
