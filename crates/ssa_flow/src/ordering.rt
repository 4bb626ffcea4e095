//! The order of functions in a code: by package what initialises it, then by place; then the wrappers by name.

use go_base::NoMemory;
use go_tree::{FunctionForm, Program};
use ssa_ir::Function;
use std::alloc::Global;

/// Where a function of the program stands: its package, whether it is not what initialises that, its file and its offset.
pub(crate) fn function_order(program: &Program, number: u64) -> (u32, bool, u32, u32) {
    match program.functions.as_slice().get(number as usize) {
        Some(decl) => (
            decl.package,
            decl.form != FunctionForm::PackageInit,
            decl.at.file,
            decl.at.offset,
        ),
        None => (0, false, 0, 0),
    }
}

/// The numbers of wrappers, by their names.
pub(crate) fn sorted_needs(alloc: Global, wrappers: &[Function]) -> Result<Vec<u64>, NoMemory> {
    let mut order = Vec::new(alloc);
    for place in 0..wrappers.len() {
        order.push(place as u64)?;
    }
    order.sort_by(|a, b| name_at(wrappers, *a).cmp(name_at(wrappers, *b)))?;
    Ok(order)
}

fn name_at(wrappers: &[Function], place: u64) -> &[u8] {
    match wrappers.get(place as usize) {
        Some(function) => function.name.as_str().as_bytes(),
        None => &[],
    }
}

/// Where a need stands in an order.
pub(crate) fn wrapper_place(order: &[u64], need: u64) -> u64 {
    match order.iter().position(|one| *one == need) {
        Some(place) => place as u64,
        None => 0,
    }
}
