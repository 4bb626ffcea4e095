//! The texts of functions.

use crate::tests::kinds::{code, kept};
use crate::tests::lists::add_lists;
use crate::tests::typed::{RIGHT, add_four_blocks};
use go_base::NoMemory;
use go_devices::MemSink;
use ssa_ir::Code;
use ssa_print::{Show, print};
use std::alloc::Global;
use std::test::Fail;

/// What a code has.
#[derive(Clone, Copy)]
pub enum Subject {
    FourBlocks,
    Lists,
}

fn add(alloc: Global, code: &mut Code, subject: Subject) -> Result<(), NoMemory> {
    match subject {
        Subject::FourBlocks => add_four_blocks(alloc, code, &RIGHT),
        Subject::Lists => add_lists(alloc, code),
    }
}

/// What is printed of a code.
pub fn printed(alloc: Global, subject: Subject, available: bool) -> Result<MemSink, NoMemory> {
    let mut code = code(alloc)?;
    let out = match add(alloc, &mut code, subject) {
        Ok(()) => printed_code(alloc, &code, available),
        Err(error) => Err(error),
    };
    drop(code);
    out
}

fn printed_code(alloc: Global, code: &Code, available: bool) -> Result<MemSink, NoMemory> {
    let mut out = MemSink::new(alloc, &[])?;
    let show = Show {
        functions: true,
        available,
    };
    let done = print(alloc, code, show, &mut out);
    kept(out, done.map_err(|_| NoMemory))
}

const FOUR_BLOCKS: &str = "package main
package lib
func main.f(p0 bool, p1 int) int:
0:\tP:0 S:2
\tt0 = p1 + 1:int\tint
\tif p0 goto 1 else 2
1:\tP:1 S:1
\tt1 = t0 * 2:int\tint
\tjump 3
2:\tP:1 S:1
\tjump 3
3:\tP:2 S:0
\tt2 = phi [1: t1, 2: t0]\tint
\treturn t2
# main.f: blocks 4, available 3
";

#[test]
fn a_function_of_four_blocks(rt: HostRuntime) -> Result<(), Fail> {
    let out = printed(rt.alloc(), Subject::FourBlocks, true)?;
    assert_eq!(rt; out.bytes(), FOUR_BLOCKS.as_bytes());
    Ok(())
}
