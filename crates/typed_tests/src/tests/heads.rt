//! First lines of functions: which are typed, and their texts.

use crate::tests::codes::{Head, TESTED, add_block, add_common, empty_code, function_of, kept};
use crate::tests::typing::print_code;
use crate::tests::world::{World, make_world};
use go_base::{BlockId, NoMemory};
use go_devices::MemSink;
use ssa_ir::FunctionKind::{External, Init, Source, Wrapper};
use ssa_ir::{Code, Function, FunctionKind, Op};
use ssa_typed::{TypedError, type_code};
use std::alloc::Global;
use std::test::Fail;

/// The kind of a function, the letters of the types of its parameters, results and free variables, and what follows its
/// name where its first line is typed.
type Row = (
    FunctionKind,
    (&'static str, &'static str, &'static str),
    Option<&'static str>,
);

/// With a block.
const PLAIN: &[Row] = &[
    (Source, ("", "", ""), Some("() recover 0:\n")),
    (
        Source,
        ("ab", "a", ""),
        Some("(p0 int, p1 bool) int recover 0:\n"),
    ),
    (
        Source,
        ("i", "ab", "ch"),
        Some("(p0 *main.point) (int, bool) free f0 string, f1 main.point recover 0:\n"),
    ),
    (
        Wrapper,
        ("h", "a", ""),
        Some("(p0 main.point) int recover 0:\n"),
    ),
    (Init, ("", "", ""), Some("() recover 0:\n")),
    (Source, ("a0", "", ""), None),
    (Source, ("1", "", ""), None),
    (Source, ("", "0", ""), None),
    (Source, ("", "", "2"), None),
    (External, ("", "", ""), None),
    (Init, ("a", "", ""), None),
    (Init, ("", "a", ""), None),
    (Init, ("", "", "a"), None),
];

/// With a block, and variadic.
const VARIADIC: &[Row] = &[
    (
        Source,
        ("aj", "", ""),
        Some("(p0 int, p1 ...int) recover 0:\n"),
    ),
    (
        Source,
        ("jj", "", ""),
        Some("(p0 []int, p1 ...int) recover 0:\n"),
    ),
    (Source, ("ja", "", ""), None),
    (Source, ("", "", ""), None),
];

/// Without a block.
const BARE: &[Row] = &[
    (External, ("a", "b", ""), Some("(p0 int) bool: external\n")),
    (Source, ("", "", ""), None),
    (Init, ("", "", ""), None),
    (Wrapper, ("", "", ""), None),
];

const TABLES: [(&[Row], bool, bool); 3] = [
    (PLAIN, false, true),
    (VARIADIC, true, true),
    (BARE, false, false),
];

fn head_of(row: &Row, variadic: bool) -> Head {
    let (kind, (params, results, free), _) = *row;
    Head {
        name: "main.f",
        kind,
        params: params.as_bytes(),
        free: free.as_bytes(),
        results: results.as_bytes(),
        variadic,
    }
}

/// The code of a function of a head.
fn code_of(alloc: Global, head: Head, has_block: bool) -> Result<Code, NoMemory> {
    let mut code = empty_code(alloc)?;
    let done = fill(alloc, &mut code, head, has_block);
    kept(code, done)
}

fn fill(alloc: Global, code: &mut Code, head: Head, has_block: bool) -> Result<(), NoMemory> {
    let world = make_world(alloc, &mut code.types)?;
    add_common(alloc, code, &world)?;
    let function = tested(alloc, &world, head, has_block)?;
    code.functions.push(function)
}

fn tested(alloc: Global, world: &World, head: Head, has_block: bool) -> Result<Function, NoMemory> {
    let mut function = function_of(alloc, world, head)?;
    if !has_block {
        return Ok(function);
    }
    function.recover = Some(BlockId { number: 0 });
    let done = add_block(alloc, &mut function, Op::Tick);
    kept(function, done)
}

/// What `type_code` says of a function, and what is printed.
fn judged(
    alloc: Global,
    head: Head,
    has_block: bool,
) -> Result<(Option<TypedError>, MemSink), NoMemory> {
    let code = code_of(alloc, head, has_block)?;
    let answer = type_code(alloc, &code).err();
    let out = print_code(alloc, &code);
    drop(code);
    Ok((answer, out?))
}

/// Whether what is printed holds the first line of the function, with a text behind its name.
fn is_shown(out: &[u8], text: &str) -> bool {
    let line = "\nfunc main.f";
    let whole = line.len() + text.len();
    out.windows(whole).any(|part| part.starts_with(line.as_bytes())
        && part.ends_with(text.as_bytes()))
}

/// Whether a row is judged and printed as it says.
fn is_right(alloc: Global, row: &Row, variadic: bool, has_block: bool) -> Result<bool, NoMemory> {
    let (answer, out) = judged(alloc, head_of(row, variadic), has_block)?;
    Ok(match row.2 {
        Some(text) => answer.is_none() && is_shown(out.bytes(), text),
        None => {
            answer
                == Some(TypedError::IllTyped {
                    function: TESTED,
                    block: 0,
                    instr: 0,
                })
        }
    })
}

#[test]
fn first_lines(rt: HostRuntime) -> Result<(), Fail> {
    for (rows, variadic, has_block) in TABLES {
        for row in rows {
            assert!(rt; is_right(rt.alloc(), row, variadic, has_block)?, "{}", row.1.0);
        }
    }
    Ok(())
}
