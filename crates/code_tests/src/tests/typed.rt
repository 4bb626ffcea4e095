//! Which codes are typed, and the first line that is not.

use crate::tests::kinds::{basics, code, kept};
use crate::tests::rows::function;
use go_base::NoMemory;
use go_type::Basic::{self, Bool, Int};
use ssa_ir::{Code, Function};
use ssa_typed::{TypedError, type_code};
use std::alloc::Global;
use std::test::Fail;

/// The function of four blocks: `x = a + 1; if c { x = x * 2 }; return x`, where `c` and `a` are the parameters.
#[derive(Clone, Copy)]
pub struct Row {
    params: &'static [Basic],
    results: &'static [Basic],
    registers: &'static [Basic],
    variadic: bool,
    text: &'static str,
    /// The block and the instruction that are ill typed.
    place: Option<(u64, u64)>,
}

/// The function as it is right. Registers are numbered against the order of the text.
pub const RIGHT: Row = Row {
    params: &[Bool, Int],
    results: &[Int],
    registers: &[Bool, Int, Int, Int],
    variadic: false,
    text: ":b31a12;0:m232j3;0:j3;21:p12312r1;",
    place: None,
};

/// The function, changed in one part.
fn changed(number: u32) -> Row {
    let mut row = RIGHT;
    row.place = Some((0, 0));
    match number {
        // `p1 + 1` of a boolean.
        0 => row.params = &[Bool, Bool],
        // A last parameter that is no slice, and a function of the source without blocks.
        1 => row.variadic = true,
        2 => row.text = "",
        // A phi of integers that is a boolean.
        3 => {
            row.registers = &[Bool, Bool, Int, Int];
            row.place = Some((3, 0));
        }
        // `return` of an integer.
        _ => {
            row.results = &[Bool];
            row.place = Some((3, 1));
        }
    }
    row
}

/// Adds the function of a row.
pub fn add_four_blocks(alloc: Global, code: &mut Code, row: &Row) -> Result<(), NoMemory> {
    let mut function = function(alloc, row.text, None)?;
    let done = fill(alloc, &mut function, row);
    code.functions.push(kept(function, done)?)
}

fn fill(alloc: Global, function: &mut Function, row: &Row) -> Result<(), NoMemory> {
    function.params = basics(alloc, row.params)?;
    function.results = basics(alloc, row.results)?;
    function.registers = basics(alloc, row.registers)?;
    function.variadic = row.variadic;
    Ok(())
}

/// Where the code of a row is ill typed.
fn ill_typed(alloc: Global, row: &Row) -> Result<Option<TypedError>, NoMemory> {
    let mut code = code(alloc)?;
    let answer = match add_four_blocks(alloc, &mut code, row) {
        Ok(()) => Ok(type_code(alloc, &code).err()),
        Err(error) => Err(error),
    };
    drop(code);
    answer
}

#[test]
fn first_lines_that_are_ill_typed(rt: HostRuntime) -> Result<(), Fail> {
    assert_eq!(rt; ill_typed(rt.alloc(), &RIGHT)?, None);
    for number in 0..5 {
        let row = changed(number);
        let wanted = row.place.map(|(block, instr)| TypedError::IllTyped {
            function: 0,
            block,
            instr,
        });
        assert_eq!(rt; ill_typed(rt.alloc(), &row)?, wanted, "{number}");
    }
    Ok(())
}
