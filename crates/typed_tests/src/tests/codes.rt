//! Codes of a function of one instruction, beside four other functions.

use crate::tests::lines::{Maker, op_of};
use crate::tests::terms::name;
use crate::tests::world::{World, make_world};
use go_base::{BlockId, Names, NoMemory, Pos, Text};
use go_text::Labels;
use go_type::{TypeIds, Types};
use ssa_ir::{
    Block, BlockIds, Blocks, Code, CodeVariable, CodeVariables, Function, FunctionKind, Functions,
    Instr, Instrs, MethodLines, Op, Operands,
};
use std::alloc::Global;

/// The number of the function of the instruction.
pub const TESTED: u64 = 4;

/// The letters of the types that a parameter may have.
const ALL: &[u8] = b"abcdefghijklmnopqrstuvwxyz";

/// What of a code is asked.
#[derive(Clone, Copy)]
pub struct Subject<'a> {
    /// The letter of the type of the register that it gives, or `_`; the form, and its parts.
    pub line: &'a str,
    /// Whether the registers of the digits are given before it.
    pub given: bool,
    pub kind: FunctionKind,
    pub recover: bool,
}

impl Subject<'_> {
    /// In a function of the source with a recover block.
    pub fn of(line: &str) -> Subject {
        Subject {
            line,
            given: false,
            kind: FunctionKind::Source,
            recover: true,
        }
    }
}

/// The code of a subject.
pub fn code_of(alloc: Global, subject: Subject) -> Result<Code, NoMemory> {
    let mut code = empty_code(alloc)?;
    let done = fill(alloc, &mut code, subject);
    kept(code, done)
}

/// A thing, where what was done to it succeeded.
pub fn kept<T: Drop>(thing: T, done: Result<(), NoMemory>) -> Result<T, NoMemory> {
    done.map(|()| thing)
}

fn fill(alloc: Global, code: &mut Code, subject: Subject) -> Result<(), NoMemory> {
    let world = make_world(alloc, &mut code.types)?;
    add_common(alloc, code, &world)?;
    let function = tested(alloc, &world, subject)?;
    code.functions.push(function)
}

/// The declared types, a variable, and four functions.
pub fn add_common(alloc: Global, code: &mut Code, world: &World) -> Result<(), NoMemory> {
    code.declared.push(world.of(b'f'))?;
    code.declared.push(world.of(b'h'))?;
    code.variables.push(CodeVariable {
        name: name(4),
        package: 0,
        of: world.of(b'a'),
    })?;
    add_functions(alloc, &mut code.functions, world)
}

/// A code of the package `main`.
pub fn empty_code(alloc: Global) -> Result<Code, NoMemory> {
    let types = Types::new(alloc, name(0), name(1));
    let parts = both(types, both(names(alloc), packages(alloc)))?;
    Ok(from_parts(alloc, parts))
}

type Parts = (Types, (Names, Labels));

fn from_parts(alloc: Global, parts: Parts) -> Code {
    let (types, (names, packages)) = parts;
    Code {
        types,
        names,
        packages,
        declared: TypeIds::new(alloc),
        variables: CodeVariables::new(alloc),
        methods: MethodLines::new(alloc),
        functions: Functions::new(alloc),
    }
}

/// Two things, where both came.
fn both<A: Drop, B: Drop>(
    first: Result<A, NoMemory>,
    second: Result<B, NoMemory>,
) -> Result<(A, B), NoMemory> {
    match (first, second) {
        (Ok(first), Ok(second)) => Ok((first, second)),
        _ => Err(NoMemory),
    }
}

fn names(alloc: Global) -> Result<Names, NoMemory> {
    let mut names = Names::new(alloc);
    for name in ["error", "Error", "num", "point", "x", "y", "M"] {
        names.intern(name)?;
    }
    Ok(names)
}

fn packages(alloc: Global) -> Result<Labels, NoMemory> {
    let mut packages = Labels::new(alloc);
    packages.push(Text::new(alloc, "main")?)?;
    Ok(packages)
}

/// What stands in the first line of a function: letters of types.
#[derive(Clone, Copy)]
pub struct Head<'a> {
    pub name: &'a str,
    pub kind: FunctionKind,
    pub params: &'a [u8],
    pub free: &'a [u8],
    pub results: &'a [u8],
    pub variadic: bool,
}

/// A function without blocks.
pub fn function_of(alloc: Global, world: &World, head: Head) -> Result<Function, NoMemory> {
    let name = Text::new(alloc, head.name)?;
    let mut function = bare_function(alloc, name, head);
    let done = fill_head(&mut function, world, head);
    kept(function, done)
}

fn fill_head(function: &mut Function, world: &World, head: Head) -> Result<(), NoMemory> {
    push_all(&mut function.params, world, head.params)?;
    push_all(&mut function.free, world, head.free)?;
    push_all(&mut function.results, world, head.results)
}

/// Adds the types of letters and digits.
fn push_all(ids: &mut TypeIds, world: &World, letters: &[u8]) -> Result<(), NoMemory> {
    for letter in letters {
        ids.push(world.of(*letter))?;
    }
    Ok(())
}

fn bare_function(alloc: Global, name: Text, head: Head) -> Function {
    Function {
        name,
        kind: head.kind,
        params: TypeIds::new(alloc),
        variadic: head.variadic,
        free: TypeIds::new(alloc),
        results: TypeIds::new(alloc),
        registers: TypeIds::new(alloc),
        blocks: Blocks::new(alloc),
        recover: None,
    }
}

/// `g() int`, `h(int) (int, bool)`, one with a free variable, and the initialisation of the package.
fn add_functions(alloc: Global, functions: &mut Functions, world: &World) -> Result<(), NoMemory> {
    let heads: [(&str, &[u8], &[u8], &[u8]); 3] = [
        ("main.g", b"", b"", b"a"),
        ("main.h", b"a", b"", b"ab"),
        ("main.g$1", b"", b"a", b"a"),
    ];
    for (name, params, free, results) in heads {
        functions.push(function_of(
            alloc,
            world,
            Head {
                name,
                kind: FunctionKind::External,
                params,
                free,
                results,
                variadic: false,
            },
        )?)?;
    }
    functions.push(init(alloc, world)?)
}

fn init(alloc: Global, world: &World) -> Result<Function, NoMemory> {
    let head = Head {
        name: "main.init",
        kind: FunctionKind::Init,
        params: b"",
        free: b"",
        results: b"",
        variadic: false,
    };
    let mut function = function_of(alloc, world, head)?;
    let done = add_block(alloc, &mut function, Op::Return(Operands::new(alloc)));
    kept(function, done)
}

/// Adds a block of one instruction that gives no register.
pub fn add_block(alloc: Global, function: &mut Function, op: Op) -> Result<(), NoMemory> {
    let (preds, mut instrs) = (BlockIds::new(alloc), Instrs::new(alloc));
    instrs.push(instr(op, None))?;
    function.blocks.push(Block { preds, instrs })
}

pub fn instr(op: Op, register: Option<u64>) -> Instr {
    Instr {
        op,
        register,
        at: Pos { file: 0, offset: 0 },
    }
}

const ALL_TYPES: Head = Head {
    name: "main.f",
    kind: FunctionKind::Source,
    params: ALL,
    free: b"a",
    results: b"ab",
    variadic: false,
};

/// The function of the instruction: a parameter of each type, a free integer, and the results `(int, bool)`.
fn tested(alloc: Global, world: &World, subject: Subject) -> Result<Function, NoMemory> {
    let mut function = function_of(alloc, world, ALL_TYPES)?;
    function.kind = subject.kind;
    function.recover = subject.recover.then_some(BlockId { number: 0 });
    let done = fill_body(alloc, &mut function, world, subject);
    kept(function, done)
}

fn fill_body(
    alloc: Global,
    function: &mut Function,
    world: &World,
    subject: Subject,
) -> Result<(), NoMemory> {
    let line = subject.line.as_bytes();
    let gives = line.first().copied().unwrap_or(b'_');
    push_all(&mut function.registers, world, b"0123456")?;
    function.registers.push(world.of(gives))?;
    let (preds, mut instrs) = (BlockIds::new(alloc), Instrs::new(alloc));
    if subject.given {
        give_all(alloc, world, &mut instrs)?;
    }
    instrs.push(instr(read(alloc, world, line)?, register_of(gives)))?;
    function.blocks.push(Block { preds, instrs })
}

fn register_of(gives: u8) -> Option<u64> {
    if gives == b'_' { None } else { Some(7) }
}

fn read(alloc: Global, world: &World, line: &[u8]) -> Result<Op, NoMemory> {
    let form = line.get(1).copied().unwrap_or(b'k');
    let bytes = line.get(2..).unwrap_or(&[]);
    op_of(
        form,
        Maker {
            alloc,
            world,
            bytes,
        },
    )
}

/// Instructions that give the registers of the digits.
fn give_all(alloc: Global, world: &World, instrs: &mut Instrs) -> Result<(), NoMemory> {
    for number in 0..7 {
        instrs.push(instr(read(alloc, world, b"_Na")?, Some(number)))?;
    }
    Ok(())
}
