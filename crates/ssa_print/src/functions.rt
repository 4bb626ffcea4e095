//! The texts of functions.

ghost use Rattle.std.specs.Prelude.{◌≡◌, ◌++◌, ◌+◌, ◌<◌, ◌==◌, ◌&&◌, OnOk, IfOk, codes, decimal, slice_get, nat_eq, length};
ghost use Rattle.std.specs.List.{enumerate_from, flat_map};
ghost use Rattle.indexmap.specs.IndexSet.{insert_all};
ghost use Rattle.go_text.specs.Joined.{joined};
ghost use Rattle.go_text.specs.TypeText.{type_text_of, results_text, tuple_text, last_param_text};
ghost use Rattle.ssa_ir.specs.Uses.{given_register};
ghost use Rattle.ssa_print.specs.Functions.{numbering, numbering_in, param_text, param_type_text, free_text, title_text, signature_text, notes_text, header_text, frees_text, recover_text, ending_text, target_count, distinct_count, block_text, block_line, given_text, type_of_given, register_type_text, line_text, function_lines};

use crate::instructions::Writer;
use crate::operands::{Setting, push_name, push_register, push_words};
use go_base::{BlockId, NoMemory, TypeId};
use go_text::{push_number, separate};
use go_type::{TypeIds, TypeTerm};
use indexmap::IndexSet;
use ssa_ir::{Block, Function, Instr};
use std::alloc::Global;

/// A function with all its lines.
#[tactic(auto, unfolding(crate::specs::Functions::function_lines))]
pub fn push_function(
    text: &mut Vec<u8>,
    setting: &Setting,
    function: &Function,
) -> Result<(), NoMemory>
    ensures { OnOk result (text.new.items ≡ text.old.items ++ function_lines setting.now function.now) }
{
    push_header(text, setting, function)?;
    let given = number_registers(*text.allocator(), function.blocks.as_slice())?;
    let writer = Writer {
        setting,
        given: &given,
    };
    push_blocks(
        text,
        &writer,
        &function.registers,
        function.blocks.as_slice(),
    )
}

/// The registers that blocks give, in the order of the text.
fn number_registers(alloc: Global, blocks: &[Block]) -> Result<IndexSet<u64>, NoMemory>
    ensures { IfOk result (λ given. given.keys ≡ numbering blocks.now) }
{
    let mut given = IndexSet::new(alloc);
    for block in blocks {
        add_given(&mut given, block.instrs.as_slice())?;
    }
    Ok(given)
}

fn add_given(given: &mut IndexSet<u64>, instrs: &[Instr]) -> Result<(), NoMemory>
    ensures { OnOk result (given.new.keys ≡ numbering_in given.old.keys instrs.now) }
{
    for instr in instrs {
        add_register(given, instr)?;
    }
    Ok(())
}

fn add_register(given: &mut IndexSet<u64>, instr: &Instr) -> Result<(), NoMemory>
    ensures { OnOk result (given.new.keys ≡ insert_all nat_eq given.old.keys (given_register instr.now)) }
{
    if let Some(register) = instr.register {
        given.insert(register)?;
    }
    Ok(())
}

/// The first line of a function.
fn push_header(text: &mut Vec<u8>, setting: &Setting, function: &Function) -> Result<(), NoMemory>
    ensures { OnOk result (text.new.items ≡ text.old.items ++ header_text setting.now function.now) }
{
    push_title(text, function)?;
    push_signature(text, setting, function)?;
    push_notes(text, setting, function)
}

fn push_title(text: &mut Vec<u8>, function: &Function) -> Result<(), NoMemory>
    ensures { OnOk result (text.new.items ≡ text.old.items ++ title_text function.now) }
{
    push_words(text, b"func ")?;
    push_name(text, &function.name)
}

/// The parameters and the results.
fn push_signature(
    text: &mut Vec<u8>,
    setting: &Setting,
    function: &Function,
) -> Result<(), NoMemory>
    ensures { OnOk result (text.new.items ≡ text.old.items ++ signature_text setting.now function.now) }
{
    push_words(text, b"(")?;
    push_params(text, setting, function.params.as_slice(), function.variadic)?;
    push_words(text, b")")?;
    push_results(text, setting, function.results.as_slice())
}

/// What stands behind the results.
fn push_notes(text: &mut Vec<u8>, setting: &Setting, function: &Function) -> Result<(), NoMemory>
    ensures { OnOk result (text.new.items ≡ text.old.items ++ notes_text setting.now function.now) }
{
    push_frees(text, setting, function.free.as_slice())?;
    push_recover(text, function.recover)?;
    push_words(text, ending(function))
}

/// How the first line ends; that of a function without a body says so.
fn ending(function: &Function) -> &'static [u8]
    ensures { result.now ≡ ending_text function.now }
{
    if function.blocks.is_empty() {
        b": external\n"
    } else {
        b":\n"
    }
}

fn push_params(
    text: &mut Vec<u8>,
    setting: &Setting,
    params: &[TypeId],
    variadic: bool,
) -> Result<(), NoMemory>
    ensures { OnOk result (text.new.items ≡ text.old.items ++ joined (codes ", ") (param_text setting.now variadic (length params.now)) (enumerate_from 0 params.now)) }
{
    for (index, param) in params.iter().enumerate() {
        separate(text, b", ", index)?;
        push_param(text, setting, variadic, params.len(), index, *param)?;
    }
    Ok(())
}

/// A parameter by its number, of so many.
fn push_param(
    text: &mut Vec<u8>,
    setting: &Setting,
    variadic: bool,
    count: usize,
    index: usize,
    param: TypeId,
) -> Result<(), NoMemory>
    requires { index < count }
    ensures { OnOk result (text.new.items ≡ text.old.items ++ param_text setting.now variadic count (index, param)) }
{
    push_words(text, b"p")?;
    push_number(text, index as u64)?;
    push_words(text, b" ")?;
    push_param_type(text, setting, is_rest(variadic, count, index), param)
}

/// Whether it is the last parameter of a variadic function.
fn is_rest(variadic: bool, count: usize, index: usize) -> bool
    requires { index < count }
    ensures { result ≡ (variadic && (index + 1 == count)) }
{
    if variadic { index + 1 == count } else { false }
}

fn push_param_type(
    text: &mut Vec<u8>,
    setting: &Setting,
    is_rest: bool,
    param: TypeId,
) -> Result<(), NoMemory>
    ensures { OnOk result (text.new.items ≡ text.old.items ++ param_type_text setting.now is_rest param) }
{
    if is_rest {
        push_rest(text, setting, param)
    } else {
        setting.push_type(text, param)
    }
}

/// The last parameter of a variadic function, a slice type.
fn push_rest(text: &mut Vec<u8>, setting: &Setting, param: TypeId) -> Result<(), NoMemory>
    ensures { OnOk result (text.new.items ≡ text.old.items ++ last_param_text setting.now.naming (type_text_of setting.now.naming) param) }
{
    push_words(text, b"...")?;
    match setting.code.types.get(param) {
        Some(TypeTerm::Slice(elem)) => setting.push_type(text, *elem),
        _ => setting.push_type(text, param),
    }
}

/// The results: nothing, a type, or types in parentheses.
fn push_results(text: &mut Vec<u8>, setting: &Setting, results: &[TypeId]) -> Result<(), NoMemory>
    ensures { OnOk result (text.new.items ≡ text.old.items ++ results_text (type_text_of setting.now.naming) results.now) }
{
    match results {
        [] => Ok(()),
        [one] => push_result(text, setting, *one),
        _ => push_several(text, setting, results),
    }
}

fn push_result(text: &mut Vec<u8>, setting: &Setting, of: TypeId) -> Result<(), NoMemory>
    ensures { OnOk result (text.new.items ≡ text.old.items ++ (codes " " ++ type_text_of setting.now.naming of)) }
{
    push_words(text, b" ")?;
    setting.push_type(text, of)
}

fn push_several(text: &mut Vec<u8>, setting: &Setting, results: &[TypeId]) -> Result<(), NoMemory>
    ensures { OnOk result (text.new.items ≡ text.old.items ++ (codes " " ++ tuple_text (type_text_of setting.now.naming) results.now)) }
{
    push_words(text, b" (")?;
    push_types(text, setting, results)?;
    push_words(text, b")")
}

fn push_types(text: &mut Vec<u8>, setting: &Setting, ids: &[TypeId]) -> Result<(), NoMemory>
    ensures { OnOk result (text.new.items ≡ text.old.items ++ joined (codes ", ") (type_text_of setting.now.naming) ids.now) }
{
    for (index, id) in ids.iter().enumerate() {
        separate(text, b", ", index)?;
        setting.push_type(text, *id)?;
    }
    Ok(())
}

/// The free variables, where there are any.
fn push_frees(text: &mut Vec<u8>, setting: &Setting, free: &[TypeId]) -> Result<(), NoMemory>
    ensures { OnOk result (text.new.items ≡ text.old.items ++ frees_text setting.now free.now) }
{
    if free.is_empty() {
        return Ok(());
    }
    push_words(text, b" free ")?;
    push_free_list(text, setting, free)
}

fn push_free_list(text: &mut Vec<u8>, setting: &Setting, free: &[TypeId]) -> Result<(), NoMemory>
    ensures { OnOk result (text.new.items ≡ text.old.items ++ joined (codes ", ") (free_text setting.now) (enumerate_from 0 free.now)) }
{
    for (index, id) in free.iter().enumerate() {
        separate(text, b", ", index)?;
        push_free(text, setting, index, *id)?;
    }
    Ok(())
}

fn push_free(
    text: &mut Vec<u8>,
    setting: &Setting,
    index: usize,
    of: TypeId,
) -> Result<(), NoMemory>
    ensures { OnOk result (text.new.items ≡ text.old.items ++ (codes "f" ++ (decimal index ++ (codes " " ++ type_text_of setting.now.naming of)))) }
{
    push_words(text, b"f")?;
    push_number(text, index as u64)?;
    push_words(text, b" ")?;
    setting.push_type(text, of)
}

fn push_recover(text: &mut Vec<u8>, recover: Option<BlockId>) -> Result<(), NoMemory>
    ensures { OnOk result (text.new.items ≡ text.old.items ++ recover_text recover) }
{
    if let Some(block) = recover {
        push_words(text, b" recover ")?;
        push_number(text, block.number)?;
    }
    Ok(())
}

fn push_blocks(
    text: &mut Vec<u8>,
    writer: &Writer,
    registers: &TypeIds,
    blocks: &[Block],
) -> Result<(), NoMemory>
    ensures { OnOk result (text.new.items ≡ text.old.items ++ flat_map (block_text writer.now.setting.now writer.now.given.now.keys registers.now) (enumerate_from 0 blocks.now)) }
{
    for (number, block) in blocks.iter().enumerate() {
        push_block(text, writer, registers, number, block)?;
    }
    Ok(())
}

/// A block by its number.
fn push_block(
    text: &mut Vec<u8>,
    writer: &Writer,
    registers: &TypeIds,
    number: usize,
    block: &Block,
) -> Result<(), NoMemory>
    ensures { OnOk result (text.new.items ≡ text.old.items ++ block_text writer.now.setting.now writer.now.given.now.keys registers.now (number, block.now)) }
{
    push_block_line(text, number, block)?;
    push_lines(text, writer, registers, block.instrs.as_slice())
}

fn push_block_line(text: &mut Vec<u8>, number: usize, block: &Block) -> Result<(), NoMemory>
    ensures { OnOk result (text.new.items ≡ text.old.items ++ block_line number block.now) }
{
    push_number(text, number as u64)?;
    push_words(text, b":\tP:")?;
    push_number(text, block.preds.len() as u64)?;
    push_words(text, b" S:")?;
    push_number(text, count_targets(block.instrs.as_slice()))?;
    push_words(text, b"\n")
}

/// How many blocks the last instruction may lead to.
fn count_targets(instrs: &[Instr]) -> u64
    ensures { result ≡ target_count instrs.now }
{
    match instrs.last() {
        Some(last) => count_distinct(last.op.targets()),
        None => 0,
    }
}

fn count_distinct(targets: (Option<BlockId>, Option<BlockId>)) -> u64
    ensures { result ≡ distinct_count targets }
{
    match targets {
        (None, None) => 0,
        (Some(first), Some(second)) if first != second => 2,
        _ => 1,
    }
}

fn push_lines(
    text: &mut Vec<u8>,
    writer: &Writer,
    registers: &TypeIds,
    instrs: &[Instr],
) -> Result<(), NoMemory>
    ensures { OnOk result (text.new.items ≡ text.old.items ++ flat_map (line_text writer.now.setting.now writer.now.given.now.keys registers.now) instrs.now) }
{
    for instr in instrs {
        push_line(text, writer, registers, instr)?;
    }
    Ok(())
}

/// The line of an instruction.
fn push_line(
    text: &mut Vec<u8>,
    writer: &Writer,
    registers: &TypeIds,
    instr: &Instr,
) -> Result<(), NoMemory>
    ensures { OnOk result (text.new.items ≡ text.old.items ++ line_text writer.now.setting.now writer.now.given.now.keys registers.now instr.now) }
{
    push_words(text, b"\t")?;
    push_given(text, writer.given, instr.register)?;
    writer.op(text, &instr.op)?;
    push_given_type(text, writer.setting, registers, instr.register)?;
    push_words(text, b"\n")
}

fn push_given(
    text: &mut Vec<u8>,
    given: &IndexSet<u64>,
    register: Option<u64>,
) -> Result<(), NoMemory>
    ensures { OnOk result (text.new.items ≡ text.old.items ++ given_text given.now.keys register) }
{
    if let Some(register) = register {
        push_register(text, given, register)?;
        push_words(text, b" = ")?;
    }
    Ok(())
}

fn push_given_type(
    text: &mut Vec<u8>,
    setting: &Setting,
    registers: &TypeIds,
    register: Option<u64>,
) -> Result<(), NoMemory>
    ensures { OnOk result (text.new.items ≡ text.old.items ++ type_of_given setting.now registers.now register) }
{
    match register {
        Some(register) => push_register_type(text, setting, registers, register),
        None => Ok(()),
    }
}

fn push_register_type(
    text: &mut Vec<u8>,
    setting: &Setting,
    registers: &TypeIds,
    register: u64,
) -> Result<(), NoMemory>
    ensures { OnOk result (text.new.items ≡ text.old.items ++ (codes "\t" ++ register_type_text setting.now (slice_get registers.now register))) }
{
    push_words(text, b"\t")?;
    match registers.as_slice().get(register as usize) {
        Some(of) => setting.push_type(text, *of),
        None => Ok(()),
    }
}
