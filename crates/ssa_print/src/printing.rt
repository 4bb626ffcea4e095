//! The text of a code.

ghost use Rattle.std.specs.Prelude.{◌≡◌, ◌++◌, ◌+◌, ◌≤◌, ◌⊎◌, true, [], if◌then◌else◌, length, take_while, sum_by, IfOk, OnOk, OnErr, IsErr, IsErrOf};
ghost use Rattle.std.specs.Option.{option_copied};
ghost use Rattle.ssa_print.specs.Codes.{count_line, counts_text, is_own, lists_text, left_methods, length_in, CountsAvailable, ShowsFunction, Shows, IsCodeText, Writes, WritesFront};
ghost use Rattle.ssa_print.specs.Functions.{function_lines};
ghost use Rattle.ssa_print.specs.Operands.{setting_of};
ghost use Rattle.go_base.specs.Devices.{HasFaulted};
ghost use Rattle.go_base.specs.declared.devices.PrintError.TheVariants.{WriteFault};

use crate::codes::{push_method_lines, push_packages};
use crate::functions::push_function;
use crate::operands::{Setting, push_name, push_words};
use go_base::{NoMemory, PrintError, Sink, SinkError};
use go_text::push_number;
use ssa_ir::{Code, Function, FunctionKind, MethodLine};
use ssa_sane::{Available, Registers, SanityError, sanity};
use std::alloc::Global;

/// What is written of a code.
#[derive(Clone, Copy, PartialEq, Eq)]
pub struct Show {
    /// Everything but the counts of registers.
    pub functions: bool,
    /// Of each function the number of its blocks, and of the registers available at their entries.
    pub available: bool,
}

/// Writes the text of a code that is sane.
pub fn print<O: Sink>(alloc: Global, code: &Code, show: Show, out: &mut O) -> Result<(), PrintError>
    ensures written { OnOk result (Writes code.now show.functions show.available (O.written out.old) (O.written out.new)) }
    ensures front { OnErr result ((out.new ≡ out.old) ⊎ WritesFront code.now show.functions show.available (O.written out.old) (O.written out.new)) }
    ensures later { O.faults out.old ≤ O.faults out.new }
    ensures fault { IsErrOf result WriteFault → HasFaulted (O.faults out.old) (O.faults out.new) }
{
    let Ok(text) = code_text(alloc, code, show) else {
        return Err(PrintError::OutOfMemory);
    };
    match out.write(text.as_slice()) {
        Ok(()) => Ok(()),
        Err(SinkError::Failed) => Err(PrintError::WriteFault),
        Err(SinkError::OutOfMemory) => Err(PrintError::OutOfMemory),
    }
}

/// The text of a code.
fn code_text(alloc: Global, code: &Code, show: Show) -> Result<Vec<u8>, NoMemory>
    ensures { IfOk result (λ text. IsCodeText (setting_of code.now) show.functions show.available text.items) }
{
    let setting = Setting::new(alloc, code)?;
    let mut text = Vec::new(alloc);
    let methods = push_lists(&mut text, &setting, show.functions)?;
    let functions = code.functions.as_slice();
    let (own, others) = functions.split_at(count_own(functions));
    push_functions(&mut text, &setting, own, show)?;
    push_method_lines(&mut text, &setting, methods)?;
    push_functions(&mut text, &setting, others, show)?;
    Ok(text)
}

/// The packages where functions are shown. Gives the methods that are left.
fn push_lists<'a>(
    text: &mut Vec<u8>,
    setting: &'a Setting,
    functions: bool,
) -> Result<&'a [MethodLine], NoMemory>
    ensures text { OnOk result (text.new.items ≡ text.old.items ++ lists_text setting.now functions) }
    ensures left { IfOk result (λ rest. rest.now ≡ left_methods setting.now functions) }
{
    if functions {
        push_packages(text, setting)
    } else {
        Ok(&[])
    }
}

/// How many functions stand before the first wrapper.
fn count_own(functions: &[Function]) -> usize
    ensures within { result ≤ length functions.now }
    ensures value { result ≡ length (take_while (λ f. is_own f.kind) functions.now) }
{
    for (index, function) in functions.iter().enumerate() {
        if !is_own(function) {
            return index;
        }
    }
    functions.len()
}

/// Whether a function is no wrapper.
fn is_own(function: &Function) -> bool
    ensures { result ≡ is_own function.now.kind }
{
    match function.kind {
        FunctionKind::Wrapper => false,
        _ => true,
    }
}

fn push_functions(
    text: &mut Vec<u8>,
    setting: &Setting,
    functions: &[Function],
    show: Show,
) -> Result<(), NoMemory>
    ensures { OnOk result (Shows setting.now show.functions show.available functions.now text.old.items text.new.items) }
{
    for function in functions {
        push_shown(text, setting, function, show)?;
    }
    Ok(())
}

/// What is written of a function.
fn push_shown(
    text: &mut Vec<u8>,
    setting: &Setting,
    function: &Function,
    show: Show,
) -> Result<(), NoMemory>
    ensures { OnOk result (ShowsFunction setting.now show.functions show.available function.now text.old.items text.new.items) }
{
    push_lines_of(text, setting, function, show.functions)?;
    let available = available_in(*text.allocator(), function, show.available)?;
    push_count_where(text, function, show.available, available)
}

/// A function's lines, where they are shown.
fn push_lines_of(
    text: &mut Vec<u8>,
    setting: &Setting,
    function: &Function,
    functions: bool,
) -> Result<(), NoMemory>
    ensures { OnOk result (text.new.items ≡ text.old.items ++ (if functions then function_lines setting.now function.now else [])) }
{
    if functions {
        push_function(text, setting, function)
    } else {
        Ok(())
    }
}

/// The line of a function's counts, where it is shown.
fn push_count_where(
    text: &mut Vec<u8>,
    function: &Function,
    shown: bool,
    available: u64,
) -> Result<(), NoMemory>
    ensures { OnOk result (text.new.items ≡ text.old.items ++ (if shown then count_line function.now available else [])) }
{
    if shown {
        push_count(text, function, available)
    } else {
        Ok(())
    }
}

/// How many registers are available at the entries of a function's blocks, taken together, where that is shown.
fn available_in(alloc: Global, function: &Function, shown: bool) -> Result<u64, NoMemory>
    ensures { IfOk result (λ number. shown ≡ true → CountsAvailable function.now number) }
{
    if !shown {
        return Ok(0);
    }
    match sanity(alloc, function) {
        Ok(available) => count_all(&available),
        Err(SanityError::OutOfMemory) => Err(NoMemory),
        Err(SanityError::Insane { .. }) => lost(),
    }
}

/// The code is sane.
fn lost() -> Result<u64, NoMemory>
    ensures { IsErr result }
{
    Err(NoMemory)
}

/// How many there are in all lists. A number that 64 bits do not hold is want of memory.
fn count_all(available: &Available) -> Result<u64, NoMemory>
    ensures { IfOk result (λ number. number ≡ sum_by length available.now) }
{
    let mut count: u64 = 0;
    for block in 0..available.len() {
        count = count_more(count, available.get(block as u64))?;
    }
    Ok(count)
}

fn count_more(count: u64, registers: Option<&Registers>) -> Result<u64, NoMemory>
    ensures { IfOk result (λ sum. sum ≡ count + length_in (option_copied registers.entry)) }
{
    match registers {
        Some(registers) => match count.checked_add(registers.len()) {
            Some(sum) => Ok(sum),
            None => Err(NoMemory),
        },
        None => Ok(count),
    }
}

fn push_count(text: &mut Vec<u8>, function: &Function, available: u64) -> Result<(), NoMemory>
    ensures { OnOk result (text.new.items ≡ text.old.items ++ count_line function.now available) }
{
    push_words(text, b"# ")?;
    push_name(text, &function.name)?;
    push_counts(text, function.blocks.len() as u64, available)
}

fn push_counts(text: &mut Vec<u8>, blocks: u64, available: u64) -> Result<(), NoMemory>
    ensures { OnOk result (text.new.items ≡ text.old.items ++ counts_text blocks available) }
{
    push_words(text, b": blocks ")?;
    push_number(text, blocks)?;
    push_words(text, b", available ")?;
    push_number(text, available)?;
    push_words(text, b"\n")
}
