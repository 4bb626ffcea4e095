//! The texts of the parts of a code beside its functions.

ghost use Rattle.std.specs.Prelude.{◌≡◌, ◌++◌, ◌≤◌, OnOk, IfOk, codes, length, take_while};
ghost use Rattle.std.specs.List.{flat_map};
ghost use Rattle.go_text.specs.Naming.{method_name_text};
ghost use Rattle.go_text.specs.TypeText.{type_text_of};
ghost use Rattle.go_type.specs.Table.{term_at, underlying_of};
ghost use Rattle.ssa_print.specs.Codes.{package_line, type_line, method_line, variable_line, is_declared_in, is_pointer_to, is_method_of, is_variable_in, types_text, methods_past, packages_text, methods_left};
ghost use Rattle.ssa_print.specs.Operands.{named_text, function_text};

use crate::operands::{Setting, push_words};
use crate::variables::NamedVariable;
use go_base::{NoMemory, TypeId};
use go_type::{TypeTerm, Types};
use ssa_ir::MethodLine;

/// The packages with their types and variables, each of which takes those that stand next. Gives the methods that are
/// left.
pub fn push_packages<'a>(
    text: &mut Vec<u8>,
    setting: &'a Setting,
) -> Result<&'a [MethodLine], NoMemory>
    ensures text { OnOk result (text.new.items ≡ text.old.items ++ packages_text setting.now (length setting.now.naming.labels) 0 setting.now.declared setting.now.methods setting.now.variables) }
    ensures left { IfOk result (λ rest. rest.now ≡ methods_left setting.now (length setting.now.naming.labels) 0 setting.now.declared setting.now.methods) }
{
    let mut types = setting.code.declared.as_slice();
    let mut methods = setting.code.methods.as_slice();
    let mut variables = setting.variables.as_slice();
    for number in 0..setting.code.packages.len() {
        push_package_line(text, setting, number)?;
        let (own, rest) = types.split_at(count_types(&setting.code.types, number, types));
        types = rest;
        methods = push_types(text, setting, own, methods)?;
        let (own, rest) = variables.split_at(count_variables(number, variables));
        variables = rest;
        push_variables(text, setting, own)?;
    }
    Ok(methods)
}

fn push_package_line(text: &mut Vec<u8>, setting: &Setting, number: usize) -> Result<(), NoMemory>
    ensures { OnOk result (text.new.items ≡ text.old.items ++ package_line setting.now number) }
{
    push_words(text, b"package ")?;
    push_words(text, setting.label_at(number))?;
    push_words(text, b"\n")
}

/// How many of the types that stand next are declared in a package.
fn count_types(types: &Types, number: usize, ids: &[TypeId]) -> usize
    ensures within { result ≤ length ids.now }
    ensures value { result ≡ length (take_while (λ id. is_declared_in number (term_at types.now id)) ids.now) }
{
    ids.iter()
        .take_while(|id| is_declared_in(types, number, **id))
        .count()
}

/// Whether a type is declared in a package.
fn is_declared_in(types: &Types, number: usize, id: TypeId) -> bool
    ensures { result ≡ is_declared_in number (term_at types.now id) }
{
    match types.get(id) {
        Some(TypeTerm::Declared(name)) => name.package as usize == number,
        _ => false,
    }
}

fn count_variables(number: usize, variables: &[NamedVariable]) -> usize
    ensures within { result ≤ length variables.now }
    ensures value { result ≡ length (take_while (is_variable_in number) variables.now) }
{
    variables
        .iter()
        .take_while(|named| named.variable.package as usize == number)
        .count()
}

/// Types, each with the methods of it and of its pointer, which stand next. Gives the methods that are left.
fn push_types<'a>(
    text: &mut Vec<u8>,
    setting: &Setting,
    ids: &[TypeId],
    methods: &'a [MethodLine],
) -> Result<&'a [MethodLine], NoMemory>
    ensures text { OnOk result (text.new.items ≡ text.old.items ++ types_text setting.now ids.now methods.now) }
    ensures left { IfOk result (λ rest. rest.now ≡ methods_past setting.now ids.now methods.now) }
{
    let mut rest = methods;
    for id in ids {
        push_type_line(text, setting, *id)?;
        let (own, later) = rest.split_at(count_methods(&setting.code.types, *id, rest));
        rest = later;
        push_method_lines(text, setting, own)?;
    }
    Ok(rest)
}

fn push_type_line(text: &mut Vec<u8>, setting: &Setting, id: TypeId) -> Result<(), NoMemory>
    ensures { OnOk result (text.new.items ≡ text.old.items ++ type_line setting.now id) }
{
    push_words(text, b"type ")?;
    setting.push_type(text, id)?;
    push_words(text, b" ")?;
    setting.push_type(text, setting.code.types.underlying(id))?;
    push_words(text, b"\n")
}

/// How many of the methods that stand next are those of a type or its pointer.
fn count_methods(types: &Types, id: TypeId, methods: &[MethodLine]) -> usize
    ensures within { result ≤ length methods.now }
    ensures value { result ≡ length (take_while (is_method_of types.now id) methods.now) }
{
    methods
        .iter()
        .take_while(|line| is_method_of(types, id, **line))
        .count()
}

fn is_method_of(types: &Types, id: TypeId, line: MethodLine) -> bool
    ensures { result ≡ is_method_of types.now id line }
{
    line.receiver == id || is_pointer_to(types, line.receiver, id)
}

fn is_pointer_to(types: &Types, of: TypeId, base: TypeId) -> bool
    ensures { result ≡ is_pointer_to (term_at types.now of) base }
{
    match types.get(of) {
        Some(TypeTerm::Pointer(to)) => *to == base,
        _ => false,
    }
}

pub fn push_method_lines(
    text: &mut Vec<u8>,
    setting: &Setting,
    methods: &[MethodLine],
) -> Result<(), NoMemory>
    ensures { OnOk result (text.new.items ≡ text.old.items ++ flat_map (method_line setting.now) methods.now) }
{
    for line in methods {
        push_method_line(text, setting, *line)?;
    }
    Ok(())
}

fn push_method_line(text: &mut Vec<u8>, setting: &Setting, line: MethodLine) -> Result<(), NoMemory>
    ensures { OnOk result (text.new.items ≡ text.old.items ++ method_line setting.now line) }
{
    push_words(text, b"method ")?;
    setting.push_type(text, line.receiver)?;
    push_words(text, b".")?;
    setting.push_method(text, line.name, line.package)?;
    push_words(text, b" ")?;
    setting.push_function(text, line.function)?;
    push_words(text, b"\n")
}

fn push_variables(
    text: &mut Vec<u8>,
    setting: &Setting,
    variables: &[NamedVariable],
) -> Result<(), NoMemory>
    ensures { OnOk result (text.new.items ≡ text.old.items ++ flat_map (variable_line setting.now) variables.now) }
{
    for named in variables {
        push_variable_line(text, setting, *named)?;
    }
    Ok(())
}

fn push_variable_line(
    text: &mut Vec<u8>,
    setting: &Setting,
    named: NamedVariable,
) -> Result<(), NoMemory>
    ensures { OnOk result (text.new.items ≡ text.old.items ++ variable_line setting.now named) }
{
    push_words(text, b"var ")?;
    setting.push_named(text, named)?;
    push_words(text, b" ")?;
    setting.push_type(text, named.variable.of)?;
    push_words(text, b"\n")
}
