//! What functions are called, and which are part of the program.

ghost use Rattle.std.specs.Prelude.{◌≡◌, ◌++◌, ◌+◌, ◌<◌, ℕ, map, length, take, count_by, decimal, IfOk, OnOk, IsErr, codes, slice_get};
ghost use Rattle.go_text.specs.Naming.{Naming, name_text, label_text};
ghost use Rattle.go_text.specs.TypeText.{type_text_of};
ghost use Rattle.tree_facts.specs.FunctionNames.{within_of, is_init, is_before, is_literal_before, is_init_of, literal_number, init_number, plain_name, front_of, outer_text, name_to, function_text, is_part_to, is_named_part};

use go_base::{FuncId, NameId, Names, NoMemory, Pos, Text};
use go_text::{Labels, push_number, push_type};
use go_tree::{FunctionDecl, FunctionForm, Packages, Program};
use go_type::Types;
use std::alloc::Global;
use std::marker::Model;

/// The labels of packages, by number.
pub fn labels(alloc: Global, packages: &Packages) -> Result<Labels, NoMemory>
    ensures { IfOk result (λ list. list ≡ map (λ p. p.label) packages.now) }
{
    let mut labels = Labels::new(alloc);
    for package in packages.as_slice() {
        labels.push(package.label.copy(alloc)?)?;
    }
    Ok(labels)
}

/// What a function is called: `LABEL.f`, `(LABEL.T).m`, `(*LABEL.T).m`, `LABEL.init#k` for the k-th function named `init`,
/// `LABEL.init` for what initialises a package; a literal as the function in which it stands, with `$k` for the k-th there.
/// `labels` are those of the packages, by number.
pub fn function_name(
    alloc: Global,
    program: &Program,
    labels: &Labels,
    function: FuncId,
) -> Result<Text, NoMemory>
    ensures { IfOk result (λ text. text ≡ function_text
        (record { names = program.now.names; labels = labels.now; types = program.now.types })
        program.now.functions function.number) }
{
    let functions = program.functions.as_slice();
    let namer = Namer {
        names: &program.names,
        labels,
        types: &program.types,
    };
    let mut text = Vec::new(alloc);
    push_function(&mut text, &namer, functions, function, functions.len())?;
    text_of(alloc, text.as_slice())
}

/// What names are read from.
#[derive(Drop)]
struct Namer<'a> {
    names: &'a Names,
    labels: &'a Labels,
    types: &'a Types,
}

impl<'a> Model for Namer<'a> {
    ghost use Rattle.go_text.specs.Naming.{Naming};

    ghost Value = { Naming };

    ghost view = { λ n. record { names = n.names.now; labels = n.labels.now; types = n.types.now } };
}

/// The text of bytes that are text.
fn text_of(alloc: Global, bytes: &[u8]) -> Result<Text, NoMemory>
    ensures { IfOk result (λ text. text ≡ bytes.now) }
{
    match std::str::from_utf8(bytes) {
        Ok(text) => Text::new(alloc, text),
        Err(_) => lost(),
    }
}

/// A text that is made of texts is one.
fn lost() -> Result<Text, NoMemory>
    ensures { IsErr result }
{
    Err(NoMemory)
}

/// What a function is called, where literals are nested less deep than the depth.
#[tactic(auto, unfolding(crate::specs::FunctionNames::name_to))]
fn push_function(
    text: &mut Vec<u8>,
    namer: &Namer,
    functions: &[FunctionDecl],
    function: FuncId,
    depth: usize,
) -> Result<(), NoMemory>
    ensures { OnOk result (text.new.items ≡ text.old.items ++ name_to depth namer.now functions.now function.number) }
{
    if depth == 0 {
        return Ok(());
    }
    let Some(declared) = functions.get(function.number as usize) else {
        return Ok(());
    };
    match declared.form {
        FunctionForm::Literal { within } => {
            push_function(text, namer, functions, within, depth - 1)?;
            push_literal(text, functions, within, declared.at)
        }
        _ => push_outer(text, namer, functions, function, declared),
    }
}

/// Which of the literals in a function one is.
fn push_literal(
    text: &mut Vec<u8>,
    functions: &[FunctionDecl],
    within: FuncId,
    at: Pos,
) -> Result<(), NoMemory>
    ensures { OnOk result (text.new.items ≡ text.old.items ++ (codes "$" ++ decimal (literal_number functions.now within.number at))) }
{
    text.push(b'$')?;
    push_number(text, number_after(literals_before(functions, within, at)))
}

/// One more, of what is counted from 0.
fn number_after(count: usize) -> u64
    requires { count < 18446744073709551615 }
    ensures { result ≡ count + 1 }
{
    count as u64 + 1
}

fn literals_before(functions: &[FunctionDecl], within: FuncId, at: Pos) -> usize
    ensures count { result ≡ count_by (is_literal_before within.number at) functions.now }
    ensures room { result < 18446744073709551615 }
{
    functions
        .iter()
        .filter(|other| is_literal_before(other, within, at))
        .count()
}

fn is_literal_before(other: &FunctionDecl, within: FuncId, at: Pos) -> bool
    ensures { result ≡ is_literal_before within.number at other.now }
{
    match other.form {
        FunctionForm::Literal {
            within: other_within,
        } => { within.number == other_within.number && is_before(other.at, at) }
        _ => false,
    }
}

/// Whether a place comes before another.
fn is_before(a: Pos, b: Pos) -> bool
    ensures { result ≡ is_before a b }
{
    a.file < b.file || (a.file == b.file && a.offset < b.offset)
}

/// What a function that is no literal is called.
fn push_outer(
    text: &mut Vec<u8>,
    namer: &Namer,
    functions: &[FunctionDecl],
    function: FuncId,
    declared: &FunctionDecl,
) -> Result<(), NoMemory>
    ensures { OnOk result (text.new.items ≡ text.old.items ++ outer_text namer.now functions.now function.number declared.now) }
{
    push_front(text, namer, declared)?;
    push_plain(text, namer, functions, function, declared)
}

/// What stands before the name.
fn push_front(text: &mut Vec<u8>, namer: &Namer, declared: &FunctionDecl) -> Result<(), NoMemory>
    ensures { OnOk result (text.new.items ≡ text.old.items ++ front_of namer.now declared.now) }
{
    match declared.receiver {
        Some(receiver) => {
            text.push(b'(')?;
            push_type(text, namer.names, namer.labels, namer.types, receiver)?;
            text.extend_from_slice(b").".as_slice())?;
            Ok(())
        }
        None => {
            text.extend_from_slice(label_of(namer.labels, declared.package))?;
            text.push(b'.')?;
            Ok(())
        }
    }
}

/// The label of a package. Nothing where there is no such package.
fn label_of(labels: &Labels, package: u32) -> &[u8]
    ensures { result.now ≡ label_text labels.now «package» }
{
    match labels.as_slice().get(package as usize) {
        Some(label) => label.as_str().as_bytes(),
        None => &[],
    }
}

fn push_plain(
    text: &mut Vec<u8>,
    namer: &Namer,
    functions: &[FunctionDecl],
    function: FuncId,
    declared: &FunctionDecl,
) -> Result<(), NoMemory>
    ensures { OnOk result (text.new.items ≡ text.old.items ++ plain_name namer.now functions.now function.number declared.now declared.now.form) }
{
    match declared.form {
        FunctionForm::PackageInit => {
            text.extend_from_slice(b"init".as_slice())?;
            Ok(())
        }
        FunctionForm::Init => push_init(text, functions, function, declared.package),
        FunctionForm::Function | FunctionForm::Method | FunctionForm::Literal { .. } => {
            push_name(text, namer.names, declared.name)
        }
    }
}

fn push_init(
    text: &mut Vec<u8>,
    functions: &[FunctionDecl],
    function: FuncId,
    package: u32,
) -> Result<(), NoMemory>
    ensures { OnOk result (text.new.items ≡ text.old.items ++ (codes "init#" ++ decimal (init_number functions.now function.number «package»))) }
{
    text.extend_from_slice(b"init#".as_slice())?;
    let before = first_of(functions, function);
    push_number(text, number_after(inits_of(before, package)))
}

/// The functions before that of a number.
fn first_of(functions: &[FunctionDecl], function: FuncId) -> &[FunctionDecl]
    ensures { result.now ≡ take function.number functions.now }
{
    let count = (function.number as usize).min(functions.len());
    &functions[..count]
}

fn inits_of(functions: &[FunctionDecl], package: u32) -> usize
    ensures count { result ≡ count_by (is_init_of «package») functions.now }
    ensures room { result < 18446744073709551615 }
{
    functions
        .iter()
        .filter(|other| is_init_of(other, package))
        .count()
}

fn is_init_of(other: &FunctionDecl, package: u32) -> bool
    ensures { result ≡ is_init_of «package» other.now }
{
    match other.form {
        FunctionForm::Init => other.package == package,
        _ => false,
    }
}

fn push_name(text: &mut Vec<u8>, names: &Names, name: NameId) -> Result<(), NoMemory>
    ensures { OnOk result (text.new.items ≡ text.old.items ++ name_text names.now name) }
{
    text.extend_from_slice(name_of(names, name))?;
    Ok(())
}

/// A name. Nothing where no name has the id.
fn name_of(names: &Names, name: NameId) -> &[u8]
    ensures { result.now ≡ name_text names.now name }
{
    match names.text(name) {
        Some(text) => text.as_bytes(),
        None => &[],
    }
}

/// Whether a function is part of the program: those named `_` are not, nor are the literals written in them.
pub fn is_in_program(program: &Program, function: FuncId) -> bool
    ensures { result ≡ is_part_to (length program.now.functions) program.now.names program.now.functions function.number }
{
    let functions = program.functions.as_slice();
    is_part(&program.names, functions, function, functions.len())
}

/// Whether a function is part of the program, where literals are nested less deep than the depth.
#[tactic(auto, unfolding(crate::specs::FunctionNames::is_part_to))]
fn is_part(names: &Names, functions: &[FunctionDecl], function: FuncId, depth: usize) -> bool
    ensures { result ≡ is_part_to depth names.now functions.now function.number }
{
    if depth == 0 {
        return false;
    }
    let Some(declared) = functions.get(function.number as usize) else {
        return false;
    };
    match declared.form {
        FunctionForm::Literal { within } => is_part(names, functions, within, depth - 1),
        FunctionForm::PackageInit => true,
        FunctionForm::Function | FunctionForm::Method | FunctionForm::Init => {
            name_of(names, declared.name) != b"_".as_slice()
        }
    }
}
