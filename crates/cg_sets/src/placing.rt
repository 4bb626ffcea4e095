//! What functions, method values and method expressions stand for where functions of a signature are called.

ghost use Rattle.std.specs.Prelude.{◌≡◌, None, IfOk, IfSome, OnOk, slice_get, true, false};
ghost use Rattle.std.specs.List.{Contains, list_any};
ghost use Rattle.cg_nodes.specs.Kinds as kind;
ghost use Rattle.cg_nodes.specs.declared.nodes.Value.TheVariants as value_of;
ghost use Rattle.cg_nodes.specs.declared.nodes.Value.{Value};
ghost use Rattle.cg_numbers.specs.Numbered.{Extends, IsAt};
ghost use Rattle.cg_sets.specs.Answering as answering;
ghost use Rattle.cg_sets.specs.Answering.{ArePlaced, FirstAt, IsListed, OfThis};
ghost use Rattle.cg_sets.specs.Candidates as candidates;
ghost use Rattle.cg_sets.specs.Candidates.{OfFunction, is_value_form};
ghost use Rattle.cg_sets.specs.Embedding as embedding;
ghost use Rattle.go_tree.specs.declared.program.Program.{Program};
ghost use Rattle.go_type.specs.MethodSets.{IsMethod};

use crate::aiming::{Aiming, aiming_of};
use crate::candidates::{Candidate, Goal, Placed};
use crate::embedding::receiver_type;
use cg_nodes::{Group, Node, Selector, Spot, Value, is_interface};
use cg_numbers::Numbers;
use go_base::{FuncId, NoMemory, TypeId};
use go_tree::{FunctionDecl, FunctionForm, Program};
use go_type::{MethodEntry, method_set};
use std::alloc::Global;
use tree_facts::is_in_program;

/// A declared function or a literal, which stands for itself. Those named `init` are no values.
pub fn of_function(
    program: &Program,
    numbers: &mut Numbers,
    function: FuncId,
) -> Result<Option<Placed>, NoMemory>
    ensures placed { IfOk result (ArePlaced numbers.new (OfFunction program.now numbers.old.likeness.types numbers.old.likeness.bares function)) }
    ensures extends { OnOk result (Extends numbers.old numbers.new) }
{
    let Some(signature) = signature_of(program, function) else {
        return Ok(None);
    };
    let value = numbers.bare_value(Value::Function(function))?;
    let receiver = numbers.bare_node(Node::Nothing)?;
    let group = numbers.group(Group::Signed(signature))?;
    let candidate = plain(value, Goal::Function(function), 0, receiver);
    Ok(Some(Placed { group, candidate }))
}

/// The signature of a function that may stand as a value.
fn signature_of(program: &Program, function: FuncId) -> Option<TypeId>
    ensures { result ≡ answering.signature_of program.now function }
{
    match program.functions.as_slice().get(function.number as usize) {
        Some(decl) => {
            if is_value(decl.form) && is_in_program(program, function) {
                Some(decl.signature)
            } else {
                None
            }
        }
        None => None,
    }
}

/// Whether a function may stand as a value.
fn is_value(form: FunctionForm) -> bool
    ensures { result ≡ is_value_form form }
{
    match form {
        FunctionForm::Function | FunctionForm::Literal { .. } => true,
        FunctionForm::Method | FunctionForm::Init | FunctionForm::PackageInit => false,
    }
}

/// What the value of a number stands for.
pub fn of_value(
    alloc: Global,
    program: &Program,
    numbers: &mut Numbers,
    number: usize,
) -> Result<Option<Placed>, NoMemory>
    ensures placed { (v : Value) → IsAt numbers.old.values.keys number v → IsListed program.now numbers.old.likeness v → IfOk result (ArePlaced numbers.new (OfThis program.now numbers.old.likeness v)) }
    ensures extends { OnOk result (Extends numbers.old numbers.new) }
    ensures values { OnOk result (numbers.new.values ≡ numbers.old.values) }
{
    match value_at(numbers, number) {
        Some(Value::Bound(function)) => of_bound(program, numbers, number, function),
        Some(
            Value::BoundSelector {
                at,
                selector,
                signature,
            },
        ) => of_chosen(numbers, number, at, selector, signature),
        Some(
            Value::Unbound {
                selector,
                signature,
            },
        ) => of_unbound(alloc, program, numbers, number, selector, signature),
        Some(Value::Class(_)) => Ok(None),
        Some(Value::Function(_)) => Ok(None),
        None => Ok(None),
    }
}

fn value_at(numbers: &Numbers, number: usize) -> Option<Value>
    ensures { result ≡ slice_get numbers.now.values.keys number }
{
    numbers.values().get(number).copied()
}

/// A method value of a declared method.
fn of_bound(
    program: &Program,
    numbers: &mut Numbers,
    value: usize,
    function: FuncId,
) -> Result<Option<Placed>, NoMemory>
    ensures placed { IsAt numbers.old.values.keys value (value_of.Bound function) → IsListed program.now numbers.old.likeness (value_of.Bound function) → IfOk result (ArePlaced numbers.new (OfThis program.now numbers.old.likeness (value_of.Bound function))) }
    ensures extends { OnOk result (Extends numbers.old numbers.new) }
    ensures values { OnOk result (numbers.new.values ≡ numbers.old.values) }
{
    let Some(decl) = decl_of(program, function) else {
        return Ok(None);
    };
    let receiver = numbers.bare_node(Node::Nothing)?;
    let group = numbers.group(Group::Signed(decl.signature))?;
    let candidate = plain(value, Goal::Function(function), 1, receiver);
    Ok(Some(Placed { group, candidate }))
}

fn decl_of(program: &Program, function: FuncId) -> Option<FunctionDecl>
    ensures { result ≡ slice_get program.now.functions function.number }
{
    let functions = program.functions.as_slice();
    functions.get(function.number as usize).copied()
}

/// A method value of an interface.
fn of_chosen(
    numbers: &mut Numbers,
    value: usize,
    at: Spot,
    selector: Selector,
    signature: TypeId,
) -> Result<Option<Placed>, NoMemory>
    ensures placed { (p : Program) → IsAt numbers.old.values.keys value (value_of.BoundSelector at selector signature) → IsListed p numbers.old.likeness (value_of.BoundSelector at selector signature) → IfOk result (ArePlaced numbers.new (OfThis p numbers.old.likeness (value_of.BoundSelector at selector signature))) }
    ensures extends { OnOk result (Extends numbers.old numbers.new) }
    ensures values { OnOk result (numbers.new.values ≡ numbers.old.values) }
{
    let of = numbers.bare_node(Node::Operand(at))?;
    let chosen = numbers.bare_group(Group::Selected(selector))?;
    let receiver = numbers.bare_node(Node::Nothing)?;
    let group = numbers.bare_group(Group::Signed(signature))?;
    let candidate = plain(value, Goal::Group { of, group: chosen }, 0, receiver);
    Ok(Some(Placed { group, candidate }))
}

/// A candidate that hands on all arguments.
fn plain(value: usize, goal: Goal, base: usize, receiver: usize) -> Candidate
    ensures { result ≡ record { value = value; goal = goal; skip = 0; base = base; receiver = receiver } }
{
    Candidate {
        value,
        goal,
        skip: 0,
        base,
        receiver,
    }
}

/// A method expression.
fn of_unbound(
    alloc: Global,
    program: &Program,
    numbers: &mut Numbers,
    value: usize,
    selector: Selector,
    signature: TypeId,
) -> Result<Option<Placed>, NoMemory>
    ensures placed { IsAt numbers.old.values.keys value (value_of.Unbound selector signature) → IsListed program.now numbers.old.likeness (value_of.Unbound selector signature) → IfOk result (ArePlaced numbers.new (OfThis program.now numbers.old.likeness (value_of.Unbound selector signature))) }
    ensures extends { OnOk result (Extends numbers.old numbers.new) }
    ensures values { OnOk result (numbers.new.values ≡ numbers.old.values) }
{
    if is_interface(&numbers.likeness.types, selector.of) {
        return of_first(numbers, value, selector, signature);
    }
    let set = method_set(alloc, &numbers.likeness.types, selector.of)?;
    let Some(entry) = entry_of(set.as_slice(), selector) else {
        return Ok(None);
    };
    of_method(program, numbers, value, selector, signature, entry)
}

/// A method expression of an interface: what the first argument's values stand for.
fn of_first(
    numbers: &mut Numbers,
    value: usize,
    selector: Selector,
    signature: TypeId,
) -> Result<Option<Placed>, NoMemory>
    ensures placed { (p : Program) → IsAt numbers.old.values.keys value (value_of.Unbound selector signature) → IsListed p numbers.old.likeness (value_of.Unbound selector signature) → kind.is_interface numbers.old.likeness.types selector.of ≡ true → IfOk result (ArePlaced numbers.new (OfThis p numbers.old.likeness (value_of.Unbound selector signature))) }
    ensures extends { OnOk result (Extends numbers.old numbers.new) }
    ensures values { OnOk result (numbers.new.values ≡ numbers.old.values) }
{
    let chosen = numbers.bare_group(Group::Selected(selector))?;
    let receiver = numbers.bare_node(Node::Nothing)?;
    let group = numbers.bare_group(Group::Signed(signature))?;
    let candidate = Candidate {
        value,
        goal: Goal::First { group: chosen },
        skip: 1,
        base: 0,
        receiver,
    };
    Ok(Some(Placed { group, candidate }))
}

/// A method expression of another type: its first argument is the receiver.
fn of_method(
    program: &Program,
    numbers: &mut Numbers,
    value: usize,
    selector: Selector,
    signature: TypeId,
    entry: &MethodEntry,
) -> Result<Option<Placed>, NoMemory>
    ensures placed { IsAt numbers.old.values.keys value (value_of.Unbound selector signature) → IsListed program.now numbers.old.likeness (value_of.Unbound selector signature) → kind.is_interface numbers.old.likeness.types selector.of ≡ false → IsMethod numbers.old.likeness.types selector.of entry.now → answering.is_selected selector entry.now ≡ true → IfOk result (ArePlaced numbers.new (OfThis program.now numbers.old.likeness (value_of.Unbound selector signature))) }
    ensures extends { OnOk result (Extends numbers.old numbers.new) }
    ensures values { OnOk result (numbers.new.values ≡ numbers.old.values) }
{
    let aiming = aiming_of(program, numbers, selector.of, entry)?;
    let receiver = first_receiver(program, numbers, selector.of, signature, aiming)?;
    let group = numbers.bare_group(Group::Signed(signature))?;
    let candidate = Candidate {
        value,
        goal: aiming.goal,
        skip: 1,
        base: base_of(aiming.goal),
        receiver,
    };
    Ok(Some(Placed { group, candidate }))
}

/// A receiver is handed on before the arguments where a function is called.
pub fn base_of(goal: Goal) -> usize
    ensures { result ≡ answering.goal_base goal }
{
    match goal {
        Goal::Function(_) => 1,
        Goal::Group { .. } | Goal::First { .. } => 0,
    }
}

/// The method that a selector selects.
fn entry_of(set: &[MethodEntry], selector: Selector) -> Option<&MethodEntry>
    ensures some { IfSome result (λ e. Contains set.now e.now) }
    ensures named { IfSome result (λ e. answering.is_selected selector e.now ≡ true) }
    ensures none { result ≡ None → list_any (answering.is_selected selector) set.now ≡ false }
{
    for entry in set {
        if is_selected(selector, entry) {
            return Some(entry);
        }
    }
    None
}

fn is_selected(selector: Selector, entry: &MethodEntry) -> bool
    ensures { result ≡ answering.is_selected selector entry.now }
{
    entry.name == selector.name && entry.package == selector.package
}

/// The receiver of a method expression's method: the first argument, where it is that itself.
fn first_receiver(
    program: &Program,
    numbers: &mut Numbers,
    of: TypeId,
    signature: TypeId,
    aiming: Aiming,
) -> Result<usize, NoMemory>
    ensures first { IfOk result (FirstAt (answering.takes_first program.now numbers.old.likeness of aiming.goal) numbers.new signature aiming.receiver) }
    ensures extends { OnOk result (Extends numbers.old numbers.new) }
    ensures values { OnOk result (numbers.new.values ≡ numbers.old.values) }
{
    if takes_first(program, numbers, of, aiming.goal) {
        return numbers.bare_node(Node::Argument(Group::Signed(signature), 0));
    }
    Ok(aiming.receiver)
}

/// Whether the first argument of a method expression is the receiver itself.
fn takes_first(program: &Program, numbers: &Numbers, of: TypeId, goal: Goal) -> bool
    ensures { result ≡ answering.takes_first program.now numbers.now.likeness of goal }
{
    match goal {
        Goal::Function(function) => takes(program, numbers, of, function),
        Goal::Group { .. } | Goal::First { .. } => false,
    }
}

/// Whether a method's receiver has a type.
fn takes(program: &Program, numbers: &Numbers, of: TypeId, function: FuncId) -> bool
    ensures { result ≡ candidates.takes program.now numbers.now.likeness.types numbers.now.likeness.bares of (embedding.receiver_type program.now.functions function) }
{
    match receiver_type(program.functions.as_slice(), function) {
        Some(receiver) => numbers.likeness.bare(receiver) == of,
        None => false,
    }
}
