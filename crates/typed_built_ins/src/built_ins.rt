//! Calls of built-in functions. Go specification, "Built-in functions".

ghost use Rattle.std.specs.Prelude.{◌≡◌, ℕ, IfOk, OnOk, Some, []};
ghost use Rattle.typed_parts.specs.Joining.{items_of, listed, with_last};
ghost use Rattle.typed_parts.specs.Judged.{reported};
ghost use Rattle.typed_built_ins.specs.BuiltIns.{IsAction, IsPanic, IsPrint, IsPrintable, IsRecover, argument, broken_in, built_in_call, built_in_node, is_printed, number_broken, print_asked, takes_call, takes_number, values_in};
ghost use Rattle.typed_built_ins.specs.Dispatch.{IsBuiltIn, IsOfOne, IsOfTwo, IsOfValues, IsPlain, takes_type};
ghost use Rattle.typed_parts.specs.Turning.{IsEach, Soundly, Turns};

use crate::extremes::extreme_of;
use crate::growing::append_of;
use crate::making::formed;
use crate::measuring::length_of;
use crate::moving::{cleared, closed, copied, deleted};
use go_base::{NoMemory, Pos, Rule, TypeId};
use go_rules::{is_ordered, takes_logic};
use go_tree::{ExprKind, TypedExpr};
use go_type::{Builtin, Types};
use typed_parts::{
    Given, Ground, Seen, assigned, beside, by_default, lost, node, one_value, only, place_of,
    with_last,
};

/// A call of a built-in function.
#[derive(Clone, Copy)]
pub struct BuiltInCall {
    /// Its first byte.
    pub at: Pos,
    pub builtin: Builtin,
    pub parenthesis: Pos,
    pub dots: Option<Pos>,
}

impl BuiltInCall {
    /// The call with its arguments.
    pub fn node(
        self,
        of: TypeId,
        form: Option<TypeId>,
        arguments: Vec<TypedExpr>,
        spread: bool,
    ) -> TypedExpr
        ensures { result ≡ built_in_node self of form arguments spread }
    {
        node(
            self.parenthesis,
            of,
            ExprKind::BuiltinOf {
                builtin: self.builtin,
                form,
                arguments,
                spread,
            },
        )
    }

    /// The call without a value, where its arguments are sound.
    pub fn action(
        self,
        ground: &mut Ground,
        arguments: Option<Vec<TypedExpr>>,
    ) -> Result<Option<TypedExpr>, NoMemory>
        ensures { Turns ground.old ground.new result (Soundly (IsAction self) (items_of arguments)) }
    {
        match arguments {
            Some(arguments) => self.without_value(ground, arguments),
            None => Ok(None),
        }
    }

    fn without_value(
        self,
        ground: &mut Ground,
        arguments: Vec<TypedExpr>,
    ) -> Result<Option<TypedExpr>, NoMemory>
        ensures { Turns ground.old ground.new result (IsAction self arguments.items) }
    {
        let (nothing, arguments) = beside(ground.tuple(&[]), arguments)?;
        Ok(Some(self.node(nothing, None, arguments, false)))
    }
}

/// A call of a built-in function, which begins at a place. `BadBuiltInCall` at an argument that the function does not
/// take; `WrongNumberOfValues` at the arguments, or at the call where there are none; `BadUseOfDots` at the `...`.
pub fn built_in(
    ground: &mut Ground,
    at: Pos,
    builtin: Builtin,
    parenthesis: Pos,
    arguments: Vec<Seen>,
    dots: Option<Pos>,
) -> Result<Option<TypedExpr>, NoMemory>
    ensures { Turns ground.old ground.new result (IsBuiltIn (built_in_call at builtin parenthesis dots) arguments.items) }
{
    let call = BuiltInCall {
        at,
        builtin,
        parenthesis,
        dots,
    };
    if takes_type(builtin) {
        formed(ground, call, arguments)
    } else {
        of_values(ground, call, arguments)
    }
}

/// Whether the first argument is a type.
fn takes_type(builtin: Builtin) -> bool
    ensures { result ≡ takes_type builtin }
{
    matches!(builtin, Builtin::Make | Builtin::New)
}

/// A function that takes values alone.
fn of_values(
    ground: &mut Ground,
    call: BuiltInCall,
    arguments: Vec<Seen>,
) -> Result<Option<TypedExpr>, NoMemory>
    ensures { Turns ground.old ground.new result (IsOfValues call arguments.items) }
{
    let arguments = each_value(ground, arguments)?;
    let takes = ask_number(ground, call, arguments.as_slice());
    match only(Some(arguments), takes) {
        Some(arguments) => plain(ground, call, arguments),
        None => Ok(None),
    }
}

/// Arguments, each asked to be one value.
pub fn each_value(ground: &mut Ground, arguments: Vec<Seen>) -> Result<Vec<Option<Given>>, NoMemory>
    ensures values { IfOk result (λ values. values.items ≡ values_in ground.old.types arguments.items) }
    ensures broken { OnOk result (ground.new ≡ reported ground.old (broken_in ground.old.types arguments.items)) }
{
    let mut values = Vec::new(ground.alloc);
    for argument in arguments {
        values.push(one_value(ground, argument))?;
    }
    Ok(values)
}

/// Whether there is no `...` where none may be, and the number of arguments is one that the function takes.
fn ask_number(ground: &mut Ground, call: BuiltInCall, arguments: &[Option<Given>]) -> bool
    ensures takes { result ≡ takes_call call arguments.now }
    ensures broken { ground.new ≡ reported ground.old (number_broken call arguments.now) }
{
    let place = place_of(arguments, call.at);
    if let (Some(dots), false) = (call.dots, call.builtin == Builtin::Append) {
        if place.is_some() {
            ground.report(dots, Rule::BadUseOfDots);
        }
        return false;
    }
    if takes_number(call.builtin, arguments.len()) {
        return true;
    }
    if let Some(place) = place {
        ground.report(place, Rule::WrongNumberOfValues);
    }
    false
}

fn takes_number(builtin: Builtin, number: usize) -> bool
    ensures { result ≡ takes_number builtin number }
{
    match builtin {
        Builtin::Append | Builtin::Max | Builtin::Min | Builtin::Make => number >= 1,
        Builtin::Cap
        | Builtin::Clear
        | Builtin::Close
        | Builtin::Len
        | Builtin::New
        | Builtin::Panic => number == 1,
        Builtin::Copy | Builtin::Delete => number == 2,
        Builtin::Print | Builtin::Println => true,
        Builtin::Recover => number == 0,
    }
}

/// A function that takes values alone, in a number that it takes.
fn plain(
    ground: &mut Ground,
    call: BuiltInCall,
    arguments: Vec<Option<Given>>,
) -> Result<Option<TypedExpr>, NoMemory>
    ensures { Turns ground.old ground.new result (IsPlain call.builtin call arguments.items) }
{
    match call.builtin {
        Builtin::Append => append_of(ground, call, arguments),
        Builtin::Max | Builtin::Min => extreme_of(ground, call, arguments),
        Builtin::Print | Builtin::Println => printed(ground, call, arguments),
        Builtin::Recover => {
            drop(arguments);
            recovered(ground, call)
        }
        Builtin::Copy | Builtin::Delete => of_two(ground, call, arguments),
        Builtin::Make | Builtin::New => {
            drop(arguments);
            Err(lost())
        }
        _ => of_one(ground, call, arguments),
    }
}

fn of_one(
    ground: &mut Ground,
    call: BuiltInCall,
    arguments: Vec<Option<Given>>,
) -> Result<Option<TypedExpr>, NoMemory>
    ensures { Turns ground.old ground.new result (Soundly (IsOfOne call.builtin call) (argument arguments.items 0)) }
{
    match first(arguments) {
        Some(x) => of_value(ground, call, x),
        None => Ok(None),
    }
}

/// The first argument.
fn first(arguments: Vec<Option<Given>>) -> Option<Given>
    ensures { result ≡ argument arguments.items 0 }
{
    let mut arguments = arguments.into_iter();
    arguments.next().flatten()
}

fn of_value(ground: &mut Ground, call: BuiltInCall, x: Given) -> Result<Option<TypedExpr>, NoMemory>
    ensures { Turns ground.old ground.new result (IsOfOne call.builtin call x) }
{
    match call.builtin {
        Builtin::Clear => cleared(ground, call, x),
        Builtin::Close => closed(ground, call, x),
        Builtin::Panic => panicked(ground, call, x),
        _ => length_of(ground, call, x),
    }
}

fn of_two(
    ground: &mut Ground,
    call: BuiltInCall,
    arguments: Vec<Option<Given>>,
) -> Result<Option<TypedExpr>, NoMemory>
    ensures { Turns ground.old ground.new result (IsOfTwo call.builtin call (argument arguments.items 0) (argument arguments.items 1)) }
{
    let (first, second) = first_two(arguments);
    match call.builtin {
        Builtin::Copy => copied(ground, call, first, second),
        _ => deleted(ground, call, first, second),
    }
}

/// The first two arguments.
fn first_two(arguments: Vec<Option<Given>>) -> (Option<Given>, Option<Given>)
    ensures { result ≡ (argument arguments.items 0, argument arguments.items 1) }
{
    let mut arguments = arguments.into_iter();
    let first = arguments.next().flatten();
    let second = arguments.next().flatten();
    (first, second)
}

/// `panic(v)`, whose argument becomes an `interface{}`.
fn panicked(ground: &mut Ground, call: BuiltInCall, x: Given) -> Result<Option<TypedExpr>, NoMemory>
    ensures { Turns ground.old ground.new result (IsPanic call x) }
{
    let (any, x) = beside(ground.any_type(), x)?;
    let value = assigned(ground, Some(x), Some(any))?;
    let arguments = one_of(ground, value)?;
    call.action(ground, arguments)
}

/// A list of one, where that is sound.
pub fn one_of(ground: &Ground, value: Option<TypedExpr>) -> Result<Option<Vec<TypedExpr>>, NoMemory>
    ensures { IfOk result (λ made. items_of made ≡ with_last (Some []) value) }
{
    with_last(Some(Vec::new(ground.alloc)), value)
}

fn recovered(ground: &mut Ground, call: BuiltInCall) -> Result<Option<TypedExpr>, NoMemory>
    ensures { Turns ground.old ground.new result (IsRecover call) }
{
    let any = ground.any_type()?;
    Ok(Some(call.node(any, None, Vec::new(ground.alloc), false)))
}

/// `print` and `println`: integers, strings and booleans, untyped ones by their default types.
fn printed(
    ground: &mut Ground,
    call: BuiltInCall,
    arguments: Vec<Option<Given>>,
) -> Result<Option<TypedExpr>, NoMemory>
    ensures { Turns ground.old ground.new result (IsPrint call arguments.items) }
{
    let values = printables(ground, arguments)?;
    call.action(ground, values)
}

fn printables(
    ground: &mut Ground,
    arguments: Vec<Option<Given>>,
) -> Result<Option<Vec<TypedExpr>>, NoMemory>
    ensures { Turns ground.old ground.new (listed result) (IsEach IsPrintable arguments.items) }
{
    let mut values = Some(Vec::new(ground.alloc));
    for argument in arguments {
        let value = printable(ground, argument)?;
        values = with_last(values, value)?;
    }
    Ok(values)
}

fn printable(ground: &mut Ground, x: Option<Given>) -> Result<Option<TypedExpr>, NoMemory>
    ensures { (number : ℕ) → Turns ground.old ground.new result (IsPrintable number x) }
{
    let Some(x) = x else {
        return Ok(None);
    };
    let at = x.at;
    match by_default(ground, Some(x))? {
        Some(value) => Ok(ask_printed(ground, at, value)),
        None => Ok(None),
    }
}

/// A value that is printed. `BadBuiltInCall` at one that is not.
fn ask_printed(ground: &mut Ground, at: Pos, value: TypedExpr) -> Option<TypedExpr>
    ensures answer { result ≡ (print_asked ground.old.types at value).sound }
    ensures broken { ground.new ≡ reported ground.old (print_asked ground.old.types at value).broken }
{
    let prints = is_printed(&ground.types, value.of);
    if !prints {
        ground.report(at, Rule::BadBuiltInCall);
    }
    prints.then_some(value)
}

fn is_printed(types: &Types, of: TypeId) -> bool
    ensures { result ≡ is_printed types.now of }
{
    is_ordered(types, of) || takes_logic(types, of)
}
