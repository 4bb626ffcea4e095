//! Calls. Go specification, "Calls" and "Passing arguments to ... parameters".

ghost use Rattle.std.specs.Prelude.{◌≡◌, ◌∷◌, [], IfOk, OnOk, Some};
ghost use Rattle.typed_parts.specs.Joining.{sound};
ghost use Rattle.typed_parts.specs.Judged.{reported};
ghost use Rattle.typed_parts.specs.Turning.{Turns};
ghost use Rattle.typed_calls.specs.Calling.{AreArguments, ArePassedAs, IsCall, IsCallNode, IsCallee, IsFunctionCall, IsResult, IsResulting, IsSignatureCall, IsValueCall, IsValueCallee, are_singles, arguments_asked, one_of, seen_broken, seen_values, sole_written};
ghost use Rattle.typed_calls.specs.Passing.{breach_broken, count, is_spread, method_callee, number_breach, place, signature_of, written, Written};

use crate::converting::conversion;
use crate::packing::{Plan, each_passed, spread};
use go_base::{NoMemory, Pos, Rule, TypeId};
use go_tree::{Callee, ExprKind, Method, TypedExpr, Values};
use go_type::{Signature, TypeTerm};
use typed_built_ins::built_in;
use typed_parts::{
    Given, Ground, Meaning, Seen, beside, boxed, node, place_of, several_parts, single, sound,
    value_of,
};

/// `f(..)`, whose parenthesis and `...` have places: a conversion where the callee is a type, a call of a built-in
/// function, and else of a function. `NotAFunction` at the callee; `WrongNumberOfValues` at the arguments, or at the call
/// where there are none; `BadUseOfDots` at the `...`; at an argument what `assigned` reports.
pub fn call(
    ground: &mut Ground,
    callee: Seen,
    parenthesis: Pos,
    arguments: Vec<Seen>,
    dots: Option<Pos>,
) -> Result<Option<TypedExpr>, NoMemory>
    ensures { Turns ground.old ground.new result (IsCall callee parenthesis arguments.items dots) }
{
    let Seen { at, meaning } = callee;
    let call = CallSite {
        at,
        parenthesis,
        dots,
    };
    match meaning {
        Some(Meaning::Type(of)) => conversion(ground, at, of, arguments, dots),
        Some(Meaning::Builtin(builtin)) => {
            built_in(ground, at, builtin, parenthesis, arguments, dots)
        }
        Some(Meaning::Value(expr)) => {
            let callee = single(ground, Given { at, expr });
            function_call(ground, call, callee, arguments)
        }
        None => function_call(ground, call, None, arguments),
    }
}

/// The places of a call.
#[derive(Clone, Copy)]
pub struct CallSite {
    pub at: Pos,
    pub parenthesis: Pos,
    pub dots: Option<Pos>,
}

fn function_call(
    ground: &mut Ground,
    call: CallSite,
    callee: Option<Given>,
    arguments: Vec<Seen>,
) -> Result<Option<TypedExpr>, NoMemory>
    ensures { Turns ground.old ground.new result (IsFunctionCall call arguments.items callee) }
{
    let (arguments, callee) = beside(arguments_of(ground, arguments), callee)?;
    match callee.zip(Some(arguments)) {
        Some((callee, arguments)) => value_call(ground, call, callee.expr, arguments),
        None => Ok(None),
    }
}

/// A call of a value. `NotAFunction` at one that is no function.
fn value_call(
    ground: &mut Ground,
    call: CallSite,
    callee: TypedExpr,
    arguments: Arguments,
) -> Result<Option<TypedExpr>, NoMemory>
    ensures { Turns ground.old ground.new result (IsValueCall call callee (written arguments)) }
{
    let signature = signature_of(ground, callee.of);
    let (signature, (callee, arguments)) = beside(signature, (callee, arguments))?;
    match signature {
        Some(signature) => signature_call(ground, call, signature, callee, arguments),
        None => {
            drop(callee);
            drop(arguments);
            ground.report(call.at, Rule::NotAFunction);
            Ok(None)
        }
    }
}

fn signature_call(
    ground: &mut Ground,
    call: CallSite,
    signature: Signature,
    callee: TypedExpr,
    arguments: Arguments,
) -> Result<Option<TypedExpr>, NoMemory>
    ensures { Turns ground.old ground.new result (IsSignatureCall call signature callee (written arguments)) }
{
    let arguments = passed_arguments(ground, call, &signature, arguments);
    let (arguments, (callee, signature)) = beside(arguments, (callee, signature))?;
    match arguments {
        Some(arguments) => resulting_call(ground, call, signature, callee, arguments),
        None => Ok(None),
    }
}

/// The call, where its arguments are sound.
fn resulting_call(
    ground: &mut Ground,
    call: CallSite,
    signature: Signature,
    callee: TypedExpr,
    arguments: Values,
) -> Result<Option<TypedExpr>, NoMemory>
    ensures { Turns ground.old ground.new result (IsResulting call signature.results callee arguments) }
{
    let of = result_of(ground, signature.results.as_slice());
    drop(signature);
    let (of, (callee, arguments)) = beside(of, (callee, arguments))?;
    sound(call_node(ground, call, of, callee, arguments))
}

/// The node of a call of a type.
fn call_node(
    ground: &Ground,
    call: CallSite,
    of: TypeId,
    callee: TypedExpr,
    arguments: Values,
) -> Result<TypedExpr, NoMemory>
    ensures { IfOk result (IsCallNode call of callee arguments) }
{
    let (callee, arguments) = beside(callee_of(ground, callee), arguments)?;
    Ok(node(call.parenthesis, of, ExprKind::CallOf { callee, arguments }))
}

/// The function type that a type's underlying type is.
fn signature_of(ground: &Ground, of: TypeId) -> Result<Option<Signature>, NoMemory>
    ensures { IfOk result (λ found. found ≡ signature_of ground.now.types of) }
{
    match ground.types.underlying_term(of) {
        Some(TypeTerm::Func(signature)) => {
            let copy = signature.copy(ground.alloc)?;
            Ok(Some(copy))
        }
        _ => Ok(None),
    }
}

/// The type of a call: of the one result, or of none or several values.
fn result_of(ground: &mut Ground, results: &[TypeId]) -> Result<TypeId, NoMemory>
    ensures { Turns ground.old ground.new (sound result) (IsResult results.now) }
{
    if results.len() == 1 {
        return Ok(results[0]);
    }
    ground.tuple(results)
}

/// What is called, by the value that is.
fn callee_of(ground: &Ground, expr: TypedExpr) -> Result<Callee, NoMemory>
    ensures { IfOk result (IsCallee expr) }
{
    let (at, of, kind) = expr.into_parts();
    match kind {
        ExprKind::FunctionOf(function) => Ok(Callee::Function(function)),
        ExprKind::LiteralOf(function) => Ok(Callee::Literal(function)),
        ExprKind::MethodValue { receiver, method } => Ok(method_callee(receiver, method)),
        kind => value_callee(ground, node(at, of, kind)),
    }
}

fn value_callee(ground: &Ground, expr: TypedExpr) -> Result<Callee, NoMemory>
    ensures { IfOk result (IsValueCallee expr) }
{
    let expr = boxed(ground, expr)?;
    Ok(Callee::Value(expr))
}

fn method_callee(receiver: Box<TypedExpr>, method: Method) -> Callee
    ensures { result ≡ method_callee receiver method }
{
    match method {
        Method::Concrete(function) => Callee::Method { receiver, function },
        Method::Interface { name, package } => Callee::Interface {
            receiver,
            name,
            package,
        },
    }
}

/// The arguments of a call of a function.
#[derive(Drop)]
enum Arguments {
    /// One value each; None where one is unsound.
    Each(Vec<Option<Given>>),
    /// The results of a call of several.
    Spread(Given, Vec<TypeId>),
}

/// The arguments: one value each, or one call of several. `WrongNumberOfValues` at any other call of none or several.
fn arguments_of(ground: &mut Ground, arguments: Vec<Seen>) -> Result<Arguments, NoMemory>
    ensures arguments { IfOk result (λ made. Some (written made) ≡ (arguments_asked ground.old.types arguments.items).sound) }
    ensures broken { OnOk result (ground.new ≡ reported ground.old (arguments_asked ground.old.types arguments.items).broken) }
{
    let mut values = values_of(ground, arguments)?;
    if values.len() == 1 {
        let value = values.pop().flatten();
        drop(values);
        return sole_argument(ground, value);
    }
    each_argument(ground, values)
}

fn values_of(ground: &mut Ground, arguments: Vec<Seen>) -> Result<Vec<Option<Given>>, NoMemory>
    ensures values { IfOk result (λ values. values.items ≡ seen_values arguments.items) }
    ensures broken { OnOk result (ground.new ≡ reported ground.old (seen_broken arguments.items)) }
{
    let mut values = Vec::new(ground.alloc);
    for argument in arguments {
        values.push(value_of(ground, argument))?;
    }
    Ok(values)
}

fn each_argument(ground: &mut Ground, values: Vec<Option<Given>>) -> Result<Arguments, NoMemory>
    ensures arguments { IfOk result (λ made. Some (written made) ≡ (are_singles ground.old.types values.items).sound) }
    ensures broken { OnOk result (ground.new ≡ reported ground.old (are_singles ground.old.types values.items).broken) }
{
    let mut singles = Vec::new(ground.alloc);
    for value in values {
        singles.push(only_one(ground, value))?;
    }
    Ok(Arguments::Each(singles))
}

fn only_one(ground: &mut Ground, value: Option<Given>) -> Option<Given>
    ensures answer { result ≡ (one_of ground.old.types value).sound }
    ensures broken { ground.new ≡ reported ground.old (one_of ground.old.types value).broken }
{
    let value = value?;
    single(ground, value)
}

fn sole_argument(ground: &mut Ground, value: Option<Given>) -> Result<Arguments, NoMemory>
    ensures arguments { IfOk result (λ made. Some (written made) ≡ (sole_written ground.old.types value).sound) }
    ensures broken { OnOk result (ground.new ≡ reported ground.old (sole_written ground.old.types value).broken) }
{
    match value {
        Some(value) => given_argument(ground, value),
        None => one_argument(ground, None),
    }
}

fn given_argument(ground: &mut Ground, value: Given) -> Result<Arguments, NoMemory>
    ensures arguments { IfOk result (λ made. Some (written made) ≡ (sole_written ground.old.types (Some value)).sound) }
    ensures broken { OnOk result (ground.new ≡ reported ground.old (sole_written ground.old.types (Some value)).broken) }
{
    let (parts, value) = beside(several_parts(ground, value.expr.of), value)?;
    match parts {
        Some(parts) => Ok(Arguments::Spread(value, parts)),
        None => {
            let value = single(ground, value);
            one_argument(ground, value)
        }
    }
}

fn one_argument(ground: &Ground, value: Option<Given>) -> Result<Arguments, NoMemory>
    ensures { IfOk result (λ made. written made ≡ Written.each (value ∷ [])) }
{
    let mut values = Vec::new(ground.alloc);
    values.push(value)?;
    Ok(Arguments::Each(values))
}

impl Arguments {
    fn count(&self) -> usize
        ensures { result ≡ count (written self.now) }
    {
        match self {
            Arguments::Each(values) => values.len(),
            Arguments::Spread(_, parts) => parts.len(),
        }
    }

    fn is_spread(&self) -> bool
        ensures { result ≡ is_spread (written self.now) }
    {
        matches!(self, Arguments::Spread(_, _))
    }

    /// The place of the first argument; None where one is unsound.
    fn place(&self, otherwise: Pos) -> Option<Pos>
        ensures { result ≡ place (written self.now) otherwise }
    {
        match self {
            Arguments::Each(values) => place_of(values.as_slice(), otherwise),
            Arguments::Spread(value, _) => Some(value.at),
        }
    }
}

/// The rule that the number of arguments breaks, and where.
fn number_breach(
    call: CallSite,
    signature: &Signature,
    arguments: &Arguments,
) -> Option<NumberBreach>
    ensures { result ≡ number_breach call signature.now (written arguments.now) }
{
    let written = arguments.count();
    let wanted = signature.params.as_slice().len();
    if call.dots.is_some() {
        if !signature.variadic || arguments.is_spread() || written > wanted {
            return Some(NumberBreach::Dots);
        }
        if written != wanted {
            return Some(NumberBreach::Count);
        }
        return None;
    }
    let enough = if signature.variadic {
        written >= wanted.saturating_sub(1)
    } else {
        written == wanted
    };
    if enough {
        None
    } else {
        Some(NumberBreach::Count)
    }
}

#[derive(Clone, Copy)]
enum NumberBreach {
    Dots,
    Count,
}

fn report_number(ground: &mut Ground, call: CallSite, breach: NumberBreach, arguments: &Arguments)
    ensures { ground.new ≡ reported ground.old (breach_broken breach call.dots (place (written arguments.now) call.at)) }
{
    let Some(place) = arguments.place(call.at) else {
        return;
    };
    match (breach, call.dots) {
        (NumberBreach::Dots, Some(dots)) => ground.report(dots, Rule::BadUseOfDots),
        _ => ground.report(place, Rule::WrongNumberOfValues),
    }
}

/// The arguments as values of the parameters, packed where these are variadic.
fn passed_arguments(
    ground: &mut Ground,
    call: CallSite,
    signature: &Signature,
    arguments: Arguments,
) -> Result<Option<Values>, NoMemory>
    ensures { Turns ground.old ground.new result (AreArguments call signature.now (written arguments)) }
{
    match number_breach(call, signature, &arguments) {
        Some(breach) => {
            report_number(ground, call, breach, &arguments);
            drop(arguments);
            Ok(None)
        }
        None => planned_arguments(ground, call, signature, arguments),
    }
}

fn planned_arguments(
    ground: &mut Ground,
    call: CallSite,
    signature: &Signature,
    arguments: Arguments,
) -> Result<Option<Values>, NoMemory>
    ensures { Turns ground.old ground.new result (ArePassedAs call signature.now (written arguments)) }
{
    let plan = Plan::new(ground, call, signature);
    match arguments {
        Arguments::Each(values) => each_passed(ground, signature, plan, values),
        Arguments::Spread(tuple, parts) => spread(ground, signature, plan, tuple, parts),
    }
}
