//! Selectors, method values and method expressions. Go specification, "Selectors", "Method expressions" and "Method values".

ghost use Rattle.std.specs.Prelude.{◌≡◌, ◌++◌, ◌↔◌, IfOk, IsTrue, OnOk};
ghost use Rattle.std.specs.List.{list_any};
ghost use Rattle.go_type.specs.Selector.{is_wanted};
ghost use Rattle.go_type.specs.Table.{definition_at};
ghost use Rattle.typed_parts.specs.Joining.{sound};
ghost use Rattle.typed_parts.specs.Judged.{Comes, reported};
ghost use Rattle.typed_parts.specs.Turning.{Turns};
ghost use Rattle.typed_parts.specs.Made.{IsOnOne};
ghost use Rattle.typed_primaries.specs.Selecting.{HasMethod, IsBoundMethod, IsConcreteMethod, IsFieldOrMethod, IsMethodExpression, IsMethodOf, IsPrefixed, IsReceiver, IsSelectedBy, IsSelectedOf, IsSelection, IsSelector, by_pointer, by_pointer_in, has_address, receiver_asked, value_form, wanted, with_first};

use crate::steps::{addressed, along, dereferenced};
use go_base::{FuncId, NameId, NoMemory, Pos, Rule, TypeId};
use go_rules::untyped_kind;
use go_tree::{ExprKind, Method, TypedExpr};
use go_type::{
    MethodEntry, SelectError, Selection, SelectionKind, Signature, TypeIds, TypeTerm,
    find_selector, method_set,
};
use std::alloc::Global;
use typed_parts::{
    Given, Ground, Meaning, Seen, beside, boxed, is_place, lost, node, only, pointed, single, sound,
};

/// A name that is selected.
#[derive(Clone, Copy)]
struct Selected {
    at: Pos,
    name: NameId,
    package: u32,
}

/// `x.name`, where x is no package: a field or method of a value, or a method of a type. `package` is `EXPORTED` where the
/// name is exported, and else that of the file. At the name: `NoSuchFieldOrMethod`, `AmbiguousSelector`, and
/// `ReceiverNotAddressable`; `TypeTooLarge` at x.
pub fn selector(
    ground: &mut Ground,
    x: Seen,
    name_at: Pos,
    name: NameId,
    package: u32,
) -> Result<Option<TypedExpr>, NoMemory>
    ensures { Turns ground.old ground.new result (IsSelector x (record { at = name_at; name = name; «package» = «package» })) }
{
    let selected = Selected {
        at: name_at,
        name,
        package,
    };
    let Seen { at, meaning } = x;
    match meaning {
        None => Ok(None),
        Some(Meaning::Type(of)) => method_expression(ground, at, of, selected),
        Some(Meaning::Builtin(_)) => {
            ground.report(at, Rule::BadBuiltInCall);
            Ok(None)
        }
        Some(Meaning::Value(expr)) => match single(ground, Given { at, expr }) {
            Some(x) => field_or_method(ground, x, selected),
            None => Ok(None),
        },
    }
}

/// What the name selects of a type. `NoSuchFieldOrMethod` and `AmbiguousSelector` at the name.
fn selection_of(
    ground: &mut Ground,
    of: TypeId,
    selected: Selected,
) -> Result<Option<Selection>, NoMemory>
    ensures { Comes ground.old ground.new result (IsSelection ground.old.types of selected) }
{
    if untyped_kind(&ground.types, of).is_some() {
        ground.report(selected.at, Rule::NoSuchFieldOrMethod);
        return Ok(None);
    }
    match find_selector(
        ground.alloc,
        &ground.types,
        of,
        selected.name,
        selected.package,
    ) {
        Ok(selection) => Ok(Some(selection)),
        Err(SelectError::Absent) => {
            ground.report(selected.at, Rule::NoSuchFieldOrMethod);
            Ok(None)
        }
        Err(SelectError::Ambiguous { .. }) => {
            ground.report(selected.at, Rule::AmbiguousSelector);
            Ok(None)
        }
        Err(SelectError::OutOfMemory) => Err(NoMemory),
    }
}

/// What is selected of a value.
fn field_or_method(
    ground: &mut Ground,
    x: Given,
    selected: Selected,
) -> Result<Option<TypedExpr>, NoMemory>
    ensures { Turns ground.old ground.new result (IsFieldOrMethod selected x) }
{
    let (selection, x) = beside(selection_of(ground, x.expr.of, selected), x)?;
    match selection.zip(Some(x)) {
        Some((selection, x)) => selected_by(ground, x.expr, selection, selected),
        None => Ok(None),
    }
}

/// What a selection leads to from a value.
fn selected_by(
    ground: &mut Ground,
    expr: TypedExpr,
    selection: Selection,
    selected: Selected,
) -> Result<Option<TypedExpr>, NoMemory>
    ensures { Turns ground.old ground.new result (IsSelectedBy selected expr selection) }
{
    let (kind, result) = (selection.kind, selection.result);
    let expr = along(ground, expr, selection.path.as_slice());
    drop(selection);
    selected_of(ground, expr?, kind, result, selected)
}

/// A field, or a method of a value that fields lead to.
fn selected_of(
    ground: &mut Ground,
    expr: TypedExpr,
    kind: SelectionKind,
    of: TypeId,
    selected: Selected,
) -> Result<Option<TypedExpr>, NoMemory>
    ensures { Turns ground.old ground.new result (IsSelectedOf selected kind of expr) }
{
    match kind {
        SelectionKind::Field => Ok(Some(expr)),
        SelectionKind::Method(function) => {
            concrete_method(ground, expr, function, of, selected.at)
        }
        SelectionKind::InterfaceMethod => {
            let method = Method::Interface {
                name: selected.name,
                package: selected.package,
            };
            sound(method_value(ground, expr, of, method))
        }
    }
}

/// A method of a receiver, as a value.
fn method_value(
    ground: &Ground,
    receiver: TypedExpr,
    of: TypeId,
    method: Method,
) -> Result<TypedExpr, NoMemory>
    ensures { IfOk result (IsOnOne receiver.at of (value_form method) receiver) }
{
    let at = receiver.at;
    let receiver = boxed(ground, receiver)?;
    Ok(node(at, of, ExprKind::MethodValue { receiver, method }))
}

/// A method of a value whose type, or what it points to, declares it. `ReceiverNotAddressable` at the name where the
/// receiver is a pointer and the value is neither one nor a place.
fn concrete_method(
    ground: &mut Ground,
    expr: TypedExpr,
    function: FuncId,
    signature: TypeId,
    name_at: Pos,
) -> Result<Option<TypedExpr>, NoMemory>
    ensures { Turns ground.old ground.new result (IsConcreteMethod name_at function signature expr) }
{
    match ask_receiver(ground, expr, function, name_at) {
        Some(expr) => bound_method(ground, expr, function, signature),
        None => Ok(None),
    }
}

/// A method of a value that may be its receiver.
fn bound_method(
    ground: &mut Ground,
    expr: TypedExpr,
    function: FuncId,
    signature: TypeId,
) -> Result<Option<TypedExpr>, NoMemory>
    ensures { Turns ground.old ground.new result (IsBoundMethod function signature expr) }
{
    let receiver = receiver(ground, expr, function)?;
    sound(method_value(ground, receiver, signature, Method::Concrete(function)))
}

/// A value that may be the receiver of a method. `ReceiverNotAddressable` at the name.
fn ask_receiver(
    ground: &mut Ground,
    expr: TypedExpr,
    function: FuncId,
    name_at: Pos,
) -> Option<TypedExpr>
    ensures answer { result ≡ (receiver_asked ground.old.types name_at function expr).sound }
    ensures broken { ground.new ≡ reported ground.old (receiver_asked ground.old.types name_at function expr).broken }
{
    let may = !by_pointer(ground, expr.of, function) || has_address(ground, &expr);
    if !may {
        ground.report(name_at, Rule::ReceiverNotAddressable);
    }
    only(Some(expr), may)
}

/// The receiver of a method: a pointer where the method takes one, and else the value itself.
fn receiver(ground: &mut Ground, expr: TypedExpr, function: FuncId) -> Result<TypedExpr, NoMemory>
    ensures { Turns ground.old ground.new (sound result) (IsReceiver function expr) }
{
    if by_pointer(ground, expr.of, function) {
        addressed(ground, expr)
    } else {
        dereferenced(ground, expr)
    }
}

/// Whether a value is a pointer, or has an address.
fn has_address(ground: &Ground, expr: &TypedExpr) -> bool
    ensures { result ≡ has_address ground.now.types expr.now }
{
    pointed(ground, expr.of).is_some() || is_place(expr)
}

/// Whether a method of a type, or of what it points to, has a pointer as its receiver.
fn by_pointer(ground: &Ground, of: TypeId, function: FuncId) -> bool
    ensures { result ≡ by_pointer ground.now.types of function }
{
    let owner = pointed(ground, of).unwrap_or(of);
    by_pointer_in(ground.types.methods(owner), function)
}

fn by_pointer_in(methods: &[MethodEntry], function: FuncId) -> bool
    ensures { result ≡ by_pointer_in methods.now function }
{
    for method in methods {
        if method.kind == SelectionKind::Method(function) {
            return method.pointer;
        }
    }
    false
}

/// `T.m`. `NoSuchFieldOrMethod` at the name also where the method set of the type has no such method.
fn method_expression(
    ground: &mut Ground,
    at: Pos,
    of: TypeId,
    selected: Selected,
) -> Result<Option<TypedExpr>, NoMemory>
    ensures { Turns ground.old ground.new result (IsMethodExpression at of selected) }
{
    let Some(selection) = selection_of(ground, of, selected)? else {
        return Ok(None);
    };
    if !has_method(ground, of, selected)? {
        ground.report(selected.at, Rule::NoSuchFieldOrMethod);
        return Ok(None);
    }
    method_of(ground, at, of, selected, selection)
}

/// A method of the method set of a type. `TypeTooLarge` where its function type is.
fn method_of(
    ground: &mut Ground,
    at: Pos,
    of: TypeId,
    selected: Selected,
    selection: Selection,
) -> Result<Option<TypedExpr>, NoMemory>
    ensures { Turns ground.old ground.new result (IsMethodOf at of selected selection) }
{
    let function = with_receiver(ground, of, selection.result)?;
    if !ground.within_limits(at, function)? {
        return Ok(None);
    }
    Ok(Some(node(
        at,
        function,
        ExprKind::MethodExpr {
            receiver: of,
            name: selected.name,
            package: selected.package,
        },
    )))
}

/// Whether the method set of a type has the method.
fn has_method(ground: &Ground, of: TypeId, selected: Selected) -> Result<bool, NoMemory>
    ensures { IfOk result (λ has. IsTrue has ↔ HasMethod ground.now.types of selected) }
{
    let methods = method_set(ground.alloc, &ground.types, of)?;
    Ok(is_among(methods.as_slice(), selected))
}

fn is_among(methods: &[MethodEntry], selected: Selected) -> bool
    ensures { result ≡ list_any (λ entry. is_wanted (wanted selected) entry.name entry.«package») methods.now }
{
    for method in methods {
        if selected.name == method.name && selected.package == method.package {
            return true;
        }
    }
    false
}

/// A function type with one more parameter in front.
fn with_receiver(
    ground: &mut Ground,
    receiver: TypeId,
    function: TypeId,
) -> Result<TypeId, NoMemory>
    ensures { Turns ground.old ground.new (sound result) (IsPrefixed receiver function) }
{
    let Some(TypeTerm::Func(signature)) = ground.types.underlying_term(function) else {
        return Err(lost());
    };
    let longer = longer(ground.alloc, receiver, signature)?;
    ground.hold(TypeTerm::Func(longer))
}

fn longer(alloc: Global, receiver: TypeId, signature: &Signature) -> Result<Signature, NoMemory>
    ensures { IfOk result (λ made. made ≡ with_first receiver signature.now) }
{
    let mut params = TypeIds::new(alloc);
    params.push(receiver)?;
    push_all(&mut params, signature.params.as_slice())?;
    Ok(Signature {
        params,
        results: signature.results.copy(alloc)?,
        variadic: signature.variadic,
    })
}

fn push_all(ids: &mut TypeIds, more: &[TypeId]) -> Result<(), NoMemory>
    ensures { OnOk result (ids.new ≡ ids.old ++ more.now) }
{
    for id in more {
        ids.push(*id)?;
    }
    Ok(())
}
