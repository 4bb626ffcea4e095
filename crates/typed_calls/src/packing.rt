//! Arguments as values of parameters, packed in slices where these are variadic. Go specification, "Passing arguments to ...
//! parameters".

ghost use Rattle.std.specs.Prelude.{◌≡◌, List, IfOk, OnOk, drop, length, take};
ghost use Rattle.go_tree.specs.declared.exprs.TypedExpr.{TypedExpr};
ghost use Rattle.typed_parts.specs.Joining.{items_of, listed};
ghost use Rattle.typed_parts.specs.Judged.{Comes};
ghost use Rattle.typed_parts.specs.Turning.{Soundly, Turns};
ghost use Rattle.typed_calls.specs.Packing.{ArePartsTo, ArePassed, AreValues, IsJoined, IsPacked, IsPartPassed, IsSlice, IsSpread, IsSpreadAs, items_from, with_fixed, with_item};
ghost use Rattle.typed_calls.specs.Passing.{plan, slice_of, target};

use crate::calling::CallSite;
use go_base::{NoMemory, Pos, TypeId};
use go_tree::{Elements, ExprKind, ItemInit, TypedExpr, Values};
use go_type::{Signature, TypeTerm, Types};
use typed_parts::{
    Given, Ground, assigned, assigned_part, beside, boxed, lost, node, only, sound, with_last,
};

/// How arguments go to parameters.
#[derive(Clone, Copy)]
pub struct Plan {
    call: CallSite,
    /// How many arguments have parameters of their own.
    fixed: usize,
    /// Where the others are packed: the type of the slice, and that of its elements.
    packs: Option<(TypeId, TypeId)>,
}

impl Plan {
    /// Arguments of a variadic function are packed where there is no `...`.
    pub fn new(ground: &Ground, call: CallSite, signature: &Signature) -> Plan
        ensures { result ≡ plan ground.now.types call signature.now }
    {
        let packs = signature.variadic && call.dots.is_none();
        let params = signature.params.as_slice();
        match params.last() {
            Some(slice) if packs => Plan {
                call,
                fixed: params.len().saturating_sub(1),
                packs: slice_of(&ground.types, *slice),
            },
            _ => Plan {
                call,
                fixed: params.len(),
                packs: None,
            },
        }
    }

    /// The type that an argument goes to.
    fn target(&self, signature: &Signature, number: usize) -> Option<TypeId>
        ensures { result ≡ target self.now signature.now number }
    {
        if number < self.fixed {
            return signature.params.as_slice().get(number).copied();
        }
        let (_, elem) = self.packs?;
        Some(elem)
    }
}

/// A slice type and the type of its elements.
fn slice_of(types: &Types, of: TypeId) -> Option<(TypeId, TypeId)>
    ensures { result ≡ slice_of types.now of }
{
    match types.underlying_term(of) {
        Some(TypeTerm::Slice(elem)) => Some((of, *elem)),
        _ => None,
    }
}

/// Values as those of the parameters.
fn passed_each(
    ground: &mut Ground,
    signature: &Signature,
    plan: Plan,
    values: Vec<Option<Given>>,
) -> Result<Option<Vec<TypedExpr>>, NoMemory>
    ensures { Turns ground.old ground.new (listed result) (ArePassed plan signature.now values.items) }
{
    let mut passed = Some(Vec::new(ground.alloc));
    for (number, value) in values.into_iter().enumerate() {
        let to = plan.target(signature, number);
        let value = assigned(ground, value, to)?;
        passed = with_last(passed, value)?;
    }
    Ok(passed)
}

/// Values as those of the parameters, packed where these are variadic.
pub fn each_passed(
    ground: &mut Ground,
    signature: &Signature,
    plan: Plan,
    values: Vec<Option<Given>>,
) -> Result<Option<Values>, NoMemory>
    ensures { Turns ground.old ground.new result (AreValues plan signature.now values.items) }
{
    let values = passed_each(ground, signature, plan, values)?;
    match packed_sound(ground, plan, values)? {
        Some(values) => Ok(Some(Values::Each(values))),
        None => Ok(None),
    }
}

fn packed_sound(
    ground: &mut Ground,
    plan: Plan,
    values: Option<Vec<TypedExpr>>,
) -> Result<Option<Vec<TypedExpr>>, NoMemory>
    ensures { Turns ground.old ground.new (listed result) (Soundly (IsPacked plan) (items_of values)) }
{
    match values {
        Some(values) => packed(ground, plan, values),
        None => Ok(None),
    }
}

/// The results of a call as the values of the parameters of another.
pub fn spread(
    ground: &mut Ground,
    signature: &Signature,
    plan: Plan,
    tuple: Given,
    parts: Vec<TypeId>,
) -> Result<Option<Values>, NoMemory>
    ensures { Turns ground.old ground.new result (IsSpread plan signature.now tuple parts.items) }
{
    let Given { at, expr } = tuple;
    let passed = passed_parts(ground, signature, plan, at, parts);
    let (passed, expr) = beside(passed, expr)?;
    let packed = packed_sound(ground, plan, passed);
    let (packed, expr) = beside(packed, expr)?;
    match packed {
        Some(parts) => sound(spread_values(ground, expr, parts)),
        None => Ok(None),
    }
}

fn spread_values(
    ground: &Ground,
    tuple: TypedExpr,
    parts: Vec<TypedExpr>,
) -> Result<Values, NoMemory>
    ensures { IfOk result (IsSpreadAs tuple parts.items) }
{
    let (tuple, parts) = beside(boxed(ground, tuple), parts)?;
    Ok(Values::Spread { tuple, parts })
}

fn passed_parts(
    ground: &mut Ground,
    signature: &Signature,
    plan: Plan,
    at: Pos,
    parts: Vec<TypeId>,
) -> Result<Option<Vec<TypedExpr>>, NoMemory>
    ensures { Turns ground.old ground.new (listed result) (ArePartsTo at plan signature.now parts.items) }
{
    let mut passed = Some(Vec::new(ground.alloc));
    for (number, part) in parts.as_slice().iter().enumerate() {
        let to = plan.target(signature, number);
        let value = passed_part(ground, at, number, *part, to)?;
        passed = with_last(passed, value)?;
    }
    Ok(passed)
}

fn passed_part(
    ground: &mut Ground,
    at: Pos,
    number: usize,
    part: TypeId,
    to: Option<TypeId>,
) -> Result<Option<TypedExpr>, NoMemory>
    ensures { Comes ground.old ground.new result (IsPartPassed ground.old.types at number part to) }
{
    match (to, u32::try_from(number)) {
        (Some(to), Ok(number)) => assigned_part(ground, at, number, part, to),
        _ => Err(lost()),
    }
}

/// The arguments with those behind the fixed ones packed in a slice. `TypeTooLarge` at the call where they are too many.
fn packed(
    ground: &mut Ground,
    plan: Plan,
    values: Vec<TypedExpr>,
) -> Result<Option<Vec<TypedExpr>>, NoMemory>
    ensures { Turns ground.old ground.new (listed result) (IsPacked plan values.items) }
{
    let Some((slice, elem)) = plan.packs else {
        return Ok(Some(values));
    };
    let apart = Apart::of(ground, plan.fixed, values)?;
    let fits = ground.fit_many(plan.call.at, elem, apart.items.len() as u64);
    let (fits, apart) = beside(fits, apart)?;
    match only(Some(apart), fits) {
        Some(apart) => sound(apart.joined(plan.call.parenthesis, slice)),
        None => Ok(None),
    }
}

/// Arguments that have parameters of their own, and those that are packed.
#[derive(Drop)]
struct Apart {
    fixed: Vec<TypedExpr>,
    items: Vec<ItemInit>,
}

impl Apart {
    fn of(ground: &Ground, fixed: usize, values: Vec<TypedExpr>) -> Result<Apart, NoMemory>
        ensures first { IfOk result (λ apart. apart.fixed.items ≡ take fixed values.items) }
        ensures others { IfOk result (λ apart. apart.items.items ≡ items_from 0 (drop fixed values.items)) }
    {
        let mut apart = Apart {
            fixed: Vec::new(ground.alloc),
            items: Vec::new(ground.alloc),
        };
        for value in values {
            apart.add(fixed, value)?;
        }
        Ok(apart)
    }

    fn add(&mut self, fixed: usize, value: TypedExpr) -> Result<(), NoMemory>
        ensures first { OnOk result (self.new.fixed.items ≡ with_fixed fixed self.old.fixed.items value) }
        ensures others { OnOk result (self.new.items.items ≡ with_item fixed (length self.old.fixed.items) self.old.items.items value) }
    {
        if self.fixed.len() < fixed {
            self.fixed.push(value)?;
        } else {
            let index = self.items.len() as u64;
            self.items.push(ItemInit { index, value })?;
        }
        Ok(())
    }

    /// The fixed arguments, and behind them the others as a slice.
    fn joined(self, at: Pos, slice: TypeId) -> Result<Vec<TypedExpr>, NoMemory>
        ensures { (others : List TypedExpr) → self.items.items ≡ items_from 0 others → IfOk result (λ made. IsJoined at slice self.fixed.items others made.items) }
    {
        let Apart { mut fixed, items } = self;
        fixed.push(slice_node(at, slice, items))?;
        Ok(fixed)
    }
}

/// A slice of items, which is `nil` where there are none.
fn slice_node(at: Pos, slice: TypeId, items: Vec<ItemInit>) -> TypedExpr
    ensures { (others : List TypedExpr) → items.items ≡ items_from 0 others → IsSlice at slice others result }
{
    if items.is_empty() {
        return node(at, slice, ExprKind::NilOf);
    }
    let len = items.len() as u64;
    node(
        at,
        slice,
        ExprKind::CompositeOf(Elements::Items { items, len }),
    )
}
