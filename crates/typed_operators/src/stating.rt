//! What statements and declarations ask of expressions. Go specification, "Statements" and "Constant declarations".

ghost use Rattle.std.specs.Prelude.{◌≡◌, None, Some};
ghost use Rattle.std.specs.Option.{option_map};
ghost use Rattle.go_type.specs.declared.term.Basic.TheVariants.{Int as TheInt};
ghost use Rattle.go_type.specs.Table.{basic_id};
ghost use Rattle.typed_operators.specs.Stating.{IsCondition, IsConstantAs, IsConstantValue, IsRange, IsRangeValue, IsSend, IsSwitchTag, array_length, condition_value, elem_sent, has_constants, is_target, known_length, length_from, length_given, one_constant, one_more, range_given, range_over, range_parts, ranged, rounds, sent_channel, sent_elem, sent_of, stepped, target, target_given};
ghost use Rattle.typed_parts.specs.Judged.{Comes, reported};
ghost use Rattle.typed_parts.specs.Joining.{asked};
ghost use Rattle.typed_parts.specs.Numbers.{integer_of};
ghost use Rattle.go_base.specs.declared.rule.Rule.TheVariants.{NotAConstant};

use crate::unary::signed;
use go_base::{NoMemory, Rule, TypeId};
use go_rules::{is_ordered, takes_logic};
use go_tree::{ExprKind, RangeOver, TypedExpr};
use go_type::{Basic, Const, Dir, TypeTerm, Types, basic};
use typed_parts::{
    Given, Ground, Seen, Shape, asked, assigned, by_default, holds_call, integer_of, is_constant,
    is_place, node, one_value, shape_of, with_text_type,
};

/// The parts of a send.
#[derive(Drop)]
pub struct Sent {
    pub channel: TypedExpr,
    pub value: TypedExpr,
}

/// The parts of `x++` or `x--`.
#[derive(Drop)]
pub struct Stepped {
    pub target: TypedExpr,
    /// 1 of the type of the target.
    pub one: TypedExpr,
}

/// The operand of a range.
#[derive(Drop)]
pub struct Ranged {
    pub over: RangeOver,
    pub operand: TypedExpr,
    pub key: TypeId,
    /// None over a channel.
    pub value: Option<TypeId>,
    /// The length where the operand is an array or a pointer to one without a call in it: so many rounds are known where
    /// there is no second target.
    pub constant: Option<u64>,
}

/// A condition. `ConditionNotBoolean` at it where it is no boolean; an untyped one becomes `bool`.
pub fn condition(ground: &mut Ground, x: Seen) -> Result<Option<TypedExpr>, NoMemory>
    ensures { Comes ground.old ground.new result (IsCondition ground.old.types x) }
{
    let x = condition_value(ground, x);
    by_default(ground, x)
}

#[tactic(auto, using(typed_parts::proofs::Reports::reported_after))]
fn condition_value(ground: &mut Ground, x: Seen) -> Option<Given>
    ensures answer { result ≡ (condition_value ground.old.types x).sound }
    ensures broken { ground.new ≡ reported ground.old (condition_value ground.old.types x).broken }
{
    let x = one_value(ground, x)?;
    let is_truth = takes_logic(&ground.types, x.expr.of);
    asked(ground, x, is_truth, Rule::ConditionNotBoolean)
}

/// A value of a constant, with its type where one is written (`to`). `NotAConstant` at it where it is none, or where the
/// type has no constants; else what `assigned` reports.
pub fn constant_value(
    ground: &mut Ground,
    x: Seen,
    to: Option<TypeId>,
) -> Result<Option<TypedExpr>, NoMemory>
    ensures { Comes ground.old ground.new result (IsConstantValue ground.old.types x to) }
{
    match one_constant(ground, x) {
        Some(x) => constant_as(ground, x, to),
        None => Ok(None),
    }
}

fn constant_as(
    ground: &mut Ground,
    x: Given,
    to: Option<TypeId>,
) -> Result<Option<TypedExpr>, NoMemory>
    ensures { Comes ground.old ground.new result (IsConstantAs ground.old.types to x) }
{
    match to {
        Some(to) => typed_constant(ground, x, to),
        None => Ok(Some(x.expr)),
    }
}

fn typed_constant(ground: &mut Ground, x: Given, to: TypeId) -> Result<Option<TypedExpr>, NoMemory>
    ensures { Comes ground.old ground.new result (IsConstantAs ground.old.types (Some to) x) }
{
    let may = has_constants(&ground.types, to);
    let x = asked(ground, x, may, Rule::NotAConstant);
    assigned(ground, x, Some(to))
}

/// A constant. `NotAConstant` at what is none.
#[tactic(auto, using(typed_parts::proofs::Reports::reported_after))]
fn one_constant(ground: &mut Ground, x: Seen) -> Option<Given>
    ensures answer { result ≡ (one_constant ground.old.types x).sound }
    ensures broken { ground.new ≡ reported ground.old (one_constant ground.old.types x).broken }
{
    let x = one_value(ground, x)?;
    let is_one = is_constant(&x.expr);
    asked(ground, x, is_one, Rule::NotAConstant)
}

/// Whether a type has constants: of booleans, integers or strings.
fn has_constants(types: &Types, of: TypeId) -> bool
    ensures { result ≡ has_constants types.now of }
{
    is_ordered(types, of) || takes_logic(types, of)
}

/// The length of an array type. `NotAConstant` at what is no constant, and `BadArrayLength` at one that is no integer from 0
/// to 2^63-1.
#[tactic(auto, using(typed_parts::proofs::Reports::reported_after))]
pub fn array_length(ground: &mut Ground, x: Seen) -> Option<u64>
    ensures answer { result ≡ (array_length ground.old.types x).sound }
    ensures broken { ground.new ≡ reported ground.old (array_length ground.old.types x).broken }
{
    let x = one_constant(ground, x)?;
    length_given(ground, x)
}

fn length_given(ground: &mut Ground, x: Given) -> Option<u64>
    ensures answer { result ≡ (length_given x (known_length (integer_of x.expr))).sound }
    ensures broken { ground.new ≡ reported ground.old (length_given x (known_length (integer_of x.expr))).broken }
{
    let len = known_length(&x.expr);
    if len.is_none() {
        ground.report(x.at, Rule::BadArrayLength);
    }
    drop(x);
    len
}

fn known_length(expr: &TypedExpr) -> Option<u64>
    ensures { result ≡ known_length (integer_of expr.now) }
{
    let number = integer_of(expr)?;
    length_from(number)
}

fn length_from(number: i128) -> Option<u64>
    ensures { result ≡ length_from number }
{
    if number > 0x7fff_ffff_ffff_ffff {
        return None;
    }
    match u64::try_from(number) {
        Ok(len) => Some(len),
        Err(_) => None,
    }
}

/// A value that is assigned to: a place, or an element of a map. `CannotAssign` at any other.
pub fn target(ground: &mut Ground, x: Seen) -> Option<TypedExpr>
    ensures answer { result ≡ option_map (λ given. given.expr) (target ground.old.types x).sound }
    ensures broken { ground.new ≡ reported ground.old (target ground.old.types x).broken }
{
    match target_value(ground, x) {
        Some(x) => Some(x.expr),
        None => None,
    }
}

/// A value that may be assigned to.
#[tactic(auto, using(typed_parts::proofs::Reports::reported_after))]
fn target_value(ground: &mut Ground, x: Seen) -> Option<Given>
    ensures answer { result ≡ (target ground.old.types x).sound }
    ensures broken { ground.new ≡ reported ground.old (target ground.old.types x).broken }
{
    let x = one_value(ground, x)?;
    asked_target(ground, x)
}

fn asked_target(ground: &mut Ground, x: Given) -> Option<Given>
    ensures answer { result ≡ (target_given x).sound }
    ensures broken { ground.new ≡ reported ground.old (target_given x).broken }
{
    let may = is_target(&x.expr);
    asked(ground, x, may, Rule::CannotAssign)
}

fn is_target(expr: &TypedExpr) -> bool
    ensures { result ≡ is_target expr.now }
{
    matches!(&expr.kind, ExprKind::MapIndex { .. }) || is_place(expr)
}

/// `x++` or `x--`. `BadOperand` at what is no integer, and `CannotAssign` as `target`.
pub fn step(ground: &mut Ground, x: Seen) -> Option<Stepped>
    ensures answer { result ≡ option_map (λ given. one_more given.expr) (stepped ground.old.types x).sound }
    ensures broken { ground.new ≡ reported ground.old (stepped ground.old.types x).broken }
{
    match stepped_value(ground, x) {
        Some(x) => Some(by_one(x.expr)),
        None => None,
    }
}

/// An integer that may be assigned to.
#[tactic(auto, using(typed_parts::proofs::Reports::reported_after))]
fn stepped_value(ground: &mut Ground, x: Seen) -> Option<Given>
    ensures answer { result ≡ (stepped ground.old.types x).sound }
    ensures broken { ground.new ≡ reported ground.old (stepped ground.old.types x).broken }
{
    let x = signed(ground, x)?;
    asked_target(ground, x)
}

fn by_one(target: TypedExpr) -> Stepped
    ensures { result ≡ one_more target }
{
    let one = node(target.at, target.of, ExprKind::ConstOf(Const::Int(1)));
    Stepped { target, one }
}

/// `channel <- value`. `BadChannelOperation` at what is no channel, or only one for receiving; else what `assigned` reports.
pub fn send(ground: &mut Ground, channel: Seen, value: Seen) -> Result<Option<Sent>, NoMemory>
    ensures { Comes ground.old ground.new result (IsSend ground.old.types channel value) }
{
    let channel = one_value(ground, channel);
    let value = one_value(ground, value);
    let channel = sent_to(ground, channel);
    let elem = elem_sent(ground, &channel);
    let sent = assigned(ground, value, elem)?;
    Ok(sent_of(channel, sent))
}

fn sent_of(channel: Option<Given>, value: Option<TypedExpr>) -> Option<Sent>
    ensures { result ≡ sent_of channel value }
{
    match channel.zip(value) {
        Some((channel, value)) => Some(Sent {
            channel: channel.expr,
            value,
        }),
        None => None,
    }
}

/// A channel that may be sent to. `BadChannelOperation` at any other value.
fn sent_to(ground: &mut Ground, channel: Option<Given>) -> Option<Given>
    ensures answer { result ≡ (sent_channel ground.old.types channel).sound }
    ensures broken { ground.new ≡ reported ground.old (sent_channel ground.old.types channel).broken }
{
    let channel = channel?;
    let may = sent_elem(ground, channel.expr.of).is_some();
    asked(ground, channel, may, Rule::BadChannelOperation)
}

fn elem_sent(ground: &Ground, channel: &Option<Given>) -> Option<TypeId>
    ensures { result ≡ elem_sent ground.now.types channel.now }
{
    match channel {
        Some(channel) => sent_elem(ground, channel.expr.of),
        None => None,
    }
}

/// What is sent to a channel type that is not only for receiving.
fn sent_elem(ground: &Ground, of: TypeId) -> Option<TypeId>
    ensures { result ≡ sent_elem ground.now.types of }
{
    match ground.types.underlying_term(of) {
        Some(
            TypeTerm::Chan {
                dir: Dir::Both | Dir::Send,
                elem,
            },
        ) => Some(*elem),
        _ => None,
    }
}

/// The tag of a switch, which takes its default type.
pub fn switch_tag(ground: &mut Ground, x: Seen) -> Result<Option<TypedExpr>, NoMemory>
    ensures { Comes ground.old ground.new result (IsSwitchTag ground.old.types x) }
{
    let x = one_value(ground, x);
    by_default(ground, x)
}

/// The operand of a range. `BadRange` at what is no array, pointer to one, slice, string, map or channel that can be received
/// from. `over` is never `Constant`: `constant` tells of what may be.
pub fn range_operand(ground: &mut Ground, x: Seen) -> Result<Option<Ranged>, NoMemory>
    ensures { Comes ground.old ground.new result (IsRange ground.old.types x) }
{
    match range_value(ground, x)? {
        Some(x) => Ok(range_given(ground, x)),
        None => Ok(None),
    }
}

/// A value that stands in a range; an untyped string is one of type `string`.
fn range_value(ground: &mut Ground, x: Seen) -> Result<Option<Given>, NoMemory>
    ensures { Comes ground.old ground.new result (IsRangeValue ground.old.types x) }
{
    let x = one_value(ground, x);
    with_text_type(ground, x)
}

/// What a range over a value gives. `BadRange` at one that has no range.
fn range_given(ground: &mut Ground, x: Given) -> Option<Ranged>
    ensures answer { result ≡ (range_given ground.old.types x).sound }
    ensures broken { ground.new ≡ reported ground.old (range_given ground.old.types x).broken }
{
    match range_parts(shape_of(ground, x.expr.of)) {
        Some(parts) => Some(range_over(parts, x.expr)),
        None => {
            ground.report(x.at, Rule::BadRange);
            drop(x);
            None
        }
    }
}

fn range_over(parts: RangeParts, operand: TypedExpr) -> Ranged
    ensures { result ≡ range_over parts operand }
{
    let constant = rounds(parts.len, holds_call(&operand));
    Ranged {
        over: parts.over,
        operand,
        key: parts.key,
        value: parts.value,
        constant,
    }
}

/// The rounds of a range over an array, where no call stands in its operand.
const fn rounds(len: Option<u64>, calls: bool) -> Option<u64>
    ensures { result ≡ rounds len calls }
{
    if calls { None } else { len }
}

/// What a range over values of a type gives.
#[derive(Clone, Copy)]
struct RangeParts {
    over: RangeOver,
    key: TypeId,
    value: Option<TypeId>,
    /// The length of an array.
    len: Option<u64>,
}

fn range_parts(shape: Option<Shape>) -> Option<RangeParts>
    ensures { result ≡ range_parts shape }
{
    let int = basic(Basic::Int);
    match shape? {
        Shape::Text => Some(parts_of(RangeOver::Text, int, Some(basic(Basic::Int32)))),
        Shape::Slice { elem } => Some(parts_of(RangeOver::Slice, int, Some(elem))),
        Shape::Map { key, elem } => Some(parts_of(RangeOver::Map, key, Some(elem))),
        Shape::Array { len, elem } => Some(array_parts(RangeOver::Array, len, elem)),
        Shape::ArrayPointer { len, elem, .. } => {
            Some(array_parts(RangeOver::ArrayPointer, len, elem))
        }
        Shape::Chan { dir, elem } => match dir {
            Dir::Both | Dir::Receive => Some(parts_of(RangeOver::Channel, elem, None)),
            Dir::Send => None,
        },
    }
}

const fn parts_of(over: RangeOver, key: TypeId, value: Option<TypeId>) -> RangeParts
    ensures { result ≡ ranged over key value None }
{
    RangeParts {
        over,
        key,
        value,
        len: None,
    }
}

fn array_parts(over: RangeOver, len: u64, elem: TypeId) -> RangeParts
    ensures { result ≡ ranged over (basic_id TheInt) (Some elem) (Some len) }
{
    RangeParts {
        over,
        key: basic(Basic::Int),
        value: Some(elem),
        len: Some(len),
    }
}
