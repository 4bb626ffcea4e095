//! The values of constants, and the rules that they break. Go specification, "Constants", "Constant expressions",
//! "Constant declarations".

use crate::denoting::{Denoting, constant_type, is_basic};
use crate::runes::text_of_rune;
use decl_nodes::{
    Arguments, Folded, Kind, Nodes, Operator, Order, TypeFact, Violations, is_marked,
};
use go_base::{NoMemory, Rule, TypeId};
use go_rules::{
    Breach, FoldError, LogicOp, Matched, Part, as_constant, fold_arithmetic, fold_compare,
    fold_logic, fold_shift, fold_unary, kind_fits, match_compared, match_types, takes_arithmetic,
    takes_comparison, takes_logic, takes_shift, takes_sign, untyped_kind,
};
use go_type::{Basic, CompareOp, Const, ConstOp, Types, UnaryOp, basic, int_kind, represent};
use std::alloc::Global;

/// A constant and its type, which is an untyped one where it has none.
#[derive(Drop)]
pub struct Value {
    pub of: TypeId,
    pub value: Const,
}

/// The values of nodes. Nodes of one value share it.
#[derive(Drop)]
pub struct Values {
    alloc: Global,
    made: Vec<Value>,
    /// For each node which of the values it has.
    places: Vec<Option<usize>>,
}

impl Values {
    /// The value of a node.
    pub fn get(&self, node: usize) -> Option<&Value> {
        self.made.as_slice().get(self.place(node)?)
    }

    fn place(&self, node: usize) -> Option<usize> {
        match self.places.as_slice().get(node) {
            Some(place) => *place,
            None => None,
        }
    }

    fn put(&mut self, node: usize, value: Value) -> Result<(), NoMemory> {
        let place = self.made.len();
        self.made.push(value)?;
        self.set(node, Some(place));
        Ok(())
    }

    fn set(&mut self, node: usize, place: Option<usize>) {
        if let Some(slot) = self.places.get_mut(node) {
            *slot = place;
        }
    }

    /// A node has the value of another.
    fn share(&mut self, node: usize, with: usize) {
        let place = self.place(with);
        self.set(node, place);
    }
}

/// What is at hand where values are found.
#[derive(Clone, Copy)]
struct Known<'a> {
    nodes: &'a Nodes,
    types: &'a Types,
    facts: &'a [TypeFact],
    denoting: &'a Denoting,
}

/// The values of the nodes.
pub fn find_values(
    alloc: Global,
    nodes: &Nodes,
    types: &Types,
    facts: &[TypeFact],
    denoting: &Denoting,
    order: &Order,
    violations: &mut Violations,
) -> Result<Values, NoMemory> {
    let known = Known {
        nodes,
        types,
        facts,
        denoting,
    };
    let mut values = Values {
        alloc,
        made: Vec::new(alloc),
        places: Vec::new(alloc),
    };
    for _ in 0..nodes.len() {
        values.places.push(None)?;
    }
    for node in order.nodes.as_slice() {
        if !is_marked(order.cyclic.as_slice(), *node) {
            values.find(known, *node, violations)?;
        }
    }
    Ok(values)
}

impl Values {
    /// Finds the value of a node whose parts have theirs.
    fn find(
        &mut self,
        known: Known<'_>,
        node: usize,
        violations: &mut Violations,
    ) -> Result<(), NoMemory> {
        match known.nodes.kind(node) {
            Some(Kind::Literal(value)) => self.literal(node, value),
            Some(Kind::Value(target)) => {
                self.share(node, *target);
                Ok(())
            }
            Some(Kind::Paren(inner)) => {
                self.share(node, *inner);
                Ok(())
            }
            Some(Kind::Constant { init: Some(init) }) => {
                self.share(node, *init);
                Ok(())
            }
            Some(Kind::Unary { op, operand }) => {
                self.unary(known, node, *op, *operand, violations)
            }
            Some(Kind::Binary { op, first, second }) => {
                self.binary(known, node, *op, *first, *second, violations)
            }
            Some(Kind::Conversion { to, arguments }) => {
                self.conversion(known, node, *to, arguments, violations)
            }
            Some(Kind::Fold { by, arguments }) => {
                self.fold(known, node, *by, arguments, violations)
            }
            Some(Kind::Init { value, form }) => {
                self.init(known, node, *value, *form, violations)
            }
            _ => Ok(()),
        }
    }

    fn literal(&mut self, node: usize, value: &Const) -> Result<(), NoMemory> {
        let of = match value {
            Const::Int(_) => Basic::UntypedInt,
            Const::Rune(_) => Basic::UntypedRune,
            Const::Text(_) => Basic::UntypedText,
            Const::Truth(_) => Basic::UntypedBool,
        };
        let value = value.copy(self.alloc)?;
        self.put(
            node,
            Value {
                of: basic(of),
                value,
            },
        )
    }

    fn unary(
        &mut self,
        known: Known<'_>,
        node: usize,
        op: Option<UnaryOp>,
        operand: usize,
        violations: &mut Violations,
    ) -> Result<(), NoMemory> {
        let Some(x) = self.get(operand) else {
            return Ok(());
        };
        let takes = match op {
            Some(UnaryOp::Not) => takes_logic(known.types, x.of),
            _ => takes_sign(known.types, x.of),
        };
        if !takes {
            return violations.push(known.nodes, operand, Rule::BadOperand);
        }
        let Some(op) = op else {
            self.share(node, operand);
            return Ok(());
        };
        let of = x.of;
        match fold_unary(known.types, op, &x.value, of) {
            Ok(value) => self.put(node, Value { of, value }),
            Err(breach) => violations.push(known.nodes, node, breach.rule),
        }
    }

    fn binary(
        &mut self,
        known: Known<'_>,
        node: usize,
        op: Operator,
        first: usize,
        second: usize,
        violations: &mut Violations,
    ) -> Result<(), NoMemory> {
        let pair = Pair {
            node,
            first,
            second,
        };
        match op {
            Operator::Arithmetic(op) => self.arithmetic(known, pair, op, violations),
            Operator::Logic(op) => self.logic(known, pair, op, violations),
            Operator::Comparison(op) => self.comparison(known, pair, op, violations),
            Operator::Shift(left) => self.shift(known, pair, left, violations),
        }
    }
}

/// An operation on two nodes.
#[derive(Clone, Copy)]
struct Pair {
    node: usize,
    first: usize,
    second: usize,
}

/// Asks that an untyped constant fits the type that it takes.
fn ask_fit(
    known: Known<'_>,
    node: usize,
    value: &Const,
    to: TypeId,
    violations: &mut Violations,
) -> Result<bool, NoMemory> {
    if represent(known.types, value, to) {
        return Ok(true);
    }
    violations.push(known.nodes, node, Rule::ConstantOutOfRange)?;
    Ok(false)
}

/// The type that two operands have, once the untyped ones took one; None where a rule is violated, which is `mismatch` at
/// the operation where nothing fits.
fn common_type(
    known: Known<'_>,
    pair: Pair,
    x: &Value,
    y: &Value,
    matched: Option<Matched>,
    mismatch: Rule,
    violations: &mut Violations,
) -> Result<Option<TypeId>, NoMemory> {
    let common = match matched {
        Some(Matched::Typed) => { if x.of == y.of { Some(x.of) } else { None } }
        Some(Matched::Untyped(kind)) => Some(kind.type_id()),
        Some(Matched::FirstConverted) => {
            if !ask_fit(known, pair.first, &x.value, y.of, violations)? {
                return Ok(None);
            }
            Some(y.of)
        }
        Some(Matched::SecondConverted) => {
            if !ask_fit(known, pair.second, &y.value, x.of, violations)? {
                return Ok(None);
            }
            Some(x.of)
        }
        _ => None,
    };
    if common.is_none() {
        violations.push(known.nodes, pair.node, mismatch)?;
    }
    Ok(common)
}

/// Asks whether an operator takes an operand.
fn ask_operand(
    known: Known<'_>,
    node: usize,
    takes: bool,
    rule: Rule,
    violations: &mut Violations,
) -> Result<bool, NoMemory> {
    if !takes {
        violations.push(known.nodes, node, rule)?;
    }
    Ok(takes)
}

fn is_zero(value: &Const) -> bool {
    matches!(value, Const::Int(0) | Const::Rune(0))
}

impl Values {
    fn arithmetic(
        &mut self,
        known: Known<'_>,
        pair: Pair,
        op: ConstOp,
        violations: &mut Violations,
    ) -> Result<(), NoMemory> {
        let mut takes = true;
        if let Some(x) = self.get(pair.first) {
            let fits = takes_arithmetic(known.types, op, x.of);
            takes &= ask_operand(known, pair.first, fits, Rule::BadOperand, violations)?;
        }
        if let Some(y) = self.get(pair.second) {
            let fits = takes_arithmetic(known.types, op, y.of);
            takes &= ask_operand(known, pair.second, fits, Rule::BadOperand, violations)?;
            let divides = matches!(op, ConstOp::Div | ConstOp::Rem) && is_zero(&y.value);
            takes &= ask_operand(
                known,
                pair.second,
                !divides,
                Rule::DivisionByZero,
                violations,
            )?;
        }
        let (Some(x), Some(y)) = (self.get(pair.first), self.get(pair.second)) else {
            return Ok(());
        };
        let matched = match_types(known.types, x.of, y.of);
        let mismatch = Rule::BadOperand;
        let common = common_type(known, pair, x, y, matched, mismatch, violations)?;
        let Some(of) = common else {
            return Ok(());
        };
        if !takes {
            return Ok(());
        }
        match fold_arithmetic(self.alloc, known.types, op, &x.value, &y.value, of) {
            Ok(value) => self.put(pair.node, Value { of, value }),
            Err(FoldError::OutOfMemory) => Err(NoMemory),
            Err(FoldError::Broken(breach)) => breach_at(known, pair, breach, violations),
        }
    }

    fn logic(
        &mut self,
        known: Known<'_>,
        pair: Pair,
        op: LogicOp,
        violations: &mut Violations,
    ) -> Result<(), NoMemory> {
        if let Some(x) = self.get(pair.first) {
            let fits = takes_logic(known.types, x.of);
            ask_operand(known, pair.first, fits, Rule::BadOperand, violations)?;
        }
        if let Some(y) = self.get(pair.second) {
            let fits = takes_logic(known.types, y.of);
            ask_operand(known, pair.second, fits, Rule::BadOperand, violations)?;
        }
        let (Some(x), Some(y)) = (self.get(pair.first), self.get(pair.second)) else {
            return Ok(());
        };
        let matched = match_types(known.types, x.of, y.of);
        let mismatch = Rule::BadOperand;
        let common = common_type(known, pair, x, y, matched, mismatch, violations)?;
        let Some(of) = common else {
            return Ok(());
        };
        let (Const::Truth(a), Const::Truth(b)) = (&x.value, &y.value) else {
            return Ok(());
        };
        let value = Const::Truth(fold_logic(op, *a, *b));
        self.put(pair.node, Value { of, value })
    }

    fn comparison(
        &mut self,
        known: Known<'_>,
        pair: Pair,
        op: CompareOp,
        violations: &mut Violations,
    ) -> Result<(), NoMemory> {
        let (Some(x), Some(y)) = (self.get(pair.first), self.get(pair.second)) else {
            return Ok(());
        };
        let matched = match_compared(known.types, x.of, y.of);
        let mismatch = Rule::NotComparable;
        let common = common_type(known, pair, x, y, matched, mismatch, violations)?;
        let Some(of) = common else {
            return Ok(());
        };
        if !takes_comparison(known.types, op, of) {
            return violations.push(known.nodes, pair.node, Rule::NotComparable);
        }
        let value = Const::Truth(fold_compare(op, &x.value, &y.value));
        let of = basic(Basic::UntypedBool);
        self.put(pair.node, Value { of, value })
    }

    fn shift(
        &mut self,
        known: Known<'_>,
        pair: Pair,
        left: bool,
        violations: &mut Violations,
    ) -> Result<(), NoMemory> {
        if let Some(x) = self.get(pair.first) {
            let fits = takes_shift(known.types, x.of);
            ask_operand(known, pair.first, fits, Rule::BadShift, violations)?;
        }
        if let Some(y) = self.get(pair.second) {
            let fits = takes_shift(known.types, y.of) && !is_negative(&y.value);
            let counts = ask_operand(known, pair.second, fits, Rule::BadShift, violations)?;
            if counts && !represent(known.types, &y.value, basic(Basic::Uint)) {
                violations.push(known.nodes, pair.second, Rule::ConstantOutOfRange)?;
            }
        }
        let (Some(x), Some(y)) = (self.get(pair.first), self.get(pair.second)) else {
            return Ok(());
        };
        let (Some(a), Some(count)) = (number_of(&x.value), number_of(&y.value)) else {
            return Ok(());
        };
        if !represent(known.types, &y.value, basic(Basic::Uint)) {
            return Ok(());
        }
        let of = x.of;
        match fold_shift(known.types, left, a, count, of) {
            Ok(value) => self.put(pair.node, Value { of, value }),
            Err(breach) => breach_at(known, pair, breach, violations),
        }
    }
}

fn is_negative(value: &Const) -> bool {
    match number_of(value) {
        Some(number) => number < 0,
        None => false,
    }
}

fn number_of(value: &Const) -> Option<i128> {
    match value {
        Const::Int(number) | Const::Rune(number) => Some(*number),
        Const::Text(_) | Const::Truth(_) => None,
    }
}

/// A rule that an operation breaks at a part of it.
fn breach_at(
    known: Known<'_>,
    pair: Pair,
    breach: Breach,
    violations: &mut Violations,
) -> Result<(), NoMemory> {
    let node = match breach.part {
        Part::Whole => pair.node,
        Part::First => pair.first,
        Part::Second => pair.second,
    };
    violations.push(known.nodes, node, breach.rule)
}

impl Values {
    fn conversion(
        &mut self,
        known: Known<'_>,
        node: usize,
        to: usize,
        arguments: &Arguments,
        violations: &mut Violations,
    ) -> Result<(), NoMemory> {
        self.ask_dots(known, node, arguments, violations)?;
        let Some(of) = constant_type(known.types, known.facts, known.denoting.denoted(to)) else {
            return Ok(());
        };
        let (Some(operand), 1) = (arguments.values.as_slice().first(), arguments.values.len())
        else {
            return Ok(());
        };
        let Some(x) = self.get(*operand) else {
            return Ok(());
        };
        match converted(self.alloc, known.types, &x.value, of)? {
            Conversion::Value(value) => {
                if arguments.dots.is_some() {
                    return Ok(());
                }
                self.put(node, Value { of, value })
            }
            Conversion::OutOfRange => {
                violations.push(known.nodes, *operand, Rule::ConstantOutOfRange)
            }
            Conversion::Bad => violations.push(known.nodes, node, Rule::BadConversion),
        }
    }

    /// Conversions and these functions take no `...`.
    fn ask_dots(
        &self,
        known: Known<'_>,
        node: usize,
        arguments: &Arguments,
        violations: &mut Violations,
    ) -> Result<(), NoMemory> {
        let Some(dots) = arguments.dots else {
            return Ok(());
        };
        if self.have_values(arguments.values.as_slice()) {
            violations.push_at(known.nodes, node, dots, Rule::BadUseOfDots)?;
        }
        Ok(())
    }

    fn have_values(&self, nodes: &[usize]) -> bool {
        for node in nodes {
            if self.place(*node).is_none() {
                return false;
            }
        }
        true
    }

    fn fold(
        &mut self,
        known: Known<'_>,
        node: usize,
        by: Folded,
        arguments: &Arguments,
        violations: &mut Violations,
    ) -> Result<(), NoMemory> {
        self.ask_dots(known, node, arguments, violations)?;
        match by {
            Folded::Length => self.length(known, node, arguments, violations),
            Folded::Least => self.extreme(known, node, CompareOp::Less, arguments, violations),
            Folded::Greatest => {
                self.extreme(known, node, CompareOp::Greater, arguments, violations)
            }
        }
    }

    fn length(
        &mut self,
        known: Known<'_>,
        node: usize,
        arguments: &Arguments,
        violations: &mut Violations,
    ) -> Result<(), NoMemory> {
        for operand in arguments.values.as_slice() {
            self.ask_text(known, *operand, violations)?;
        }
        let (Some(operand), 1) = (arguments.values.as_slice().first(), arguments.values.len())
        else {
            return Ok(());
        };
        let Some(x) = self.get(*operand) else {
            return Ok(());
        };
        let Const::Text(bytes) = &x.value else {
            return Ok(());
        };
        if arguments.dots.is_some() {
            return Ok(());
        }
        let value = Const::Int(bytes.len() as i128);
        let of = basic(Basic::Int);
        self.put(node, Value { of, value })
    }

    fn ask_text(
        &self,
        known: Known<'_>,
        operand: usize,
        violations: &mut Violations,
    ) -> Result<(), NoMemory> {
        if let Some(x) = self.get(operand) {
            if !matches!(&x.value, Const::Text(_)) {
                violations.push(known.nodes, operand, Rule::BadBuiltInCall)?;
            }
        }
        Ok(())
    }

    /// The least or the greatest of constants.
    fn extreme(
        &mut self,
        known: Known<'_>,
        node: usize,
        op: CompareOp,
        arguments: &Arguments,
        violations: &mut Violations,
    ) -> Result<(), NoMemory> {
        let mut best: Option<Best> = None;
        let mut sound = arguments.dots.is_none() && !arguments.values.is_empty();
        for operand in arguments.values.as_slice() {
            let taken = self.ask_ordered(known, *operand, violations)?;
            if !taken {
                sound = false;
            } else if sound {
                match self.better(known, op, best, *operand, violations)? {
                    Some(next) => best = Some(next),
                    None => sound = false,
                }
            }
        }
        let Some(best) = best else {
            return Ok(());
        };
        if !sound || !self.fits_all(known, arguments, best.of, violations)? {
            return Ok(());
        }
        let Some(x) = self.get(best.node) else {
            return Ok(());
        };
        let value = x.value.copy(self.alloc)?;
        match as_constant(known.types, value, best.of) {
            Ok(value) => self.put(node, Value { of: best.of, value }),
            Err(breach) => violations.push(known.nodes, node, breach.rule),
        }
    }

    /// Whether an operand has a value that `min` and `max` take.
    fn ask_ordered(
        &self,
        known: Known<'_>,
        operand: usize,
        violations: &mut Violations,
    ) -> Result<bool, NoMemory> {
        let Some(x) = self.get(operand) else {
            return Ok(false);
        };
        let fits = takes_comparison(known.types, CompareOp::Less, x.of);
        ask_operand(known, operand, fits, Rule::BadBuiltInCall, violations)
    }

    /// The better of the best operand so far and one more; None where they do not go together.
    fn better(
        &self,
        known: Known<'_>,
        op: CompareOp,
        best: Option<Best>,
        operand: usize,
        violations: &mut Violations,
    ) -> Result<Option<Best>, NoMemory> {
        let Some(y) = self.get(operand) else {
            return Ok(None);
        };
        let Some(best) = best else {
            return Ok(Some(Best {
                node: operand,
                of: y.of,
            }));
        };
        let Some(x) = self.get(best.node) else {
            return Ok(None);
        };
        let of = match match_types(known.types, best.of, y.of) {
            Some(Matched::Typed) if best.of == y.of => best.of,
            Some(Matched::Untyped(kind)) => kind.type_id(),
            Some(Matched::FirstConverted) => y.of,
            Some(Matched::SecondConverted) => best.of,
            _ => {
                violations.push(known.nodes, operand, Rule::BadBuiltInCall)?;
                return Ok(None);
            }
        };
        let node = if fold_compare(op, &y.value, &x.value) {
            operand
        } else {
            best.node
        };
        Ok(Some(Best { node, of }))
    }

    /// Whether each untyped operand fits the type of the result.
    fn fits_all(
        &self,
        known: Known<'_>,
        arguments: &Arguments,
        of: TypeId,
        violations: &mut Violations,
    ) -> Result<bool, NoMemory> {
        let mut fits = true;
        for operand in arguments.values.as_slice() {
            if let Some(x) = self.get(*operand) {
                fits &= ask_fit(known, *operand, &x.value, of, violations)?;
            }
        }
        Ok(fits)
    }

    fn init(
        &mut self,
        known: Known<'_>,
        node: usize,
        value: usize,
        form: Option<usize>,
        violations: &mut Violations,
    ) -> Result<(), NoMemory> {
        let Some(form) = form else {
            self.share(node, value);
            return Ok(());
        };
        let Some(of) = constant_type(known.types, known.facts, known.denoting.denoted(form)) else {
            if known.denoting.under(form).is_some() {
                violations.push(known.nodes, node, Rule::NotAConstant)?;
            }
            return Ok(());
        };
        let Some(x) = self.get(value) else {
            return Ok(());
        };
        if x.of == of {
            self.share(node, value);
            return Ok(());
        }
        let fits = match untyped_kind(known.types, x.of) {
            Some(kind) => kind_fits(known.types, kind, of),
            None => false,
        };
        if !fits {
            return violations.push(known.nodes, node, Rule::NotAssignable);
        }
        let value = x.value.copy(self.alloc)?;
        match as_constant(known.types, value, of) {
            Ok(value) => self.put(node, Value { of, value }),
            Err(breach) => violations.push(known.nodes, node, breach.rule),
        }
    }
}

/// The best of some operands, and the type that they have together.
#[derive(Clone, Copy)]
struct Best {
    node: usize,
    of: TypeId,
}

/// What a conversion of a constant gives.
#[derive(Drop)]
enum Conversion {
    Value(Const),
    OutOfRange,
    Bad,
}

/// A constant converted to a type that has constants.
fn converted(
    alloc: Global,
    types: &Types,
    value: &Const,
    to: TypeId,
) -> Result<Conversion, NoMemory> {
    let is_integer = int_kind(types, to).is_some();
    match value {
        Const::Int(number) | Const::Rune(number) => {
            if is_integer {
                return Ok(made(as_constant(types, value.copy(alloc)?, to)));
            }
            if is_basic(types, to, Basic::Text) {
                let text = text_of_rune(alloc, *number)?;
                return Ok(Conversion::Value(Const::Text(text)));
            }
            Ok(Conversion::Bad)
        }
        Const::Text(_) | Const::Truth(_) => {
            if !represent(types, value, to) {
                return Ok(Conversion::Bad);
            }
            Ok(Conversion::Value(value.copy(alloc)?))
        }
    }
}

fn made(value: Result<Const, Breach>) -> Conversion {
    match value {
        Ok(value) => Conversion::Value(value),
        Err(_) => Conversion::OutOfRange,
    }
}

/// The length of an array, where its node has a value that is one.
pub fn length_at(values: &Values, node: usize) -> Option<u64> {
    let number = number_of(&values.get(node)?.value)?;
    if number < 0 || number > 0x7fff_ffff_ffff_ffff {
        return None;
    }
    Some(number as u64)
}
