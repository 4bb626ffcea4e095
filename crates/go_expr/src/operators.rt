//! Operators as they are written.

use crate::joining::given_up;
use go_ast::{Kind, Token};
use go_base::NoMemory;
use go_rules::LogicOp;
use go_scope::Scope;
use go_type::{BinaryOp, CompareOp};
use typed_operators::{
    SignOp, address_of, binary_expression, comparison, indirection, logical, negation, receive,
    sign,
};
use typed_parts::Seen;

/// An operator on two operands.
#[derive(Clone, Copy)]
enum Infix {
    Binary(BinaryOp),
    Logic(LogicOp),
    Compare(CompareOp),
}

fn infix_of(kind: Kind) -> Option<Infix> {
    match binary_op(kind) {
        Some(op) => Some(Infix::Binary(op)),
        None => match kind {
            Kind::AndAnd => Some(Infix::Logic(LogicOp::And)),
            Kind::OrOr => Some(Infix::Logic(LogicOp::Or)),
            _ => match compare_op(kind) {
                Some(op) => Some(Infix::Compare(op)),
                None => None,
            },
        },
    }
}

/// The operator of arithmetic or the shift that a token is, or that it is with `=` behind it.
pub fn binary_op(kind: Kind) -> Option<BinaryOp> {
    match kind {
        Kind::Plus | Kind::PlusAssign => Some(BinaryOp::Add),
        Kind::Minus | Kind::MinusAssign => Some(BinaryOp::Sub),
        Kind::Star | Kind::StarAssign => Some(BinaryOp::Mul),
        Kind::Slash | Kind::SlashAssign => Some(BinaryOp::Div),
        Kind::Percent | Kind::PercentAssign => Some(BinaryOp::Rem),
        Kind::Ampersand | Kind::AmpersandAssign => Some(BinaryOp::And),
        Kind::Pipe | Kind::PipeAssign => Some(BinaryOp::Or),
        Kind::Caret | Kind::CaretAssign => Some(BinaryOp::Xor),
        Kind::AndNot | Kind::AndNotAssign => Some(BinaryOp::AndNot),
        Kind::ShiftLeft | Kind::ShiftLeftAssign => Some(BinaryOp::ShiftLeft),
        Kind::ShiftRight | Kind::ShiftRightAssign => Some(BinaryOp::ShiftRight),
        _ => None,
    }
}

fn compare_op(kind: Kind) -> Option<CompareOp> {
    match kind {
        Kind::Equal => Some(CompareOp::Equal),
        Kind::NotEqual => Some(CompareOp::NotEqual),
        Kind::Less => Some(CompareOp::Less),
        Kind::LessEqual => Some(CompareOp::LessEqual),
        Kind::Greater => Some(CompareOp::Greater),
        Kind::GreaterEqual => Some(CompareOp::GreaterEqual),
        _ => None,
    }
}

/// An operator between two operands.
pub(crate) fn binary(
    scope: &mut Scope,
    operator: Token,
    x: Seen,
    y: Seen,
) -> Result<Seen, NoMemory> {
    let at = x.at;
    let ground = scope.ground();
    let expr = match infix_of(operator.kind) {
        Some(Infix::Binary(op)) => binary_expression(ground, op, x, y),
        Some(Infix::Logic(op)) => logical(ground, op, x, y),
        Some(Infix::Compare(op)) => comparison(ground, op, x, y),
        None => given_up((x, y)),
    };
    Ok(Seen::value(at, expr?))
}

/// An operator before an operand.
pub(crate) fn unary(scope: &mut Scope, operator: Token, x: Seen) -> Result<Seen, NoMemory> {
    let at = scope.pos(operator.start);
    let ground = scope.ground();
    let expr = match operator.kind {
        Kind::Plus => sign(ground, at, SignOp::Plus, x),
        Kind::Minus => sign(ground, at, SignOp::Minus, x),
        Kind::Caret => sign(ground, at, SignOp::Complement, x),
        Kind::Not => negation(ground, at, x),
        Kind::Star => return indirection(ground, at, x),
        Kind::Ampersand => address_of(ground, at, x),
        Kind::Arrow => receive(ground, at, x),
        _ => given_up(x),
    };
    Ok(Seen::value(at, expr?))
}
