//! Readers of what holds no tree: each gives what it read, and the tokens behind.

ghost use Rattle.std.specs.Prelude.{◌≡◌, ◌+◌, ◌≤◌, ◌||◌, IfSome, Some};
ghost use Rattle.std.specs.Option.{is_some};
ghost use Rattle.go_ast.specs.declared.token.Kind.TheVariants.{Arrow, CloseBrace, Comma, Name};
ghost use Rattle.go_grammar.specs.Forests.{append};
ghost use Rattle.go_grammar.specs.Grammar as sorts;
ghost use Rattle.go_grammar.specs.Grammar.{begins_type, is_semicolon, is_step};
ghost use Rattle.go_grammar.specs.Reading.{is_next, sign_in, then_in};
ghost use Rattle.go_grammar.specs.Tests.{begins, begins_both, begins_semicolon, begins_type_at, goes_on, word_in};
ghost use Rattle.go_grammar.specs.TypeReading.{begins_bare, optional_in, separator_in, type_name_in};
ghost use Rattle.go_grammar.specs.ExprReading.{operator_at};
ghost use Rattle.go_grammar.specs.StmtReading.{begins_range, is_range_assign};
ghost use Rattle.go_grammar.specs.View.{one, token_if, each, view_listed_name, view_named};
ghost use Rattle.go_fragments.specs.Giving.{Gives, Reads};
ghost use Rattle.go_fragments.specs.Words.{maybe_in, line_end_in, comma_in, names_in, begins_sign};

use crate::stop::Stop;
use go_ast::{Kind, Token};
use go_syntax::{Label, ListedName, NamedType};
use std::alloc::Global;

/// Whether the first token is of this kind.
pub fn begins_with(tokens: &[Token], kind: Kind) -> bool
    ensures { result ≡ begins kind tokens.now }
{
    match tokens {
        [] => false,
        [first, ..] => first.kind == kind,
    }
}

/// Whether the first two tokens are of these kinds.
pub fn begins_with_both(tokens: &[Token], kind: Kind, second_kind: Kind) -> bool
    ensures { result ≡ begins_both kind second_kind tokens.now }
{
    match tokens {
        [] => false,
        [first, rest @ ..] => first.kind == kind && begins_with(rest, second_kind),
    }
}

/// A token of this kind.
pub fn skip(tokens: &[Token], kind: Kind) -> Option<(Token, &[Token])>
    ensures { Reads (λ x. (one x.0, x.1.now)) result (word_in kind tokens.now) }
{
    next_if(tokens, kind)
}

/// A token of this kind, where one stands here.
pub fn next_if(tokens: &[Token], kind: Kind) -> Option<(Token, &[Token])>
    ensures read { Reads (λ x. (one x.0, x.1.now)) result (word_in kind tokens.now) }
    ensures found { begins kind tokens.now ≡ is_some result }
{
    match tokens {
        [first, rest @ ..] if first.kind == kind => Some((*first, rest)),
        _ => None,
    }
}

/// A semicolon, where one stands here, written or put in at the end of a line.
pub fn semicolon_if(tokens: &[Token]) -> Option<(Token, &[Token])>
    ensures read { Reads (λ x. (one x.0, x.1.now)) result (sign_in is_semicolon tokens.now) }
    ensures found { begins_semicolon tokens.now ≡ is_some result }
{
    match tokens {
        [first, rest @ ..] if is_semicolon(first.kind) => Some((*first, rest)),
        _ => None,
    }
}

/// A token of this kind, or nothing.
pub fn optional(tokens: &[Token], kind: Kind) -> (Option<Token>, &[Token])
    ensures read { maybe_in kind tokens.now ≡ Some (token_if result.0, result.1.now) }
    ensures same { optional_in kind tokens.now ≡ (result.0, result.1.now) }
    ensures found { begins kind tokens.now ≡ is_some result.0 }
{
    match tokens {
        [first, rest @ ..] if first.kind == kind => (Some(*first), rest),
        _ => (None, tokens),
    }
}

/// The arrow of a channel that is only sent to: it belongs to the leftmost `chan`.
pub fn direction(tokens: &[Token]) -> (Option<Token>, &[Token])
    ensures read { maybe_in Arrow tokens.now ≡ Some (token_if result.0, result.1.now) }
    ensures same { optional_in Arrow tokens.now ≡ (result.0, result.1.now) }
    ensures found { begins Arrow tokens.now ≡ is_some result.0 }
{
    optional(tokens, Kind::Arrow)
}

/// Whether this is a semicolon, written or put in at the end of a line.
fn is_semicolon(kind: Kind) -> bool
    ensures { result ≡ sorts.is_semicolon kind }
{
    matches!(kind, Kind::Semicolon | Kind::Inserted)
}

/// Whether the first token is a semicolon, written or put in at the end of a line.
pub fn begins_with_semicolon(tokens: &[Token]) -> bool
    ensures { result ≡ begins_semicolon tokens.now }
{
    match tokens {
        [] => false,
        [first, ..] => is_semicolon(first.kind),
    }
}

/// A semicolon, written or put in at the end of a line.
pub fn semicolon(tokens: &[Token]) -> Option<(Token, &[Token])>
    ensures { Reads (λ x. (one x.0, x.1.now)) result (sign_in is_semicolon tokens.now) }
{
    semicolon_if(tokens)
}

/// Whether a statement ends here: before a semicolon or a closing brace.
pub fn ends_statement(tokens: &[Token]) -> bool
    ensures { result ≡ (begins_semicolon tokens.now || begins CloseBrace tokens.now) }
{
    begins_with_semicolon(tokens) || begins_with(tokens, Kind::CloseBrace)
}

/// The semicolon behind a line, which may be left out before the end.
pub fn line_end(tokens: &[Token], end: Kind) -> Option<(Option<Token>, &[Token])>
    ensures { Reads (λ x. (token_if x.0, x.1.now)) result (line_end_in end tokens.now) }
{
    match tokens {
        [] => Some((None, tokens)),
        [first, rest @ ..] => {
            if is_semicolon(first.kind) {
                Some((Some(*first), rest))
            } else if first.kind == end {
                Some((None, tokens))
            } else {
                None
            }
        }
    }
}

/// The comma behind an item, which may be left out before the end.
pub fn separator(tokens: &[Token], end: Kind) -> Option<(Option<Token>, &[Token])>
    ensures same { Reads (λ x. (x.0, x.1.now)) result (separator_in end tokens.now) }
    ensures read { Reads (λ x. (token_if x.0, x.1.now)) result (comma_in end tokens.now) }
{
    match tokens {
        [] => None,
        [first, rest @ ..] => {
            if first.kind == end {
                Some((None, tokens))
            } else if first.kind == Kind::Comma {
                Some((Some(*first), rest))
            } else {
                None
            }
        }
    }
}

/// Whether a list goes on here. A comma before a closing parenthesis is none of the list's.
pub fn list_goes_on(tokens: &[Token]) -> bool
    ensures { result ≡ goes_on tokens.now }
{
    begins_with(tokens, Kind::Comma) && !begins_with_both(tokens, Kind::Comma, Kind::CloseParen)
}

/// Names with commas between them.
#[tactic(auto, using(crate::proofs::Loops::manies))]
pub fn names(alloc: Global, tokens: &[Token]) -> Result<(Vec<ListedName>, &[Token]), Stop>
    ensures { Gives (λ x. (each view_listed_name x.0.items, x.1.now)) result (names_in tokens.now) }
{
    let mut names = Vec::with_capacity(alloc, 1)?;
    let Some((mut name, mut rest)) = skip(tokens, Kind::Name) else {
        return Err(Stop::Unexpected);
    };
    for _ in 0..rest.len() {
        if !begins_with(rest, Kind::Comma) {
            names.push(ListedName { name, comma: None })?;
            return Ok((names, rest));
        }
        let Some((comma, next, after)) = next_name(rest) else {
            return Err(Stop::Unexpected);
        };
        let comma = Some(comma);
        names.push(ListedName { name, comma })?;
        name = next;
        rest = after;
    }
    names.push(ListedName { name, comma: None })?;
    Ok((names, rest))
}

/// A comma, and a name behind it.
fn next_name(tokens: &[Token]) -> Option<(Token, Token, &[Token])>
    ensures { Reads (λ x. (append (one x.0) (one x.1), x.2.now)) result (then_in (word_in Comma) (word_in Name) tokens.now) }
{
    let (comma, rest) = skip(tokens, Kind::Comma)?;
    let (name, rest) = skip(rest, Kind::Name)?;
    Some((comma, name, rest))
}

/// The name of a type. Go specification, "Qualified identifiers".
pub fn type_name(tokens: &[Token]) -> Option<(NamedType, &[Token])>
    ensures { Reads (λ x. (view_named x.0, x.1.now)) result (type_name_in tokens.now) }
{
    let (package, rest) = skip(tokens, Kind::Name)?;
    if !begins_with(rest, Kind::Dot) {
        return Some((NamedType::Local(package), rest));
    }
    let (dot, rest) = skip(rest, Kind::Dot)?;
    let (name, rest) = skip(rest, Kind::Name)?;
    Some((NamedType::Imported { package, dot, name }, rest))
}

/// Whether a type begins with a token of this kind.
fn is_front_of_type(kind: Kind) -> bool
    ensures { result ≡ begins_type kind }
{
    matches!(
        kind,
        Kind::Name
            | Kind::OpenParen
            | Kind::Star
            | Kind::OpenBracket
            | Kind::MapWord
            | Kind::ChanWord
            | Kind::Arrow
            | Kind::FuncWord
            | Kind::StructWord
            | Kind::InterfaceWord
    )
}

/// Whether a type begins here.
pub fn begins_with_type(tokens: &[Token]) -> bool
    ensures { result ≡ begins_type_at tokens.now }
{
    match tokens {
        [] => false,
        [first, ..] => is_front_of_type(first.kind),
    }
}

/// Whether a slice, array, map, struct or interface type begins here.
pub fn begins_with_bare_type(tokens: &[Token]) -> bool
    ensures { result ≡ is_next begins_bare tokens.now }
{
    match tokens {
        [] => false,
        [first, ..] => matches!(
            first.kind,
            Kind::OpenBracket | Kind::MapWord | Kind::StructWord | Kind::InterfaceWord
        ),
    }
}

/// How tightly a binary operator binds, from 1, and 0 for any other token. Go specification, "Operator precedence".
fn precedence(kind: Kind) -> u8
    ensures same { result ≡ sorts.precedence kind }
    ensures least { result ≤ 5 }
{
    match kind {
        Kind::Star
        | Kind::Slash
        | Kind::Percent
        | Kind::ShiftLeft
        | Kind::ShiftRight
        | Kind::Ampersand
        | Kind::AndNot => 5,
        Kind::Plus | Kind::Minus | Kind::Pipe | Kind::Caret => 4,
        Kind::Equal
        | Kind::NotEqual
        | Kind::Less
        | Kind::LessEqual
        | Kind::Greater
        | Kind::GreaterEqual => 3,
        Kind::AndAnd => 2,
        Kind::OrOr => 1,
        _ => 0,
    }
}

/// How tightly an operator in the right operand must bind: binary operators associate to the left.
pub fn tighter_than(operator: Token) -> u8
    ensures { result ≡ sorts.precedence operator.kind + 1 }
{
    precedence(operator.kind) + 1
}

/// A binary operator that binds at least so tightly.
pub fn operator(min: u8, tokens: &[Token]) -> Option<(Token, &[Token])>
    ensures { Reads (λ x. (x.0, x.1.now)) result (operator_at min tokens.now) }
{
    match tokens {
        [first, rest @ ..] if 0 < precedence(first.kind) && min <= precedence(first.kind) => {
            Some((*first, rest))
        }
        _ => None,
    }
}

/// Whether this is an operator that may stand before an operand.
fn is_sign(kind: Kind) -> bool
    ensures { result ≡ sorts.is_sign kind }
{
    matches!(
        kind,
        Kind::Plus
            | Kind::Minus
            | Kind::Not
            | Kind::Caret
            | Kind::Star
            | Kind::Ampersand
            | Kind::Arrow
    )
}

/// Whether a sign stands before an operand. Before `chan`, `<-` is the front of a type.
pub fn begins_with_sign(tokens: &[Token]) -> bool
    ensures { result ≡ begins_sign tokens.now }
{
    match tokens {
        [] => false,
        [first, rest @ ..] => match first.kind {
            Kind::Arrow => !begins_with(rest, Kind::ChanWord),
            kind => is_sign(kind),
        },
    }
}

/// Whether this is `=`, or an operator such as `+=`.
fn is_assign(kind: Kind) -> bool
    ensures { result ≡ sorts.is_assign kind }
{
    matches!(
        kind,
        Kind::Assign
            | Kind::PlusAssign
            | Kind::MinusAssign
            | Kind::StarAssign
            | Kind::SlashAssign
            | Kind::PercentAssign
            | Kind::AmpersandAssign
            | Kind::PipeAssign
            | Kind::CaretAssign
            | Kind::ShiftLeftAssign
            | Kind::ShiftRightAssign
            | Kind::AndNotAssign
    )
}

/// The operator of an assignment.
pub fn assignment(tokens: &[Token]) -> Option<(Token, &[Token])>
    ensures read { Reads (λ x. (one x.0, x.1.now)) result (sign_in sorts.is_assign tokens.now) }
    ensures found { is_next sorts.is_assign tokens.now ≡ is_some result }
{
    match tokens {
        [first, rest @ ..] if is_assign(first.kind) => Some((*first, rest)),
        _ => None,
    }
}

/// `=` or `:=` before `range`.
pub fn range_assignment(tokens: &[Token]) -> Option<(Token, &[Token])>
    ensures read { IfSome result (λ x. sign_in is_range_assign tokens.now ≡ Some (one x.0, x.1.now)) }
    ensures found { begins_range tokens.now ≡ is_some result }
{
    match tokens {
        [first, rest @ ..]
            if matches!(first.kind, Kind::Assign | Kind::Define)
                && begins_with(rest, Kind::RangeWord) => { Some((*first, rest)) }
        _ => None,
    }
}

/// `++` or `--`.
pub fn step(tokens: &[Token]) -> Option<(Token, &[Token])>
    ensures read { Reads (λ x. (one x.0, x.1.now)) result (sign_in is_step tokens.now) }
    ensures found { is_next is_step tokens.now ≡ is_some result }
{
    match tokens {
        [first, rest @ ..] if matches!(first.kind, Kind::Increment | Kind::Decrement) => {
            Some((*first, rest))
        }
        _ => None,
    }
}
