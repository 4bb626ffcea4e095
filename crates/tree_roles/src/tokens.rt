//! Kinds of tokens, and what holds no tree.

ghost use Rattle.std.specs.Prelude.{◌≡◌};
ghost use Rattle.go_grammar.specs.Grammar as kinds;
ghost use Rattle.tree_roles.specs.Tokens as roles;

use go_ast::{Kind, Token};
use go_syntax::{Binding, Label, ListedName, NamedType};

/// Whether a token is of this kind.
pub fn is(token: Token, kind: Kind) -> bool
    ensures { result ≡ roles.is_kind kind token }
{
    token.kind == kind
}

/// Whether a token is left out, or of this kind.
pub fn is_if(token: Option<Token>, kind: Kind) -> bool
    ensures { result ≡ roles.is_if kind token }
{
    match token {
        Some(token) => token.kind == kind,
        None => true,
    }
}

pub fn are_parens(open: Token, close: Token) -> bool
    ensures { result ≡ roles.parens «open» close }
{
    is(open, Kind::OpenParen) && is(close, Kind::CloseParen)
}

pub fn are_brackets(open: Token, close: Token) -> bool
    ensures { result ≡ roles.brackets «open» close }
{
    is(open, Kind::OpenBracket) && is(close, Kind::CloseBracket)
}

pub fn are_braces(open: Token, close: Token) -> bool
    ensures { result ≡ roles.braces «open» close }
{
    is(open, Kind::OpenBrace) && is(close, Kind::CloseBrace)
}

/// Whether these are `[`, `:` and `]`.
#[tactic(auto, unfolding(crate::specs::Tokens::slice_marks))]
pub fn are_slice_marks(open: Token, colon: Token, close: Token) -> bool
    ensures { result ≡ roles.slice_marks «open» colon close }
{
    are_brackets(open, close) && is(colon, Kind::Colon)
}

/// Whether these are `[`, `:`, `:` and `]`.
#[tactic(auto, unfolding(crate::specs::Tokens::full_slice_marks))]
pub fn are_full_slice_marks(open: Token, first: Token, second: Token, close: Token) -> bool
    ensures { result ≡ roles.full_slice_marks «open» first second close }
{
    are_brackets(open, close) && is(first, Kind::Colon) && is(second, Kind::Colon)
}

/// Whether these are `(` and `)`, with `...` and a comma between them where there are any.
#[tactic(auto, unfolding(crate::specs::Tokens::call_marks))]
pub fn are_call_marks(
    open: Token,
    ellipsis: Option<Token>,
    comma: Option<Token>,
    close: Token,
) -> bool
    ensures { result ≡ roles.call_marks «open» ellipsis comma close }
{
    are_parens(open, close) && is_if(ellipsis, Kind::Ellipsis) && is_if(comma, Kind::Comma)
}

/// Whether this is a semicolon, written or put in at the end of a line.
pub fn is_semicolon(token: Token) -> bool
    ensures { result ≡ kinds.is_semicolon token.kind }
{
    matches!(token.kind, Kind::Semicolon | Kind::Inserted)
}

/// Whether a semicolon is left out, or one.
pub fn is_semicolon_if(token: Option<Token>) -> bool
    ensures { result ≡ roles.passes_if kinds.is_semicolon token }
{
    match token {
        Some(token) => is_semicolon(token),
        None => true,
    }
}

/// Whether this is an operator before an operand.
pub fn is_sign(token: Token) -> bool
    ensures { result ≡ kinds.is_sign token.kind }
{
    matches!(
        token.kind,
        Kind::Plus
            | Kind::Minus
            | Kind::Not
            | Kind::Caret
            | Kind::Star
            | Kind::Ampersand
            | Kind::Arrow
    )
}

/// Whether this is an operator between operands.
pub fn is_binary(token: Token) -> bool
    ensures { result ≡ roles.is_binary token.kind }
{
    matches!(
        token.kind,
        Kind::OrOr
            | Kind::AndAnd
            | Kind::Equal
            | Kind::NotEqual
            | Kind::Less
            | Kind::LessEqual
            | Kind::Greater
            | Kind::GreaterEqual
            | Kind::Plus
            | Kind::Minus
            | Kind::Pipe
            | Kind::Caret
            | Kind::Star
            | Kind::Slash
            | Kind::Percent
            | Kind::ShiftLeft
            | Kind::ShiftRight
            | Kind::Ampersand
            | Kind::AndNot
    )
}

/// Whether this is `++` or `--`.
pub fn is_step(token: Token) -> bool
    ensures { result ≡ kinds.is_step token.kind }
{
    matches!(token.kind, Kind::Increment | Kind::Decrement)
}

/// Whether this is `=`, or an operator such as `+=`.
pub fn is_assign(token: Token) -> bool
    ensures { result ≡ kinds.is_assign token.kind }
{
    matches!(
        token.kind,
        Kind::Assign
            | Kind::PlusAssign
            | Kind::MinusAssign
            | Kind::StarAssign
            | Kind::SlashAssign
            | Kind::PercentAssign
            | Kind::AmpersandAssign
            | Kind::PipeAssign
            | Kind::CaretAssign
            | Kind::ShiftLeftAssign
            | Kind::ShiftRightAssign
            | Kind::AndNotAssign
    )
}

/// Whether the operator before `range` is left out, or `=` or `:=`.
pub fn is_range_operator_if(token: Option<Token>) -> bool
    ensures { result ≡ roles.passes_if roles.is_range_operator token }
{
    match token {
        Some(token) => is(token, Kind::Assign) || is(token, Kind::Define),
        None => true,
    }
}

/// Whether this is `case` or `default`.
pub fn begins_clause(token: Token) -> bool
    ensures { result ≡ roles.begins_clause token.kind }
{
    is(token, Kind::CaseWord) || is(token, Kind::DefaultWord)
}

/// Whether these are `.(type)`.
pub fn is_guard(dot: Token, open: Token, word: Token, close: Token) -> bool
    ensures { result ≡ roles.is_guard dot «open» word close }
{
    is(dot, Kind::Dot) && are_parens(open, close) && is(word, Kind::TypeWord)
}

/// Whether a comma stands behind an item exactly where another follows.
pub fn is_between(comma: Option<Token>, more: bool) -> bool
    ensures { result ≡ roles.between comma more }
{
    match comma {
        Some(comma) => more && is(comma, Kind::Comma),
        None => !more,
    }
}

/// Whether a comma stands behind an item; it may be left out behind the last.
pub fn ends_item(comma: Option<Token>, more: bool) -> bool
    ensures { result ≡ roles.ends roles.is_comma comma more }
{
    match comma {
        Some(comma) => is(comma, Kind::Comma),
        None => !more,
    }
}

/// Whether a semicolon stands behind a line; it may be left out behind the last.
pub fn ends_line(semicolon: Option<Token>, more: bool) -> bool
    ensures { result ≡ roles.ends kinds.is_semicolon semicolon more }
{
    match semicolon {
        Some(semicolon) => is_semicolon(semicolon),
        None => !more,
    }
}

/// Whether a name of a type is written with names, and a dot between them.
pub fn is_named(name: NamedType) -> bool
    ensures { result ≡ roles.is_named name }
{
    match name {
        NamedType::Local(name) => is(name, Kind::Name),
        NamedType::Imported { package, dot, name } => {
            is(package, Kind::Name) && is(dot, Kind::Dot) && is(name, Kind::Name)
        }
    }
}

/// Whether these are names with commas between them.
pub fn are_names(names: &[ListedName]) -> bool
    ensures { result ≡ roles.are_names names.now }
{
    let mut rest = names;
    while let [first, after @ ..] = rest {
        if !is(first.name, Kind::Name) || !is_between(first.comma, !after.is_empty()) {
            return false;
        }
        rest = after;
    }
    true
}

/// Whether these are names with a colon behind each.
pub fn are_labels(labels: &[Label]) -> bool
    ensures { result ≡ roles.are_labels labels.now }
{
    for label in labels {
        if !is(label.name, Kind::Name) || !is(label.colon, Kind::Colon) {
            return false;
        }
    }
    true
}

/// Whether a binding is left out, or a name and `:=`.
pub fn is_binding_if(binding: Option<Binding>) -> bool
    ensures { result ≡ roles.is_binding_if binding }
{
    match binding {
        Some(binding) => is(binding.name, Kind::Name) && is(binding.define, Kind::Define),
        None => true,
    }
}
