//! Operators and punctuation. Go specification, "Operators and punctuation".

ghost use Rattle.std.specs.Prelude.{◌≡◌};
ghost use Rattle.go_ast.specs.Marks.{mark_of_one, mark_of_two, mark_of_three, mark_kind};
ghost use Rattle.go_ast.specs.Literals.{first, second};
ghost use Rattle.go_scan.specs.Reach.{third, mark_length};

use go_ast::Kind;

/// The first byte of a text, or 0.
pub fn first(text: &[u8]) -> u8
    ensures { result ≡ first text.now }
{
    text.first().copied().unwrap_or(0)
}

/// The second byte of a text, or 0.
pub fn second(text: &[u8]) -> u8
    ensures { result ≡ second text.now }
{
    text.get(1).copied().unwrap_or(0)
}

/// The third byte of a text, or 0.
pub fn third(text: &[u8]) -> u8
    ensures { result ≡ third text.now }
{
    text.get(2).copied().unwrap_or(0)
}

/// The mark of one byte, where it is one.
pub fn mark_of_one(a: u8) -> Option<Kind>
    ensures { result ≡ mark_of_one a }
{
    let kind = match a {
        b'+' => Kind::Plus,
        b'-' => Kind::Minus,
        b'*' => Kind::Star,
        b'/' => Kind::Slash,
        b'%' => Kind::Percent,
        b'&' => Kind::Ampersand,
        b'|' => Kind::Pipe,
        b'^' => Kind::Caret,
        b'<' => Kind::Less,
        b'>' => Kind::Greater,
        b'=' => Kind::Assign,
        b'!' => Kind::Not,
        b'(' => Kind::OpenParen,
        b')' => Kind::CloseParen,
        b'[' => Kind::OpenBracket,
        b']' => Kind::CloseBracket,
        b'{' => Kind::OpenBrace,
        b'}' => Kind::CloseBrace,
        b',' => Kind::Comma,
        b';' => Kind::Semicolon,
        b'.' => Kind::Dot,
        b':' => Kind::Colon,
        _ => return None,
    };
    Some(kind)
}

/// The mark of two bytes, where they are one.
pub fn mark_of_two(a: u8, b: u8) -> Option<Kind>
    ensures { result ≡ mark_of_two a b }
{
    let kind = match (a, b) {
        (b'<', b'<') => Kind::ShiftLeft,
        (b'>', b'>') => Kind::ShiftRight,
        (b'&', b'^') => Kind::AndNot,
        (b'+', b'=') => Kind::PlusAssign,
        (b'-', b'=') => Kind::MinusAssign,
        (b'*', b'=') => Kind::StarAssign,
        (b'/', b'=') => Kind::SlashAssign,
        (b'%', b'=') => Kind::PercentAssign,
        (b'&', b'=') => Kind::AmpersandAssign,
        (b'|', b'=') => Kind::PipeAssign,
        (b'^', b'=') => Kind::CaretAssign,
        (b'&', b'&') => Kind::AndAnd,
        (b'|', b'|') => Kind::OrOr,
        (b'<', b'-') => Kind::Arrow,
        (b'+', b'+') => Kind::Increment,
        (b'-', b'-') => Kind::Decrement,
        (b'=', b'=') => Kind::Equal,
        (b'!', b'=') => Kind::NotEqual,
        (b'<', b'=') => Kind::LessEqual,
        (b'>', b'=') => Kind::GreaterEqual,
        (b':', b'=') => Kind::Define,
        _ => return None,
    };
    Some(kind)
}

/// The mark of three bytes, where they are one.
pub fn mark_of_three(a: u8, b: u8, c: u8) -> Option<Kind>
    ensures { result ≡ mark_of_three a b c }
{
    let kind = match (a, b, c) {
        (b'<', b'<', b'=') => Kind::ShiftLeftAssign,
        (b'>', b'>', b'=') => Kind::ShiftRightAssign,
        (b'&', b'^', b'=') => Kind::AndNotAssign,
        (b'.', b'.', b'.') => Kind::Ellipsis,
        _ => return None,
    };
    Some(kind)
}

/// The bytes of the longest mark at the head of a text, or 0.
pub fn mark_length(text: &[u8]) -> usize
    ensures { result ≡ mark_length text.now }
{
    let (a, b, c) = (first(text), second(text), third(text));
    if mark_of_three(a, b, c).is_some() {
        3
    } else if mark_of_two(a, b).is_some() {
        2
    } else if mark_of_one(a).is_some() {
        1
    } else {
        0
    }
}

/// The mark that a text is.
pub fn mark_kind(text: &[u8]) -> Option<Kind>
    ensures { result ≡ mark_kind text.now }
{
    match text {
        [a] => mark_of_one(*a),
        [a, b] => mark_of_two(*a, *b),
        [a, b, c] => mark_of_three(*a, *b, *c),
        _ => None,
    }
}
