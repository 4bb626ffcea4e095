//! Tokens. Go specification, "Tokens".

/// What a token is: a keyword (named by its word), a mark, a name, a literal, or a semicolon that was put in at the
/// end of a line.
#[derive(Clone, Copy, PartialEq, Eq)]
pub enum Kind {
    BreakWord,
    CaseWord,
    ChanWord,
    ConstWord,
    ContinueWord,
    DefaultWord,
    DeferWord,
    ElseWord,
    FallthroughWord,
    ForWord,
    FuncWord,
    GoWord,
    GotoWord,
    IfWord,
    ImportWord,
    InterfaceWord,
    MapWord,
    PackageWord,
    RangeWord,
    ReturnWord,
    SelectWord,
    StructWord,
    SwitchWord,
    TypeWord,
    VarWord,
    /// `+`
    Plus,
    /// `-`
    Minus,
    /// `*`
    Star,
    /// `/`
    Slash,
    /// `%`
    Percent,
    /// `&`
    Ampersand,
    /// `|`
    Pipe,
    /// `^`
    Caret,
    /// `<<`
    ShiftLeft,
    /// `>>`
    ShiftRight,
    /// `&^`
    AndNot,
    /// `+=`
    PlusAssign,
    /// `-=`
    MinusAssign,
    /// `*=`
    StarAssign,
    /// `/=`
    SlashAssign,
    /// `%=`
    PercentAssign,
    /// `&=`
    AmpersandAssign,
    /// `|=`
    PipeAssign,
    /// `^=`
    CaretAssign,
    /// `<<=`
    ShiftLeftAssign,
    /// `>>=`
    ShiftRightAssign,
    /// `&^=`
    AndNotAssign,
    /// `&&`
    AndAnd,
    /// `||`
    OrOr,
    /// `<-`
    Arrow,
    /// `++`
    Increment,
    /// `--`
    Decrement,
    /// `==`
    Equal,
    /// `<`
    Less,
    /// `>`
    Greater,
    /// `=`
    Assign,
    /// `!`
    Not,
    /// `!=`
    NotEqual,
    /// `<=`
    LessEqual,
    /// `>=`
    GreaterEqual,
    /// `:=`
    Define,
    /// `...`
    Ellipsis,
    /// `(`
    OpenParen,
    /// `)`
    CloseParen,
    /// `[`
    OpenBracket,
    /// `]`
    CloseBracket,
    /// `{`
    OpenBrace,
    /// `}`
    CloseBrace,
    /// `,`
    Comma,
    /// `;`
    Semicolon,
    /// `.`
    Dot,
    /// `:`
    Colon,
    /// An identifier that is no keyword.
    Name,
    /// An integer literal.
    Int,
    /// A rune literal.
    Rune,
    /// A string literal, raw or interpreted.
    Text,
    /// A semicolon that was put in at the end of a line. It has no bytes, and stands at the end of the token before.
    Inserted,
}

/// A token, and where it lies in its file.
#[derive(Clone, Copy, PartialEq, Eq)]
pub struct Token {
    pub kind: Kind,
    /// The first byte, from 0.
    pub start: u32,
    /// The byte behind the last.
    pub end: u32,
}
