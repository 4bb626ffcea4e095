//! The rules that a program can break, each with its code and its text.

ghost use Rattle.std.specs.Prelude.{◌≡◌};
ghost use Rattle.go_base.specs.Rules.{code_of, row_of, text_of};

/// A rule that a program can break. The groups come in the order of the codes: lexical (`L`), loading (`M`),
/// syntax (`S`), names and types (`N`), constants (`K`), expressions and statements (`E`), bodies (`B`), the whole
/// program (`O`), and, until everything is built, `X`.
#[derive(Clone, Copy, Debug, PartialEq, Eq)]
pub enum Rule {
    /// L1: invalid source byte.
    InvalidSourceByte,
    /// L2: unexpected character.
    UnexpectedCharacter,
    /// L3: comment not closed.
    CommentNotClosed,
    /// L4: not an integer literal.
    NotAnIntegerLiteral,
    /// L5: bad rune literal.
    BadRuneLiteral,
    /// L6: string literal not closed.
    StringLiteralNotClosed,
    /// L7: bad escape.
    BadEscape,
    /// M1: malformed go.mod.
    MalformedGoMod,
    /// M2: Go version not supported.
    GoVersionNotSupported,
    /// M3: no such package.
    NoSuchPackage,
    /// M4: no Go files.
    NoGoFiles,
    /// M5: file too large.
    FileTooLarge,
    /// M6: program too large.
    ProgramTooLarge,
    /// M7: second package name.
    SecondPackageName,
    /// M8: import of a program.
    ImportOfAProgram,
    /// M9: import cycle.
    ImportCycle,
    /// S1: syntax error.
    SyntaxError,
    /// S2: nested too deeply.
    NestedTooDeeply,
    /// N1: redeclared in this block.
    RedeclaredInThisBlock,
    /// N2: undefined.
    Undefined,
    /// N3: wrong kind of name.
    WrongKindOfName,
    /// N4: bad init or main.
    BadInitOrMain,
    /// N5: bad receiver.
    BadReceiver,
    /// N6: duplicate field or method.
    DuplicateFieldOrMethod,
    /// N7: invalid recursive type.
    InvalidRecursiveType,
    /// N8: bad embedded type.
    BadEmbeddedType,
    /// N9: map key not comparable.
    MapKeyNotComparable,
    /// N10: bad array length.
    BadArrayLength,
    /// N11: type too large.
    TypeTooLarge,
    /// N12: declaration refers to itself.
    DeclarationRefersToItself,
    /// N13: not a constant.
    NotAConstant,
    /// N14: function without a body.
    FunctionWithoutBody,
    /// K1: constant out of range.
    ConstantOutOfRange,
    /// K2: division by zero.
    DivisionByZero,
    /// K3: bad shift.
    BadShift,
    /// E1: not assignable.
    NotAssignable,
    /// E2: bad operand.
    BadOperand,
    /// E3: not comparable.
    NotComparable,
    /// E4: cannot assign.
    CannotAssign,
    /// E5: cannot take address.
    CannotTakeAddress,
    /// E6: not a function.
    NotAFunction,
    /// E7: wrong number of values.
    WrongNumberOfValues,
    /// E8: no such field or method.
    NoSuchFieldOrMethod,
    /// E9: ambiguous selector.
    AmbiguousSelector,
    /// E10: receiver not addressable.
    ReceiverNotAddressable,
    /// E11: bad index.
    BadIndex,
    /// E12: bad slice.
    BadSlice,
    /// E13: bad type assertion.
    BadTypeAssertion,
    /// E14: bad conversion.
    BadConversion,
    /// E15: bad composite literal.
    BadCompositeLiteral,
    /// E16: use of untyped nil.
    UseOfUntypedNil,
    /// E17: bad built-in call.
    BadBuiltInCall,
    /// E18: result not used.
    ResultNotUsed,
    /// E19: no new variable.
    NoNewVariable,
    /// E20: result hidden at return.
    ResultHiddenAtReturn,
    /// E21: bad range.
    BadRange,
    /// E22: bad case.
    BadCase,
    /// E23: bad channel operation.
    BadChannelOperation,
    /// E24: bad go or defer.
    BadGoOrDefer,
    /// E25: condition not boolean.
    ConditionNotBoolean,
    /// E26: bad use of ....
    BadUseOfDots,
    /// B1: label not used.
    LabelNotUsed,
    /// B2: bad label.
    BadLabel,
    /// B3: missing return.
    MissingReturn,
    /// B4: variable declared and not used.
    VariableNotUsed,
    /// B5: import not used.
    ImportNotUsed,
    /// B6: break or continue misplaced.
    BreakOrContinueMisplaced,
    /// O1: initialisation cycle.
    InitialisationCycle,
    /// O2: no main function.
    NoMainFunction,
    /// O3: not a main package.
    NotAMainPackage,
    /// X1: not built yet.
    NotBuiltYet,
}

impl Rule {
    /// The text of the rule, as it is shown to users.
    pub fn text(&self) -> &'static str
        ensures { result.now ≡ text_of self.now }
    {
        match self {
            Rule::InvalidSourceByte => "invalid source byte",
            Rule::UnexpectedCharacter => "unexpected character",
            Rule::CommentNotClosed => "comment not closed",
            Rule::NotAnIntegerLiteral => "not an integer literal",
            Rule::BadRuneLiteral => "bad rune literal",
            Rule::StringLiteralNotClosed => "string literal not closed",
            Rule::BadEscape => "bad escape",
            Rule::MalformedGoMod => "malformed go.mod",
            Rule::GoVersionNotSupported => "Go version not supported",
            Rule::NoSuchPackage => "no such package",
            Rule::NoGoFiles => "no Go files",
            Rule::FileTooLarge => "file too large",
            Rule::ProgramTooLarge => "program too large",
            Rule::SecondPackageName => "second package name",
            Rule::ImportOfAProgram => "import of a program",
            Rule::ImportCycle => "import cycle",
            Rule::SyntaxError => "syntax error",
            Rule::NestedTooDeeply => "nested too deeply",
            Rule::RedeclaredInThisBlock => "redeclared in this block",
            Rule::Undefined => "undefined",
            Rule::WrongKindOfName => "wrong kind of name",
            Rule::BadInitOrMain => "bad init or main",
            Rule::BadReceiver => "bad receiver",
            Rule::DuplicateFieldOrMethod => "duplicate field or method",
            Rule::InvalidRecursiveType => "invalid recursive type",
            Rule::BadEmbeddedType => "bad embedded type",
            Rule::MapKeyNotComparable => "map key not comparable",
            Rule::BadArrayLength => "bad array length",
            Rule::TypeTooLarge => "type too large",
            Rule::DeclarationRefersToItself => "declaration refers to itself",
            Rule::NotAConstant => "not a constant",
            Rule::FunctionWithoutBody => "function without a body",
            Rule::ConstantOutOfRange => "constant out of range",
            Rule::DivisionByZero => "division by zero",
            Rule::BadShift => "bad shift",
            Rule::NotAssignable => "not assignable",
            Rule::BadOperand => "bad operand",
            Rule::NotComparable => "not comparable",
            Rule::CannotAssign => "cannot assign",
            Rule::CannotTakeAddress => "cannot take address",
            Rule::NotAFunction => "not a function",
            Rule::WrongNumberOfValues => "wrong number of values",
            Rule::NoSuchFieldOrMethod => "no such field or method",
            Rule::AmbiguousSelector => "ambiguous selector",
            Rule::ReceiverNotAddressable => "receiver not addressable",
            Rule::BadIndex => "bad index",
            Rule::BadSlice => "bad slice",
            Rule::BadTypeAssertion => "bad type assertion",
            Rule::BadConversion => "bad conversion",
            Rule::BadCompositeLiteral => "bad composite literal",
            Rule::UseOfUntypedNil => "use of untyped nil",
            Rule::BadBuiltInCall => "bad built-in call",
            Rule::ResultNotUsed => "result not used",
            Rule::NoNewVariable => "no new variable",
            Rule::ResultHiddenAtReturn => "result hidden at return",
            Rule::BadRange => "bad range",
            Rule::BadCase => "bad case",
            Rule::BadChannelOperation => "bad channel operation",
            Rule::BadGoOrDefer => "bad go or defer",
            Rule::ConditionNotBoolean => "condition not boolean",
            Rule::BadUseOfDots => "bad use of ...",
            Rule::LabelNotUsed => "label not used",
            Rule::BadLabel => "bad label",
            Rule::MissingReturn => "missing return",
            Rule::VariableNotUsed => "variable declared and not used",
            Rule::ImportNotUsed => "import not used",
            Rule::BreakOrContinueMisplaced => "break or continue misplaced",
            Rule::InitialisationCycle => "initialisation cycle",
            Rule::NoMainFunction => "no main function",
            Rule::NotAMainPackage => "not a main package",
            Rule::NotBuiltYet => "not built yet",
        }
    }

    /// The code of the rule, as it stands in parentheses behind the text.
    pub fn code(&self) -> &'static str
        ensures { result.now ≡ code_of self.now }
    {
        match self {
            Rule::InvalidSourceByte => "L1",
            Rule::UnexpectedCharacter => "L2",
            Rule::CommentNotClosed => "L3",
            Rule::NotAnIntegerLiteral => "L4",
            Rule::BadRuneLiteral => "L5",
            Rule::StringLiteralNotClosed => "L6",
            Rule::BadEscape => "L7",
            Rule::MalformedGoMod => "M1",
            Rule::GoVersionNotSupported => "M2",
            Rule::NoSuchPackage => "M3",
            Rule::NoGoFiles => "M4",
            Rule::FileTooLarge => "M5",
            Rule::ProgramTooLarge => "M6",
            Rule::SecondPackageName => "M7",
            Rule::ImportOfAProgram => "M8",
            Rule::ImportCycle => "M9",
            Rule::SyntaxError => "S1",
            Rule::NestedTooDeeply => "S2",
            Rule::RedeclaredInThisBlock => "N1",
            Rule::Undefined => "N2",
            Rule::WrongKindOfName => "N3",
            Rule::BadInitOrMain => "N4",
            Rule::BadReceiver => "N5",
            Rule::DuplicateFieldOrMethod => "N6",
            Rule::InvalidRecursiveType => "N7",
            Rule::BadEmbeddedType => "N8",
            Rule::MapKeyNotComparable => "N9",
            Rule::BadArrayLength => "N10",
            Rule::TypeTooLarge => "N11",
            Rule::DeclarationRefersToItself => "N12",
            Rule::NotAConstant => "N13",
            Rule::FunctionWithoutBody => "N14",
            Rule::ConstantOutOfRange => "K1",
            Rule::DivisionByZero => "K2",
            Rule::BadShift => "K3",
            Rule::NotAssignable => "E1",
            Rule::BadOperand => "E2",
            Rule::NotComparable => "E3",
            Rule::CannotAssign => "E4",
            Rule::CannotTakeAddress => "E5",
            Rule::NotAFunction => "E6",
            Rule::WrongNumberOfValues => "E7",
            Rule::NoSuchFieldOrMethod => "E8",
            Rule::AmbiguousSelector => "E9",
            Rule::ReceiverNotAddressable => "E10",
            Rule::BadIndex => "E11",
            Rule::BadSlice => "E12",
            Rule::BadTypeAssertion => "E13",
            Rule::BadConversion => "E14",
            Rule::BadCompositeLiteral => "E15",
            Rule::UseOfUntypedNil => "E16",
            Rule::BadBuiltInCall => "E17",
            Rule::ResultNotUsed => "E18",
            Rule::NoNewVariable => "E19",
            Rule::ResultHiddenAtReturn => "E20",
            Rule::BadRange => "E21",
            Rule::BadCase => "E22",
            Rule::BadChannelOperation => "E23",
            Rule::BadGoOrDefer => "E24",
            Rule::ConditionNotBoolean => "E25",
            Rule::BadUseOfDots => "E26",
            Rule::LabelNotUsed => "B1",
            Rule::BadLabel => "B2",
            Rule::MissingReturn => "B3",
            Rule::VariableNotUsed => "B4",
            Rule::ImportNotUsed => "B5",
            Rule::BreakOrContinueMisplaced => "B6",
            Rule::InitialisationCycle => "O1",
            Rule::NoMainFunction => "O2",
            Rule::NotAMainPackage => "O3",
            Rule::NotBuiltYet => "X1",
        }
    }

    /// The row of the rule in the table of rules, from 0: of two rules that are broken at one place, the lower row is named.
    pub fn row(self) -> u32
        ensures { result ≡ row_of self }
    {
        match self {
            Rule::InvalidSourceByte => 0,
            Rule::UnexpectedCharacter => 1,
            Rule::CommentNotClosed => 2,
            Rule::NotAnIntegerLiteral => 3,
            Rule::BadRuneLiteral => 4,
            Rule::StringLiteralNotClosed => 5,
            Rule::BadEscape => 6,
            Rule::MalformedGoMod => 7,
            Rule::GoVersionNotSupported => 8,
            Rule::NoSuchPackage => 9,
            Rule::NoGoFiles => 10,
            Rule::FileTooLarge => 11,
            Rule::ProgramTooLarge => 12,
            Rule::SecondPackageName => 13,
            Rule::ImportOfAProgram => 14,
            Rule::ImportCycle => 15,
            Rule::SyntaxError => 16,
            Rule::NestedTooDeeply => 17,
            Rule::RedeclaredInThisBlock => 18,
            Rule::Undefined => 19,
            Rule::WrongKindOfName => 20,
            Rule::BadInitOrMain => 21,
            Rule::BadReceiver => 22,
            Rule::DuplicateFieldOrMethod => 23,
            Rule::InvalidRecursiveType => 24,
            Rule::BadEmbeddedType => 25,
            Rule::MapKeyNotComparable => 26,
            Rule::BadArrayLength => 27,
            Rule::TypeTooLarge => 28,
            Rule::DeclarationRefersToItself => 29,
            Rule::NotAConstant => 30,
            Rule::FunctionWithoutBody => 31,
            Rule::ConstantOutOfRange => 32,
            Rule::DivisionByZero => 33,
            Rule::BadShift => 34,
            Rule::NotAssignable => 35,
            Rule::BadOperand => 36,
            Rule::NotComparable => 37,
            Rule::CannotAssign => 38,
            Rule::CannotTakeAddress => 39,
            Rule::NotAFunction => 40,
            Rule::WrongNumberOfValues => 41,
            Rule::NoSuchFieldOrMethod => 42,
            Rule::AmbiguousSelector => 43,
            Rule::ReceiverNotAddressable => 44,
            Rule::BadIndex => 45,
            Rule::BadSlice => 46,
            Rule::BadTypeAssertion => 47,
            Rule::BadConversion => 48,
            Rule::BadCompositeLiteral => 49,
            Rule::UseOfUntypedNil => 50,
            Rule::BadBuiltInCall => 51,
            Rule::ResultNotUsed => 52,
            Rule::NoNewVariable => 53,
            Rule::ResultHiddenAtReturn => 54,
            Rule::BadRange => 55,
            Rule::BadCase => 56,
            Rule::BadChannelOperation => 57,
            Rule::BadGoOrDefer => 58,
            Rule::ConditionNotBoolean => 59,
            Rule::BadUseOfDots => 60,
            Rule::LabelNotUsed => 61,
            Rule::BadLabel => 62,
            Rule::MissingReturn => 63,
            Rule::VariableNotUsed => 64,
            Rule::ImportNotUsed => 65,
            Rule::BreakOrContinueMisplaced => 66,
            Rule::InitialisationCycle => 67,
            Rule::NoMainFunction => 68,
            Rule::NotAMainPackage => 69,
            Rule::NotBuiltYet => 70,
        }
    }
}
