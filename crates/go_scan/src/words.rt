//! Keywords and names. Go specification, "Keywords", "Identifiers".

ghost use Rattle.std.specs.Prelude.{◌≡◌, bytes_eq};
ghost use Rattle.go_ast.specs.Marks.{word_kind};

use go_ast::Kind;

/// Whether a text is this word.
fn is(text: &[u8], word: &str) -> bool
    ensures { result ≡ bytes_eq text.now word.now }
{
    text == word.as_bytes()
}

/// The keyword that a text is, or a name.
pub fn word_kind(text: &[u8]) -> Kind
    ensures { result ≡ word_kind text.now }
{
    if is(text, "break") {
        Kind::BreakWord
    } else if is(text, "case") {
        Kind::CaseWord
    } else if is(text, "chan") {
        Kind::ChanWord
    } else if is(text, "const") {
        Kind::ConstWord
    } else if is(text, "continue") {
        Kind::ContinueWord
    } else if is(text, "default") {
        Kind::DefaultWord
    } else if is(text, "defer") {
        Kind::DeferWord
    } else if is(text, "else") {
        Kind::ElseWord
    } else if is(text, "fallthrough") {
        Kind::FallthroughWord
    } else if is(text, "for") {
        Kind::ForWord
    } else if is(text, "func") {
        Kind::FuncWord
    } else if is(text, "go") {
        Kind::GoWord
    } else if is(text, "goto") {
        Kind::GotoWord
    } else if is(text, "if") {
        Kind::IfWord
    } else if is(text, "import") {
        Kind::ImportWord
    } else if is(text, "interface") {
        Kind::InterfaceWord
    } else if is(text, "map") {
        Kind::MapWord
    } else if is(text, "package") {
        Kind::PackageWord
    } else if is(text, "range") {
        Kind::RangeWord
    } else if is(text, "return") {
        Kind::ReturnWord
    } else if is(text, "select") {
        Kind::SelectWord
    } else if is(text, "struct") {
        Kind::StructWord
    } else if is(text, "switch") {
        Kind::SwitchWord
    } else if is(text, "type") {
        Kind::TypeWord
    } else if is(text, "var") {
        Kind::VarWord
    } else {
        Kind::Name
    }
}
