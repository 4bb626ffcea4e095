//! Laws of the grammar: each is a function that does nothing, and says what holds of all trees and tokens.

ghost use Rattle.std.specs.Prelude.{◌≡◌, ℕ, ◌-◌, ◌≤◌, List, [], ◌∷◌, ◌++◌, length, Some, Ok, Err, true};
ghost use Rattle.go_ast.specs.declared.token.Token.{Token};
ghost use Rattle.go_grammar.specs.FileReading.{parsers};
ghost use Rattle.go_grammar.specs.Files.{IsTreeOf, IsFileText, IsUnexpected, parts_of};
ghost use Rattle.go_grammar.specs.Forests.{Forest, yield};
ghost use Rattle.go_grammar.specs.Grammar.{Import, PackageDecl, grammar, is_semicolon};
ghost use Rattle.go_grammar.specs.PartReading.{file_by_parts};
ghost use Rattle.go_grammar.specs.Shapes.{Fits, Part};
ghost use Rattle.go_grammar.specs.StmtReading.{file_in};

/// What is read of tokens is a well-formed tree, and the tokens are its own.
pub fn sound_reading()
    ensures { (depth : ℕ) (tokens : List Token) (tree : Forest) → file_in (parsers depth) tokens ≡ Some (tree, []) → IsTreeOf tokens tree }
{}

/// A well-formed tree is read again from its tokens, to a depth of as many as there are.
pub fn read_again()
    ensures { (depth : ℕ) (tokens : List Token) (tree : Forest) → IsTreeOf tokens tree → length tokens ≤ depth → file_in (parsers depth) tokens ≡ Some (tree, []) }
{}

/// Tokens are those of one tree at most.
pub fn one_tree()
    ensures { (tokens : List Token) (tree other : Forest) → IsTreeOf tokens tree → IsTreeOf tokens other → tree ≡ other }
{}

/// A file that is read part after part is a well-formed tree, and the tokens are its own.
pub fn sound_parts()
    ensures { (depth : ℕ) (tokens : List Token) (tree : Forest) → file_by_parts (parsers depth) tokens ≡ Ok tree → IsTreeOf tokens tree }
{}

/// Where reading part after part stops, the part there is the first bad one: it says how many tokens are left.
pub fn first_bad_part()
    ensures { (depth : ℕ) (tokens : List Token) (left : ℕ) → length tokens ≤ depth → file_by_parts (parsers depth) tokens ≡ Err left → IsUnexpected tokens (length tokens - left) }
{}

/// Tokens that are a file have no first bad part, and others have one at most.
pub fn one_place()
    ensures never_both { (tokens : List Token) (index : ℕ) → IsUnexpected tokens index → IsFileText tokens → ⊥ }
    ensures one_index { (tokens : List Token) (i j : ℕ) → IsUnexpected tokens i → IsUnexpected tokens j → i ≡ j }
{}

/// Outside all brackets an import and a declaration at package level hold no semicolon: the one behind them ends a part.
pub fn cut_parts()
    ensures import { (tree : Forest) (semicolon : Token) (behind rest : List Token) → Fits grammar (Part Import) tree behind → is_semicolon semicolon.kind ≡ true
        → parts_of (yield tree ++ (semicolon ∷ rest)) ≡ (yield tree ++ semicolon ∷ []) ∷ parts_of rest }
    ensures decl { (tree : Forest) (semicolon : Token) (behind rest : List Token) → Fits grammar (Part PackageDecl) tree behind → is_semicolon semicolon.kind ≡ true
        → parts_of (yield tree ++ (semicolon ∷ rest)) ≡ (yield tree ++ semicolon ∷ []) ∷ parts_of rest }
{}
