//! Laws of cuts: each is a function that does nothing, and says what holds of all bytes.

ghost use Rattle.std.specs.Prelude.{◌≡◌, ℕ, List, All};
ghost use Rattle.go_ast.specs.Lexical.{IsCutInto, IsTokenList, IsTokenIn, IsFault};
ghost use Rattle.go_ast.specs.declared.token.Token.{Token};
ghost use Rattle.go_base.specs.declared.rule.Rule.{Rule};

/// Bytes have at most one cut, and so one list of tokens; or else one first fault.
pub fn one_cut()
    ensures cut { (bytes : List ℕ) (a b : List (List ℕ)) → IsCutInto bytes a → IsCutInto bytes b → a ≡ b }
    ensures tokens { (bytes : List ℕ) (a b : List Token) → IsTokenList bytes a → IsTokenList bytes b → a ≡ b }
    ensures fault { (bytes : List ℕ) (i j : ℕ) (r s : Rule) → IsFault bytes i r → IsFault bytes j s → (i ≡ j) × (r ≡ s) }
    ensures not_both { (bytes : List ℕ) (a : List Token) (i : ℕ) (r : Rule) → IsTokenList bytes a → IsFault bytes i r → ⊥ }
{}

/// Each token of a file lies in its bytes, and one that was not put in is spelled there: a literal so has a value.
pub fn spelled_tokens()
    ensures { (bytes : List ℕ) (tokens : List Token) → IsTokenList bytes tokens → All (IsTokenIn bytes) tokens }
{}
