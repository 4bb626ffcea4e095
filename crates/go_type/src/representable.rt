//! Which constants are values of which types. Go specification, "Representability" and "Numeric types".

ghost use Rattle.std.specs.Prelude.{◌≡◌};
ghost use Rattle.go_type.specs.Representable.{has_integer, has_text, has_truth, has_value, representable};

use crate::constants::Const;
use crate::term::{Basic, TypeTerm};
use crate::types::Types;
use go_base::TypeId;

/// Whether a constant is a value of a type. `int` and `uint` have 64 bits, and every integer is a value of an untyped
/// kind of integers. A type whose underlying type is not basic has no constants.
pub fn represent(types: &Types, value: &Const, to: TypeId) -> bool
    ensures { result ≡ representable types.now value.now to }
{
    match types.underlying_term(to) {
        Some(TypeTerm::Basic(basic)) => is_value_of(value, *basic),
        _ => false,
    }
}

fn is_value_of(value: &Const, basic: Basic) -> bool
    ensures { result ≡ has_value basic value.now }
{
    match value {
        Const::Int(number) | Const::Rune(number) => is_integer_of(*number, basic),
        Const::Text(_) => matches!(basic, Basic::Text | Basic::UntypedText),
        Const::Truth(_) => matches!(basic, Basic::Bool | Basic::UntypedBool),
    }
}

fn is_integer_of(number: i128, basic: Basic) -> bool
    ensures { result ≡ has_integer basic number }
{
    match basic {
        Basic::Int | Basic::Int64 => -0x8000_0000_0000_0000 <= number
            && number <= 0x7fff_ffff_ffff_ffff,
        Basic::Int8 => -0x80 <= number && number <= 0x7f,
        Basic::Int16 => -0x8000 <= number && number <= 0x7fff,
        Basic::Int32 => -0x8000_0000 <= number && number <= 0x7fff_ffff,
        Basic::Uint | Basic::Uint64 => 0 <= number && number <= 0xffff_ffff_ffff_ffff,
        Basic::Uint8 => 0 <= number && number <= 0xff,
        Basic::Uint16 => 0 <= number && number <= 0xffff,
        Basic::Uint32 => 0 <= number && number <= 0xffff_ffff,
        Basic::UntypedInt | Basic::UntypedRune => true,
        Basic::Bool | Basic::Text | Basic::UntypedBool | Basic::UntypedText | Basic::UntypedNil =>
            false,
    }
}
