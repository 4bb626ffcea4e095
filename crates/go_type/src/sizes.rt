//! How large types are.

ghost use Rattle.std.specs.Prelude.{◌≡◌, ◌≤◌, ◌<◌, ◌+◌, ◌*◌, ◌^◌, min, max, ℕ};
ghost use Rattle.std.specs.List.{sum_by};
ghost use Rattle.go_type.specs.Sizes.{leaves_to, leaves_of};
ghost use Rattle.go_type.specs.Table.{term_at};

use crate::term::{Field, TypeTerm};
use crate::types::Types;
use go_base::TypeId;

/// The most leaves that a type may have.
pub const MAX_LEAVES: u64 = 1_048_576;

/// The greatest nesting that a type may have.
pub const MAX_NESTING: usize = 1_000;

/// The leaves of a type, at most `limit`: 1 for every type but arrays and structs. Those of an array are its length
/// times its element's, and those of a struct the sum over its fields, in both cases at least 1. Elements and fields
/// that are deeper than `depth` count 1.
#[cycle(leaves)]
pub fn leaves_up_to(types: &Types, id: TypeId, limit: u64, depth: usize) -> u64
    requires { 1 ≤ limit }
    ensures { result ≡ min limit (leaves_to depth types.now id) }
{
    if depth == 0 {
        return 1;
    }
    match types.underlying_term(id) {
        Some(TypeTerm::Array { len: 0, .. }) => 1,
        Some(TypeTerm::Array { len, elem }) => {
            times(*len, leaves_up_to(types, *elem, limit, depth - 1), limit)
        }
        Some(TypeTerm::Struct(fields)) => {
            let sum = leaves_of_fields(types, fields.as_slice(), limit, depth - 1);
            sum.max(1)
        }
        _ => 1,
    }
}

/// The product, at least 1 and at most the limit.
fn times(len: u64, leaves: u64, limit: u64) -> u64
    ensures { result ≡ min limit (max 1 (len * leaves)) }
{
    let product = u128::from(len) * u128::from(leaves);
    let least = product.max(1);
    least.min(u128::from(limit)) as u64
}

#[cycle(leaves)]
fn leaves_of_fields(types: &Types, fields: &[Field], limit: u64, depth: usize) -> u64
    requires { 1 ≤ limit }
    ensures { result ≡ min limit (sum_by (λ field. leaves_to depth types.now field.of) fields.now) }
{
    let mut sum = 0u64;
    for field in fields {
        let leaves = leaves_up_to(types, field.of, limit, depth);
        if leaves >= limit - sum {
            return limit;
        }
        sum += leaves;
    }
    sum
}
