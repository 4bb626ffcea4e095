//! The sizes of types, of which each is looked at once for each depth. Without that a type would be looked at again for
//! each way to it.

ghost use Rattle.std.specs.Prelude.{◌≡◌, ◌&&◌, ◌≤◌, ◌+◌, ◌*◌, max, min, IfOk, false, ◌↔◌};
ghost use Rattle.go_type.specs.Table.{Table};
ghost use Rattle.std.specs.List.{list_all, sum_by};
ghost use Rattle.go_type.specs.Sizes.{nests_within, nests_as_part, leaves_to};
ghost use Rattle.type_sizes.specs.Known.{AreSizes, IsSizeOf, leaves_within};
ghost use Rattle.type_sizes.specs.Nesting.{IsNestedAbove};

use crate::nesting::has_nesting;
use go_base::{NoMemory, TypeId};
use go_type::{Field, MethodType, TypeTerm, Types};
use indexmap::IndexMap;
use std::alloc::Global;

/// The most leaves that a type may have.
pub const MOST_LEAVES: u64 = 1_048_576;

/// The greatest nesting that a type may have.
pub const MOST_NESTING: u64 = 1_000;

/// One more than the most leaves.
const TOO_MANY: u64 = MOST_LEAVES + 1;

/// How large a type is.
#[derive(Clone, Copy, PartialEq, Eq)]
pub struct Size {
    /// Whether its nesting is at most the greatest. A type without a nesting, as `type T struct { p *[1]T }`, is within
    /// every limit.
    pub nests: bool,
    /// Its leaves, or 1,048,577 where it has more than the most. Elements and fields that are deeper than the greatest
    /// nesting count 1.
    pub leaves: u64,
}

/// What was asked of a type.
#[derive(Clone, Copy, PartialEq, Eq, Hash)]
struct Asked {
    id: TypeId,
    depth: u64,
}

/// The sizes that are known.
#[derive(Drop)]
pub struct Sizes {
    nested: IndexMap<Asked, bool>,
    leaves: IndexMap<Asked, u64>,
}

impl Sizes {
    /// No sizes.
    pub fn new(alloc: Global) -> Sizes
        ensures { (types : Table) → AreSizes types result }
    {
        Sizes {
            nested: IndexMap::new(alloc),
            leaves: IndexMap::new(alloc),
        }
    }

    /// The size of a type. What is known stays right, also after `NoMemory`.
    pub fn of(&mut self, types: &Types, id: TypeId) -> Result<Size, NoMemory>
        requires { AreSizes types.now self.old }
        ensures size { IfOk result (IsSizeOf types.now id) }
        ensures kept { AreSizes types.now self.new }
    {
        let nests = self.nests_enough(types, id)?;
        let leaves = self.leaves(types, id, MOST_NESTING)?;
        Ok(Size { nests, leaves })
    }

    /// Whether the nesting of a type is not above the greatest.
    fn nests_enough(&mut self, types: &Types, id: TypeId) -> Result<bool, NoMemory>
        requires { AreSizes types.now self.old }
        ensures answer { IfOk result (λ b. (b ≡ false) ↔ IsNestedAbove 1000 types.now id) }
        ensures kept { AreSizes types.now self.new }
    {
        if self.nests(types, id, MOST_NESTING)? {
            return Ok(true);
        }
        let has_nesting = has_nesting(types, id)?;
        Ok(!has_nesting)
    }

    #[cycle(nests)]
    fn nests(&mut self, types: &Types, id: TypeId, limit: u64) -> Result<bool, NoMemory>
        requires { AreSizes types.now self.old }
        ensures answer { IfOk result (λ b. b ≡ nests_within limit types.now id) }
        ensures kept { AreSizes types.now self.new }
    {
        let asked = Asked { id, depth: limit };
        if let Some(known) = self.nested.get(&asked) {
            return Ok(*known);
        }
        let answer = self.nests_anew(types, id, limit)?;
        self.nested.insert(asked, answer)?;
        Ok(answer)
    }

    #[cycle(nests)]
    fn nests_anew(&mut self, types: &Types, id: TypeId, limit: u64) -> Result<bool, NoMemory>
        requires { AreSizes types.now self.old }
        ensures answer { IfOk result (λ b. b ≡ nests_within limit types.now id) }
        ensures kept { AreSizes types.now self.new }
    {
        if limit == 0 {
            return Ok(false);
        }
        let below = limit - 1;
        match types.underlying_term(id) {
            Some(TypeTerm::Array { elem, .. }) => self.nests(types, *elem, below),
            Some(TypeTerm::Struct(fields)) => self.fields_nest(types, fields.as_slice(), below),
            Some(
                TypeTerm::Pointer(elem)
                | TypeTerm::Slice(elem)
                | TypeTerm::Chan { elem, .. }
                | TypeTerm::Iter(elem),
            ) => Ok(self.part_nests(types, *elem, below)?),
            Some(TypeTerm::Map { key, elem }) => self.pair_nests(types, *key, *elem, below),
            Some(TypeTerm::Func(signature)) => {
                if !self.parts_nest(types, signature.params.as_slice(), below)? {
                    return Ok(false);
                }
                self.parts_nest(types, signature.results.as_slice(), below)
            }
            Some(TypeTerm::Interface(methods)) => {
                self.methods_nest(types, methods.as_slice(), below)
            }
            Some(TypeTerm::Tuple(parts)) => self.parts_nest(types, parts.as_slice(), below),
            Some(TypeTerm::Basic(_) | TypeTerm::Declared(_)) | None => Ok(true),
        }
    }

    #[cycle(nests)]
    fn part_nests(&mut self, types: &Types, id: TypeId, limit: u64) -> Result<bool, NoMemory>
        requires { AreSizes types.now self.old }
        ensures answer { IfOk result (λ b. b ≡ nests_as_part limit (nests_within limit types.now) types.now id) }
        ensures kept { AreSizes types.now self.new }
    {
        if limit == 0 {
            return Ok(false);
        }
        match types.get(id) {
            Some(TypeTerm::Declared(_)) => Ok(true),
            _ => self.nests(types, id, limit),
        }
    }

    #[cycle(nests)]
    fn pair_nests(
        &mut self,
        types: &Types,
        key: TypeId,
        elem: TypeId,
        limit: u64,
    ) -> Result<bool, NoMemory>
        requires { AreSizes types.now self.old }
        ensures answer { IfOk result (λ b. b ≡ (nests_as_part limit (nests_within limit types.now) types.now key && nests_as_part limit (nests_within limit types.now) types.now elem)) }
        ensures kept { AreSizes types.now self.new }
    {
        if !self.part_nests(types, key, limit)? {
            return Ok(false);
        }
        self.part_nests(types, elem, limit)
    }

    #[cycle(nests)]
    fn parts_nest(&mut self, types: &Types, ids: &[TypeId], limit: u64) -> Result<bool, NoMemory>
        requires { AreSizes types.now self.old }
        ensures answer { IfOk result (λ b. b ≡ list_all (nests_as_part limit (nests_within limit types.now) types.now) ids.now) }
        ensures kept { AreSizes types.now self.new }
    {
        for id in ids {
            if !self.part_nests(types, *id, limit)? {
                return Ok(false);
            }
        }
        Ok(true)
    }

    #[cycle(nests)]
    fn fields_nest(&mut self, types: &Types, fields: &[Field], limit: u64) -> Result<bool, NoMemory>
        requires { AreSizes types.now self.old }
        ensures answer { IfOk result (λ b. b ≡ list_all (λ field. nests_within limit types.now field.of) fields.now) }
        ensures kept { AreSizes types.now self.new }
    {
        for field in fields {
            if !self.nests(types, field.of, limit)? {
                return Ok(false);
            }
        }
        Ok(true)
    }

    #[cycle(nests)]
    fn methods_nest(
        &mut self,
        types: &Types,
        methods: &[MethodType],
        limit: u64,
    ) -> Result<bool, NoMemory>
        requires { AreSizes types.now self.old }
        ensures answer { IfOk result (λ b. b ≡ list_all (λ method. nests_as_part limit (nests_within limit types.now) types.now method.of) methods.now) }
        ensures kept { AreSizes types.now self.new }
    {
        for method in methods {
            if !self.part_nests(types, method.of, limit)? {
                return Ok(false);
            }
        }
        Ok(true)
    }

    #[cycle(leaves)]
    fn leaves(&mut self, types: &Types, id: TypeId, depth: u64) -> Result<u64, NoMemory>
        requires { AreSizes types.now self.old }
        ensures answer { IfOk result (λ n. n ≡ leaves_within depth types.now id) }
        ensures kept { AreSizes types.now self.new }
    {
        let asked = Asked { id, depth };
        if let Some(known) = self.leaves.get(&asked) {
            return Ok(*known);
        }
        let answer = self.leaves_anew(types, id, depth)?;
        self.leaves.insert(asked, answer)?;
        Ok(answer)
    }

    #[cycle(leaves)]
    fn leaves_anew(&mut self, types: &Types, id: TypeId, depth: u64) -> Result<u64, NoMemory>
        requires { AreSizes types.now self.old }
        ensures answer { IfOk result (λ n. n ≡ leaves_within depth types.now id) }
        ensures kept { AreSizes types.now self.new }
    {
        if depth == 0 {
            return Ok(1);
        }
        match types.underlying_term(id) {
            Some(TypeTerm::Array { len, elem }) => {
                let leaves = self.leaves(types, *elem, depth - 1)?;
                Ok(times(*len, leaves))
            }
            Some(TypeTerm::Struct(fields)) => {
                let sum = self.leaves_of_fields(types, fields.as_slice(), depth - 1)?;
                Ok(sum.max(1))
            }
            _ => Ok(1),
        }
    }

    #[cycle(leaves)]
    fn leaves_of_fields(
        &mut self,
        types: &Types,
        fields: &[Field],
        depth: u64,
    ) -> Result<u64, NoMemory>
        requires { AreSizes types.now self.old }
        ensures answer { IfOk result (λ n. n ≡ min 1048577 (sum_by (λ field. leaves_to depth types.now field.of) fields.now)) }
        ensures kept { AreSizes types.now self.new }
    {
        let mut sum = 0u64;
        for field in fields {
            let leaves = self.leaves(types, field.of, depth)?;
            sum = plus(sum, leaves);
        }
        Ok(sum)
    }
}

/// The product, at least 1 and at most one more than the most leaves.
fn times(len: u64, leaves: u64) -> u64
    ensures { result ≡ min 1048577 (max 1 (len * leaves)) }
{
    let product = u128::from(len) * u128::from(leaves);
    let least = product.max(1);
    least.min(u128::from(TOO_MANY)) as u64
}

/// The sum, at most one more than the most leaves.
fn plus(a: u64, b: u64) -> u64
    requires first { a ≤ 1048577 }
    requires second { b ≤ 1048577 }
    ensures { result ≡ min 1048577 (a + b) }
{
    (a + b).min(TOO_MANY)
}
