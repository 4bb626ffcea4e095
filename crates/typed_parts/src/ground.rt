//! What rules ask and change: the types, and the least of the faults.

ghost use Rattle.std.specs.Prelude.{◌≡◌, ◌∷◌, [], IfOk, OnOk, OnErr, None};
ghost use Rattle.go_type.specs.Table.{term_at, with_term};
ghost use Rattle.go_type.specs.declared.term.TypeTerm.TheVariants.{Tuple, Interface};
ghost use Rattle.typed_parts.specs.Judged.{reported};
ghost use Rattle.typed_parts.specs.Limits.{IsFitting, IsLimited, IsTold, basis, fit_leaves, granted, on_basis};
ghost use Rattle.typed_parts.specs.Turning.{Turns};
ghost use Rattle.type_sizes.specs.Known.{IsSizeOf};

use go_base::{NoMemory, Pos, Rule, TypeId};
use go_faults::{Fault, Least};
use go_type::{MethodTypes, TypeIds, TypeTerm, Types};
use indexmap::IndexMap;
use std::alloc::Global;
use type_sizes::{MOST_LEAVES, Size, Sizes};

/// The types of a program, and the least of the faults that were reported.
#[derive(Drop)]
pub struct Ground {
    pub alloc: Global,
    pub types: Types,
    pub least: Least,
    /// The phase of the faults that are reported.
    pub phase: u8,
    /// The package of their places.
    pub package: u32,
    /// The leaves of types that were found to be within the limits.
    within: IndexMap<TypeId, u64>,
}

/// For what cannot come: it is told as want of memory.
pub fn lost() -> NoMemory {
    NoMemory
}

impl Ground {
    /// Nothing is reported yet.
    pub fn new(alloc: Global, types: Types, phase: u8, package: u32) -> Ground
        ensures types { result.types ≡ types }
        ensures least { result.least.fault ≡ None }
        ensures phase { result.phase ≡ phase }
        ensures at { result.«package» ≡ «package» }
    {
        Ground {
            alloc,
            types,
            least: Least::new(),
            phase,
            package,
            within: IndexMap::new(alloc),
        }
    }

    /// The types and the least fault.
    pub fn into_parts(self) -> (Types, Least)
        ensures { result ≡ (self.types, self.least) }
    {
        let Ground {
            alloc: _,
            types,
            least,
            phase: _,
            package: _,
            within: _,
        } = self;
        (types, least)
    }

    /// Takes into account that a rule is broken at a place.
    pub fn report(&mut self, at: Pos, rule: Rule)
        ensures { self.new ≡ reported self.old (record { at = at; rule = rule } ∷ []) }
    {
        self.least.report(Fault {
            phase: self.phase,
            package: self.package,
            pos: at,
            rule,
        });
    }

    /// The id of a type whose parts are held.
    pub fn hold(&mut self, term: TypeTerm) -> Result<TypeId, NoMemory>
        ensures named { IfOk result (λ id. term_at self.new.types id ≡ Some term) }
        ensures held { OnOk result (self.new ≡ record self.old { types = with_term term self.old.types }) }
        ensures err { OnErr result (self.new ≡ self.old) }
    {
        if !self.types.can_hold(&term) {
            return Err(lost());
        }
        let id = self.types.hold(term)?;
        Ok(id)
    }

    /// The type of several values.
    pub fn tuple(&mut self, parts: &[TypeId]) -> Result<TypeId, NoMemory>
        ensures named { IfOk result (λ id. term_at self.new.types id ≡ Some (Tuple parts.now)) }
        ensures held { OnOk result (self.new ≡ record self.old { types = with_term (Tuple parts.now) self.old.types }) }
        ensures err { OnErr result (self.new ≡ self.old) }
    {
        let mut ids = TypeIds::new(self.alloc);
        for part in parts {
            ids.push(*part)?;
        }
        self.hold(TypeTerm::Tuple(ids))
    }

    /// The type `interface{}`.
    pub fn any_type(&mut self) -> Result<TypeId, NoMemory>
        ensures named { IfOk result (λ id. term_at self.new.types id ≡ Some (Interface [])) }
        ensures held { OnOk result (self.new ≡ record self.old { types = with_term (Interface []) self.old.types }) }
        ensures err { OnErr result (self.new ≡ self.old) }
    {
        self.hold(TypeTerm::Interface(MethodTypes::new(self.alloc)))
    }

    /// Whether a type is within the limits of types: a nesting of at most 1,000, and at most 1,048,576 leaves.
    /// `TypeTooLarge` is reported at the place where it is not.
    pub fn within_limits(&mut self, at: Pos, of: TypeId) -> Result<bool, NoMemory>
        ensures { Turns self.old self.new (granted result) (IsLimited at of) }
    {
        if self.leaves_within(of)?.is_some() {
            return Ok(true);
        }
        self.report(at, Rule::TypeTooLarge);
        Ok(false)
    }

    /// Whether an array of so many elements of a type has at most 1,048,576 leaves. `TypeTooLarge` is reported at the place
    /// where it has more.
    pub fn fit_many(&mut self, at: Pos, elem: TypeId, len: u64) -> Result<bool, NoMemory>
        ensures { Turns self.old self.new (granted result) (IsFitting at elem len) }
    {
        let leaves = self.leaves_within(elem)?;
        let fits = fit_leaves(leaves, len);
        if !fits {
            self.report(at, Rule::TypeTooLarge);
        }
        Ok(fits)
    }

    /// The leaves of a type that is within the limits.
    fn leaves_within(&mut self, of: TypeId) -> Result<Option<u64>, NoMemory>
        ensures told { IfOk result (λ told. IsTold (basis self.old) of told (basis self.new)) }
        ensures keeps { OnOk result (self.new ≡ on_basis (basis self.new) self.old) }
    {
        if let Some(leaves) = self.within.get(&of) {
            return Ok(Some(*leaves));
        }
        let size = size_of(self.alloc, &self.types, of)?;
        if !size.nests || size.leaves > MOST_LEAVES {
            return Ok(None);
        }
        self.within.insert(of, size.leaves)?;
        Ok(Some(size.leaves))
    }
}

/// Whether so many elements have at most 1,048,576 leaves.
fn fit_leaves(leaves: Option<u64>, len: u64) -> bool
    ensures { result ≡ fit_leaves leaves len }
{
    match leaves {
        Some(leaves) => u128::from(leaves) * u128::from(len) <= u128::from(MOST_LEAVES),
        None => false,
    }
}

/// How large a type is.
fn size_of(alloc: Global, types: &Types, of: TypeId) -> Result<Size, NoMemory>
    ensures { IfOk result (IsSizeOf types.now of) }
{
    let mut sizes = Sizes::new(alloc);
    let size = sizes.of(types, of);
    drop(sizes);
    Ok(size?)
}
