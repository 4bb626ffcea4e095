//! The built-in functions `make` and `new`. Go specification, "Making slices, maps and channels" and "Allocation".

ghost use Rattle.std.specs.Prelude.{◌≡◌, IfOk, OnOk, false, is_some, not};
ghost use Rattle.typed_parts.specs.Joining.{listed};
ghost use Rattle.typed_parts.specs.Judged.{reported};
ghost use Rattle.typed_parts.specs.Numbers.{integer_of};
ghost use Rattle.typed_built_ins.specs.Making.{IsFormed, IsMake, IsNew, IsSize, added, added_broken, all_sound, asked_form, exceeds, first_at, form_broken, form_in, form_of, is_new, is_sound, make_asked, new_asked, order_broken, ordered, sizes_of};
ghost use Rattle.typed_parts.specs.Turning.{IsEach, Turns};

use crate::built_ins::BuiltInCall;
use go_base::{NoMemory, Pos, Rule, TypeId};
use go_tree::TypedExpr;
use go_type::{Builtin, TypeTerm};
use typed_parts::{
    Given, Ground, Seen, integer_of, one_value, only, type_of, whole_index, with_last,
};

/// The arguments of `make` or `new`: a type, and values.
#[derive(Drop)]
struct Shaped {
    /// Whether there is a first argument.
    has_form: bool,
    form_at: Pos,
    /// None where it is unsound, or no type.
    form: Option<TypeId>,
    sizes: Vec<Option<Given>>,
}

/// `make(T, ..)` or `new(T)`. `WrongKindOfName` at what is no type; `BadBuiltInCall` at a type without sizes, at a size that is no
/// integer or is negative, and at a constant length above a constant capacity; `TypeTooLarge` at `new`.
pub fn formed(
    ground: &mut Ground,
    call: BuiltInCall,
    arguments: Vec<Seen>,
) -> Result<Option<TypedExpr>, NoMemory>
    ensures { Turns ground.old ground.new result (IsFormed call arguments.items) }
{
    let formed = formed_arguments(ground, call, arguments)?;
    let form = asked_form(ground, call, &formed);
    let Some((form, sizes)) = form.zip(Some(formed.sizes)) else {
        return Ok(None);
    };
    if is_new(call.builtin) {
        drop(sizes);
        return new_of(ground, call, form);
    }
    make_of(ground, call, form, sizes)
}

/// The type, where it and the number of sizes are what the function takes, and there is no `...`.
fn asked_form(ground: &mut Ground, call: BuiltInCall, formed: &Shaped) -> Option<TypeId>
    ensures answer { result ≡ (asked_form ground.old.types call (form_of formed.now)).sound }
    ensures broken { ground.new ≡ reported ground.old (asked_form ground.old.types call (form_of formed.now)).broken }
{
    let sound = formed.is_sound();
    if let Some(dots) = call.dots {
        if sound || !formed.has_form {
            ground.report(dots, Rule::BadUseOfDots);
        }
        return None;
    }
    if !formed.has_form {
        ground.report(call.at, Rule::WrongNumberOfValues);
        return None;
    }
    let form = formed.form?;
    if call.builtin == Builtin::New {
        return ask_new(ground, formed, form, sound);
    }
    ask_make(ground, formed, form, sound)
}

fn all_sound(sizes: &[Option<Given>]) -> bool
    ensures { result ≡ all_sound sizes.now }
{
    sizes.iter().all(|size| size.is_some())
}

fn formed_arguments(
    ground: &mut Ground,
    call: BuiltInCall,
    arguments: Vec<Seen>,
) -> Result<Shaped, NoMemory>
    ensures formed { IfOk result (λ formed. form_of formed ≡ form_in ground.old.types call.at arguments.items) }
    ensures broken { OnOk result (ground.new ≡ reported ground.old (form_broken ground.old.types arguments.items)) }
{
    let mut formed = Shaped {
        has_form: false,
        form_at: call.at,
        form: None,
        sizes: Vec::new(ground.alloc),
    };
    for argument in arguments {
        formed.add(ground, argument)?;
    }
    Ok(formed)
}

impl Shaped {
    fn is_sound(&self) -> bool
        ensures { result ≡ is_sound (form_of self.now) }
    {
        self.form.is_some() && all_sound(self.sizes.as_slice())
    }

    /// The first argument is a type, and the others are values.
    fn add(&mut self, ground: &mut Ground, argument: Seen) -> Result<(), NoMemory>
        ensures formed { OnOk result (form_of self.new ≡ added ground.old.types (form_of self.old) argument) }
        ensures broken { OnOk result (ground.new ≡ reported ground.old (added_broken ground.old.types self.old.has_form argument)) }
    {
        if self.has_form {
            self.sizes.push(one_value(ground, argument))?;
        } else {
            self.has_form = true;
            self.form_at = argument.at;
            self.form = type_of(ground, argument);
        }
        Ok(())
    }
}

/// The type that `new` is given alone.
fn ask_new(ground: &mut Ground, formed: &Shaped, form: TypeId, sound: bool) -> Option<TypeId>
    ensures answer { result ≡ (new_asked (form_of formed.now) form sound).sound }
    ensures broken { ground.new ≡ reported ground.old (new_asked (form_of formed.now) form sound).broken }
{
    if !sound {
        return None;
    }
    if formed.sizes.is_empty() {
        return Some(form);
    }
    ground.report(formed.form_at, Rule::WrongNumberOfValues);
    None
}

/// The type that `make` takes with so many sizes.
fn ask_make(ground: &mut Ground, formed: &Shaped, form: TypeId, sound: bool) -> Option<TypeId>
    ensures answer { result ≡ (make_asked (form_of formed.now) form (sizes_of ground.old.types form) sound).sound }
    ensures broken { ground.new ≡ reported ground.old (make_asked (form_of formed.now) form (sizes_of ground.old.types form) sound).broken }
{
    let Some((least, most)) = sizes_of(ground, form) else {
        ground.report(formed.form_at, Rule::BadBuiltInCall);
        return None;
    };
    if formed.sizes.len() >= least && formed.sizes.len() <= most {
        return Some(form);
    }
    if sound {
        ground.report(formed.form_at, Rule::WrongNumberOfValues);
    }
    None
}

fn is_new(builtin: Builtin) -> bool
    ensures { result ≡ is_new builtin }
{
    matches!(builtin, Builtin::New)
}

fn new_of(
    ground: &mut Ground,
    call: BuiltInCall,
    form: TypeId,
) -> Result<Option<TypedExpr>, NoMemory>
    ensures { Turns ground.old ground.new result (IsNew call form) }
{
    let pointer = ground.hold(TypeTerm::Pointer(form))?;
    let fits = ground.within_limits(call.at, pointer)?;
    if !fits {
        return Ok(None);
    }
    let none = Vec::new(ground.alloc);
    Ok(Some(call.node(pointer, Some(form), none, false)))
}

/// How many sizes `make` takes for a type. None where it takes the type not.
fn sizes_of(ground: &Ground, form: TypeId) -> Option<(usize, usize)>
    ensures { result ≡ sizes_of ground.now.types form }
{
    match ground.types.underlying_term(form) {
        Some(TypeTerm::Slice(_)) => Some((1, 2)),
        Some(TypeTerm::Map { .. } | TypeTerm::Chan { .. }) => Some((0, 1)),
        _ => None,
    }
}

fn make_of(
    ground: &mut Ground,
    call: BuiltInCall,
    form: TypeId,
    sizes: Vec<Option<Given>>,
) -> Result<Option<TypedExpr>, NoMemory>
    ensures { Turns ground.old ground.new result (IsMake call form sizes.items) }
{
    let at = first_at(sizes.as_slice());
    let sizes = whole_sizes(ground, sizes)?;
    let Some(sizes) = sizes else {
        return Ok(None);
    };
    let ordered = ask_order(ground, at, sizes.as_slice());
    match only(Some(sizes), ordered) {
        Some(sizes) => Ok(Some(call.node(form, Some(form), sizes, false))),
        None => Ok(None),
    }
}

/// Whether sizes are in order.
fn ask_order(ground: &mut Ground, at: Option<Pos>, sizes: &[TypedExpr]) -> bool
    ensures takes { result ≡ is_some (ordered at sizes.now).sound }
    ensures broken { ground.new ≡ reported ground.old (ordered at sizes.now).broken }
{
    match (at, sizes) {
        (Some(at), [len, cap]) => in_order(ground, at, len, cap),
        _ => true,
    }
}

fn first_at(sizes: &[Option<Given>]) -> Option<Pos>
    ensures { result ≡ first_at sizes.now }
{
    match sizes.first() {
        Some(Some(size)) => Some(size.at),
        _ => None,
    }
}

fn whole_sizes(
    ground: &mut Ground,
    sizes: Vec<Option<Given>>,
) -> Result<Option<Vec<TypedExpr>>, NoMemory>
    ensures { Turns ground.old ground.new (listed result) (IsEach IsSize sizes.items) }
{
    let mut values = Some(Vec::new(ground.alloc));
    for size in sizes {
        let value = whole_index(ground, size, Rule::BadBuiltInCall)?;
        values = with_last(values, value)?;
    }
    Ok(values)
}

/// Whether a constant length is at most a constant capacity.
fn in_order(ground: &mut Ground, at: Pos, len: &TypedExpr, cap: &TypedExpr) -> bool
    ensures takes { result ≡ not (exceeds (integer_of len.now) (integer_of cap.now)) }
    ensures broken { ground.new ≡ reported ground.old (order_broken at (exceeds (integer_of len.now) (integer_of cap.now))) }
{
    let (Some(len), Some(cap)) = (integer_of(len), integer_of(cap)) else {
        return true;
    };
    if len <= cap {
        return true;
    }
    ground.report(at, Rule::BadBuiltInCall);
    false
}
