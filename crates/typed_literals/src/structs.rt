//! Literals of structs. Go specification, "Composite literals" and "Struct types".

ghost use Rattle.std.specs.Prelude.{◌≡◌, ◌<◌, ◌^◌, ◌++◌, ◌∷◌, [], List, length, nat_eq, not, position, true, IfOk, OnOk};
ghost use Rattle.std.specs.List.{list_all};
ghost use Rattle.indexmap.specs.IndexSet.{Updates, contains};
ghost use Rattle.typed_parts.specs.Joining.{listed};
ghost use Rattle.typed_parts.specs.Judged.{Comes, reported};
ghost use Rattle.typed_parts.specs.Turning.{Turns};
ghost use Rattle.typed_literals.specs.Composing.{broken_where};
ghost use Rattle.typed_parts.specs.Shapes.{fields_of};
ghost use Rattle.typed_literals.specs.Structs.{AreFields, AreKeyed, AreListed, AreNumbered, AreOfEach, AreTaken, IsKeyed, IsListed, IsStruct, IsStructLiteral, IsValueOf, are_alike, are_open, asked_broken, asked_elements, closed_broken, field_at, field_named, fits_number, has_value, is_keyed, is_named, is_open, key_asked, listed_field, number_broken, struct_of, unlike_broken, values_place};

use crate::composing::{FieldEntry, Literal, LiteralKind, ask_at, literal_node};
use go_base::{NameId, NoMemory, Pos, Rule, TypeId};
use go_tree::{Elements, FieldInit, TypedExpr};
use go_type::{EXPORTED, Field};
use indexmap::IndexSet;
use typed_parts::{Given, Ground, assigned, beside, fields_of, one_value, only, sound, with_last};

/// An element of which the value was seen.
#[derive(Drop)]
struct Element {
    at: Pos,
    has_key: bool,
    name: Option<NameId>,
    package: u32,
    value: Option<Given>,
}

/// A literal of a struct. `BadCompositeLiteral` at a key that is no field or names one again, at an element with or without a
/// key where the first is without or with one, at the first value where the number is not that of the fields, and at a
/// value of a field of another package.
pub fn struct_literal(
    ground: &mut Ground,
    package: u32,
    literal: Option<Literal>,
    elements: Vec<FieldEntry>,
) -> Result<Option<TypedExpr>, NoMemory>
    ensures { Turns ground.old ground.new result (IsStructLiteral «package» literal elements.items) }
{
    let elements = each_asked(ground, elements)?;
    match struct_of(literal).zip(Some(elements)) {
        Some((literal, elements)) => of_elements(ground, package, literal, elements),
        None => Ok(None),
    }
}

fn struct_of(literal: Option<Literal>) -> Option<Literal>
    ensures { result ≡ struct_of literal }
{
    let literal = literal?;
    match literal.kind {
        LiteralKind::Struct => Some(literal),
        _ => None,
    }
}

fn of_elements(
    ground: &mut Ground,
    package: u32,
    literal: Literal,
    elements: Vec<Element>,
) -> Result<Option<TypedExpr>, NoMemory>
    ensures { Turns ground.old ground.new result (IsStruct «package» literal elements.items) }
{
    let keyed = is_keyed(elements.as_slice());
    let alike = ask_keys(ground, keyed, elements.as_slice());
    let fields = fields_of_each(ground, package, literal.of, keyed, elements)?;
    match only(fields, alike) {
        Some(fields) => {
            let expr = literal_node(ground, literal, literal.of, Elements::Fields(fields));
            sound(expr)
        }
        None => Ok(None),
    }
}

/// Whether a literal has keys, as its first element tells.
fn is_keyed(elements: &[Element]) -> bool
    ensures { result ≡ is_keyed elements.now }
{
    match elements.first() {
        Some(first) => first.has_key,
        None => true,
    }
}

/// The values of the fields of a literal with or without keys.
fn fields_of_each(
    ground: &mut Ground,
    package: u32,
    of: TypeId,
    keyed: bool,
    elements: Vec<Element>,
) -> Result<Option<Vec<FieldInit>>, NoMemory>
    ensures { Turns ground.old ground.new (listed result) (AreFields keyed «package» of elements.items) }
{
    if keyed {
        keyed_fields(ground, of, elements)
    } else {
        listed_fields(ground, package, of, elements)
    }
}

/// Each value asked to be one.
fn each_asked(ground: &mut Ground, elements: Vec<FieldEntry>) -> Result<Vec<Element>, NoMemory>
    ensures asked { IfOk result (λ made. made.items ≡ asked_elements ground.old.types elements.items) }
    ensures broken { OnOk result (ground.new ≡ reported ground.old (asked_broken ground.old.types elements.items)) }
{
    let mut values = Vec::new(ground.alloc);
    for element in elements {
        values.push(Element {
            at: element.at,
            has_key: element.has_key,
            name: element.name,
            package: element.package,
            value: one_value(ground, element.value),
        })?;
    }
    Ok(values)
}

/// Whether all elements have keys, or none.
fn ask_keys(ground: &mut Ground, keyed: bool, elements: &[Element]) -> bool
    ensures alike { result ≡ are_alike keyed elements.now }
    ensures broken { ground.new ≡ reported ground.old (unlike_broken keyed elements.now) }
{
    let mut alike = true;
    for element in elements {
        alike &= ask_at(ground, element.at, element.has_key == keyed);
    }
    alike
}

/// The values of a literal with keys.
fn keyed_fields(
    ground: &mut Ground,
    of: TypeId,
    elements: Vec<Element>,
) -> Result<Option<Vec<FieldInit>>, NoMemory>
    ensures { Turns ground.old ground.new (listed result) (AreKeyed of elements.items) }
{
    let mut taken = IndexSet::new(ground.alloc);
    let mut fields = Some(Vec::new(ground.alloc));
    for element in elements {
        let field = keyed_field(ground, &mut taken, of, element)?;
        fields = with_last(fields, field)?;
    }
    Ok(fields)
}

/// A value of a field that a key names. `BadCompositeLiteral` at a key that comes again.
fn keyed_field(
    ground: &mut Ground,
    taken: &mut IndexSet<u32>,
    of: TypeId,
    element: Element,
) -> Result<Option<FieldInit>, NoMemory>
    ensures is { (before : List Element) → AreTaken (fields_of ground.old.types of) before taken.old → Comes ground.old ground.new result (IsKeyed ground.old.types of before element) }
    ensures taken { (before : List Element) → AreTaken (fields_of ground.old.types of) before taken.old → OnOk result (AreTaken (fields_of ground.old.types of) (before ++ element ∷ []) taken.new) }
{
    let at = element.at;
    let found = field_of_key(ground, of, &element);
    let Some((found, element)) = found.zip(Some(element)) else {
        return Ok(None);
    };
    let (is_new, element) = beside(ask_new(ground, taken, at, found.0), element)?;
    let value = field_value(ground, found, element)?;
    Ok(only(value, is_new))
}

fn ask_new(
    ground: &mut Ground,
    taken: &mut IndexSet<u32>,
    at: Pos,
    field: u32,
) -> Result<bool, NoMemory>
    ensures new { IfOk result (λ is_new. is_new ≡ not (contains nat_eq taken.old field)) }
    ensures broken { IfOk result (λ is_new. ground.new ≡ reported ground.old (broken_where at (not is_new))) }
    ensures taken { OnOk result (Updates nat_eq taken.old taken.new field true) }
{
    let is_new = taken.insert(field)?;
    Ok(ask_at(ground, at, is_new))
}

/// The number and the type of the field that a key names. `BadCompositeLiteral` at a key that names none.
fn field_of_key(ground: &mut Ground, of: TypeId, element: &Element) -> Option<(u32, TypeId)>
    ensures answer { result ≡ (key_asked (fields_of ground.old.types of) element.now).sound }
    ensures broken { ground.new ≡ reported ground.old (key_asked (fields_of ground.old.types of) element.now).broken }
{
    if !element.has_key {
        return None;
    }
    let found = match element.name {
        Some(name) => find_field(fields_of(&ground.types, of), name, element.package),
        None => None,
    };
    if found.is_none() {
        ground.report(element.at, Rule::BadCompositeLiteral);
    }
    found
}

fn find_field(fields: &[Field], name: NameId, package: u32) -> Option<(u32, TypeId)>
    requires { length fields.now < 2 ^ 32 }
    ensures { result ≡ field_named fields.now name «package» }
{
    match place_of(fields, name, package) {
        Some(number) => field_at(fields, number),
        None => None,
    }
}

/// The number of the first field of a name.
fn place_of(fields: &[Field], name: NameId, package: u32) -> Option<usize>
    ensures { result ≡ position (is_named name «package») fields.now }
{
    fields
        .iter()
        .position(|field| field.name == name && field.package == package)
}

/// A value as that of a field, by its number and type.
fn field_value(
    ground: &mut Ground,
    field: (u32, TypeId),
    element: Element,
) -> Result<Option<FieldInit>, NoMemory>
    ensures { Comes ground.old ground.new result (IsValueOf ground.old.types element.value field) }
{
    let (field, to) = field;
    match assigned(ground, element.value, Some(to))? {
        Some(value) => Ok(Some(FieldInit { field, value })),
        None => Ok(None),
    }
}

/// The values of a literal without keys.
fn listed_fields(
    ground: &mut Ground,
    package: u32,
    of: TypeId,
    elements: Vec<Element>,
) -> Result<Option<Vec<FieldInit>>, NoMemory>
    ensures { Turns ground.old ground.new (listed result) (AreListed «package» of elements.items) }
{
    let open = ask_open(ground, package, of, elements.as_slice());
    let fields = numbered_fields(ground, of, elements)?;
    Ok(only(fields, open))
}

/// The values of a literal without keys, of as many as fields.
fn numbered_fields(
    ground: &mut Ground,
    of: TypeId,
    elements: Vec<Element>,
) -> Result<Option<Vec<FieldInit>>, NoMemory>
    ensures { Turns ground.old ground.new (listed result) (AreNumbered of elements.items) }
{
    let fits = ask_number(ground, of, elements.as_slice());
    match only(Some(elements), fits) {
        Some(elements) => each_field(ground, of, elements),
        None => Ok(None),
    }
}

/// Each value as that of its field, by the order.
fn each_field(
    ground: &mut Ground,
    of: TypeId,
    elements: Vec<Element>,
) -> Result<Option<Vec<FieldInit>>, NoMemory>
    ensures { Turns ground.old ground.new (listed result) (AreOfEach of elements.items) }
{
    let mut fields = Some(Vec::new(ground.alloc));
    let mut number = 0;
    for element in elements {
        let field = listed_field(ground, of, number, element)?;
        fields = with_last(fields, field)?;
        number += 1;
    }
    Ok(fields)
}

/// Whether there are as many elements as fields.
fn ask_number(ground: &mut Ground, of: TypeId, elements: &[Element]) -> bool
    ensures fits { result ≡ fits_number (fields_of ground.old.types of) elements.now }
    ensures broken { ground.new ≡ reported ground.old (number_broken (fits_number (fields_of ground.old.types of) elements.now) (values_place elements.now)) }
{
    if elements.len() == fields_of(&ground.types, of).len() {
        return true;
    }
    if let Some(at) = values_place(elements) {
        ground.report(at, Rule::BadCompositeLiteral);
    }
    false
}

/// The place of the first of values that are all sound.
fn values_place(elements: &[Element]) -> Option<Pos>
    ensures { result ≡ values_place elements.now }
{
    if !have_values(elements) {
        return None;
    }
    let first = elements.first()?;
    Some(first.at)
}

fn have_values(elements: &[Element]) -> bool
    ensures { result ≡ list_all has_value elements.now }
{
    elements.iter().all(|element| element.value.is_some())
}

/// Whether each field that has a value is exported or of the package. `BadCompositeLiteral` at a value of one that is not.
fn ask_open(ground: &mut Ground, package: u32, of: TypeId, elements: &[Element]) -> bool
    ensures open_ones { result ≡ are_open (fields_of ground.old.types of) «package» elements.now }
    ensures broken { ground.new ≡ reported ground.old (closed_broken (fields_of ground.old.types of) «package» elements.now) }
{
    let mut open = true;
    for (number, element) in elements.iter().enumerate() {
        let is_open = is_open(fields_of(&ground.types, of), number, package);
        open &= ask_at(ground, element.at, is_open);
    }
    open
}

fn is_open(fields: &[Field], number: usize, package: u32) -> bool
    ensures { result ≡ is_open fields.now «package» number }
{
    match fields.get(number) {
        Some(field) => field.package == EXPORTED || field.package == package,
        None => true,
    }
}

fn listed_field(
    ground: &mut Ground,
    of: TypeId,
    number: usize,
    element: Element,
) -> Result<Option<FieldInit>, NoMemory>
    ensures { Comes ground.old ground.new result (IsListed ground.old.types of number element) }
{
    let place = listed_place(fields_of(&ground.types, of), number, &element);
    match place.zip(Some(element)) {
        Some((place, element)) => field_value(ground, place, element),
        None => Ok(None),
    }
}

fn listed_place(fields: &[Field], number: usize, element: &Element) -> Option<(u32, TypeId)>
    requires { length fields.now < 2 ^ 32 }
    ensures { result ≡ listed_field fields.now number element.now }
{
    if element.has_key {
        None
    } else {
        field_at(fields, number)
    }
}

/// The number and the type of a field.
fn field_at(fields: &[Field], number: usize) -> Option<(u32, TypeId)>
    requires { length fields.now < 2 ^ 32 }
    ensures { result ≡ field_at fields.now number }
{
    let field = fields.get(number)?;
    match u32::try_from(number) {
        Ok(number) => Some((number, field.of)),
        Err(_) => None,
    }
}
