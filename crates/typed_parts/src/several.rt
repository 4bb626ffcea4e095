//! Several values: the places of lists, and the parts of calls of several. Go specification, "Calls".

ghost use Rattle.std.specs.Prelude.{◌≡◌, IfOk, is_some};
ghost use Rattle.std.specs.List.{list_all};
ghost use Rattle.std.specs.Option.{option_map};
ghost use Rattle.go_type.specs.Table.{term_at};
ghost use Rattle.typed_parts.specs.Several.{first_place, place_of, several};

use crate::ground::Ground;
use crate::meaning::Given;
use go_base::{NoMemory, Pos, TypeId};
use go_type::TypeTerm;

/// The types of several values, at least two. None where a type is not that of several.
pub fn several_parts(ground: &Ground, of: TypeId) -> Result<Option<Vec<TypeId>>, NoMemory>
    ensures { IfOk result (λ parts. option_map (λ ids. ids.items) parts ≡ several (term_at ground.now.types of)) }
{
    match ground.types.get(of) {
        Some(TypeTerm::Tuple(parts)) if parts.as_slice().len() >= 2 => {
            Ok(Some(Vec::from_slice(ground.alloc, parts.as_slice())?))
        }
        _ => Ok(None),
    }
}

/// The place of the first of values that are all sound, and where there are none another.
pub fn place_of(values: &[Option<Given>], otherwise: Pos) -> Option<Pos>
    ensures { result ≡ place_of values.now otherwise }
{
    if !are_sound(values) {
        return None;
    }
    Some(first_place(values, otherwise))
}

fn are_sound(values: &[Option<Given>]) -> bool
    ensures { result ≡ list_all is_some values.now }
{
    values.iter().all(|value| value.is_some())
}

/// The place of the first of values, and where there are none another.
fn first_place(values: &[Option<Given>], otherwise: Pos) -> Pos
    ensures { result ≡ first_place values.now otherwise }
{
    match values.first() {
        Some(Some(given)) => given.at,
        _ => otherwise,
    }
}
