//! Parts that came and are sound, put together.

ghost use Rattle.std.specs.Prelude.{◌≡◌, IfOk};
ghost use Rattle.typed_parts.specs.Joining.{asked, beside, both, items_of, only, sound, with_last};
ghost use Rattle.typed_parts.specs.Judged.{reported};

use crate::ground::Ground;
use crate::meaning::Given;
use go_base::{NoMemory, Rule};

/// A first part that came, and a second beside it.
pub fn beside<A: Drop, B: Drop>(first: Result<A, NoMemory>, second: B) -> Result<(A, B), NoMemory>
    ensures { result ≡ beside first second }
{
    match first {
        Ok(first) => Ok((first, second)),
        Err(NoMemory) => Err(NoMemory),
    }
}

/// Two parts, where both came and are sound.
pub fn both<A: Drop, B: Drop>(
    first: Result<Option<A>, NoMemory>,
    second: Result<Option<B>, NoMemory>,
) -> Result<Option<(A, B)>, NoMemory>
    ensures { result ≡ both first second }
{
    let (first, second) = beside(first, second)?;
    let (second, first) = beside(second, first)?;
    Ok(first.zip(second))
}

/// A part that came and is sound.
pub fn sound<T: Drop>(part: Result<T, NoMemory>) -> Result<Option<T>, NoMemory>
    ensures { result ≡ sound part }
{
    match part {
        Ok(part) => Ok(Some(part)),
        Err(NoMemory) => Err(NoMemory),
    }
}

/// A part, where what was asked of it holds.
pub fn only<T: Drop>(part: Option<T>, holds: bool) -> Option<T>
    ensures { result ≡ only part holds }
{
    if holds { part } else { None }
}

/// One more item, where all are there.
pub fn with_last<T: Drop>(
    items: Option<Vec<T>>,
    last: Option<T>,
) -> Result<Option<Vec<T>>, NoMemory>
    ensures { IfOk result (λ made. items_of made ≡ with_last (items_of items) last) }
{
    let Some(mut items) = items else {
        return Ok(None);
    };
    let Some(last) = last else {
        return Ok(None);
    };
    items.push(last)?;
    Ok(Some(items))
}

/// A value of which something was asked. The rule is reported at it where it does not hold.
pub fn asked(ground: &mut Ground, x: Given, holds: bool, rule: Rule) -> Option<Given>
    ensures answer { result ≡ (asked x holds rule).sound }
    ensures broken { ground.new ≡ reported ground.old (asked x holds rule).broken }
{
    if !holds {
        ground.report(x.at, rule);
    }
    holds.then_some(x)
}
