//! What stands around a statement. Go specification, "Break statements", "Continue statements" and "Fallthrough
//! statements".

ghost use Rattle.std.specs.Prelude.{◌≡◌, suc, IfOk, if◌then◌else◌, nat_lt};
ghost use Rattle.program_typing.specs.Placing.{within_of};
ghost use Rattle.typed_trees.specs.Programs as programs;
ghost use Rattle.typed_trees.specs.Statements as statement;

use go_base::{NoMemory, TypeId};

/// What stands around a statement of a function: the types of the results, how many statements a `break` may leave and
/// how many loops a `continue` may go on with, and whether a clause follows into which it may fall through.
#[derive(Clone, Copy)]
pub struct Within<'a> {
    pub results: &'a [TypeId],
    pub breaks: u64,
    pub continues: u64,
    pub falls: bool,
}

/// What stands around the body of a function with results of these types.
pub fn inside(results: &[TypeId]) -> Within<'_>
    ensures { within_of result ≡ programs.inside results.now }
{
    Within {
        results,
        breaks: 0,
        continues: 0,
        falls: false,
    }
}

/// What stands around a statement that is not the last of a clause.
pub fn in_block(within: Within<'_>) -> Within<'_>
    ensures { within_of result ≡ statement.in_block (within_of within.entry) }
{
    Within {
        results: within.results,
        breaks: within.breaks,
        continues: within.continues,
        falls: false,
    }
}

/// What stands around a statement of a list, behind which more statements stand or none.
pub fn in_turn(within: Within<'_>, more: bool) -> Within<'_>
    ensures { within_of result ≡ (if more then statement.in_block (within_of within.entry) else within_of within.entry) }
{
    if more { in_block(within) } else { within }
}

/// What stands around the body of a loop.
pub fn in_loop(within: Within<'_>) -> Result<Within<'_>, NoMemory>
    ensures { IfOk result (λ inner. within_of inner ≡ statement.in_loop (within_of within.entry)) }
{
    let breaks = one_more(within.breaks)?;
    let continues = one_more(within.continues)?;
    Ok(Within {
        results: within.results,
        breaks,
        continues,
        falls: false,
    })
}

/// What stands around the body of a clause, which may fall through or not.
pub fn in_clause(within: Within<'_>, falls: bool) -> Result<Within<'_>, NoMemory>
    ensures { IfOk result (λ inner. within_of inner ≡ statement.in_clause falls (within_of within.entry)) }
{
    let breaks = one_more(within.breaks)?;
    Ok(Within {
        results: within.results,
        breaks,
        continues: within.continues,
        falls,
    })
}

/// Whether so many of the statements around, less one, may be left.
pub fn is_within(levels: u32, count: u64) -> bool
    ensures { result ≡ nat_lt levels count }
{
    u64::from(levels) < count
}

/// One more statement around, of which memory holds fewer than a number counts.
fn one_more(count: u64) -> Result<u64, NoMemory>
    ensures { IfOk result (λ more. more ≡ suc count) }
{
    match count.checked_add(1) {
        Some(more) => Ok(more),
        None => Err(NoMemory),
    }
}
