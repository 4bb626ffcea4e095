//! Which functions are sane: every register that is used is available, and the blocks fit together.

ghost use Rattle.std.specs.Prelude.{◌≡◌, ◌↔◌, true, length, IfOk, OnOk, IfErr, MatchOption};
ghost use Rattle.ssa_sane.specs.Checks.{Recovers, IsCheck, AreRightBelow};
ghost use Rattle.ssa_sane.specs.declared.checking.SanityError.TheVariants.{OutOfMemory};
ghost use Rattle.ssa_sane.specs.Sane.{IsSane, IsFirstFault, ListsAvailable, IsInsaneAt};

use crate::availability::Available;
use crate::blocks::Check;
use crate::flow::predecessors;
use crate::places::{Places, find_places};
use cg_solve::Table;
use go_base::NoMemory;
use ssa_ir::Function;
use std::alloc::Global;
use std::collections::HashMap;
use thiserror::Error;

/// Why a function is not sane.
#[derive(Clone, Copy, Debug, PartialEq, Eq, Error)]
pub enum SanityError {
    #[error("insane at block {block}, instruction {instr}")]
    Insane { block: u64, instr: u64 },
    #[error("out of memory")]
    OutOfMemory,
}

impl From<NoMemory> for SanityError {
    ghost from_gives = { λ error sanity. sanity ≡ OutOfMemory };

    fn from(_: NoMemory) -> SanityError {
        SanityError::OutOfMemory
    }
}

/// The registers that are available at the entry of each block of a sane function, or the first place where it is not
/// sane, by block, then by instruction.
pub fn sanity(alloc: Global, function: &Function) -> Result<Available, SanityError>
    ensures sane { OnOk result (IsSane function.now) }
    ensures lists { IfOk result (ListsAvailable function.now) }
    ensures insane { IfErr result (IsInsaneAt function.now) }
{
    if !has_its_recover(function) {
        return Err(SanityError::Insane { block: 0, instr: 0 });
    }
    let preds = predecessors(alloc, function)?;
    let (places, counts) = find_places(alloc, function, &preds)?;
    match first_insane(alloc, function, &preds, &places)? {
        Some(place) => Err(SanityError::Insane {
            block: place.block as u64,
            instr: place.instr as u64,
        }),
        None => {
            let available = Available::new(alloc, places, &counts, function.blocks.len())?;
            Ok(available)
        }
    }
}

/// A place in a function.
#[derive(Clone, Copy)]
struct Place {
    block: usize,
    instr: usize,
}

/// The first place at which something is wrong.
fn first_insane(
    alloc: Global,
    function: &Function,
    preds: &Table<usize>,
    places: &Places,
) -> Result<Option<Place>, NoMemory>
    requires { IsCheck function.now preds.now places.now }
    ensures { IfOk result (λ found. MatchOption found (AreRightBelow function.now (length function.now.blocks)) (λ place. IsFirstFault function.now place.block place.instr)) }
{
    let check = Check {
        function,
        preds,
        places,
    };
    let mut seen = HashMap::new(alloc);
    let mut used = Vec::new(alloc);
    for (number, block) in function.blocks.as_slice().iter().enumerate() {
        let found = check.block(&mut seen, &mut used, number, block)?;
        match found {
            Some(instr) => {
                return Ok(Some(Place {
                    block: number,
                    instr,
                }));
            }
            None => {}
        }
    }
    Ok(None)
}

/// Whether a recover block exists where one is named.
fn has_its_recover(function: &Function) -> bool
    ensures { (result ≡ true) ↔ Recovers function.now }
{
    match function.recover {
        Some(recover) => recover.number < function.blocks.len() as u64,
        None => true,
    }
}
