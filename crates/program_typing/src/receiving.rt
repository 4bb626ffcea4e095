//! Where what is received goes. Go specification, "Select statements" and "Receive operator".

ghost use Rattle.std.specs.Prelude.{◌≡◌, length};
ghost use Rattle.program_typing.specs.Telling.{Gives, Tells};
ghost use Rattle.program_typing.specs.Walk as walk;
ghost use Rattle.typed_trees.specs.Expressions as tree;
ghost use Rattle.typed_trees.specs.Statements as statement;
ghost use Rattle.typed_trees.specs.Targets as aims;

use crate::expressions::{received_elem, sends};
use crate::targets::{assign_parts, define_all};
use expr_typing::{Around, see};
use go_base::{NoMemory, TypeId};
use go_tree::{Comm, DefineTarget, ReceiveInto, TypedExpr};
use go_type::{Basic, basic};

/// Whether what a clause of a select waits for fits.
pub fn communicates(around: Around<'_>, comm: &Comm) -> Result<bool, NoMemory>
    ensures { Tells around.entry result (λ a. statement.communicates a comm.now) }
{
    match comm {
        Comm::Default => Ok(true),
        Comm::Send { channel, value } => sends(around, channel, value),
        Comm::Receive { channel, into } => receives_from(around, channel, into),
    }
}

fn receives_from(
    around: Around<'_>,
    channel: &TypedExpr,
    into: &ReceiveInto,
) -> Result<bool, NoMemory>
    ensures { Tells around.entry result (λ a. walk.receives_from a channel.now into.now) }
{
    let channel = see(around, channel)?;
    let received = receives(around, channel.of, into)?;
    Ok(channel.fits & received)
}

fn receives(around: Around<'_>, channel: TypeId, into: &ReceiveInto) -> Result<bool, NoMemory>
    ensures { Tells around.entry result (λ a. aims.receives a channel into.now) }
{
    match received_elem(&around.program.types, channel) {
        Some(elem) => receives_into(around, elem, into),
        None => Ok(false),
    }
}

fn receives_into(around: Around<'_>, elem: TypeId, into: &ReceiveInto) -> Result<bool, NoMemory>
    ensures { Tells around.entry result (λ a. aims.receives_into a elem into.now) }
{
    match into {
        ReceiveInto::Nothing => Ok(true),
        ReceiveInto::Define { targets } => Ok(define_received(around, targets, elem)),
        ReceiveInto::Assign { targets, parts } => {
            let given = [elem, basic(Basic::Bool)];
            assign_parts(around, &given, targets, parts)
        }
    }
}

/// A value, and whether it was sent: the value alone for one target, and else both.
fn define_received(around: Around<'_>, targets: &[DefineTarget], elem: TypeId) -> bool
    ensures { Gives around.entry result (λ a. aims.define_all a targets.now (aims.first_types a (length targets.now) elem)) }
{
    if targets.len() == 1 {
        return define_all(around, targets, &[elem]);
    }
    define_all(around, targets, &[elem, basic(Basic::Bool)])
}
