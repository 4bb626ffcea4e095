//! What the methods of classes call. golang.org/x/tools, package callgraph.

ghost use Rattle.std.specs.Prelude.{◌≡◌, IfOk, OnOk, List};
ghost use Rattle.go_tree.specs.declared.functions.FunctionDecl.{FunctionDecl};
ghost use Rattle.cg_numbers.specs.Numbered.{Extends};
ghost use Rattle.cg_sets.specs.Classes.{AimsAt};
ghost use Rattle.go_type.specs.declared.methods.SelectionKind.TheVariants as kind_of;

use crate::candidates::Goal;
use crate::embedding::{last_embedded, receiver_of};
use crate::error::lost;
use cg_nodes::{Group, Node, Selector};
use cg_numbers::Numbers;
use go_base::{FuncId, NoMemory, TypeId};
use go_tree::Program;
use go_type::{MethodEntry, SelectionKind};

/// What a method calls, and the number of the node that a receiver of a function type comes from.
#[derive(Clone, Copy)]
pub struct Aiming {
    pub goal: Goal,
    pub receiver: usize,
}

/// What a method of a class calls: a function, or what the values of an embedded interface stand for.
pub fn aiming_of(
    program: &Program,
    numbers: &mut Numbers,
    class: TypeId,
    entry: &MethodEntry,
) -> Result<Aiming, NoMemory>
    ensures aims { IfOk result (AimsAt program.now.functions numbers.new class entry.now) }
    ensures extends { OnOk result (Extends numbers.old numbers.new) }
    ensures values { OnOk result (numbers.new.values ≡ numbers.old.values) }
{
    match entry.kind {
        SelectionKind::Method(function) => calling(program, numbers, class, entry, function),
        SelectionKind::InterfaceMethod => asking(numbers, class, entry),
        SelectionKind::Field => Err(lost()),
    }
}

fn calling(
    program: &Program,
    numbers: &mut Numbers,
    class: TypeId,
    entry: &MethodEntry,
    function: FuncId,
) -> Result<Aiming, NoMemory>
    ensures aims { entry.now.kind ≡ kind_of.Method function → IfOk result (AimsAt program.now.functions numbers.new class entry.now) }
    ensures extends { OnOk result (Extends numbers.old numbers.new) }
    ensures values { OnOk result (numbers.new.values ≡ numbers.old.values) }
{
    let types = &numbers.likeness.types;
    let functions = program.functions.as_slice();
    let place = receiver_of(types, functions, class, entry.path.as_slice(), function);
    let receiver = numbers.node(place)?;
    Ok(Aiming {
        goal: Goal::Function(function),
        receiver,
    })
}

fn asking(numbers: &mut Numbers, class: TypeId, entry: &MethodEntry) -> Result<Aiming, NoMemory>
    ensures aims { (functions : List FunctionDecl) → entry.now.kind ≡ kind_of.InterfaceMethod → IfOk result (AimsAt functions numbers.new class entry.now) }
    ensures extends { OnOk result (Extends numbers.old numbers.new) }
    ensures values { OnOk result (numbers.new.values ≡ numbers.old.values) }
{
    let Some(last) = last_embedded(&numbers.likeness.types, class, entry.path.as_slice()) else {
        return Err(lost());
    };
    let of = numbers.node(Node::Field(last.within, last.field as usize))?;
    let group = numbers.group(Group::Selected(Selector {
        of: last.of,
        name: entry.name,
        package: entry.package,
    }))?;
    let receiver = numbers.node(Node::Nothing)?;
    Ok(Aiming {
        goal: Goal::Group { of, group },
        receiver,
    })
}
