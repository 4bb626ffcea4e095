//! One step of the current goroutine.

ghost use Rattle.std.specs.Prelude.{◌≡◌, ◌==◌, Some, IfOk, OnOk, length, map, option_map};
ghost use Rattle.std.specs.List.{find};
ghost use Rattle.go_interp.specs.Phis.{PushesPhi, with_written};
ghost use Rattle.go_interp.specs.Steps.{HasSteps, runs};
ghost use Rattle.go_value.specs.Values.{value_of};
ghost use Rattle.interp_state.specs.Machines.{machine_of};
ghost use Rattle.interp_state.specs.Turns.{Steps};
ghost use Rattle.plan_mean.specs.Operands.{look};
ghost use Rattle.plan_mean.specs.State.{where_there};
ghost use Rattle.plan_mean.specs.Step.{acts, branches, edge_value, enters_block, jumps, with_phis};
ghost use Rattle.plan_mean.specs.Step as steps;

use code_plan::{Arg, PlannedBlock, PlannedEdge, PlannedFunction, PlannedPhi, Step};
use go_base::NoMemory;
use go_value::Value;
use interp_builtins::channels;
use interp_calls::{calling, unwinding};
use interp_state::{FrameState, Machine, Turn, lost};
use interp_values::{arithmetic, making, places, ranging};

/// How many steps are made before the output that is kept is looked at.
const TURNS: u32 = 1024;

/// Steps until something else than a step is due, or for some time.
pub fn make_steps(machine: &mut Machine<'_>) -> Turn
    ensures { HasSteps result machine.old machine.new }
{
    for _ in 0..TURNS {
        match step(machine) {
            Turn::Goes => {}
            other => return other,
        }
    }
    Turn::Goes
}

/// One step: an instruction, or what a frame that returns or panics does.
fn step<'a>(machine: &mut Machine<'a>) -> Turn
    ensures { Steps result machine.old machine.new (λ w. steps.step w (machine_of machine.old)) }
{
    match &machine.current.top {
        Some(top) => match &top.state {
            FrameState::Running => advance(machine),
            _ => unwinding::unwind(machine),
        },
        None => calling::begin_or_end(machine),
    }
}

/// One step of a frame that runs: it stands behind the step when that is done.
#[inline(always)]
fn advance<'a>(machine: &mut Machine<'a>) -> Turn
    ensures { Steps result machine.old machine.new (λ w. runs w (machine_of machine.old) (machine_of machine.old).current.frames) }
{
    let Some(top) = &mut machine.current.top else {
        return Turn::WantsMemory;
    };
    let steps: &'a [Step] = top.steps;
    if top.step >= steps.len() {
        return Turn::WantsMemory;
    }
    match steps.get(top.step) {
        Some(step) => {
            top.step = top.step.saturating_add(1);
            act(machine, step)
        }
        None => Turn::WantsMemory,
    }
}

fn act<'a>(machine: &mut Machine<'a>, step: &'a Step) -> Turn
    ensures { Steps result machine.old machine.new (λ w. acts w (machine_of machine.old) step.now) }
{
    match step {
        Step::Arithmetic {
            op,
            kind,
            left,
            right,
            to,
        } => arithmetic::calculate(machine, *op, *kind, left, right, *to),
        Step::CompareInts {
            op,
            left,
            right,
            to,
        } => arithmetic::compare_ints(machine, *op, left, right, *to),
        Step::Load { at, to } => places::load(machine, at, *to),
        Step::Store { at, value } => places::store(machine, at, value),
        Step::FieldAddress { operand, field, to } => places::field_address(
            machine, operand, *field, *to,
        ),
        Step::SliceElement { operand, index, to } => places::slice_element(
            machine, operand, index, *to,
        ),
        Step::ArrayElement {
            operand,
            index,
            len,
            to,
        } => places::array_element(machine, operand, index, *len, *to),
        Step::Jump { to } => jump(machine, *to),
        Step::If {
            test,
            then_to,
            else_to,
        } => branch(machine, test, *then_to, *else_to),
        Step::Tick => machine.spend(),
        Step::New { zero, to } => places::make_cell(machine, zero, *to),
        Step::Call { call, to } => calling::call(machine, call, *to),
        Step::Return { values } => calling::give_results(machine, values),
        Step::Extract { operand, part, to } => places::extract(machine, operand, *part, *to),
        Step::Keep { operand, to } => places::keep(machine, operand, *to),
        _ => act_rarely(machine, step),
    }
}

#[inline(never)]
fn act_rarely<'a>(machine: &mut Machine<'a>, step: &'a Step) -> Turn
    ensures { Steps result machine.old machine.new (λ w. acts w (machine_of machine.old) step.now) }
{
    match step {
        Step::Shift {
            left,
            kind,
            value,
            count,
            to,
        } => arithmetic::shift(machine, *left, *kind, value, count, *to),
        Step::Join { left, right, to } => arithmetic::join(machine, left, right, *to),
        Step::CompareTexts {
            op,
            left,
            right,
            to,
        } => arithmetic::compare_texts(machine, *op, left, right, *to),
        Step::Equal {
            wanted,
            left,
            right,
            to,
        } => arithmetic::equal(machine, *wanted, left, right, *to),
        Step::Negate { kind, operand, to } => arithmetic::negate(machine, *kind, operand, *to),
        Step::Complement { kind, operand, to } => arithmetic::complement(
            machine, *kind, operand, *to,
        ),
        Step::Not { operand, to } => arithmetic::not(machine, operand, *to),
        Step::Field { operand, field, to } => places::field(machine, operand, *field, *to),
        Step::Element { operand, index, to } => places::array_item(machine, operand, index, *to),
        Step::Byte { operand, index, to } => places::byte(machine, operand, index, *to),
        Step::Lookup { .. } | Step::Update { .. } => making::act_on_map(machine, step),
        Step::Cut { .. } => making::cut(machine, step),
        Step::Convert { form, operand, to } => making::convert(machine, *form, operand, *to),
        Step::MakeInterface { of, operand, to } => making::make_interface(
            machine, *of, operand, *to,
        ),
        Step::Closure {
            function,
            captured,
            to,
        } => making::closure(machine, *function, captured, *to),
        Step::Bind {
            target,
            is_interface,
            receiver,
            to,
        } => making::bind(machine, *target, *is_interface, receiver, *to),
        Step::Assert { .. } => making::assert(machine, step),
        _ => act_outside(machine, step),
    }
}

/// What makes maps, channels and slices, ranges, and what other goroutines or later calls see.
#[inline(never)]
fn act_outside<'a>(machine: &mut Machine<'a>, step: &'a Step) -> Turn
    ensures { Steps result machine.old machine.new (λ w. acts w (machine_of machine.old) step.now) }
{
    match step {
        Step::MakeMap { to } => making::make_map(machine, *to),
        Step::MakeChan { leaves, size, to } => making::make_chan(machine, *leaves, size, *to),
        Step::MakeSlice {
            zero,
            leaves,
            len,
            cap,
            to,
        } => making::make_slice(machine, zero, *leaves, len, cap, *to),
        Step::Go { call } => calling::go(machine, call),
        Step::Defer { call } => calling::defer(machine, call),
        Step::RunDefers => unwinding::run_defers(machine),
        Step::Send { channel, value } => channels::send(machine, channel, value),
        Step::Receive {
            channel,
            zero,
            comma_ok,
            to,
        } => channels::receive(machine, channel, zero, *comma_ok, *to),
        Step::Select {
            blocking,
            cases,
            to,
        } => channels::select(machine, *blocking, cases, *to),
        Step::Range { operand, to } => ranging::range(machine, operand, *to),
        Step::NextText { range, to } => ranging::next_text(machine, *range, *to),
        Step::NextMap {
            range,
            key,
            value,
            to,
        } => ranging::next_map(machine, *range, key, value, *to),
        Step::Panic { value } => unwinding::panic(machine, value),
        _ => Turn::WantsMemory,
    }
}

fn branch(machine: &mut Machine<'_>, test: &Arg, then_to: u32, else_to: u32) -> Turn
    ensures { Steps result machine.old machine.new (λ w. where_there (branches (machine_of machine.old) then_to else_to) (look (machine_of machine.old) test.now)) }
{
    match machine.truth(test) {
        Ok(true) => jump(machine, then_to),
        Ok(false) => jump(machine, else_to),
        Err(_) => Turn::WantsMemory,
    }
}

fn jump<'a>(machine: &mut Machine<'a>, to: u32) -> Turn
    ensures { Steps result machine.old machine.new (λ w. jumps to (machine_of machine.old)) }
{
    let Some(top) = &mut machine.current.top else {
        return Turn::WantsMemory;
    };
    let (function, from): (&'a PlannedFunction, u32) = (top.function, top.block);
    match function.blocks.get(to as usize) {
        Some(block) => {
            top.stand_at(to, block.steps.as_slice());
            enter_block(machine, block, from)
        }
        None => Turn::WantsMemory,
    }
}

fn enter_block(machine: &mut Machine<'_>, block: &PlannedBlock, from: u32) -> Turn
    ensures { Steps result machine.old machine.new (λ w. enters_block from block.now (machine_of machine.old)) }
{
    if block.phis.is_empty() {
        return Turn::Goes;
    }
    match read_phis(machine, block.phis.as_slice(), from) {
        Ok(()) => Turn::Goes,
        Err(_) => Turn::WantsMemory,
    }
}

/// All phis are read before one is written.
#[inline(never)]
fn read_phis(machine: &mut Machine<'_>, phis: &[PlannedPhi], from: u32) -> Result<(), NoMemory>
    ensures phis { OnOk result (with_phis (machine_of machine.old) from phis.now (machine_of machine.old) ≡ Some (machine_of machine.new)) }
    ensures others { machine.new ≡ record machine.old { current = record (machine.old.current) { stack = machine.new.current.stack }; waiting = machine.new.waiting } }
{
    machine.waiting.clear();
    for phi in phis {
        push_phi(machine, phi, from)?;
    }
    write_phis(machine, phis)
}

/// The value of one phi more is on its way.
#[inline(always)]
fn push_phi(machine: &mut Machine<'_>, phi: &PlannedPhi, from: u32) -> Result<(), NoMemory>
    ensures read { OnOk result (PushesPhi (machine_of machine.old) from phi.now machine.old.waiting.items machine.new.waiting.items) }
    ensures others { machine.new ≡ record machine.old { waiting = machine.new.waiting } }
{
    let value = phi_value(machine, phi, from)?;
    machine.waiting.push(value)?;
    Ok(())
}

/// The last phi gets the last value that was read.
fn write_phis(machine: &mut Machine<'_>, phis: &[PlannedPhi]) -> Result<(), NoMemory>
    ensures phis { length phis.now ≡ length machine.old.waiting.items → OnOk result (machine_of machine.new ≡ with_written phis.now (map value_of machine.old.waiting.items) (machine_of machine.old)) }
    ensures others { machine.new ≡ record machine.old { current = record (machine.old.current) { stack = machine.new.current.stack }; waiting = machine.new.waiting } }
{
    let mut left = phis;
    while let Some((phi, front)) = left.split_last() {
        match machine.waiting.pop() {
            Some(value) => machine.set(phi.to, value),
            None => return Err(lost()),
        }
        left = front;
    }
    Ok(())
}

fn phi_value(machine: &Machine<'_>, phi: &PlannedPhi, from: u32) -> Result<Value, NoMemory>
    ensures { IfOk result (λ it. edge_value (machine_of machine.now) from phi.now ≡ Some (value_of it)) }
{
    match edge_from(phi.edges.as_slice(), from) {
        Some(edge) => machine.read(&edge.value),
        None => Err(lost()),
    }
}

/// The first edge from a block.
#[inline(always)]
fn edge_from(edges: &[PlannedEdge], from: u32) -> Option<&PlannedEdge>
    ensures { option_map (λ it. it.now) result ≡ find (λ edge. edge.from == from) edges.now }
{
    for edge in edges {
        if edge.from == from {
            return Some(edge);
        }
    }
    None
}
