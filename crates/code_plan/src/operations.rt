//! An instruction to its step.

ghost use Rattle.std.specs.Prelude.{IfOk};
ghost use Rattle.code_plan.specs.Forms.{IsStep};
ghost use Rattle.code_plan.specs.Sites.{site_of};

use crate::error::lost;
use crate::operands::Place;
use crate::steps::Step;
use go_base::NoMemory;
use ssa_ir::Op;

impl Place<'_> {
    /// The step of an instruction that is no phi. It may give a register.
    pub fn step(&self, register: Option<u64>, op: &Op) -> Result<Step, NoMemory>
        ensures { IfOk result (λ step. IsStep (site_of self.now) register op.now step) }
    {
        match op {
            Op::Store { at, value } => self.store(at, value),
            Op::Update { map, key, value } => self.update(map, key, value),
            Op::Call(call) => self.call_step(register, call),
            Op::Go(call) => self.go(call),
            Op::Defer(call) => self.defer(call),
            Op::RunDefers => Ok(Step::RunDefers),
            Op::Send { channel, value } => self.send(channel, value),
            Op::Tick => Ok(Step::Tick),
            Op::Jump(to) => self.jump(*to),
            Op::If {
                test,
                then_to,
                else_to,
            } => self.branch(test, *then_to, *else_to),
            Op::Return(values) => Ok(Step::Return {
                values: self.args(values.as_slice())?,
            }),
            Op::Panic(value) => Ok(Step::Panic {
                value: self.arg(value)?,
            }),
            _ => self.value_step(register, op),
        }
    }

    /// The step of an instruction that gives a register.
    fn value_step(&self, register: Option<u64>, op: &Op) -> Result<Step, NoMemory>
        ensures { IfOk result (λ step. IsStep (site_of self.now) register op.now step) }
    {
        match op {
            Op::New(of) => self.new_cell(register, *of),
            Op::Binary { op, left, right } => self.binary(register, *op, left, right),
            Op::Unary { op, operand } => self.unary(register, *op, operand),
            Op::Load(at) => self.load(register, at),
            Op::Field { operand, field } => self.field(register, operand, *field),
            Op::FieldAddress { operand, field } => self.field_address(register, operand, *field),
            Op::Index { operand, index } => self.index(register, operand, index),
            Op::IndexAddress { operand, index } => self.index_address(register, operand, index),
            Op::Lookup { map, key, comma_ok } => self.lookup(register, map, key, *comma_ok),
            Op::Slice {
                operand,
                low,
                high,
                max,
            } => self.slice(register, operand, low, high, max),
            Op::Convert { to, operand } => self.convert(register, *to, operand),
            Op::ChangeType { operand, .. } => self.keep(register, operand),
            Op::ChangeInterface { operand, .. } => self.keep(register, operand),
            _ => self.made_step(register, op),
        }
    }

    /// The step of an instruction that makes what it gives, or has it from elsewhere.
    fn made_step(&self, register: Option<u64>, op: &Op) -> Result<Step, NoMemory>
        ensures { IfOk result (λ step. IsStep (site_of self.now) register op.now step) }
    {
        match op {
            Op::MakeInterface { operand, .. } => self.make_interface(register, operand),
            Op::MakeClosure { function, captured } => {
                self.make_closure(register, *function, captured.as_slice())
            }
            Op::MakeMap(_) => self.make_map(register),
            Op::MakeChan { of, size } => self.make_chan(register, *of, size),
            Op::MakeSlice { of, len, cap } => self.make_slice(register, *of, len, cap),
            Op::TypeAssert {
                operand,
                to,
                comma_ok,
            } => self.assert(register, operand, *to, *comma_ok),
            Op::Receive { channel, comma_ok } => self.receive(register, channel, *comma_ok),
            Op::Select { blocking, cases } => self.select(register, *blocking, cases.as_slice()),
            Op::Range(operand) => self.range(register, operand),
            Op::Next(operand) => self.next(register, operand),
            Op::Extract { operand, part } => self.extract(register, operand, *part),
            _ => Err(lost()),
        }
    }
}
