//! Instructions.

ghost use Rattle.std.specs.Prelude.{◌≡◌, IfOk};
ghost use Rattle.ssa_ir.specs.Blocks.{is_end_op, targets_of};

use crate::instr_lists::{Operands, PhiEdges, SelectCases};
use crate::operands::Operand;
use go_base::{BlockId, FuncId, NameId, NoMemory, Pos, TypeId};
use go_type::{BinaryOp, Builtin, CompareOp, UnaryOp};
use std::alloc::Global;

/// An operator between two operands.
#[derive(Clone, Copy, PartialEq, Eq)]
pub enum Infix {
    Operate(BinaryOp),
    Compare(CompareOp),
}

/// The value of a phi where its block is entered from a predecessor.
pub struct PhiEdge {
    pub from: BlockId,
    pub value: Operand,
}

impl Drop for PhiEdge {
    fn drop(self) {
        let PhiEdge {
            from: _from,
            value: _value,
        } = self;
    }
}

impl PhiEdge {
    /// The same edge once more.
    pub fn copy(&self, alloc: Global) -> Result<PhiEdge, NoMemory>
        ensures { IfOk result (λ copy. copy ≡ self.now) }
    {
        Ok(PhiEdge {
            from: self.from,
            value: self.value.copy(alloc)?,
        })
    }
}

/// A case of a `select`.
pub enum SelectCase {
    Send { channel: Operand, value: Operand },
    Receive { channel: Operand },
}

impl Drop for SelectCase {
    fn drop(self) {
        match self {
            SelectCase::Send {
                channel: _channel,
                value: _value,
            } => {}
            SelectCase::Receive { channel: _channel } => {}
        }
    }
}

/// A call.
pub enum Call {
    /// Of a function.
    Static {
        function: FuncId,
        arguments: Operands,
    },
    /// Of a function value.
    Dynamic {
        callee: Operand,
        arguments: Operands,
    },
    /// Of a method of an interface value.
    Invoke {
        receiver: Operand,
        name: NameId,
        /// The package of the name, or `EXPORTED`.
        package: u32,
        arguments: Operands,
    },
    Builtin {
        builtin: Builtin,
        arguments: Operands,
    },
}

impl Drop for Call {
    fn drop(self) {
        match self {
            Call::Static {
                function: _function,
                arguments: _arguments,
            } => {}
            Call::Dynamic {
                callee: _callee,
                arguments: _arguments,
            } => {}
            Call::Invoke {
                receiver: _receiver,
                name: _name,
                package: _package,
                arguments: _arguments,
            } => {}
            Call::Builtin {
                builtin: _builtin,
                arguments: _arguments,
            } => {}
        }
    }
}

/// What an instruction does.
pub enum Op {
    New(TypeId),
    Phi(PhiEdges),
    Binary {
        op: Infix,
        left: Operand,
        right: Operand,
    },
    Unary {
        op: UnaryOp,
        operand: Operand,
    },
    Load(Operand),
    Store {
        at: Operand,
        value: Operand,
    },
    Field {
        operand: Operand,
        field: u32,
    },
    FieldAddress {
        operand: Operand,
        field: u32,
    },
    Index {
        operand: Operand,
        index: Operand,
    },
    IndexAddress {
        operand: Operand,
        index: Operand,
    },
    Lookup {
        map: Operand,
        key: Operand,
        comma_ok: bool,
    },
    Update {
        map: Operand,
        key: Operand,
        value: Operand,
    },
    Slice {
        operand: Operand,
        low: Option<Operand>,
        high: Option<Operand>,
        max: Option<Operand>,
    },
    Convert {
        to: TypeId,
        operand: Operand,
    },
    ChangeType {
        to: TypeId,
        operand: Operand,
    },
    MakeInterface {
        to: TypeId,
        operand: Operand,
    },
    ChangeInterface {
        to: TypeId,
        operand: Operand,
    },
    MakeClosure {
        function: FuncId,
        captured: Operands,
    },
    MakeMap(TypeId),
    MakeChan {
        of: TypeId,
        size: Operand,
    },
    MakeSlice {
        of: TypeId,
        len: Operand,
        cap: Operand,
    },
    TypeAssert {
        operand: Operand,
        to: TypeId,
        comma_ok: bool,
    },
    Call(Call),
    Go(Call),
    Defer(Call),
    RunDefers,
    Send {
        channel: Operand,
        value: Operand,
    },
    Receive {
        channel: Operand,
        comma_ok: bool,
    },
    Select {
        blocking: bool,
        cases: SelectCases,
    },
    Range(Operand),
    Next(Operand),
    Extract {
        operand: Operand,
        part: u32,
    },
    Tick,
    Jump(BlockId),
    If {
        test: Operand,
        then_to: BlockId,
        else_to: BlockId,
    },
    Return(Operands),
    Panic(Operand),
}

impl Drop for Op {
    fn drop(self) {
        match self {
            Op::New(_held) => {}
            Op::Phi(_held) => {}
            Op::Binary {
                op: _op,
                left: _left,
                right: _right,
            } => {}
            Op::Unary {
                op: _op,
                operand: _operand,
            } => {}
            Op::Load(_held) => {}
            Op::Store {
                at: _at,
                value: _value,
            } => {}
            Op::Field {
                operand: _operand,
                field: _field,
            } => {}
            Op::FieldAddress {
                operand: _operand,
                field: _field,
            } => {}
            Op::Index {
                operand: _operand,
                index: _index,
            } => {}
            Op::IndexAddress {
                operand: _operand,
                index: _index,
            } => {}
            Op::Lookup {
                map: _map,
                key: _key,
                comma_ok: _comma_ok,
            } => {}
            Op::Update {
                map: _map,
                key: _key,
                value: _value,
            } => {}
            Op::Slice {
                operand: _operand,
                low: _low,
                high: _high,
                max: _max,
            } => {}
            Op::Convert {
                to: _to,
                operand: _operand,
            } => {}
            Op::ChangeType {
                to: _to,
                operand: _operand,
            } => {}
            Op::MakeInterface {
                to: _to,
                operand: _operand,
            } => {}
            Op::ChangeInterface {
                to: _to,
                operand: _operand,
            } => {}
            Op::MakeClosure {
                function: _function,
                captured: _captured,
            } => {}
            Op::MakeMap(_held) => {}
            Op::MakeChan {
                of: _of,
                size: _size,
            } => {}
            Op::MakeSlice {
                of: _of,
                len: _len,
                cap: _cap,
            } => {}
            Op::TypeAssert {
                operand: _operand,
                to: _to,
                comma_ok: _comma_ok,
            } => {}
            Op::Call(_held) => {}
            Op::Go(_held) => {}
            Op::Defer(_held) => {}
            Op::RunDefers => {}
            Op::Send {
                channel: _channel,
                value: _value,
            } => {}
            Op::Receive {
                channel: _channel,
                comma_ok: _comma_ok,
            } => {}
            Op::Select {
                blocking: _blocking,
                cases: _cases,
            } => {}
            Op::Range(_held) => {}
            Op::Next(_held) => {}
            Op::Extract {
                operand: _operand,
                part: _part,
            } => {}
            Op::Tick => {}
            Op::Jump(_held) => {}
            Op::If {
                test: _test,
                then_to: _then_to,
                else_to: _else_to,
            } => {}
            Op::Return(_held) => {}
            Op::Panic(_held) => {}
        }
    }
}

impl Op {
    /// Whether a block ends with it.
    pub fn is_end(&self) -> bool
        ensures { result ≡ is_end_op self.now }
    {
        matches!(
            self,
            Op::Jump(_) | Op::If { .. } | Op::Return(_) | Op::Panic(_)
        )
    }

    /// The blocks that it may lead to.
    pub fn targets(&self) -> (Option<BlockId>, Option<BlockId>)
        ensures { result ≡ targets_of self.now }
    {
        match self {
            Op::Jump(to) => (Some(*to), None),
            Op::If {
                then_to,
                else_to,
                ..
            } => (Some(*then_to), Some(*else_to)),
            _ => (None, None),
        }
    }
}

/// An instruction, the register that it gives, and the place of the expression or statement from which it is built.
pub struct Instr {
    pub op: Op,
    pub register: Option<u64>,
    pub at: Pos,
}

impl Drop for Instr {
    fn drop(self) {
        let Instr {
            op: _op,
            register: _register,
            at: _at,
        } = self;
    }
}
