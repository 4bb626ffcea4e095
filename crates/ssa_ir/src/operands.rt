//! Operands of instructions.

ghost use Rattle.std.specs.Prelude.{◌≡◌, IfOk};

use go_base::{Bytes, FuncId, NoMemory, TypeId, VarId};
use std::alloc::Global;

/// The value of a constant.
pub enum ConstValue {
    Int(i128),
    Truth(bool),
    Text(Bytes),
    Nil,
    /// The zero value of its type.
    Zero,
}

impl Drop for ConstValue {
    fn drop(self) {
        match self {
            ConstValue::Int(_held) => {}
            ConstValue::Truth(_held) => {}
            ConstValue::Text(_held) => {}
            ConstValue::Nil => {}
            ConstValue::Zero => {}
        }
    }
}

impl ConstValue {
    /// The same value once more.
    pub fn copy(&self, alloc: Global) -> Result<ConstValue, NoMemory>
        ensures { IfOk result (λ copy. copy ≡ self.now) }
    {
        Ok(match self {
            ConstValue::Int(value) => ConstValue::Int(*value),
            ConstValue::Truth(value) => ConstValue::Truth(*value),
            ConstValue::Text(bytes) => {
                ConstValue::Text(Bytes::new(Vec::from_slice(alloc, bytes.as_slice())?))
            }
            ConstValue::Nil => ConstValue::Nil,
            ConstValue::Zero => ConstValue::Zero,
        })
    }
}

/// What an instruction works on.
pub enum Operand {
    /// A parameter, counted from 0; a receiver is the first.
    Param(u64),
    /// A free variable, counted from 0.
    Free(u64),
    Register(u64),
    Function(FuncId),
    /// The address of a package variable.
    Variable(VarId),
    Constant { value: ConstValue, of: TypeId },
}

impl Drop for Operand {
    fn drop(self) {
        match self {
            Operand::Param(_held) => {}
            Operand::Free(_held) => {}
            Operand::Register(_held) => {}
            Operand::Function(_held) => {}
            Operand::Variable(_held) => {}
            Operand::Constant {
                value: _value,
                of: _of,
            } => {}
        }
    }
}

impl Operand {
    /// The same operand once more.
    pub fn copy(&self, alloc: Global) -> Result<Operand, NoMemory>
        ensures { IfOk result (λ copy. copy ≡ self.now) }
    {
        Ok(match self {
            Operand::Param(number) => Operand::Param(*number),
            Operand::Free(number) => Operand::Free(*number),
            Operand::Register(number) => Operand::Register(*number),
            Operand::Function(function) => Operand::Function(*function),
            Operand::Variable(variable) => Operand::Variable(*variable),
            Operand::Constant { value, of } => Operand::Constant {
                value: value.copy(alloc)?,
                of: *of,
            },
        })
    }
}
