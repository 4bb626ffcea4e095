//! The steps of operators.

ghost use Rattle.std.specs.Prelude.{IfOk};
ghost use Rattle.code_plan.specs.Forms.{IsBinary, IsOperation, IsComparison, IsUnary};
ghost use Rattle.code_plan.specs.Sites.{site_of};

use crate::error::lost;
use crate::operands::Place;
use crate::steps::Step;
use go_base::NoMemory;
use go_type::{BinaryOp, CompareOp, UnaryOp};
use ssa_ir::{Infix, Operand};

impl Place<'_> {
    pub fn binary(
        &self,
        register: Option<u64>,
        op: Infix,
        left: &Operand,
        right: &Operand,
    ) -> Result<Step, NoMemory>
        ensures { IfOk result (λ step. IsBinary (site_of self.now) register op left.now right.now step) }
    {
        match op {
            Infix::Operate(op) => self.operate(register, op, left, right),
            Infix::Compare(op) => self.compare(register, op, left, right),
        }
    }

    /// An operator on integers, by the kind of the left operand, or the sum of two texts.
    fn operate(
        &self,
        register: Option<u64>,
        op: BinaryOp,
        left: &Operand,
        right: &Operand,
    ) -> Result<Step, NoMemory>
        ensures { IfOk result (λ step. IsOperation (site_of self.now) register op left.now right.now step) }
    {
        let to = self.to(register)?;
        let one = self.arg(left)?;
        let other = self.arg(right)?;
        match (self.kind_of(left)?, op.shift(), op.int_op()) {
            (Some(kind), Some(is_left), _) => Ok(Step::Shift {
                left: is_left,
                kind,
                value: one,
                count: other,
                to,
            }),
            (Some(kind), None, Some(op)) => Ok(Step::Arithmetic {
                op,
                kind,
                left: one,
                right: other,
                to,
            }),
            _ => match op {
                BinaryOp::Add => Ok(Step::Join {
                    left: one,
                    right: other,
                    to,
                }),
                _ => Err(lost()),
            },
        }
    }

    fn compare(
        &self,
        register: Option<u64>,
        op: CompareOp,
        left: &Operand,
        right: &Operand,
    ) -> Result<Step, NoMemory>
        ensures { IfOk result (λ step. IsComparison (site_of self.now) register op left.now right.now step) }
    {
        if self.kind_of(left)?.is_some() {
            return self.compare_ints(register, op, left, right);
        }
        if self.is_text(left)? {
            return self.compare_texts(register, op, left, right);
        }
        self.equal(register, op, left, right)
    }

    fn compare_ints(
        &self,
        register: Option<u64>,
        op: CompareOp,
        left: &Operand,
        right: &Operand,
    ) -> Result<Step, NoMemory>
        ensures { IfOk result (λ step. IsComparison (site_of self.now) register op left.now right.now step) }
    {
        Ok(Step::CompareInts {
            op,
            left: self.arg(left)?,
            right: self.arg(right)?,
            to: self.to(register)?,
        })
    }

    fn compare_texts(
        &self,
        register: Option<u64>,
        op: CompareOp,
        left: &Operand,
        right: &Operand,
    ) -> Result<Step, NoMemory>
        ensures { IfOk result (λ step. IsComparison (site_of self.now) register op left.now right.now step) }
    {
        Ok(Step::CompareTexts {
            op,
            left: self.arg(left)?,
            right: self.arg(right)?,
            to: self.to(register)?,
        })
    }

    /// Whether values of any type are equal, or different.
    fn equal(
        &self,
        register: Option<u64>,
        op: CompareOp,
        left: &Operand,
        right: &Operand,
    ) -> Result<Step, NoMemory>
        ensures { IfOk result (λ step. IsComparison (site_of self.now) register op left.now right.now step) }
    {
        let wanted = match op {
            CompareOp::Equal => true,
            CompareOp::NotEqual => false,
            _ => return Err(lost()),
        };
        Ok(Step::Equal {
            wanted,
            left: self.arg(left)?,
            right: self.arg(right)?,
            to: self.to(register)?,
        })
    }

    pub fn unary(
        &self,
        register: Option<u64>,
        op: UnaryOp,
        operand: &Operand,
    ) -> Result<Step, NoMemory>
        ensures { IfOk result (λ step. IsUnary (site_of self.now) register op operand.now step) }
    {
        let to = self.to(register)?;
        let arg = self.arg(operand)?;
        match (op, self.kind_of(operand)?) {
            (UnaryOp::Not, _) => Ok(Step::Not { operand: arg, to }),
            (UnaryOp::Negate, Some(kind)) => Ok(Step::Negate {
                kind,
                operand: arg,
                to,
            }),
            (UnaryOp::Complement, Some(kind)) => Ok(Step::Complement {
                kind,
                operand: arg,
                to,
            }),
            _ => Err(lost()),
        }
    }
}
