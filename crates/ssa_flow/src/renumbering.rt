//! The functions that code names, by their numbers in the code.

use crate::error::lost;
use go_base::{FuncId, NoMemory};
use ssa_ir::{
    Block, Blocks, Call, Function, Instr, Instrs, Op, Operand, Operands, PhiEdge, PhiEdges,
    SelectCase, SelectCases,
};
use std::alloc::Global;

/// The numbers in the code of the program's functions, and of the wrappers by the number of their need.
#[derive(Drop)]
pub(crate) struct Numbers {
    pub functions: Vec<u64>,
    pub wrappers: Vec<u64>,
}

/// What the numbers of a function are read by.
#[derive(Clone, Copy)]
struct Reader<'a> {
    alloc: Global,
    numbers: &'a Numbers,
    /// For each need of the function its number among all.
    needs: &'a [u64],
}

impl Numbers {
    /// The number in the code of a function of the program.
    pub fn function(&self, function: FuncId) -> Result<FuncId, NoMemory> {
        match self.functions.get(function.number as usize) {
            Some(number) => Ok(FuncId { number: *number }),
            None => Err(lost()),
        }
    }

    /// The number in the code of the wrapper of a need.
    pub fn wrapper(&self, need: u64) -> Result<FuncId, NoMemory> {
        match self.wrappers.get(need as usize) {
            Some(number) => Ok(FuncId { number: *number }),
            None => Err(lost()),
        }
    }
}

/// A function whose code names functions by their numbers in the code.
pub(crate) fn renumber(
    alloc: Global,
    function: Function,
    numbers: &Numbers,
    needs: &[u64],
) -> Result<Function, NoMemory> {
    let reader = Reader {
        alloc,
        numbers,
        needs,
    };
    let mut renumbered = function;
    let mut blocks = Blocks::new(alloc);
    for block in renumbered.blocks.as_slice() {
        blocks.push(reader.block(block)?)?;
    }
    renumbered.blocks = blocks;
    Ok(renumbered)
}

impl Reader<'_> {
    fn block(self, block: &Block) -> Result<Block, NoMemory> {
        let mut instrs = Instrs::new(self.alloc);
        for instr in block.instrs.as_slice() {
            instrs.push(Instr {
                op: self.op(&instr.op)?,
                register: instr.register,
                at: instr.at,
            })?;
        }
        Ok(Block {
            preds: block.preds.copy(self.alloc)?,
            instrs,
        })
    }

    fn function(self, function: FuncId) -> Result<FuncId, NoMemory> {
        let count = self.numbers.functions.len() as u64;
        if function.number < count {
            return self.numbers.function(function);
        }
        let place = function.number.saturating_sub(count);
        match self.needs.get(place as usize) {
            Some(need) => self.numbers.wrapper(*need),
            None => Err(lost()),
        }
    }

    fn operand(self, operand: &Operand) -> Result<Operand, NoMemory> {
        match operand {
            Operand::Function(function) => Ok(Operand::Function(self.function(*function)?)),
            _ => operand.copy(self.alloc),
        }
    }

    fn two(self, first: &Operand, second: &Operand) -> Result<(Operand, Operand), NoMemory> {
        let first = self.operand(first)?;
        let second = self.operand(second)?;
        Ok((first, second))
    }

    fn some(self, operand: &Option<Operand>) -> Result<Option<Operand>, NoMemory> {
        match operand {
            Some(operand) => Ok(Some(self.operand(operand)?)),
            None => Ok(None),
        }
    }

    /// The bounds of a slice expression.
    fn bounds(
        self,
        low: &Option<Operand>,
        high: &Option<Operand>,
        max: &Option<Operand>,
    ) -> Result<(Option<Operand>, Option<Operand>, Option<Operand>), NoMemory> {
        let low = self.some(low)?;
        let high = self.some(high)?;
        let max = self.some(max)?;
        Ok((low, high, max))
    }

    fn operands(self, operands: &Operands) -> Result<Operands, NoMemory> {
        let mut copies = Operands::new(self.alloc);
        for operand in operands.as_slice() {
            copies.push(self.operand(operand)?)?;
        }
        Ok(copies)
    }

    fn edges(self, edges: &PhiEdges) -> Result<PhiEdges, NoMemory> {
        let mut copies = PhiEdges::new(self.alloc);
        for edge in edges.as_slice() {
            copies.push(PhiEdge {
                from: edge.from,
                value: self.operand(&edge.value)?,
            })?;
        }
        Ok(copies)
    }

    fn cases(self, cases: &SelectCases) -> Result<SelectCases, NoMemory> {
        let mut copies = SelectCases::new(self.alloc);
        for case in cases.as_slice() {
            copies.push(self.case(case)?)?;
        }
        Ok(copies)
    }

    fn case(self, case: &SelectCase) -> Result<SelectCase, NoMemory> {
        match case {
            SelectCase::Send { channel, value } => {
                let (channel, value) = self.two(channel, value)?;
                Ok(SelectCase::Send { channel, value })
            }
            SelectCase::Receive { channel } => Ok(SelectCase::Receive {
                channel: self.operand(channel)?,
            }),
        }
    }

    fn call(self, call: &Call) -> Result<Call, NoMemory> {
        match call {
            Call::Static {
                function,
                arguments,
            } => Ok(Call::Static {
                function: self.function(*function)?,
                arguments: self.operands(arguments)?,
            }),
            Call::Dynamic { callee, arguments } => Ok(Call::Dynamic {
                callee: self.operand(callee)?,
                arguments: self.operands(arguments)?,
            }),
            Call::Invoke {
                receiver,
                name,
                package,
                arguments,
            } => Ok(Call::Invoke {
                receiver: self.operand(receiver)?,
                name: *name,
                package: *package,
                arguments: self.operands(arguments)?,
            }),
            Call::Builtin { builtin, arguments } => Ok(Call::Builtin {
                builtin: *builtin,
                arguments: self.operands(arguments)?,
            }),
        }
    }

    fn op(self, op: &Op) -> Result<Op, NoMemory> {
        match op {
            Op::Phi(edges) => Ok(Op::Phi(self.edges(edges)?)),
            Op::Call(call) => Ok(Op::Call(self.call(call)?)),
            Op::Go(call) => Ok(Op::Go(self.call(call)?)),
            Op::Defer(call) => Ok(Op::Defer(self.call(call)?)),
            Op::MakeClosure { function, captured } => Ok(Op::MakeClosure {
                function: self.function(*function)?,
                captured: self.operands(captured)?,
            }),
            Op::Select { blocking, cases } => Ok(Op::Select {
                blocking: *blocking,
                cases: self.cases(cases)?,
            }),
            Op::Return(values) => Ok(Op::Return(self.operands(values)?)),
            _ => self.plain(op),
        }
    }

    /// An instruction with a fixed number of operands.
    fn plain(self, op: &Op) -> Result<Op, NoMemory> {
        match op {
            Op::New(of) => Ok(Op::New(*of)),
            Op::Binary { op, left, right } => {
                let (left, right) = self.two(left, right)?;
                let op = *op;
                Ok(Op::Binary { op, left, right })
            }
            Op::Unary { op, operand } => Ok(Op::Unary {
                op: *op,
                operand: self.operand(operand)?,
            }),
            Op::Load(at) => Ok(Op::Load(self.operand(at)?)),
            Op::Store { at, value } => {
                let (at, value) = self.two(at, value)?;
                Ok(Op::Store { at, value })
            }
            Op::Field { operand, field } => Ok(Op::Field {
                operand: self.operand(operand)?,
                field: *field,
            }),
            Op::FieldAddress { operand, field } => Ok(Op::FieldAddress {
                operand: self.operand(operand)?,
                field: *field,
            }),
            _ => self.element(op),
        }
    }

    /// An instruction on the elements of a value.
    fn element(self, op: &Op) -> Result<Op, NoMemory> {
        match op {
            Op::Index { operand, index } => {
                let (operand, index) = self.two(operand, index)?;
                Ok(Op::Index { operand, index })
            }
            Op::IndexAddress { operand, index } => {
                let (operand, index) = self.two(operand, index)?;
                Ok(Op::IndexAddress { operand, index })
            }
            Op::Lookup { map, key, comma_ok } => {
                let (map, key) = self.two(map, key)?;
                let comma_ok = *comma_ok;
                Ok(Op::Lookup { map, key, comma_ok })
            }
            Op::Update { map, key, value } => {
                let (map, key) = self.two(map, key)?;
                let value = self.operand(value)?;
                Ok(Op::Update { map, key, value })
            }
            Op::Slice {
                operand,
                low,
                high,
                max,
            } => {
                let operand = self.operand(operand)?;
                let (low, high, max) = self.bounds(low, high, max)?;
                Ok(Op::Slice {
                    operand,
                    low,
                    high,
                    max,
                })
            }
            Op::Extract { operand, part } => Ok(Op::Extract {
                operand: self.operand(operand)?,
                part: *part,
            }),
            _ => self.typed(op),
        }
    }

    /// An instruction that names a type.
    fn typed(self, op: &Op) -> Result<Op, NoMemory> {
        match op {
            Op::Convert { to, operand } => Ok(Op::Convert {
                to: *to,
                operand: self.operand(operand)?,
            }),
            Op::ChangeType { to, operand } => Ok(Op::ChangeType {
                to: *to,
                operand: self.operand(operand)?,
            }),
            Op::MakeInterface { to, operand } => Ok(Op::MakeInterface {
                to: *to,
                operand: self.operand(operand)?,
            }),
            Op::ChangeInterface { to, operand } => Ok(Op::ChangeInterface {
                to: *to,
                operand: self.operand(operand)?,
            }),
            Op::TypeAssert {
                operand,
                to,
                comma_ok,
            } => Ok(Op::TypeAssert {
                operand: self.operand(operand)?,
                to: *to,
                comma_ok: *comma_ok,
            }),
            Op::MakeMap(of) => Ok(Op::MakeMap(*of)),
            Op::MakeChan { of, size } => Ok(Op::MakeChan {
                of: *of,
                size: self.operand(size)?,
            }),
            Op::MakeSlice { of, len, cap } => {
                let (len, cap) = self.two(len, cap)?;
                Ok(Op::MakeSlice { of: *of, len, cap })
            }
            _ => self.other(op),
        }
    }

    fn other(self, op: &Op) -> Result<Op, NoMemory> {
        match op {
            Op::RunDefers => Ok(Op::RunDefers),
            Op::Send { channel, value } => {
                let (channel, value) = self.two(channel, value)?;
                Ok(Op::Send { channel, value })
            }
            Op::Receive { channel, comma_ok } => Ok(Op::Receive {
                channel: self.operand(channel)?,
                comma_ok: *comma_ok,
            }),
            Op::Range(operand) => Ok(Op::Range(self.operand(operand)?)),
            Op::Next(operand) => Ok(Op::Next(self.operand(operand)?)),
            Op::Tick => Ok(Op::Tick),
            Op::Jump(to) => Ok(Op::Jump(*to)),
            Op::If {
                test,
                then_to,
                else_to,
            } => Ok(Op::If {
                test: self.operand(test)?,
                then_to: *then_to,
                else_to: *else_to,
            }),
            Op::Panic(value) => Ok(Op::Panic(self.operand(value)?)),
            _ => Err(lost()),
        }
    }
}
