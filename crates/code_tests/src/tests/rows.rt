//! Functions as texts. Blocks end at `;`. Before a `:` stand the blocks that lead to a block, and behind it its
//! instructions, each a letter with numbers of one digit: `n0` gives register 0, a new cell; `l10` gives register 1, what
//! 0 points to; `b05` gives register 0, the sum of the second parameter and 5; `m205` gives register 2, the product of
//! register 0 and 5; `p30415` gives register 3, which is 4 behind block 0 and 5 behind block 1; `s01` stores 1 at 0; `t`
//! is a tick, `j1` jumps to block 1, `i012` tests register 0 and goes to 1 or 2, `a12` does so by the first parameter,
//! `r01` returns two registers and `x0` panics.

use crate::tests::kinds::int;
use go_base::{BlockId, NoMemory, Pos, Text, TypeId};
use go_type::{BinaryOp, TypeIds};
use ssa_ir::{
    Block, BlockIds, Blocks, Function, FunctionKind, Infix, Instr, Instrs, Op, Operand, Operands,
    PhiEdge, PhiEdges,
};
use std::alloc::Global;

pub fn register(number: u64) -> Operand {
    Operand::Register(number)
}

fn param(number: u64) -> Operand {
    Operand::Param(number)
}

pub fn block_id(number: u64) -> BlockId {
    BlockId { number }
}

pub fn instr(op: Op, register: Option<u64>) -> Instr {
    Instr {
        op,
        register,
        at: Pos { file: 0, offset: 0 },
    }
}

pub fn some_type() -> TypeId {
    TypeId { number: 1 }
}

pub fn empty_function(alloc: Global, name: &str) -> Result<Function, NoMemory> {
    Ok(Function {
        name: Text::new(alloc, name)?,
        kind: FunctionKind::Source,
        params: TypeIds::new(alloc),
        variadic: false,
        free: TypeIds::new(alloc),
        results: TypeIds::new(alloc),
        registers: TypeIds::new(alloc),
        blocks: Blocks::new(alloc),
        recover: None,
    })
}

/// What was read of a text.
#[derive(Drop)]
struct Reader {
    alloc: Global,
    blocks: Blocks,
    preds: BlockIds,
    instrs: Instrs,
    letter: u8,
    numbers: Vec<u64>,
}

/// The function of a text.
pub fn function(alloc: Global, text: &str, recover: Option<u64>) -> Result<Function, NoMemory> {
    let mut reader = Reader {
        alloc,
        blocks: Blocks::new(alloc),
        preds: BlockIds::new(alloc),
        instrs: Instrs::new(alloc),
        letter: 0,
        numbers: Vec::new(alloc),
    };
    for byte in text.as_bytes() {
        reader.take(*byte)?;
    }
    let mut function = empty_function(alloc, "main.f")?;
    function.blocks = reader.blocks;
    function.recover = recover.map(block_id);
    Ok(function)
}

impl Reader {
    fn take(&mut self, byte: u8) -> Result<(), NoMemory> {
        match byte {
            b'0'..=b'9' => self.numbers.push(u64::from(byte - b'0'))?,
            b':' => self.end_preds()?,
            b';' => self.end_block()?,
            _ => {
                self.end_instr()?;
                self.letter = byte;
            }
        }
        Ok(())
    }

    fn number(&self, place: usize) -> u64 {
        self.numbers.get(place).copied().unwrap_or(0)
    }

    fn end_preds(&mut self) -> Result<(), NoMemory> {
        for number in self.numbers.as_slice() {
            self.preds.push(block_id(*number))?;
        }
        self.numbers.clear();
        Ok(())
    }

    fn end_block(&mut self) -> Result<(), NoMemory> {
        self.end_instr()?;
        let preds = std::mem::replace(&mut self.preds, BlockIds::new(self.alloc));
        let instrs = std::mem::replace(&mut self.instrs, Instrs::new(self.alloc));
        self.blocks.push(Block { preds, instrs })
    }

    fn end_instr(&mut self) -> Result<(), NoMemory> {
        if self.letter != 0 {
            let next = instr(self.op()?, self.register());
            self.instrs.push(next)?;
        }
        self.letter = 0;
        self.numbers.clear();
        Ok(())
    }

    fn register(&self) -> Option<u64> {
        match self.letter {
            b'n' | b'l' | b'b' | b'm' | b'p' => Some(self.number(0)),
            _ => None,
        }
    }

    fn op(&self) -> Result<Op, NoMemory> {
        match self.letter {
            b'p' => self.phi(),
            b'r' => self.returned(),
            _ => Ok(self.plain()),
        }
    }

    fn phi(&self) -> Result<Op, NoMemory> {
        let mut edges = PhiEdges::new(self.alloc);
        for pair in self.numbers.get(1..).unwrap_or(&[]).chunks_exact(2) {
            if let [from, value] = pair {
                edges.push(PhiEdge {
                    from: block_id(*from),
                    value: register(*value),
                })?;
            }
        }
        Ok(Op::Phi(edges))
    }

    fn returned(&self) -> Result<Op, NoMemory> {
        let mut results = Operands::new(self.alloc);
        for number in self.numbers.as_slice() {
            results.push(register(*number))?;
        }
        Ok(Op::Return(results))
    }

    fn plain(&self) -> Op {
        let (a, b, c) = (self.number(0), self.number(1), self.number(2));
        match self.letter {
            b'n' => Op::New(some_type()),
            b'l' => Op::Load(register(b)),
            b'b' => arithmetic(BinaryOp::Add, param(1), b),
            b'm' => arithmetic(BinaryOp::Mul, register(b), c),
            b's' => Op::Store {
                at: register(a),
                value: register(b),
            },
            b'j' => Op::Jump(block_id(a)),
            b'i' => branch(register(a), b, c),
            b'a' => branch(param(0), a, b),
            b'x' => Op::Panic(register(a)),
            _ => Op::Tick,
        }
    }
}

/// An operation of a register or parameter and an integer.
fn arithmetic(op: BinaryOp, left: Operand, right: u64) -> Op {
    Op::Binary {
        op: Infix::Operate(op),
        left,
        right: int(i128::from(right)),
    }
}

fn branch(test: Operand, then_to: u64, else_to: u64) -> Op {
    Op::If {
        test,
        then_to: block_id(then_to),
        else_to: block_id(else_to),
    }
}
