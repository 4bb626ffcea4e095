//! Functions as lines of words. The first line is `func` or `external`, the name and the types of the parameters.
//! `results` and `recovery` name the results and the recover block, and `block` begins a block with the blocks that
//! lead to it. Any other line is an instruction, behind the type of its register where it gives one; registers are
//! numbered in the order of the lines. An operand is `.0` (a register), `$0` (a parameter), `#0` (an integer), `'a` (a
//! string) or `nil` (a channel). A function is named by its number.

use crate::tests::kinds::Kinds;
use crate::tests::rigs::Lines;
use go_base::{BlockId, Bytes, FuncId, NoMemory, Pos, Text, TypeId};
use go_type::{Basic, BinaryOp, Builtin, CompareOp, TypeIds, basic};
use ssa_ir::{
    Block, BlockIds, Blocks, Call, ConstValue, Function, FunctionKind, Functions, Infix, Instr,
    Instrs, Op, Operand, Operands, PhiEdge, PhiEdges, SelectCase, SelectCases,
};
use std::alloc::Global;

/// What was read of lines: a function, and the block that was begun last.
#[derive(Drop)]
struct Reader {
    alloc: Global,
    kinds: Kinds,
    function: Function,
    block: Block,
}

/// The functions of lines.
pub fn read(alloc: Global, kinds: Kinds, functions: Lines) -> Result<Functions, NoMemory> {
    let mut read = Functions::new(alloc);
    for lines in functions {
        read.push(function(alloc, kinds, lines)?)?;
    }
    Ok(read)
}

fn function(alloc: Global, kinds: Kinds, lines: &[&str]) -> Result<Function, NoMemory> {
    let mut reader = Reader {
        alloc,
        kinds,
        function: empty_function(alloc)?,
        block: empty_block(alloc),
    };
    for line in lines {
        reader.line(line)?;
    }
    reader.end_block()?;
    Ok(reader.function)
}

fn empty_function(alloc: Global) -> Result<Function, NoMemory> {
    Ok(Function {
        name: Text::new(alloc, "")?,
        kind: FunctionKind::Source,
        params: TypeIds::new(alloc),
        variadic: false,
        free: TypeIds::new(alloc),
        results: TypeIds::new(alloc),
        registers: TypeIds::new(alloc),
        blocks: Blocks::new(alloc),
        recover: None,
    })
}

fn empty_block(alloc: Global) -> Block {
    Block {
        preds: BlockIds::new(alloc),
        instrs: Instrs::new(alloc),
    }
}

impl Reader {
    fn line(&mut self, line: &str) -> Result<(), NoMemory> {
        let words: Vec<&str> = line.split_whitespace().collect(self.alloc)?;
        match words.as_slice() {
            [first, rest @ ..] => self.words(first, rest),
            [] => Ok(()),
        }
    }

    fn words(&mut self, first: &str, rest: &[&str]) -> Result<(), NoMemory> {
        match first {
            "func" => self.begin(FunctionKind::Source, rest),
            "external" => self.begin(FunctionKind::External, rest),
            "results" => {
                self.function.results = self.kinds.all(self.alloc, rest)?;
                Ok(())
            }
            "recovery" => {
                self.function.recover = Some(block_at(rest, 0));
                Ok(())
            }
            "block" => self.begin_block(rest),
            _ => self.instr(first, rest),
        }
    }

    fn begin(&mut self, kind: FunctionKind, words: &[&str]) -> Result<(), NoMemory> {
        if let [name, params @ ..] = words {
            self.function.kind = kind;
            self.function.name = Text::new(self.alloc, name)?;
            self.function.params = self.kinds.all(self.alloc, params)?;
        }
        Ok(())
    }

    fn begin_block(&mut self, preds: &[&str]) -> Result<(), NoMemory> {
        self.end_block()?;
        for place in 0..preds.len() {
            self.block.preds.push(block_at(preds, place))?;
        }
        Ok(())
    }

    fn end_block(&mut self) -> Result<(), NoMemory> {
        if self.block.instrs.is_empty() {
            return Ok(());
        }
        let block = std::mem::replace(&mut self.block, empty_block(self.alloc));
        self.function.blocks.push(block)
    }

    fn instr(&mut self, first: &str, rest: &[&str]) -> Result<(), NoMemory> {
        match (self.kinds.named(first), rest) {
            (Some(of), [name, words @ ..]) => {
                let op = self.op(name, words, of)?;
                let register = self.function.registers.as_slice().len() as u64;
                self.put(op, Some(register))?;
                self.function.registers.push(of)
            }
            _ => {
                let op = self.op(first, rest, basic(Basic::Int))?;
                self.put(op, None)
            }
        }
    }

    fn put(&mut self, op: Op, register: Option<u64>) -> Result<(), NoMemory> {
        let at = Pos { file: 0, offset: 0 };
        self.block.instrs.push(Instr { op, register, at })
    }

    fn op(&self, name: &str, words: &[&str], of: TypeId) -> Result<Op, NoMemory> {
        Ok(match name {
            "phi" => Op::Phi(self.edges(words)?),
            "add" => self.infix(Infix::Operate(BinaryOp::Add), words)?,
            "quotient" => self.infix(Infix::Operate(BinaryOp::Div), words)?,
            "less" => self.infix(Infix::Compare(CompareOp::Less), words)?,
            "call" => Op::Call(self.called(words)?),
            "defer" => Op::Defer(self.called(words)?),
            "go" => Op::Go(self.called(words)?),
            "println" => Op::Call(self.built_in(Builtin::Println, words)?),
            "recover" => Op::Call(self.built_in(Builtin::Recover, words)?),
            "box" => Op::MakeInterface {
                to: of,
                operand: self.operand_at(words, 0)?,
            },
            "assert" => Op::TypeAssert {
                operand: self.operand_at(words, 0)?,
                to: of,
                comma_ok: false,
            },
            "return" => Op::Return(self.operands(words)?),
            "panic" => Op::Panic(self.operand_at(words, 0)?),
            "if" => Op::If {
                test: self.operand_at(words, 0)?,
                then_to: block_at(words, 1),
                else_to: block_at(words, 2),
            },
            _ => self.other_op(name, words, of)?,
        })
    }

    /// The instructions on channels and cells, and those without operands.
    fn other_op(&self, name: &str, words: &[&str], of: TypeId) -> Result<Op, NoMemory> {
        Ok(match name {
            "make" => Op::MakeChan {
                of,
                size: self.operand_at(words, 0)?,
            },
            "send" => Op::Send {
                channel: self.operand_at(words, 0)?,
                value: self.operand_at(words, 1)?,
            },
            "receive" => Op::Receive {
                channel: self.operand_at(words, 0)?,
                comma_ok: false,
            },
            "select" => self.selected(true, words)?,
            "try" => self.selected(false, words)?,
            "part" => Op::Extract {
                operand: self.operand_at(words, 0)?,
                part: number_at(words, 1).min(9) as u32,
            },
            "new" => Op::New(basic(Basic::Int)),
            "load" => Op::Load(self.operand_at(words, 0)?),
            "store" => Op::Store {
                at: self.operand_at(words, 0)?,
                value: self.operand_at(words, 1)?,
            },
            "rundefers" => Op::RunDefers,
            "jump" => Op::Jump(block_at(words, 0)),
            _ => Op::Tick,
        })
    }

    fn edges(&self, words: &[&str]) -> Result<PhiEdges, NoMemory> {
        let mut edges = PhiEdges::new(self.alloc);
        for pair in words.chunks_exact(2) {
            edges.push(PhiEdge {
                from: block_at(pair, 0),
                value: self.operand_at(pair, 1)?,
            })?;
        }
        Ok(edges)
    }

    fn infix(&self, op: Infix, words: &[&str]) -> Result<Op, NoMemory> {
        Ok(Op::Binary {
            op,
            left: self.operand_at(words, 0)?,
            right: self.operand_at(words, 1)?,
        })
    }

    /// A call of the function of a number.
    fn called(&self, words: &[&str]) -> Result<Call, NoMemory> {
        Ok(Call::Static {
            function: FuncId {
                number: number_at(words, 0),
            },
            arguments: self.operands(words.get(1..).unwrap_or(&[]))?,
        })
    }

    fn built_in(&self, builtin: Builtin, words: &[&str]) -> Result<Call, NoMemory> {
        Ok(Call::Builtin {
            builtin,
            arguments: self.operands(words)?,
        })
    }

    /// A `select` of receives.
    fn selected(&self, blocking: bool, words: &[&str]) -> Result<Op, NoMemory> {
        let mut cases = SelectCases::new(self.alloc);
        for place in 0..words.len() {
            cases.push(SelectCase::Receive {
                channel: self.operand_at(words, place)?,
            })?;
        }
        Ok(Op::Select { blocking, cases })
    }

    fn operands(&self, words: &[&str]) -> Result<Operands, NoMemory> {
        let mut operands = Operands::new(self.alloc);
        for place in 0..words.len() {
            operands.push(self.operand_at(words, place)?)?;
        }
        Ok(operands)
    }

    fn operand_at(&self, words: &[&str], place: usize) -> Result<Operand, NoMemory> {
        match word_at(words, place).as_bytes() {
            [b'.', digits @ ..] => Ok(Operand::Register(number(digits))),
            [b'$', digits @ ..] => Ok(Operand::Param(number(digits))),
            [b'\'', text @ ..] => self.text(text),
            [b'#', b'-', digits @ ..] => Ok(int(-i128::from(number(digits)))),
            [b'#', digits @ ..] => Ok(int(i128::from(number(digits)))),
            _ => Ok(Operand::Constant {
                value: ConstValue::Nil,
                of: self.kinds.channel(),
            }),
        }
    }

    fn text(&self, text: &[u8]) -> Result<Operand, NoMemory> {
        Ok(Operand::Constant {
            value: ConstValue::Text(Bytes::new(Vec::from_slice(self.alloc, text)?)),
            of: basic(Basic::Text),
        })
    }
}

fn int(value: i128) -> Operand {
    Operand::Constant {
        value: ConstValue::Int(value),
        of: basic(Basic::Int),
    }
}

fn word_at<'a>(words: &[&'a str], place: usize) -> &'a str {
    match words.get(place) {
        Some(word) => word,
        None => "",
    }
}

fn number_at(words: &[&str], place: usize) -> u64 {
    number(word_at(words, place).as_bytes())
}

fn block_at(words: &[&str], place: usize) -> BlockId {
    BlockId {
        number: number_at(words, place),
    }
}

/// The number of digits.
fn number(digits: &[u8]) -> u64 {
    let mut number: u64 = 0;
    for digit in digits {
        let value = u64::from(digit.wrapping_sub(b'0'));
        number = number.wrapping_mul(10).wrapping_add(value);
    }
    number
}
