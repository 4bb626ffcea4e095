//! A function while it is built.

use crate::error::lost;
use crate::joining::{add, beside, beside_some, kept, refused};
use go_base::{BlockId, FuncId, NameId, NoMemory, Pos, TypeId, VarId};
use go_tree::{Body, FunctionDecl, Program, Variable};
use go_type::{TypeIds, TypeTerm, Types};
use indexmap::IndexMap;
use ssa_ir::{BlockIds, ConstValue, Form, Instr, Instrs, Needs, Op, Operand, WrapNeed};
use std::alloc::Global;

/// A block while it is built.
#[derive(Drop)]
pub(crate) struct OpenBlock {
    pub preds: BlockIds,
    pub instrs: Instrs,
    pub ended: bool,
}

impl OpenBlock {
    /// A block without code and predecessors.
    fn new(alloc: Global) -> OpenBlock {
        OpenBlock {
            preds: BlockIds::new(alloc),
            instrs: Instrs::new(alloc),
            ended: false,
        }
    }

    /// Puts an instruction last.
    fn put(&mut self, instr: Instr, ends: bool) -> Result<(), NoMemory> {
        self.instrs.push(instr)?;
        self.ended = ends;
        Ok(())
    }
}

/// What the parts of a value of several parts are read from.
#[derive(Drop)]
pub enum Parts {
    Nothing,
    /// A tuple.
    Tuple(Operand),
    /// Operands, one for each part.
    List(Vec<Operand>),
}

/// A function while it is built, and its current block.
#[derive(Drop)]
pub struct Builder<'a> {
    pub(crate) alloc: Global,
    pub(crate) program: &'a Program,
    pub(crate) types: Types,
    pub(crate) function: FuncId,
    /// The name `_`.
    pub(crate) blank: Option<NameId>,
    pub(crate) blocks: Vec<OpenBlock>,
    pub(crate) current: usize,
    pub(crate) registers: TypeIds,
    /// The registers of the cells of variables that have begun.
    pub(crate) homes: IndexMap<VarId, u64>,
    pub(crate) needs: Needs,
    pub(crate) recover: Option<BlockId>,
    pub(crate) parts: Parts,
}

impl<'a> Builder<'a> {
    /// A function of one block, which is current, without code. `types` has the program's types under their ids.
    pub fn new(
        alloc: Global,
        program: &'a Program,
        types: Types,
        function: FuncId,
        _form: Form,
    ) -> Result<Builder<'a>, NoMemory> {
        let mut blocks = Vec::new(alloc);
        let begun = add(&mut blocks, OpenBlock::new(alloc));
        let types = kept(types, begun)?;
        Ok(Builder {
            alloc,
            program,
            types,
            function,
            blank: program.names.find("_"),
            blocks,
            current: 0,
            registers: TypeIds::new(alloc),
            homes: IndexMap::new(alloc),
            needs: Needs::new(alloc),
            recover: None,
            parts: Parts::Nothing,
        })
    }

    /// What memory is taken from.
    pub fn allocator(&self) -> Global {
        self.alloc
    }

    /// The program.
    pub fn program(&self) -> &'a Program {
        self.program
    }

    /// The types met so far.
    pub fn types(&self) -> &Types {
        &self.types
    }

    /// The function that is built.
    pub fn decl(&self) -> Option<&'a FunctionDecl> {
        let program: &'a Program = self.program;
        program
            .functions
            .as_slice()
            .get(self.function.number as usize)
    }

    /// Its body.
    pub fn body(&self) -> Option<&'a Body> {
        let program: &'a Program = self.program;
        program
            .bodies
            .as_slice()
            .get(self.function.number as usize)?
            .as_ref()
    }

    /// The id of a type.
    pub fn hold(&mut self, term: TypeTerm) -> Result<TypeId, NoMemory> {
        if self.types.can_hold(&term) {
            return self.types.hold(term);
        }
        refused(term)
    }

    /// The pointer type to a type.
    pub fn pointer_to(&mut self, of: TypeId) -> Result<TypeId, NoMemory> {
        self.hold(TypeTerm::Pointer(of))
    }

    /// The type of tuples of types.
    pub fn tuple_of(&mut self, parts: &[TypeId]) -> Result<TypeId, NoMemory> {
        let mut ids = TypeIds::new(self.alloc);
        for part in parts {
            ids.push(*part)?;
        }
        self.hold(TypeTerm::Tuple(ids))
    }

    /// The underlying term of a type.
    pub fn under(&self, of: TypeId) -> Result<&TypeTerm, NoMemory> {
        match self.types.underlying_term(of) {
            Some(term) => Ok(term),
            None => Err(lost()),
        }
    }

    /// A new block, without code and predecessors.
    pub fn add_block(&mut self) -> Result<BlockId, NoMemory> {
        let number = self.blocks.len() as u64;
        self.blocks.push(OpenBlock::new(self.alloc))?;
        Ok(BlockId { number })
    }

    /// The block is the current one.
    pub fn enter(&mut self, block: BlockId) {
        self.current = block.number as usize;
    }

    /// The current block.
    pub fn current(&self) -> BlockId {
        BlockId {
            number: self.current as u64,
        }
    }

    /// Whether the current block has an end.
    pub fn is_ended(&self) -> bool {
        match self.blocks.get(self.current) {
            Some(block) => block.ended,
            None => true,
        }
    }

    /// The block goes on after a recovery.
    pub fn set_recover(&mut self, block: BlockId) {
        self.recover = Some(block);
    }

    /// All predecessors of the block are there. In the form in which every variable has a cell nothing follows from it.
    pub fn seal(&mut self, _block: BlockId) -> Result<(), NoMemory> {
        Ok(())
    }

    /// Puts an instruction last in the current block, which becomes a predecessor of the targets. The answer is its
    /// register, where a type is given.
    pub fn emit(
        &mut self,
        op: Op,
        of: Option<TypeId>,
        at: Pos,
    ) -> Result<Option<Operand>, NoMemory> {
        match of {
            Some(of) => Ok(Some(self.value(op, of, at)?)),
            None => {
                self.effect(op, at)?;
                Ok(None)
            }
        }
    }

    fn put(&mut self, op: Op, register: Option<u64>, at: Pos) -> Result<(), NoMemory> {
        let (first, second) = op.targets();
        let ends = op.is_end();
        self.put_last(Instr { op, register, at }, ends)?;
        self.link(first)?;
        self.link(second)
    }

    fn put_last(&mut self, instr: Instr, ends: bool) -> Result<(), NoMemory> {
        let current = self.current;
        match self.blocks.get_mut(current) {
            Some(block) => block.put(instr, ends),
            None => refused(instr),
        }
    }

    fn add_register(&mut self, of: TypeId) -> Result<u64, NoMemory> {
        let number = self.registers.as_slice().len() as u64;
        self.registers.push(of)?;
        Ok(number)
    }

    /// The current block becomes a predecessor of a block, once.
    fn link(&mut self, to: Option<BlockId>) -> Result<(), NoMemory> {
        let from = self.current();
        let Some(to) = to else {
            return Ok(());
        };
        let Some(block) = self.blocks.get_mut(to.number as usize) else {
            return Err(lost());
        };
        if is_last(block.preds.as_slice(), from) {
            return Ok(());
        }
        block.preds.push(from)
    }

    /// An instruction that gives a register.
    pub fn value(&mut self, op: Op, of: TypeId, at: Pos) -> Result<Operand, NoMemory> {
        Ok(Operand::Register(self.register(op, of, at)?))
    }

    /// An instruction that gives a register, and the register's number.
    pub(crate) fn register(&mut self, op: Op, of: TypeId, at: Pos) -> Result<u64, NoMemory> {
        let (register, op) = beside(self.add_register(of), op)?;
        self.put(op, Some(register), at)?;
        Ok(register)
    }

    /// An instruction that gives none.
    pub fn effect(&mut self, op: Op, at: Pos) -> Result<(), NoMemory> {
        self.put(op, None, at)
    }

    /// A value is put at an address.
    pub(crate) fn store(
        &mut self,
        address: Result<Operand, NoMemory>,
        value: Operand,
        at: Pos,
    ) -> Result<(), NoMemory> {
        let (address, value) = beside(address, value)?;
        self.effect(Op::Store { at: address, value }, at)
    }

    /// The block of a slot; a new one, where there is none yet.
    pub fn to(&mut self, slot: &mut Option<BlockId>) -> Result<BlockId, NoMemory> {
        match *slot {
            Some(block) => Ok(block),
            None => {
                let block = self.add_block()?;
                *slot = Some(block);
                Ok(block)
            }
        }
    }

    /// An end that leads to a block.
    pub fn jump(&mut self, to: BlockId, at: Pos) -> Result<(), NoMemory> {
        self.effect(Op::Jump(to), at)
    }

    /// A variable of the program.
    pub fn variable(&self, var: VarId) -> Result<&'a Variable, NoMemory> {
        let program: &'a Program = self.program;
        match program.variables.as_slice().get(var.number as usize) {
            Some(variable) => Ok(variable),
            None => Err(lost()),
        }
    }

    /// Whether a variable of the function has a cell: one with a name, and a result that a deferred call may change.
    pub fn has_cell(&self, var: VarId) -> bool {
        let Ok(variable) = self.variable(var) else {
            return false;
        };
        if self.blank != Some(variable.name) {
            return true;
        }
        match self.body() {
            Some(body) => body.has_defer && body.results.as_slice().contains(&var),
            None => false,
        }
    }

    /// The address of a variable's cell. None where it has none.
    pub fn cell(&self, var: VarId) -> Result<Option<Operand>, NoMemory> {
        if self.variable(var)?.function.is_none() {
            return Ok(Some(Operand::Variable(var)));
        }
        if let Some(register) = self.homes.get(&var) {
            return Ok(Some(Operand::Register(*register)));
        }
        if let Some(place) = self.captured_place(var) {
            return Ok(Some(Operand::Free(place)));
        }
        if self.has_cell(var) {
            return Err(lost());
        }
        Ok(None)
    }

    fn captured_place(&self, var: VarId) -> Option<u64> {
        let captured = self.body()?.captured.as_slice();
        let place = captured.iter().position(|one| *one == var)?;
        Some(place as u64)
    }

    /// The variable begins: where it has a cell, that is made.
    pub fn begin_var(&mut self, var: VarId) -> Result<(), NoMemory> {
        if !self.has_cell(var) {
            return Ok(());
        }
        let variable = *self.variable(var)?;
        let of = self.pointer_to(variable.of)?;
        let register = self.register(Op::New(variable.of), of, variable.at)?;
        self.homes.insert(var, register)?;
        Ok(())
    }

    /// What a variable holds.
    pub fn read_var(&mut self, var: VarId, at: Pos) -> Result<Operand, NoMemory> {
        let of = self.variable(var)?.of;
        match self.cell(var)? {
            Some(cell) => self.value(Op::Load(cell), of, at),
            None => Ok(zero(of)),
        }
    }

    /// A variable gets a value.
    pub fn write_var(&mut self, var: VarId, value: Operand, at: Pos) -> Result<(), NoMemory> {
        let Some((cell, value)) = beside_some(self.cell(var), value)? else {
            return Ok(());
        };
        self.effect(Op::Store { at: cell, value }, at)
    }

    /// The function has no body.
    pub fn drop_blocks(&mut self) {
        self.blocks.clear();
    }

    /// What parts are read from; the answer is what they were read from before.
    pub fn set_parts(&mut self, parts: Parts) -> Parts {
        std::mem::replace(&mut self.parts, parts)
    }

    /// The function that a wrapper will be.
    pub fn need(&mut self, need: WrapNeed) -> Result<FuncId, NoMemory> {
        let count = self.program.functions.as_slice().len() as u64;
        let known = self.needs.as_slice().iter().position(|one| *one == need);
        let place = match known {
            Some(place) => place as u64,
            None => {
                let place = self.needs.as_slice().len() as u64;
                self.needs.push(need)?;
                place
            }
        };
        Ok(FuncId {
            number: count.saturating_add(place),
        })
    }
}

/// Whether a block is the last of several.
fn is_last(blocks: &[BlockId], block: BlockId) -> bool {
    match blocks.last() {
        Some(last) => *last == block,
        None => false,
    }
}

/// The operand that is the zero value of a type.
pub fn zero(of: TypeId) -> Operand {
    Operand::Constant {
        value: ConstValue::Zero,
        of,
    }
}

/// The operand of an integer.
pub fn integer(value: i128, of: TypeId) -> Operand {
    Operand::Constant {
        value: ConstValue::Int(value),
        of,
    }
}
