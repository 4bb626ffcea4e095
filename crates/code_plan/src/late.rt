//! Reads of variables that are made where their values are used. A use of a variable is a load of its cell into a
//! register. Where that register is used once, further on in the block, and nothing in between may write to a cell, the
//! cell is read where the register is used, and the load itself makes no step. What is found here is a guess, which
//! holds for code that is sane; planning refuses one that does not hold.

ghost use Rattle.std.specs.Prelude.{◌≡◌, [], if◌then◌else◌};
ghost use Rattle.code_plan.specs.Registers.{Pending, before};
ghost use Rattle.code_plan.specs.Sites as sites;

use go_base::{NoMemory, TypeId};
use go_type::{TypeTerm, Types, int_kind};
use ssa_ir::{Block, Function, Op, Operand, PhiEdge};
use ssa_sane::push_used;
use std::alloc::Global;

/// What a register of a function is to its plan.
#[derive(Clone, Copy)]
pub(crate) enum Mark {
    Plain,
    /// It points to a cell of one value, and `New` alone gives it.
    Cell,
    /// It is loaded where it is used.
    Late,
}

/// A load that is made where its register is used.
#[derive(Clone, Copy)]
pub(crate) struct LateLoad {
    pub register: u64,
    /// The register that points to the cell.
    pub cell: u64,
}

/// The mark of a register.
pub(crate) fn mark_at(marks: &[Mark], register: u64) -> Mark
    ensures { result ≡ sites.mark_at marks.now register }
{
    match marks.get(register as usize) {
        Some(mark) => *mark,
        None => Mark::Plain,
    }
}

/// How many loads of a stretch may be made late, so that those that are still to be made are found at once.
const MOST_LOADS: u64 = 32;

/// The marks of the registers of a function.
pub(crate) fn marks_of(
    alloc: Global,
    types: &Types,
    function: &Function,
) -> Result<Vec<Mark>, NoMemory> {
    let mut reads = Reads::new(alloc, function.registers.as_slice().len())?;
    reads.count_all(types, function)?;
    reads.go_over_all(types, function)?;
    reads.marks(alloc)
}

/// What is known of a register.
#[derive(Clone, Copy)]
struct Register {
    /// How often it is used, up to 2.
    uses: u8,
    /// How many instructions give it, up to 2.
    given: u8,
    /// Whether a `New` gives it that makes a cell of one value.
    is_new: bool,
    /// Whether the state of a range is kept in it.
    is_range: bool,
    /// The stretch in which it was loaded from a cell.
    loaded: Option<u64>,
    is_late: bool,
}

/// What is known of the registers of a function. A stretch is a run of instructions in none of which but the last a cell
/// may be written to.
#[derive(Drop)]
struct Reads {
    registers: Vec<Register>,
    /// The stretch that is gone over.
    stretch: u64,
    /// How many loads it has that may be made late.
    loads: u64,
    /// The registers that an instruction uses, kept so that its memory is taken once.
    used: Vec<u64>,
}

impl Reads {
    fn new(alloc: Global, count: usize) -> Result<Reads, NoMemory> {
        let unknown = Register {
            uses: 0,
            given: 0,
            is_new: false,
            is_range: false,
            loaded: None,
            is_late: false,
        };
        Ok(Reads {
            registers: vec![in alloc; unknown; count]?,
            stretch: 0,
            loads: 0,
            used: Vec::new(alloc),
        })
    }

    fn count_all(&mut self, types: &Types, function: &Function) -> Result<(), NoMemory> {
        for block in function.blocks.as_slice() {
            self.count(types, block)?;
        }
        Ok(())
    }

    /// Counts what uses registers in a block, and what gives them.
    fn count(&mut self, types: &Types, block: &Block) -> Result<(), NoMemory> {
        for instr in block.instrs.as_slice() {
            self.used.clear();
            push_used(&mut self.used, &instr.op)?;
            self.count_used();
            if let Some(register) = instr.register {
                count_given(&mut self.registers, register);
            }
            match (&instr.op, instr.register) {
                (Op::Phi(edges), _) => self.count_edges(edges.as_slice()),
                (Op::New(of), Some(register)) => {
                    note_new(&mut self.registers, register, is_single(types, *of));
                }
                (Op::Next(Operand::Register(register)), _) => {
                    note_range(&mut self.registers, *register);
                }
                _ => {}
            }
        }
        Ok(())
    }

    fn count_used(&mut self) {
        for register in self.used.iter() {
            count_use(&mut self.registers, *register);
        }
    }

    fn count_edges(&mut self, edges: &[PhiEdge]) {
        for edge in edges {
            if let Operand::Register(register) = &edge.value {
                count_use(&mut self.registers, *register);
            }
        }
    }

    fn go_over_all(&mut self, types: &Types, function: &Function) -> Result<(), NoMemory> {
        for block in function.blocks.as_slice() {
            self.go_over(types, block)?;
        }
        Ok(())
    }

    /// Finds the late reads of a block.
    fn go_over(&mut self, types: &Types, block: &Block) -> Result<(), NoMemory> {
        for instr in block.instrs.as_slice() {
            if waits(&instr.op) {
                self.end_stretch();
            }
            self.used.clear();
            push_used(&mut self.used, &instr.op)?;
            self.meet_used();
            if may_write(types, &instr.op) {
                self.end_stretch();
            }
            if let (Op::Load(Operand::Register(cell)), Some(register)) = (
                &instr.op,
                instr.register,
            ) {
                self.load(register, *cell);
            }
        }
        self.end_stretch();
        Ok(())
    }

    fn end_stretch(&mut self) {
        self.stretch = self.stretch.saturating_add(1);
        self.loads = 0;
    }

    /// Registers are used: late, where their cells were not written to.
    fn meet_used(&mut self) {
        for register in self.used.iter() {
            if let Some(known) = self.registers.get_mut(*register as usize) {
                if known.loaded == Some(self.stretch) {
                    known.is_late = true;
                }
            }
        }
    }

    /// A cell of one value is loaded into a register that is given once and used once.
    fn load(&mut self, register: u64, cell: u64) {
        let from_cell = match self.registers.get(cell as usize) {
            Some(known) => is_cell(known),
            None => false,
        };
        if !from_cell || self.loads >= MOST_LOADS {
            return;
        }
        if let Some(known) = self.registers.get_mut(register as usize) {
            if known.uses == 1 && known.given == 1 && !known.is_range {
                known.loaded = Some(self.stretch);
                self.loads = self.loads.saturating_add(1);
            }
        }
    }

    fn marks(&self, alloc: Global) -> Result<Vec<Mark>, NoMemory> {
        let mut marks = Vec::new(alloc);
        for known in self.registers.iter() {
            marks.push(mark_of(known))?;
        }
        Ok(marks)
    }
}

fn mark_of(known: &Register) -> Mark {
    if known.is_late {
        Mark::Late
    } else if is_cell(known) {
        Mark::Cell
    } else {
        Mark::Plain
    }
}

/// Whether a register points to a cell of one value wherever it is given.
fn is_cell(known: &Register) -> bool {
    known.is_new && known.given == 1 && !known.is_range
}

fn count_use(registers: &mut Vec<Register>, register: u64) {
    if let Some(known) = registers.get_mut(register as usize) {
        known.uses = known.uses.saturating_add(1).min(2);
    }
}

fn count_given(registers: &mut Vec<Register>, register: u64) {
    if let Some(known) = registers.get_mut(register as usize) {
        known.given = known.given.saturating_add(1).min(2);
    }
}

fn note_new(registers: &mut Vec<Register>, register: u64, is_single: bool) {
    if let Some(known) = registers.get_mut(register as usize) {
        known.is_new = is_single;
    }
}

fn note_range(registers: &mut Vec<Register>, register: u64) {
    if let Some(known) = registers.get_mut(register as usize) {
        known.is_range = true;
    }
}

/// Whether a cell of a type holds one value, and no parts.
fn is_single(types: &Types, of: TypeId) -> bool {
    match types.underlying_term(of) {
        Some(TypeTerm::Struct(_)) | Some(TypeTerm::Array { .. }) | None => false,
        Some(_) => true,
    }
}

/// Whether a goroutine may wait at an instruction, whose operands it has read before.
pub(crate) fn waits(op: &Op) -> bool
    ensures { (pending : Pending) → before op.now pending ≡ (if result then [] else pending) }
{
    matches!(op, Op::Send { .. } | Op::Receive { .. } | Op::Select { .. })
}

/// Whether an instruction may write to a cell, make one, or let other code do so.
fn may_write(types: &Types, op: &Op) -> bool {
    match op {
        Op::New(_)
        | Op::Store { .. }
        | Op::Update { .. }
        | Op::MakeMap(_)
        | Op::MakeSlice { .. }
        | Op::Call(_)
        | Op::Go(_)
        | Op::Defer(_)
        | Op::RunDefers
        | Op::Send { .. }
        | Op::Receive { .. }
        | Op::Select { .. }
        | Op::Range(_)
        | Op::Next(_)
        | Op::Jump(_)
        | Op::If { .. }
        | Op::Return(_)
        | Op::Panic(_) => true,
        Op::Convert { to, .. } => int_kind(types, *to).is_none(),
        _ => false,
    }
}
