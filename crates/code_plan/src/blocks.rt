//! Functions and their blocks as they are planned.

ghost use Rattle.std.specs.Prelude.{◌≡◌, ◌+◌, [], Some, IfOk, IfSome, OnOk, option_map, length, if◌then◌else◌};
ghost use Rattle.std.specs.List.{AllZip};
ghost use Rattle.code_plan.specs.Plans.{IsBlock, IsEdge, IsFunction, IsPhi, IsWithin};
ghost use Rattle.code_plan.specs.Plans as plans;
ghost use Rattle.code_plan.specs.Registers as registers;
ghost use Rattle.code_plan.specs.Sites.{GoesOn, HasSteps, IsLateLoad, IsMade, marks_of, site_of, site_with};
ghost use Rattle.ssa_ir.specs.declared.code.FunctionKind.TheVariants as kind;
ghost use Rattle.ssa_mean.specs.Calls.{is_promotion};

use crate::error::{lost, small};
use crate::jumps::phis_first;
use crate::late::{LateLoad, Mark, mark_at, waits};
use crate::operands::Place;
use crate::planner::Planner;
use crate::steps::{PlannedBlock, PlannedEdge, PlannedFunction, PlannedPhi, Role, Step};
use crate::writes::may_write;
use go_base::{BlockId, NoMemory};
use ssa_ir::{Block, Function, FunctionKind, Instr, Op, Operand, PhiEdge};

/// A function that is planned, by the marks of its registers.
#[derive(Clone, Copy)]
pub(crate) struct Body<'a> {
    pub planner: &'a Planner<'a>,
    pub function: &'a Function,
    pub marks: &'a [Mark],
}

/// The steps of the instructions so far of a block, and the loads that are still to be made.
#[derive(Drop)]
struct Run {
    steps: Vec<Step>,
    pending: Vec<LateLoad>,
}

impl Body<'_> {
    pub fn planned(&self) -> Result<PlannedFunction, NoMemory>
        ensures { let s = site_with self.now [] in IfOk result (λ it. IsFunction s.code s.marks s.function it) }
    {
        let params = self.function.params.as_slice().len() as u64;
        Ok(PlannedFunction {
            role: role_of(self.function),
            promotes: promotes(self.function),
            params: small(params)?,
            slots: self.slots()?,
            blocks: self.blocks()?,
            recover: self.recover()?,
        })
    }

    /// How many slots a frame has.
    fn slots(&self) -> Result<u32, NoMemory>
        ensures { let f = self.now.function.now in IfOk result (λ it. it ≡ length f.params + (length f.free + length f.registers)) }
    {
        let params = self.function.params.as_slice().len() as u64;
        let free = self.function.free.as_slice().len() as u64;
        let registers = self.function.registers.as_slice().len() as u64;
        small(params.saturating_add(free.saturating_add(registers)))
    }

    /// The block that gives the results after a recovery.
    fn recover(&self) -> Result<Option<u32>, NoMemory>
        ensures { let f = self.now.function.now in IfOk result (λ it. (it ≡ option_map (λ block. block.number) f.recover) × IsWithin f f.recover) }
    {
        match self.function.recover {
            Some(block) => Ok(Some(self.known_block(block)?)),
            None => Ok(None),
        }
    }

    fn known_block(&self, block: BlockId) -> Result<u32, NoMemory>
        ensures { let f = self.now.function.now in IfOk result (λ it. (it ≡ block.number) × IsWithin f (Some block)) }
    {
        if block.number >= self.function.blocks.as_slice().len() as u64 {
            return Err(lost());
        }
        small(block.number)
    }

    fn blocks(&self) -> Result<Vec<PlannedBlock>, NoMemory>
        ensures { let s = site_with self.now [] in IfOk result (λ it. AllZip (IsBlock s.code s.function s.marks) s.function.blocks it.items) }
    {
        let mut all = Vec::new(self.planner.alloc);
        for block in self.function.blocks.as_slice() {
            all.push(self.block(block)?)?;
        }
        Ok(all)
    }

    fn block(&self, block: &Block) -> Result<PlannedBlock, NoMemory>
        ensures { let s = site_with self.now [] in IfOk result (λ it. IsBlock s.code s.function s.marks block.now it) }
    {
        let instrs = block.instrs.as_slice();
        let front = phis_first(instrs);
        Ok(PlannedBlock {
            phis: self.phis(&instrs[..front])?,
            steps: self.steps(&instrs[front..])?,
        })
    }

    /// Where operands are planned with loads that are still to be made.
    fn at<'b>(&'b self, pending: &'b [LateLoad]) -> Place<'b>
        ensures { site_of result ≡ site_with self.now pending.now }
    {
        Place {
            planner: self.planner,
            function: self.function,
            marks: self.marks,
            pending,
        }
    }

    fn phis(&self, instrs: &[Instr]) -> Result<Vec<PlannedPhi>, NoMemory>
        ensures { IfOk result (λ it. AllZip (IsPhi (site_with self.now [])) instrs.now it.items) }
    {
        let mut all = Vec::new(self.planner.alloc);
        for instr in instrs {
            all.push(self.phi(instr)?)?;
        }
        Ok(all)
    }

    fn phi(&self, instr: &Instr) -> Result<PlannedPhi, NoMemory>
        ensures { IfOk result (λ it. IsPhi (site_with self.now []) instr.now it) }
    {
        let Op::Phi(edges) = &instr.op else {
            return Err(lost());
        };
        if !self.may_give(instr) {
            return Err(lost());
        }
        Ok(PlannedPhi {
            to: self.at(&[]).to(instr.register)?,
            edges: self.edges(edges.as_slice())?,
        })
    }

    fn edges(&self, edges: &[PhiEdge]) -> Result<Vec<PlannedEdge>, NoMemory>
        ensures { IfOk result (λ it. AllZip (IsEdge (site_with self.now [])) edges.now it.items) }
    {
        let mut all = Vec::new(self.planner.alloc);
        for edge in edges {
            all.push(self.edge(edge)?)?;
        }
        Ok(all)
    }

    fn edge(&self, edge: &PhiEdge) -> Result<PlannedEdge, NoMemory>
        ensures { IfOk result (λ it. IsEdge (site_with self.now []) edge.now it) }
    {
        Ok(PlannedEdge {
            from: small(edge.from.number)?,
            value: self.at(&[]).arg(&edge.value)?,
        })
    }

    /// The steps of the instructions behind the phis of a block.
    fn steps(&self, instrs: &[Instr]) -> Result<Vec<Step>, NoMemory>
        ensures { IfOk result (λ it. HasSteps (site_with self.now []) instrs.now it.items) }
    {
        let alloc = self.planner.alloc;
        let mut run = Run {
            steps: Vec::new(alloc),
            pending: Vec::new(alloc),
        };
        for instr in instrs {
            self.turn(&mut run, instr)?;
        }
        Ok(run.steps)
    }

    /// One instruction more: a load that is made later, or a step.
    fn turn(&self, run: &mut Run, instr: &Instr) -> Result<(), NoMemory>
        ensures { OnOk result (GoesOn (site_with self.now []) run.old run.new instr.now) }
    {
        match self.late_load(instr) {
            Some(load) => Ok(run.pending.push(load)?),
            None => self.make(run, instr),
        }
    }

    fn make(&self, run: &mut Run, instr: &Instr) -> Result<(), NoMemory>
        ensures { OnOk result (GoesOn (site_with self.now []) run.old run.new instr.now) }
    {
        clear_where(waits(&instr.op), &mut run.pending);
        let step = self.step(run.pending.as_slice(), instr)?;
        clear_where(may_write(&step), &mut run.pending);
        run.steps.push(step)?;
        Ok(())
    }

    fn step(&self, pending: &[LateLoad], instr: &Instr) -> Result<Step, NoMemory>
        ensures { IfOk result (λ it. IsMade (site_with self.now pending.now) instr.now it) }
    {
        if !self.may_give(instr) {
            return Err(lost());
        }
        self.at(pending).step(instr.register, &instr.op)
    }

    /// The load that an instruction is, where it is made later.
    fn late_load(&self, instr: &Instr) -> Option<LateLoad>
        ensures { IfSome result (λ load. IsLateLoad (site_with self.now []) instr.now load) }
    {
        let (Op::Load(Operand::Register(cell)), Some(register)) = (&instr.op, instr.register) else {
            return None;
        };
        if register >= self.function.registers.as_slice().len() as u64 {
            return None;
        }
        match (mark_at(self.marks, register), mark_at(self.marks, *cell)) {
            (Mark::Late, Mark::Cell) => Some(LateLoad {
                register,
                cell: *cell,
            }),
            _ => None,
        }
    }

    /// Whether an instruction may give its register.
    fn may_give(&self, instr: &Instr) -> bool
        ensures { result ≡ registers.may_give (marks_of self.now.marks.now) instr.now.op instr.now.register }
    {
        let Some(register) = instr.register else {
            return true;
        };
        match mark_at(self.marks, register) {
            Mark::Plain => true,
            Mark::Cell => matches!(instr.op, Op::New(_)),
            Mark::Late => false,
        }
    }
}

/// Drops the loads that are still to be made, where they are read before.
fn clear_where(clears: bool, pending: &mut Vec<LateLoad>)
    ensures { pending.new.items ≡ (if clears then [] else pending.old.items) }
{
    if clears {
        pending.clear();
    }
}

/// Whether a function is the wrapper of a promoted method.
fn promotes(function: &Function) -> bool
    ensures { result ≡ is_promotion function.now }
{
    matches!(function.kind, FunctionKind::Wrapper)
        && function.name.as_str().as_bytes().starts_with(b"promote ")
}

fn role_of(function: &Function) -> Role
    ensures { result ≡ plans.role_of function.now function.now.kind }
{
    match function.kind {
        FunctionKind::Source => Role::Source,
        FunctionKind::Init => Role::Init,
        FunctionKind::Wrapper => Role::Wrapper,
        FunctionKind::External => external_role(function),
    }
}

/// What a function without a body is.
fn external_role(function: &Function) -> Role
    ensures { result ≡ plans.role_of function.now kind.External }
{
    if function.name.as_str() == "os.Exit" {
        Role::Exit
    } else {
        Role::Gosched
    }
}
