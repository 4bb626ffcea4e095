//! What the walk over a program's bodies met, by numbers: calls, values that are made, and flows.

ghost use Rattle.std.specs.Prelude.{◌≡◌, ◌++◌, IfOk, OnOk, List, [], map};
ghost use Rattle.cg_nodes.specs.declared.nodes.Mention.TheVariants as mention;
ghost use Rattle.cg_numbers.specs.Numbered.{StandsFor, Extends};
ghost use Rattle.go_base.specs.declared.ids.FuncId.{FuncId};
ghost use Rattle.cg_numbers.specs.Sites.{Collects, Stands, Met, Among, Adds, CallAt, met_in};

use crate::numbers::Numbers;
use cg_nodes::{Called, Mention, Node, Value};
use cg_uses::uses;
use go_base::{FuncId, NoMemory, Pos};
use go_tree::Program;
use go_type::Types;
use std::alloc::Global;

/// What a call calls: a function, or what the values of a node stand for in a group.
#[derive(Clone, Copy)]
pub enum Call {
    Fixed(FuncId),
    Chosen {
        of: usize,
        first: usize,
        group: usize,
    },
}

/// A call in a function.
#[derive(Clone, Copy)]
pub struct Site {
    pub caller: FuncId,
    pub at: Pos,
    pub call: Call,
}

/// A value that is made in a function, and the node of the expressions that make it.
#[derive(Clone, Copy)]
pub struct Seed {
    pub function: FuncId,
    pub value: usize,
    pub node: usize,
}

/// A flow from node to node.
#[derive(Clone, Copy)]
pub struct Flow {
    pub from: usize,
    pub to: usize,
}

/// What was met.
#[derive(Drop)]
pub struct Sites {
    pub numbers: Numbers,
    pub sites: Vec<Site>,
    pub seeds: Vec<Seed>,
    pub flows: Vec<Flow>,
}

/// What stands in the bodies of a program, and nothing else.
pub fn sites_of(alloc: Global, program: &Program) -> Result<Sites, NoMemory>
    ensures types { IfOk result (λ s. StandsFor program.now.types s.numbers.likeness.types s.numbers.likeness.bares) }
    ensures met { IfOk result (Collects (Stands program.now)) }
{
    let mut sites = Sites::none(alloc, &program.types)?;
    for number in 0..program.functions.len() as u64 {
        let function = FuncId { number };
        let met = uses(alloc, program, function)?;
        sites.add_all(function, met.as_slice())?;
    }
    Ok(sites)
}

impl Sites {
    /// Nothing was met.
    fn none(alloc: Global, types: &Types) -> Result<Sites, NoMemory>
        ensures types { IfOk result (λ s. StandsFor types.now s.numbers.likeness.types s.numbers.likeness.bares) }
        ensures met { IfOk result (Collects (Among [])) }
    {
        let numbers = Numbers::new(alloc, types)?;
        let sites = Vec::new(alloc);
        let seeds = Vec::new(alloc);
        let flows = Vec::new(alloc);
        Ok(Sites {
            numbers,
            sites,
            seeds,
            flows,
        })
    }

    fn add_all(&mut self, function: FuncId, mentions: &[Mention]) -> Result<(), NoMemory>
        ensures types { OnOk result (self.new.numbers.likeness ≡ self.old.numbers.likeness) }
        ensures met { OnOk result ((met : List Met) → Collects (Among met) self.old → Collects (Among (met ++ map (met_in function) mentions.now)) self.new) }
    {
        for mention in mentions {
            self.add(function, *mention)?;
        }
        Ok(())
    }

    fn add(&mut self, function: FuncId, mention: Mention) -> Result<(), NoMemory>
        ensures { OnOk result (Adds self.old self.new function mention) }
    {
        match mention {
            Mention::Seed(value) => self.add_seed(function, value),
            Mention::Flow { from, to } => self.add_flow(from, to),
            Mention::Call { at, called } => self.add_call(function, at, called),
        }
    }

    fn add_seed(&mut self, function: FuncId, value: Value) -> Result<(), NoMemory>
        ensures { OnOk result (Adds self.old self.new function (mention.Seed value)) }
    {
        let node = self.numbers.node(Node::Made(value))?;
        let value = self.numbers.value(value)?;
        self.seeds.push(Seed {
            function,
            value,
            node,
        })?;
        Ok(())
    }

    /// A flow, wherever it stands.
    fn add_flow(&mut self, from: Node, to: Node) -> Result<(), NoMemory>
        ensures { OnOk result ((f : FuncId) → Adds self.old self.new f (mention.Flow from to)) }
    {
        let from = self.numbers.node(from)?;
        let to = self.numbers.node(to)?;
        self.flows.push(Flow { from, to })?;
        Ok(())
    }

    fn add_call(&mut self, function: FuncId, at: Pos, called: Called) -> Result<(), NoMemory>
        ensures { OnOk result (Adds self.old self.new function (mention.Call at called)) }
    {
        let call = self.numbers.call_of(called)?;
        self.sites.push(Site {
            caller: function,
            at,
            call,
        })?;
        Ok(())
    }
}

impl Numbers {
    fn call_of(&mut self, called: Called) -> Result<Call, NoMemory>
        ensures ok { IfOk result (CallAt self.new called) }
        ensures extends { OnOk result (Extends self.old self.new) }
        ensures values { OnOk result (self.new.values ≡ self.old.values) }
    {
        match called {
            Called::Fixed(function) => Ok(Call::Fixed(function)),
            Called::Chosen { of, first, group } => {
                let of = self.node(of)?;
                let first = self.node(first)?;
                let group = self.group(group)?;
                Ok(Call::Chosen { of, first, group })
            }
        }
    }
}
