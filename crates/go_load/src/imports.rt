//! What is asked of all imports together.

ghost use Rattle.std.specs.Prelude.{◌≡◌, map, Option, IfErr, IfOk, IsErrOf};
ghost use Rattle.std.specs.List.{find};
ghost use Rattle.go_base.specs.Devices.{Tree};
ghost use Rattle.go_load.specs.Loading.{is_of_program, is_program_number, ChecksImports};
ghost use Rattle.go_finding.specs.Refusals.{Stops};

use crate::loader::Loader;
use go_base::{NoMemory, Rule};
use go_finding::{Link, LoadError};
use import_graph::{Edge, first_on_cycle};
use std::alloc::Global;

impl Loader {
    /// That no import is of a program, and then that none is on a cycle.
    pub fn check_imports(&self) -> Result<(), LoadError>
        ensures no_fault { IsErrOf result LoadError.ReadFault → ⊥ }
        ensures why { IfErr result (λ error. (files : Option Tree) → Stops files error) }
        ensures exact { ChecksImports self.now result }
    {
        let links = self.links.as_slice();
        if let Some(link) = first_of_program(self.programs.as_slice(), links) {
            return Err(self.refuse(link.at, Rule::ImportOfAProgram));
        }
        let edges = edges_of(self.alloc, links)?;
        match first_on_cycle(self.alloc, edges.as_slice())? {
            Some(index) => Err(self.refuse(links[index].at, Rule::ImportCycle)),
            None => Ok(()),
        }
    }
}

/// The first import of a package named main.
fn first_of_program(programs: &[bool], links: &[Link]) -> Option<Link>
    ensures { result ≡ find (is_of_program programs.now) links.now }
{
    'links: for link in links {
        if is_program_at(programs, link.edge.to) {
            return Some(*link);
        }
    }
    None
}

/// Whether a package is named main.
fn is_program_at(programs: &[bool], number: u32) -> bool
    ensures { result ≡ is_program_number programs.now number }
{
    match programs.get(number as usize) {
        Some(is_program) => *is_program,
        None => false,
    }
}

fn edges_of(alloc: Global, links: &[Link]) -> Result<Vec<Edge>, NoMemory>
    ensures { IfOk result (λ edges. edges.items ≡ map (λ link. link.edge) links.now) }
{
    let mut edges = Vec::new(alloc);
    'links: for link in links {
        edges.push(link.edge)?;
    }
    Ok(edges)
}
