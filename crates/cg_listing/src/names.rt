//! The names of a program's functions.

ghost use Rattle.std.specs.Prelude.{◌≡◌, IfOk};
ghost use Rattle.cg_listing.specs.Listing.{name_of, name_in, AreNames};

use go_base::{FuncId, NoMemory, Text};
use go_tree::Program;
use std::alloc::Global;
use std::marker::Model;
use tree_facts::{function_name, labels};

/// The names of all functions, by number.
#[derive(Drop)]
pub struct FunctionNames {
    texts: Vec<Text>,
}

impl Model for FunctionNames {
    ghost use Rattle.std.specs.Prelude.{ℕ, List};

    ghost Value = { List (List ℕ) };

    ghost view = { λ names. names.texts.items };
}

impl FunctionNames {
    /// The names of a program's functions.
    pub fn of(alloc: Global, program: &Program) -> Result<FunctionNames, NoMemory>
        ensures { IfOk result (AreNames program.now) }
    {
        let texts = texts_of(alloc, program)?;
        Ok(FunctionNames { texts })
    }

    /// The name of a function. Nothing where there is no such function.
    pub fn get(&self, function: FuncId) -> &[u8]
        ensures { result.now ≡ name_in self.now function.number }
    {
        match self.texts.get(function.number as usize) {
            Some(text) => text.as_str().as_bytes(),
            None => &[],
        }
    }
}

fn texts_of(alloc: Global, program: &Program) -> Result<Vec<Text>, NoMemory>
    ensures { IfOk result (λ texts. AreNames program.now texts.items) }
{
    let labels = labels(alloc, &program.packages)?;
    let mut texts = Vec::new(alloc);
    for number in 0..program.functions.len() as u64 {
        texts.push(function_name(alloc, program, &labels, FuncId { number })?)?;
    }
    Ok(texts)
}
