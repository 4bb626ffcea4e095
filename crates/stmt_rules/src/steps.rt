//! Statements as they become typed.

use go_base::{NameId, NoMemory, Pos};
use go_tree::{TypedArm, TypedBlock, TypedStmt};
use std::alloc::Global;
use std::vec::IntoIter;
use typed_parts::{only, with_last};

/// Where a statement stands.
#[derive(Clone, Copy)]
pub struct Spot {
    /// The last of its labels.
    pub label: Option<NameId>,
    /// Whether `fallthrough` may stand there.
    pub falls: bool,
}

impl Spot {
    /// Without a label.
    pub fn plain() -> Spot {
        Spot {
            label: None,
            falls: false,
        }
    }
}

/// The typed statements of a list so far.
#[derive(Drop)]
pub struct Steps {
    alloc: Global,
    statements: Vec<TypedStmt>,
    is_sound: bool,
    /// Whether the last of the statements that were walked ends.
    pub ends: bool,
}

impl Steps {
    /// No statements.
    pub fn new(alloc: Global) -> Steps {
        Steps {
            alloc,
            statements: Vec::new(alloc),
            is_sound: true,
            ends: false,
        }
    }

    /// One more statement, None where it is unsound.
    pub fn push(&mut self, stmt: Option<TypedStmt>, ends: bool) -> Result<(), NoMemory> {
        self.ends = ends;
        if !push_sound(&mut self.statements, stmt)? {
            self.is_sound = false;
        }
        Ok(())
    }

    /// A statement with its labels. Of several specifications the labels stand before the first.
    pub fn push_labeled(
        &mut self,
        at: Pos,
        labels: Vec<NameId>,
        inner: Steps,
    ) -> Result<(), NoMemory> {
        let Steps {
            alloc,
            statements,
            is_sound,
            ends,
        } = inner;
        self.ends = ends;
        self.is_sound = self.is_sound && is_sound;
        let Some((labels, statements)) = only(Some((labels, statements)), is_sound) else {
            return Ok(());
        };
        let (stmt, rest) = first_boxed(alloc, statements)?;
        let labeled = TypedStmt::Labeled { at, labels, stmt };
        push_all(&mut self.statements, labeled, rest)
    }

    /// The statements, where all are sound.
    pub fn into_statements(self) -> Option<Vec<TypedStmt>> {
        let Steps {
            alloc: _,
            statements,
            is_sound,
            ends: _,
        } = self;
        only(Some(statements), is_sound)
    }

    /// The statement of a list of at most one.
    pub fn into_first(self) -> Result<First, NoMemory> {
        let Steps {
            alloc,
            statements,
            is_sound,
            ends: _,
        } = self;
        let stmt = boxed_first(alloc, statements)?;
        Ok(First { is_sound, stmt })
    }
}

/// Adds an item at the end of a list, where it is sound. Whether it is.
fn push_sound<T: Drop>(items: &mut Vec<T>, item: Option<T>) -> Result<bool, NoMemory> {
    match item {
        Some(item) => {
            items.push(item)?;
            Ok(true)
        }
        None => Ok(false),
    }
}

/// The first of a list in a box.
fn boxed_first<T: Drop>(alloc: Global, items: Vec<T>) -> Result<Option<Box<T>>, NoMemory> {
    let (first, _rest) = first_boxed(alloc, items)?;
    Ok(first)
}

/// The first of a list in a box, and those behind it.
fn first_boxed<T: Drop>(
    alloc: Global,
    items: Vec<T>,
) -> Result<(Option<Box<T>>, IntoIter<T>), NoMemory> {
    let mut rest = items.into_iter();
    let first = match rest.next() {
        Some(first) => Some(Box::new(alloc, first)?),
        None => None,
    };
    Ok((first, rest))
}

/// Adds an item and those of a list at the end of another.
fn push_all<T: Drop>(items: &mut Vec<T>, first: T, rest: IntoIter<T>) -> Result<(), NoMemory> {
    items.push(first)?;
    for item in rest {
        items.push(item)?;
    }
    Ok(())
}

/// The simple statement before a condition, a tag or a loop.
#[derive(Drop)]
pub struct First {
    pub is_sound: bool,
    pub stmt: Option<Box<TypedStmt>>,
}

/// A block that was walked.
#[derive(Drop)]
pub struct WalkedBlock {
    /// None where something in it is unsound.
    pub block: Option<TypedBlock>,
    /// Whether its list of statements ends in one that ends.
    pub ends: bool,
}

impl WalkedBlock {
    /// The statements of a block between two places.
    pub fn new(at: Pos, end: Pos, steps: Steps) -> WalkedBlock {
        let ends = steps.ends;
        match steps.into_statements() {
            Some(statements) => WalkedBlock {
                block: Some(TypedBlock {
                    at,
                    end,
                    statements,
                }),
                ends,
            },
            None => WalkedBlock { block: None, ends },
        }
    }
}

/// An arm of an `if` that was walked.
#[derive(Drop)]
pub struct WalkedArm {
    pub arm: Option<TypedArm>,
    pub ends: bool,
}

/// Items of a list, as long as all are sound, and whether each ends.
#[derive(Drop)]
pub struct Gathered<T: Drop> {
    pub items: Option<Vec<T>>,
    pub all_end: bool,
}

impl<T: Drop> Gathered<T> {
    /// No items.
    pub fn new(alloc: Global) -> Gathered<T> {
        Gathered {
            items: Some(Vec::new(alloc)),
            all_end: true,
        }
    }

    /// One more item, None where it is unsound.
    pub fn push(&mut self, item: Option<T>, ends: bool) -> Result<(), NoMemory> {
        if !ends {
            self.all_end = false;
        }
        self.items = with_last(self.items.take(), item)?;
        Ok(())
    }
}
