//! Rows of items by number.

ghost use Rattle.std.specs.Prelude.{◌≡◌, ℕ, ◌++◌, ◌==◌, [], OnOk, length, ◌<◌, ◌≤◌};
ghost use Rattle.cg_solve.specs.Lists.{when};
ghost use Rattle.cg_solve.specs.Tables.{row};

use go_base::NoMemory;
use std::alloc::Global;

/// Rows of items by number. A row that nothing was put into is empty.
#[derive(Drop)]
pub struct Table<T> {
    rows: Vec<Vec<T>>,
}

impl<T: Copy> Table<T> {
    /// No rows.
    pub fn new(alloc: Global) -> Self
        ensures { (k : ℕ) → row result k ≡ [] }
    {
        Table {
            rows: Vec::new(alloc),
        }
    }

    /// Puts an item at the end of a row.
    pub fn put(&mut self, alloc: Global, key: usize, item: T) -> Result<(), NoMemory>
        ensures { OnOk result ((k : ℕ) → row self.new k ≡ row self.old k ++ when (key == k) item) }
    {
        self.cover(alloc, key)?;
        self.rows[key].push(item)?;
        Ok(())
    }

    // Makes rows up to a number.
    fn cover(&mut self, alloc: Global, key: usize) -> Result<(), NoMemory>
        ensures same { OnOk result ((k : ℕ) → row self.new k ≡ row self.old k) }
        ensures covered { OnOk result (key < length self.new.rows.items) }
    {
        while self.rows.len() <= key {
            self.rows.push(Vec::new(alloc))?;
        }
        Ok(())
    }

    /// How many rows there are: later ones are empty.
    pub fn len(&self) -> usize
        ensures { (k : ℕ) → result ≤ k → row self.now k ≡ [] }
    {
        self.rows.len()
    }

    /// A row.
    pub fn row(&self, key: usize) -> &[T]
        ensures { result.now ≡ row self.now key }
    {
        if key < self.rows.len() {
            self.rows[key].as_slice()
        } else {
            &[]
        }
    }
}
