//! The store of cells. Go specification, "Variables" and "Assignment statements".

ghost use Rattle.std.specs.Prelude.{◌≡◌, ◌↔◌, [], Some, None, IsSome, IfSome, IfNone, IfOk, IsErrOf, OnOk, OnErr, length};
ghost use Rattle.go_value.specs.Address.{part_of};
ghost use Rattle.go_value.specs.Gives.{FaultsIff};
ghost use Rattle.go_store.specs.Cells.{held, integer_in};
ghost use Rattle.go_store.specs.Stores.{stored, made, part_in, loaded, loaded_int, with_part_in, put_in};
ghost use Rattle.go_value.specs.Values as vals;
ghost use Rattle.go_value.specs.Values.{value_of};
ghost use Rattle.go_value.specs.declared.values.Value.TheVariants as values;

use crate::cells::{Cell, cell_of};
use crate::leaves::integer;
use crate::memory::lost;
use crate::parts::{read, read_int, write, write_int};
use go_base::{CellId, NoMemory};
use go_maps::Maps;
use go_value::{Address, Fault, Form, Pointer, Value, ValueError};
use std::alloc::Global;
use std::slice;

/// Cells and maps, numbered from 0 in the order in which they were made.
#[derive(Drop)]
pub struct Store {
    pub(crate) alloc: Global,
    pub(crate) cells: Vec<Cell>,
    pub(crate) maps: Maps,
}

const NIL: ValueError = ValueError::Fault(Fault::NilPointer);

impl Store {
    /// No cells, and no maps.
    pub fn new(alloc: Global) -> Store
        ensures { stored result ≡ record { cells = []; maps = [] } }
    {
        Store {
            alloc,
            cells: Vec::new(alloc),
            maps: Maps::new(alloc),
        }
    }

    /// How many cells there are.
    pub fn cell_count(&self) -> u64
        ensures { result ≡ length (stored self.now).cells }
    {
        self.cells.len() as u64
    }

    /// A new cell that holds a value. After `NoMemory` the store is as before.
    pub fn make_cell(&mut self, value: Value) -> Result<CellId, NoMemory>
        ensures number { IfOk result (λ cell. cell.number ≡ length (stored self.old).cells) }
        ensures ok { IfOk result (λ cell. stored self.new ≡ made (stored self.old) (value_of value)) }
        ensures err { OnErr result (stored self.new ≡ stored self.old) }
    {
        let cell = cell_of(self.alloc, value)?;
        self.add_cell(cell)
    }

    pub(crate) fn add_cell(&mut self, cell: Cell) -> Result<CellId, NoMemory>
        ensures number { IfOk result (λ made. made.number ≡ length (stored self.old).cells) }
        ensures ok { IfOk result (λ _. stored self.new ≡ made (stored self.old) (held cell)) }
        ensures err { OnErr result (stored self.new ≡ stored self.old) }
    {
        let number = self.cells.len() as u64;
        self.cells.push(cell)?;
        Ok(CellId { number })
    }

    /// The value of the part that a pointer points to. `NilPointer` exactly where it is nil.
    pub fn load(&self, alloc: Global, at: &Pointer) -> Result<Value, ValueError>
        ensures ok { IfOk result (λ value. loaded (stored self.now) at.now ≡ Some (value_of value)) }
        ensures nil { FaultsIff result Fault.NilPointer (at.now.cell ≡ None) }
    {
        match at.cell {
            Some(cell) => Ok(self.read_part(alloc, cell, at.path.as_slice())?),
            None => Err(NIL),
        }
    }

    /// The value of the part that an address leads to. `NilPointer` exactly where it is nil.
    pub fn load_at(&self, alloc: Global, at: &Address) -> Result<Value, ValueError>
        ensures ok { IfOk result (λ value. loaded (stored self.now) at.now ≡ Some (value_of value)) }
        ensures nil { FaultsIff result Fault.NilPointer (at.now.cell ≡ None) }
    {
        match cell_and_steps(at) {
            Some((cell, steps)) => Ok(self.read_part(alloc, cell, steps)?),
            None => Err(NIL),
        }
    }

    fn read_part(&self, alloc: Global, cell: CellId, steps: &[u32]) -> Result<Value, NoMemory>
        ensures { IfOk result (λ value. part_in (stored self.now) cell steps.now ≡ Some (value_of value)) }
    {
        match self.cells.get(cell.number as usize) {
            Some(cell) => read(alloc, cell, steps),
            None => Err(lost()),
        }
    }

    /// Puts a value in the part that a pointer points to. `NilPointer` exactly where it is nil. After an error the store
    /// is as before.
    pub fn put(&mut self, at: &Pointer, value: Value) -> Result<(), ValueError>
        ensures ok { OnOk result (stored self.new ≡ put_in (value_of value) (stored self.old) at.now) }
        ensures there { OnOk result (IsSome (loaded (stored self.old) at.now)) }
        ensures nil { FaultsIff result Fault.NilPointer (at.now.cell ≡ None) }
        ensures err { OnErr result (stored self.new ≡ stored self.old) }
    {
        match at.cell {
            Some(cell) => Ok(self.write_part(cell, at.path.as_slice(), value)?),
            None => Err(NIL),
        }
    }

    /// Puts a value in the part that an address leads to, as `put`.
    pub fn put_at(&mut self, at: &Address, value: Value) -> Result<(), ValueError>
        ensures ok { OnOk result (stored self.new ≡ put_in (value_of value) (stored self.old) at.now) }
        ensures there { OnOk result (IsSome (loaded (stored self.old) at.now)) }
        ensures nil { FaultsIff result Fault.NilPointer (at.now.cell ≡ None) }
        ensures err { OnErr result (stored self.new ≡ stored self.old) }
    {
        match cell_and_steps(at) {
            Some((cell, steps)) => Ok(self.write_part(cell, steps, value)?),
            None => Err(NIL),
        }
    }

    fn write_part(&mut self, cell: CellId, steps: &[u32], value: Value) -> Result<(), NoMemory>
        ensures ok { OnOk result (stored self.new ≡ with_part_in (λ _. value_of value) (stored self.old) cell steps.now) }
        ensures there { OnOk result (IsSome (part_in (stored self.old) cell steps.now)) }
        ensures err { OnErr result (stored self.new ≡ stored self.old) }
    {
        match integer(&value) {
            Some(number) => {
                drop(value);
                self.write_int_part(cell, steps, number)
            }
            None => self.write_value_part(cell, steps, value),
        }
    }

    fn write_int_part(&mut self, cell: CellId, steps: &[u32], number: i128) -> Result<(), NoMemory>
        ensures ok { OnOk result (stored self.new ≡ with_part_in (λ _. vals.number number) (stored self.old) cell steps.now) }
        ensures there { OnOk result (IsSome (part_in (stored self.old) cell steps.now)) }
        ensures err { OnErr result (stored self.new ≡ stored self.old) }
    {
        match self.cells.get_mut(cell.number as usize) {
            Some(cell) => write_int(self.alloc, cell, steps, number),
            None => Err(lost()),
        }
    }

    fn write_value_part(
        &mut self,
        cell: CellId,
        steps: &[u32],
        value: Value,
    ) -> Result<(), NoMemory>
        ensures ok { OnOk result (stored self.new ≡ with_part_in (λ _. value_of value) (stored self.old) cell steps.now) }
        ensures there { OnOk result (IsSome (part_in (stored self.old) cell steps.now)) }
        ensures err { OnErr result (stored self.new ≡ stored self.old) }
    {
        let mut new = cell_of(self.alloc, value)?;
        let written = self.write_cell(cell, steps, &mut new);
        drop(new);
        written
    }

    fn write_cell(&mut self, cell: CellId, steps: &[u32], new: &mut Cell) -> Result<(), NoMemory>
        ensures ok { OnOk result (stored self.new ≡ with_part_in (λ _. held new.old) (stored self.old) cell steps.now) }
        ensures there { OnOk result (IsSome (part_in (stored self.old) cell steps.now)) }
        ensures err { OnErr result (stored self.new ≡ stored self.old) }
    {
        match self.cells.get_mut(cell.number as usize) {
            Some(cell) => write(cell, steps, new),
            None => Err(lost()),
        }
    }

    /// The integer that the part holds that a pointer points to, 0 where it holds none. `NilPointer` exactly where it is
    /// nil. It takes no memory.
    pub fn load_int(&self, at: &Pointer) -> Result<i128, Fault>
        ensures { result ≡ loaded_int (stored self.now) at.now }
    {
        match at.cell {
            Some(cell) => Ok(self.read_int_part(cell, at.path.as_slice()).unwrap_or(0)),
            None => Err(Fault::NilPointer),
        }
    }

    /// The integer that the part holds that an address leads to, as `load_int`.
    pub fn load_int_at(&self, at: &Address) -> Result<i128, Fault>
        ensures { result ≡ loaded_int (stored self.now) at.now }
    {
        match cell_and_steps(at) {
            Some((cell, steps)) => Ok(self.read_int_part(cell, steps).unwrap_or(0)),
            None => Err(Fault::NilPointer),
        }
    }

    /// Puts an integer in the part of what a pointer points to, as `put`. It takes memory only where an array that is kept
    /// in bytes gets an integer that is no byte.
    pub fn put_int(&mut self, at: &Pointer, value: i128) -> Result<(), ValueError>
        ensures ok { OnOk result (stored self.new ≡ put_in (value_of (values.Int value)) (stored self.old) at.now) }
        ensures there { OnOk result (IsSome (loaded (stored self.old) at.now)) }
        ensures nil { FaultsIff result Fault.NilPointer (at.now.cell ≡ None) }
        ensures err { OnErr result (stored self.new ≡ stored self.old) }
    {
        self.put(at, Value::Int(value))
    }

    /// Puts an integer in the part that an address leads to, as `put_int`.
    pub fn put_int_at(&mut self, at: &Address, value: i128) -> Result<(), ValueError>
        ensures ok { OnOk result (stored self.new ≡ put_in (value_of (values.Int value)) (stored self.old) at.now) }
        ensures there { OnOk result (IsSome (loaded (stored self.old) at.now)) }
        ensures nil { FaultsIff result Fault.NilPointer (at.now.cell ≡ None) }
        ensures err { OnErr result (stored self.new ≡ stored self.old) }
    {
        self.put_at(at, Value::Int(value))
    }

    /// The integer that the part holds that an address leads to. None where the address is nil, or that is no integer.
    pub fn int_at(&self, at: &Address) -> Option<i128>
        ensures { result ≡ integer_in (loaded (stored self.now) at.now) }
    {
        let (cell, steps) = cell_and_steps(at)?;
        self.read_int_part(cell, steps)
    }

    /// The integer that a part holds.
    fn read_int_part(&self, cell: CellId, steps: &[u32]) -> Option<i128>
        ensures { result ≡ integer_in (part_in (stored self.now) cell steps.now) }
    {
        match self.cells.get(cell.number as usize) {
            Some(cell) => read_int(cell, steps),
            None => None,
        }
    }

    /// The pointer to a part of what a pointer points to: a field of a struct, or an element of an array. `NilPointer`
    /// exactly where it is nil.
    pub fn address(&self, alloc: Global, base: &Pointer, step: u32) -> Result<Pointer, ValueError>
        ensures ok { IfOk result (λ part. part ≡ part_of base.now step) }
        ensures nil { IsErrOf result (ValueError.Fault Fault.NilPointer) ↔ (base.now.cell ≡ None) }
    {
        base.part(alloc, step)
    }
}

/// The cell that an address leads into, and the steps from there. None where it is nil.
fn cell_and_steps(at: &Address) -> Option<(CellId, &[u32])>
    ensures some { IfSome result (λ place. at.now ≡ record { cell = Some place.0; path = place.1.now }) }
    ensures none { IfNone result (at.now.cell ≡ None) }
{
    match at.form() {
        Form::Nil => None,
        Form::Whole(cell) => Some((*cell, &[])),
        Form::Near { cell, part } => Some((near(*cell), slice::from_ref(part))),
        Form::Far(pointer) => pointer.cell.map(|cell| (cell, pointer.path.as_slice())),
    }
}

fn near(cell: u32) -> CellId
    ensures { result ≡ record { number = cell } }
{
    CellId {
        number: u64::from(cell),
    }
}
