//! The values of whole cells, in place.

ghost use Rattle.std.specs.Prelude.{◌≡◌, [], Some, IfSome};
ghost use Rattle.go_store.specs.Cells.{held, read_at};
ghost use Rattle.go_store.specs.Stores.{stored, loaded, part_in};
ghost use Rattle.go_value.specs.Values.{value_of};

use crate::cells::Cell;
use crate::store::Store;
use go_base::CellId;
use go_value::{Address, Form, Value};

impl Store {
    /// The value of the cell that an address leads to, in place. None where the address is nil, leads to a part, or leads
    /// to a cell whose value is an array or a struct.
    pub fn value_at(&self, at: &Address) -> Option<&Value>
        ensures { IfSome result (λ value. loaded (stored self.now) at.now ≡ Some (value_of value.now)) }
    {
        match at.form() {
            Form::Whole(cell) => self.value_of_cell(*cell),
            Form::Nil | Form::Near { .. } | Form::Far(_) => None,
        }
    }

    fn value_of_cell(&self, cell: CellId) -> Option<&Value>
        ensures { IfSome result (λ value. part_in (stored self.now) cell [] ≡ Some (value_of value.now)) }
    {
        match self.cells.get(cell.number as usize) {
            Some(cell) => whole_value(cell),
            None => None,
        }
    }
}

/// The value of a cell that holds one, and no parts.
#[tactic(auto, using(crate::proofs::Held::one_is))]
fn whole_value(cell: &Cell) -> Option<&Value>
    ensures { IfSome result (λ value. read_at (held cell.now) [] ≡ Some (value_of value.now)) }
{
    match cell {
        Cell::One(leaf) => Some(&leaf.value),
        Cell::Ints(_) | Cell::Many(_) | Cell::Bytes(_) => None,
    }
}
