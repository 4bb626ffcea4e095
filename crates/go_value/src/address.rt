//! Pointers to cells and their parts, and slices.

ghost use Rattle.std.specs.Prelude.{◌≡◌, ◌++◌, ◌∷◌, ◌↔◌, [], Some, None, IfOk, IsErrOf, is_none, IsTrue};
ghost use Rattle.go_value.specs.Address.{nil_pointer, nil_slice, part_of, pointer_of, settled};

use crate::faults::{Fault, ValueError};
use crate::memory::shared;
use go_base::{CellId, NoMemory};
use go_type::Path;
use std::alloc::Global;
use std::marker::Model;
use std::rc::Rc;

/// A pointer: nil where there is no cell, and then the path is empty. The path has field numbers and array indices,
/// the outermost first.
#[derive(Drop)]
pub struct Pointer {
    pub cell: Option<CellId>,
    pub path: Path,
}

/// A slice: where its first element stands, its length and its capacity. Nil where the pointer is nil.
#[derive(Drop)]
pub struct SliceValue {
    pub at: Pointer,
    pub len: u64,
    pub cap: u64,
}

/// A pointer as a value holds it, so that a copy takes no memory. A contract sees the pointer.
#[derive(Drop)]
pub struct Address {
    form: Form,
}

/// How an address stands for a pointer.
#[derive(Drop)]
pub enum Form {
    Nil,
    Whole(CellId),
    Near { cell: u32, part: u32 },
    Far(Rc<Pointer>),
}

impl Model for Address {
    ghost use Rattle.go_value.specs.Address.{pointer_of};
    ghost use Rattle.go_value.specs.declared.address.Pointer.{Pointer};

    ghost Value = { Pointer };

    ghost view = { λ a. pointer_of a.form };
}

impl Pointer {
    /// The nil pointer.
    pub fn nil(alloc: Global) -> Pointer
        ensures { result ≡ nil_pointer }
    {
        Pointer {
            cell: None,
            path: Path::new(alloc),
        }
    }

    /// The same pointer once more.
    pub fn copy(&self, alloc: Global) -> Result<Pointer, NoMemory>
        ensures { IfOk result (λ copy. copy ≡ self.now) }
    {
        Ok(Pointer {
            cell: self.cell,
            path: self.path.copy(alloc)?,
        })
    }

    /// Whether two pointers point to one part, or are both nil.
    pub fn is_same(&self, other: &Pointer) -> bool
        ensures { IsTrue result ↔ (self.now ≡ other.now) }
    {
        self.cell == other.cell && self.path.as_slice() == other.path.as_slice()
    }

    /// The pointer to a part of what it points to.
    pub fn part(&self, alloc: Global, step: u32) -> Result<Pointer, ValueError>
        ensures ok { IfOk result (λ part. part ≡ part_of self.now step) }
        ensures nil { IsErrOf result (ValueError.Fault Fault.NilPointer) ↔ (self.now.cell ≡ None) }
    {
        if self.cell.is_none() {
            return Err(ValueError::Fault(Fault::NilPointer));
        }
        let mut part = self.copy(alloc)?;
        part.path.push(step)?;
        Ok(part)
    }
}

impl SliceValue {
    /// The nil slice.
    pub fn nil(alloc: Global) -> SliceValue
        ensures { result ≡ nil_slice }
    {
        SliceValue {
            at: Pointer::nil(alloc),
            len: 0,
            cap: 0,
        }
    }

    /// Whether it is nil.
    pub fn is_nil(&self) -> bool
        ensures { result ≡ is_none self.now.at.cell }
    {
        self.at.cell.is_none()
    }

    /// The same slice once more.
    pub fn copy(&self, alloc: Global) -> Result<SliceValue, NoMemory>
        ensures { IfOk result (λ copy. copy ≡ self.now) }
    {
        Ok(SliceValue {
            at: self.at.copy(alloc)?,
            len: self.len,
            cap: self.cap,
        })
    }
}

impl Address {
    /// The nil pointer.
    pub fn nil() -> Address
        ensures { result ≡ nil_pointer }
    {
        Address { form: Form::Nil }
    }

    /// The pointer to a whole cell.
    pub fn whole(cell: CellId) -> Address
        ensures { result ≡ record { cell = Some cell; path = [] } }
    {
        Address {
            form: Form::Whole(cell),
        }
    }

    /// The address that stands for a pointer.
    pub fn of(alloc: Global, pointer: Pointer) -> Result<Address, NoMemory>
        ensures { IfOk result (λ address. address ≡ settled pointer) }
    {
        let Some(cell) = pointer.cell else {
            return Ok(Address::nil());
        };
        match pointer.path.as_slice() {
            [] => Ok(Address::whole(cell)),
            [step] => Address::near(alloc, cell, *step),
            _ => Address::far(alloc, pointer),
        }
    }

    /// The address of a part of a cell.
    pub fn near(alloc: Global, cell: CellId, part: u32) -> Result<Address, NoMemory>
        ensures { IfOk result (λ address. address ≡ record { cell = Some cell; path = part ∷ [] }) }
    {
        if let Ok(cell) = u32::try_from(cell.number) {
            return Ok(Address {
                form: Form::Near { cell, part },
            });
        }
        let mut path = Path::new(alloc);
        path.push(part)?;
        Address::far(
            alloc,
            Pointer {
                cell: Some(cell),
                path,
            },
        )
    }

    fn far(alloc: Global, pointer: Pointer) -> Result<Address, NoMemory>
        ensures { IfOk result (λ address. address ≡ pointer) }
    {
        Ok(Address {
            form: Form::Far(shared(alloc, pointer)?),
        })
    }

    /// How it stands for its pointer.
    pub fn form(&self) -> &Form
        ensures { pointer_of result.now ≡ self.now }
    {
        &self.form
    }

    /// The same address once more. It takes no memory.
    pub fn copy(&self) -> Result<Address, NoMemory>
        ensures { IfOk result (λ copy. copy ≡ self.now) }
    {
        Ok(Address {
            form: match &self.form {
                Form::Nil => Form::Nil,
                Form::Whole(cell) => Form::Whole(*cell),
                Form::Near { cell, part } => Form::Near {
                    cell: *cell,
                    part: *part,
                },
                Form::Far(pointer) => Form::Far(pointer.clone()?),
            },
        })
    }

    /// The pointer that it stands for.
    pub fn pointer(&self, alloc: Global) -> Result<Pointer, NoMemory>
        ensures { IfOk result (λ pointer. pointer ≡ self.now) }
    {
        match &self.form {
            Form::Nil => Ok(Pointer::nil(alloc)),
            Form::Whole(cell) => Ok(Pointer {
                cell: Some(*cell),
                path: Path::new(alloc),
            }),
            Form::Near { cell, part } => pointer_to(
                alloc,
                CellId {
                    number: u64::from(*cell),
                },
                *part,
            ),
            Form::Far(pointer) => pointer.copy(alloc),
        }
    }

    /// Whether it is nil.
    pub fn is_nil(&self) -> bool
        ensures { result ≡ is_none self.now.cell }
    {
        self.cell().is_none()
    }

    /// The cell that it leads into. None where it is nil.
    pub fn cell(&self) -> Option<CellId>
        ensures { result ≡ self.now.cell }
    {
        match &self.form {
            Form::Nil => None,
            Form::Whole(cell) => Some(*cell),
            Form::Near { cell, .. } => Some(CellId {
                number: u64::from(*cell),
            }),
            Form::Far(pointer) => pointer.cell,
        }
    }

    /// Whether two addresses stand for one pointer.
    pub fn is_same(&self, other: &Address) -> bool
        ensures { IsTrue result ↔ (self.now ≡ other.now) }
    {
        match &other.form {
            Form::Nil => self.leads_to(None, &[]),
            Form::Whole(cell) => self.leads_to(Some(*cell), &[]),
            Form::Near { cell, part } => self.leads_to(
                Some(CellId {
                    number: u64::from(*cell),
                }),
                &[*part],
            ),
            Form::Far(pointer) => self.leads_to(pointer.cell, pointer.path.as_slice()),
        }
    }

    /// Whether it leads to a cell by the steps.
    pub(crate) fn leads_to(&self, cell: Option<CellId>, steps: &[u32]) -> bool
        ensures { IsTrue result ↔ (self.now ≡ record { cell = cell; path = steps.now }) }
    {
        self.cell() == cell
            && match &self.form {
                Form::Nil | Form::Whole(_) => steps.is_empty(),
                Form::Near { part, .. } => match steps {
                    [step] => *step == *part,
                    _ => false,
                },
                Form::Far(pointer) => pointer.path.as_slice() == steps,
            }
    }

    /// The address of a part of what it points to: a field of a struct, or an element of an array.
    pub fn part(&self, alloc: Global, step: u32) -> Result<Address, ValueError>
        ensures ok { IfOk result (λ part. part ≡ part_of self.now step) }
        ensures nil { IsErrOf result (ValueError.Fault Fault.NilPointer) ↔ (self.now.cell ≡ None) }
    {
        match &self.form {
            Form::Nil => Err(ValueError::Fault(Fault::NilPointer)),
            Form::Whole(cell) => Ok(Address::near(alloc, *cell, step)?),
            _ => self.deeper(alloc, step),
        }
    }

    fn deeper(&self, alloc: Global, step: u32) -> Result<Address, ValueError>
        ensures ok { IfOk result (λ part. part ≡ part_of self.now step) }
        ensures nil { IsErrOf result (ValueError.Fault Fault.NilPointer) ↔ (self.now.cell ≡ None) }
    {
        if self.is_nil() {
            return Err(ValueError::Fault(Fault::NilPointer));
        }
        let pointer = self.pointer(alloc)?.part(alloc, step)?;
        Ok(Address::of(alloc, pointer)?)
    }
}

/// The pointer to a part of a cell.
pub fn pointer_to(alloc: Global, cell: CellId, part: u32) -> Result<Pointer, NoMemory>
    ensures { IfOk result (λ pointer. pointer ≡ record { cell = Some cell; path = part ∷ [] }) }
{
    let mut path = Path::new(alloc);
    path.push(part)?;
    Ok(Pointer {
        cell: Some(cell),
        path,
    })
}
