//! From a value to a method of it: through its embedded fields.

use go_base::{FuncId, NameId, NoMemory, Pos, TypeId};
use go_tree::Program;
use go_type::{Selection, SelectionKind, TypeIds, TypeTerm, Types, find_selector};
use ssa_ir::{Call, Instr, Instrs, Op, Operand, Operands};
use std::alloc::Global;

/// What a case answers that cannot come where the type has the method.
pub(crate) fn lost() -> NoMemory {
    NoMemory
}

/// A wrapper has no place in the source.
const NOWHERE: Pos = Pos { file: 0, offset: 0 };

/// A wrapper while it is built: one block, and its registers.
#[derive(Drop)]
pub(crate) struct Straight {
    pub alloc: Global,
    pub instrs: Instrs,
    pub registers: TypeIds,
}

/// A value on the way to a method.
#[derive(Drop)]
pub(crate) struct Held {
    pub operand: Operand,
    /// The type of what is held, or of what is pointed to.
    pub of: TypeId,
    /// Whether the operand points to it.
    pub by_address: bool,
}

impl Straight {
    pub fn new(alloc: Global) -> Straight {
        Straight {
            alloc,
            instrs: Instrs::new(alloc),
            registers: TypeIds::new(alloc),
        }
    }

    /// An instruction that gives a register.
    pub fn value(&mut self, op: Op, of: TypeId) -> Result<Operand, NoMemory> {
        let number = self.registers.as_slice().len() as u64;
        self.registers.push(of)?;
        self.instrs.push(Instr {
            op,
            register: Some(number),
            at: NOWHERE,
        })?;
        Ok(Operand::Register(number))
    }

    /// An instruction that gives none.
    pub fn effect(&mut self, op: Op) -> Result<(), NoMemory> {
        self.instrs.push(Instr {
            op,
            register: None,
            at: NOWHERE,
        })
    }
}

/// The id of a type.
pub(crate) fn hold(types: &mut Types, term: TypeTerm) -> Result<TypeId, NoMemory> {
    if types.can_hold(&term) {
        return types.hold(term);
    }
    Err(lost())
}

/// A method of a type, with the embedded fields that lead to it. None where the type is an interface, whose methods are its
/// own.
pub(crate) fn selection_of(
    alloc: Global,
    types: &Types,
    of: TypeId,
    name: NameId,
    package: u32,
) -> Result<Option<Selection>, NoMemory> {
    if matches!(types.underlying_term(of), Some(TypeTerm::Interface(_))) {
        return Ok(None);
    }
    match find_selector(alloc, types, of, name, package) {
        Ok(selection) => Ok(Some(selection)),
        Err(_) => Err(lost()),
    }
}

/// The value of a type, before any field.
pub(crate) fn start_of(types: &Types, operand: Operand, of: TypeId) -> Held {
    match types.get(of) {
        Some(TypeTerm::Pointer(base)) => Held {
            operand,
            of: *base,
            by_address: true,
        },
        _ => Held {
            operand,
            of,
            by_address: false,
        },
    }
}

impl Straight {
    /// Goes to an embedded field, and to what it points to where it is a pointer.
    fn step(&mut self, types: &mut Types, held: Held, field: u32) -> Result<Held, NoMemory> {
        let of = field_type(types, held.of, field)?;
        let base = match types.get(of) {
            Some(TypeTerm::Pointer(base)) => Some(*base),
            _ => None,
        };
        let operand = held.operand;
        if !held.by_address {
            let value = self.value(Op::Field { operand, field }, of)?;
            return Ok(match base {
                Some(base) => Held {
                    operand: value,
                    of: base,
                    by_address: true,
                },
                None => Held {
                    operand: value,
                    of,
                    by_address: false,
                },
            });
        }
        let pointer = hold(types, TypeTerm::Pointer(of))?;
        let address = self.value(Op::FieldAddress { operand, field }, pointer)?;
        match base {
            Some(base) => {
                let value = self.value(Op::Load(address), of)?;
                Ok(Held {
                    operand: value,
                    of: base,
                    by_address: true,
                })
            }
            None => Ok(Held {
                operand: address,
                of,
                by_address: true,
            }),
        }
    }

    /// Goes along the embedded fields of a path.
    pub fn walk(&mut self, types: &mut Types, from: Held, path: &[u32]) -> Result<Held, NoMemory> {
        let mut held = from;
        for field in path {
            held = self.step(types, held, *field)?;
        }
        Ok(held)
    }

    /// What is held, as a value.
    fn loaded(&mut self, held: Held) -> Result<Operand, NoMemory> {
        if held.by_address {
            return self.value(Op::Load(held.operand), held.of);
        }
        Ok(held.operand)
    }

    /// The call of a concrete method on what is held.
    fn call_method(
        &mut self,
        program: &Program,
        held: Held,
        function: FuncId,
        arguments: Operands,
    ) -> Result<Call, NoMemory> {
        let functions = program.functions.as_slice();
        let Some(decl) = functions.get(function.number as usize) else {
            return Err(lost());
        };
        let takes_pointer = decl.receiver != Some(held.of);
        let receiver = if takes_pointer {
            held.operand
        } else {
            self.loaded(held)?
        };
        let mut all = Operands::new(self.alloc);
        all.push(receiver)?;
        push_copies(self.alloc, &mut all, arguments.as_slice())?;
        Ok(Call::Static {
            function,
            arguments: all,
        })
    }

    /// The call of a method on what is held.
    pub fn call(
        &mut self,
        program: &Program,
        held: Held,
        kind: SelectionKind,
        name: NameId,
        package: u32,
        arguments: Operands,
    ) -> Result<Call, NoMemory> {
        match kind {
            SelectionKind::Method(function) => {
                self.call_method(program, held, function, arguments)
            }
            SelectionKind::InterfaceMethod => {
                let receiver = self.loaded(held)?;
                Ok(Call::Invoke {
                    receiver,
                    name,
                    package,
                    arguments,
                })
            }
            SelectionKind::Field => Err(lost()),
        }
    }
}

fn push_copies(alloc: Global, all: &mut Operands, more: &[Operand]) -> Result<(), NoMemory> {
    for operand in more {
        all.push(operand.copy(alloc)?)?;
    }
    Ok(())
}

fn field_type(types: &Types, of: TypeId, field: u32) -> Result<TypeId, NoMemory> {
    match types.underlying_term(of) {
        Some(TypeTerm::Struct(fields)) => match fields.as_slice().get(field as usize) {
            Some(field) => Ok(field.of),
            None => Err(lost()),
        },
        _ => Err(lost()),
    }
}
