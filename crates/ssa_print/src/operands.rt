//! The texts of operands, and of the names that stand in code.

ghost use Rattle.std.specs.Prelude.{◌≡◌, ◌++◌, ◌∷◌, OnOk, IfOk, codes, decimal};
ghost use Rattle.go_text.specs.TypeText.{type_text_of};
ghost use Rattle.go_text.specs.Naming.{name_text, label_text, method_name_text};
ghost use Rattle.ssa_print.specs.Operands.{setting_of, blank_text, named_text, variable_text, function_text, value_text, register_place, register_text, operand_text};

use crate::variables::{NamedVariable, name_variables};
use go_base::{FuncId, NameId, Names, NoMemory, Text, TypeId, VarId};
use go_text::{push_int, push_method, push_number, push_quoted, push_type};
use indexmap::IndexSet;
use ssa_ir::{Code, ConstValue, Operand};
use std::alloc::Global;
use std::marker::Model;

/// What the texts of a code are read from.
#[derive(Drop)]
pub struct Setting<'a> {
    pub code: &'a Code,
    pub variables: Vec<NamedVariable>,
}

impl<'a> Model for Setting<'a> {
    ghost use Rattle.ssa_print.specs.Operands as spec;

    ghost Value = { spec.Setting };

    ghost view = { λ s. record {
      naming = record { names = s.code.now.names; labels = s.code.now.packages; types = s.code.now.types };
      declared = s.code.now.declared;
      methods = s.code.now.methods;
      functions = s.code.now.functions;
      variables = s.variables.items;
    } };
}

impl<'a> Setting<'a> {
    pub fn new(alloc: Global, code: &'a Code) -> Result<Setting<'a>, NoMemory>
        ensures { IfOk result (λ setting. setting ≡ setting_of code.now) }
    {
        Ok(Setting {
            code,
            variables: name_variables(alloc, &code.names, code.variables.as_slice())?,
        })
    }

    pub fn push_type(&self, text: &mut Vec<u8>, id: TypeId) -> Result<(), NoMemory>
        ensures { OnOk result (text.new.items ≡ text.old.items ++ type_text_of self.now.naming id) }
    {
        push_type(
            text,
            &self.code.names,
            &self.code.packages,
            &self.code.types,
            id,
        )
    }

    pub fn push_function(&self, text: &mut Vec<u8>, function: FuncId) -> Result<(), NoMemory>
        ensures { OnOk result (text.new.items ≡ text.old.items ++ function_text self.now function) }
    {
        if let Some(function) = self.code.functions.as_slice().get(function.number as usize) {
            text.extend_from_slice(function.name.as_str().as_bytes())?;
        }
        Ok(())
    }

    /// A package variable. Nothing where there is none of the number.
    pub fn push_variable(&self, text: &mut Vec<u8>, variable: VarId) -> Result<(), NoMemory>
        ensures { OnOk result (text.new.items ≡ text.old.items ++ variable_text self.now variable.number) }
    {
        match self.variables.get(variable.number as usize) {
            Some(named) => self.push_named(text, *named),
            None => Ok(()),
        }
    }

    /// A package variable: its package's label and its name, and the number of a blank one.
    pub fn push_named(&self, text: &mut Vec<u8>, named: NamedVariable) -> Result<(), NoMemory>
        ensures { OnOk result (text.new.items ≡ text.old.items ++ named_text self.now named) }
    {
        text.extend_from_slice(self.label_of(named.variable.package))?;
        text.push(b'.')?;
        text.extend_from_slice(name_of(&self.code.names, named.variable.name))?;
        push_blank(text, named.blank)
    }

    /// The name of a method.
    pub fn push_method(
        &self,
        text: &mut Vec<u8>,
        name: NameId,
        package: u32,
    ) -> Result<(), NoMemory>
        ensures { OnOk result (text.new.items ≡ text.old.items ++ method_name_text self.now.naming.names self.now.naming.labels name «package») }
    {
        push_method(text, &self.code.names, &self.code.packages, name, package)
    }

    /// The label of a package. Nothing where there is none of the number.
    pub fn label_of(&self, package: u32) -> &[u8]
        ensures { result.now ≡ label_text self.now.naming.labels «package» }
    {
        self.label_at(package as usize)
    }

    /// The label of a package by its place.
    pub fn label_at(&self, place: usize) -> &[u8]
        ensures { result.now ≡ label_text self.now.naming.labels place }
    {
        match self.code.packages.as_slice().get(place) {
            Some(label) => label.as_str().as_bytes(),
            None => &[],
        }
    }

    /// An operand, with the registers that the function gives in the order of the text.
    #[tactic(auto, unfolding(crate::specs::Operands::operand_text))]
    pub fn push_operand(
        &self,
        text: &mut Vec<u8>,
        given: &IndexSet<u64>,
        operand: &Operand,
    ) -> Result<(), NoMemory>
        ensures { OnOk result (text.new.items ≡ text.old.items ++ operand_text self.now given.now.keys operand.now) }
    {
        match operand {
            Operand::Param(number) => push_numbered(text, b'p', *number),
            Operand::Free(number) => push_numbered(text, b'f', *number),
            Operand::Register(register) => push_register(text, given, *register),
            Operand::Function(function) => self.push_function(text, *function),
            Operand::Variable(variable) => self.push_address(text, *variable),
            Operand::Constant { value, of } => self.push_constant(text, value, *of),
        }
    }

    fn push_address(&self, text: &mut Vec<u8>, variable: VarId) -> Result<(), NoMemory>
        ensures { OnOk result (text.new.items ≡ text.old.items ++ (codes "&" ++ variable_text self.now variable.number)) }
    {
        text.push(b'&')?;
        self.push_variable(text, variable)
    }

    fn push_constant(
        &self,
        text: &mut Vec<u8>,
        value: &ConstValue,
        of: TypeId,
    ) -> Result<(), NoMemory>
        ensures { OnOk result (text.new.items ≡ text.old.items ++ (value_text value.now ++ (codes ":" ++ type_text_of self.now.naming of))) }
    {
        push_value(text, value)?;
        text.push(b':')?;
        self.push_type(text, of)
    }
}

/// A name. Nothing where no name has the id.
pub fn name_of(names: &Names, name: NameId) -> &[u8]
    ensures { result.now ≡ name_text names.now name }
{
    match names.text(name) {
        Some(text) => text.as_bytes(),
        None => &[],
    }
}

fn push_blank(text: &mut Vec<u8>, number: u64) -> Result<(), NoMemory>
    ensures { OnOk result (text.new.items ≡ text.old.items ++ blank_text number) }
{
    if number > 0 {
        text.push(b'#')?;
        push_number(text, number)?;
    }
    Ok(())
}

/// A letter and a number.
fn push_numbered(text: &mut Vec<u8>, letter: u8, number: u64) -> Result<(), NoMemory>
    ensures { OnOk result (text.new.items ≡ text.old.items ++ (letter ∷ decimal number)) }
{
    text.push(letter)?;
    push_number(text, number)
}

/// A register, by its place among those that are given.
pub fn push_register(
    text: &mut Vec<u8>,
    given: &IndexSet<u64>,
    register: u64,
) -> Result<(), NoMemory>
    ensures { OnOk result (text.new.items ≡ text.old.items ++ register_text given.now.keys register) }
{
    push_numbered(text, b't', place_of(given, register))
}

fn place_of(given: &IndexSet<u64>, register: u64) -> u64
    ensures { result ≡ register_place given.now.keys register }
{
    match given.get_index_of(&register) {
        Some(place) => place as u64,
        None => given.len() as u64,
    }
}

fn push_value(text: &mut Vec<u8>, value: &ConstValue) -> Result<(), NoMemory>
    ensures { OnOk result (text.new.items ≡ text.old.items ++ value_text value.now) }
{
    match value {
        ConstValue::Int(value) => push_int(text, *value),
        ConstValue::Truth(true) => push_words(text, b"true"),
        ConstValue::Truth(false) => push_words(text, b"false"),
        ConstValue::Text(bytes) => push_quoted(text, bytes.as_slice()),
        ConstValue::Nil => push_words(text, b"nil"),
        ConstValue::Zero => push_words(text, b"zero"),
    }
}

/// A text as it is.
pub fn push_name(text: &mut Vec<u8>, name: &Text) -> Result<(), NoMemory>
    ensures { OnOk result (text.new.items ≡ text.old.items ++ name.now) }
{
    push_words(text, name.as_str().as_bytes())
}

/// Bytes as they are.
pub fn push_words(text: &mut Vec<u8>, words: &[u8]) -> Result<(), NoMemory>
    ensures { OnOk result (text.new.items ≡ text.old.items ++ words.now) }
{
    text.extend_from_slice(words)?;
    Ok(())
}
