//! What the names in types and codes are written as.

ghost use Rattle.std.specs.Prelude.{◌≡◌, ◌++◌, OnOk};
ghost use Rattle.go_text.specs.Naming.{name_text, label_text, label_prefix, member_text, method_name_text, declared_text, number_text};

use crate::labels::Labels;
use crate::scalars::push_number;
use go_base::{NameId, Names, NoMemory};
use go_type::{EXPORTED, TypeName, Types};
use std::marker::Model;

/// What types and their names are read from.
#[derive(Drop)]
pub struct Namer<'a> {
    pub names: &'a Names,
    pub labels: &'a Labels,
    pub types: &'a Types,
}

impl<'a> Model for Namer<'a> {
    ghost use Rattle.go_text.specs.Naming.{Naming};

    ghost Value = { Naming };

    ghost view = { λ n. record { names = n.names.now; labels = n.labels.now; types = n.types.now } };
}

/// A name. Nothing where no name has the id.
pub fn name_of(names: &Names, name: NameId) -> &[u8]
    ensures { result.now ≡ name_text names.now name }
{
    match names.text(name) {
        Some(text) => text.as_bytes(),
        None => &[],
    }
}

fn push_name(text: &mut Vec<u8>, names: &Names, name: NameId) -> Result<(), NoMemory>
    ensures { OnOk result (text.new.items ≡ text.old.items ++ name_text names.now name) }
{
    text.extend_from_slice(name_of(names, name))?;
    Ok(())
}

/// The label of a package. Nothing where there is no such package.
pub fn label_of(labels: &Labels, package: u32) -> &[u8]
    ensures { result.now ≡ label_text labels.now «package» }
{
    match labels.as_slice().get(package as usize) {
        Some(label) => label.as_str().as_bytes(),
        None => &[],
    }
}

/// The label and the dot before a name that is not exported, of a package whose label is not `main`.
fn push_prefix(text: &mut Vec<u8>, labels: &Labels, package: u32) -> Result<(), NoMemory>
    ensures { OnOk result (text.new.items ≡ text.old.items ++ label_prefix labels.now «package») }
{
    let label = label_of(labels, package);
    if package != EXPORTED && label != b"main".as_slice() {
        text.extend_from_slice(label)?;
        text.push(b'.')?;
    }
    Ok(())
}

/// The name of a field or method in the text of a type.
pub fn push_member(
    text: &mut Vec<u8>,
    names: &Names,
    labels: &Labels,
    name: NameId,
    package: u32,
) -> Result<(), NoMemory>
    ensures { OnOk result (text.new.items ≡ text.old.items ++ member_text names.now labels.now name «package») }
{
    push_prefix(text, labels, package)?;
    push_name(text, names, name)
}

/// The name of a method outside types: one that is not exported, of a package whose label is not `main`, is followed by
/// `=` and that label.
pub fn push_method(
    text: &mut Vec<u8>,
    names: &Names,
    labels: &Labels,
    name: NameId,
    package: u32,
) -> Result<(), NoMemory>
    ensures { OnOk result (text.new.items ≡ text.old.items ++ method_name_text names.now labels.now name «package») }
{
    push_name(text, names, name)?;
    let label = label_of(labels, package);
    if package != EXPORTED && label != b"main".as_slice() {
        text.push(b'=')?;
        text.extend_from_slice(label)?;
    }
    Ok(())
}

/// A declared type: its package's label and its name. That of a type declared in a function is followed by its number.
pub fn push_declared(
    text: &mut Vec<u8>,
    names: &Names,
    labels: &Labels,
    of: TypeName,
) -> Result<(), NoMemory>
    ensures { OnOk result (text.new.items ≡ text.old.items ++ declared_text names.now labels.now of) }
{
    if of.package != EXPORTED {
        text.extend_from_slice(label_of(labels, of.package))?;
        text.push(b'.')?;
    }
    push_name(text, names, of.name)?;
    push_local_number(text, of.number)
}

fn push_local_number(text: &mut Vec<u8>, number: u32) -> Result<(), NoMemory>
    ensures { OnOk result (text.new.items ≡ text.old.items ++ number_text number) }
{
    if number > 0 {
        text.push(b'#')?;
        push_number(text, number as u64)?;
    }
    Ok(())
}
