//! The texts of faults and of panics.

ghost use Rattle.std.specs.Prelude.{◌≡◌, ◌++◌, OnOk, IfOk, codes, decimal};
ghost use Rattle.std.specs.Fmt.{signed_decimal};
ghost use Rattle.go_text.specs.Naming.{Naming};
ghost use Rattle.go_text.specs.TypeText.{type_text_of};
ghost use Rattle.go_type.specs.Table.{term_at};
ghost use Rattle.go_value.specs.Values.{value_of};
ghost use Rattle.value_texts.specs.Texts.{dynamic_text, fault_string, panic_string, shown, shown_by};

use crate::printing::push_printed;
use go_base::{Bytes, Names, NoMemory, TypeId};
use go_text::{Labels, push_int, push_number, push_quoted, push_type};
use go_type::{TypeTerm, Types};
use go_value::{Dynamic, Fault, Value};
use std::alloc::Global;
use std::marker::Model;

/// What type texts are made of.
#[derive(Drop)]
struct Namer<'a> {
    names: &'a Names,
    labels: &'a Labels,
    types: &'a Types,
}

impl<'a> Model for Namer<'a> {
    ghost use Rattle.go_text.specs.Naming.{Naming};

    ghost Value = { Naming };

    ghost view = { λ n. record { names = n.names.now; labels = n.labels.now; types = n.types.now } };
}

/// The string of a fault.
pub fn fault_text(
    alloc: Global,
    names: &Names,
    labels: &Labels,
    types: &Types,
    fault: &Fault,
) -> Result<Bytes, NoMemory>
    ensures { IfOk result (λ text. text ≡ fault_string (record { names = names.now; labels = labels.now; types = types.now }) fault.now) }
{
    let namer = Namer {
        names,
        labels,
        types,
    };
    let mut text = Vec::new(alloc);
    push_fault(&mut text, &namer, fault)?;
    Ok(Bytes::new(text))
}

fn push_fault(text: &mut Vec<u8>, namer: &Namer<'_>, fault: &Fault) -> Result<(), NoMemory>
    ensures { OnOk result (text.new.items ≡ text.old.items ++ fault_string namer.now fault.now) }
{
    match fault {
        Fault::Index { index, len } => push_index(text, *index, *len),
        Fault::SliceBounds => push_words(text, "slice bounds out of range"),
        Fault::ZeroDivisor => push_words(text, "integer divide by zero"),
        Fault::NilPointer => push_words(text, "invalid memory address or nil pointer dereference"),
        Fault::NilMap => push_words(text, "assignment to entry in nil map"),
        Fault::NegativeShift => push_words(text, "negative shift amount"),
        Fault::MakeSliceLen => push_words(text, "makeslice: len out of range"),
        Fault::MakeSliceCap => push_words(text, "makeslice: cap out of range"),
        Fault::GrowSlice => push_words(text, "growslice: len out of range"),
        Fault::MakeChan => push_words(text, "makechan: size out of range"),
        Fault::TextTooLong => push_words(text, "string too long"),
        Fault::SendOnClosed => push_words(text, "send on closed channel"),
        Fault::CloseOfClosed => push_words(text, "close of closed channel"),
        Fault::CloseOfNil => push_words(text, "close of nil channel"),
        Fault::Unhashable(of) => push_with_type(text, namer, "hash of unhashable type ", *of),
        Fault::Uncomparable(of) => push_with_type(text, namer, "comparing uncomparable type ", *of),
        Fault::Assertion { dynamic, wanted } => push_assertion(text, namer, *dynamic, *wanted),
        Fault::PanicNil => push_words(text, "panic called with nil argument"),
        Fault::TooDeep => push_words(text, "value nested too deeply"),
    }
}

fn push_words(text: &mut Vec<u8>, words: &str) -> Result<(), NoMemory>
    ensures { OnOk result (text.new.items ≡ text.old.items ++ words.now) }
{
    text.extend_from_slice(words.as_bytes())?;
    Ok(())
}

fn push_index(text: &mut Vec<u8>, index: i128, len: u64) -> Result<(), NoMemory>
    ensures { OnOk result (text.new.items ≡ text.old.items ++ (codes "index out of range [" ++ (signed_decimal index ++ (codes "] with length " ++ decimal len)))) }
{
    push_two(text, "index out of range [", index, "] with length ", len)
}

/// Two numbers, each behind words.
fn push_two(
    text: &mut Vec<u8>,
    front: &str,
    first: i128,
    between: &str,
    second: u64,
) -> Result<(), NoMemory>
    ensures { OnOk result (text.new.items ≡ text.old.items ++ (front.now ++ (signed_decimal first ++ (between.now ++ decimal second)))) }
{
    push_words(text, front)?;
    push_int(text, first)?;
    push_with_number(text, between, second)
}

fn push_with_number(text: &mut Vec<u8>, front: &str, number: u64) -> Result<(), NoMemory>
    ensures { OnOk result (text.new.items ≡ text.old.items ++ (front.now ++ decimal number)) }
{
    push_words(text, front)?;
    push_number(text, number)
}

fn push_with_type(
    text: &mut Vec<u8>,
    namer: &Namer<'_>,
    front: &str,
    of: TypeId,
) -> Result<(), NoMemory>
    ensures { OnOk result (text.new.items ≡ text.old.items ++ (front.now ++ type_text_of namer.now of)) }
{
    push_words(text, front)?;
    push_type(text, namer.names, namer.labels, namer.types, of)
}

fn push_assertion(
    text: &mut Vec<u8>,
    namer: &Namer<'_>,
    dynamic: Option<TypeId>,
    wanted: TypeId,
) -> Result<(), NoMemory>
    ensures { OnOk result (text.new.items ≡ text.old.items ++ (codes "interface conversion: " ++ (dynamic_text namer.now dynamic ++ (codes " is not " ++ type_text_of namer.now wanted)))) }
{
    push_words(text, "interface conversion: ")?;
    push_dynamic(text, namer, dynamic)?;
    push_with_type(text, namer, " is not ", wanted)
}

fn push_dynamic(
    text: &mut Vec<u8>,
    namer: &Namer<'_>,
    dynamic: Option<TypeId>,
) -> Result<(), NoMemory>
    ensures { OnOk result (text.new.items ≡ text.old.items ++ dynamic_text namer.now dynamic) }
{
    match dynamic {
        Some(of) => push_type(text, namer.names, namer.labels, namer.types, of),
        None => push_words(text, "nil"),
    }
}

/// The text of a panic with a value. `error_string` is the type `errorString` of `runtime`, where there is one.
pub fn panic_text(
    alloc: Global,
    names: &Names,
    labels: &Labels,
    types: &Types,
    error_string: Option<TypeId>,
    value: &Dynamic,
) -> Result<Bytes, NoMemory>
    ensures { IfOk result (λ text. text ≡ panic_string (record { names = names.now; labels = labels.now; types = types.now }) error_string value.now) }
{
    let namer = Namer {
        names,
        labels,
        types,
    };
    let mut text = Vec::new(alloc);
    push_panic(&mut text, &namer, error_string, value)?;
    Ok(Bytes::new(text))
}

fn push_panic(
    text: &mut Vec<u8>,
    namer: &Namer<'_>,
    error_string: Option<TypeId>,
    value: &Dynamic,
) -> Result<(), NoMemory>
    ensures { OnOk result (text.new.items ≡ text.old.items ++ panic_string namer.now error_string value.now) }
{
    if error_string == Some(value.of()) {
        push_words(text, "runtime error: ")?;
        return push_printed(text, value.value());
    }
    push_other(text, namer, value.of(), value.value())
}

/// A value that is no run-time error.
fn push_other(
    text: &mut Vec<u8>,
    namer: &Namer<'_>,
    of: TypeId,
    value: &Value,
) -> Result<(), NoMemory>
    ensures { OnOk result (text.new.items ≡ text.old.items ++ shown_by namer.now of (term_at namer.now.types of) (value_of value.now)) }
{
    match namer.types.get(of) {
        Some(TypeTerm::Basic(_)) => push_printed(text, value),
        _ => push_shown(text, namer, of, value),
    }
}

/// A value of a type that is not predeclared.
fn push_shown(
    text: &mut Vec<u8>,
    namer: &Namer<'_>,
    of: TypeId,
    value: &Value,
) -> Result<(), NoMemory>
    ensures { OnOk result (text.new.items ≡ text.old.items ++ shown (type_text_of namer.now of) (value_of value.now)) }
{
    match value {
        Value::Truth(_) | Value::Int(_) => {
            push_type(text, namer.names, namer.labels, namer.types, of)?;
            text.push(b'(')?;
            push_printed(text, value)?;
        }
        Value::Text(bytes) => {
            push_type(text, namer.names, namer.labels, namer.types, of)?;
            text.push(b'(')?;
            push_quoted(text, bytes.as_slice())?;
        }
        _ => {
            text.push(b'(')?;
            push_type(text, namer.names, namer.labels, namer.types, of)?;
        }
    }
    text.push(b')')?;
    Ok(())
}
