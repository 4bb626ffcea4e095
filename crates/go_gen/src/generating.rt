//! The text of the generated program.

ghost use Rattle.std.specs.Prelude.{◌≡◌, ◌++◌, OnOk, IfOk};
ghost use Rattle.go_gen.specs.Generated.{program_text, type_text, function_text, declared_text, call_text, each_below};

use go_base::{Bytes, NoMemory};
use go_text::push_number;
use std::alloc::Global;

/// The program of so many types, functions and calls:
///
/// ```go
/// package main
///
/// type I interface{ M(x int) int }
///
/// type T0 struct{ n int }
///
/// func (t T0) M(x int) int { return (x*7 + t.n) % 1000 }
///
/// func f0(x int) int {
///     var i I = T0{0}
///     return i.M(x)
/// }
///
/// func main() {
///     x := 1
///     x = f0(x)
///     println(x)
/// }
/// ```
pub fn generated(alloc: Global, count: u32) -> Result<Bytes, NoMemory>
    ensures { IfOk result (λ text. text ≡ program_text count) }
{
    let mut text = Vec::new(alloc);
    push(
        &mut text,
        b"package main\n\ntype I interface{ M(x int) int }\n",
    )?;
    push_types(&mut text, count)?;
    push(&mut text, b"\nfunc main() {\n\tx := 1\n")?;
    push_calls(&mut text, count)?;
    push(&mut text, b"\tprintln(x)\n}\n")?;
    Ok(Bytes::new(text))
}

fn push(text: &mut Vec<u8>, bytes: &[u8]) -> Result<(), NoMemory>
    ensures { OnOk result (text.new.items ≡ text.old.items ++ bytes.now) }
{
    text.extend_from_slice(bytes)?;
    Ok(())
}

/// The types with their methods, and the functions.
fn push_types(text: &mut Vec<u8>, count: u32) -> Result<(), NoMemory>
    ensures { OnOk result (text.new.items ≡ text.old.items ++ each_below declared_text count) }
{
    for k in 0..count {
        push_type(text, k as u64)?;
        push_function(text, k as u64)?;
    }
    Ok(())
}

fn push_type(text: &mut Vec<u8>, k: u64) -> Result<(), NoMemory>
    ensures { OnOk result (text.new.items ≡ text.old.items ++ type_text k) }
{
    push(text, b"\ntype T")?;
    push_number(text, k)?;
    push(text, b" struct{ n int }\n\nfunc (t T")?;
    push_number(text, k)?;
    push(text, b") M(x int) int { return (x*7 + t.n) % 1000 }\n")
}

fn push_function(text: &mut Vec<u8>, k: u64) -> Result<(), NoMemory>
    ensures { OnOk result (text.new.items ≡ text.old.items ++ function_text k) }
{
    push(text, b"\nfunc f")?;
    push_number(text, k)?;
    push(text, b"(x int) int {\n\tvar i I = T")?;
    push_number(text, k)?;
    push(text, b"{")?;
    push_number(text, k)?;
    push(text, b"}\n\treturn i.M(x)\n}\n")
}

fn push_calls(text: &mut Vec<u8>, count: u32) -> Result<(), NoMemory>
    ensures { OnOk result (text.new.items ≡ text.old.items ++ each_below call_text count) }
{
    for k in 0..count {
        push_call(text, k as u64)?;
    }
    Ok(())
}

fn push_call(text: &mut Vec<u8>, k: u64) -> Result<(), NoMemory>
    ensures { OnOk result (text.new.items ≡ text.old.items ++ call_text k) }
{
    push(text, b"\tx = f")?;
    push_number(text, k)?;
    push(text, b"(x)\n")
}
