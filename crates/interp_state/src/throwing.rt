//! Faults and panics, as the top frame meets them. Go specification, "Handling panics".

ghost use Rattle.std.specs.Prelude.{◌≡◌, ◌++◌, Some, IfOk, OnOk, codes, string_bytes};
ghost use Rattle.std.specs.Char.{IsScalar};
ghost use Rattle.go_value.specs.Values.{value_of};
ghost use Rattle.plan_mean.specs.State.{World};
ghost use Rattle.ssa_mean.specs.Runes.{as_characters};

use crate::error::lost;
use crate::frames::{FrameState, Thrown};
use crate::machine::{Machine, Met, Turn};
use go_base::{Ending, NoMemory, Text};
use go_value::{Dynamic, Fault, Value};
use std::rc::Rc;
use value_texts::{fault_text, panic_text};

impl<'a> Machine<'a> {
    ghost use Rattle.interp_state.specs.Machines.{machine_of, thrown_of};
    ghost use Rattle.interp_state.specs.Turns.{IsIn, Meets, Steps};
    ghost use Rattle.plan_mean.specs.Unwinding.{panicked, panics_with, text_of_thrown, thrown_by, throws};
    ghost use Rattle.ssa_mean.specs.Faults.{value_text};

    /// Meets a fault, or want of memory.
    #[inline(never)]
    pub fn meet(&mut self, met: Met) -> Turn
        ensures { Meets met result self.old self.new }
    {
        match met {
            Met::Memory => Turn::WantsMemory,
            Met::Fault(fault) => match self.thrown(&fault) {
                Ok(thrown) => self.throw(thrown),
                Err(_) => Turn::WantsMemory,
            },
        }
    }

    /// What a fault throws: a value of `runtime.errorString`, where the code has that type.
    fn thrown(&self, fault: &Fault) -> Result<Thrown, NoMemory>
        ensures { IfOk result (λ it. (w : World) → IsIn w self.now → thrown_of it ≡ thrown_by w fault.now) }
    {
        let names = &self.code.names;
        let labels = &self.code.packages;
        let text = fault_text(self.alloc, names, labels, &self.code.types, fault)?;
        match self.plan.error_string {
            Some(of) => {
                let value = Value::text(self.alloc, text)?;
                let dynamic = Rc::new(self.alloc, Dynamic::new(of, value))?;
                Ok(Thrown::Value(Value::Interface(dynamic)))
            }
            None => Ok(Thrown::Fault(self.run_time_error(text.as_slice())?)),
        }
    }

    /// The text of a run-time error.
    fn run_time_error(&self, words: &[u8]) -> Result<Text, NoMemory>
        ensures { IfOk result (λ it. it ≡ as_characters (codes "runtime error: " ++ words.now)) }
    {
        let mut bytes = Vec::new(self.alloc);
        bytes.extend_from_slice(b"runtime error: ")?;
        bytes.extend_from_slice(words)?;
        self.shown(bytes.as_slice())
    }

    /// Bytes as a text, with U+FFFD in place of what is no character.
    fn shown(&self, bytes: &[u8]) -> Result<Text, NoMemory>
        ensures { IfOk result (λ it. it ≡ as_characters bytes.now) }
    {
        let mut text = String::new(self.alloc);
        push_characters(&mut text, bytes)?;
        Text::new(self.alloc, text.as_str())
    }

    /// Panics with a value of an interface type.
    pub fn panic_with(&mut self, value: Value) -> Turn
        ensures { Steps result self.old self.new (λ w. panics_with w (machine_of self.old) (value_of value)) }
    {
        match &value {
            Value::NilInterface => self.meet(Met::Fault(Fault::PanicNil)),
            Value::Interface(_) => self.throw(Thrown::Value(value)),
            _ => Turn::WantsMemory,
        }
    }

    /// The top frame panics. Where there is none, the run ends.
    pub fn throw(&mut self, thrown: Thrown) -> Turn
        ensures { Steps result self.old self.new (λ w. throws w (thrown_of thrown) (machine_of self.old)) }
    {
        match &mut self.current.top {
            Some(top) => {
                top.stand_at_recovery();
                drop(top.change(FrameState::Panicking(thrown)));
                Turn::Goes
            }
            None => self.panicked(thrown),
        }
    }

    /// The run ends, where there is no frame.
    fn panicked(&mut self, thrown: Thrown) -> Turn
        ensures { Steps result self.old self.new (λ w. panicked w (thrown_of thrown) (machine_of self.old)) }
    {
        match self.panic_line(thrown) {
            Ok(text) => self.end(Ending::Panicked(text)),
            Err(_) => Turn::WantsMemory,
        }
    }

    /// The text of a panic.
    fn panic_line(&self, thrown: Thrown) -> Result<Text, NoMemory>
        ensures { IfOk result (λ it. (w : World) → IsIn w self.now → text_of_thrown w (thrown_of thrown) ≡ Some it) }
    {
        match thrown {
            Thrown::Fault(text) => Ok(text),
            Thrown::Value(value) => self.value_line(&value),
        }
    }

    /// The text of a panic with a value.
    fn value_line(&self, value: &Value) -> Result<Text, NoMemory>
        ensures { IfOk result (λ it. (w : World) → IsIn w self.now → value_text w.naming w.plan.error_string (value_of value.now) ≡ Some it) }
    {
        match value {
            Value::Interface(dynamic) => {
                let names = &self.code.names;
                let labels = &self.code.packages;
                let types = &self.code.types;
                let known = self.plan.error_string;
                let text = panic_text(self.alloc, names, labels, types, known, dynamic)?;
                self.shown(text.as_slice())
            }
            _ => Err(lost()),
        }
    }
}

/// Bytes as characters behind a text.
fn push_characters(text: &mut String, bytes: &[u8]) -> Result<(), NoMemory>
    ensures { OnOk result (string_bytes text.new ≡ string_bytes text.old ++ as_characters bytes.now) }
{
    let mut at = 0usize;
    for _ in 0..bytes.len() {
        if at >= bytes.len() {
            return Ok(());
        }
        let (rune, width) = go_value::decode_rune(bytes, at);
        text.push(character(rune))?;
        at = at.saturating_add(usize::from(width.max(1)));
    }
    Ok(())
}

/// A code point as a character.
fn character(rune: u32) -> char
    ensures { IsScalar rune → result ≡ rune }
{
    char::from_u32(rune).unwrap_or('\u{fffd}')
}
