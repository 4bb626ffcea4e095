//! Calls and cases of a `select` as texts.

use crate::tests::lines::Maker;
use crate::tests::operands::{operand, operands};
use crate::tests::terms::METHOD;
use go_base::{FuncId, NoMemory};
use go_type::{Builtin, EXPORTED};
use ssa_ir::{Call, Operands, SelectCase, SelectCases};

/// `s` calls the function of a digit, `d` a value, `i` the method `m` of an interface, `x` one that is not there, and `b` a
/// built-in function by its letter.
pub fn call_of(maker: Maker) -> Result<Call, NoMemory> {
    let arguments = arguments(maker)?;
    Ok(with_arguments(maker, arguments))
}

fn arguments(maker: Maker) -> Result<Operands, NoMemory> {
    operands(
        maker.alloc,
        maker.world,
        maker.bytes.get(2..).unwrap_or(&[]),
    )
}

fn with_arguments(maker: Maker, arguments: Operands) -> Call {
    let what = maker.byte(1);
    match maker.byte(0) {
        b's' => Call::Static {
            function: FuncId {
                number: u64::from(what.wrapping_sub(b'0')),
            },
            arguments,
        },
        b'd' => Call::Dynamic {
            callee: operand(maker.alloc, maker.world, what),
            arguments,
        },
        b'b' => Call::Builtin {
            builtin: builtin(what),
            arguments,
        },
        form => Call::Invoke {
            receiver: operand(maker.alloc, maker.world, what),
            name: METHOD,
            package: if form == b'i' { EXPORTED } else { 0 },
            arguments,
        },
    }
}

fn builtin(letter: u8) -> Builtin {
    match letter {
        b'a' => Builtin::Append,
        b'c' => Builtin::Cap,
        b'e' => Builtin::Clear,
        b'k' => Builtin::Close,
        b'y' => Builtin::Copy,
        b'd' => Builtin::Delete,
        b'l' => Builtin::Len,
        b'x' => Builtin::Max,
        b'n' => Builtin::Min,
        b'h' => Builtin::Panic,
        b'p' => Builtin::Print,
        b'q' => Builtin::Println,
        _ => Builtin::Recover,
    }
}

/// Cases of three bytes: `>` with a channel and a value, or `<` with a channel and `_`.
pub fn cases_of(maker: Maker) -> Result<SelectCases, NoMemory> {
    let mut cases = SelectCases::new(maker.alloc);
    for case in maker.bytes.chunks_exact(3) {
        if let [way, channel, value] = case {
            let channel = operand(maker.alloc, maker.world, *channel);
            cases.push(if *way == b'>' {
                let value = operand(maker.alloc, maker.world, *value);
                SelectCase::Send { channel, value }
            } else {
                SelectCase::Receive { channel }
            })?;
        }
    }
    Ok(cases)
}
