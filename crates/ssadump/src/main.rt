//! The command `ssadump`: words and files in, standard output, standard error and an exit status out.
#![tactic(auto)]

use driver::{ssadump, status};
use go_devices::{RealFiles, RealSink};
use std::io::ErrorKind;
use std::process::ExitCode;
use std::{env, io};

/// The exit status where a word is not text.
const NOT_TEXT: u8 = 2;

/// The exit status where no memory is found for the words.
const NO_MEMORY: u8 = 6;

fn main(rt: HostRuntime) -> ExitCode {
    let alloc = rt.alloc();
    let words = match read_words(&rt) {
        Ok(words) => words,
        Err(error) if error.kind() == ErrorKind::OutOfMemory => return ExitCode::from(NO_MEMORY),
        Err(_) => return ExitCode::from(NOT_TEXT),
    };
    let mut out = RealSink::new(rt.stdout());
    let mut err = RealSink::new(rt.stderr());
    let mut files = RealFiles::new(rt);
    let outcome = ssadump(alloc, words.as_slice(), &mut files, &mut out, &mut err);
    ExitCode::from(status(&outcome))
}

// The words of the command line, without the program's name.
fn read_words(rt: &HostRuntime) -> io::Result<Vec<String>> {
    let words = env::args(rt)?.skip(1).collect(rt.alloc())?;
    Ok(words)
}
