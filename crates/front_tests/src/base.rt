//! The places of a text, and the devices over memory and over the system.

use go_base::{FileError, Files, Names, Sink, SinkError, line_column};
use go_devices::{MemFiles, MemSink, RealFiles, RealSink};
use std::alloc::Global;
use std::io::{ErrorKind, Write};
use std::path::PathBuf;
use std::test::Fail;
use std::{env, fs, io, process};

#[test]
fn lines_and_columns(rt: HostRuntime) {
    for (offset, line, column) in [(0, 1, 1), (3, 3, 1), (6, 4, 1)] {
        assert_eq!(rt; line_column(b"a\n\nbc\n", offset), (line, column));
    }
}

#[test]
fn names(rt: HostRuntime) -> Result<(), Fail> {
    let mut names = Names::new(rt.alloc());
    let id = names.intern("a")?;
    let copy = names.copy(rt.alloc())?;
    assert_eq!(rt; copy.find("a"), Some(id));
    assert_eq!(rt; copy.find("b"), None);
    Ok(())
}

/// What is asked of a device: the path, and the limit of the file's bytes or, for a list of names, 0.
type Row = (&'static str, usize, Result<&'static str, FileError>);

/// The names of a directory, in order and each with a comma.
fn listed<F: Files>(alloc: Global, files: &mut F, dir: &str) -> Result<Vec<u8>, FileError> {
    let mut names = files.list(alloc, dir)?;
    names.sort()?;
    let mut joined = Vec::new(alloc);
    for name in &names {
        joined.extend_from_slice(name.as_bytes())?;
        joined.push(b',')?;
    }
    Ok(joined)
}

/// Whether a device answers as a row has it.
fn is_answered<F: Files>(alloc: Global, files: &mut F, path: &str, row: &Row) -> bool {
    let found = if row.1 == 0 {
        listed(alloc, files, path)
    } else {
        files.read(alloc, path, row.1)
    };
    match (&found, &row.2) {
        (Ok(bytes), Ok(text)) => bytes.as_slice() == text.as_bytes(),
        (Err(error), Err(want)) => error == want,
        _ => false,
    }
}

const IN_MEMORY: &[Row] = &[
    (".", 0, Ok("main.go,")),
    ("main.go", 100, Err(FileError::Failed)),
    ("main.go", 13, Ok("package main\n")),
    ("main.go", 12, Err(FileError::TooLarge)),
    ("lib", 100, Err(FileError::Absent)),
    ("lib", 0, Ok("a.go,")),
];

fn memory(alloc: Global) -> Result<MemFiles, Fail> {
    let mut files = MemFiles::new(alloc, &[2])?;
    for (path, text) in [("main.go", "package main\n"), ("lib/a.go", "package lib\n")] {
        files.add(path, text.as_bytes())?;
    }
    Ok(files)
}

#[test]
fn files_in_memory(rt: HostRuntime) -> Result<(), Fail> {
    let mut files = memory(rt.alloc())?;
    for row in IN_MEMORY {
        assert!(rt;
            is_answered(rt.alloc(), &mut files, row.0, row),
            "{}",
            row.0
        );
    }
    Ok(())
}

const WRITTEN: &[(&str, Result<(), SinkError>)] = &[
    ("one ", Ok(())),
    ("two ", Err(SinkError::Failed)),
    ("three", Ok(())),
];

#[test]
fn sink_in_memory(rt: HostRuntime) -> Result<(), Fail> {
    let mut sink = MemSink::new(rt.alloc(), &[2])?;
    for (text, want) in WRITTEN {
        assert_eq!(rt; sink.write(text.as_bytes()), *want, "{text}");
    }
    assert_eq!(rt; sink.bytes(), b"one three".as_slice());
    Ok(())
}

/// A new folder, of this process alone.
fn new_folder(rt: &HostRuntime) -> Result<PathBuf, Fail> {
    let name = format!(in rt.alloc(); "go_base-{}", process::id(rt.process()))?;
    let folder = env::temp_dir(rt)?.join(rt.alloc(), name.as_str())?;
    fs::create_dir_all(rt, folder.as_path())?;
    Ok(folder)
}

/// Writes the text `abc` into a file of the folder, in two parts.
fn write_file(rt: &HostRuntime, folder: &PathBuf) -> Result<(), Fail> {
    let path = folder.join(rt.alloc(), "a.txt")?;
    let mut sink = RealSink::new(fs::create(rt, path.as_path())?);
    for text in ["ab", "c"] {
        sink.write(text.as_bytes()).map_err(|_| "not written")?;
    }
    Ok(())
}

const OF_THE_SYSTEM: &[Row] = &[
    ("", 0, Ok("a.txt,")),
    ("a.txt", 3, Ok("abc")),
    ("a.txt", 2, Err(FileError::TooLarge)),
    ("", 3, Err(FileError::Absent)),
    ("a.txt", 0, Err(FileError::Absent)),
    ("b.txt", 3, Err(FileError::Absent)),
    ("a\0b", 3, Err(FileError::Failed)),
];

/// The first path in the folder that is not answered as its row has it.
fn first_wrong(rt: &HostRuntime, folder: &PathBuf) -> Result<Option<&'static str>, Fail> {
    let mut files = RealFiles::new(rt.clone()?);
    for row in OF_THE_SYSTEM {
        let path = folder.join(rt.alloc(), row.0)?;
        if !is_answered(rt.alloc(), &mut files, path.as_str(), row) {
            return Ok(Some(row.0));
        }
    }
    Ok(None)
}

#[test]
fn files_of_the_system(rt: HostRuntime) -> Result<(), Fail> {
    let folder = new_folder(&rt)?;
    write_file(&rt, &folder)?;
    assert_eq!(rt; first_wrong(&rt, &folder)?, None);
    fs::remove_dir_all(&rt, folder.as_path())?;
    Ok(())
}

/// A writer that is interrupted at each second call, takes a byte at the others, and fails once four were taken.
#[derive(Drop)]
struct Halting {
    calls: u8,
}

impl Write for Halting {
    fn write(&mut self, buf: &[u8]) -> io::Result<usize> {
        self.calls = self.calls.wrapping_add(1);
        match self.calls {
            2 | 4 | 6 | 8 => Err(io::Error::from(ErrorKind::Interrupted)),
            1 | 3 | 5 | 7 => Ok(buf.len().min(1)),
            _ => Err(io::Error::from(ErrorKind::BrokenPipe)),
        }
    }

    fn flush(&mut self) -> io::Result<()> {
        Ok(())
    }
}

#[test]
fn streams_that_halt(rt: HostRuntime) {
    let mut sink = RealSink::new(Halting { calls: 0 });
    for (text, want) in [
        ("abc", Ok(())),
        ("", Ok(())),
        ("de", Err(SinkError::Failed)),
    ] {
        assert_eq!(rt; sink.write(text.as_bytes()), want, "{text}");
    }
}
