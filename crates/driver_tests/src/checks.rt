// Checks of programs of one file.
use crate::rows::{BROKEN, FIRST, KEPT};
use driver::{ssadump, status};
use go_base::NoMemory;
use go_devices::{MemFiles, MemSink};
use std::test::Fail;

// The status of a check of a file, and what is on standard error.
fn check(rt: &impl AllocGlobal, source: &str) -> Result<(u8, MemSink), NoMemory> {
    let alloc = rt.alloc();
    let mut words = Vec::new(alloc);
    words.push(String::from_str(alloc, "x.go")?)?;
    let mut files = MemFiles::new(alloc, &[])?;
    files.add("x.go", source.as_bytes())?;
    let mut out = MemSink::new(alloc, &[])?;
    let mut err = MemSink::new(alloc, &[])?;
    let outcome = ssadump(alloc, words.as_slice(), &mut files, &mut out, &mut err);
    Ok((status(&outcome), err))
}

#[test]
fn names_broken_rules(rt: HostRuntime) -> Result<(), Fail> {
    for (source, line) in BROKEN {
        let (code, err) = check(&rt, source)?;
        assert_eq!(rt; err.bytes(), line.as_bytes(), "{source:?}");
        assert_eq!(rt; code, 1, "{source:?}");
    }
    Ok(())
}

#[test]
fn names_the_first(rt: HostRuntime) -> Result<(), Fail> {
    for (source, line) in FIRST {
        let (code, err) = check(&rt, source)?;
        assert_eq!(rt; err.bytes(), line.as_bytes(), "{source:?}");
        assert_eq!(rt; code, 1, "{source:?}");
    }
    Ok(())
}

#[test]
fn accepts(rt: HostRuntime) -> Result<(), Fail> {
    for source in KEPT {
        let (code, err) = check(&rt, source)?;
        assert!(rt; err.bytes().is_empty(), "{source:?}");
        assert_eq!(rt; code, 0, "{source:?}");
    }
    Ok(())
}

// Arrays of one element, each of the one before it: the last has a nesting of one more than their number.
fn chain(rt: &impl AllocGlobal, count: usize, end: &str) -> Result<String, NoMemory> {
    let alloc = rt.alloc();
    let mut text = String::from_str(alloc, "package main\n\ntype t0 [1]int\n")?;
    for number in 1..count {
        let line = format!(in alloc; "type t{number} [1]t{}\n", number - 1)?;
        text.push_str(&line)?;
    }
    text.push_str(end)?;
    Ok(text)
}

#[test]
fn limits_nesting(rt: HostRuntime) -> Result<(), Fail> {
    let kept = chain(&rt, 999, "\nfunc main() { var x t998; _ = x }\n")?;
    let (code, err) = check(&rt, &kept)?;
    assert!(rt; err.bytes().is_empty());
    assert_eq!(rt; code, 0);
    let declared = chain(&rt, 1_000, "\nfunc main() {}\n")?;
    let (_, err) = check(&rt, &declared)?;
    assert_eq!(rt;
        err.bytes(),
        b"x.go:1002:11: type too large (N11)\n".as_slice()
    );
    let local = chain(&rt, 999, "\nfunc main() { var x [1]t998; _ = x }\n")?;
    let (_, err) = check(&rt, &local)?;
    assert_eq!(rt;
        err.bytes(),
        b"x.go:1003:21: type too large (N11)\n".as_slice()
    );
    Ok(())
}
