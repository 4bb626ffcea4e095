// Calls over files and sinks in memory.
ghost use Rattle.std.specs.List.Sorted.{IsStrictlyIncreasing};

use driver::{Outcome, ssadump, status};
use go_base::NoMemory;
use go_devices::{MemFiles, MemSink};
use std::alloc::{AllocError, Global};
use std::test::Fail;

const HELLO: &str = "package main\n\nfunc main() { println(\"hi\", 7) }\n";

// Sources, and what they print.
const SOURCES: &[(&str, &str)] = &[
    (HELLO, "hi 7\n"),
    (
        "package main\nfunc main() { println(\"a\", 0, \"b c\"); println(); println(120); }",
        "a 0 b c\n\n120\n",
    ),
    (
        "package main; func main() {\n\tprintln(\"// no comment\")\n\n\tprintln(123456789012345678)\n};",
        "// no comment\n123456789012345678\n",
    ),
    ("package main\n\nfunc main() {}\n", ""),
    ("package main\n\nfunc main() { } // end\n", ""),
    ("package main\n\nfunc main() { print(\"a\") }\n", "a"),
    ("package main\n\nfunc main() { println(01) }\n", "1\n"),
    (
        "package main\n\nfunc main() { println(\"a\\n\") }\n",
        "a\n\n",
    ),
    ("package main\n\nfunc main() { println(1,) }\n", "1\n"),
];

// Sources that are not run, and what is on standard error.
const REFUSED: &[(&str, &str)] = &[
    (
        "package println\n\nfunc main() { println(1) }\n",
        "x.go:1:9: not a main package (O3)\n",
    ),
    (
        "package main\n\nfunc main() { main(1) }\n",
        "x.go:3:20: wrong number of values (E7)\n",
    ),
    (
        "package main\n\nfunc main() { println(1 << 63) }\n",
        "x.go:3:23: constant out of range (K1)\n",
    ),
    (
        "package main\n\nfunc main() { println(1) println(2) }\n",
        "x.go:3:1: syntax error (S1)\n",
    ),
    (
        "package main\n\nfunc main()\n{ println(1) }\n",
        "x.go:4:1: syntax error (S1)\n",
    ),
    ("", "x.go:1:1: syntax error (S1)\n"),
    (
        "package main\nvar s = \"ab",
        "x.go:2:9: string literal not closed (L6)\n",
    ),
    (
        "package main\n\nfunc main() { println(0x) }\n",
        "x.go:3:23: not an integer literal (L4)\n",
    ),
    ("\n\t~", "x.go:2:2: unexpected character (L2)\n"),
];

// Command lines, the status, and what is on standard error.
const LINES: &[(&str, u8, &str)] = &[
    ("", 2, "ssadump: bad command line at \"\"\n"),
    ("-run", 2, "ssadump: bad command line at \"\"\n"),
    (
        "run hello.go",
        2,
        "ssadump: bad command line at \"hello.go\"\n",
    ),
    ("-run hello", 1, "hello:1:1: no Go files (M4)\n"),
    ("-run hello.go x", 2, "ssadump: bad command line at \"x\"\n"),
    ("-run none.go", 1, "none.go:1:1: no Go files (M4)\n"),
    ("-run ./hello.go", 0, ""),
    ("-run .", 0, ""),
    ("-run -bound=0 hello.go", 3, "bound reached\n"),
    ("-run -callgraph=cha hello.go", 0, ""),
    ("hello.go", 0, ""),
    ("-build=N hello.go", 0, ""),
    ("-build=F hello.go", 1, "hello.go:1:1: not built yet (X1)\n"),
    ("-build=N -run -bound=0 hello.go", 3, "bound reached\n"),
];

// Which devices fail (files, standard output, standard error), the status, and what is on standard error.
const FAULTS: &[((bool, bool, bool), u8, &str)] = &[
    ((true, false, false), 4, "ssadump: read fault\n"),
    ((false, true, false), 5, "ssadump: write fault\n"),
    ((true, false, true), 5, ""),
];

// The words as a command line has them.
fn words_of(alloc: Global, words: &[&str]) -> Result<Vec<String>, AllocError> {
    let mut all = Vec::new(alloc);
    for word in words {
        all.push(String::from_str(alloc, word)?)?;
    }
    Ok(all)
}

// What a call came to.
#[derive(Drop)]
struct Answer {
    outcome: Outcome,
    out: MemSink,
    err: MemSink,
}

// The calls that fail: the first, or none.
fn plan(fails: bool) -> &'static [u64]
    ensures { IsStrictlyIncreasing result.now }
{
    if fails { &[1] } else { &[] }
}

// Calls `-run path` where `bytes` stand at `path`; the first call of each device fails as said.
fn run_with(
    rt: &impl AllocGlobal,
    path: &str,
    bytes: &[u8],
    fails: (bool, bool, bool),
) -> Result<Answer, NoMemory> {
    let alloc = rt.alloc();
    let words = words_of(alloc, &["-run", path])?;
    let mut files = MemFiles::new(alloc, plan(fails.0))?;
    files.add(path, bytes)?;
    let mut out = MemSink::new(alloc, plan(fails.1))?;
    let mut err = MemSink::new(alloc, plan(fails.2))?;
    let outcome = ssadump(alloc, words.as_slice(), &mut files, &mut out, &mut err);
    Ok(Answer { outcome, out, err })
}

#[test]
fn runs(rt: HostRuntime) -> Result<(), Fail> {
    for (source, out) in SOURCES {
        let answer = run_with(&rt, "x.go", source.as_bytes(), (false, false, false))?;
        assert_eq!(rt; status(&answer.outcome), 0, "{source:?}");
        assert_eq!(rt; answer.out.bytes(), out.as_bytes(), "{source:?}");
        assert!(rt; answer.err.bytes().is_empty(), "{source:?}");
    }
    Ok(())
}

#[test]
fn refuses(rt: HostRuntime) -> Result<(), Fail> {
    for (source, err) in REFUSED {
        let answer = run_with(&rt, "x.go", source.as_bytes(), (false, false, false))?;
        assert_eq!(rt; status(&answer.outcome), 1, "{source:?}");
        assert!(rt; answer.out.bytes().is_empty(), "{source:?}");
        assert_eq!(rt; answer.err.bytes(), err.as_bytes(), "{source:?}");
    }
    Ok(())
}

#[test]
fn reads_words(rt: HostRuntime) -> Result<(), Fail> {
    let alloc = rt.alloc();
    for (line, code, err) in LINES {
        let mut files = MemFiles::new(alloc, plan(false))?;
        files.add("hello.go", HELLO.as_bytes())?;
        let mut out = MemSink::new(alloc, plan(false))?;
        let mut err_sink = MemSink::new(alloc, plan(false))?;
        let words: Vec<String> = line
            .split_whitespace()
            .map(|word| String::from_str(alloc, word))
            .try_collect(alloc)?;
        let outcome = ssadump(alloc, words.as_slice(), &mut files, &mut out, &mut err_sink);
        assert_eq!(rt; status(&outcome), *code, "{line:?}");
        assert_eq!(rt; err_sink.bytes(), err.as_bytes(), "{line:?}");
    }
    Ok(())
}

#[test]
fn tells_faults(rt: HostRuntime) -> Result<(), Fail> {
    for (fails, code, err) in FAULTS {
        let answer = run_with(&rt, "x.go", HELLO.as_bytes(), *fails)?;
        assert_eq!(rt; status(&answer.outcome), *code, "{err:?}");
        assert!(rt;
            b"hi 7\n".as_slice().starts_with(answer.out.bytes()),
            "{err:?}"
        );
        assert_eq!(rt; answer.err.bytes(), err.as_bytes());
    }
    Ok(())
}

// With each allocation failing in turn: want of memory is told, and what was written is a front of what is right.
#[test]
fn wants_memory(rt: HostRuntime) {
    if let Ok(answer) = run_with(&rt, "x.go", HELLO.as_bytes(), (false, false, false)) {
        let code = status(&answer.outcome);
        assert!(rt; code == 0 || code == 6);
        assert!(rt; b"hi 7\n".as_slice().starts_with(answer.out.bytes()));
        let line = b"ssadump: out of memory\n".as_slice();
        assert_eq!(rt;
            answer.err.bytes(),
            if code == 6 { line } else { b"".as_slice() }
        );
    }
}

#[test]
fn refuses_large_files(rt: HostRuntime) -> Result<(), Fail> {
    let mut bytes = Vec::from_slice(rt.alloc(), HELLO.as_bytes())?;
    bytes.resize(4194304, b' ')?;
    let answer = run_with(&rt, "x.go", bytes.as_slice(), (false, false, false))?;
    assert_eq!(rt; status(&answer.outcome), 0, "at the limit");
    bytes.push(b' ')?;
    let answer = run_with(&rt, "x.go", bytes.as_slice(), (false, false, false))?;
    assert_eq!(rt;
        answer.err.bytes(),
        b"x.go:1:1: file too large (M5)\n".as_slice()
    );
    Ok(())
}
