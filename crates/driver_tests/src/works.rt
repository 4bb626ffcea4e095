// Printed code, call graphs and the generated program: what is on standard output.
use driver::{ssadump, status};
use go_base::NoMemory;
use go_devices::{MemFiles, MemSink};
use std::test::Fail;

// A file whose call through an interface has two classes to choose from, of which one is made.
const CALL: &str =
    "package main\n\ntype I interface{ M() }\ntype A struct{}\ntype B struct{}\n\nfunc (A) M() { println(\"A\") }\nfunc (B) M() { println(\"B\") }\n\nfunc main() {\n\tvar i I = A{}\n\ti.M()\n}\n";

// Command lines for the file, and what is on standard output.
const WORKS: &[(&str, &str)] = &[
    ("-build=N i.go", ""),
    (
        "-build=NC i.go",
        "# main.init: blocks 1, available 0\n# (main.A).M: blocks 1, available 0\n# (main.B).M: blocks 1, available 0\n# main.main: blocks 1, available 0\n# runtime.init: blocks 1, available 0\n# (runtime.errorString).Error: blocks 1, available 0\n# (runtime.errorString).RuntimeError: blocks 1, available 0\n# runtime.Gosched: blocks 0, available 0\n# promote (*main.A).M: blocks 1, available 0\n# promote (*main.B).M: blocks 1, available 0\n# promote (*runtime.errorString).Error: blocks 1, available 0\n# promote (*runtime.errorString).RuntimeError: blocks 1, available 0\n",
    ),
    (
        "-callgraph=cha i.go",
        "main.main\ti.go:12:5\t(main.A).M\nmain.main\ti.go:12:5\t(main.B).M\n",
    ),
    ("-callgraph=rta i.go", "main.main\ti.go:12:5\t(main.A).M\n"),
    (
        "-callgraph=vta -run i.go",
        "main.main\ti.go:12:5\t(main.A).M\nA\n",
    ),
    ("-gen=3", "gen 3\ncha 12\nrta 12\nvta 6\n352\n"),
];

// The front of the text of the file's code.
const TEXT: &str =
    "package main\ntype main.I interface{M()}\ntype main.A struct{}\nmethod main.A.M (main.A).M\nmethod *main.A.M promote (*main.A).M\n";

// Programs that put the address of a variable of a package into an interface, and what is on standard output.
const RUNS: &[(&str, &str)] = &[
    (
        "package main\n\ntype I interface{ M() }\ntype T int\n\nfunc (t *T) M() { *t = 5 }\n\nvar t T\n\nfunc main() {\n\tvar i I = &t\n\ti.M()\n\tprintln(t)\n}\n",
        "5\n",
    ),
    (
        "package main\n\ntype I interface{ M() }\ntype E struct{ n int }\n\nfunc (e *E) M() { e.n = 7 }\n\nvar v struct{ E }\n\nfunc main() {\n\tvar i interface{} = &v\n\ti.(I).M()\n\tprintln(v.n)\n}\n",
        "7\n",
    ),
];

// The status of a call on a file, and what is on standard output.
fn call(rt: &impl AllocGlobal, source: &str, line: &str) -> Result<(u8, MemSink), NoMemory> {
    let alloc = rt.alloc();
    let mut files = MemFiles::new(alloc, &[])?;
    files.add("i.go", source.as_bytes())?;
    let mut out = MemSink::new(alloc, &[])?;
    let mut err = MemSink::new(alloc, &[])?;
    let words: Vec<String> = line
        .split_whitespace()
        .map(|word| String::from_str(alloc, word))
        .try_collect(alloc)?;
    let outcome = ssadump(alloc, words.as_slice(), &mut files, &mut out, &mut err);
    Ok((status(&outcome), out))
}

#[test]
fn works(rt: HostRuntime) -> Result<(), Fail> {
    for (line, out) in WORKS {
        let (code, written) = call(&rt, CALL, line)?;
        assert_eq!(rt; written.bytes(), out.as_bytes(), "{line:?}");
        assert_eq!(rt; code, 0, "{line:?}");
    }
    Ok(())
}

#[test]
fn prints_code(rt: HostRuntime) -> Result<(), Fail> {
    let (code, written) = call(&rt, CALL, "-build=NF i.go")?;
    assert!(rt; written.bytes().starts_with(TEXT.as_bytes()));
    assert_eq!(rt; code, 0);
    Ok(())
}

#[test]
fn runs(rt: HostRuntime) -> Result<(), Fail> {
    for (source, out) in RUNS {
        let (code, written) = call(&rt, source, "-run i.go")?;
        assert_eq!(rt; written.bytes(), out.as_bytes(), "{source:?}");
        assert_eq!(rt; code, 0, "{source:?}");
    }
    Ok(())
}
