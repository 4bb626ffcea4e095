//! Trees in memory.

ghost use Rattle.std.specs.List.Sorted.{IsStrictlyIncreasing};

use go_base::{NoMemory, Place, Rule, Text};
use go_devices::MemFiles;
use go_load::{LoadError, Target, from_text, load};
use go_sources::Sources;
use std::alloc::Global;
use std::test::Fail;

/// A file: its path, and its text.
type File = (&'static str, &'static str);

const GO_MOD: File = ("go.mod", "module example.com/m\n");

/// A target, files, and the place and code of the rule that they break first; the last is empty where they break none.
const TREES: &[(&str, &[File], &str)] = &[
    // A file alone.
    ("a/x.go", &[("a/x.go", "package main\nimport \"os\"\n")], ""),
    (
        "x.go",
        &[("x.go", "package main\nvar s = \"\n")],
        "x.go:2:9 L6",
    ),
    ("x.go", &[("x.go", "// only\n")], "x.go:2:1 S1"),
    // A directory.
    ("a", &[("a/x_test.go", "("), ("a/x.c", "(")], "a:1:1 M4"),
    (
        "a",
        &[("a/b.go", "package b\n"), ("a/a.go", "package a\n")],
        "a/b.go:1:9 M7",
    ),
    // go.mod.
    (
        "a/b/x.go",
        &[("a/go.mod", "module m\n("), ("a/b/x.go", "package b\n")],
        "a/go.mod:2:1 M1",
    ),
    // Imports.
    (
        ".",
        &[
            GO_MOD,
            ("a.go", "package main\nimport \"example.com/m/b\"\n"),
            ("b/b.go", "package b\nimport \"runtime\"\n"),
        ],
        "",
    ),
    (
        ".",
        &[
            GO_MOD,
            ("a.go", "package main\nimport \"example.com/mb\"\n"),
            ("b/b.go", "package b\n"),
        ],
        "a.go:2:8 M3",
    ),
    // M8 is asked of every import before M9 is.
    (
        "a",
        &[
            GO_MOD,
            ("a/a.go", "package a\nimport \"example.com/m/b\"\n"),
            (
                "b/b.go",
                "package b\nimport \"example.com/m/a\"\nimport \"example.com/m/c\"\n",
            ),
            ("c/c.go", "package main\n"),
        ],
        "b/b.go:3:8 M8",
    ),
    // The first import on a cycle does not lead to one alone.
    (
        ".",
        &[
            GO_MOD,
            (
                "a.go",
                "package a\nimport \"example.com/m/b\"\nimport \"example.com/m/c\"\n",
            ),
            ("b/b.go", "package b\nimport \"example.com/m/d\"\n"),
            (
                "c/c.go",
                "package c\nimport \"example.com/m/b\"\nimport \"example.com/m/e\"\n",
            ),
            ("d/d.go", "package d\nimport \"example.com/m/d\"\n"),
            ("e/e.go", "package e\nimport \"example.com/m/c\"\n"),
        ],
        "c/c.go:3:8 M9",
    ),
];

/// Texts of go.mod beside a good file, and the place and code of the rule that they break first.
const GO_MODS: &[(&str, &str)] = &[
    ("\r\n\tmodule \"example.com/m\" // text\r\n\n", ""),
    (
        "go 1.21.5\nmodule m\nrequire x v1\nreplace (\n x => y\n module z\n) // end\ntoolchain\n",
        "",
    ),
    ("", "go.mod:1:1 M1"),
    ("module m\n\n  module m\n", "go.mod:3:1 M1"),
    ("go 1.22\nmodule main\n", "go.mod:1:4 M2"),
    ("module m\nrequire (\n", "go.mod:2:1 M1"),
    ("module m\n go\t1.99999999999999999999.1\n", "go.mod:2:5 M2"),
];

/// A tree, of which the calls with these numbers fail.
fn tree(alloc: Global, fail: &[u64], files: &[File]) -> Result<MemFiles, NoMemory>
    requires { IsStrictlyIncreasing fail.now }
{
    let mut tree = MemFiles::new(alloc, fail)?;
    for (path, text) in files {
        tree.add(path, text.as_bytes())?;
    }
    Ok(tree)
}

fn target(alloc: Global, path: &str) -> Result<Target, NoMemory> {
    let text = Text::new(alloc, path)?;
    if path.ends_with(".go") {
        Ok(Target::File(text))
    } else {
        Ok(Target::Dir(text))
    }
}

/// What is told of an answer.
fn told(alloc: Global, answer: &Result<Sources, LoadError>) -> Result<String, Fail> {
    match answer {
        Ok(_) => Ok(String::new(alloc)),
        Err(LoadError::Refused { place, rule }) => refusal(alloc, place, *rule),
        Err(_) => Err("not loaded".into()),
    }
}

fn refusal(alloc: Global, place: &Place, rule: Rule) -> Result<String, Fail> {
    let (path, code) = (place.path.as_str(), rule.code());
    Ok(format!(in alloc; "{path}:{}:{} {code}", place.line, place.column)?)
}

/// What is told of the target in a tree of these files.
fn told_of(alloc: Global, path: &str, files: &[File]) -> Result<String, Fail> {
    let mut files = tree(alloc, &[], files)?;
    let target = target(alloc, path)?;
    told(alloc, &load(alloc, &mut files, &target))
}

#[test]
fn names_the_first_broken_rule(rt: HostRuntime) -> Result<(), Fail> {
    for (path, files, wanted) in TREES {
        let told = told_of(rt.alloc(), path, files)?;
        assert_eq!(rt; told.as_str(), *wanted, "{path} {wanted}");
    }
    Ok(())
}

#[test]
fn reads_go_mod(rt: HostRuntime) -> Result<(), Fail> {
    for (text, wanted) in GO_MODS {
        let files = [("go.mod", *text), ("a.go", "package a\n")];
        let told = told_of(rt.alloc(), ".", &files)?;
        assert_eq!(rt; told.as_str(), *wanted, "{text}");
    }
    Ok(())
}

/// A program of two packages.
const PROGRAM: &[File] = &[
    ("go.mod", "module example.com/m\ngo 1.20\n"),
    ("b/b.go", "package b\nimport \"errors\"\n"),
    (
        "a/b.go",
        "package main\nimport \"example.com/m/b\"\nimport \"errors\"",
    ),
    ("a/a.go", "\npackage main\n"),
];

#[test]
fn tells_of_a_failed_read(rt: HostRuntime) -> Result<(), Fail> {
    let mut files = tree(rt.alloc(), &[3], PROGRAM)?;
    let target = target(rt.alloc(), "a")?;
    let answer = load(rt.alloc(), &mut files, &target);
    assert!(rt; matches!(answer, Err(LoadError::ReadFault)));
    Ok(())
}

/// What is loaded of a file: its path, its package, the packages that it imports, and the N of Go 1.N.
type Loaded = (&'static str, u32, &'static [u32], u32);

const LOADED: &[Loaded] = &[
    ("a/a.go", 0, &[], 20),
    ("a/b.go", 0, &[1, 2], 20),
    ("b/b.go", 1, &[2], 20),
    ("builtin:errors.go", 2, &[], 21),
    ("builtin:runtime.go", 3, &[], 21),
];

fn imports(sources: &Sources, file: u32, wanted: &[u32]) -> bool {
    let imports = sources.imports(file);
    for (import, package) in imports.iter().zip(wanted) {
        if import.package != *package {
            return false;
        }
    }
    imports.len() == wanted.len()
}

fn is_loaded(sources: &Sources, number: u32, wanted: &Loaded) -> bool {
    let (path, package, imported, version) = wanted;
    let Some(file) = sources.file(number) else {
        return false;
    };
    file.path.as_str() == *path
        && file.package == *package
        && imports(sources, number, imported)
        && sources.version(file.package) == *version
}

/// The sources of the program.
fn program(alloc: Global) -> Result<Sources, Fail> {
    let mut files = tree(alloc, &[], PROGRAM)?;
    let target = target(alloc, "a")?;
    Ok(load(alloc, &mut files, &target)?)
}

#[test]
fn loads_in_order(rt: HostRuntime) -> Result<(), Fail> {
    let sources = program(rt.alloc())?;
    for (number, wanted) in LOADED.iter().enumerate() {
        assert!(rt; is_loaded(&sources, number as u32, wanted), "{number}");
    }
    assert_eq!(rt; (sources.file_count(), sources.package_count()), (5, 4));
    Ok(())
}

#[test]
fn names_packages(rt: HostRuntime) -> Result<(), Fail> {
    let sources = program(rt.alloc())?;
    let package = sources.package(0).ok_or("no package")?;
    assert_eq!(rt; package.path.as_str(), "example.com/m/a");
    assert_eq!(rt; package.label.as_str(), "main");
    Ok(())
}

/// A text with each kind of tree in it, and a token in each of their fields.
const FORMS: &str = "\
    package p\n\
    \n\
    import (\n\
    b \"runtime\"\n\
    )\n\
    \n\
    const (\n\
    x, y = 1 + 2, 'a'\n\
    z\n\
    )\n\
    \n\
    type (\n\
    t = []int\n\
    s struct {\n\
    ;\n\
    a, b *int \"tag\"\n\
    *u\n\
    d.e\n\
    }\n\
    )\n\
    \n\
    type i interface {\n\
    m(int, ...string) (n int, err error)\n\
    j; d.k\n\
    }\n\
    \n\
    var v, w map[string]chan<- int = nil, (nil)\n\
    \n\
    func (r *s) f(a, b int, c ...func() <-chan t) (interface{}) {\n\
    a, b = b, -a\n\
    a += <-c[0]()\n\
    g(a, b,)\n\
    g(c...,)\n\
    q := [...]t{0: {1, 2}, {3,}}\n\
    l: for k, v := range q[1:] { break l }\n\
    for range a[:1:2] { continue }\n\
    for i := 0; i < 3; i++ { fallthrough }\n\
    for { }\n\
    if a := 1; !b { } else if c { } else { }\n\
    switch a := 2; a { case 1, 2: ; default: }\n\
    switch q := p.(type) { case int, t: }\n\
    select { case a <- 1: case b, ok = <-c: case d := <-e: default: }\n\
    defer g(); go g()\n\
    return x.y.(int), func() { g()[1]-- }\n\
    }\n\
    ";

/// Names and texts of single files, and what is told of them. No go.mod counts, not even one that is the file.
const TEXTS: &[(&str, &str, &str)] = &[
    ("a/b/x.go", "package b\nimport \"os\"\n", ""),
    ("x.go", "package main\nimport \"m\"\n", "x.go:2:8 M3"),
    ("go.mod", "module m\n", "go.mod:1:1 S1"),
    ("x.go", FORMS, ""),
];

#[test]
fn loads_a_text(rt: HostRuntime) -> Result<(), Fail> {
    for (name, text, wanted) in TEXTS {
        let answer = from_text(rt.alloc(), name, text.as_bytes());
        let told = told(rt.alloc(), &answer)?;
        assert_eq!(rt; told.as_str(), *wanted, "{name} {text}");
    }
    Ok(())
}
