//! Command lines, each with its command or the word that is named.

use command_line::{Command, CommandError, Graph, Letters, LoadCommand, read_words};
use go_base::Target;
use std::alloc::{AllocError, Global};
use std::test::Fail;

/// What is asked: the target, the letters and the graph, whether to run, the bound and the choices.
type Asked = (
    &'static str,
    Option<Letters>,
    Option<Graph>,
    bool,
    u64,
    &'static [u32],
);

const LETTERS: Letters = Letters {
    counts: true,
    functions: true,
    naive: false,
};

/// Words, and what they ask.
const COMMANDS: &[(&[&str], Asked)] = &[
    (&["a.go"], ("a.go", None, None, false, 10_000_000, &[])),
    (
        &["-build=CCF", "--callgraph", "vta", "./"],
        (".", Some(LETTERS), Some(Graph::Vta), false, 10_000_000, &[]),
    ),
    (
        &["-run", "-bound=7", "-choices", "4294967295,0,007", "b/"],
        ("b", None, None, true, 7, &[4_294_967_295, 0, 7]),
    ),
];

/// Words, and the one that is named.
const NAMED: &[(&[&str], &str)] = &[
    (&["-x", "a"], "-x"),
    (&["-choices", "1,,2", "a"], "1,,2"),
    (&["a", "b"], "b"),
];

/// The words as a command line has them.
fn words_of(alloc: Global, words: &[&str]) -> Result<Vec<String>, AllocError> {
    let mut all = Vec::new(alloc);
    for word in words {
        all.push(String::from_str(alloc, word)?)?;
    }
    Ok(all)
}

fn path(target: &Target) -> &str {
    match target {
        Target::File(path) | Target::Dir(path) => path.as_str(),
    }
}

fn is_asked(load: &LoadCommand, asked: &Asked) -> bool {
    path(&load.target) == asked.0
        && (load.build, load.callgraph) == (asked.1, asked.2)
        && (load.run, load.bound) == (asked.3, asked.4)
        && load.choices.as_slice() == asked.5
}

/// Whether the words are a command that asks this.
fn asks(alloc: Global, words: &[&str], asked: &Asked) -> Result<bool, Fail> {
    let given = words_of(alloc, words)?;
    match read_words(alloc, given.as_slice()) {
        Ok(Command::Load(load)) => Ok(is_asked(&load, asked)),
        _ => Ok(false),
    }
}

#[test]
fn gives_commands(rt: HostRuntime) -> Result<(), Fail> {
    for (words, asked) in COMMANDS {
        assert!(rt; asks(rt.alloc(), words, asked)?, "{words:?}");
    }
    Ok(())
}

#[test]
fn generates_a_program(rt: HostRuntime) -> Result<(), Fail> {
    let given = words_of(rt.alloc(), &["-gen", "0100"])?;
    let found = read_words(rt.alloc(), given.as_slice());
    assert!(rt; matches!(found, Ok(Command::Generate(100))));
    Ok(())
}

/// Whether this word is named.
fn names(alloc: Global, words: &[&str], named: &str) -> Result<bool, Fail> {
    let given = words_of(alloc, words)?;
    match read_words(alloc, given.as_slice()) {
        Err(CommandError::BadWord(word)) => Ok(word == named),
        _ => Ok(false),
    }
}

#[test]
fn names_words(rt: HostRuntime) -> Result<(), Fail> {
    for (words, named) in NAMED {
        assert!(rt; names(rt.alloc(), words, named)?, "{words:?}");
    }
    Ok(())
}
