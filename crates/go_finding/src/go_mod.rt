//! What a go.mod says.

ghost use Rattle.std.specs.Prelude.{◌≡◌, ◌+◌, ◌<◌, ◌≤◌, ◌^◌, length, option_map, IfOk, IfErr, Ok, Err};
ghost use Rattle.go_finding.specs.Lines.{view_line};
ghost use Rattle.go_finding.specs.Words.{without_comment};
ghost use Rattle.go_finding.specs.GoMod as says;

use crate::versions::minor_version;
use crate::words::{
    after_word, ends_in_opening, first_word, line_length, space_length, without_comment,
};
use go_base::Rule;
use go_sources::NEWEST_MINOR;
use std::marker::Model;

/// What a go.mod says.
#[derive(Clone, Copy, PartialEq, Eq)]
pub struct GoMod<'a> {
    /// The path of the module.
    pub path: &'a str,
    /// The N of Go 1.N.
    pub minor: u32,
}

/// A place in go.mod, in bytes from its start, and the rule that is broken there.
#[derive(Clone, Copy, PartialEq, Eq)]
pub struct Fault {
    pub offset: usize,
    pub rule: Rule,
}

/// What a line says, apart from its comment.
#[derive(Drop)]
enum Line<'a> {
    Blank,
    /// `module` with a word.
    Module(&'a [u8]),
    /// `go` with this Go 1.N, which stands at this byte.
    Go { at: usize, minor: u32 },
    /// Lines follow that are passed over, up to one of `)`.
    Opening,
    Malformed,
}

/// How far a go.mod has been read.
#[derive(Drop)]
struct Reader<'a> {
    /// The path of the module line; empty where that path is malformed.
    path: Option<&'a str>,
    minor: Option<u32>,
    /// The line that began the block in which the next line stands.
    block: Option<usize>,
    /// The first fault.
    fault: Option<Fault>,
}

impl<'a> Model for Reader<'a> {
    ghost use Rattle.std.specs.Prelude.{option_map};
    ghost use Rattle.go_finding.specs.GoMod.{Said};

    ghost Value = { Said };

    ghost view = { λ r. record { path = option_map (λ path. path.now) r.path; minor = r.minor; block = r.block; fault = r.fault } };
}

/// Reads a go.mod, or gives the first place where it breaks a rule.
pub fn read_go_mod(text: &[u8]) -> Result<GoMod<'_>, Fault>
    ensures says { IfOk result (λ said. says.go_mod text.now ≡ Ok (record { path = said.path.now; minor = said.minor })) }
    ensures fault { IfErr result (λ fault. says.go_mod text.now ≡ Err fault) }
{
    let mut reader = Reader::new();
    let mut at = 0;
    'lines: loop {
        let (_, rest) = text.split_at(at);
        let (line, _) = rest.split_at(line_length(rest));
        reader.take(at, line);
        if line.len() == rest.len() {
            return reader.finish();
        }
        at += line.len() + 1;
    }
}

impl<'a> Reader<'a> {
    fn new() -> Reader<'a>
        ensures { result ≡ says.nothing_said }
    {
        Reader {
            path: None,
            minor: None,
            block: None,
            fault: None,
        }
    }

    /// Takes the line that begins at a byte.
    fn take(&mut self, at: usize, line: &'a [u8])
        requires { at + length line.now < 2 ^ 64 }
        ensures { self.new ≡ says.take_text at (without_comment line.now) self.old }
    {
        let text = without_comment(line);
        if self.block.is_some() {
            if is_closing(text) {
                self.block = None;
            }
        } else {
            self.take_line(at, line_of(at, text));
        }
    }

    /// Takes what a line outside blocks says.
    fn take_line(&mut self, at: usize, line: Line<'a>)
        ensures { self.new ≡ says.take_line at (view_line line.entry) self.old }
    {
        match line {
            Line::Blank => {}
            Line::Module(word) => self.take_module(at, word),
            Line::Go { at: word, minor } => self.take_version(at, word, minor),
            Line::Opening => self.block = Some(at),
            Line::Malformed => self.refuse(at, Rule::MalformedGoMod),
        }
    }

    fn take_module(&mut self, at: usize, word: &'a [u8])
        ensures { self.new ≡ says.take_line at (says.Module word.now) self.old }
    {
        if self.path.is_some() {
            self.refuse(at, Rule::MalformedGoMod);
        } else if let Some(path) = module_path(word) {
            self.path = Some(path);
        } else {
            self.path = Some("");
            self.refuse(at, Rule::MalformedGoMod);
        }
    }

    fn take_version(&mut self, at: usize, word: usize, minor: u32)
        ensures { self.new ≡ says.take_version at word minor self.old }
    {
        if self.minor.is_some() {
            self.refuse(at, Rule::MalformedGoMod);
        } else {
            self.minor = Some(minor);
            if minor > NEWEST_MINOR {
                self.refuse(word, Rule::GoVersionNotSupported);
            }
        }
    }

    /// Notes a fault, unless there was one before.
    fn refuse(&mut self, offset: usize, rule: Rule)
        ensures { self.new ≡ says.refuse offset rule self.old }
    {
        if self.fault.is_none() {
            self.fault = Some(Fault { offset, rule });
        }
    }

    fn finish(self) -> Result<GoMod<'a>, Fault>
        ensures says { IfOk result (λ said. says.said_in_all self.entry.path self.entry ≡ Ok (record { path = said.path.now; minor = said.minor })) }
        ensures fault { IfErr result (λ fault. says.said_in_all self.entry.path self.entry ≡ Err fault) }
    {
        let Some(path) = self.path else {
            return Err(Fault {
                offset: 0,
                rule: Rule::MalformedGoMod,
            });
        };
        if let Some(fault) = self.fault {
            return Err(fault);
        }
        if let Some(offset) = self.block {
            return Err(Fault {
                offset,
                rule: Rule::MalformedGoMod,
            });
        }
        Ok(GoMod {
            path,
            minor: self.minor.unwrap_or(NEWEST_MINOR),
        })
    }
}

/// What a line that begins at a byte says, without its comment.
fn line_of(at: usize, text: &[u8]) -> Line<'_>
    requires { at + length text.now < 2 ^ 64 }
    ensures { view_line result ≡ says.line_of at text.now }
{
    let verb = first_word(text);
    let rest = after_word(text);
    if verb.is_empty() {
        Line::Blank
    } else if verb == b"module".as_slice() {
        module_line(rest)
    } else if verb == b"go".as_slice() {
        go_line(at + (text.len() - rest.len()), rest)
    } else if !is_passed_over(verb) {
        Line::Malformed
    } else if ends_in_opening(rest) {
        Line::Opening
    } else {
        Line::Blank
    }
}

/// What a module line says, from behind its verb.
fn module_line(rest: &[u8]) -> Line<'_>
    ensures { view_line result ≡ says.module_line (says.lone_word rest.now) }
{
    match lone_word(rest) {
        Some(word) => Line::Module(word),
        None => Line::Malformed,
    }
}

/// What a go line says, from behind its verb, which ends at a byte.
fn go_line(at: usize, rest: &[u8]) -> Line<'_>
    requires { at + length rest.now < 2 ^ 64 }
    ensures { view_line result ≡ says.go_line at rest.now (says.lone_word rest.now) }
{
    let Some(word) = lone_word(rest) else {
        return Line::Malformed;
    };
    let Some(minor) = minor_version(word) else {
        return Line::Malformed;
    };
    Line::Go {
        at: at + space_length(rest),
        minor,
    }
}

/// The word of a text that has one word.
fn lone_word(text: &[u8]) -> Option<&[u8]>
    ensures { option_map (λ word. word.now) result ≡ says.lone_word text.now }
{
    let word = first_word(text);
    if word.is_empty() || !first_word(after_word(text)).is_empty() {
        None
    } else {
        Some(word)
    }
}

/// Whether a line ends a block.
fn is_closing(text: &[u8]) -> bool
    ensures { result ≡ says.is_closing (says.lone_word text.now) }
{
    match lone_word(text) {
        Some(word) => word == b")".as_slice(),
        None => false,
    }
}

/// Whether lines of a verb are passed over.
fn is_passed_over(verb: &[u8]) -> bool
    ensures { result ≡ says.is_passed_over verb.now }
{
    verb == b"require".as_slice()
        || verb == b"replace".as_slice()
        || verb == b"exclude".as_slice()
        || verb == b"retract".as_slice()
        || verb == b"toolchain".as_slice()
}

/// The path of a module, where the word of a module line is one.
fn module_path(word: &[u8]) -> Option<&str>
    ensures { option_map (λ path. path.now) result ≡ says.module_path word.now }
{
    let path = utf8_text(unquoted(word)?)?;
    if is_taken(path.as_bytes()) {
        None
    } else {
        Some(path)
    }
}

/// The text of bytes that are UTF-8.
#[tactic(auto, using(crate::proofs::Texts::text_tests))]
fn utf8_text(bytes: &[u8]) -> Option<&str>
    ensures { option_map (λ text. text.now) result ≡ says.utf8_text bytes.now }
{
    match str::from_utf8(bytes) {
        Ok(text) => Some(text),
        Err(_) => None,
    }
}

/// Whether a path can be none of a module.
fn is_taken(path: &[u8]) -> bool
    ensures { result ≡ says.is_taken path.now }
{
    is_reserved(path) || path.starts_with(b"(") || path.starts_with(b"*")
}

/// Whether a path is empty, or that of another package.
fn is_reserved(path: &[u8]) -> bool
    ensures { result ≡ says.is_reserved path.now }
{
    path.is_empty()
        || path == b"main".as_slice()
        || path == b"command-line-arguments".as_slice()
        || path == b"os".as_slice()
        || path == b"errors".as_slice()
        || path == b"runtime".as_slice()
        || path == b"sync".as_slice()
}

/// A word without its double quotes, where it has them at both ends or begins with none.
fn unquoted(word: &[u8]) -> Option<&[u8]>
    ensures { option_map (λ path. path.now) result ≡ says.unquoted word.now }
{
    if !word.starts_with(b"\"") {
        Some(word)
    } else if word.len() >= 2 && word.ends_with(b"\"") {
        Some(&word[1..word.len() - 1])
    } else {
        None
    }
}
