//! The types that are declared in bodies, numbered by place. Go specification, "Type declarations".

use crate::error::lost;
use decl_nodes::Listed;
use go_ast::{Kind, Token};
use go_base::{MAX_FILE_BYTES, NoMemory, Pos};
use go_declared::LocalTypes;
use go_scan::scan;
use go_syntax::{Decl, DeclLine};
use std::alloc::Global;

/// The numbers of the types that are declared in bodies, and in the initialisers of variables.
pub fn number_local_types(alloc: Global, files: &[Listed<'_>]) -> Result<LocalTypes, NoMemory> {
    let mut numbering = Numbering {
        types: LocalTypes::new(alloc),
        package: 0,
        number: 0,
    };
    for listed in files {
        if listed.package != numbering.package {
            numbering.package = listed.package;
            numbering.number = 0;
        }
        for line in &listed.source.tree.decls {
            numbering.add_decl(alloc, *listed, line)?;
        }
    }
    Ok(numbering.types)
}

/// The numbers that were given.
#[derive(Drop)]
struct Numbering {
    types: LocalTypes,
    package: u32,
    number: u32,
}

/// The brackets that are open, and whether the name of a type may come next.
#[derive(Drop)]
struct Place {
    /// For each open bracket whether it holds specifications of types.
    groups: Vec<bool>,
    /// Whether the next bracket does.
    opens: bool,
    wanted: bool,
}

impl Numbering {
    /// The types in a function or in the initialisers of variables.
    fn add_decl(
        &mut self,
        alloc: Global,
        listed: Listed<'_>,
        line: &DeclLine,
    ) -> Result<(), NoMemory> {
        let (start, end) = match &line.decl {
            Decl::Func(func) => match &func.body {
                Some(body) => (body.open.start, body.close.end),
                None => return Ok(()),
            },
            Decl::Var { word, .. } => (word.start, line.semicolon.start),
            Decl::Const { .. } | Decl::TypeDecl { .. } => return Ok(()),
        };
        let text = listed.source.text(Token {
            kind: Kind::Name,
            start,
            end,
        });
        if !has_word(text) {
            return Ok(());
        }
        if text.len() > MAX_FILE_BYTES {
            return Err(lost());
        }
        let Ok(tokens) = scan(alloc, listed.file, text) else {
            return Err(lost());
        };
        self.add_tokens(alloc, listed.file, start, tokens.as_slice())
    }

    fn add_tokens(
        &mut self,
        alloc: Global,
        file: u32,
        start: u32,
        tokens: &[Token],
    ) -> Result<(), NoMemory> {
        let mut place = Place {
            groups: Vec::new(alloc),
            opens: false,
            wanted: false,
        };
        for (index, token) in tokens.iter().enumerate() {
            let next = match tokens.get(index.saturating_add(1)) {
                Some(next) => next.kind,
                None => Kind::Inserted,
            };
            if place.wanted && token.kind == Kind::Name && next != Kind::Assign {
                self.add(Pos {
                    file,
                    offset: start.saturating_add(token.start),
                })?;
            }
            place.pass(token.kind, next)?;
        }
        Ok(())
    }

    fn add(&mut self, at: Pos) -> Result<(), NoMemory> {
        self.number = self.number.saturating_add(1);
        self.types.put(at, self.number)
    }
}

impl Place {
    /// Goes past a token, which another follows.
    fn pass(&mut self, kind: Kind, next: Kind) -> Result<(), NoMemory> {
        self.wanted = false;
        match kind {
            Kind::TypeWord => {
                self.opens = next == Kind::OpenParen;
                self.wanted = !self.opens;
            }
            Kind::OpenParen | Kind::OpenBracket | Kind::OpenBrace => {
                self.groups.push(self.opens)?;
                self.wanted = self.opens;
                self.opens = false;
            }
            Kind::CloseParen | Kind::CloseBracket | Kind::CloseBrace => {
                let _ = self.groups.pop();
            }
            Kind::Semicolon | Kind::Inserted => {
                self.wanted = self.groups.as_slice().last().copied().unwrap_or(false);
            }
            _ => {}
        }
        Ok(())
    }
}

/// Whether the word `type` may be in a text.
fn has_word(text: &[u8]) -> bool {
    let mut found = 0;
    for byte in text {
        found = match (found, byte) {
            (0, b't') => 1,
            (1, b'y') => 2,
            (2, b'p') => 3,
            (3, b'e') => return true,
            (_, b't') => 1,
            _ => 0,
        };
    }
    false
}
