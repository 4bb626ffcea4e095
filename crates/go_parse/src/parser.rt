//! Files, part after part: the package clause, imports and declarations. Go specification, "Source file organization".

ghost use Rattle.std.specs.Prelude.{◌≡◌, ◌-◌, length, true, IfOk, Ok, Err, if◌then◌else◌};
ghost use Rattle.go_grammar.specs.FileReading.{parsers};
ghost use Rattle.go_grammar.specs.PartReading.{file_by_parts};
ghost use Rattle.go_grammar.specs.View.{view_file, view_import, view_import_spec, view_line, one, token_if, each, ◌⊕◌};
ghost use Rattle.go_fragments.specs.Giving.{Gives, Reads};
ghost use Rattle.go_syntax.specs.Reach.{reach_index};
ghost use Rattle.tree_roles.specs.Roles.{roles_of_file};
ghost use Rattle.go_parse.specs.FileParts.{GivesParts, view_clause, clause_in, path_in, import_line_in, import_lines_in, import_alone_in, import_in, imports_in, decl_line_in, decls_in};
ghost use Rattle.go_parse.specs.Refusal.{IsRefusalAt};
ghost use Rattle.parse_answer.specs.Refusal.{DecidesReach, IsParsed, IsWithin};

use crate::reach::too_deep;
use go_ast::{Kind, Token, Tokens};
use go_fragments::stop::Stop;
use go_fragments::tokens::{begins_with, line_end, next_if, optional, semicolon, skip};
use go_readers::{decl, func_decl};
use go_syntax::{Decl, DeclLine, FileTree, ImportDecl, ImportSpec};
use parse_answer::ParseError;
use std::alloc::Global;
use tree_roles::has_roles;

/// The word, the name and the semicolon of a package clause.
#[derive(Clone, Copy, PartialEq, Eq)]
struct PackageClause {
    word: Token,
    name: Token,
    semicolon: Token,
}

/// Go specification, "Package clause".
fn package_clause(tokens: &[Token]) -> Option<(PackageClause, &[Token])>
    ensures { Reads (λ x. (view_clause x.0, x.1.now)) result (clause_in tokens.now) }
{
    let (word, rest) = skip(tokens, Kind::PackageWord)?;
    let (name, rest) = skip(rest, Kind::Name)?;
    let (semicolon, rest) = semicolon(rest)?;
    let clause = PackageClause {
        word,
        name,
        semicolon,
    };
    Some((clause, rest))
}

/// The path of an import, with a name where it has one.
fn import_path(tokens: &[Token]) -> Option<(Option<Token>, Token, &[Token])>
    ensures { Reads (λ x. (token_if x.0 ⊕ one x.1, x.2.now)) result (path_in tokens.now) }
{
    let (name, rest) = optional(tokens, Kind::Name);
    let (path, rest) = skip(rest, Kind::Text)?;
    Some((name, path, rest))
}

/// An import in parentheses, and the semicolon behind it.
fn import_line(tokens: &[Token]) -> Option<(ImportSpec, &[Token])>
    ensures { Reads (λ x. (view_import_spec x.0, x.1.now)) result (import_line_in tokens.now) }
{
    let (name, path, rest) = import_path(tokens)?;
    let (semicolon, rest) = line_end(rest, Kind::CloseParen)?;
    let spec = ImportSpec {
        name,
        path,
        semicolon,
    };
    Some((spec, rest))
}

/// Imports up to a closing parenthesis.
fn import_lines(alloc: Global, tokens: &[Token]) -> Result<(Vec<ImportSpec>, &[Token]), Stop>
    ensures { Gives (λ x. (each view_import_spec x.0.items, x.1.now)) result (import_lines_in tokens.now) }
{
    let mut specs = Vec::new(alloc);
    let mut rest = tokens;
    for _ in 0..tokens.len() {
        if begins_with(rest, Kind::CloseParen) {
            return Ok((specs, rest));
        }
        let Some((spec, after)) = import_line(rest) else {
            return Err(Stop::Unexpected);
        };
        specs.push(spec)?;
        rest = after;
    }
    Ok((specs, rest))
}

/// An import without parentheses.
fn import_alone(alloc: Global, tokens: &[Token]) -> Result<(Vec<ImportSpec>, &[Token]), Stop>
    ensures { Gives (λ x. (each view_import_spec x.0.items, x.1.now)) result (import_alone_in tokens.now) }
{
    let Some((name, path, rest)) = import_path(tokens) else {
        return Err(Stop::Unexpected);
    };
    let mut specs = Vec::new(alloc);
    specs.push(ImportSpec {
        name,
        path,
        semicolon: None,
    })?;
    Ok((specs, rest))
}

/// Go specification, "Import declarations".
fn import_decl(alloc: Global, tokens: &[Token]) -> Result<(ImportDecl, &[Token]), Stop>
    ensures { Gives (λ x. (view_import x.0, x.1.now)) result (import_in tokens.now) }
{
    let Some((word, rest)) = skip(tokens, Kind::ImportWord) else {
        return Err(Stop::Unexpected);
    };
    if let Some((open, rest)) = next_if(rest, Kind::OpenParen) {
        let (specs, rest) = import_lines(alloc, rest)?;
        let Some((close, rest)) = skip(rest, Kind::CloseParen) else {
            return Err(Stop::Unexpected);
        };
        let Some((semicolon, rest)) = semicolon(rest) else {
            return Err(Stop::Unexpected);
        };
        let import = ImportDecl {
            word,
            open: Some(open),
            specs,
            close: Some(close),
            semicolon,
        };
        return Ok((import, rest));
    }
    let (specs, rest) = import_alone(alloc, rest)?;
    let Some((semicolon, rest)) = semicolon(rest) else {
        return Err(Stop::Unexpected);
    };
    let import = ImportDecl {
        word,
        open: None,
        specs,
        close: None,
        semicolon,
    };
    Ok((import, rest))
}

/// A declaration at package level, and the semicolon behind it.
fn decl_line(alloc: Global, depth: usize, tokens: &[Token]) -> Result<(DeclLine, &[Token]), Stop>
    ensures { Gives (λ x. (view_line x.0, x.1.now)) result (decl_line_in (parsers depth) tokens.now) }
{
    if begins_with(tokens, Kind::FuncWord) {
        let (func, rest) = func_decl(alloc, depth, tokens)?;
        let Some((semicolon, rest)) = semicolon(rest) else {
            return Err(Stop::Unexpected);
        };
        let decl = Decl::Func(Box::new(alloc, func)?);
        return Ok((DeclLine { decl, semicolon }, rest));
    }
    let (decl, rest) = decl(alloc, depth, tokens)?;
    let Some((semicolon, rest)) = semicolon(rest) else {
        return Err(Stop::Unexpected);
    };
    Ok((DeclLine { decl, semicolon }, rest))
}

/// What is answered where the part that begins at this token cannot be read.
fn refusal(stop: Stop, index: usize) -> ParseError
    ensures { IsRefusalAt index stop result }
{
    match stop {
        Stop::Memory => ParseError::OutOfMemory,
        Stop::Unexpected => ParseError::Unexpected { index },
    }
}

/// The index of the first of the last tokens.
fn index_of(tokens: &[Token], rest: &[Token]) -> usize
    ensures { result ≡ length tokens.now - length rest.now }
{
    tokens.len().saturating_sub(rest.len())
}

/// The imports at the front of the last tokens.
fn imports<'a>(
    alloc: Global,
    tokens: &'a [Token],
    rest: &'a [Token],
) -> Result<(Vec<ImportDecl>, &'a [Token]), ParseError>
    ensures { GivesParts (length tokens.now) (λ x. (each view_import x.0.items, x.1.now)) result (imports_in (length tokens.now) rest.now) }
{
    let mut imports = Vec::new(alloc);
    let mut rest = rest;
    for _ in 0..tokens.len() {
        if !begins_with(rest, Kind::ImportWord) {
            return Ok((imports, rest));
        }
        match import_decl(alloc, rest) {
            Ok((import, after)) => {
                imports.push(import)?;
                rest = after;
            }
            Err(stop) => return Err(refusal(stop, index_of(tokens, rest))),
        }
    }
    Ok((imports, rest))
}

/// The declarations that the last tokens are.
fn decls(alloc: Global, tokens: &[Token], rest: &[Token]) -> Result<Vec<DeclLine>, ParseError>
    ensures { GivesParts (length tokens.now) (λ x. each view_line x.items) result (decls_in (parsers (length tokens.now)) (length tokens.now) rest.now) }
{
    let mut decls = Vec::new(alloc);
    let mut rest = rest;
    for _ in 0..tokens.len() {
        if rest.is_empty() {
            return Ok(decls);
        }
        match decl_line(alloc, tokens.len(), rest) {
            Ok((decl, after)) => {
                decls.push(decl)?;
                rest = after;
            }
            Err(stop) => return Err(refusal(stop, index_of(tokens, rest))),
        }
    }
    Ok(decls)
}

/// The tree of a file's tokens.
fn file(alloc: Global, tokens: &[Token]) -> Result<FileTree, ParseError>
    ensures { GivesParts (length tokens.now) (λ x. view_file x) result (file_by_parts (parsers (length tokens.now)) tokens.now) }
{
    match package_clause(tokens) {
        Some((clause, rest)) => {
            let (imports, rest) = imports(alloc, tokens, rest)?;
            let decls = decls(alloc, tokens, rest)?;
            Ok(FileTree {
                word: clause.word,
                name: clause.name,
                semicolon: clause.semicolon,
                imports,
                decls,
            })
        }
        None => Err(ParseError::Unexpected { index: 0 }),
    }
}

/// The tree of a file's tokens, each of which is of the kind of the field in which it stands.
fn file_with_roles(alloc: Global, tokens: &[Token]) -> Result<FileTree, ParseError>
    ensures read { GivesParts (length tokens.now) (λ x. view_file x) result (file_by_parts (parsers (length tokens.now)) tokens.now) }
    ensures roles { IfOk result (λ tree. roles_of_file tree ≡ true) }
{
    let tree = file(alloc, tokens)?;
    with_roles(tree)
}

/// A tree of which each token is of the kind of the field in which it stands.
fn with_roles(tree: FileTree) -> Result<FileTree, ParseError>
    ensures { result ≡ (if roles_of_file tree then Ok tree else Err ParseError.OutOfMemory) }
{
    if has_roles(&tree) {
        Ok(tree)
    } else {
        Err(lost())
    }
}

/// What is answered in a case that cannot come, which is not proved yet.
fn lost() -> ParseError
    ensures { result ≡ ParseError.OutOfMemory }
{
    ParseError::OutOfMemory
}

/// The tree of a file's tokens. Go specification, "Source file organization".
pub fn parse(alloc: Global, tokens: &Tokens) -> Result<FileTree, ParseError>
    // `TooDeep` exactly where a token reaches too far, with the index of the first.
    ensures too_deep { DecidesReach result (reach_index tokens.now) }
    // Else the well-formed tree of the tokens, each of the kind of its field, or the index of the first part that cannot
    // be read.
    ensures parsed { IsParsed tokens.now result }
    // The index of `Unexpected` is that of a token, or 0 where there are none.
    ensures within { IsWithin (length tokens.now) result }
{
    match too_deep(alloc, tokens.as_slice())? {
        Some(index) => Err(ParseError::TooDeep { index }),
        None => file_with_roles(alloc, tokens.as_slice()),
    }
}
