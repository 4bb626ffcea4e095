//! Reading of the tree of one file.

ghost use Rattle.std.specs.Prelude.{◌≡◌, ◌≤◌, length, Option, IfErr, IsErrOf, slice_get};
ghost use Rattle.go_base.specs.Devices.{Tree};
ghost use Rattle.go_base.specs.declared.line.TheConstants.{MAX_FILE_BYTES};
ghost use Rattle.go_ast.specs.Lexical.{IsTokenList};
ghost use Rattle.go_sources.specs.Sources.{IsText};
ghost use Rattle.go_finding.specs.Places.{start_in};
ghost use Rattle.go_finding.specs.Reading.{ReadsTree};
ghost use Rattle.go_finding.specs.Refusals.{Stops};

use go_ast::Tokens;
use go_base::Rule;
use go_finding::{LoadError, refuse_at};
use go_parse::{ParseError, parse};
use go_scan::{ScanError, scan};
use go_syntax::FileTree;
use std::alloc::Global;

/// The tree of a file that has the number `number`.
pub fn read_tree(
    alloc: Global,
    path: &str,
    number: u32,
    bytes: &[u8],
) -> Result<FileTree, LoadError>
    requires { length bytes.now ≤ MAX_FILE_BYTES }
    ensures no_fault { IsErrOf result LoadError.ReadFault → ⊥ }
    ensures why { IfErr result (λ error. (files : Option Tree) → IsText files path.now bytes.now → Stops files error) }
    ensures answer { ReadsTree path.now bytes.now result }
{
    match scan(alloc, number, bytes) {
        Ok(tokens) => tree_of(alloc, path, bytes, &tokens),
        Err(ScanError::OutOfMemory) => Err(LoadError::OutOfMemory),
        Err(ScanError::Refused { offset, rule }) => {
            Err(refuse_at(alloc, path, bytes, offset as usize, rule))
        }
    }
}

/// The tree of the tokens of a file.
fn tree_of(alloc: Global, path: &str, bytes: &[u8], tokens: &Tokens) -> Result<FileTree, LoadError>
    requires small { length bytes.now ≤ MAX_FILE_BYTES }
    requires list { IsTokenList bytes.now tokens.now }
    ensures no_fault { IsErrOf result LoadError.ReadFault → ⊥ }
    ensures why { IfErr result (λ error. (files : Option Tree) → IsText files path.now bytes.now → Stops files error) }
    ensures answer { ReadsTree path.now bytes.now result }
{
    match parse(alloc, tokens) {
        Ok(tree) => Ok(tree),
        Err(ParseError::OutOfMemory) => Err(LoadError::OutOfMemory),
        Err(ParseError::TooDeep { index }) => {
            let offset = token_start(bytes, tokens, index);
            Err(refuse_at(alloc, path, bytes, offset, Rule::NestedTooDeeply))
        }
        Err(ParseError::Unexpected { index }) => {
            let offset = token_start(bytes, tokens, index);
            Err(refuse_at(alloc, path, bytes, offset, Rule::SyntaxError))
        }
    }
}

/// Where the token at an index begins; the end of the file where there is none.
fn token_start(bytes: &[u8], tokens: &Tokens, index: usize) -> usize
    ensures within { result ≤ length bytes.now }
    ensures start { result ≡ start_in bytes.now (slice_get tokens.now index) }
{
    match tokens.get(index) {
        Some(token) => (token.start as usize).min(bytes.len()),
        None => bytes.len(),
    }
}
