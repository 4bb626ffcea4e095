//! The imports of a file.

ghost use Rattle.std.specs.Prelude.{◌≡◌, ◌++◌, map, option_map, string_bytes, ℕ, List, IfOk, OnOk};
ghost use Rattle.go_sources.specs.Packages.{text_in};
ghost use Rattle.go_finding.specs.Imports.{imports_of, written_path};

use go_ast::{Kind, Token};
use go_base::NoMemory;
use go_scan::{is_literal, string_value};
use go_sources::SourceFile;
use go_syntax::{FileTree, ImportSpec};
use std::alloc::Global;

/// The path literals of the imports of a file, in order.
pub fn import_literals(alloc: Global, tree: &FileTree) -> Result<Vec<Token>, NoMemory>
    ensures { IfOk result (λ literals. (bytes : List ℕ) → literals.items ≡ map (λ import. import.literal) (imports_of bytes tree.now)) }
{
    let mut literals = Vec::new(alloc);
    'imports: for import in &tree.imports {
        push_literals(&mut literals, import.specs.as_slice())?;
    }
    Ok(literals)
}

/// Adds the path literals of the specifications of one declaration.
fn push_literals(literals: &mut Vec<Token>, specs: &[ImportSpec]) -> Result<(), NoMemory>
    ensures { OnOk result (literals.new.items ≡ literals.old.items ++ map (λ spec. spec.path) specs.now) }
{
    'specs: for spec in specs {
        literals.push(spec.path)?;
    }
    Ok(())
}

/// The path that a literal writes. None where it is no text.
pub fn import_path(
    alloc: Global,
    file: &SourceFile,
    literal: Token,
) -> Result<Option<String>, NoMemory>
    ensures { IfOk result (λ path. option_map string_bytes path ≡ written_path (text_in file.now.bytes literal)) }
{
    let text = file.text(literal);
    if !is_literal(Kind::Text, text) {
        return Ok(None);
    }
    let value = string_value(alloc, text)?;
    match str::from_utf8(value.as_slice()) {
        Ok(path) => Ok(Some(String::from_str(alloc, path)?)),
        Err(_) => Ok(None),
    }
}
