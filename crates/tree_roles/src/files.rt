//! Files. Go specification, "Source file organization".

ghost use Rattle.std.specs.Prelude.{◌≡◌, map};
ghost use Rattle.tree_roles.specs.Roles.{roles_of_file, roles_of_import, roles_of_import_spec, roles_of_line};
ghost use Rattle.tree_roles.specs.Tokens.{every, in_turn};

use crate::decls::has_decl_roles;
use crate::tokens::{ends_line, is, is_if, is_semicolon};
use go_ast::Kind;
use go_syntax::{DeclLine, FileTree, ImportDecl, ImportSpec};

/// Whether each token of a file's tree has the kind of the field in which it stands.
pub fn has_roles(tree: &FileTree) -> bool
    ensures { result ≡ roles_of_file tree.now }
{
    is(tree.word, Kind::PackageWord)
        && is(tree.name, Kind::Name)
        && is_semicolon(tree.semicolon)
        && have_import_roles(&tree.imports)
        && have_decl_roles(&tree.decls)
}

fn have_import_roles(imports: &[ImportDecl]) -> bool
    ensures { result ≡ every (map roles_of_import imports.now) }
{
    for import in imports {
        if !has_import_roles(import) {
            return false;
        }
    }
    true
}

fn has_import_roles(import: &ImportDecl) -> bool
    ensures { result ≡ roles_of_import import.now }
{
    is(import.word, Kind::ImportWord)
        && is_if(import.open, Kind::OpenParen)
        && have_import_spec_roles(&import.specs)
        && is_if(import.close, Kind::CloseParen)
        && is_semicolon(import.semicolon)
}

fn have_import_spec_roles(specs: &[ImportSpec]) -> bool
    ensures { result ≡ in_turn (map roles_of_import_spec specs.now) }
{
    let mut rest = specs;
    while let [first, after @ ..] = rest {
        if !has_import_spec_roles(*first, !after.is_empty()) {
            return false;
        }
        rest = after;
    }
    true
}

fn has_import_spec_roles(spec: ImportSpec, more: bool) -> bool
    ensures { result ≡ roles_of_import_spec spec more }
{
    is_if(spec.name, Kind::Name) && is(spec.path, Kind::Text) && ends_line(spec.semicolon, more)
}

fn have_decl_roles(decls: &[DeclLine]) -> bool
    ensures { result ≡ every (map roles_of_line decls.now) }
{
    for line in decls {
        if !has_decl_roles(&line.decl) || !is_semicolon(line.semicolon) {
            return false;
        }
    }
    true
}
