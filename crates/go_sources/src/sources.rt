//! What a program is loaded from: files, packages and imports.

ghost use Rattle.go_base.specs.declared.line.TheConstants.{MAX_FILE_BYTES};
ghost use Rattle.std.specs.Prelude.{◌≡◌, ◌≤◌, length};
ghost use Rattle.go_sources.specs.Reading.{HasTree};

use go_ast::Token;
use go_base::{Bytes, Text};
use go_syntax::FileTree;

/// A file that was loaded.
#[derive(Drop)]
pub struct SourceFile {
    pub path: Text,
    pub bytes: Bytes,
    pub tree: FileTree,
    /// The number of its package, from 0.
    pub package: u32,
    pub ghost small: { length bytes ≤ MAX_FILE_BYTES },
    // The tree is that of the bytes.
    pub ghost read: { ∥ HasTree bytes tree ∥₁ },
}

impl SourceFile {
    ghost use Rattle.go_sources.specs.Packages.{package_name, text_in};

    /// The bytes of a token of this file.
    pub fn text(&self, token: Token) -> &[u8]
        ensures { result.now ≡ text_in self.now.bytes token }
    {
        let bytes = self.bytes.as_slice();
        let (start, end) = (token.start as usize, token.end as usize);
        if start <= end && end <= bytes.len() {
            &bytes[start..end]
        } else {
            b""
        }
    }

    /// The name in its package clause.
    pub fn package_name(&self) -> &[u8]
        ensures { result.now ≡ package_name self.now }
    {
        self.text(self.tree.name)
    }
}

/// A package of a program.
#[derive(Drop)]
pub struct SourcePackage {
    /// Its import path; `command-line-arguments` for a target that has none.
    pub path: Text,
    /// `main` for a target of that name, else its path.
    pub label: Text,
    pub built_in: bool,
    /// The number of its first file.
    pub first_file: u32,
}

/// An import that was found.
#[derive(Clone, Copy, PartialEq, Eq)]
pub struct Import {
    /// The literal of its path.
    pub literal: Token,
    /// The number of the package.
    pub package: u32,
}
