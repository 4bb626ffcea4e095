//! Laws of the trees of files. A grammar's tree flattens optional tokens and those of lists; together with the roles of its
//! tokens it is one tree.
#![tactic(auto)]

ghost use Rattle.std.specs.Prelude.{◌≡◌, ℕ, List, true};
ghost use Rattle.go_grammar.specs.View.{view_file};
ghost use Rattle.go_sources.specs.Reading.{HasTree};
ghost use Rattle.go_syntax.specs.declared.decls.FileTree.{FileTree};
ghost use Rattle.tree_laws.specs.Fields.{fields_of_file, forget};
ghost use Rattle.tree_roles.specs.Roles.{roles_of_file};

/// Trees whose tokens have their roles, and which are one tree of the grammar, have each token in one field: they are the
/// same, but for where they lie in memory.
pub fn one_tree_of_view()
    ensures same { (a b : FileTree) → view_file a ≡ view_file b → roles_of_file a ≡ true → roles_of_file b ≡ true → fields_of_file a ≡ fields_of_file b }
    ensures seen { (a : FileTree) → roles_of_file a ≡ true → forget (fields_of_file a) ≡ view_file a }
{}

/// The bytes of a file have one tree, token by token and field by field.
pub fn one_tree_of_text()
    ensures { (bytes : List ℕ) (a b : FileTree) → HasTree bytes a → HasTree bytes b → fields_of_file a ≡ fields_of_file b }
{}
