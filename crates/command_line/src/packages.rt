//! Package words: the paths of files and directories.

ghost use Rattle.std.specs.Prelude.{◌≡◌, IfOk};
ghost use Rattle.command_line.specs.Packages.{path_of, without_dot, without_slash, is_bad_component, has_bad_component, is_bad_package, target_of};

use go_base::{NoMemory, Target, Text};
use std::alloc::Global;

/// Whether a package word is bad: empty, absolute, or with an empty or `..` component in its path.
pub fn is_bad_package(word: &str) -> bool
    ensures { result ≡ is_bad_package word.now }
{
    word.is_empty() || word.starts_with("/") || has_bad_component(path_of(word))
}

/// What a package word names.
pub fn target_of(alloc: Global, word: &str) -> Result<Target, NoMemory>
    ensures { IfOk result (λ target. target ≡ target_of word.now) }
{
    let path = Text::new(alloc, path_of(word))?;
    if word.ends_with(".go") {
        Ok(Target::File(path))
    } else {
        Ok(Target::Dir(path))
    }
}

// Whether a component of a path is bad.
fn has_bad_component(path: &str) -> bool
    ensures { result ≡ has_bad_component path.now }
{
    path.split('/').any(is_bad_component)
}

// Whether a path may not have this component.
fn is_bad_component(component: &str) -> bool
    ensures { result ≡ is_bad_component component.now }
{
    component.is_empty() || component == ".."
}

// The path of a package word.
fn path_of(word: &str) -> &str
    ensures { result.now ≡ path_of word.now }
{
    let path = without_slash(without_dot(word));
    if path.is_empty() { "." } else { path }
}

// A path without the `./` before it.
fn without_dot(path: &str) -> &str
    ensures { result.now ≡ without_dot path.now }
{
    match path.strip_prefix("./") {
        Some(rest) => rest,
        None => path,
    }
}

// A path without the `/` behind it.
fn without_slash(path: &str) -> &str
    ensures { result.now ≡ without_slash path.now }
{
    match path.strip_suffix("/") {
        Some(rest) => rest,
        None => path,
    }
}
