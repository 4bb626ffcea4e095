//! Paths of files and directories: components joined by `/`, where `.` is the directory of the paths themselves.

ghost use Rattle.std.specs.Prelude.{◌≡◌, ◌<◌, IfOk, IfSome, option_map, string_bytes};
ghost use Rattle.go_finding.specs.Imports.{is_plain, is_plain_component};
ghost use Rattle.go_finding.specs.Paths.{depth, path_in, with_slash, LiesIn};

use go_base::NoMemory;
use std::alloc::Global;

/// The directory in which a file or directory lies. None for `.`, which lies in none.
pub fn parent(path: &str) -> Option<&str>
    ensures above { LiesIn path.now (option_map (λ dir. dir.now) result) }
    ensures depth { IfSome result (λ dir. depth dir.now < depth path.now) }
{
    if path == "." {
        return None;
    }
    match path.rfind('/') {
        Some(at) => {
            let (dir, _) = path.split_at(at);
            Some(dir)
        }
        None => Some("."),
    }
}

/// The path of what is called `name` in a directory.
pub fn join(alloc: Global, dir: &str, name: &str) -> Result<String, NoMemory>
    ensures { IfOk result (λ path. string_bytes path ≡ path_in dir.now name.now) }
{
    if dir == "." {
        let path = String::from_str(alloc, name)?;
        return Ok(path);
    }
    join_with_slash(alloc, dir, name)
}

/// Two texts with a `/` between them.
pub fn join_with_slash(alloc: Global, front: &str, rest: &str) -> Result<String, NoMemory>
    ensures { IfOk result (λ path. string_bytes path ≡ with_slash front.now rest.now) }
{
    let mut path = String::from_str(alloc, front)?;
    path.push_str("/")?;
    path.push_str(rest)?;
    Ok(path)
}

/// Whether a path has no component that is empty, `.` or `..`.
pub fn is_plain(path: &str) -> bool
    ensures { result ≡ is_plain path.now }
{
    path.split('/').all(is_plain_component)
}

/// Whether a component is not empty, `.` or `..`.
fn is_plain_component(component: &str) -> bool
    ensures { result ≡ is_plain_component component.now }
{
    !(component.is_empty() || component == "." || component == "..")
}
