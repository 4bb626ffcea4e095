//! Paths of files and directories: components joined by `/`, where `.` is the directory of the paths themselves.

ghost use Rattle.std.specs.Prelude.{◌≡◌};
ghost use Rattle.std.specs.Option.{option_copied};
ghost use Rattle.go_base.specs.Devices.{rest_below};

/// What a path has after a directory in which it lies: None for the directory itself, and where the path lies
/// elsewhere.
pub fn rest_below<'a>(dir: &str, path: &'a str) -> Option<&'a str>
    ensures { option_copied result ≡ rest_below dir.now path.now }
{
    if dir == "." {
        return Some(path);
    }
    path.strip_prefix(dir)?.strip_prefix('/')
}
