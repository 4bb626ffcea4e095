//! The paths of what is to be loaded.

ghost use Rattle.std.specs.Prelude.{◌≡◌};
ghost use Rattle.go_finding.specs.Modules.{IsTargetDir};
ghost use Rattle.go_finding.specs.Programs.{path_asked};

use crate::paths::parent;
use go_base::Target;

/// The path of a target.
pub fn target_path(target: &Target) -> &str
    ensures { result.now ≡ path_asked target.now }
{
    match target {
        Target::File(path) => path.as_str(),
        Target::Dir(path) => path.as_str(),
    }
}

/// The directory of a target.
pub fn target_dir(target: &Target) -> &str
    ensures { IsTargetDir target.now result.now }
{
    match target {
        Target::File(path) => parent(path.as_str()).unwrap_or("."),
        Target::Dir(path) => path.as_str(),
    }
}
