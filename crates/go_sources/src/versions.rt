//! Versions of Go, as packages follow them.

ghost use Rattle.std.specs.Prelude.{◌≡◌};
ghost use Rattle.go_sources.specs.Sources.{version_under};

/// The newest Go 1.N that is supported. It has the rules of every version before it, too.
pub const NEWEST_MINOR: u32 = 21;

/// The N of Go 1.N whose rules a package follows, in a program whose go.mod names this one.
pub fn version_under(built_in: bool, minor: u32) -> u32
    ensures { result ≡ version_under built_in minor }
{
    if built_in { NEWEST_MINOR } else { minor }
}
