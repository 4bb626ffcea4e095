//! The packages that every program can import without files of its own.

ghost use Rattle.go_base.specs.declared.line.TheConstants.{MAX_FILE_BYTES};
ghost use Rattle.std.specs.Prelude.{◌≡◌, ◌≤◌, length};
ghost use Rattle.go_sources.specs.BuiltIns.{built_in_named, built_in_path, built_in_text};

/// A built-in package.
#[derive(Clone, Copy, PartialEq, Eq)]
pub enum BuiltIn {
    Errors,
    Os,
    Runtime,
}

const ERRORS: &str = "package errors

type errorString struct{ s string }

func New(text string) error { return &errorString{text} }

func (e *errorString) Error() string { return e.s }
";

const OS: &str = "package os

func Exit(code int)
";

const RUNTIME: &str = "package runtime

type Error interface {
\terror
\tRuntimeError()
}

type errorString string

func (e errorString) Error() string { return \"runtime error: \" + string(e) }

func (e errorString) RuntimeError() {}

func Gosched()
";

impl BuiltIn {
    /// The built-in package with an import path.
    pub fn named(path: &str) -> Option<BuiltIn>
        ensures { result ≡ built_in_named path.now }
    {
        match path {
            "errors" => Some(BuiltIn::Errors),
            "os" => Some(BuiltIn::Os),
            "runtime" => Some(BuiltIn::Runtime),
            _ => None,
        }
    }

    /// The path of its file.
    pub fn path(self) -> &'static str
        ensures { result.now ≡ built_in_path self }
    {
        match self {
            BuiltIn::Errors => "builtin:errors.go",
            BuiltIn::Os => "builtin:os.go",
            BuiltIn::Runtime => "builtin:runtime.go",
        }
    }

    /// The text of its file.
    pub fn text(self) -> &'static str
        ensures says { result.now ≡ built_in_text self }
        ensures small { length result.now ≤ MAX_FILE_BYTES }
    {
        match self {
            BuiltIn::Errors => ERRORS,
            BuiltIn::Os => OS,
            BuiltIn::Runtime => RUNTIME,
        }
    }
}
