//! Flag words: one or two dashes, a name, and for some `=` and a value.

ghost use Rattle.std.specs.Prelude.{◌≡◌};
ghost use Rattle.command_line.specs.Flags.{is_flag_word, flag_of, without_dash, body_of, shape_of, view_shape};

/// A flag.
#[derive(Clone, Copy)]
pub enum Flag {
    Build,
    Callgraph,
    Run,
    Bound,
    Choices,
    Generate,
}

/// What a word is where flags are read.
#[derive(Clone, Copy)]
pub enum Shape<'a> {
    /// No flag; the flags end before it.
    Operand,
    /// `--`, behind which the flags end.
    Terminator,
    /// A flag word whose name is that of no flag.
    Unknown,
    /// A flag with its value.
    Whole(Flag, &'a str),
    /// A flag whose value is the next word.
    Needs(Flag),
}

/// What a word is where flags are read.
pub fn shape_of(word: &str) -> Shape<'_>
    ensures { view_shape result ≡ shape_of word.now }
{
    if !is_flag_word(word) {
        return Shape::Operand;
    }
    if word == "--" {
        return Shape::Terminator;
    }
    let body = body_of(word);
    let (name, value) = match body.split_once('=') {
        Some((name, value)) => (name, Some(value)),
        None => (body, None),
    };
    let Some(flag) = flag_of(name) else {
        return Shape::Unknown;
    };
    match (flag, value) {
        (_, Some(value)) => Shape::Whole(flag, value),
        (Flag::Run, None) => Shape::Whole(flag, "true"),
        (_, None) => Shape::Needs(flag),
    }
}

// Whether a word begins with a dash and is more than it.
fn is_flag_word(word: &str) -> bool
    ensures { result ≡ is_flag_word word.now }
{
    word.starts_with("-") && word != "-"
}

// A flag word behind its dashes.
fn body_of(word: &str) -> &str
    ensures { result.now ≡ body_of word.now }
{
    match word.strip_prefix("--") {
        Some(body) => body,
        None => without_dash(word),
    }
}

// A word behind a dash.
fn without_dash(word: &str) -> &str
    ensures { result.now ≡ without_dash word.now }
{
    match word.strip_prefix("-") {
        Some(body) => body,
        None => word,
    }
}

// The flag of a name.
fn flag_of(name: &str) -> Option<Flag>
    ensures { result ≡ flag_of name.now }
{
    match name {
        "build" => Some(Flag::Build),
        "callgraph" => Some(Flag::Callgraph),
        "run" => Some(Flag::Run),
        "bound" => Some(Flag::Bound),
        "choices" => Some(Flag::Choices),
        "gen" => Some(Flag::Generate),
        _ => None,
    }
}
