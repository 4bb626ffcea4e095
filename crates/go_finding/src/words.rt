//! The words of a line.

ghost use Rattle.std.specs.Prelude.{◌≡◌, ◌≤◌, true, length};
ghost use Rattle.std.specs.List.{prefix_len, position_or_len};
ghost use Rattle.go_finding.specs.Words.{is_space, is_word_byte, is_newline, first_word, after_word, is_blank, ends_in_opening, begins_comment, comment_start, without_comment};

/// Whether a byte separates words: a space, a tab or a carriage return.
fn is_space(byte: u8) -> bool
    ensures { result ≡ is_space byte }
{
    byte == b' ' || byte == b'\t' || byte == b'\r'
}

/// How many bytes at the head of a text separate words.
#[tactic(auto, using(crate::proofs::Steps::prefix_steps))]
pub fn space_length(text: &[u8]) -> usize
    ensures length { result ≡ prefix_len is_space text.now }
    ensures within { result ≤ length text.now }
{
    for (index, byte) in text.iter().enumerate() {
        if !is_space(*byte) {
            return index;
        }
    }
    text.len()
}

/// How many bytes at the head of a text separate no words.
#[tactic(auto, using(crate::proofs::Steps::prefix_steps))]
fn word_length(text: &[u8]) -> usize
    ensures length { result ≡ prefix_len is_word_byte text.now }
    ensures within { result ≤ length text.now }
{
    for (index, byte) in text.iter().enumerate() {
        if is_space(*byte) {
            return index;
        }
    }
    text.len()
}

/// The first word of a text. It is empty where there is none.
pub fn first_word(text: &[u8]) -> &[u8]
    ensures word { result.now ≡ first_word text.now }
    ensures shorter { length result.now ≤ length text.now }
{
    let text = &text[space_length(text)..];
    &text[..word_length(text)]
}

/// What stands behind the first word of a text.
pub fn after_word(text: &[u8]) -> &[u8]
    ensures rest { result.now ≡ after_word text.now }
    ensures shorter { length result.now ≤ length text.now }
{
    let text = &text[space_length(text)..];
    &text[word_length(text)..]
}

/// Whether a text holds no word.
fn is_blank(text: &[u8]) -> bool
    ensures { result ≡ is_blank text.now }
{
    space_length(text) == text.len()
}

/// Whether the last word of a text is `(`.
#[tactic(auto, using(crate::proofs::Steps::opening_steps))]
pub fn ends_in_opening(text: &[u8]) -> bool
    ensures { result ≡ ends_in_opening true text.now }
{
    let mut start = true;
    for (index, byte) in text.iter().enumerate() {
        if start && *byte == b'(' && is_blank(&text[index + 1..]) {
            return true;
        }
        start = is_space(*byte);
    }
    false
}

/// How many bytes a text has before its first newline.
#[tactic(auto, using(crate::proofs::Steps::prefix_steps))]
pub fn line_length(text: &[u8]) -> usize
    ensures length { result ≡ position_or_len is_newline text.now }
    ensures within { result ≤ length text.now }
{
    for (index, byte) in text.iter().enumerate() {
        if *byte == b'\n' {
            return index;
        }
    }
    text.len()
}

/// How many bytes a line has before its comment, which `//` begins.
#[tactic(auto, using(crate::proofs::Steps::comment_steps))]
fn comment_start(line: &[u8]) -> usize
    ensures start { result ≡ comment_start line.now }
    ensures within { result ≤ length line.now }
{
    for (index, _) in line.iter().enumerate() {
        if begins_comment(&line[index..]) {
            return index;
        }
    }
    line.len()
}

fn begins_comment(text: &[u8]) -> bool
    ensures { result ≡ begins_comment text.now }
{
    text.starts_with(b"//")
}

/// A line without its comment.
pub fn without_comment(line: &[u8]) -> &[u8]
    ensures text { result.now ≡ without_comment line.now }
    ensures shorter { length result.now ≤ length line.now }
{
    &line[..comment_start(line)]
}
