//! Versions of Go, as a go line of go.mod gives them.

ghost use Rattle.std.specs.Prelude.{◌≡◌, ◌≤◌, length};
ghost use Rattle.std.specs.List.{prefix_len};
ghost use Rattle.go_finding.specs.Versions.{is_digit, next_number, number_of, are_digits, is_patch, minor_of, minor_version};

/// Every greater number counts as this one.
const GREATEST: u32 = 1000000;

/// The number N of a version `1.N` or `1.N.P`.
pub fn minor_version(word: &[u8]) -> Option<u32>
    ensures { result ≡ minor_version word.now }
{
    if word.starts_with(b"1.") {
        minor_of(&word[2..])
    } else {
        None
    }
}

/// The number N of `N` or `N.P`.
fn minor_of(numbers: &[u8]) -> Option<u32>
    ensures { result ≡ minor_of numbers.now }
{
    let length = digits_length(numbers);
    if length >= 1 && is_patch(&numbers[length..]) {
        Some(number_of(&numbers[..length]))
    } else {
        None
    }
}

/// Whether a text is nothing, or a dot and digits.
fn is_patch(text: &[u8]) -> bool
    ensures { result ≡ is_patch text.now }
{
    text.is_empty() || (text.starts_with(b".") && are_digits(&text[1..]))
}

/// Whether a text is digits, at least one.
fn are_digits(text: &[u8]) -> bool
    ensures { result ≡ are_digits text.now }
{
    text.len() >= 1 && digits_length(text) == text.len()
}

/// How many decimal digits stand at the head of a text.
#[tactic(auto, using(crate::proofs::Steps::prefix_steps))]
fn digits_length(text: &[u8]) -> usize
    ensures length { result ≡ prefix_len is_digit text.now }
    ensures within { result ≤ length text.now }
{
    for (index, byte) in text.iter().enumerate() {
        if !is_digit(*byte) {
            return index;
        }
    }
    text.len()
}

fn is_digit(byte: u8) -> bool
    ensures { result ≡ is_digit byte }
{
    b'0' <= byte && byte <= b'9'
}

/// The number that decimal digits write.
fn number_of(digits: &[u8]) -> u32
    ensures { result ≡ number_of digits.now }
{
    let mut number = 0;
    for digit in digits {
        number = next_number(number, *digit);
    }
    number
}

/// A number with one more digit.
fn next_number(number: u32, digit: u8) -> u32
    ensures { result ≡ next_number number digit }
{
    let more = number as u64 * 10 + digit.saturating_sub(b'0') as u64;
    more.min(GREATEST as u64) as u32
}
