//! Where comments, runes and strings end. Go specification, "Comments", "Rune literals", "String literals".

ghost use Rattle.std.specs.Prelude.{◌≡◌, true, false};
ghost use Rattle.go_scan.specs.Reach.{comment_ending, quoted_ending, raw_ending, line_length};

/// How far a piece reaches, in bytes, and whether its end stands there.
#[derive(Clone, Copy)]
pub struct Ending {
    pub length: usize,
    pub closed: bool,
}

/// The bytes of a text before its first newline.
#[tactic(auto, using(crate::proofs::Steps::line_length_steps))]
pub fn line_length(text: &[u8]) -> usize
    ensures { result ≡ line_length text.now }
{
    for (index, byte) in text.iter().enumerate() {
        if *byte == b'\n' {
            return index;
        }
    }
    text.len()
}

/// How far a general comment reaches, behind its `/*`.
#[tactic(auto, using(crate::proofs::Steps::comment_ending_steps))]
pub fn comment_ending(text: &[u8]) -> Ending
    ensures { result ≡ comment_ending false text.now }
{
    let mut star = false;
    for (index, byte) in text.iter().enumerate() {
        if star && *byte == b'/' {
            return Ending {
                length: index + 1,
                closed: true,
            };
        }
        star = *byte == b'*';
    }
    Ending {
        length: text.len(),
        closed: false,
    }
}

/// How far a rune or an interpreted string reaches, behind its quote.
#[tactic(auto, using(crate::proofs::Steps::quoted_ending_steps))]
pub fn quoted_ending(quote: u8, text: &[u8]) -> Ending
    ensures { result ≡ quoted_ending quote false text.now }
{
    let mut escaped = false;
    for (index, byte) in text.iter().enumerate() {
        if *byte == b'\n' {
            return Ending {
                length: index,
                closed: false,
            };
        }
        if !escaped && *byte == quote {
            return Ending {
                length: index + 1,
                closed: true,
            };
        }
        escaped = !escaped && *byte == b'\\';
    }
    Ending {
        length: text.len(),
        closed: false,
    }
}

/// How far a raw string reaches, behind its quote.
#[tactic(auto, using(crate::proofs::Steps::raw_ending_steps))]
pub fn raw_ending(text: &[u8]) -> Ending
    ensures { result ≡ raw_ending text.now }
{
    for (index, byte) in text.iter().enumerate() {
        if *byte == b'`' {
            return Ending {
                length: index + 1,
                closed: true,
            };
        }
    }
    Ending {
        length: text.len(),
        closed: false,
    }
}
