//! Lines and columns of a file.

ghost use Rattle.std.specs.Prelude.{◌≡◌, ◌≤◌, length};
ghost use Rattle.go_base.specs.Lines.{line_at, column_at};

/// The most bytes that a file may have.
pub const MAX_FILE_BYTES: usize = 4194304;

/// The number of the line at an offset, in bytes from the start of the file, and the number of the byte on that line,
/// both from 1. A newline is the last byte of its line.
pub fn line_column(bytes: &[u8], offset: usize) -> (u32, u32)
    requires within { offset ≤ length bytes.now }
    requires is_file { length bytes.now ≤ MAX_FILE_BYTES }
    ensures line { result.0 ≡ line_at bytes.now offset }
    ensures column { result.1 ≡ column_at bytes.now offset }
{
    let mut line = 1;
    let mut column = 1;
    for byte in &bytes[..offset] {
        if *byte == b'\n' {
            line += 1;
            column = 1;
        } else {
            column += 1;
        }
    }
    (line, column)
}
