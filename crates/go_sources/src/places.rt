//! Places in files.

ghost use Rattle.go_base.specs.declared.line.TheConstants.{MAX_FILE_BYTES};
ghost use Rattle.std.specs.Prelude.{◌≡◌, ◌≤◌, length, IfOk};
ghost use Rattle.go_sources.specs.Places.{place_in};

use go_base::{NoMemory, Place, Text, line_column};
use std::alloc::Global;

/// A byte of a file.
pub fn place_at(alloc: Global, path: &str, bytes: &[u8], offset: usize) -> Result<Place, NoMemory>
    requires within { offset ≤ length bytes.now }
    requires is_file { length bytes.now ≤ MAX_FILE_BYTES }
    ensures { IfOk result (λ place. place ≡ place_in path.now bytes.now offset) }
{
    let (line, column) = line_column(bytes, offset);
    Ok(Place {
        path: Text::new(alloc, path)?,
        offset: offset as u32,
        line,
        column,
    })
}
