//! Texts between the items of a list.

ghost use Rattle.std.specs.Prelude.{◌≡◌, ◌++◌, OnOk};
ghost use Rattle.go_text.specs.Joined.{separator_at};

use go_base::NoMemory;

/// What stands before an item of a list: nothing before the first, and else the separator.
pub fn separate(text: &mut Vec<u8>, separator: &[u8], index: usize) -> Result<(), NoMemory>
    ensures { OnOk result (text.new.items ≡ text.old.items ++ separator_at separator.now index) }
{
    if index > 0 {
        text.extend_from_slice(separator)?;
    }
    Ok(())
}
