//! Which of the numbers from 0 on are marked.

ghost use Rattle.std.specs.Prelude.{◌≡◌, ◌==◌, ◌||◌, ℕ, OnOk};
ghost use Rattle.use_rules.specs.Uses.{flag_at};

use go_base::NoMemory;

/// Whether a number is marked.
pub(crate) fn is_marked(flags: &[bool], number: usize) -> bool
    ensures { result ≡ flag_at flags.now number }
{
    match flags.get(number) {
        Some(flag) => *flag,
        None => false,
    }
}

/// Marks a number.
pub(crate) fn mark(flags: &mut Vec<bool>, number: usize) -> Result<(), NoMemory>
    ensures { OnOk result ((k : ℕ) → flag_at flags.new.items k ≡ (number == k) || flag_at flags.old.items k) }
{
    if flags.len() <= number {
        let Some(len) = number.checked_add(1) else {
            return Err(NoMemory);
        };
        flags.resize(len, false)?;
    }
    if let Some(flag) = flags.get_mut(number) {
        *flag = true;
    }
    Ok(())
}
