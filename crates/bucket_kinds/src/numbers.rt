//! What stands under the numbers of open files.

ghost use Rattle.std.specs.Prelude.{◌≡◌, ◌==◌, if◌then◌else◌, ℕ, Some, None, nat_eq, OnOk, OnErr};
ghost use Rattle.std.specs.HashMap.{get};

use crate::files::FileNo;
use std::alloc::AllocError;
use std::collections::HashMap;

/// Puts a value under a number. Without memory nothing is changed.
pub fn put_number<V: Drop>(
    opened: &mut HashMap<FileNo, V>,
    number: FileNo,
    value: V,
) -> Result<(), AllocError>
    ensures ok { OnOk result ((n : ℕ) → get nat_eq opened.new n ≡ (if n == number then Some value else get nat_eq opened.old n)) }
    ensures err { OnErr result (opened.new.entries ≡ opened.old.entries) }
{
    opened.insert(number, value)?;
    Ok(())
}

/// Takes out what stands under a number.
pub fn take_number<V>(opened: &mut HashMap<FileNo, V>, number: FileNo) -> Option<V>
    ensures { (n : ℕ) → get nat_eq opened.new n ≡ (if n == number then None else get nat_eq opened.old n) }
{
    opened.remove(&number)
}
