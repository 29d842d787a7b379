//! Lines, and keys with their values, as they are written.
ghost use Rattle.std.specs.Prelude.{◌≡◌, ◌++◌, OnOk};
ghost use Rattle.cj_kvn.specs.Entries.{entry, line};

use std::alloc::AllocError;

/// Adds a line and its end.
pub fn push_line(text: &mut Vec<u8>, content: &[u8]) -> Result<(), AllocError>
    ensures appended { OnOk result (text.new.items ≡ text.old.items ++ line content.now) }
{
    text.extend_from_slice(content)?;
    text.push(b'\n')?;
    Ok(())
}

/// Adds a key with its value.
pub fn push_entry(text: &mut Vec<u8>, key: &[u8], value: &[u8]) -> Result<(), AllocError>
    ensures appended { OnOk result (text.new.items ≡ text.old.items ++ entry key.now value.now) }
{
    text.extend_from_slice(key)?;
    text.extend_from_slice(b" = ")?;
    push_line(text, value)
}
