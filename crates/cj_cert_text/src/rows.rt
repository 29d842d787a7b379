//! Lines of a word and numbers.
ghost use Rattle.std.specs.Prelude.{◌≡◌, ◌++◌, OnOk};
ghost use Rattle.cj_cert_text.specs.Texts.{row, row_ended, spaced_numbers};

use itoa::Buffer;
use std::alloc::AllocError;

/// Adds a line of a word and numbers.
pub(crate) fn push_row(text: &mut Vec<u8>, word: &[u8], numbers: &[i128]) -> Result<(), AllocError>
    ensures { OnOk result (text.new.items ≡ text.old.items ++ row word.now numbers.now) }
{
    text.extend_from_slice(word)?;
    push_numbers(text, numbers)?;
    text.push(b'\n')?;
    Ok(())
}

/// Adds a line of a word, numbers and a last word.
pub(crate) fn push_row_ended(
    text: &mut Vec<u8>,
    word: &[u8],
    numbers: &[i128],
    last: &[u8],
) -> Result<(), AllocError>
    ensures { OnOk result (text.new.items ≡ text.old.items ++ row_ended word.now numbers.now last.now) }
{
    text.extend_from_slice(word)?;
    push_numbers(text, numbers)?;
    text.push(b' ')?;
    text.extend_from_slice(last)?;
    text.push(b'\n')?;
    Ok(())
}

/// Adds numbers, each with a space before it.
fn push_numbers(text: &mut Vec<u8>, numbers: &[i128]) -> Result<(), AllocError>
    ensures { OnOk result (text.new.items ≡ text.old.items ++ spaced_numbers numbers.now) }
{
    for number in numbers {
        text.push(b' ')?;
        text.extend_from_slice(Buffer::new().format(*number).as_bytes())?;
    }
    Ok(())
}
