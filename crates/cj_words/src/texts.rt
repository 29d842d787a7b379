//! Texts as values of options: parts of the names of files, paths, and who makes messages.
ghost use Rattle.std.specs.Prelude.{◌≡◌, option_map};
ghost use Rattle.std.specs.List.{list_all};
ghost use Rattle.std.specs.Option.{option_copied};
ghost use Rattle.cj_words.specs.Settings as spec;

use cj_kvn::is_originator;

/// The text that a value says, of bytes that may stand in the name of a file and at most so many, or the one that stands for a value
/// that is left out.
pub fn file_text_or<'w>(
    value: Option<&'w [u8]>,
    longest: usize,
    left_out: &'w [u8],
) -> Option<&'w [u8]>
    ensures { option_copied result ≡ spec.file_text_or longest left_out.now (option_copied value.entry) }
{
    match value {
        None => Some(left_out),
        Some(text) if is_file_text(text, longest) => Some(text),
        Some(_) => None,
    }
}

/// The name of a file that a value says, none where it is left out.
pub fn name_or(value: Option<&[u8]>) -> Option<Option<&[u8]>>
    ensures { option_map (λ name. option_copied name) result ≡ spec.name_or (option_copied value.entry) }
{
    match value {
        None => Some(None),
        Some(text) if is_file_text(text, 200) => Some(Some(text)),
        Some(_) => None,
    }
}

fn is_file_text(text: &[u8], longest: usize) -> bool
    ensures { result ≡ spec.is_file_text longest text.now }
{
    1 <= text.len() && text.len() <= longest && are_file_bytes(text)
}

fn are_file_bytes(text: &[u8]) -> bool
    ensures { result ≡ list_all spec.is_file_byte text.now }
{
    text.iter().all(|b| 33 <= *b && *b <= 126 && *b != b'/')
}

/// What the names of update files end with, as a value says it, or the text that stands for a value that is left out. It is not the suffix of
/// the files that are taken.
pub fn update_or<'w>(value: Option<&'w [u8]>, suffix: &[u8]) -> Option<&'w [u8]>
    ensures { option_copied result ≡ spec.update_or suffix.now (option_copied value.entry) }
{
    match value {
        None => update_text(b".new", suffix),
        Some(text) => update_text(text, suffix),
    }
}

/// The same, none where it is left out.
pub fn update_or_none<'w>(value: Option<&'w [u8]>, suffix: &[u8]) -> Option<Option<&'w [u8]>>
    ensures { option_map (λ update. option_copied update) result ≡ spec.update_or_none suffix.now (option_copied value.entry) }
{
    match value {
        None => Some(None),
        Some(text) => Some(Some(update_text(text, suffix)?)),
    }
}

fn update_text<'w>(text: &'w [u8], suffix: &[u8]) -> Option<&'w [u8]>
    ensures { option_copied result ≡ spec.update_text suffix.now text.now }
{
    if is_file_text(text, 20) && text != suffix {
        Some(text)
    } else {
        None
    }
}

/// Whether a value is a path or is left out.
pub fn is_path_or_none(value: Option<&[u8]>) -> bool
    ensures { result ≡ spec.is_path_or_none (option_copied value.entry) }
{
    match value {
        None => true,
        Some(text) => is_path_text(text),
    }
}

fn is_path_text(text: &[u8]) -> bool
    ensures { result ≡ spec.is_path_text text.now }
{
    1 <= text.len() && text.len() <= 1000 && are_path_bytes(text)
}

fn are_path_bytes(text: &[u8]) -> bool
    ensures { result ≡ list_all spec.is_path_byte text.now }
{
    text.iter().all(|b| 32 <= *b && *b != 127)
}

/// The originator that a value says, or the one that stands for a value that is left out.
pub fn originator_or<'w>(value: Option<&'w [u8]>, left_out: &'w [u8]) -> Option<&'w [u8]>
    ensures { option_copied result ≡ spec.originator_or left_out.now (option_copied value.entry) }
{
    match value {
        None => Some(left_out),
        Some(text) if is_originator(text) => Some(text),
        Some(_) => None,
    }
}
