//! What the text of a line is.
ghost use Rattle.std.specs.Prelude.{◌≡◌, ◌==◌, position};
ghost use Rattle.std.specs.List.{list_all};
ghost use Rattle.cj_kvn.specs.Lines.{is_comment as the_comment_test, is_end_or_blank as the_end_test, is_key as the_key_test, is_key_byte as the_byte_test, mark_of as the_mark};

use crate::blanks::{is_blank, leading_blanks};
use crate::lines::MarkKind;

/// Where a byte stands first.
pub fn find_byte(text: &[u8], byte: u8) -> Option<usize>
    ensures { result ≡ position (λ b. b == byte) text.now }
{
    text.iter().position(|b| *b == byte)
}

/// The word COMMENT after any blanks, and then a blank or the end.
pub fn is_comment(line: &[u8]) -> bool
    ensures { result ≡ the_comment_test line.now }
{
    let text = &line[leading_blanks(line)..];
    match text.strip_prefix(b"COMMENT") {
        None => false,
        Some(rest) => is_end_or_blank(rest),
    }
}

fn is_end_or_blank(text: &[u8]) -> bool
    ensures { result ≡ the_end_test text.now }
{
    match text {
        [] => true,
        [b, ..] => is_blank(*b),
    }
}

/// The mark that a word is.
pub fn mark_of(word: &[u8]) -> Option<MarkKind>
    ensures { result ≡ the_mark word.now }
{
    if word == b"META_START".as_slice() {
        Some(MarkKind::MetaStart)
    } else if word == b"META_STOP".as_slice() {
        Some(MarkKind::MetaStop)
    } else if word == b"COVARIANCE_START".as_slice() {
        Some(MarkKind::CovarianceStart)
    } else if word == b"COVARIANCE_STOP".as_slice() {
        Some(MarkKind::CovarianceStop)
    } else {
        None
    }
}

/// One or more of A to Z, 0 to 9 and `_`.
pub fn is_key(text: &[u8]) -> bool
    ensures { result ≡ the_key_test text.now }
{
    !text.is_empty() && has_key_bytes(text)
}

fn has_key_bytes(text: &[u8]) -> bool
    ensures { result ≡ list_all the_byte_test text.now }
{
    text.iter().all(|b| b.is_ascii_uppercase() || b.is_ascii_digit() || *b == b'_')
}
