//! Blanks round a text.
ghost use Rattle.std.specs.Prelude.{◌≡◌, ◌+◌, ◌≤◌, length};
ghost use Rattle.std.specs.List.{prefix_len, suffix_len};
ghost use Rattle.cj_kvn.specs.Lines.{is_blank as the_test, trimmed as the_trimmed, without_leading_blanks, without_trailing_blanks};
ghost use Rattle.cj_kvn.specs.Ranges.{IsWithin, text_at};

use crate::range::Range32;

/// A space or a tab.
pub fn is_blank(byte: u8) -> bool
    ensures { result ≡ the_test byte }
{
    byte == b' ' || byte == b'\t'
}

/// How many blanks stand at the front.
pub fn leading_blanks(text: &[u8]) -> usize
    ensures count { result ≡ prefix_len the_test text.now }
    ensures short { result ≤ length text.now }
{
    let mut count = 0;
    while count < text.len() && is_blank(text[count]) {
        count += 1;
    }
    count
}

/// How many blanks stand at the end.
fn trailing_blanks(text: &[u8]) -> usize
    ensures count { result ≡ suffix_len the_test text.now }
    ensures short { result ≤ length text.now }
{
    let mut left = text.len();
    while 0 < left && is_blank(text[left - 1]) {
        left -= 1;
    }
    text.len() - left
}

/// The part without outer blanks.
pub fn trimmed(bytes: &[u8], part: Range32) -> Range32
    requires { IsWithin bytes.now part }
    ensures text { text_at bytes.now result ≡ the_trimmed (text_at bytes.now part) }
    ensures within { IsWithin bytes.now result }
    ensures first { result.first ≡ part.first + prefix_len the_test (text_at bytes.now part) }
{
    let inner = without_leading(bytes, part);
    without_trailing(bytes, inner)
}

#[tactic(auto, using(crate::proofs::RangeLemmas::slice_drop))]
/// The part without the blanks at its front.
pub fn without_leading(bytes: &[u8], part: Range32) -> Range32
    requires { IsWithin bytes.now part }
    ensures text { text_at bytes.now result ≡ without_leading_blanks (text_at bytes.now part) }
    ensures within { IsWithin bytes.now result }
    ensures past { result.past ≡ part.past }
    ensures first { result.first ≡ part.first + prefix_len the_test (text_at bytes.now part) }
{
    Range32 {
        first: part.first + leading_blanks(part.text(bytes)) as u32,
        past: part.past,
    }
}

/// The part without the blanks at its end.
fn without_trailing(bytes: &[u8], part: Range32) -> Range32
    requires { IsWithin bytes.now part }
    ensures text { text_at bytes.now result ≡ without_trailing_blanks (text_at bytes.now part) }
    ensures within { IsWithin bytes.now result }
    ensures first { result.first ≡ part.first }
{
    Range32 {
        first: part.first,
        past: part.past - trailing_blanks(part.text(bytes)) as u32,
    }
}
