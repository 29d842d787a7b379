//! The fields of a row.
ghost use Rattle.std.specs.Prelude.{◌≡◌, ◌<◌, ◌≤◌, ◌+◌, ◌∷◌, [], All, length, take, IfSome, MatchOption, slice_get, slice_index_or};
ghost use Rattle.std.specs.List.{position_or_len};
ghost use Rattle.std.specs.Option.{option_map};
ghost use Rattle.cj_kvn.specs.Fields.{fields, texts_of};
ghost use Rattle.cj_kvn.specs.Lines.{is_blank as the_test};
ghost use Rattle.cj_kvn.specs.Ranges.{IsWithin, text_at};

use crate::blanks::{is_blank, without_leading};
use crate::range::Range32;

/// The field of this index, counted from 0, of a row's text.
pub fn field(bytes: &[u8], text: Range32, index: u32) -> Option<Range32>
    requires { IsWithin bytes.now text }
    ensures exact { option_map (text_at bytes.now) result ≡ slice_get (fields (text_at bytes.now text)) index }
    ensures within { IfSome result (IsWithin bytes.now) }
{
    let mut rest = text;
    for _ in 0..index {
        let (_, behind) = first_field(bytes, rest)?;
        rest = behind;
    }
    let (found, _) = first_field(bytes, rest)?;
    Some(found)
}

/// The fields of a row: where the first ten lie, and how many there are, where more than ten count as eleven.
#[derive(Clone, Copy, Debug)]
pub struct RowFields {
    pub found: [Range32; 10],
    pub count: u32,
}

impl RowFields {
    /// The field of this index, counted from 0.
    pub fn text<'a>(&self, bytes: &'a [u8], index: u32) -> &'a [u8]
        requires one_of_ten { index < 10 }
        requires found { index < self.now.count }
        requires within { All (IsWithin bytes.now) self.now.found }
        ensures exact { result.now ≡ slice_index_or (texts_of bytes.now self.now) index [] }
        ensures there { index < length (texts_of bytes.now self.now) }
        ensures short { length result.now ≤ length bytes.now }
    {
        self.found[index as usize].text(bytes)
    }
}

/// The fields of a row's text, all found in one pass.
pub fn row_fields(bytes: &[u8], text: Range32) -> RowFields
    requires { IsWithin bytes.now text }
    ensures count { result.count ≡ length (take 11 (fields (text_at bytes.now text))) }
    ensures texts { texts_of bytes.now result ≡ take 10 (fields (text_at bytes.now text)) }
    ensures within { All (IsWithin bytes.now) result.found }
{
    let mut found = [Range32 { first: 0, past: 0 }; 10];
    let mut rest = text;
    for count in 0..10 {
        let Some((field, behind)) = first_field(bytes, rest) else {
            return RowFields { found, count };
        };
        found[count as usize] = field;
        rest = behind;
    }
    let count = match first_field(bytes, rest) {
        None => 10,
        Some(_) => 11,
    };
    RowFields { found, count }
}

/// The first field, and what stands behind it.
fn first_field(bytes: &[u8], text: Range32) -> Option<(Range32, Range32)>
    requires { IsWithin bytes.now text }
    ensures fields { MatchOption result (fields (text_at bytes.now text) ≡ [])
        (λ parts. fields (text_at bytes.now text) ≡ text_at bytes.now parts.0 ∷ fields (text_at bytes.now parts.1)) }
    ensures within { IfSome result (λ parts. IsWithin bytes.now parts.0 × IsWithin bytes.now parts.1) }
{
    let inner = without_leading(bytes, text);
    if inner.first == inner.past {
        return None;
    }
    let end = inner.first + field_len(inner.text(bytes)) as u32;
    let found = Range32 {
        first: inner.first,
        past: end,
    };
    let behind = Range32 {
        first: end,
        past: inner.past,
    };
    Some((found, behind))
}

/// How many bytes stand before the first blank.
fn field_len(text: &[u8]) -> usize
    ensures value { result ≡ position_or_len the_test text.now }
    ensures short { result ≤ length text.now }
{
    let mut len = 0;
    while len < text.len() && !is_blank(text[len]) {
        len += 1;
    }
    len
}
