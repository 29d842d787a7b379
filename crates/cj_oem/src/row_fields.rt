//! The fields of a row, as texts.
ghost use Rattle.std.specs.Prelude.{◌≡◌, ◌==◌, ◌<◌, ◌≤◌, length, nat_lt};
ghost use Rattle.cj_kvn.specs.Fields.{fields};
ghost use Rattle.cj_kvn.specs.Ranges.{IsWithin, text_at};
ghost use Rattle.cj_oem.specs.NodeRows.{field_in};

use cj_kvn::{Range32, field};

/// The field of this index, counted from 0, and nothing where there is none.
pub(crate) fn field_text(bytes: &[u8], text: Range32, index: u32) -> &[u8]
    requires { IsWithin bytes.now text }
    ensures exact { result.now ≡ field_in (fields (text_at bytes.now text)) index }
    ensures short { length result.now ≤ length bytes.now }
{
    match field(bytes, text, index) {
        Some(found) => found.text(bytes),
        None => &[],
    }
}

/// Whether a row has exactly this many fields.
pub(crate) fn has_fields(bytes: &[u8], text: Range32, count: u32) -> bool
    requires within { IsWithin bytes.now text }
    requires some { 0 < count }
    ensures { result ≡ (length (fields (text_at bytes.now text)) == count) }
{
    has_field(bytes, text, count - 1) && !has_field(bytes, text, count)
}

fn has_field(bytes: &[u8], text: Range32, index: u32) -> bool
    requires { IsWithin bytes.now text }
    ensures { result ≡ nat_lt index (length (fields (text_at bytes.now text))) }
{
    field(bytes, text, index).is_some()
}
