//! A message with the lines of a relative state.
ghost use Rattle.std.specs.Prelude.{◌≡◌, ◌≤◌, take, drop, length, IfOk, Ok, Some};
ghost use Rattle.std.specs.List.{count_by};
ghost use Rattle.cj_base.specs.Bytes.{is_feed};
ghost use Rattle.cj_cdm.specs.Fits.{Fits};
ghost use Rattle.cj_cdm.specs.Messages.{PlainMessage};
ghost use Rattle.cj_cdm.specs.Reading.{reading_with};
ghost use Rattle.cj_cdm.specs.Relative.{added, behind_lines, front_lines};
ghost use Rattle.cj_cdm.specs.Texts.{text_of};

use crate::printing::push_relative;
use crate::reading::place_of;
use cj_rtn::Rtn;
use std::alloc::{AllocError, Global};

/// The text of a message with the lines of a relative state behind its first six, of which the last tells the miss distance.
pub fn add_lines(alloc: Global, message: &[u8], rtn: &Rtn) -> Result<Vec<u8>, AllocError>
    requires { 6 ≤ count_by is_feed message.now }
    ensures value { IfOk result (λ text. text.items ≡ added rtn.now message.now) }
    // The text is read again as the message with the relative state.
    ensures again { IfOk result (λ text. (m : PlainMessage) → Fits m → message.now ≡ text_of m → reading_with text.items ≡ Ok (m, Some rtn.now)) }
{
    let end = end_of_lines(message, 6);
    let mut text = Vec::with_capacity(alloc, message.len().saturating_add(ROOM))?;
    text.extend_from_slice(&message[..end])?;
    push_relative(&mut text, rtn)?;
    text.extend_from_slice(&message[end..])?;
    Ok(text)
}

/// Enough for six lines of a relative state.
const ROOM: usize = 320;

/// How many bytes the first so many lines of a text have, with their ends.
fn end_of_lines(text: &[u8], count: u32) -> usize
    requires { count ≤ count_by is_feed text.now }
    ensures front { take result text.now ≡ front_lines count text.now }
    ensures behind { drop result text.now ≡ behind_lines count text.now }
    ensures short { result ≤ length text.now }
{
    if count == 0 {
        return 0;
    }
    match place_of(text, b'\n') {
        Some(at) => at + 1 + end_of_lines(&text[at + 1..], count - 1),
        None => text.len(),
    }
}
