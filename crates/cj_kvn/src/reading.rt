//! Reading the lines of a key-value file.
ghost use Rattle.std.specs.Prelude.{◌≡◌, ◌+◌, ◌∷◌, ◌^◌, ◌<◌, ◌≤◌, length, drop, All, IfOk};
ghost use Rattle.cj_kvn.specs.Faults.{Gives, Tells};
ghost use Rattle.cj_kvn.specs.Lines.{KindIsWithin, LineIsWithin, form_at, form_of, line_form, lines_at, pair_or_row as the_pair_or_row, reading};
ghost use Rattle.cj_kvn.specs.RawLines.{IsRaw, equals_at};
ghost use Rattle.cj_kvn.specs.Ranges.{IsWithin, text_at};

use crate::blanks::trimmed;
use crate::cursor::LineCursor;
use crate::lines::{KvnCause, KvnFault, Line, LineKind};
use crate::range::Range32;
use crate::raw_line::RawLine;
use crate::text_fault::LineFault;
use crate::words::{is_comment, is_key, mark_of};
use std::alloc::Global;

/// The lines of a file, or the first fault.
pub fn read_lines(alloc: Global, bytes: &[u8]) -> Result<Vec<Line>, KvnFault>
    requires { length bytes.now < 2 ^ 32 }
    ensures exact { Gives (λ v. lines_at bytes.now v.items) result (reading bytes.now) }
    ensures within { IfOk result (λ v. All (LineIsWithin bytes.now) v.items) }
{
    let mut lines = Vec::new(alloc);
    let mut left = LineCursor::new(bytes);
    while let Some(line) = left.next_line()? {
        lines.push(line)?;
    }
    Ok(lines)
}

/// What a line of this number is.
pub fn kind_of(bytes: &[u8], line: RawLine, number: u32) -> Result<LineKind, LineFault<KvnCause>>
    requires { IsRaw bytes.now line }
    ensures exact { Tells (form_at bytes.now) result (line_form number (text_at bytes.now line.text)) }
    ensures within { IfOk result (KindIsWithin bytes.now) }
{
    if is_comment(line.text.text(bytes)) {
        Ok(LineKind::Comment)
    } else if line.printable {
        kind_of_inner(bytes, trimmed(bytes, line.text), line.equals, number)
    } else {
        Err(LineFault {
            line: number,
            cause: KvnCause::NotPrintable,
        })
    }
}

#[tactic(auto, unfolding(crate::specs::Lines::form_of))]
/// What a line is that is no comment, by its part without outer blanks and the place of its first equals sign.
fn kind_of_inner(
    bytes: &[u8],
    inner: Range32,
    equals: Option<u32>,
    number: u32,
) -> Result<LineKind, LineFault<KvnCause>>
    requires within { IsWithin bytes.now inner }
    requires equals { equals ≡ equals_at bytes.now inner }
    ensures exact { Tells (form_at bytes.now) result (form_of number (text_at bytes.now inner)) }
    ensures within { IfOk result (KindIsWithin bytes.now) }
{
    let text = inner.text(bytes);
    if text.is_empty() {
        return Ok(LineKind::Blank);
    }
    match mark_of(text) {
        Some(mark) => Ok(LineKind::Mark(mark)),
        None => pair_or_row(bytes, inner, equals, number),
    }
}

/// A pair where there is an equals sign, and else a row.
fn pair_or_row(
    bytes: &[u8],
    inner: Range32,
    equals: Option<u32>,
    number: u32,
) -> Result<LineKind, LineFault<KvnCause>>
    requires within { IsWithin bytes.now inner }
    requires equals { equals ≡ equals_at bytes.now inner }
    ensures exact { Tells (form_at bytes.now) result (the_pair_or_row number (text_at bytes.now inner)) }
    ensures within { IfOk result (KindIsWithin bytes.now) }
{
    let Some(equals) = equals else {
        return Ok(LineKind::Row { text: inner });
    };
    let key = trimmed(
        bytes,
        Range32 {
            first: inner.first,
            past: equals,
        },
    );
    let value = trimmed(
        bytes,
        Range32 {
            first: equals + 1,
            past: inner.past,
        },
    );
    if is_key(key.text(bytes)) {
        Ok(LineKind::Pair { key, value })
    } else {
        Err(LineFault {
            line: number,
            cause: KvnCause::NoLineForm,
        })
    }
}
