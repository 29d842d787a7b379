//! What a line of a certificate says, by its own text.
ghost use Rattle.std.specs.Prelude.{◌≡◌, ◌≢◌, ◌<◌, [], ◌∷◌, IfNone, IfSome, Some, length, map, take};
ghost use Rattle.cj_cert_text.specs.Lines as spec;
ghost use Rattle.cj_cert_text.specs.Numbers as spoken;
ghost use Rattle.cj_cert_text.specs.Readers.{HasNoNumber, LeadsTo, Tells, capped, plain_line, words_in};

use crate::cert_line::CertLine;
use crate::number::{object, reach, read_number, slot, tick, within};
use crate::rank::Rank;
use crate::words::Words;
use arrayvec::ArrayVec;
use cj_base::Window;
use cj_case::{AxisBox, Kind, Pair, Shell};
use cj_cert::{BoxLine, CellLine, ShellLine, SizeOfLine};
use cj_formats::{CertCause, CertFormat, CertVersion};
use cj_track::Vec3;

/// The greatest threshold in nm.
const MAX_THRESHOLD: u64 = 10_000_000_000_000_000;

/// The greatest size in nm.
const MAX_SIZE: u64 = 1_000_000_000_000;

/// The greatest radius of a shell in nm.
const MAX_RADIUS: u64 = 1_000_000_000_000_000_000;

/// One more than the numbers that a line may have.
const ROOM: usize = 10;

/// What a line of this kind says, by the words behind its first.
///
/// # Errors
///
/// `Form` where the line has not the form of its kind in this format, else `Range` where a number is out of its range.
pub(crate) fn said(format: CertFormat, rank: Rank, words: Words<'_>) -> Result<CertLine, CertCause>
    ensures { Tells plain_line result (spec.said format rank (words_in words.entry.rest)) }
{
    let (numbers, others) = numbers_in(words);
    said_by(format, rank, numbers.as_slice(), others)
}

/// What a line says by its numbers and the words behind them.
fn said_by(
    format: CertFormat,
    rank: Rank,
    numbers: &[i128],
    others: Words<'_>,
) -> Result<CertLine, CertCause>
    ensures { Tells plain_line result (spec.said_by format rank numbers.now (words_in others.entry.rest)) }
{
    if others.is_empty() {
        said_by_numbers(format, rank, numbers)
    } else {
        match rank {
            Rank::Shell => no_shell(format, numbers, others),
            Rank::Cell => cell(format, numbers, others),
            _ => Err(CertCause::Form),
        }
    }
}

/// What a line of numbers alone says.
fn said_by_numbers(format: CertFormat, rank: Rank, numbers: &[i128]) -> Result<CertLine, CertCause>
    ensures { Tells plain_line result (spec.said_by format rank numbers.now []) }
{
    match rank {
        Rank::Heading => heading(format, numbers),
        Rank::Window => window(numbers),
        Rank::Threshold => threshold(numbers),
        Rank::Objects => objects(format, numbers),
        Rank::Size => size(format, numbers),
        Rank::Primary => primary(format, numbers),
        Rank::Shell => shell(format, numbers),
        Rank::Box => area(format, numbers),
        Rank::Cell => Err(CertCause::Form),
        Rank::End => end(numbers),
    }
}

/// The numbers in front, up to one more than a line may have, and the words behind them.
fn numbers_in(words: Words<'_>) -> (ArrayVec<i128, ROOM>, Words<'_>)
    ensures numbers { result.0.items ≡ take 10 (map capped (spoken.numbers_in (words_in words.entry.rest))) }
    ensures others { length (spoken.numbers_in (words_in words.entry.rest)) < 10 → words_in result.1.rest ≡ spoken.others_in (words_in words.entry.rest) }
{
    let mut numbers = ArrayVec::new();
    let mut rest = words;
    while !numbers.is_full() {
        let Some((number, behind)) = first_number(rest) else {
            return (numbers, rest);
        };
        numbers.push(number);
        rest = behind;
    }
    (numbers, rest)
}

/// The number that the first word says, and the words behind it.
fn first_number(words: Words<'_>) -> Option<(i128, Words<'_>)>
    ensures none { IfNone result (HasNoNumber (words_in words.entry.rest)) }
    ensures some { IfSome result (λ first. LeadsTo (words_in words.entry.rest) first.0 (words_in first.1.rest)) }
{
    let (word, behind) = words.first()?;
    Some((read_number(word)?, behind))
}

fn heading(format: CertFormat, numbers: &[i128]) -> Result<CertLine, CertCause>
    ensures { Tells plain_line result (spec.heading format numbers.now) }
{
    match numbers {
        [number] if *number == i128::from(format.number()) => Ok(CertLine::Heading),
        _ => Err(CertCause::Form),
    }
}

fn window(numbers: &[i128]) -> Result<CertLine, CertCause>
    ensures { Tells plain_line result (spec.window numbers.now) }
{
    let [first, last] = numbers else {
        return Err(CertCause::Form);
    };
    let first = tick(*first)?;
    let last = tick(*last)?;
    Ok(CertLine::Window(Window { first, last }))
}

fn threshold(numbers: &[i128]) -> Result<CertLine, CertCause>
    ensures { Tells plain_line result (spec.threshold numbers.now) }
{
    let [threshold] = numbers else {
        return Err(CertCause::Form);
    };
    Ok(CertLine::Threshold(within(*threshold, 1, MAX_THRESHOLD)?))
}

fn objects(format: CertFormat, numbers: &[i128]) -> Result<CertLine, CertCause>
    ensures { Tells plain_line result (spec.objects format numbers.now) }
{
    let [count] = numbers else {
        return Err(CertCause::Form);
    };
    let count = within(*count, 0, u64::from(format.most_objects()))?;
    Ok(CertLine::Objects(count as u32))
}

/// The size of an object, which version 1 does not tell.
fn size(format: CertFormat, numbers: &[i128]) -> Result<CertLine, CertCause>
    ensures { Tells plain_line result (spec.size format numbers.now) }
{
    match format {
        CertFormat::Full(CertVersion::One) => Err(CertCause::Form),
        CertFormat::Full(CertVersion::Two) => size_of(format, numbers),
        CertFormat::Brief => size_of(format, numbers),
    }
}

fn size_of(format: CertFormat, numbers: &[i128]) -> Result<CertLine, CertCause>
    ensures { Tells plain_line result (spec.size_of format numbers.now) }
{
    let [number, size] = numbers else {
        return Err(CertCause::Form);
    };
    let object = object(format, *number)?;
    let size = within(*size, 0, MAX_SIZE)?;
    Ok(CertLine::Size(SizeOfLine { object, size }))
}

/// A primary, which is told in brief alone.
fn primary(format: CertFormat, numbers: &[i128]) -> Result<CertLine, CertCause>
    ensures { Tells plain_line result (spec.primary format numbers.now) }
{
    match format {
        CertFormat::Full(_) => Err(CertCause::Form),
        CertFormat::Brief => primary_of(numbers),
    }
}

fn primary_of(numbers: &[i128]) -> Result<CertLine, CertCause>
    ensures { Tells plain_line result (spec.primary_of numbers.now) }
{
    let [number] = numbers else {
        return Err(CertCause::Form);
    };
    Ok(CertLine::Primary(object(CertFormat::Brief, *number)?))
}

fn shell(format: CertFormat, numbers: &[i128]) -> Result<CertLine, CertCause>
    ensures { Tells plain_line result (spec.shell format numbers.now) }
{
    let [number, lo, hi] = numbers else {
        return Err(CertCause::Form);
    };
    let object = object(format, *number)?;
    let lo = within(*lo, 0, MAX_RADIUS)?;
    let hi = within(*hi, lo, MAX_RADIUS)?;
    Ok(CertLine::Shell(ShellLine {
        object,
        shell: Some(Shell { lo, hi }),
    }))
}

fn no_shell(format: CertFormat, numbers: &[i128], others: Words<'_>) -> Result<CertLine, CertCause>
    ensures { Tells plain_line result (spec.no_shell format numbers.now (words_in others.entry.rest)) }
{
    let [number] = numbers else {
        return Err(CertCause::Form);
    };
    if only(others) != Some(b"NONE".as_slice()) {
        return Err(CertCause::Form);
    }
    let object = object(format, *number)?;
    Ok(CertLine::Shell(ShellLine {
        object,
        shell: None,
    }))
}

/// The word that is left, where there is one alone.
fn only(words: Words<'_>) -> Option<&[u8]>
    ensures none { IfNone result (length (words_in words.entry.rest) ≢ 1) }
    ensures some { IfSome result (λ word. words_in words.entry.rest ≡ word.now ∷ []) }
{
    let (word, behind) = words.first()?;
    if behind.is_empty() { Some(word) } else { None }
}

/// A box, in version 1 of one slot, in version 2 of those from the first to the last.
fn area(format: CertFormat, numbers: &[i128]) -> Result<CertLine, CertCause>
    ensures { Tells plain_line result (spec.box format numbers.now) }
{
    match format {
        CertFormat::Full(CertVersion::One) => area_in_slot(numbers),
        CertFormat::Full(CertVersion::Two) => area_in_slots(numbers),
        CertFormat::Brief => Err(CertCause::Form),
    }
}

fn area_in_slot(numbers: &[i128]) -> Result<CertLine, CertCause>
    ensures { Tells plain_line result (spec.box_1 numbers.now) }
{
    let [number, slot, ends @ ..] = numbers else {
        return Err(CertCause::Form);
    };
    area_of(
        CertFormat::Full(CertVersion::One),
        *number,
        *slot,
        *slot,
        ends,
    )
}

fn area_in_slots(numbers: &[i128]) -> Result<CertLine, CertCause>
    ensures { Tells plain_line result (spec.box_2 numbers.now) }
{
    let [number, first, last, ends @ ..] = numbers else {
        return Err(CertCause::Form);
    };
    area_of(
        CertFormat::Full(CertVersion::Two),
        *number,
        *first,
        *last,
        ends,
    )
}

fn area_of(
    format: CertFormat,
    number: i128,
    first: i128,
    last: i128,
    ends: &[i128],
) -> Result<CertLine, CertCause>
    ensures { Tells plain_line result (spec.box_of format number first last ends.now) }
{
    let [x_least, x_most, y_least, y_most, z_least, z_most] = ends else {
        return Err(CertCause::Form);
    };
    let object = object(format, number)?;
    let first = slot(first)?;
    let last = within(last, u64::from(first), u64::from(u32::MAX))? as u32;
    let (x_least, x_most) = reach(*x_least, *x_most)?;
    let (y_least, y_most) = reach(*y_least, *y_most)?;
    let (z_least, z_most) = reach(*z_least, *z_most)?;
    Ok(CertLine::Box(BoxLine {
        object,
        first,
        last,
        area: AxisBox {
            least: Vec3 {
                x: x_least,
                y: y_least,
                z: z_least,
            },
            most: Vec3 {
                x: x_most,
                y: y_most,
                z: z_most,
            },
        },
    }))
}

fn cell(format: CertFormat, numbers: &[i128], others: Words<'_>) -> Result<CertLine, CertCause>
    ensures { Tells plain_line result (spec.cell format numbers.now (spec.kind_of (words_in others.entry.rest))) }
{
    let [a, b, first, last] = numbers else {
        return Err(CertCause::Form);
    };
    let Some(kind) = kind_of(others) else {
        return Err(CertCause::Form);
    };
    cell_of(format, *a, *b, *first, *last, kind)
}

fn cell_of(
    format: CertFormat,
    a: i128,
    b: i128,
    first: i128,
    last: i128,
    kind: Kind,
) -> Result<CertLine, CertCause>
    ensures { Tells plain_line result (spec.cell_of format a b first last (Some kind)) }
{
    let a = object(format, a)?;
    let b = object(format, b)?;
    let first = tick(first)?;
    let last = tick(last)?;
    if b <= a {
        return Err(CertCause::Range);
    }
    if last.micros < first.micros {
        return Err(CertCause::Range);
    }
    Ok(CertLine::Cell(CellLine {
        pair: Pair { a, b },
        first,
        last,
        kind,
    }))
}

/// The kind that the only word names.
fn kind_of(words: Words<'_>) -> Option<Kind>
    ensures { result ≡ spec.kind_of (words_in words.entry.rest) }
{
    match only(words)? {
        [b'F'] => Some(Kind::Far),
        [b'N'] => Some(Kind::Near),
        [b'U'] => Some(Kind::Undecided),
        _ => None,
    }
}

fn end(numbers: &[i128]) -> Result<CertLine, CertCause>
    ensures { Tells plain_line result (spec.end numbers.now) }
{
    if numbers.is_empty() {
        Ok(CertLine::End)
    } else {
        Err(CertCause::Form)
    }
}
