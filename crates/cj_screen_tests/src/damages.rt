//! Damages of a certificate of real size, the one of a made-up catalogue, a line at a time. What a damage is refused for, and at which
//! line, is told here by what the lines mean.
use crate::catalogues::{files_of, made_by};
use crate::runs::{certificate_of, is_told, with_certificate};
use cj_io::FileBytes;
use std::alloc::{AllocError, Global};
use std::panic::Expect;
use std::sync::Wait;
use std::thread::Threads;

/// Eight objects for half an hour and a tick: 31 slots, of which the last has one tick.
const MAKING: &str = "generate . --seed 8 --objects 8 --minutes 30";

const SCREENING: &str = "screen . --threshold 1000000";

const CHECKING: &str = "check . --threshold 1000000";

/// The ticks of a slot.
const SLOT: i64 = 60_000_000;

/// What is done to a line of a certificate. Its words are counted from 0, the first of which is its kind.
#[derive(Clone, Copy)]
enum Damage {
    LeftOut,
    Doubled,
    /// The next line stands in front of it.
    Exchanged,
    /// A number becomes greater by one.
    Up(usize),
    /// A number becomes less by one.
    Down(usize),
    /// Another word stands in the place of one.
    Word(usize, &'static [u8]),
}

/// What a check is to tell.
#[derive(Clone, Copy)]
enum Expected {
    /// What the lines say is still so.
    Accepted,
    /// It is refused at the line.
    Here(&'static str),
    /// It is refused at the line behind it.
    Behind(&'static str),
}

/// Some lines of a certificate.
#[derive(Clone, Copy)]
enum Lines {
    /// The line with this number.
    Numbered(usize),
    /// Those of shells, boxes or cells, but for the last.
    Shells,
    Boxes,
    Cells,
    /// The last one that begins so.
    Last(&'static [u8]),
    /// Boxes of more than one tick.
    WideBoxes,
    /// Cells of more than one tick.
    LongCells,
    FarCells,
    NearCells,
    UndecidedCells,
    /// Cells that end with their slot.
    LastCells,
    /// Cells behind which the next one of the slot has the same kind.
    InnerCells,
}

/// A row of the table: at which lines, what is done to them, and what is told.
type Row = (Lines, Damage, Expected);

const HEADER: [Row; 15] = [
    (
        Lines::Numbered(1),
        Damage::Word(1, b"3"),
        Expected::Here("Text Form"),
    ),
    (Lines::Numbered(2), Damage::Up(1), Expected::Here("Header")),
    (
        Lines::Numbered(2),
        Damage::Down(1),
        Expected::Here("Header"),
    ),
    (Lines::Numbered(2), Damage::Up(2), Expected::Here("Header")),
    (
        Lines::Numbered(2),
        Damage::Down(2),
        Expected::Here("Header"),
    ),
    (
        Lines::Numbered(2),
        Damage::LeftOut,
        Expected::Here("Text Form"),
    ),
    (Lines::Numbered(3), Damage::Up(1), Expected::Here("Header")),
    (
        Lines::Numbered(3),
        Damage::Down(1),
        Expected::Here("Header"),
    ),
    (
        Lines::Numbered(3),
        Damage::Word(1, b"0"),
        Expected::Here("Text Range"),
    ),
    (
        Lines::Numbered(3),
        Damage::Doubled,
        Expected::Behind("Text Form"),
    ),
    (Lines::Numbered(4), Damage::Up(1), Expected::Here("Header")),
    (
        Lines::Numbered(4),
        Damage::Down(1),
        Expected::Here("Header"),
    ),
    (
        Lines::Numbered(4),
        Damage::Word(1, b"2001"),
        Expected::Here("Text Range"),
    ),
    (
        Lines::Numbered(4),
        Damage::Word(1, b"012"),
        Expected::Here("Text Form"),
    ),
    (
        Lines::Numbered(4),
        Damage::Exchanged,
        Expected::Here("Text Form"),
    ),
];

/// A shell that is written has the greatest inner and the least outer radius that the hulls show. No two shells are within a nanometre of
/// the threshold.
const SHELLS: [Row; 11] = [
    (Lines::Shells, Damage::LeftOut, Expected::Here("ShellOf")),
    (Lines::Shells, Damage::Doubled, Expected::Behind("ShellOf")),
    (Lines::Shells, Damage::Exchanged, Expected::Here("ShellOf")),
    (Lines::Shells, Damage::Up(1), Expected::Here("ShellOf")),
    (Lines::Shells, Damage::Up(2), Expected::Here("ShellOf")),
    (Lines::Shells, Damage::Down(3), Expected::Here("ShellOf")),
    (Lines::Shells, Damage::Down(2), Expected::Accepted),
    (Lines::Shells, Damage::Up(3), Expected::Accepted),
    (
        Lines::Shells,
        Damage::Word(2, b"NONE"),
        Expected::Here("Text Form"),
    ),
    (
        Lines::Shells,
        Damage::Word(3, b"1"),
        Expected::Here("Text Range"),
    ),
    (
        Lines::Shells,
        Damage::Word(0, b"shell"),
        Expected::Here("Text Form"),
    ),
];

/// A box that is written is the least one round the hulls. No two boxes are within a nanometre of the threshold.
const BOXES: [Row; 20] = [
    (Lines::Boxes, Damage::LeftOut, Expected::Here("BoxOf")),
    (Lines::Boxes, Damage::Doubled, Expected::Behind("BoxOf")),
    (Lines::Boxes, Damage::Exchanged, Expected::Here("BoxOf")),
    (Lines::Boxes, Damage::Up(1), Expected::Here("BoxOf")),
    (Lines::Boxes, Damage::Up(2), Expected::Here("BoxOf")),
    (Lines::WideBoxes, Damage::Up(3), Expected::Here("BoxOf")),
    (Lines::WideBoxes, Damage::Down(4), Expected::Here("BoxOf")),
    (Lines::WideBoxes, Damage::Up(5), Expected::Here("BoxOf")),
    (Lines::WideBoxes, Damage::Down(6), Expected::Here("BoxOf")),
    (Lines::WideBoxes, Damage::Up(7), Expected::Here("BoxOf")),
    (Lines::WideBoxes, Damage::Down(8), Expected::Here("BoxOf")),
    (Lines::Boxes, Damage::Down(3), Expected::Accepted),
    (Lines::Boxes, Damage::Up(4), Expected::Accepted),
    (Lines::Boxes, Damage::Down(5), Expected::Accepted),
    (Lines::Boxes, Damage::Up(6), Expected::Accepted),
    (Lines::Boxes, Damage::Down(7), Expected::Accepted),
    (Lines::Boxes, Damage::Up(8), Expected::Accepted),
    (
        Lines::Boxes,
        Damage::Word(3, b"7O00"),
        Expected::Here("Text Form"),
    ),
    (
        Lines::Boxes,
        Damage::Word(8, b"9223372036854775808"),
        Expected::Here("Text Range"),
    ),
    (
        Lines::Boxes,
        Damage::Word(2, b""),
        Expected::Here("Text Form"),
    ),
];

/// A tick earlier or later changes the distance of two objects by less than two centimetres, and by more than two millimetres. A cell is
/// written as undecided only where its hulls show neither of the other kinds.
const CELLS: [Row; 20] = [
    (Lines::Cells, Damage::LeftOut, Expected::Here("Untiled")),
    (Lines::Cells, Damage::Doubled, Expected::Behind("Stranger")),
    (Lines::Cells, Damage::Exchanged, Expected::Here("Untiled")),
    (Lines::Cells, Damage::Up(2), Expected::Here("Untiled")),
    (Lines::Cells, Damage::Down(3), Expected::Here("Stranger")),
    (Lines::LongCells, Damage::Up(3), Expected::Here("Untiled")),
    (
        Lines::LongCells,
        Damage::Down(4),
        Expected::Behind("Untiled"),
    ),
    (Lines::LastCells, Damage::Up(4), Expected::Here("Stranger")),
    (
        Lines::InnerCells,
        Damage::Up(4),
        Expected::Behind("Stranger"),
    ),
    (
        Lines::FarCells,
        Damage::Word(5, b"N"),
        Expected::Here("NotNear"),
    ),
    (
        Lines::FarCells,
        Damage::Word(5, b"U"),
        Expected::Here("NotBand"),
    ),
    (
        Lines::NearCells,
        Damage::Word(5, b"F"),
        Expected::Here("NotFar"),
    ),
    (
        Lines::NearCells,
        Damage::Word(5, b"U"),
        Expected::Here("NotBand"),
    ),
    (
        Lines::UndecidedCells,
        Damage::Word(5, b"F"),
        Expected::Here("NotFar"),
    ),
    (
        Lines::UndecidedCells,
        Damage::Word(5, b"N"),
        Expected::Here("NotNear"),
    ),
    (
        Lines::Cells,
        Damage::Word(1, b"0"),
        Expected::Here("Text Range"),
    ),
    (
        Lines::Cells,
        Damage::Word(3, b"-1"),
        Expected::Here("Text Range"),
    ),
    (
        Lines::Cells,
        Damage::Word(4, b"4102444800000000"),
        Expected::Here("Text Range"),
    ),
    (
        Lines::Cells,
        Damage::Word(5, b"X"),
        Expected::Here("Text Form"),
    ),
    (
        Lines::Cells,
        Damage::Word(5, b"N "),
        Expected::Here("Text Form"),
    ),
];

/// The last lines of each kind, and the line behind all.
const ENDS: [Row; 11] = [
    (
        Lines::Last(b"SHELL "),
        Damage::LeftOut,
        Expected::Here("ShellOf"),
    ),
    (
        Lines::Last(b"SHELL "),
        Damage::Doubled,
        Expected::Behind("ShellOf"),
    ),
    (
        Lines::Last(b"SHELL "),
        Damage::Exchanged,
        Expected::Behind("Text Form"),
    ),
    (
        Lines::Last(b"BOX "),
        Damage::LeftOut,
        Expected::Here("BoxOf"),
    ),
    (
        Lines::Last(b"BOX "),
        Damage::Doubled,
        Expected::Behind("BoxOf"),
    ),
    (
        Lines::Last(b"BOX "),
        Damage::Exchanged,
        Expected::Behind("Text Form"),
    ),
    (
        Lines::Last(b"CELL "),
        Damage::LeftOut,
        Expected::Here("Untiled"),
    ),
    (
        Lines::Last(b"CELL "),
        Damage::Doubled,
        Expected::Behind("Stranger"),
    ),
    (
        Lines::Last(b"CELL "),
        Damage::Exchanged,
        Expected::Behind("Text End"),
    ),
    (
        Lines::Last(b"END"),
        Damage::LeftOut,
        Expected::Here("Text End"),
    ),
    (
        Lines::Last(b"END"),
        Damage::Doubled,
        Expected::Behind("Text End"),
    ),
];

/// How many lines a row is tried at, at most.
const TRIED: usize = 4;

/// A number, as far as it is one.
fn number(word: &[u8]) -> i64 {
    let mut number: i64 = 0;
    for byte in word {
        if byte.is_ascii_digit() {
            number = number
                .saturating_mul(10)
                .saturating_add(i64::from(byte.saturating_sub(b'0')));
        }
    }
    if word.starts_with(b"-") {
        0_i64.saturating_sub(number)
    } else {
        number
    }
}

/// A word of a line, or no bytes.
fn word_of(line: &[u8], place: usize) -> &[u8] {
    for (number, word) in line.split(|byte| *byte == b' ').enumerate() {
        if number == place {
            return word;
        }
    }
    b""
}

/// A line of a certificate, or no bytes.
fn line_at<'t>(lines: &[&'t [u8]], place: usize) -> &'t [u8] {
    match lines.get(place) {
        Some(line) => *line,
        None => b"",
    }
}

/// Whether two lines begin with the same words.
fn share_words(line: &[u8], other: &[u8], words: usize) -> bool {
    (0..words).all(|place| word_of(line, place) == word_of(other, place))
}

/// Whether a cell ends with its slot.
fn ends_slot(lines: &[&[u8]], line: &[u8]) -> bool {
    let first = number(word_of(line_at(lines, 1), 1));
    let behind = number(word_of(line, 4)).saturating_add(1);
    behind.saturating_sub(first) % SLOT == 0
}

/// Whether a line is one of some. Those of shells, boxes and cells stand in front of one of the same kind.
fn is_of(lines: &[&[u8]], place: usize, some: Lines) -> bool {
    let line = line_at(lines, place);
    let next = line_at(lines, place.saturating_add(1));
    let is_cell = line.starts_with(b"CELL ") && next.starts_with(b"CELL ");
    match some {
        Lines::Numbered(number) => place.saturating_add(1) == number,
        Lines::Shells => line.starts_with(b"SHELL ") && next.starts_with(b"SHELL "),
        Lines::Boxes => line.starts_with(b"BOX ") && next.starts_with(b"BOX "),
        Lines::Cells => is_cell,
        Lines::Last(front) => line.starts_with(front) && !next.starts_with(front),
        Lines::WideBoxes => line.starts_with(b"BOX ") && word_of(line, 3) != word_of(line, 4),
        Lines::LongCells => is_cell && word_of(line, 3) != word_of(line, 4),
        Lines::FarCells => is_cell && line.ends_with(b" F"),
        Lines::NearCells => is_cell && line.ends_with(b" N"),
        Lines::UndecidedCells => is_cell && line.ends_with(b" U"),
        Lines::LastCells => is_cell && ends_slot(lines, line),
        Lines::InnerCells => {
            is_cell
                && !ends_slot(lines, line)
                && share_words(line, next, 3)
                && word_of(line, 5) == word_of(next, 5)
        }
    }
}

/// The places of some lines, spread over the certificate.
fn places_of(alloc: Global, lines: &[&[u8]], some: Lines) -> Result<Vec<usize>, AllocError> {
    let mut all = Vec::new(alloc);
    for place in 0..lines.len() {
        if is_of(lines, place, some) {
            all.push(place)?;
        }
    }
    let step = all.len() / TRIED + 1;
    let mut places = Vec::new(alloc);
    for (count, place) in all.iter().enumerate() {
        if count % step == 0 {
            places.push(*place)?;
        }
    }
    Ok(places)
}

/// Appends a word that is changed by one.
fn push_number(
    alloc: Global,
    text: &mut Vec<u8>,
    word: &[u8],
    change: i64,
) -> Result<(), AllocError> {
    let number = number(word).saturating_add(change);
    let changed = format!(in alloc; "{number}")?;
    text.extend_from_slice(changed.as_bytes())?;
    Ok(())
}

/// Appends a line in which a word is changed.
fn push_changed(
    alloc: Global,
    text: &mut Vec<u8>,
    line: &[u8],
    damage: Damage,
) -> Result<(), AllocError> {
    for (place, word) in line.split(|byte| *byte == b' ').enumerate() {
        if place != 0 {
            text.push(b' ')?;
        }
        match damage {
            Damage::Up(number) if number == place => push_number(alloc, text, word, 1)?,
            Damage::Down(number) if number == place => push_number(alloc, text, word, -1)?,
            Damage::Word(number, other) if number == place => text.extend_from_slice(other)?,
            _ => text.extend_from_slice(word)?,
        }
    }
    text.push(b'\n')?;
    Ok(())
}

fn push_line(text: &mut Vec<u8>, line: &[u8]) -> Result<(), AllocError> {
    text.extend_from_slice(line)?;
    text.push(b'\n')?;
    Ok(())
}

/// Appends what stands in the place of a line that is damaged.
fn push_damaged(
    alloc: Global,
    text: &mut Vec<u8>,
    lines: &[&[u8]],
    place: usize,
    damage: Damage,
) -> Result<(), AllocError> {
    let line = line_at(lines, place);
    match damage {
        Damage::LeftOut => Ok(()),
        Damage::Doubled => {
            push_line(text, line)?;
            push_line(text, line)
        }
        Damage::Exchanged => {
            push_line(text, line_at(lines, place.saturating_add(1)))?;
            push_line(text, line)
        }
        _ => push_changed(alloc, text, line, damage),
    }
}

/// The text of a certificate with a line that is damaged.
fn damaged(
    alloc: Global,
    lines: &[&[u8]],
    place: usize,
    damage: Damage,
) -> Result<Vec<u8>, AllocError> {
    let moved = matches!(damage, Damage::Exchanged);
    let mut text = Vec::new(alloc);
    for (at, line) in lines.iter().enumerate() {
        if at == place {
            push_damaged(alloc, &mut text, lines, place, damage)?;
        } else if !(moved && at == place.saturating_add(1)) {
            push_line(&mut text, line)?;
        }
    }
    Ok(text)
}

/// What is to be told of a damage of the line at a place.
fn wanted(alloc: Global, place: usize, told: Expected) -> Result<String, AllocError> {
    let here = place.saturating_add(1);
    let behind = here.saturating_add(1);
    match told {
        Expected::Accepted => format!(in alloc; "ACCEPTED\n"),
        Expected::Here(cause) => format!(in alloc; "conj: not accepted: line {here}: {cause}\n"),
        Expected::Behind(cause) => format!(in alloc;
            "conj: not accepted: line {behind}: {cause}\n"
        ),
    }
}

/// Whether that is told of a damage of the line at a place.
fn is_wanted<R: Threads + Wait + Sync>(
    rt: &R,
    alloc: Global,
    catalogue: &[FileBytes],
    lines: &[&[u8]],
    place: usize,
    row: &Row,
) -> Result<bool, AllocError> {
    let (_, damage, expected) = *row;
    let text = damaged(alloc, lines, place, damage)?;
    let files = with_certificate(alloc, files_of(alloc, catalogue)?, &text)?;
    let wanted = wanted(alloc, place, expected)?;
    is_told(rt, alloc, CHECKING, files, wanted.as_bytes())
}

/// The number of the first of these lines of whose damage something else is told.
fn first_other_line<R: Threads + Wait + Sync>(
    rt: &R,
    alloc: Global,
    catalogue: &[FileBytes],
    lines: &[&[u8]],
    places: &[usize],
    row: &Row,
) -> Result<Option<usize>, AllocError> {
    for place in places {
        if !is_wanted(rt, alloc, catalogue, lines, *place, row)? {
            return Ok(Some(place.saturating_add(1)));
        }
    }
    Ok(None)
}

/// What came of a row: at how many lines its damage was tried, or at which line something else was told.
#[derive(Clone, Copy)]
enum Tried {
    At(usize),
    Other(usize),
}

/// Tries a damage at some lines.
fn try_row<R: Threads + Wait + Sync>(
    rt: &R,
    alloc: Global,
    catalogue: &[FileBytes],
    lines: &[&[u8]],
    row: &Row,
) -> Result<Tried, AllocError> {
    let places = places_of(alloc, lines, row.0)?;
    Ok(
        match first_other_line(rt, alloc, catalogue, lines, &places, row)? {
            Some(line) => Tried::Other(line),
            None => Tried::At(places.len()),
        },
    )
}

/// The row and the number of the line of the first damage of which something else is told; a row that no line is of, with 0; behind all
/// rows, where fewer damages were tried than these, their number.
fn first_other_row<R: Threads + Wait + Sync>(
    rt: &R,
    alloc: Global,
    catalogue: &[FileBytes],
    lines: &[&[u8]],
    table: &[Row],
    least: usize,
) -> Result<Option<(usize, usize)>, AllocError> {
    let mut tried: usize = 0;
    for (number, row) in table.iter().enumerate() {
        match try_row(rt, alloc, catalogue, lines, row)? {
            Tried::Other(line) => return Ok(Some((number, line))),
            Tried::At(0) => return Ok(Some((number, 0))),
            Tried::At(places) => tried = tried.saturating_add(places),
        }
    }
    Ok(if tried < least {
        Some((table.len(), tried))
    } else {
        None
    })
}

/// The lines of a text that are not empty.
fn lines_of(alloc: Global, text: &[u8]) -> Result<Vec<&[u8]>, AllocError> {
    let mut lines = Vec::new(alloc);
    for line in text.split(|byte| *byte == b'\n') {
        if !line.is_empty() {
            lines.push(line)?;
        }
    }
    Ok(lines)
}

/// The first damage of a table of which something else is told, where at least so many are to be tried.
fn first_other<R: Threads + Wait + Sync>(
    rt: &R,
    alloc: Global,
    table: &[Row],
    least: usize,
) -> Result<Option<(usize, usize)>, AllocError> {
    let catalogue = made_by(rt, alloc, MAKING)?;
    let text = certificate_of(rt, alloc, SCREENING, files_of(alloc, &catalogue)?)?;
    let lines = lines_of(alloc, &text)?;
    first_other_row(rt, alloc, &catalogue, &lines, table, least)
}

#[test]
fn headers_of_other_cases_are_refused(rt: HostRuntime) {
    let other = first_other(&rt, rt.alloc(), HEADER.as_slice(), 15).expect(&rt, "no fault");
    assert_eq!(rt; other, None);
}

#[test]
fn shells_are_those_of_the_hulls(rt: HostRuntime) {
    let other = first_other(&rt, rt.alloc(), SHELLS.as_slice(), 44).expect(&rt, "no fault");
    assert_eq!(rt; other, None);
}

#[test]
fn boxes_hold_the_hulls(rt: HostRuntime) {
    let other = first_other(&rt, rt.alloc(), BOXES.as_slice(), 80).expect(&rt, "no fault");
    assert_eq!(rt; other, None);
}

#[test]
fn cells_tile_the_roots_and_show_their_kinds(rt: HostRuntime) {
    let other = first_other(&rt, rt.alloc(), CELLS.as_slice(), 76).expect(&rt, "no fault");
    assert_eq!(rt; other, None);
}

#[test]
fn each_kind_of_line_is_whole(rt: HostRuntime) {
    let other = first_other(&rt, rt.alloc(), ENDS.as_slice(), 11).expect(&rt, "no fault");
    assert_eq!(rt; other, None);
}
