//! Where a line of a file lies, found in one pass.
ghost use Rattle.std.specs.Prelude.{◌≡◌, ◌+◌, ◌∷◌, ◌^◌, ◌<◌, ◌≤◌, drop, false, length, position, take, IfSome, None};
ghost use Rattle.std.specs.Option.{option_map};
ghost use Rattle.std.specs.List.{prefix_len};
ghost use Rattle.std.specs.Str.Lines.{lines as lines_of, strip_carriage_return};
ghost use Rattle.cj_kvn.specs.Lines.{is_equals, is_printable as the_test};
ghost use Rattle.cj_kvn.specs.RawLines.{IsRaw, end_len as the_end_len};
ghost use Rattle.cj_kvn.specs.Ranges.{text_at};

use crate::plain::{plain_len, printable_len};
use crate::range::Range32;
use crate::words::find_byte;

/// A line without its end.
#[derive(Clone, Copy)]
pub struct RawLine {
    /// Where it lies.
    pub text: Range32,
    /// Whether each of its bytes is printable.
    pub printable: bool,
    /// Where its first equals sign stands in the file.
    pub equals: Option<u32>,
}

impl RawLine {
    fn not_printable(text: Range32) -> RawLine
        ensures text { result.text ≡ text }
        ensures printable { result.printable ≡ false }
    {
        RawLine {
            text,
            printable: false,
            equals: None,
        }
    }
}

/// The line that begins at a place, and where the next one begins.
pub fn first_line(bytes: &[u8], at: u32) -> (RawLine, u32)
    requires short { length bytes.now < 2 ^ 32 }
    requires inside { at < length bytes.now }
    ensures lines { lines_of (drop at bytes.now) ≡ text_at bytes.now result.0.text ∷ lines_of (drop result.1 bytes.now) }
    ensures raw { IsRaw bytes.now result.0 }
    ensures later { at < result.1 }
    ensures inside { result.1 ≤ length bytes.now }
{
    let rest = &bytes[at as usize..];
    let (len, equals) = printable_front(rest);
    let Some(end) = end_len(&rest[len..]) else {
        return other_line(bytes, at, len);
    };
    let past = at + len as u32;
    let line = RawLine {
        text: Range32 { first: at, past },
        printable: true,
        equals: placed(at, equals),
    };
    (line, past + end)
}

/// How many printable bytes stand at the front, and where the first equals sign stands among them.
fn printable_front(text: &[u8]) -> (usize, Option<usize>)
    ensures len { result.0 ≡ prefix_len the_test text.now }
    ensures equals { result.1 ≡ position is_equals (take result.0 text.now) }
    ensures short { result.0 ≤ length text.now }
{
    let plain = plain_len(text);
    if plain < text.len() && text[plain] == b'=' {
        (plain + 1 + printable_len(&text[plain + 1..]), Some(plain))
    } else {
        (plain, None)
    }
}

/// How long the end of a line is that stands at the front.
fn end_len(text: &[u8]) -> Option<u32>
    ensures { result ≡ the_end_len text.now }
{
    match text {
        [] => Some(0),
        [b'\n', ..] => Some(1),
        [b'\r', b'\n', ..] => Some(2),
        _ => None,
    }
}

/// A place of a part of the file as one of the file.
fn placed(first: u32, place: Option<usize>) -> Option<u32>
    requires { IfSome place (λ i. first + i < 2 ^ 32) }
    ensures { result ≡ option_map (λ i. first + i) place }
{
    match place {
        None => None,
        Some(place) => Some(first + place as u32),
    }
}

/// The line that begins at a place, where a byte that is not printable stands behind so many others.
fn other_line(bytes: &[u8], at: u32, len: usize) -> (RawLine, u32)
    requires short { length bytes.now < 2 ^ 32 }
    requires inside { at < length bytes.now }
    requires front { len ≡ prefix_len the_test (drop at bytes.now) }
    requires no_end { the_end_len (drop len (drop at bytes.now)) ≡ None }
    ensures lines { lines_of (drop at bytes.now) ≡ text_at bytes.now result.0.text ∷ lines_of (drop result.1 bytes.now) }
    ensures raw { IsRaw bytes.now result.0 }
    ensures later { at < result.1 }
    ensures inside { result.1 ≤ length bytes.now }
{
    let rest = &bytes[at as usize..];
    match find_byte(rest, b'\n') {
        None => {
            let past = bytes.len() as u32;
            (RawLine::not_printable(Range32 { first: at, past }), past)
        }
        Some(len) => {
            let past = at + without_return(&rest[..len]) as u32;
            let line = RawLine::not_printable(Range32 { first: at, past });
            (line, at + len as u32 + 1)
        }
    }
}

/// The length of a line without a carriage return at its end.
fn without_return(line: &[u8]) -> usize
    ensures text { take result line.now ≡ strip_carriage_return line.now }
    ensures short { result ≤ length line.now }
{
    match line {
        [.., b'\r'] => line.len() - 1,
        _ => line.len(),
    }
}
