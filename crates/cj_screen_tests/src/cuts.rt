//! Certificates that end early, or have a line too few or too many.
use crate::checks::{Change, LINES, is_told};
use std::alloc::{AllocError, Global};
use std::panic::Expect;
use std::string::String;
use std::sync::Wait;
use std::thread::Threads;

/// How many bytes of a line are enough, where a text ends in it.
#[derive(Clone, Copy)]
struct Enough {
    /// So many have the form of a line; but its last number is out of its range, as long as they are fewer than the next.
    form: usize,
    /// So many are a line, whose last number may want digits.
    line: usize,
}

/// What is enough of each line of the certificate.
const ENOUGH: [Enough; 13] = [
    Enough { form: 11, line: 11 },
    // The last tick: its first 14 digits are a tick before 1972, and its first 15 one behind that.
    Enough { form: 25, line: 39 },
    // The first digit of the threshold is a threshold too.
    Enough { form: 11, line: 11 },
    Enough { form: 9, line: 9 },
    // The outer radius of a shell equals the inner one, and is less as long as it wants a digit.
    Enough { form: 26, line: 41 },
    Enough { form: 26, line: 41 },
    // A box ends in a number of one digit, and a cell in its kind.
    Enough { form: 49, line: 49 },
    Enough { form: 49, line: 49 },
    Enough { form: 49, line: 49 },
    Enough { form: 49, line: 49 },
    Enough { form: 44, line: 44 },
    Enough { form: 44, line: 44 },
    Enough { form: 3, line: 3 },
];

/// What is told of a text that ends in this line of the certificate, behind so many of its bytes.
fn due(alloc: Global, number: usize, bytes: usize, enough: Enough) -> Result<String, AllocError> {
    let (place, cause) = if bytes == 0 {
        (number, "End")
    } else if bytes < enough.form {
        (number, "Form")
    } else if bytes < enough.line {
        (number, "Range")
    } else {
        (number.saturating_add(1), "End")
    };
    format!(in alloc; "conj: not accepted: line {place}: Text {cause}\n")
}

/// Whether that is told of such a text.
fn is_due<R: Threads + Wait + Sync>(
    rt: &R,
    alloc: Global,
    number: usize,
    bytes: usize,
    enough: Enough,
) -> Result<bool, AllocError> {
    let due = due(alloc, number, bytes, enough)?;
    let cut = ("screen.cert", Change::Cut(number, bytes));
    is_told(rt, alloc, "check .", &[cut], due.as_bytes())
}

/// How many bytes are left of this line in the first text that ends in it and of which something else is told.
fn first_other_cut<R: Threads + Wait + Sync>(
    rt: &R,
    alloc: Global,
    number: usize,
    line: &[u8],
    enough: Enough,
) -> Result<Option<usize>, AllocError> {
    for bytes in 0..line.len() + 1 {
        if !is_due(rt, alloc, number, bytes, enough)? {
            return Ok(Some(bytes));
        }
    }
    Ok(None)
}

/// The same of so many lines behind these: the first number of a line, and how many of its bytes.
fn first_other_cut_of<R: Threads + Wait + Sync>(
    rt: &R,
    alloc: Global,
    behind: usize,
    count: usize,
) -> Result<Option<(usize, usize)>, AllocError> {
    let lines = LINES.iter().zip(ENOUGH).enumerate();
    for (place, (line, enough)) in lines.skip(behind).take(count) {
        if let Some(bytes) = first_other_cut(rt, alloc, place + 1, line, enough)? {
            return Ok(Some((place + 1, bytes)));
        }
    }
    Ok(None)
}

#[test]
fn no_front_is_accepted_that_ends_in_the_head(rt: HostRuntime) {
    assert_eq!(rt;
        first_other_cut_of(&rt, rt.alloc(), 0, 4).expect(&rt, "no fault"),
        None
    );
}

#[test]
fn no_front_is_accepted_that_ends_in_the_shells(rt: HostRuntime) {
    assert_eq!(rt;
        first_other_cut_of(&rt, rt.alloc(), 4, 2).expect(&rt, "no fault"),
        None
    );
}

#[test]
fn no_front_is_accepted_that_ends_in_the_boxes(rt: HostRuntime) {
    assert_eq!(rt;
        first_other_cut_of(&rt, rt.alloc(), 6, 4).expect(&rt, "no fault"),
        None
    );
}

#[test]
fn no_front_is_accepted_that_ends_in_the_cells_or_the_last_line(rt: HostRuntime) {
    assert_eq!(rt;
        first_other_cut_of(&rt, rt.alloc(), 10, 3).expect(&rt, "no fault"),
        None
    );
}

/// What is told where a line is left out, and where it stands twice: for each line of the certificate.
const LEFT_OUT_AND_TWICE: [(&[u8], &[u8]); 13] = [
    (
        b"conj: not accepted: line 1: Text Form\n",
        b"conj: not accepted: line 2: Text Form\n",
    ),
    (
        b"conj: not accepted: line 2: Text Form\n",
        b"conj: not accepted: line 3: Text Form\n",
    ),
    (
        b"conj: not accepted: line 3: Text Form\n",
        b"conj: not accepted: line 4: Text Form\n",
    ),
    (
        b"conj: not accepted: line 4: Text Form\n",
        b"conj: not accepted: line 5: Text Form\n",
    ),
    (
        b"conj: not accepted: line 5: ShellOf\n",
        b"conj: not accepted: line 6: ShellOf\n",
    ),
    (
        b"conj: not accepted: line 6: ShellOf\n",
        b"conj: not accepted: line 7: ShellOf\n",
    ),
    (
        b"conj: not accepted: line 7: BoxOf\n",
        b"conj: not accepted: line 8: BoxOf\n",
    ),
    (
        b"conj: not accepted: line 8: BoxOf\n",
        b"conj: not accepted: line 9: BoxOf\n",
    ),
    (
        b"conj: not accepted: line 9: BoxOf\n",
        b"conj: not accepted: line 10: BoxOf\n",
    ),
    (
        b"conj: not accepted: line 10: BoxOf\n",
        b"conj: not accepted: line 11: BoxOf\n",
    ),
    (
        b"conj: not accepted: line 11: Untiled\n",
        b"conj: not accepted: line 12: Stranger\n",
    ),
    (
        b"conj: not accepted: line 12: Untiled\n",
        b"conj: not accepted: line 13: Stranger\n",
    ),
    (
        b"conj: not accepted: line 13: Text End\n",
        b"conj: not accepted: line 14: Text End\n",
    ),
];

/// The first line of which something else is told where it is left out or stands twice.
fn first_other_line<R: Threads + Wait + Sync>(
    rt: &R,
    alloc: Global,
    cases: &[(&[u8], &[u8])],
) -> Result<Option<usize>, AllocError> {
    for (place, (left_out, twice)) in cases.iter().enumerate() {
        let without = ("screen.cert", Change::Without(place + 1));
        let with = ("screen.cert", Change::Twice(place + 1));
        let is_first = is_told(rt, alloc, "check .", &[without], left_out)?;
        if !is_first || !is_told(rt, alloc, "check .", &[with], twice)? {
            return Ok(Some(place + 1));
        }
    }
    Ok(None)
}

#[test]
fn a_line_too_few_or_too_many_is_told(rt: HostRuntime) {
    assert_eq!(rt;
        first_other_line(&rt, rt.alloc(), LEFT_OUT_AND_TWICE.as_slice()).expect(&rt, "no fault"),
        None
    );
}
