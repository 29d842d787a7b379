//! So many objects that the list of pairs that are not unchanged is long.
use crate::runs::{file, output_of, run_at};
use cj_base::Tick;
use cj_io::FileBytes;
use cj_samples::{HEAD, append_lines};
use std::alloc::{AllocError, Global};
use std::panic::Expect;

/// The file of an object that goes from 7,000 km to 8,000 km along the first axis in one minute, at this place along the second one, in km.
fn rising(alloc: Global, name: &[u8], km: u64) -> Result<FileBytes, AllocError> {
    let mut text = Vec::new(alloc);
    append_lines(&mut text, 0, HEAD.as_slice(), &[])?;
    let first = format!(in alloc; "2025-01-01T00:00:00 7000 {km} 0 0 0 0\n")?;
    text.extend_from_slice(first.as_bytes())?;
    let last = format!(in alloc; "2025-01-01T00:01:00 8000 {km} 0 0 0 0\n")?;
    text.extend_from_slice(last.as_bytes())?;
    file(alloc, name, &text)
}

/// 130 objects ten kilometres from each other, but for the last two, which are one kilometre from the first two. Of the four the first and the third are
/// there before the updates, and all others are added.
fn side_by_side(alloc: Global) -> Result<Vec<FileBytes>, AllocError> {
    let mut files = Vec::new(alloc);
    for number in 0..130u64 {
        let place = number % 128;
        let named = 1000 + number;
        let suffix = if place == 0 { "" } else { ".new" };
        let name = format!(in alloc; "{named}.oem{suffix}")?;
        let km = place * 10 + number / 128;
        files.push(rising(alloc, name.as_bytes(), km)?)?;
    }
    Ok(files)
}

/// The encounter of the one pair that is near and was not there before.
const LAST_LINES: &[u8] = b"
ENCOUNTER 1 2 130 NEAR 2025-01-01T00:00:00.000000 1000000000000 NOCOV
SPAN NEAR 2025-01-01T00:00:00.000000 2025-01-01T00:01:00.000000
END
";

#[test]
fn of_a_long_list_the_pairs_that_are_near_are_found(rt: HostRuntime) {
    let alloc = rt.alloc();
    let files = side_by_side(alloc).expect(&rt, "no fault");
    let line = "rescreen . --from 2025-01-01T00:00:00 --to 2025-01-01T00:01:00 --changed";
    let (end, shelf) = run_at(&rt, alloc, line, files, Tick::FIRST).expect(&rt, "no fault");
    assert_eq!(rt; end.number, 0);
    assert_eq!(rt;
        output_of(shelf.written(), b"-"),
        b"OBJECTS 130\nENCOUNTERS 1\nKEPT 1\n".as_slice()
    );
    assert!(rt; output_of(shelf.written(), b"changed.report").ends_with(LAST_LINES));
}
