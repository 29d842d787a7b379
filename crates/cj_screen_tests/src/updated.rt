//! Base files and updates of some of them, and the files that then stand.
use crate::runs::calm;
use crate::scenes::{Content, GCRF, Scene, files_of};
use cj_case::Problem;
use cj_inputs::prepare_update;
use cj_io::{FileBytes, OpenGate};
use cj_status::fault_text;
use cj_words::{Command, Word, read_command};
use std::alloc::{AllocError, Global};
use std::panic::Expect;
use std::thread::Threads;

/// What is asked of a folder but for further options.
const ASKED: &str = "rescreen . --from 2025-01-01T00:00:00 --to 2025-01-01T00:01:00";

/// Appends, for each object, the name of its file, a colon and how many km it is along the first axis where its first node is.
fn push_files(alloc: Global, text: &mut Vec<u8>, problem: &Problem) -> Result<(), AllocError> {
    for track in problem.tracks.as_slice() {
        let [segment, ..] = track.segments.as_slice() else {
            return Ok(());
        };
        let [node, ..] = segment.nodes.as_slice() else {
            return Ok(());
        };
        text.extend_from_slice(track.file.as_slice())?;
        let along = format!(in alloc; ":{} ", node.p.x / 1_000_000_000_000)?;
        text.extend_from_slice(along.as_bytes())?;
    }
    Ok(())
}

/// The files before updates, a bar and the files after them, or what is told where there are none.
fn before_and_after<R: Threads + Sync>(
    rt: &R,
    alloc: Global,
    line: &str,
    files: Vec<FileBytes>,
) -> Result<Vec<u8>, AllocError> {
    let mut words = Vec::new(alloc);
    for word in line.split(' ') {
        words.push(Word::copy_of(alloc, word.as_bytes())?)?;
    }
    let Ok(Command::Rescreen(rescreening)) = read_command(&words) else {
        return Vec::from_slice(alloc, b"refused");
    };
    let mut folder = calm(alloc, files);
    match prepare_update(rt, alloc, &OpenGate, &mut folder, &rescreening) {
        Ok(updating) => {
            let mut text = Vec::new(alloc);
            push_files(alloc, &mut text, &updating.base)?;
            text.extend_from_slice(b"| ")?;
            push_files(alloc, &mut text, &updating.new)?;
            Ok(text)
        }
        Err(status) => fault_text(alloc, &status),
    }
}

/// A folder, options, and what comes of it.
type Case = (Scene, &'static str, &'static [u8]);

const EMPTY: Content = Content::Text("");

const ONE: Content = Content::Rest("7000 0 0");

const TWO: Content = Content::Rest("8000 0 0");

const THREE: Content = Content::Rest("9000 0 0");

const BAD: Content = Content::One(&[(15, b"2025-01-01T00:00:00 7000 X 0 0 0 0")]);

const PLACES: [Case; 16] = [
    (&[], "", b"| "),
    (&[("a.oem", ONE)], "", b"a.oem:7000 | a.oem:7000 "),
    (
        &[("a.oem", ONE), ("a.oem.new", TWO)],
        "",
        b"a.oem:7000 | a.oem:8000 ",
    ),
    (
        &[("a.oem", ONE), ("a.oem.new", EMPTY)],
        "",
        b"a.oem:7000 | ",
    ),
    (&[("a.oem.new", TWO)], "", b"| a.oem:8000 "),
    (
        &[("a.oem.new", EMPTY), ("b.oem", ONE)],
        "",
        b"b.oem:7000 | b.oem:7000 ",
    ),
    // Of equal names the first alone.
    (
        &[("a.oem", ONE), ("a.oem", TWO), ("a.oem.new", THREE)],
        "",
        b"a.oem:7000 a.oem:8000 | a.oem:9000 a.oem:8000 ",
    ),
    (
        &[("a.oem.new", EMPTY), ("a.oem", ONE), ("a.oem", TWO)],
        "",
        b"a.oem:7000 a.oem:8000 | a.oem:8000 ",
    ),
    // Of several updates the last alone, and the others are not read.
    (
        &[("a.oem.new", BAD), ("a.oem", ONE), ("a.oem.new", TWO)],
        "",
        b"a.oem:7000 | a.oem:8000 ",
    ),
    (
        &[("a.oem.new", TWO), ("a.oem", ONE), ("a.oem.new", EMPTY)],
        "",
        b"a.oem:7000 | ",
    ),
    // By names, and not by those of the updates.
    (
        &[
            ("a.oem.new", TWO),
            ("a.oem-b.oem.new", THREE),
            ("b.oem", ONE),
        ],
        "",
        b"b.oem:7000 | a.oem:8000 a.oem-b.oem:9000 b.oem:7000 ",
    ),
    // Neither base file nor update.
    (
        &[
            ("a.oem.new.new", BAD),
            ("a.oem", ONE),
            ("a.txt.new", BAD),
            (".new", BAD),
        ],
        "",
        b"a.oem:7000 | a.oem:7000 ",
    ),
    // A name of both forms is that of an update.
    (
        &[("am", ONE), ("amm", TWO), ("ammm", THREE)],
        " --suffix mm --update m",
        b"amm:8000 | amm:9000 ",
    ),
    // The file of sizes is no update, and may be updated.
    (
        &[
            ("a.oem", ONE),
            ("a.oem.new", Content::Text("2025-001A 1\n")),
        ],
        " --sizes a.oem.new",
        b"a.oem:7000 | a.oem:7000 ",
    ),
    (
        &[
            ("s.oem", Content::Text("2025-001A 1\n")),
            ("s.oem.new", TWO),
        ],
        " --sizes s.oem",
        b"| s.oem:8000 ",
    ),
    // A folder whose updates are all of another suffix.
    (
        &[("a.oem", ONE), ("a.oem.new", BAD), ("a.oem~", TWO)],
        " --update ~",
        b"a.oem:7000 | a.oem:8000 ",
    ),
];

const CAUSES: [Case; 8] = [
    // A base file before an update, this before the file of sizes.
    (
        &[("b.oem", BAD), ("a.oem.new", BAD)],
        "",
        b"conj: b.oem: line 15: Number\n",
    ),
    (
        &[("a.oem.new", BAD), ("b.oem", ONE)],
        " --sizes s.txt",
        b"conj: a.oem.new: line 15: Number\n",
    ),
    (
        &[("a.oem.new", TWO), ("b.oem", ONE)],
        " --sizes s.txt",
        b"conj: s.txt: line 0: NoSizes\n",
    ),
    // Updates in order of their own names.
    (
        &[("a.oem.new", BAD), ("a.oem-b.oem.new", BAD)],
        "",
        b"conj: a.oem-b.oem.new: line 15: Number\n",
    ),
    // Blank lines are no empty file.
    (
        &[("a.oem", ONE), ("a.oem.new", Content::Text("\n\n"))],
        "",
        b"conj: a.oem.new: line 3: Missing\n",
    ),
    // The frame is that of the first of all files.
    (
        &[("a.oem", ONE), ("a.oem.new", Content::One(&[GCRF]))],
        "",
        b"conj: a.oem.new: line 0: MixedFrames\n",
    ),
    (
        &[("a.oem.new", Content::One(&[GCRF])), ("b.oem.new", ONE)],
        "",
        b"conj: b.oem.new: line 0: MixedFrames\n",
    ),
    // The name under which it is read.
    (
        &[("\x01.oem.new", ONE)],
        "",
        b"conj: ?.oem.new: line 0: Name\n",
    ),
];

/// The place of the first case from which something else comes.
fn first_other<R: Threads + Sync>(
    rt: &R,
    alloc: Global,
    cases: &[Case],
) -> Result<Option<usize>, AllocError> {
    for (place, (scene, options, due)) in cases.iter().enumerate() {
        let line = format!(in alloc; "{ASKED}{options}")?;
        let files = files_of(alloc, scene)?;
        let came = before_and_after(rt, alloc, line.as_str(), files)?;
        if came.as_slice() != *due {
            return Ok(Some(place));
        }
    }
    Ok(None)
}

#[test]
fn updates_take_their_places(rt: HostRuntime) {
    let alloc = rt.alloc();
    assert_eq!(rt;
        first_other(&rt, alloc, PLACES.as_slice()).expect(&rt, "no fault"),
        None
    );
}

#[test]
fn causes_of_files_with_updates_come_in_order(rt: HostRuntime) {
    let alloc = rt.alloc();
    assert_eq!(rt;
        first_other(&rt, alloc, CAUSES.as_slice()).expect(&rt, "no fault"),
        None
    );
}

/// A window of a microsecond more than fourteen days.
const LONG: &str = "rescreen . --from 2025-01-01T00:00:00 --to 2025-01-15T00:00:00.000001";

const WITH_ANOTHER: Scene = &[("a.oem", ONE), ("b.oem.new", TWO)];

#[test]
fn the_window_is_limited_behind_the_sizes(rt: HostRuntime) {
    let alloc = rt.alloc();
    let files = files_of(alloc, WITH_ANOTHER).expect(&rt, "no fault");
    let told = before_and_after(&rt, alloc, LONG, files);
    assert_eq!(rt;
        told.expect(&rt, "no fault").as_slice(),
        b"conj: limit: Window 1209600000001\n".as_slice()
    );
    let files = files_of(alloc, WITH_ANOTHER).expect(&rt, "no fault");
    let line = format!(in alloc; "{LONG} --sizes s.txt").expect(&rt, "no fault");
    let told = before_and_after(&rt, alloc, line.as_str(), files);
    assert_eq!(rt;
        told.expect(&rt, "no fault").as_slice(),
        b"conj: s.txt: line 0: NoSizes\n".as_slice()
    );
}
