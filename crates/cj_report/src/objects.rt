ghost use Rattle.std.specs.Prelude.{◌≡◌, ◌+◌, ◌<◌, ◌≤◌, ◌++◌, flat_map, map, OnOk};
ghost use Rattle.cj_track.specs.Tracks.{plain_track};
ghost use Rattle.cj_hermite.specs.CommonRuns.{run_of};
ghost use Rattle.cj_case.specs.Primaries as primaries_spec;
ghost use Rattle.cj_report.specs.Report as spec;
ghost use Rattle.cj_report.specs.Report.{covered_lines, coverage_lines, marked_lines, name_lines, primary_line, numbered, size_line, sized_lines};

use crate::lines::push_line;
use cj_base::Window;
use cj_case::Primaries;
use cj_coverage::covered_spans;
use cj_epoch::epoch_text;
use cj_track::Track;
use itoa::Buffer;
use std::alloc::{AllocError, Global};

/// Adds the lines of all objects, with those of these sizes, which of them are named as primaries, and, where this
/// is told, which ticks of a window they cover.
pub(crate) fn push_objects(
    alloc: Global,
    text: &mut Vec<u8>,
    tracks: &[Track],
    sizes: &[u64],
    primaries: &Primaries,
    with_coverage: bool,
    window: Window,
) -> Result<(), AllocError>
    ensures { OnOk result (text.new.items ≡ text.old.items
        ++ numbered (spec.object_lines sizes.now primaries.now with_coverage window.first.micros window.last.micros) 1 (map plain_track tracks.now)) }
{
    for (place, track) in tracks.iter().enumerate() {
        push_object(
            alloc,
            text,
            place + 1,
            track,
            sizes,
            primaries,
            with_coverage,
            window,
        )?;
    }
    Ok(())
}

fn push_object(
    alloc: Global,
    text: &mut Vec<u8>,
    number: usize,
    track: &Track,
    sizes: &[u64],
    primaries: &Primaries,
    with_coverage: bool,
    window: Window,
) -> Result<(), AllocError>
    requires { 1 ≤ number }
    ensures { OnOk result (text.new.items ≡ text.old.items
        ++ spec.object_lines sizes.now primaries.now with_coverage window.first.micros window.last.micros number (plain_track track.now)) }
{
    push_marked(text, number, track, sizes, primaries)?;
    push_coverage(alloc, text, track, with_coverage, window)
}

/// Adds the lines with the names of an object, that of its size where there is one, and whether it is named as a primary.
fn push_marked(
    text: &mut Vec<u8>,
    number: usize,
    track: &Track,
    sizes: &[u64],
    primaries: &Primaries,
) -> Result<(), AllocError>
    requires { 1 ≤ number }
    ensures { OnOk result (text.new.items ≡ text.old.items ++ marked_lines sizes.now primaries.now number (plain_track track.now)) }
{
    push_sized(text, number, track, sizes)?;
    push_primary(text, is_named(primaries, number - 1))
}

/// Whether an object is one of those that are named as primaries.
fn is_named(primaries: &Primaries, object: usize) -> bool
    ensures { result ≡ primaries_spec.is_named primaries.now object }
{
    match primaries.marks() {
        Some(marks) => marks.get(object).copied().unwrap_or(false),
        None => false,
    }
}

fn push_primary(text: &mut Vec<u8>, is_primary: bool) -> Result<(), AllocError>
    ensures { OnOk result (text.new.items ≡ text.old.items ++ primary_line is_primary) }
{
    if is_primary {
        push_line(text, b"PRIMARY", &[])
    } else {
        Ok(())
    }
}

/// Adds the lines with the names of an object, and that of its size where there is one.
fn push_sized(
    text: &mut Vec<u8>,
    number: usize,
    track: &Track,
    sizes: &[u64],
) -> Result<(), AllocError>
    requires { 1 ≤ number }
    ensures { OnOk result (text.new.items ≡ text.old.items ++ sized_lines sizes.now number (plain_track track.now)) }
{
    push_names(text, number, track)?;
    push_size(text, sizes.get(number - 1).copied())
}

fn push_names(text: &mut Vec<u8>, number: usize, track: &Track) -> Result<(), AllocError>
    ensures { OnOk result (text.new.items ≡ text.old.items ++ name_lines number (plain_track track.now)) }
{
    push_line(text, b"OBJECT", &[Buffer::new().format(number).as_bytes()])?;
    push_line(text, b"FILE", &[track.file.as_slice()])?;
    push_line(text, b"ID", &[track.id.as_slice()])?;
    push_line(text, b"NAME", &[track.name.as_slice()])
}

fn push_size(text: &mut Vec<u8>, size: Option<u64>) -> Result<(), AllocError>
    ensures { OnOk result (text.new.items ≡ text.old.items ++ size_line size) }
{
    match size {
        Some(size) => push_line(text, b"SIZE", &[Buffer::new().format(size).as_bytes()]),
        None => Ok(()),
    }
}

/// Adds which ticks of a window an object covers, where this is told.
fn push_coverage(
    alloc: Global,
    text: &mut Vec<u8>,
    track: &Track,
    with_coverage: bool,
    window: Window,
) -> Result<(), AllocError>
    ensures { OnOk result (text.new.items ≡ text.old.items
        ++ coverage_lines with_coverage window.first.micros window.last.micros (plain_track track.now)) }
{
    if with_coverage {
        push_covered(text, &covered_spans(alloc, track, window)?)
    } else {
        Ok(())
    }
}

/// Adds the lines of covered spans, or that there are none.
fn push_covered(text: &mut Vec<u8>, spans: &[Window]) -> Result<(), AllocError>
    ensures { OnOk result (text.new.items ≡ text.old.items ++ covered_lines (map run_of spans.now)) }
{
    if spans.is_empty() {
        push_line(text, b"COVERED", &[b"NONE"])
    } else {
        push_spans(text, spans)
    }
}

fn push_spans(text: &mut Vec<u8>, spans: &[Window]) -> Result<(), AllocError>
    ensures { OnOk result (text.new.items ≡ text.old.items ++ flat_map spec.covered_line (map run_of spans.now)) }
{
    for span in spans {
        push_line(
            text,
            b"COVERED",
            &[&epoch_text(span.first), &epoch_text(span.last)],
        )?;
    }
    Ok(())
}
