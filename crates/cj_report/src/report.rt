ghost use Rattle.std.specs.Prelude.{◌≡◌, Bool, List, Option, length, map, All, IfOk};
ghost use Rattle.cj_case.specs.Leaves.{PlainLeaf, plain_leaves};
ghost use Rattle.cj_meet.specs.Closest.{PlainClosest, some_closest};
ghost use Rattle.cj_meet.specs.Encounters.{Describes, groups_in};
ghost use Rattle.cj_case.specs.Problems.{plain_problem};
ghost use Rattle.cj_report.specs.Report.{changed_of, report_of, report_titled, told};

use crate::encounters::push_encounters;
use crate::lines::push_line;
use crate::objects::push_objects;
use crate::tells::Tells;
use cj_case::{Closest, Encounter, Leaf, Problem};
use cj_epoch::epoch_text;
use itoa::Buffer;
use std::alloc::{AllocError, Global};

/// The report of a problem: its window, its threshold in nm, its objects, with their sizes and the ticks that they cover where these are told,
/// and the encounters of its leaves, each with its closest approach and whether it has a message.
pub fn report_text(
    alloc: Global,
    problem: &Problem,
    tells: Tells,
    leaves: &[Leaf],
    encounters: &[Encounter],
    approaches: &[Closest],
    messages: &[bool],
) -> Result<Vec<u8>, AllocError>
    requires described { All (Describes (plain_leaves leaves.now)) encounters.now }
    requires one_each { length approaches.now ≡ length encounters.now }
    requires each_noted { length messages.now ≡ length encounters.now }
    // By whatever functions these are the closest approaches and say whether there is a message.
    ensures { let case = plain_problem problem.now in IfOk result (λ text. (approach : List PlainLeaf → Option PlainClosest) (has_message : List PlainLeaf → Bool)
        → map some_closest approaches.now ≡ map approach (groups_in (plain_leaves leaves.now) encounters.now)
        → messages.now ≡ map has_message (groups_in (plain_leaves leaves.now) encounters.now)
        → text.items ≡ report_of case.first case.last case.threshold case.tracks (told tells.sizes case.sizes) case.primaries
        tells.coverage approach has_message (groups_in (plain_leaves leaves.now) encounters.now)) }
{
    titled_text(
        alloc,
        b"CONJ-REPORT",
        problem,
        tells,
        leaves,
        encounters,
        approaches,
        messages,
    )
}

/// The same of the encounters of those leaves alone whose pairs are not unchanged, under a title of its own.
pub fn changed_text(
    alloc: Global,
    problem: &Problem,
    tells: Tells,
    leaves: &[Leaf],
    encounters: &[Encounter],
    approaches: &[Closest],
    messages: &[bool],
) -> Result<Vec<u8>, AllocError>
    requires described { All (Describes (plain_leaves leaves.now)) encounters.now }
    requires one_each { length approaches.now ≡ length encounters.now }
    requires each_noted { length messages.now ≡ length encounters.now }
    // By whatever functions these are the closest approaches and say whether there is a message.
    ensures { let case = plain_problem problem.now in IfOk result (λ text. (approach : List PlainLeaf → Option PlainClosest) (has_message : List PlainLeaf → Bool)
        → map some_closest approaches.now ≡ map approach (groups_in (plain_leaves leaves.now) encounters.now)
        → messages.now ≡ map has_message (groups_in (plain_leaves leaves.now) encounters.now)
        → text.items ≡ changed_of case.first case.last case.threshold case.tracks (told tells.sizes case.sizes) case.primaries
        tells.coverage approach has_message (groups_in (plain_leaves leaves.now) encounters.now)) }
{
    titled_text(
        alloc,
        b"CONJ-CHANGED",
        problem,
        tells,
        leaves,
        encounters,
        approaches,
        messages,
    )
}

/// A report under this title.
fn titled_text(
    alloc: Global,
    title: &[u8],
    problem: &Problem,
    tells: Tells,
    leaves: &[Leaf],
    encounters: &[Encounter],
    approaches: &[Closest],
    messages: &[bool],
) -> Result<Vec<u8>, AllocError>
    requires described { All (Describes (plain_leaves leaves.now)) encounters.now }
    requires one_each { length approaches.now ≡ length encounters.now }
    requires each_noted { length messages.now ≡ length encounters.now }
    // By whatever functions these are the closest approaches and say whether there is a message.
    ensures { let case = plain_problem problem.now in IfOk result (λ text. (approach : List PlainLeaf → Option PlainClosest) (has_message : List PlainLeaf → Bool)
        → map some_closest approaches.now ≡ map approach (groups_in (plain_leaves leaves.now) encounters.now)
        → messages.now ≡ map has_message (groups_in (plain_leaves leaves.now) encounters.now)
        → text.items ≡ report_titled title.now case.first case.last case.threshold case.tracks (told tells.sizes case.sizes) case.primaries
        tells.coverage approach has_message (groups_in (plain_leaves leaves.now) encounters.now)) }
{
    let mut text = Vec::with_capacity(alloc, usual_length(problem, encounters))?;
    push_line(&mut text, title, &[b"1"])?;
    push_line(
        &mut text,
        b"WINDOW",
        &[
            &epoch_text(problem.window.first),
            &epoch_text(problem.window.last),
        ],
    )?;
    push_line(
        &mut text,
        b"THRESHOLD",
        &[Buffer::new().format(problem.threshold).as_bytes()],
    )?;
    let sizes = sizes_told(problem, tells.sizes);
    push_objects(
        alloc,
        &mut text,
        problem.tracks.as_slice(),
        sizes,
        &problem.primaries,
        tells.coverage,
        problem.window,
    )?;
    push_encounters(&mut text, leaves, encounters, approaches, messages)?;
    push_line(&mut text, b"END", &[])?;
    Ok(text)
}

/// The sizes that the report tells.
fn sizes_told(problem: &Problem, with_sizes: bool) -> &[u64]
    ensures { result.now ≡ told with_sizes problem.now.sizes }
{
    if with_sizes {
        problem.sizes.as_slice()
    } else {
        &[]
    }
}

/// How many bytes a report has where names are short and each encounter has one span.
fn usual_length(problem: &Problem, encounters: &[Encounter]) -> usize {
    let objects = problem.tracks.as_slice().len().saturating_mul(128);
    let spans = encounters.len().saturating_mul(128);
    objects.saturating_add(spans).saturating_add(128)
}
