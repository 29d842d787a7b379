ghost use Rattle.std.specs.Prelude.{◌≡◌, ◌+◌, ◌++◌, Bool, List, Option, length, map, flat_map, All, OnOk};
ghost use Rattle.cj_case.specs.Leaves.{PlainLeaf, plain_leaves};
ghost use Rattle.cj_meet.specs.Closest.{PlainClosest, some_closest};
ghost use Rattle.cj_meet.specs.Encounters.{Describes, groups_in, leaves_in};
ghost use Rattle.cj_meet.specs.Spans.{spans_of};
ghost use Rattle.cj_report.specs.Report as spec;
ghost use Rattle.cj_report.specs.Report.{encounter_line, encounter_lines, numbered, span_line, approach_words};
ghost use Rattle.cj_report.specs.SpanLines.{leaf_of_line};

use crate::lines::push_line;
use crate::span_line::SpanLine;
use cj_case::{Closest, Encounter, Kind, Leaf, Mark};
use cj_epoch::epoch_text;
use itoa::Buffer;
use std::alloc::AllocError;

/// Adds the lines of all encounters of the leaves, each with its closest approach and whether it has a message.
pub(crate) fn push_encounters(
    text: &mut Vec<u8>,
    leaves: &[Leaf],
    encounters: &[Encounter],
    approaches: &[Closest],
    messages: &[bool],
) -> Result<(), AllocError>
    requires described { All (Describes (plain_leaves leaves.now)) encounters.now }
    requires one_each { length approaches.now ≡ length encounters.now }
    requires each_noted { length messages.now ≡ length encounters.now }
    // By whatever functions these are their closest approaches and say whether there is a message.
    ensures { OnOk result ((approach : List PlainLeaf → Option PlainClosest) (has_message : List PlainLeaf → Bool)
        → map some_closest approaches.now ≡ map approach (groups_in (plain_leaves leaves.now) encounters.now)
        → messages.now ≡ map has_message (groups_in (plain_leaves leaves.now) encounters.now)
        → text.new.items ≡ text.old.items ++ numbered (encounter_lines approach has_message) 1 (groups_in (plain_leaves leaves.now) encounters.now)) }
{
    for (place, encounter) in encounters.iter().enumerate() {
        push_encounter(
            text,
            place + 1,
            leaves,
            encounter,
            &approaches[place],
            messages[place],
        )?;
    }
    Ok(())
}

fn push_encounter(
    text: &mut Vec<u8>,
    number: usize,
    leaves: &[Leaf],
    encounter: &Encounter,
    closest: &Closest,
    has_message: bool,
) -> Result<(), AllocError>
    requires { Describes (plain_leaves leaves.now) encounter.now }
    ensures { OnOk result (text.new.items ≡ text.old.items
        ++ encounter_lines (λ _. some_closest closest.now) (λ _. has_message) number (leaves_in (plain_leaves leaves.now) encounter.now)) }
{
    push_heading(text, number, encounter, closest, has_message)?;
    push_spans(
        text,
        &leaves[encounter.leaf as usize..encounter.past as usize],
    )?;
    Ok(())
}

fn push_heading(
    text: &mut Vec<u8>,
    number: usize,
    encounter: &Encounter,
    closest: &Closest,
    has_message: bool,
) -> Result<(), AllocError>
    ensures { OnOk result (text.new.items ≡ text.old.items
        ++ encounter_line number encounter.now.pair.a encounter.now.pair.b encounter.now.mark (approach_words (some_closest closest.now) has_message)) }
{
    push_line(
        text,
        b"ENCOUNTER",
        &[
            Buffer::new().format(number).as_bytes(),
            Buffer::new()
                .format(u64::from(encounter.pair.a) + 1)
                .as_bytes(),
            Buffer::new()
                .format(u64::from(encounter.pair.b) + 1)
                .as_bytes(),
            mark_word(encounter.mark),
            &epoch_text(closest.tick),
            Buffer::new().format(closest.high).as_bytes(),
            message_word(has_message),
        ],
    )
}

fn push_spans(text: &mut Vec<u8>, leaves: &[Leaf]) -> Result<(), AllocError>
    ensures { OnOk result (text.new.items ≡ text.old.items ++ flat_map span_line (spans_of (plain_leaves leaves.now))) }
{
    let [first, others @ ..] = leaves else {
        return Ok(());
    };
    let mut span = SpanLine::of(first);
    for leaf in others {
        if span.goes_on(leaf) {
            span.last = leaf.cell.last;
        } else {
            push_span(text, &span)?;
            span = SpanLine::of(leaf);
        }
    }
    push_span(text, &span)
}

fn push_span(text: &mut Vec<u8>, span: &SpanLine) -> Result<(), AllocError>
    ensures { OnOk result (text.new.items ≡ text.old.items ++ span_line (leaf_of_line span.now)) }
{
    push_line(
        text,
        b"SPAN",
        &[
            kind_word(span.kind),
            &epoch_text(span.first),
            &epoch_text(span.last),
        ],
    )
}

fn message_word(has_message: bool) -> &'static [u8]
    ensures { result.now ≡ spec.message_word has_message }
{
    if has_message { b"CDM" } else { b"NOCOV" }
}

fn mark_word(mark: Mark) -> &'static [u8]
    ensures { result.now ≡ spec.mark_word mark }
{
    match mark {
        Mark::Near => b"NEAR",
        Mark::Undecided => b"UNDECIDED",
    }
}

fn kind_word(kind: Kind) -> &'static [u8]
    ensures { result.now ≡ spec.kind_word kind }
{
    match kind {
        Kind::Far => b"FAR",
        Kind::Near => b"NEAR",
        Kind::Undecided => b"UNDECIDED",
    }
}
