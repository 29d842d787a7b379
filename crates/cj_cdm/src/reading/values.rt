//! The values of lines.
ghost use Rattle.std.specs.Prelude.{◌≡◌, ◌==◌, option_map};
ghost use Rattle.std.specs.List.{list_all, position};
ghost use Rattle.cj_track.specs.Labels as labels;
ghost use Rattle.cj_track.specs.Labels.{is_visible};
ghost use Rattle.cj_cdm.specs.Read.{bytes_of};
ghost use Rattle.cj_cdm.specs.Values as spec;
ghost use Rattle.cj_cdm.specs.Values.{constant_said, designator_said, epoch_said, frame_said, label_said, originator_said};

use crate::designators::is_designator;
use cj_base::Tick;
use cj_epoch::{epoch_text, read_epoch};
use cj_kvn::is_originator;
use cj_track::Frame;

/// The place of the first such byte.
pub(crate) fn place_of(text: &[u8], byte: u8) -> Option<usize>
    ensures { result ≡ position (λ b. b == byte) text.now }
{
    text.iter().position(|b| *b == byte)
}

/// What stands behind this front.
pub(crate) fn behind_front<'a>(front: &[u8], text: &'a [u8]) -> Option<&'a [u8]>
    ensures { option_map bytes_of result ≡ spec.behind_front front.now text.now }
{
    text.strip_prefix(front)
}

/// What stands before this ending.
pub(crate) fn before_ending<'a>(ending: &[u8], text: &'a [u8]) -> Option<&'a [u8]>
    ensures { option_map bytes_of result ≡ spec.before_ending ending.now text.now }
{
    text.strip_suffix(ending)
}

/// Nothing but that the value is this one.
pub(crate) fn constant(expected: &[u8], value: &[u8]) -> Option<()>
    ensures { result ≡ constant_said expected.now value.now }
{
    if value == expected { Some(()) } else { None }
}

/// One or more printable bytes without outer spaces.
pub(crate) fn label(value: &[u8]) -> Option<&[u8]>
    ensures { option_map bytes_of result ≡ label_said value.now }
{
    if is_label(value) { Some(value) } else { None }
}

#[tactic(auto, unfolding(cj_track::specs::Labels::is_label))]
fn is_label(text: &[u8]) -> bool
    ensures { result ≡ labels.is_label text.now }
{
    !text.is_empty() && are_visible(text) && text[0] != b' ' && text[text.len() - 1] != b' '
}

fn are_visible(text: &[u8]) -> bool
    ensures { result ≡ list_all is_visible text.now }
{
    text.iter().all(|b| 32 <= *b && *b <= 126)
}

/// An international designator, or `UNKNOWN`.
pub(crate) fn designator(value: &[u8]) -> Option<&[u8]>
    ensures { option_map bytes_of result ≡ designator_said value.now }
{
    if value == b"UNKNOWN".as_slice() || is_designator(value) {
        Some(value)
    } else {
        None
    }
}

pub(crate) fn frame(value: &[u8]) -> Option<Frame>
    ensures { result ≡ frame_said value.now }
{
    if value == b"EME2000".as_slice() {
        Some(Frame::Eme2000)
    } else if value == b"GCRF".as_slice() {
        Some(Frame::Gcrf)
    } else {
        None
    }
}

/// One to 40 letters, digits, `_` and `-`.
pub(crate) fn originator(value: &[u8]) -> Option<&[u8]>
    ensures { option_map bytes_of result ≡ originator_said value.now }
{
    if is_originator(value) {
        Some(value)
    } else {
        None
    }
}

/// An epoch in the form in which it is written.
#[tactic(auto, unfolding(crate::specs::Values::epoch_said))]
pub(crate) fn epoch(value: &[u8]) -> Option<Tick>
    ensures { option_map (λ t. t.micros) result ≡ epoch_said value.now }
{
    match read_epoch(value) {
        Ok(at) if epoch_text(at).as_slice() == value => Some(at),
        _ => None,
    }
}
