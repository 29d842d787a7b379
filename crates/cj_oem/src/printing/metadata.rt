//! The metadata of a segment.
ghost use Rattle.std.specs.Prelude.{◌≡◌, ◌++◌, OnOk};
ghost use Rattle.cj_oem.specs.Canonical.{metadata_text};
ghost use Rattle.cj_track.specs.Tracks.{plain_segment, plain_track};

use cj_epoch::epoch_text;
use cj_kvn::{push_entry, push_line};
use cj_track::{Segment, Track, frame_text};
use std::alloc::AllocError;

/// Adds the metadata of a segment. Its times are those of its useable span.
#[tactic(auto, unfolding(crate::specs::Canonical::metadata_text))]
pub(crate) fn push_metadata(
    text: &mut Vec<u8>,
    track: &Track,
    segment: &Segment,
) -> Result<(), AllocError>
    ensures { OnOk result (text.new.items ≡ text.old.items ++ metadata_text (plain_track track.now) (plain_segment segment.now)) }
{
    push_line(text, b"META_START")?;
    push_entry(text, b"OBJECT_NAME", track.name.as_slice())?;
    push_entry(text, b"OBJECT_ID", track.id.as_slice())?;
    push_entry(text, b"CENTER_NAME", b"EARTH")?;
    push_entry(text, b"REF_FRAME", frame_text(track.frame))?;
    push_entry(text, b"TIME_SYSTEM", b"UTC")?;
    push_entry(text, b"START_TIME", &epoch_text(segment.first))?;
    push_entry(text, b"STOP_TIME", &epoch_text(segment.last))?;
    push_entry(text, b"INTERPOLATION", b"HERMITE")?;
    push_entry(text, b"INTERPOLATION_DEGREE", b"3")?;
    push_line(text, b"META_STOP")
}
