//! What the values of metadata say.
ghost use Rattle.std.specs.Prelude.{◌≡◌, true, IfOk};
ghost use Rattle.std.specs.Option.{option_copied, option_map};
ghost use Rattle.cj_kvn.specs.Faults.{Follows, Tells};
ghost use Rattle.cj_track.specs.Labels.{is_label};
ghost use Rattle.cj_oem.specs.Metadata as spec;
ghost use Rattle.cj_oem.specs.MetadataDrafts.{IsLabelled, object_of};

use crate::object::Object;
use crate::word::is_word;
use cj_base::Text;
use cj_formats::OemCause;
use cj_kvn::Refused;
use cj_track::Frame;
use std::alloc::Global;

/// What a name or a designator says: the first segment's, if there is one.
pub(crate) fn parse_label(
    alloc: Global,
    first: Option<&Text>,
    value: &[u8],
) -> Result<Text, Refused<OemCause>>
    requires { IsLabelled value.now }
    ensures exact { Follows (λ text. text) result (spec.parse_label (option_copied first.entry) value.now) }
    ensures label { IfOk result (λ text. is_label text ≡ true) }
{
    if value.is_empty() {
        return Err(Refused::Because(OemCause::Missing));
    }
    let text = Text::of_value(alloc, value)?;
    if text_differs(first, &text) {
        return Err(Refused::Because(OemCause::ObjectChanged));
    }
    Ok(text)
}

/// Whether a text differs from that of the first segment, if there is one.
fn text_differs(first: Option<&Text>, text: &Text) -> bool
    ensures { result ≡ spec.text_differs (option_copied first.entry) text.now }
{
    match first {
        None => false,
        Some(first) => first != text,
    }
}

/// The frame that a value says: the first segment's, if there is one.
pub(crate) fn parse_frame(first: Option<Frame>, value: &[u8]) -> Result<Frame, OemCause>
    ensures { Tells (λ frame. frame) result (spec.frame_kept first (spec.frame_named value.now)) }
{
    match frame_named(value) {
        Some(frame) if first.is_none_or(|first| first == frame) => Ok(frame),
        _ => Err(OemCause::Frame),
    }
}

fn frame_named(value: &[u8]) -> Option<Frame>
    ensures { result ≡ spec.frame_named value.now }
{
    if is_word(b"EME2000", value) {
        Some(Frame::Eme2000)
    } else if is_word(b"GCRF", value) {
        Some(Frame::Gcrf)
    } else {
        None
    }
}

/// The name that the first segment gives to later ones.
pub(crate) fn name_of(first: Option<&Object>) -> Option<&Text>
    ensures { option_copied result ≡ spec.name_of (option_map object_of (option_copied first.entry)) }
{
    match first {
        None => None,
        Some(object) => Some(&object.name),
    }
}

pub(crate) fn id_of(first: Option<&Object>) -> Option<&Text>
    ensures { option_copied result ≡ spec.id_of (option_map object_of (option_copied first.entry)) }
{
    match first {
        None => None,
        Some(object) => Some(&object.id),
    }
}

pub(crate) fn frame_of(first: Option<&Object>) -> Option<Frame>
    ensures { result ≡ spec.frame_of (option_map object_of (option_copied first.entry)) }
{
    match first {
        None => None,
        Some(object) => Some(object.frame),
    }
}
