//! What the metadata of a segment says.
ghost use Rattle.std.specs.Prelude.{◌≡◌, true};
ghost use Rattle.std.specs.Option.{ForSome};
ghost use Rattle.cj_track.specs.Labels.{is_label};

use crate::key::{Key, key_of};
use crate::object::Object;
use crate::segment_metadata::Metadata;
use crate::values::{frame_of, id_of, name_of, parse_frame, parse_label};
use crate::word::{is_word, parse_epoch};
use cj_base::{Text, Tick};
use cj_formats::OemCause;
use cj_kvn::Refused;
use cj_track::Frame;
use std::alloc::Global;

/// What the keys of a block have said so far.
#[derive(Drop)]
pub(crate) struct MetadataDraft {
    pub(crate) name: Option<Text>,
    pub(crate) id: Option<Text>,
    pub(crate) center: bool,
    pub(crate) frame: Option<Frame>,
    pub(crate) frame_epoch: bool,
    pub(crate) time_system: bool,
    pub(crate) start: Option<Tick>,
    pub(crate) stop: Option<Tick>,
    pub(crate) useable_start: Option<Tick>,
    pub(crate) useable_stop: Option<Tick>,
    /// Whether the interpolation is HERMITE.
    pub(crate) hermite: Option<bool>,
    /// Whether its degree is 3.
    pub(crate) cubic: Option<bool>,
    pub(crate) ghost named: { ForSome name (λ text. is_label text ≡ true) },
    pub(crate) ghost designated: { ForSome id (λ text. is_label text ≡ true) },
}

impl MetadataDraft {
    ghost use Rattle.std.specs.Prelude.{◌≡◌, IfOk, is_some, true};
    ghost use Rattle.std.specs.Option.{option_copied, option_map};
    ghost use Rattle.cj_kvn.specs.Faults.{Follows, Tells};
    ghost use Rattle.cj_oem.specs.Metadata as spec;
    ghost use Rattle.cj_oem.specs.MetadataDrafts.{IsLabelled, object_of, metadata_of, metadata_draft_of, metadata_with};

    /// No key was given.
    pub(crate) fn new() -> Self
        ensures { metadata_draft_of result ≡ spec.EMPTY }
    {
        MetadataDraft {
            name: None,
            id: None,
            center: false,
            frame: None,
            frame_epoch: false,
            time_system: false,
            start: None,
            stop: None,
            useable_start: None,
            useable_stop: None,
            hermite: None,
            cubic: None,
        }
    }

    /// Takes a further pair. The first segment's object is that of later ones.
    #[tactic(auto, unfolding(crate::specs::Metadata::with_pair))]
    pub(crate) fn take_pair(
        &mut self,
        alloc: Global,
        first: Option<&Object>,
        key: &[u8],
        value: &[u8],
    ) -> Result<(), Refused<OemCause>>
        requires { IsLabelled value.now }
        ensures { Follows (λ _. metadata_draft_of self.new) result (spec.with_pair (option_map object_of (option_copied first.entry)) (metadata_draft_of self.old) key.now value.now) }
    {
        match key_of(key) {
            None => Err(Refused::Because(OemCause::Unknown)),
            Some(key) => self.take_key(alloc, first, key, value),
        }
    }

    fn take_key(
        &mut self,
        alloc: Global,
        first: Option<&Object>,
        key: Key,
        value: &[u8],
    ) -> Result<(), Refused<OemCause>>
        requires { IsLabelled value.now }
        ensures { Follows (λ _. metadata_draft_of self.new) result (spec.with_key (option_map object_of (option_copied first.entry)) (metadata_draft_of self.old) (Some key) value.now) }
    {
        if self.is_given(key) {
            return Err(Refused::Because(OemCause::Twice));
        }
        self.take_value(alloc, first, key, value)
    }

    /// Whether the key was given.
    fn is_given(&self, key: Key) -> bool
        ensures { result ≡ spec.is_given key (metadata_draft_of self.now) }
    {
        match key {
            Key::ObjectName => self.name.is_some(),
            Key::ObjectId => self.id.is_some(),
            Key::CenterName => self.center,
            Key::RefFrame => self.frame.is_some(),
            Key::RefFrameEpoch => self.frame_epoch,
            Key::TimeSystem => self.time_system,
            Key::StartTime => self.start.is_some(),
            Key::StopTime => self.stop.is_some(),
            Key::UseableStartTime => self.useable_start.is_some(),
            Key::UseableStopTime => self.useable_stop.is_some(),
            Key::Interpolation => self.hermite.is_some(),
            Key::InterpolationDegree => self.cubic.is_some(),
        }
    }

    /// Takes what a key says.
    #[tactic(auto, unfolding(crate::specs::Metadata::with_value))]
    fn take_value(
        &mut self,
        alloc: Global,
        first: Option<&Object>,
        key: Key,
        value: &[u8],
    ) -> Result<(), Refused<OemCause>>
        requires { IsLabelled value.now }
        ensures { Follows (λ _. metadata_draft_of self.new) result (spec.with_value (option_map object_of (option_copied first.entry)) (metadata_draft_of self.old) key value.now) }
    {
        match key {
            Key::ObjectName => self.name = Some(parse_label(alloc, name_of(first), value)?),
            Key::ObjectId => self.id = Some(parse_label(alloc, id_of(first), value)?),
            Key::CenterName => {
                if !is_word(b"EARTH", value) {
                    return Err(Refused::Because(OemCause::Center));
                }
                self.center = true;
            }
            Key::RefFrame => self.frame = Some(parse_frame(frame_of(first), value)?),
            Key::RefFrameEpoch => self.frame_epoch = true,
            Key::TimeSystem => {
                if !is_word(b"UTC", value) {
                    return Err(Refused::Because(OemCause::TimeSystem));
                }
                self.time_system = true;
            }
            Key::StartTime => self.start = Some(parse_epoch(value)?),
            Key::StopTime => self.stop = Some(parse_epoch(value)?),
            Key::UseableStartTime => self.useable_start = Some(parse_epoch(value)?),
            Key::UseableStopTime => self.useable_stop = Some(parse_epoch(value)?),
            Key::Interpolation => self.hermite = Some(is_word(b"HERMITE", value)),
            Key::InterpolationDegree => self.cubic = Some(value == b"3".as_slice()),
        }
        Ok(())
    }

    /// What a whole draft says. The cubic may be taken where the file declares another interpolation or none.
    pub(crate) fn metadata(self, as_hermite3: bool) -> Result<Metadata, OemCause>
        ensures { Tells metadata_of result (spec.metadata_of as_hermite3 (metadata_draft_of self)) }
    {
        let (frame, first, last) = self.stated(as_hermite3)?;
        let (Some(name), Some(id)) = (self.name, self.id) else {
            return Err(OemCause::Missing);
        };
        Ok(Metadata {
            object: Object { name, id, frame },
            first,
            last,
        })
    }

    /// The frame and the useable span of a whole draft.
    #[tactic(auto, unfolding(crate::specs::Metadata::metadata_of))]
    fn stated(&self, as_hermite3: bool) -> Result<(Frame, Tick, Tick), OemCause>
        ensures told { Tells (metadata_with (metadata_draft_of self.now)) result (spec.metadata_of as_hermite3 (metadata_draft_of self.now)) }
        ensures name { IfOk result (λ _. is_some self.now.name ≡ true) }
        ensures id { IfOk result (λ _. is_some self.now.id ≡ true) }
    {
        if self.name.is_none() || self.id.is_none() || !self.center {
            return Err(OemCause::Missing);
        }
        let frame = self.frame.ok_or(OemCause::Missing)?;
        if !self.time_system {
            return Err(OemCause::Missing);
        }
        let start = self.start.ok_or(OemCause::Missing)?;
        let stop = self.stop.ok_or(OemCause::Missing)?;
        if !as_hermite3 && !self.is_cubic() {
            return Err(OemCause::Interpolation);
        }
        let first = self.useable_start.unwrap_or(start);
        let last = self.useable_stop.unwrap_or(stop);
        Ok((frame, first, last))
    }

    /// Whether the file declares the cubic between two nodes.
    fn is_cubic(&self) -> bool
        ensures { result ≡ spec.is_cubic (metadata_draft_of self.now) }
    {
        self.hermite.unwrap_or(false) && self.cubic.unwrap_or(false)
    }
}
