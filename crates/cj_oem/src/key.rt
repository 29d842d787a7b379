//! The keys of metadata.
ghost use Rattle.std.specs.Prelude.{◌≡◌};
ghost use Rattle.cj_oem.specs.Metadata as spec;

/// A key of metadata.
#[derive(Clone, Copy)]
pub enum Key {
    ObjectName,
    ObjectId,
    CenterName,
    RefFrame,
    RefFrameEpoch,
    TimeSystem,
    StartTime,
    StopTime,
    UseableStartTime,
    UseableStopTime,
    Interpolation,
    InterpolationDegree,
}

/// Each key by its word.
const KEYS: [(&[u8], Key); 12] = [
    (b"OBJECT_NAME", Key::ObjectName),
    (b"OBJECT_ID", Key::ObjectId),
    (b"CENTER_NAME", Key::CenterName),
    (b"REF_FRAME", Key::RefFrame),
    (b"REF_FRAME_EPOCH", Key::RefFrameEpoch),
    (b"TIME_SYSTEM", Key::TimeSystem),
    (b"START_TIME", Key::StartTime),
    (b"STOP_TIME", Key::StopTime),
    (b"USEABLE_START_TIME", Key::UseableStartTime),
    (b"USEABLE_STOP_TIME", Key::UseableStopTime),
    (b"INTERPOLATION", Key::Interpolation),
    (b"INTERPOLATION_DEGREE", Key::InterpolationDegree),
];

/// The key that a text is.
pub fn key_of(text: &[u8]) -> Option<Key>
    ensures { result ≡ spec.key_of text.now }
{
    for (word, key) in &KEYS {
        if text == *word {
            return Some(*key);
        }
    }
    None
}
