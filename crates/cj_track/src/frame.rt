//! Reference frames.
ghost use Rattle.std.specs.Prelude.{◌≡◌};
ghost use Rattle.cj_track.specs.Frames as spec;

/// The reference frame of an ephemeris.
#[derive(Clone, Copy, Debug, PartialEq, Eq)]
pub enum Frame {
    Eme2000,
    Gcrf,
}

/// The name of a frame.
pub fn frame_text(frame: Frame) -> &'static [u8]
    ensures name { result.now ≡ spec.frame_text frame }
{
    match frame {
        Frame::Eme2000 => b"EME2000",
        Frame::Gcrf => b"GCRF",
    }
}
