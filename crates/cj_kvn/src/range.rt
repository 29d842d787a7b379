//! Parts of the bytes of a file.
ghost use Rattle.std.specs.Prelude.{◌≡◌, ◌+◌, length};
ghost use Rattle.cj_kvn.specs.Ranges.{IsWithin, text_at};

/// A part of some bytes, from the first place on and up to the place past its last.
#[derive(Clone, Copy, Debug, PartialEq, Eq)]
pub struct Range32 {
    pub first: u32,
    pub past: u32,
}

impl Range32 {
    /// The bytes of the part.
    pub fn text(self, bytes: &[u8]) -> &[u8]
        requires { IsWithin bytes.now self }
        ensures text { result.now ≡ text_at bytes.now self }
        ensures len { self.first + length result.now ≡ self.past }
    {
        &bytes[self.first as usize..self.past as usize]
    }
}
