/// In which version a certificate is written.
#[derive(Clone, Copy, Debug, PartialEq, Eq)]
pub enum CertVersion {
    /// No sizes, and a box for each slot of an object.
    One,
    /// The sizes of the objects, and boxes for runs of slots.
    Two,
}

impl CertVersion {
    ghost use Rattle.std.specs.Prelude.{◌≡◌};
    ghost use Rattle.cj_formats.specs.Versions as spec;

    /// The version of this number, where there is one.
    pub fn from_number(number: u64) -> Option<Self>
        ensures { result ≡ spec.version_of_number number }
    {
        match number {
            1 => Some(CertVersion::One),
            2 => Some(CertVersion::Two),
            _ => None,
        }
    }

    /// Its number, as the first line of a certificate tells it.
    pub fn number(self) -> u32
        ensures { result ≡ spec.number_of_version self }
    {
        match self {
            CertVersion::One => 1,
            CertVersion::Two => 2,
        }
    }

    /// How many objects a certificate of this version may have.
    pub fn most_objects(self) -> u32
        ensures { result ≡ spec.most_objects self }
    {
        match self {
            CertVersion::One => 2_000,
            CertVersion::Two => 2_000,
        }
    }
}
