use crate::cert_version::CertVersion;

/// How the lines of a certificate go: in full, in one of its versions, or in brief, which is version 3.
#[derive(Clone, Copy, Debug, PartialEq, Eq)]
pub enum CertFormat {
    /// It tells a box for each slot of an object, and each cell.
    Full(CertVersion),
    /// It tells no boxes, and no cells of pairs that are far throughout.
    Brief,
}

impl CertFormat {
    ghost use Rattle.std.specs.Prelude.{◌≡◌};
    ghost use Rattle.cj_formats.specs.Formats as spec;

    /// The number of its version, as the first line of a certificate tells it.
    pub fn number(self) -> u32
        ensures { result ≡ spec.number_of_format self }
    {
        match self {
            CertFormat::Full(version) => version.number(),
            CertFormat::Brief => 3,
        }
    }

    /// How many objects a certificate of this format may have.
    pub fn most_objects(self) -> u32
        ensures { result ≡ spec.most_objects_in self }
    {
        match self {
            CertFormat::Full(version) => version.most_objects(),
            CertFormat::Brief => 65_535,
        }
    }
}
