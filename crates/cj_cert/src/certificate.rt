ghost use Rattle.std.specs.Prelude.{◌≡◌, true};
ghost use Rattle.cj_cert.specs.Versions.{is_of_version};

use crate::cert_lines::{BoxLine, CellLine, ShellLine, SizeOfLine};
use cj_base::Window;
use cj_formats::CertVersion;

/// A certificate: what a run was asked, and for each object and pair what stands behind its report.
#[derive(Debug, Drop, PartialEq, Eq)]
pub struct Certificate {
    pub version: CertVersion,
    pub window: Window,
    /// In nm.
    pub threshold: u64,
    /// How many objects there are.
    pub objects: u32,
    pub sizes: Vec<SizeOfLine>,
    pub shells: Vec<ShellLine>,
    pub boxes: Vec<BoxLine>,
    pub cells: Vec<CellLine>,
    pub ghost of_version: { is_of_version version sizes.items boxes.items ≡ true },
}
