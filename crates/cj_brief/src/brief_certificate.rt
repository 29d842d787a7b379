use cj_base::Window;
use cj_cert::{CellLine, ShellLine, SizeOfLine};

/// A certificate in brief: what a run was asked, the sizes, primaries and shells of its objects, and what stands behind its report, slot by slot, for
/// each pair that is not far throughout.
#[derive(Debug, Drop, PartialEq, Eq)]
pub struct BriefCertificate {
    pub window: Window,
    /// In nm.
    pub threshold: u64,
    /// How many objects there are.
    pub objects: u32,
    pub sizes: Vec<SizeOfLine>,
    /// The numbers of the objects that are named as primaries, none where no objects are named.
    pub primaries: Vec<u32>,
    pub shells: Vec<ShellLine>,
    pub cells: Vec<CellLine>,
}
