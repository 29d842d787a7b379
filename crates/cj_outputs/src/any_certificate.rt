ghost use Rattle.std.specs.Prelude.{◌≡◌, map, IfOk};
ghost use Rattle.cj_cert.specs.Certificates.{plain_cell_line};
ghost use Rattle.cj_outputs.specs.Either.{AreOfObjects, by_pairs};

use cj_base::Window;
use cj_brief::BriefCertificate;
use cj_cert::{CellLine, Certificate, SizeOfLine};
use std::alloc::AllocError;

/// A certificate in full, in one of its versions, or in brief.
#[derive(Debug, Drop, PartialEq, Eq)]
pub enum AnyCertificate {
    InFull(Certificate),
    InBrief(BriefCertificate),
}

/// What a certificate states of the case for which it was made, before it tells of pairs.
#[derive(Clone, Copy, Debug)]
pub struct Stated<'c> {
    pub window: Window,
    /// In nm.
    pub threshold: u64,
    /// How many objects there are.
    pub objects: u32,
    pub sizes: &'c [SizeOfLine],
}

impl AnyCertificate {
    ghost use Rattle.cj_outputs.specs.Either as spec;
    ghost use Rattle.cj_outputs.specs.EitherKept.{plain_any};

    /// Its cells, in order of pair and time.
    pub fn into_cells(self) -> Result<Vec<CellLine>, AllocError>
        requires { spec.NamesItsObjects (plain_any self) }
        ensures { IfOk result (λ cells. map plain_cell_line cells.items ≡ spec.cells_in (plain_any self)) }
    {
        match self {
            AnyCertificate::InFull(certificate) => Ok(certificate.cells),
            AnyCertificate::InBrief(certificate) => {
                cells_by_pairs(certificate.cells, certificate.objects)
            }
        }
    }

    /// What it states of its case.
    pub fn stated(&self) -> Stated<'_> {
        match self {
            AnyCertificate::InFull(certificate) => Stated {
                window: certificate.window,
                threshold: certificate.threshold,
                objects: certificate.objects,
                sizes: &certificate.sizes,
            },
            AnyCertificate::InBrief(certificate) => Stated {
                window: certificate.window,
                threshold: certificate.threshold,
                objects: certificate.objects,
                sizes: &certificate.sizes,
            },
        }
    }
}

/// Cells pair by pair, those of a pair as they stood. All are of these objects.
fn cells_by_pairs(mut cells: Vec<CellLine>, objects: u32) -> Result<Vec<CellLine>, AllocError>
    requires { AreOfObjects objects (map plain_cell_line cells.items) }
    ensures { IfOk result (λ sorted. map plain_cell_line sorted.items ≡ by_pairs objects (map plain_cell_line cells.items)) }
{
    cells.sort_by_key(|line: &CellLine| line.pair)?;
    Ok(cells)
}
