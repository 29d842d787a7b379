//! Certificates of version 2, which have one box for a block of slots where the object then touches nothing more.
ghost use Rattle.std.specs.Prelude.{◌≡◌, map, IfOk};
ghost use Rattle.cj_formats.specs.declared.cert_version.CertVersion.TheVariants.{Two};
ghost use Rattle.cj_case.specs.Pairs.{objects_of};
ghost use Rattle.cj_case.specs.Problems.{plain_problem};
ghost use Rattle.cj_case.specs.Leaves.{plain_leaves};
ghost use Rattle.cj_bezier.specs.Candidates.{pairs_kept};
ghost use Rattle.cj_bezier.specs.MeasuredObjects.{AreMeasured};
ghost use Rattle.cj_cert.specs.Accepted.{Accepted};
ghost use Rattle.cj_cert.specs.Certificates.{plain_certificate};
ghost use Rattle.cj_cert.specs.Listed.{shells_listed};
ghost use Rattle.cj_blocks.specs.Rewritten as spec;
ghost use Rattle.cj_blocks.specs.Rewritten.{pairs_by_shells, written_in};
ghost use Rattle.cj_cert.specs.Written.{leaves_in_order};

use crate::accepting::acceptance_in_blocks;
use crate::block_lines::block_lines;
use crate::listed_boxes::listed_boxes;
use cj_case::{Leaf, Measured, Pair, Problem, Shell, slot_count};
use cj_cert::{Certificate, cell_lines, shell_lines, size_lines};
use cj_formats::CertVersion;
use std::alloc::{AllocError, Global};

/// The certificate of a problem in version 2, from what is measured of its objects, the pairs that their shells keep, and the leaves of all
/// candidates, in order of pair and time. It is accepted for the problem.
pub fn certificate_in_blocks(
    alloc: Global,
    problem: &Problem,
    measured: &Measured,
    kept: &[Pair],
    leaves: &[Leaf],
) -> Result<Certificate, AllocError>
    requires measured { AreMeasured (plain_problem problem.now) measured.now }
    requires kept { map objects_of kept.now ≡ pairs_kept (plain_problem problem.now) }
    requires leaves { plain_leaves leaves.now ≡ leaves_in_order (plain_problem problem.now) }
    ensures value { IfOk result (λ cert. plain_certificate cert ≡ written_in Two (plain_problem problem.now)) }
    ensures accepted { IfOk result (λ cert. Accepted (plain_problem problem.now) (plain_certificate cert)) }
{
    acceptance_in_blocks(problem);
    let objects = problem.tracks.as_slice().len() as u32;
    let sizes = size_lines(alloc, problem.sizes.as_slice())?;
    let shells = shell_lines(alloc, &measured.shells)?;
    let boxes = block_lines(alloc, problem, &measured.boxes, kept)?;
    let cells = cell_lines(alloc, leaves)?;
    Ok(Certificate {
        version: CertVersion::Two,
        window: problem.window,
        threshold: problem.threshold,
        objects,
        sizes,
        shells,
        boxes,
        cells,
    })
}

/// The shells that a certificate lists, line by line.
pub fn listed_shells(alloc: Global, cert: &Certificate) -> Result<Vec<Option<Shell>>, AllocError>
    ensures { IfOk result (λ shells. shells.items ≡ shells_listed (plain_certificate cert.now)) }
{
    let mut shells = Vec::with_capacity(alloc, cert.shells.len())?;
    for line in &cert.shells {
        shells.push(line.shell)?;
    }
    Ok(shells)
}

/// A certificate in version 2: one of version 1 with the problem's sizes, the same shells and cells, and blocks over its listed boxes
/// and the pairs that its listed shells keep. It is accepted for the problem where the given one is.
pub fn in_version_2(
    alloc: Global,
    problem: &Problem,
    cert: Certificate,
    kept: &[Pair],
) -> Result<Certificate, AllocError>
    requires kept { map objects_of kept.now ≡ pairs_by_shells (plain_problem problem.now) (plain_certificate cert) }
    ensures value { IfOk result (λ new. plain_certificate new ≡ spec.in_version_2 (plain_problem problem.now) (plain_certificate cert)) }
    ensures accepted { IfOk result (λ new. Accepted (plain_problem problem.now) (plain_certificate cert) → Accepted (plain_problem problem.now) (plain_certificate new)) }
{
    acceptance_in_blocks(problem);
    match cert.version {
        CertVersion::One => rewritten(alloc, problem, cert, kept),
        CertVersion::Two => Ok(cert),
    }
}

/// A certificate of version 1 with the problem's sizes, the same shells and cells, and blocks over its listed boxes and the pairs that its
/// listed shells keep.
fn rewritten(
    alloc: Global,
    problem: &Problem,
    cert: Certificate,
    kept: &[Pair],
) -> Result<Certificate, AllocError>
    requires { map objects_of kept.now ≡ pairs_by_shells (plain_problem problem.now) (plain_certificate cert) }
    ensures { IfOk result (λ new. plain_certificate new ≡ spec.rewritten (plain_problem problem.now) (plain_certificate cert)) }
{
    let objects = problem.tracks.as_slice().len() as u32;
    let sizes = size_lines(alloc, problem.sizes.as_slice())?;
    let given = listed_boxes(alloc, &cert.boxes, objects, slot_count(problem.window))?;
    let boxes = block_lines(alloc, problem, &given, kept)?;
    Ok(Certificate {
        version: CertVersion::Two,
        window: cert.window,
        threshold: cert.threshold,
        objects: cert.objects,
        sizes,
        shells: cert.shells,
        boxes,
        cells: cert.cells,
    })
}
