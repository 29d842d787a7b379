//! The text of the certificate that a run writes, of which nothing is made yet.
ghost use Rattle.std.specs.Prelude.{◌≡◌, ◌++◌, IfOk, flat_map, length};
ghost use Rattle.cj_formats.specs.declared.cert_format.CertFormat.TheVariants.{Brief};
ghost use Rattle.cj_case.specs.Primaries.{named};
ghost use Rattle.cj_case.specs.Problems.{plain_problem};
ghost use Rattle.cj_case.specs.Leaves.{plain_leaves};
ghost use Rattle.cj_bezier.specs.Candidates.{shells_of};
ghost use Rattle.cj_bezier.specs.MeasuredObjects.{AreMeasured};
ghost use Rattle.cj_bezier.specs.ToldLeaves.{told_leaves};
ghost use Rattle.cj_brief.specs.Accepted.{AcceptedInBrief};
ghost use Rattle.cj_brief.specs.Written.{written_in_brief};
ghost use Rattle.cj_cert.specs.Accepted.{Accepted};
ghost use Rattle.cj_cert_text.specs.TextLeft.{text_left};
ghost use Rattle.cj_cert_text.specs.Texts.{brief_text, first_lines_in, primary_text, size_text, text_of};
ghost use Rattle.cj_cert.specs.Written.{leaves_in_order, size_lines as the_size_lines, written};

use crate::certificate_text::CertificateText;
use crate::printed_boxes::boxes_by_object;
use crate::printed_parts::push_in_turn;
use crate::printing::{end, head, push_primaries};
use cj_brief::{acceptance_in_brief, primary_lines};
use cj_case::{Leaf, Measured, Problem, Shell};
use cj_cert::{acceptance, shell_lines, size_lines};
use cj_formats::{CertFormat, CertVersion};
use std::alloc::{AllocError, Global};

impl<'a> CertificateText<'a> {
    /// The whole text for a problem: from what is measured of its objects, and the leaves of all candidates, in order of pair and time. The
    /// certificate is accepted for the problem.
    pub fn new(
        alloc: Global,
        problem: &Problem,
        measured: &'a Measured,
        leaves: &'a [Leaf],
        workers: u32,
    ) -> Result<Self, AllocError>
        requires measured { AreMeasured (plain_problem problem.now) measured.now }
        requires leaves { plain_leaves leaves.now ≡ leaves_in_order (plain_problem problem.now) }
        ensures value { IfOk result (λ text. text_left text ≡ text_of (written (plain_problem problem.now))) }
        ensures accepted { IfOk result (λ text. Accepted (plain_problem problem.now) (written (plain_problem problem.now))) }
    {
        acceptance(problem);
        let objects = problem.tracks.as_slice().len() as u32;
        Ok(CertificateText {
            workers,
            head: head(
                alloc,
                CertFormat::Full(CertVersion::One),
                problem.window,
                problem.threshold,
                objects,
            )?,
            shells: shell_lines(alloc, &measured.shells)?,
            shells_made: 0,
            boxes: boxes_by_object(alloc, &measured.boxes)?,
            boxes_made: 0,
            slots: measured.boxes.slots(),
            leaves,
            leaves_made: 0,
            end: end(alloc)?,
        })
    }
    /// The whole text in brief for a problem: from the shells of its objects, and the leaves of the roots that are not far throughout, in
    /// order of slot, pair and time. The certificate is accepted for the problem.
    pub fn in_brief(
        alloc: Global,
        problem: &Problem,
        shells: &[Option<Shell>],
        told: &'a [Leaf],
        workers: u32,
    ) -> Result<Self, AllocError>
        requires shells { shells.now ≡ shells_of (plain_problem problem.now) }
        requires leaves { plain_leaves told.now ≡ told_leaves (plain_problem problem.now) }
        ensures value { IfOk result (λ text. text_left text ≡ brief_text (written_in_brief (plain_problem problem.now))) }
        ensures accepted { IfOk result (λ text. AcceptedInBrief (plain_problem problem.now) (written_in_brief (plain_problem problem.now))) }
    {
        acceptance_in_brief(problem);
        Ok(CertificateText {
            workers,
            head: head_in_brief(alloc, problem)?,
            shells: shell_lines(alloc, shells)?,
            shells_made: 0,
            boxes: Vec::new(alloc),
            boxes_made: 0,
            slots: 0,
            leaves: told,
            leaves_made: 0,
            end: end(alloc)?,
        })
    }
}

/// The lines in front of the shells, in brief: the first four, the sizes of the objects, and which are named as primaries.
fn head_in_brief(alloc: Global, problem: &Problem) -> Result<Vec<u8>, AllocError>
    ensures { IfOk result (λ text. text.items
        ≡ first_lines_in Brief problem.now.window.first.micros problem.now.window.last.micros problem.now.threshold (length (plain_problem problem.now).tracks)
        ++ flat_map size_text (the_size_lines (plain_problem problem.now).sizes)
        ++ flat_map primary_text (named (plain_problem problem.now).primaries)) }
{
    let objects = problem.tracks.as_slice().len() as u32;
    let sizes = size_lines(alloc, problem.sizes.as_slice())?;
    let primaries = primary_lines(alloc, problem)?;
    let mut text = head(
        alloc,
        CertFormat::Brief,
        problem.window,
        problem.threshold,
        objects,
    )?;
    push_in_turn(&mut text, CertVersion::Two, &sizes)?;
    push_primaries(&mut text, &primaries)?;
    Ok(text)
}
