//! The certificate that a run writes.
ghost use Rattle.std.specs.Prelude.{◌≡◌, ◌++◌, ◌<◌, ◌^◌, true, [], map, length, IfOk, OnOk};
ghost use Rattle.std.specs.List.{flat_map, range_with_len};
ghost use Rattle.cj_formats.specs.declared.cert_version.CertVersion.TheVariants.{One};
ghost use Rattle.cj_case.specs.Problems.{plain_problem};
ghost use Rattle.cj_case.specs.Leaves.{plain_leaves};
ghost use Rattle.cj_case.specs.Boxes.{plain_boxes, plain_rows};
ghost use Rattle.cj_cert.specs.Accepted.{Accepted};
ghost use Rattle.cj_cert.specs.Certificates.{plain_box_line, plain_cell_line, plain_certificate};
ghost use Rattle.cj_cert.specs.Versions.{is_of_version};
ghost use Rattle.cj_bezier.specs.MeasuredObjects.{AreMeasured};
ghost use Rattle.cj_cert.specs.Written.{leaves_in_order, line_by_shells, lines_by_boxes, lines_in_row, size_lines as the_size_lines, written};

use crate::accepting::acceptance;
use crate::cert_lines::{BoxLine, CellLine, ShellLine, SizeOfLine};
use crate::certificate::Certificate;
use cj_case::{AxisBox, BySlot, Leaf, Measured, Problem, Shell};
use cj_formats::CertVersion;
use std::alloc::{AllocError, Global};

/// The certificate of a problem in version 1, from what is measured of its objects and the leaves of all candidates, in order of pair and
/// time. It is accepted for the problem.
pub fn written_certificate(
    alloc: Global,
    problem: &Problem,
    measured: &Measured,
    leaves: &[Leaf],
) -> Result<Certificate, AllocError>
    requires measured { AreMeasured (plain_problem problem.now) measured.now }
    requires leaves { plain_leaves leaves.now ≡ leaves_in_order (plain_problem problem.now) }
    ensures value { IfOk result (λ cert. plain_certificate cert ≡ written (plain_problem problem.now)) }
    ensures accepted { IfOk result (λ cert. Accepted (plain_problem problem.now) (plain_certificate cert)) }
{
    acceptance(problem);
    let objects = problem.tracks.as_slice().len() as u32;
    let shells = shell_lines(alloc, &measured.shells)?;
    let boxes = box_lines(alloc, &measured.boxes)?;
    let cells = cell_lines(alloc, leaves)?;
    Ok(Certificate {
        version: CertVersion::One,
        window: problem.window,
        threshold: problem.threshold,
        objects,
        sizes: Vec::new(alloc),
        shells,
        boxes,
        cells,
    })
}

/// A line for each object with its size.
pub fn size_lines(alloc: Global, sizes: &[u64]) -> Result<Vec<SizeOfLine>, AllocError>
    requires { length sizes.now < 2 ^ 32 }
    ensures { IfOk result (λ lines. lines.items ≡ the_size_lines sizes.now) }
{
    let mut lines = Vec::with_capacity(alloc, sizes.len())?;
    for size in sizes {
        let object = lines.len() as u32;
        lines.push(SizeOfLine {
            object,
            size: *size,
        })?;
    }
    Ok(lines)
}

/// A line for each object with its shell.
pub fn shell_lines(alloc: Global, shells: &[Option<Shell>]) -> Result<Vec<ShellLine>, AllocError>
    requires { length shells.now < 2 ^ 32 }
    ensures { IfOk result (λ lines. lines.items ≡ map (line_by_shells shells.now) (range_with_len 0 (length shells.now))) }
{
    let mut lines = Vec::with_capacity(alloc, shells.len())?;
    for shell in shells {
        let object = lines.len() as u32;
        lines.push(ShellLine {
            object,
            shell: *shell,
        })?;
    }
    Ok(lines)
}

/// A line for each object and each of its slots in which it has a box.
fn box_lines(alloc: Global, boxes: &BySlot<Option<AxisBox>>) -> Result<Vec<BoxLine>, AllocError>
    requires { length boxes.now.rows < 2 ^ 32 }
    ensures value { IfOk result (λ lines. map plain_box_line lines.items
        ≡ flat_map (lines_by_boxes (plain_rows boxes.now.rows) boxes.now.slots) (range_with_len 0 (length boxes.now.rows))) }
    ensures single { IfOk result (λ lines. is_of_version One [] lines.items ≡ true) }
{
    let count = boxes.objects() as u32;
    let mut lines = Vec::new(alloc);
    for object in 0..count {
        append_box_lines(boxes.of_object(object), object, boxes.slots(), &mut lines)?;
    }
    Ok(lines)
}

/// Appends a line for each slot in which an object has a box.
fn append_box_lines(
    row: &[Option<AxisBox>],
    object: u32,
    slots: u32,
    lines: &mut Vec<BoxLine>,
) -> Result<(), AllocError>
    requires { length row.now ≡ slots }
    ensures value { OnOk result (map plain_box_line lines.new.items ≡ map plain_box_line lines.old.items ++ lines_in_row (plain_boxes row.now) slots object) }
    ensures single { OnOk result (is_of_version One [] lines.old.items ≡ true → is_of_version One [] lines.new.items ≡ true) }
{
    for slot in 0..slots {
        if let Some(area) = row[slot as usize] {
            lines.push(BoxLine {
                object,
                first: slot,
                last: slot,
                area,
            })?;
        }
    }
    Ok(())
}

/// A line for each leaf.
pub fn cell_lines(alloc: Global, leaves: &[Leaf]) -> Result<Vec<CellLine>, AllocError>
    ensures { IfOk result (λ lines. map plain_cell_line lines.items ≡ plain_leaves leaves.now) }
{
    let mut lines = Vec::with_capacity(alloc, leaves.len())?;
    for leaf in leaves {
        lines.push(CellLine {
            pair: leaf.cell.pair,
            first: leaf.cell.first,
            last: leaf.cell.last,
            kind: leaf.kind,
        })?;
    }
    Ok(lines)
}
