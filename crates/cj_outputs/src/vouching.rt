//! Whether a report is that of the cells of an accepted certificate.
ghost use Rattle.std.specs.Prelude.{◌≡◌, ◌≢◌, ◌≤◌, Err, All, IfOk, IfErr, IfSome, OnOk, count_by, length, map, option_map};
ghost use Rattle.cj_base.specs.Bounds.{MOST_LEAVES};
ghost use Rattle.cj_words.specs.Limits.{MOST_CERTIFICATE_BYTES};
ghost use Rattle.cj_case.specs.Problems.{plain_problem};
ghost use Rattle.cj_case.specs.Leaves.{plain_leaf, plain_leaves};
ghost use Rattle.cj_case.specs.Order.{AreInOrder};
ghost use Rattle.cj_cert.specs.Certificates.{plain_cell_line};
ghost use Rattle.cj_cert.specs.Splits.{CellsSplit};
ghost use Rattle.cj_meet.specs.Closest.{HasNearest, KeepTheirPieces};
ghost use Rattle.cj_meet.specs.Encounters.{encounters_of};
ghost use Rattle.cj_meet.specs.Spans.{HaveExactSpans};
ghost use Rattle.cj_outputs.specs.Checks.{AcceptedReport};
ghost use Rattle.cj_outputs.specs.Differences as text;
ghost use Rattle.cj_outputs.specs.Outcome as spec;
ghost use Rattle.cj_status.specs.Steps.{Gives, ComesBetween};

use crate::meetings::find_meetings;
use crate::processors::processors;
use cj_case::{Cell, Leaf, Problem};
use cj_cert::CellLine;
use cj_io::Gate;
use cj_report::{Tells, report_text};
use cj_status::{CertificateCause, LimitFault, Status};
use std::alloc::{AllocError, Global};
use std::thread::Threads;

/// Accepts the bytes of a report, where there are any, that are the report of a problem with the encounters of these cells of an accepted
/// certificate, of which there are at most so many. The report is to tell the sizes, or not.
pub fn accept_report<R: Threads + Sync, G: Gate + Sync>(
    rt: &R,
    alloc: Global,
    gate: &G,
    problem: &Problem,
    tells: Tells,
    cells: &[CellLine],
    most_cells: u64,
    report: Option<Vec<u8>>,
) -> Result<(), Status>
    requires small { IfSome report (λ bytes. length bytes.items ≤ MOST_CERTIFICATE_BYTES) }
    requires few { most_cells ≤ MOST_LEAVES }
    requires in_order { AreInOrder (map plain_cell_line cells.now) }
    requires pieces { KeepTheirPieces (plain_problem problem.now) (map plain_cell_line cells.now) }
    requires split { CellsSplit (plain_problem problem.now) (map plain_cell_line cells.now) }
    ensures between { IfErr result ComesBetween }
    ensures read { result ≢ Err Status.ReadFault }
    ensures told { Gives ⊥ (λ done. done) result
        (spec.report_if_accepting most_cells tells (plain_problem problem.now) (map plain_cell_line cells.now) (option_map (λ bytes. bytes.items) report)) }
    ensures holds { OnOk result
        (IfSome report (λ bytes. AcceptedReport tells (plain_problem problem.now) (map plain_cell_line cells.now) bytes.items)) }
{
    match report {
        None => Ok(()),
        Some(bytes) => accept_bytes(rt, alloc, gate, problem, tells, cells, most_cells, &bytes),
    }
}

/// Accepts the bytes that are the report of a problem with the encounters of these cells, of which there are at most so many.
#[tactic(auto, unfolding(crate::specs::Outcome::report_accepting))]
fn accept_bytes<R: Threads + Sync, G: Gate + Sync>(
    rt: &R,
    alloc: Global,
    gate: &G,
    problem: &Problem,
    tells: Tells,
    cells: &[CellLine],
    most_cells: u64,
    bytes: &[u8],
) -> Result<(), Status>
    requires small { length bytes.now ≤ MOST_CERTIFICATE_BYTES }
    requires few { most_cells ≤ MOST_LEAVES }
    requires in_order { AreInOrder (map plain_cell_line cells.now) }
    requires pieces { KeepTheirPieces (plain_problem problem.now) (map plain_cell_line cells.now) }
    requires split { CellsSplit (plain_problem problem.now) (map plain_cell_line cells.now) }
    ensures between { IfErr result ComesBetween }
    ensures read { result ≢ Err Status.ReadFault }
    ensures told { Gives ⊥ (λ done. done) result (spec.report_accepting most_cells tells (plain_problem problem.now) (map plain_cell_line cells.now) bytes.now) }
    ensures holds { OnOk result (AcceptedReport tells (plain_problem problem.now) (map plain_cell_line cells.now) bytes.now) }
{
    if cells.len() as u64 > most_cells {
        return Err(Status::Limit(LimitFault::Cells { limit: most_cells }));
    }
    let leaves = leaves_of(alloc, cells)?;
    let due = report_due(rt, alloc, gate, problem, tells, &leaves)?;
    accept_as(bytes, &due)
}

/// The cells of a certificate as leaves.
fn leaves_of(alloc: Global, cells: &[CellLine]) -> Result<Vec<Leaf>, AllocError>
    ensures { IfOk result (λ leaves. plain_leaves leaves.items ≡ map plain_cell_line cells.now) }
{
    let mut leaves = Vec::with_capacity(alloc, cells.len())?;
    for cell in cells {
        leaves.push(leaf_of(cell))?;
    }
    Ok(leaves)
}

/// A cell of a certificate as a leaf. It tells of no root, and stands as the first one's.
fn leaf_of(line: &CellLine) -> Leaf
    ensures { plain_leaf result ≡ plain_cell_line line.now }
{
    Leaf {
        cell: Cell {
            pair: line.pair,
            root: 0,
            first: line.first,
            last: line.last,
        },
        kind: line.kind,
    }
}

/// The report of a problem with the encounters of these leaves.
fn report_due<R: Threads + Sync, G: Gate + Sync>(
    rt: &R,
    alloc: Global,
    gate: &G,
    problem: &Problem,
    tells: Tells,
    leaves: &[Leaf],
) -> Result<Vec<u8>, AllocError>
    requires few { length leaves.now ≤ MOST_LEAVES }
    requires in_order { AreInOrder (plain_leaves leaves.now) }
    requires pieces { KeepTheirPieces (plain_problem problem.now) (plain_leaves leaves.now) }
    ensures text { IfOk result (λ text. text.items ≡ spec.report_bytes tells (plain_problem problem.now) (plain_leaves leaves.now)) }
    ensures spans { HaveExactSpans (plain_leaves leaves.now) }
    ensures nearest { OnOk result (All (HasNearest (plain_problem problem.now)) (encounters_of (plain_leaves leaves.now))) }
{
    let met = find_meetings(rt, alloc, gate, problem, leaves, processors(rt))?;
    report_text(
        alloc,
        problem,
        tells,
        leaves,
        &met.encounters,
        &met.closest,
        &met.messages,
    )
}

/// Accepts the bytes of a report that are those that are due.
fn accept_as(bytes: &[u8], due: &[u8]) -> Result<(), Status>
    requires { length bytes.now ≤ MOST_CERTIFICATE_BYTES }
    ensures { result ≡ spec.as_due bytes.now due.now }
{
    if bytes == due {
        Ok(())
    } else {
        Err(Status::NotAccepted {
            line: differing_line(bytes, due),
            cause: CertificateCause::Report,
        })
    }
}

/// The number of the line in which a text first differs from another, counted from 1.
fn differing_line(bytes: &[u8], others: &[u8]) -> u32
    requires { length bytes.now ≤ MOST_CERTIFICATE_BYTES }
    ensures { result ≡ text.differing_line bytes.now others.now }
{
    common_lines(bytes, others) as u32 + 1
}

/// How many lines end in what two texts both begin with.
fn common_lines(bytes: &[u8], others: &[u8]) -> usize
    ensures { result ≡ count_by text.ends_line (text.common_front bytes.now others.now) }
{
    bytes
        .iter()
        .zip(others)
        .take_while(|(byte, other)| byte == other)
        .filter(|(byte, _)| **byte == b'\n')
        .count()
}
