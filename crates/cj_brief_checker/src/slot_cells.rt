//! The cells of each slot, by several workers. A worker takes them from where they begin if all cells are in order, of which nothing is
//! proved: what it finds counts where the cells of the slots before end there, and else the slot is gone over again.
ghost use Rattle.std.specs.Prelude.{◌≡◌, ◌^◌, ◌<◌, ◌≤◌, IfOk, length};
ghost use Rattle.cj_case.specs.Problems.{plain_problem};
ghost use Rattle.cj_case.specs.Slots.{slot_count as the_count};
ghost use Rattle.cj_brief_checker.specs.Shown.{AreBoxes};
ghost use Rattle.cj_brief_checker.specs.SlotCells.{AreTried, IsFound, IsTried};

use crate::cell_steps::slot_of;
use crate::halt::Halt;
use crate::scratch::Scratch;
use crate::slot_pairs::SlotPairs;
use crate::tiled::Tiled;
use crate::tiling::tile_slot;
use cj_brief::BriefCertificate;
use cj_case::{AxisBox, BySlot, Problem, slot_count};
use cj_cert::CellLine;
use cj_checker::CellFault;
use cj_threads::{Nobody, map_dealt};
use std::alloc::{AllocError, Global};
use std::thread::Threads;

/// The place of the first cell that begins in a slot or behind, if the cells are in order.
fn first_in(problem: &Problem, cells: &[CellLine], slot: u32) -> usize
    ensures { result ≤ length cells.now }
{
    let first = problem.window.first;
    cells.partition_point(|cell| slot_of(first, cell.first) < u64::from(slot))
}

/// What comes of the cells of a slot from a place on.
fn tile(
    alloc: Global,
    problem: &Problem,
    boxes: &BySlot<Option<AxisBox>>,
    cert: &BriefCertificate,
    slot: u32,
    at: usize,
) -> Result<Result<usize, CellFault>, AllocError>
    requires boxes { AreBoxes (plain_problem problem.now) boxes.now }
    requires shells { length cert.now.shells.items ≡ length problem.now.tracks }
    requires exists { slot < the_count problem.now.window.first.micros problem.now.window.last.micros }
    requires place { at ≤ length cert.now.cells.items }
    ensures { IfOk result (IsFound problem.now cert.now slot at) }
{
    let mut candidates = SlotPairs::new(alloc);
    candidates.find(problem, boxes, cert, slot)?;
    let mut scratch = Scratch::new(alloc, problem)?;
    Ok(tile_slot(
        problem,
        slot,
        &candidates.pairs,
        &mut scratch,
        &cert.cells,
        at,
    ))
}

/// The same from where the cells of the slot begin, if all are in order. Nothing where memory is wanting, or the workers are to leave it.
fn try_slot(
    alloc: Global,
    problem: &Problem,
    boxes: &BySlot<Option<AxisBox>>,
    cert: &BriefCertificate,
    slot: u32,
    halt: &Halt,
) -> Option<Tiled>
    requires boxes { AreBoxes (plain_problem problem.now) boxes.now }
    requires shells { length cert.now.shells.items ≡ length problem.now.tracks }
    requires exists { slot < the_count problem.now.window.first.micros problem.now.window.last.micros }
    ensures { IsTried problem.now cert.now slot result }
{
    if halt.is_called() {
        return None;
    }
    let from = first_in(problem, &cert.cells, slot);
    match tile(alloc, problem, boxes, cert, slot, from) {
        Err(_) => None,
        Ok(found) => {
            if found.is_err() {
                halt.call();
            }
            Some(Tiled { from, found })
        }
    }
}

/// What is tried of each slot, by as many threads as there are workers: each takes the next slot. Where one fails, those that are not
/// begun are left.
pub(crate) fn try_slots<R: Threads + Sync>(
    rt: &R,
    alloc: Global,
    problem: &Problem,
    boxes: &BySlot<Option<AxisBox>>,
    cert: &BriefCertificate,
    workers: u32,
) -> Result<Vec<Option<Tiled>>, AllocError>
    requires boxes { AreBoxes (plain_problem problem.now) boxes.now }
    requires shells { length cert.now.shells.items ≡ length problem.now.tracks }
    ensures { IfOk result (λ tries. AreTried problem.now cert.now tries.items) }
{
    let halt = Halt::new();
    let attempt = |slot: usize| -> Option<Tiled>
        requires { AreBoxes (plain_problem problem.now) boxes.now × (length cert.now.shells.items ≡ length problem.now.tracks)
            × (slot < the_count problem.now.window.first.micros problem.now.window.last.micros) × (slot < 2 ^ 32) }
        ensures { IsTried problem.entry.now cert.entry.now slot result }
    { try_slot(alloc, problem, boxes, cert, slot as u32, &halt) };
    let slots = slot_count(problem.window);
    let tries = map_dealt(
        rt,
        alloc,
        slots as usize,
        workers as usize,
        &Nobody,
        &attempt,
    )?;
    Ok(tries)
}

/// What comes of the cells of a slot from a place on, which may be what was tried.
pub(crate) fn found_from(
    alloc: Global,
    problem: &Problem,
    boxes: &BySlot<Option<AxisBox>>,
    cert: &BriefCertificate,
    slot: u32,
    tried: Option<Tiled>,
    at: usize,
) -> Result<Result<usize, CellFault>, AllocError>
    requires boxes { AreBoxes (plain_problem problem.now) boxes.now }
    requires shells { length cert.now.shells.items ≡ length problem.now.tracks }
    requires exists { slot < the_count problem.now.window.first.micros problem.now.window.last.micros }
    requires tried { IsTried problem.now cert.now slot tried }
    requires place { at ≤ length cert.now.cells.items }
    ensures { IfOk result (IsFound problem.now cert.now slot at) }
{
    if let Some(tiled) = tried {
        if tiled.from == at {
            return Ok(tiled.found);
        }
    }
    tile(alloc, problem, boxes, cert, slot, at)
}
