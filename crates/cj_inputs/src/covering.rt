//! Problems whose objects have to cover the window.
ghost use Rattle.std.specs.Prelude.{◌≡◌, ◌≤◌, List, Some, Err, IfErr, IfOk, map};
ghost use Rattle.cj_io.specs.Faults.{Rose};
ghost use Rattle.cj_io.specs.declared.file.FileBytes.{FileBytes};
ghost use Rattle.cj_case.specs.Problems.{plain_problem};
ghost use Rattle.cj_track.specs.Tracks.{plain_track};
ghost use Rattle.cj_words.specs.Commands.{plain_rescreening};
ghost use Rattle.cj_words.specs.Settings.{plain_settings};
ghost use Rattle.cj_inputs.specs.Coverings as spec;
ghost use Rattle.cj_inputs.specs.FromFiles.{AreFromFiles};
ghost use Rattle.cj_inputs.specs.Updates.{plain_updating};
ghost use Rattle.cj_status.specs.Steps.{Gives, ComesBetween};

use crate::preparing::prepare;
use crate::preparing_updates::prepare_update;
use crate::updating::Updating;
use cj_base::Window;
use cj_case::Problem;
use cj_coverage::first_uncovered;
use cj_io::{Folder, Gate, Name};
use cj_status::{FileCause, Status};
use cj_track::Track;
use cj_words::{Rescreening, Settings};
use std::alloc::Global;
use std::thread::Threads;

/// Prepares the problem that is to be screened. Where its objects have to cover its window, the first that does not is refused.
#[tactic(auto, unfolding(crate::specs::Coverings::case_covered))]
pub fn prepare_screening<R: Threads + Sync, F: Folder, G: Gate + Sync>(
    rt: &R,
    alloc: Global,
    gate: &G,
    folder: &mut F,
    settings: &Settings,
    workers: u32,
) -> Result<Problem, Status>
    ensures between { IfErr result ComesBetween }
    ensures read { result ≡ Err Status.ReadFault → Rose (F.faults folder.old) (F.faults folder.new) }
    ensures told { (files : List FileBytes) → F.files folder.old ≡ Some files
        → Gives (Rose (F.faults folder.old) (F.faults folder.new)) plain_problem result (spec.case_covered files (plain_settings settings.now)) }

    // At each tick of the window an object is between the two states that its file says, or has none there.
    ensures trim_same { (files : List FileBytes) → F.files folder.old ≡ Some files
        → IfOk result (λ problem. AreFromFiles (plain_settings settings.now) files (plain_problem problem)) }

    ensures files { F.files folder.new ≡ F.files folder.old }
    ensures later { F.faults folder.old ≤ F.faults folder.new }
{
    let problem = prepare(rt, alloc, gate, folder, settings, workers)?;
    judge_cover(alloc, settings.must_cover, &problem)?;
    Ok(problem)
}

/// Prepares the problems before and after updates. Where objects have to cover the window, the first of the updated files that does not is refused.
#[tactic(auto, unfolding(crate::specs::Coverings::cases_covered))]
pub fn prepare_rescreening<R: Threads + Sync, F: Folder, G: Gate + Sync>(
    rt: &R,
    alloc: Global,
    gate: &G,
    folder: &mut F,
    rescreening: &Rescreening,
) -> Result<Updating, Status>
    ensures between { IfErr result ComesBetween }
    ensures read { result ≡ Err Status.ReadFault → Rose (F.faults folder.old) (F.faults folder.new) }
    ensures told { (files : List FileBytes) → F.files folder.old ≡ Some files
        → Gives (Rose (F.faults folder.old) (F.faults folder.new)) plain_updating result (spec.cases_covered files (plain_rescreening rescreening.now)) }

    ensures files { F.files folder.new ≡ F.files folder.old }
    ensures later { F.faults folder.old ≤ F.faults folder.new }
{
    let updating = prepare_update(rt, alloc, gate, folder, rescreening)?;
    judge_cover(
        alloc,
        rescreening.screening.settings.must_cover,
        &updating.new,
    )?;
    Ok(updating)
}

/// Refuses the first object of a problem that does not cover its window, where each has to.
fn judge_cover(alloc: Global, must_cover: bool, problem: &Problem) -> Result<(), Status>
    ensures between { IfErr result ComesBetween }
    ensures told { Gives ⊥ (λ done. done) result (spec.covering must_cover (plain_problem problem.now)) }
{
    if must_cover {
        judge_tracks(alloc, problem.tracks.as_slice(), problem.window)
    } else {
        Ok(())
    }
}

/// Refuses the first track that has no state at some tick of a window.
fn judge_tracks(alloc: Global, tracks: &[Track], window: Window) -> Result<(), Status>
    ensures between { IfErr result ComesBetween }
    ensures told { Gives ⊥ (λ done. done) result (spec.all_cover window.first.micros window.last.micros (map plain_track tracks.now)) }
{
    for track in tracks {
        if let Some(at) = first_uncovered(track, window) {
            return Err(Status::BadFile {
                file: Name::copy_of(alloc, track.file.as_slice())?,
                line: 0,
                cause: FileCause::Uncovered { micros: at.micros },
            });
        }
    }
    Ok(())
}
