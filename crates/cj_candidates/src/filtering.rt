//! The candidates of a problem, with their roots: shells and boxes first, then one slot after another; at the end the roots, which come in order, are numbered.
ghost use Rattle.std.specs.Prelude.{◌≡◌, ℕ, ◌<◌, ◌≤◌, Bool, length, map, filter, vec_len, IfOk, OnOk, IsErrOf};
ghost use Rattle.std.specs.List.{range_with_len};
ghost use Rattle.cj_base.specs.Bounds.{MOST_LEAVES};
ghost use Rattle.cj_case.specs.Pairs.{objects_of, pairs_of};
ghost use Rattle.cj_case.specs.Problems.{plain_problem};
ghost use Rattle.cj_case.specs.Cells.{plain_cells};
ghost use Rattle.cj_bezier.specs.Candidates.{is_candidate, pairs_kept};
ghost use Rattle.cj_hermite.specs.Roots.{roots_of, slots_of};
ghost use Rattle.cj_bezier.specs.MeasuredObjects.{AreMeasured};
ghost use Rattle.cj_cells.specs.Cells.{root_numbers};
ghost use Rattle.cj_candidates.specs.Counts.{candidate_count};
ghost use Rattle.cj_candidates.specs.MeasuredObjects.{AreOfProblem, ArePlaces};
ghost use Rattle.cj_candidates.specs.SlotRuns.{candidates_at, sought_in};
ghost use Rattle.cj_candidates.specs.SoughtPairs.{is_wanted_candidate};
ghost use Rattle.cj_bezier.specs.Enclosed.{OthersAreFar};

use crate::candidates::Candidates;
use crate::few_primaries::{few_kept, sought_among};
use crate::ground::Ground;
use crate::keeping::kept_of;
use crate::objects_measured::{measure_in_turn, measure_objects, measure_some};
use crate::slot_run::SlotRun;
use crate::slots_searched::{search_in_turn, search_slots};
use crate::sought_pairs::Sought;
use cj_case::{Cell, Measured, Pair, Problem, slot_count};
use cj_cells::{RefineError, number_roots};
use cj_io::{Gate, OpenGate};
use cj_sieve::{ShelledObjects, count_kept};
use std::alloc::{AllocError, Global};
use std::thread::Threads;

/// How many pairs of a problem are kept, once its objects are measured: counted by as many threads as there are workers.
pub fn count_kept_of<R: Threads + Sync>(
    rt: &R,
    alloc: Global,
    problem: &Problem,
    measured: &Measured,
    workers: u32,
) -> Result<u64, AllocError>
    requires measured { AreMeasured (plain_problem problem.now) measured.now }
    ensures { IfOk result (λ count. count ≡ length (pairs_kept (plain_problem problem.now))) }
{
    let thr = problem.threshold;
    let objects = ShelledObjects {
        shells: &measured.shells,
        sizes: problem.sizes.as_slice(),
        primaries: &problem.primaries,
        thr,
    };
    count_kept(rt, alloc, &objects, workers)
}

/// What is found in all slots, with at most so many roots: the roots are in order and numbered.
fn search_all<R: Threads + Sync, G: Gate + Sync>(
    rt: &R,
    alloc: Global,
    gate: &G,
    ground: &Ground<'_, '_>,
    workers: u32,
    limit: u64,
) -> Result<SlotRun, RefineError>
    requires { limit ≤ MOST_LEAVES }
    ensures too_many { IsErrOf result RefineError.TooMany
        → (wanted : ℕ × ℕ → Bool) → sought_in ground.now ≡ filter wanted (pairs_of (length (plain_problem ground.now.problem.now).tracks))
        → limit < length (roots_of (is_wanted_candidate wanted (plain_problem ground.now.problem.now)) (plain_problem ground.now.problem.now)) }

    ensures roots { IfOk result (λ run.
        (wanted : ℕ × ℕ → Bool) → sought_in ground.now ≡ filter wanted (pairs_of (length (plain_problem ground.now.problem.now).tracks))
        → plain_cells run.roots.items
        ≡ roots_of (is_wanted_candidate wanted (plain_problem ground.now.problem.now)) (plain_problem ground.now.problem.now)) }
    ensures numbered { IfOk result (λ run. root_numbers run.roots.items ≡ range_with_len 0 (vec_len run.roots)) }
    ensures few { IfOk result (λ run. vec_len run.roots ≤ limit) }
    ensures touching { IfOk result (λ run. run.touching
        ≡ candidates_at (plain_problem ground.now.problem.now) (sought_in ground.now) (slots_of (plain_problem ground.now.problem.now))) }
{
    let mut found = search_slots(rt, alloc, gate, ground, 0, ground.slots, workers, limit)?;
    number_roots(&mut found.roots);
    Ok(found)
}

/// The candidates of a problem, with at most so many roots, once its objects are measured.
pub fn find_among<R: Threads + Sync, G: Gate + Sync>(
    rt: &R,
    alloc: Global,
    gate: &G,
    problem: &Problem,
    measured: Measured,
    workers: u32,
    limit: u64,
) -> Result<Candidates, RefineError>
    requires limit { limit ≤ MOST_LEAVES }
    requires measured { AreOfProblem problem.now measured }
    ensures too_many { IsErrOf result RefineError.TooMany → limit < length (roots_of (is_candidate (plain_problem problem.now)) (plain_problem problem.now)) }

    ensures same { IfOk result (λ found. found.measured ≡ measured) }
    ensures measured { IfOk result (λ found. AreMeasured (plain_problem problem.now) found.measured) }
    ensures kept { IfOk result (λ found. found.kept ≡ length (pairs_kept (plain_problem problem.now))) }
    ensures roots { IfOk result (λ found. plain_cells found.roots.items ≡ roots_of (is_candidate (plain_problem problem.now)) (plain_problem problem.now)) }
    ensures numbered { IfOk result (λ found. root_numbers found.roots.items ≡ range_with_len 0 (vec_len found.roots)) }
    ensures few { IfOk result (λ found. vec_len found.roots ≤ limit) }
    ensures touching { IfOk result (λ found. found.touching ≡ candidate_count (plain_problem problem.now)) }

    // What is no candidate is far.
    ensures far { OnOk result (OthersAreFar (plain_problem problem.now) (is_candidate (plain_problem problem.now))) }
{
    let few = few_kept(alloc, problem, &measured)?;
    let ground = Ground {
        problem,
        measured: &measured,
        slots: slot_count(problem.window),
        sought: sought_among(problem, &few),
    };
    let kept = count_kept_of(rt, alloc, problem, &measured, workers)?;
    let SlotRun { roots, touching } = search_all(rt, alloc, gate, &ground, workers, limit)?;
    Ok(Candidates {
        measured,
        kept,
        roots,
        touching,
    })
}

/// The roots of those pairs of a list that are candidates, at most so many, in order of pair and time, once the objects are measured. The list holds, in
/// order, the pairs of the problem that are wanted by some test.
pub fn find_wanted<'m, R: Threads + Sync, G: Gate + Sync>(
    rt: &R,
    alloc: Global,
    gate: &G,
    problem: &'m Problem,
    measured: &'m Measured,
    pairs: &[Pair],
    workers: u32,
    limit: u64,
) -> Result<Vec<Cell>, RefineError>
    requires limit { limit ≤ MOST_LEAVES }
    requires measured { AreOfProblem problem.now measured.now }
    requires pairs { (wanted : ℕ × ℕ → Bool) × (map objects_of pairs.now ≡ filter wanted (pairs_of (length (plain_problem problem.now).tracks))) }
    ensures too_many { IsErrOf result RefineError.TooMany
        → (wanted : ℕ × ℕ → Bool) → map objects_of pairs.now ≡ filter wanted (pairs_of (length (plain_problem problem.now).tracks))
        → limit < length (roots_of (is_wanted_candidate wanted (plain_problem problem.now)) (plain_problem problem.now)) }

    ensures roots { IfOk result (λ roots.
        (wanted : ℕ × ℕ → Bool) → map objects_of pairs.now ≡ filter wanted (pairs_of (length (plain_problem problem.now).tracks))
        → plain_cells roots.items ≡ roots_of (is_wanted_candidate wanted (plain_problem problem.now)) (plain_problem problem.now)) }
    ensures numbered { IfOk result (λ roots. root_numbers roots.items ≡ range_with_len 0 (vec_len roots)) }
    ensures few { IfOk result (λ roots. vec_len roots ≤ limit) }

    // What is no candidate is far.
    ensures far { OnOk result (OthersAreFar (plain_problem problem.now) (is_candidate (plain_problem problem.now))) }
{
    let objects = ShelledObjects {
        shells: &measured.shells,
        sizes: problem.sizes.as_slice(),
        primaries: &problem.primaries,
        thr: problem.threshold,
    };
    let kept = kept_of(alloc, pairs, &objects)?;
    let ground = Ground {
        problem,
        measured,
        slots: slot_count(problem.window),
        sought: Sought::These(&kept),
    };
    let SlotRun { roots, .. } = search_all(rt, alloc, gate, &ground, workers, limit)?;
    Ok(roots)
}

/// The candidates of a problem, with at most so many roots.
pub fn find_candidates<R: Threads + Sync, G: Gate + Sync>(
    rt: &R,
    alloc: Global,
    gate: &G,
    problem: &Problem,
    workers: u32,
    limit: u64,
) -> Result<Candidates, RefineError>
    requires { limit ≤ MOST_LEAVES }
    ensures too_many { IsErrOf result RefineError.TooMany → limit < length (roots_of (is_candidate (plain_problem problem.now)) (plain_problem problem.now)) }

    ensures theirs { IfOk result (λ found. AreOfProblem problem.now found.measured) }
    ensures measured { IfOk result (λ found. AreMeasured (plain_problem problem.now) found.measured) }
    ensures kept { IfOk result (λ found. found.kept ≡ length (pairs_kept (plain_problem problem.now))) }
    ensures roots { IfOk result (λ found. plain_cells found.roots.items ≡ roots_of (is_candidate (plain_problem problem.now)) (plain_problem problem.now)) }
    ensures numbered { IfOk result (λ found. root_numbers found.roots.items ≡ range_with_len 0 (vec_len found.roots)) }
    ensures few { IfOk result (λ found. vec_len found.roots ≤ limit) }
    ensures touching { IfOk result (λ found. found.touching ≡ candidate_count (plain_problem problem.now)) }

    // What is no candidate is far.
    ensures far { OnOk result (OthersAreFar (plain_problem problem.now) (is_candidate (plain_problem problem.now))) }
{
    let measured = measure_all(rt, alloc, gate, problem, workers)?;
    find_among(rt, alloc, gate, problem, measured, workers, limit)
}

/// What is measured of all objects of a problem, by so many workers.
pub fn measure_all<R: Threads + Sync, G: Gate + Sync>(
    rt: &R,
    alloc: Global,
    gate: &G,
    problem: &Problem,
    workers: u32,
) -> Result<Measured, AllocError>
    ensures theirs { IfOk result (AreOfProblem problem.now) }
    ensures measured { IfOk result (AreMeasured (plain_problem problem.now)) }
{
    let tracks = problem.tracks.as_slice();
    let slots = slot_count(problem.window);
    measure_objects(rt, alloc, gate, tracks, problem.window, slots, workers)
}

/// What is measured of all objects of a problem, by so many workers, where some of them were measured before: those that have a place among the
/// objects of an old problem with the same window.
pub fn measure_again<R: Threads + Sync, G: Gate + Sync>(
    rt: &R,
    alloc: Global,
    gate: &G,
    problem: &Problem,
    old: &Problem,
    from: &Measured,
    places: &[Option<u32>],
    workers: u32,
) -> Result<Measured, AllocError>
    requires first { problem.now.window.first.micros ≡ old.now.window.first.micros }
    requires last { problem.now.window.last.micros ≡ old.now.window.last.micros }
    requires measured { AreOfProblem old.now from.now }
    requires places { ArePlaces (plain_problem old.now).tracks (plain_problem problem.now).tracks places.now }
    ensures { IfOk result (AreOfProblem problem.now) }
{
    let tracks = problem.tracks.as_slice();
    let slots = slot_count(problem.window);
    measure_some(
        rt,
        alloc,
        gate,
        tracks,
        problem.window,
        slots,
        from,
        places,
        workers,
    )
}

/// The roots of the candidates of a problem, at most so many, found by the thread that calls.
pub fn roots_in_turn(alloc: Global, problem: &Problem, limit: u64) -> Result<Vec<Cell>, RefineError>
    requires { limit ≤ MOST_LEAVES }
    ensures too_many { IsErrOf result RefineError.TooMany → limit < length (roots_of (is_candidate (plain_problem problem.now)) (plain_problem problem.now)) }

    ensures value { IfOk result (λ roots. plain_cells roots.items ≡ roots_of (is_candidate (plain_problem problem.now)) (plain_problem problem.now)) }
    ensures numbered { IfOk result (λ roots. root_numbers roots.items ≡ range_with_len 0 (vec_len roots)) }
    ensures within { IfOk result (λ roots. vec_len roots ≤ limit) }
{
    let slots = slot_count(problem.window);
    let measured = measure_in_turn(alloc, problem.tracks.as_slice(), problem.window, slots)?;
    let ground = Ground {
        problem,
        measured: &measured,
        slots,
        sought: Sought::All,
    };
    let SlotRun { mut roots, .. } = search_in_turn(alloc, &OpenGate, &ground, 0, slots, limit)?;
    number_roots(&mut roots);
    Ok(roots)
}
