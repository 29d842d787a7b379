//! Runs cut into ranges: a range has of each run one slice, so that threads that merge ranges need nothing of each other.
ghost use Rattle.std.specs.Prelude.{◌≡◌, ◌++◌, length, min, IfOk};
ghost use Rattle.std.specs.List.Sorted.{IsPermutation};
ghost use Rattle.cj_threads.specs.Runs.{elements_of, elements_in};

use crate::placed::Placed;
use cj_base::Tick;
use cj_case::Pair;
use std::alloc::{AllocError, Global};

/// How many elements some runs have together, or the greatest number that there is.
pub fn count_of<T>(runs: &[&[T]]) -> usize
    ensures { result ≡ min (length (elements_of runs.now)) usize.MAX }
{
    let mut count = 0usize;
    for run in runs {
        count = count.saturating_add(run.len());
    }
    count
}

/// Where runs are cut into some so many ranges: at the places of elements that lie evenly in the longest run. Any other places would do.
fn places_to_cut<T: Placed>(
    alloc: Global,
    runs: &[&[T]],
    count: usize,
) -> Result<Vec<(Pair, Tick)>, AllocError> {
    let mut places = Vec::new(alloc);
    let Some(longest) = runs.iter().max_by_key(|run| run.len()) else {
        return Ok(places);
    };
    let step = longest.len() / count.max(1);
    for item in longest.iter().step_by(step.max(1)).skip(1) {
        places.push(item.place())?;
    }
    Ok(places)
}

/// Of a run what belongs before a place, and the rest, as far as the run is in order.
fn halves<'r, T: Placed>(run: &'r [T], place: (Pair, Tick)) -> (&'r [T], &'r [T])
    ensures { run.entry.now ≡ result.0.now ++ result.1.now }
{
    let at = run.partition_point(|item: &T| item.place() < place);
    run.split_at(at)
}

/// Of each run what belongs before a place, and of each the rest.
fn cut<'r, T: Placed>(
    alloc: Global,
    runs: &[&'r [T]],
    place: (Pair, Tick),
) -> Result<(Vec<&'r [T]>, Vec<&'r [T]>), AllocError>
    ensures { IfOk result (λ parts. IsPermutation (elements_of runs.now) (elements_of parts.0.items ++ elements_of parts.1.items)) }
{
    let mut low = Vec::with_capacity(alloc, runs.len())?;
    let mut high = Vec::with_capacity(alloc, runs.len())?;
    for run in runs {
        let (below, above) = halves(run, place);
        low.push(below)?;
        high.push(above)?;
    }
    Ok((low, high))
}

/// Runs cut at some places, one after another: a range for each place, and one for what is left behind the last.
fn cut_at<'r, T: Placed>(
    alloc: Global,
    runs: Vec<&'r [T]>,
    places: &[(Pair, Tick)],
) -> Result<Vec<Vec<&'r [T]>>, AllocError>
    ensures { IfOk result (λ ranges. IsPermutation (elements_of runs.entry.items) (elements_in ranges.items)) }
{
    let mut ranges = Vec::new(alloc);
    let mut rest = runs;
    for place in places {
        let (below, above) = cut(alloc, &rest, *place)?;
        ranges.push(below)?;
        rest = above;
    }
    ranges.push(rest)?;
    Ok(ranges)
}

/// Runs cut into some so many ranges, which have all elements together, each as often.
pub fn cut_into_ranges<'r, T: Placed>(
    alloc: Global,
    runs: Vec<&'r [T]>,
    count: usize,
) -> Result<Vec<Vec<&'r [T]>>, AllocError>
    ensures { IfOk result (λ ranges. IsPermutation (elements_of runs.entry.items) (elements_in ranges.items)) }
{
    let places = places_to_cut(alloc, &runs, count)?;
    cut_at(alloc, runs, &places)
}
