//! Where the objects of a new problem stand in an old one.
ghost use Rattle.std.specs.Prelude.{◌≡◌, IfOk, map, option_map};
ghost use Rattle.cj_candidates.specs.MeasuredObjects.{ArePlaces};
ghost use Rattle.cj_case.specs.Problems.{plain_problem};

use crate::matching::Matching;
use std::alloc::{AllocError, Global};

/// For each new object the first old one that it is.
pub fn places(alloc: Global, matching: &Matching<'_>) -> Result<Vec<Option<u32>>, AllocError>
    ensures value { IfOk result (λ places. places.items ≡ map (option_map (λ ends. ends.first)) matching.now.ends.items) }
    ensures theirs { IfOk result (λ places. ArePlaces (plain_problem matching.now.old.now).tracks (plain_problem matching.now.new.now).tracks places.items) }
{
    let mut places = Vec::with_capacity(alloc, matching.ends.len())?;
    for ends in &matching.ends {
        places.push(ends.map(|ends| ends.first))?;
    }
    Ok(places)
}
