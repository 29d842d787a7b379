//! The objects of two problems, compared one by one.
ghost use Rattle.std.specs.Prelude.{◌≡◌, ◌<◌, ◌≤◌, length, option_map, IfOk, IfSome};
ghost use Rattle.cj_case.specs.Problems.{plain_problem};
ghost use Rattle.cj_track.specs.Tracks.{plain_track};
ghost use Rattle.cj_track.specs.SameTracks.{same_frame, same_track};
ghost use Rattle.cj_case.specs.Unchanged as unchanged;
ghost use Rattle.cj_case.specs.Unchanged.{is_object};
ghost use Rattle.cj_again.specs.Matchings.{ends_of, objects_like, plain_ends, with_end};

use crate::ends::Ends;
use crate::matching::Matching;
use cj_case::Problem;
use cj_track::Track;
use std::alloc::{AllocError, Global};

/// Whether two tracks have one frame.
fn have_one_frame(one: &Track, other: &Track) -> bool
    ensures { result ≡ same_frame one.now.frame other.now.frame }
{
    one.frame == other.frame
}

#[tactic(auto, unfolding(cj_track::specs::SameTracks::same_track), using(crate::proofs::SameLemmas::segments_same))]
/// Whether two tracks are the same in all fields.
fn are_same_tracks(one: &Track, other: &Track) -> bool
    ensures { result ≡ same_track (plain_track one.now) (plain_track other.now) }
{
    one.file == other.file
        && one.name == other.name
        && one.id == other.id
        && have_one_frame(one, other)
        && one.segments == other.segments
}

#[tactic(auto, unfolding(cj_case::specs::Unchanged::is_object))]
/// Whether an old object is a new one: they have the same track and the same size, and both are primaries or neither is.
fn is_same(old: &Problem, new: &Problem, before: u32, object: u32) -> bool
    requires before { before < length old.now.tracks }
    requires object { object < length new.now.tracks }
    ensures { result ≡ is_object (plain_problem old.now) (plain_problem new.now) before object }
{
    is_like(old, new, before, object) && old.primaries.has(before) == new.primaries.has(object)
}

/// Whether an old object and a new one have the same track and the same size.
fn is_like(old: &Problem, new: &Problem, before: u32, object: u32) -> bool
    requires before { before < length old.now.tracks }
    requires object { object < length new.now.tracks }
    ensures { result ≡ unchanged.is_like (plain_problem old.now) (plain_problem new.now) before object }
{
    let one = &old.tracks.as_slice()[before as usize];
    let other = &new.tracks.as_slice()[object as usize];
    are_same_tracks(one, other)
        && old.sizes.as_slice()[before as usize] == new.sizes.as_slice()[object as usize]
}

/// The ends of some objects and of one more behind them.
fn with_last(ends: Option<Ends>, last: u32) -> Ends
    requires { IfSome ends (λ e. e.last ≤ last) }
    ensures { plain_ends result ≡ with_end (option_map plain_ends ends) last }
{
    match ends {
        Some(ends) => Ends {
            first: ends.first,
            last,
        },
        None => Ends { first: last, last },
    }
}

/// The first and the last old object that is a new one.
fn ends_like(old: &Problem, new: &Problem, object: u32) -> Option<Ends>
    requires { object < length new.now.tracks }
    ensures { option_map plain_ends result ≡ ends_of (objects_like (plain_problem old.now) (plain_problem new.now) object) }
{
    let mut ends = None;
    for before in 0..old.tracks.as_slice().len() as u32 {
        if is_same(old, new, before, object) {
            ends = Some(with_last(ends, before));
        }
    }
    ends
}

/// Which objects of a new problem are those of an old one.
pub fn match_objects<'m>(
    alloc: Global,
    old: &'m Problem,
    new: &'m Problem,
) -> Result<Matching<'m>, AllocError>
    ensures old { IfOk result (λ matching. matching.old.now ≡ old.now) }
    ensures new { IfOk result (λ matching. matching.new.now ≡ new.now) }
{
    let objects = new.tracks.as_slice().len();
    let mut ends = Vec::with_capacity(alloc, objects)?;
    for object in 0..objects as u32 {
        ends.push(ends_like(old, new, object))?;
    }
    Ok(Matching { old, new, ends })
}
