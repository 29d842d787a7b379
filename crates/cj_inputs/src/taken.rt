//! Tracks that are taken together.
ghost use Rattle.std.specs.Prelude.{◌≡◌, ◌<◌, ◌≤◌, ◌+◌, ◌++◌, ◌∷◌, ◌^◌, [], length, map, IfOk, OnOk, true};
ghost use Rattle.cj_base.specs.Bounds.{MOST_NODES};
ghost use Rattle.cj_case.specs.CaseLimits.{AreFewNodes, node_total};
ghost use Rattle.cj_case.specs.Frames.{HaveOneFrame};
ghost use Rattle.cj_track.specs.Segments.{node_count as the_count};
ghost use Rattle.cj_track.specs.Tracks.{plain_track};
ghost use Rattle.cj_inputs.specs.Readings as spec;
ghost use Rattle.cj_inputs.specs.Readings.{Reads};

use crate::reading::InputError;
use cj_base::Limits;
use cj_io::Name;
use cj_status::{FileCause, LimitFault};
use cj_track::Track;
use std::alloc::{AllocError, Global};

/// Tracks that are taken, of one frame.
#[derive(Drop)]
pub struct Taken {
    pub tracks: Vec<Track>,
    /// How many nodes they have in all.
    pub nodes: u64,
    pub ghost frame: { HaveOneFrame tracks.items },
    pub ghost counted: { nodes ≡ node_total tracks.items },
    pub ghost few: { nodes ≤ MOST_NODES },
    pub ghost fewer: { length tracks.items ≤ nodes },
}

impl Taken {
    /// No tracks, with room for so many.
    pub fn with_capacity(alloc: Global, capacity: usize) -> Result<Self, AllocError>
        ensures { IfOk result (λ taken. taken.tracks.items ≡ []) }
    {
        Ok(Taken {
            tracks: Vec::with_capacity(alloc, capacity)?,
            nodes: 0,
        })
    }

    /// These and one more, where it may stand behind them.
    pub fn with(self, alloc: Global, track: Track, limits: Limits) -> Result<Self, InputError>
        ensures told { Reads ⊥ (λ taken. plain_track track) result
            (spec.checked_after limits.nodes (map plain_track self.tracks.items) track.file (plain_track track)) }
        ensures more { IfOk result (λ taken. taken.tracks.items ≡ self.tracks.items ++ track ∷ []) }
    {
        let nodes = self.nodes + node_count(&track);
        let name = track.file.as_slice();
        check_limits(alloc, &self.tracks, &track, name, nodes, limits)?;
        let mut tracks = self.tracks;
        tracks.push(track)?;
        Ok(Taken { tracks, nodes })
    }

    /// These and one more, whose file the folder has under another name, where it may stand behind them.
    pub fn with_update(
        self,
        alloc: Global,
        track: Track,
        name: &[u8],
        limits: Limits,
    ) -> Result<Self, InputError>
        ensures told { Reads ⊥ (λ taken. plain_track track) result
            (spec.checked_after limits.nodes (map plain_track self.tracks.items) name.now (plain_track track)) }
        ensures more { IfOk result (λ taken. taken.tracks.items ≡ self.tracks.items ++ track ∷ []) }
    {
        let nodes = self.nodes + node_count(&track);
        check_limits(alloc, &self.tracks, &track, name, nodes, limits)?;
        let mut tracks = self.tracks;
        tracks.push(track)?;
        Ok(Taken { tracks, nodes })
    }

    /// These tracks.
    pub fn of(tracks: Vec<Track>) -> Self
        requires frame { HaveOneFrame tracks.items }
        requires few { AreFewNodes tracks.items }
        ensures { result.tracks.items ≡ tracks.items }
    {
        let nodes = node_sum(&tracks);
        Taken { tracks, nodes }
    }
}

/// How many nodes tracks have in all.
fn node_sum(tracks: &[Track]) -> u64
    requires { AreFewNodes tracks.now }
    ensures value { result ≡ node_total tracks.now }
    ensures many { length tracks.now ≤ result }
{
    let mut count = 0;
    for track in tracks {
        count += node_count(track);
    }
    count
}

/// How many nodes a track has.
pub fn node_count(track: &Track) -> u64
    ensures value { result ≡ the_count track.now.segments }
    ensures some { 1 ≤ result }
    ensures small { result < 2 ^ 32 }
{
    let mut count = 0;
    for segment in track.segments.as_slice() {
        count += segment.nodes.as_slice().len() as u64;
    }
    count
}

/// Refuses a track, whose file the folder has under this name, if it may not stand behind those before it. With it there are so many nodes in
/// all.
fn check_limits(
    alloc: Global,
    before: &[Track],
    track: &Track,
    name: &[u8],
    nodes: u64,
    limits: Limits,
) -> Result<(), InputError>
    requires { nodes ≡ node_total before.now + the_count track.now.segments }
    ensures told { Reads ⊥ (λ done. plain_track track.now) result
        (spec.checked_after limits.nodes (map plain_track before.now) name.now (plain_track track.now)) }
    ensures frame { OnOk result (spec.has_frame_of (map plain_track before.now) (plain_track track.now) ≡ true) }
    ensures nodes { OnOk result (nodes ≤ limits.nodes) }
{
    if !has_frame_of(before, track) {
        return Err(InputError::Refused {
            file: Name::copy_of(alloc, name)?,
            line: 0,
            cause: FileCause::MixedFrames,
        });
    }
    if nodes > limits.nodes {
        return Err(InputError::Limit(LimitFault::Nodes { count: nodes }));
    }
    Ok(())
}

/// Whether a track has the frame of the first of those before it.
fn has_frame_of(before: &[Track], track: &Track) -> bool
    ensures { result ≡ spec.has_frame_of (map plain_track before.now) (plain_track track.now) }
{
    match before.first() {
        None => true,
        Some(first) => first.frame == track.frame,
    }
}
