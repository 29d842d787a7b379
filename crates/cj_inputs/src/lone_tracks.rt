ghost use Rattle.std.specs.Prelude.{◌≡◌, ◌≤◌, ◌++◌, ◌∷◌, [], map, IfOk};
ghost use Rattle.cj_base.specs.Bounds.{MOST_NODES};
ghost use Rattle.cj_case.specs.CaseLimits.{node_total};
ghost use Rattle.cj_track.specs.Tracks.{plain_track};
ghost use Rattle.cj_inputs.specs.Readings.{Reads, within_nodes};

use crate::reading::InputError;
use crate::taken::node_count;
use cj_base::Limits;
use cj_status::LimitFault;
use cj_track::Track;
use std::alloc::{AllocError, Global};

/// Tracks that are read each for itself, whatever their frames.
#[derive(Debug, Drop)]
pub struct LoneTracks {
    pub tracks: Vec<Track>,
    /// How many nodes they have in all.
    pub nodes: u64,
    pub ghost counted: { nodes ≡ node_total tracks.items },
    pub ghost few: { nodes ≤ MOST_NODES },
}

impl LoneTracks {
    /// No tracks, with room for so many.
    pub fn with_capacity(alloc: Global, capacity: usize) -> Result<Self, AllocError>
        ensures { IfOk result (λ lone. lone.tracks.items ≡ []) }
    {
        Ok(LoneTracks {
            tracks: Vec::with_capacity(alloc, capacity)?,
            nodes: 0,
        })
    }

    /// These and one more, where all are within the limit of nodes.
    pub fn with(self, track: Track, limits: Limits) -> Result<Self, InputError>
        ensures told { Reads ⊥ (λ lone. plain_track track) result
            (within_nodes limits.nodes (map plain_track self.tracks.items) (plain_track track)) }
        ensures more { IfOk result (λ lone. lone.tracks.items ≡ self.tracks.items ++ track ∷ []) }
    {
        let nodes = self.nodes + node_count(&track);
        if nodes > limits.nodes {
            return Err(InputError::Limit(LimitFault::Nodes { count: nodes }));
        }
        let mut tracks = self.tracks;
        tracks.push(track)?;
        Ok(LoneTracks { tracks, nodes })
    }
}
