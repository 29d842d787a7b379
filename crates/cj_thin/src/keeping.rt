//! The nodes of a segment that are kept.
ghost use Rattle.std.specs.Prelude.{◌≡◌, ◌^◌, ◌≤◌, map, IfOk};
ghost use Rattle.cj_track.specs.Nodes.{AreSteps};
ghost use Rattle.cj_track.specs.Tracks.{plain_node};
ghost use Rattle.cj_thin.specs.Thinned as spec;

use crate::steps::left_out;
use cj_track::Node;
use std::alloc::{AllocError, Global};

/// The nodes that are kept: the first, and after each the one to which a step goes from there.
pub(crate) fn kept(alloc: Global, nodes: &[Node], e: u64) -> Result<Vec<Node>, AllocError>
    requires steps { AreSteps nodes.now }
    requires least { 10 ^ 9 ≤ e }
    requires most { e ≤ 10 ^ 12 }
    ensures { IfOk result (λ kept. map plain_node kept.items ≡ spec.kept e (map plain_node nodes.now)) }
{
    let mut kept = Vec::new(alloc);
    let mut at = 0;
    while at < nodes.len() {
        let from = nodes[at];
        kept.push(from)?;
        at += 1 + left_out(from, &nodes[at + 1..], e);
    }
    Ok(kept)
}
