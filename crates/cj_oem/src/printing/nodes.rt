//! The rows of nodes.
ghost use Rattle.std.specs.Prelude.{◌≡◌, ◌++◌, map, flat_map, OnOk};
ghost use Rattle.cj_oem.specs.Canonical.{row_text};
ghost use Rattle.cj_track.specs.Tracks.{plain_node};

use crate::printing::figures::push_vector;
use cj_epoch::epoch_text;
use cj_track::Node;
use std::alloc::AllocError;

/// Adds the rows of nodes.
pub(crate) fn push_nodes(text: &mut Vec<u8>, nodes: &[Node]) -> Result<(), AllocError>
    ensures { OnOk result (text.new.items ≡ text.old.items ++ flat_map row_text (map plain_node nodes.now)) }
{
    for node in nodes {
        push_state(text, node)?;
    }
    Ok(())
}

#[tactic(auto, unfolding(crate::specs::Canonical::row_text))]
fn push_state(text: &mut Vec<u8>, node: &Node) -> Result<(), AllocError>
    ensures { OnOk result (text.new.items ≡ text.old.items ++ row_text (plain_node node.now)) }
{
    text.extend_from_slice(&epoch_text(node.at))?;
    text.push(b' ')?;
    push_vector(text, node.p)?;
    text.push(b' ')?;
    push_vector(text, node.v)?;
    text.push(b'\n')?;
    Ok(())
}
