use cj_track::{Node, Nodes};
use std::alloc::{AllocError, Global};
use std::marker::Model;

/// The nodes of a segment so far, whose times rise by at most an hour.
#[derive(Drop)]
pub(crate) struct NodeList {
    items: Vec<Node>,
}

impl Model for NodeList {
    ghost use Rattle.std.specs.Prelude.{List};
    ghost use Rattle.cj_track.specs.declared.node.Node.{Node};
    ghost use Rattle.cj_track.specs.Nodes.{AreSteps};

    ghost Value = { List Node };

    ghost view = { λ n. n.items.items };

    ghost invariant = { λ n. AreSteps n.items.items };
}

impl NodeList {
    ghost use Rattle.std.specs.Prelude.{◌≡◌, ◌≤◌, ◌-◌, ◌++◌, ◌∷◌, [], length, map, slice_get, IfSome, OnOk};
    ghost use Rattle.std.specs.Option.{option_map};
    ghost use Rattle.cj_track.specs.Nodes.{IsStep};
    ghost use Rattle.cj_oem.specs.Stages.{last_state};
    ghost use Rattle.cj_track.specs.Tracks.{plain_node};

    pub(crate) fn new(alloc: Global) -> Self
        ensures { result ≡ [] }
    {
        NodeList {
            items: Vec::new(alloc),
        }
    }

    pub(crate) fn as_slice(&self) -> &[Node]
        ensures { result.now ≡ self.now }
    {
        &self.items
    }

    pub(crate) fn last(&self) -> Option<Node>
        ensures value { result ≡ slice_get self.now (length self.now - 1) }
        ensures state { option_map plain_node result ≡ last_state (map plain_node self.now) }
    {
        self.items.last().copied()
    }

    /// Takes a further node, which is a step from the last one.
    pub(crate) fn push(&mut self, node: Node) -> Result<(), AllocError>
        requires { IfSome (slice_get self.old (length self.old - 1)) (λ last. IsStep last node) }
        ensures { OnOk result (self.new ≡ self.old ++ node ∷ []) }
    {
        self.items.push(node)?;
        Ok(())
    }

    /// All of them, of which there are two or more, without room for others.
    pub(crate) fn into_nodes(self) -> Nodes
        requires { 2 ≤ length self }
        ensures { result ≡ self }
    {
        let mut items = self.items;
        items.shrink_to_fit();
        Nodes::new(items)
    }
}
