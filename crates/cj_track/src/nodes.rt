ghost use Rattle.std.specs.Prelude.{◌≡◌, ◌≤◌, length};
ghost use Rattle.std.specs.Cmp.{partial_equiv_from_equiv};
ghost use Rattle.std.specs.Cmp.Lexicographic.{pointwise, lists_equiv};
ghost use Rattle.cj_track.specs.Sameness.{nodes_equiv, same_node};

use crate::node::Node;
use std::marker::Model;

/// The nodes of a segment: two or more, whose times rise by at most an hour.
#[derive(Debug, Drop)]
pub struct Nodes {
    items: Vec<Node>,
}

impl Model for Nodes {
    ghost use Rattle.std.specs.Prelude.{List};
    ghost use Rattle.cj_track.specs.declared.node.Node.{Node};
    ghost use Rattle.cj_track.specs.Nodes.{AreNodes};

    ghost Value = { List Node };

    ghost view = { λ n. n.items.items };

    ghost invariant = { λ n. AreNodes n.items.items };
}

impl Nodes {
    ghost use Rattle.cj_track.specs.Nodes.{AreNodes};

    pub fn new(items: Vec<Node>) -> Self
        requires { AreNodes items.items }
        ensures { result ≡ items.items }
    {
        Nodes { items }
    }

    pub fn as_slice(&self) -> &[Node]
        ensures value { result.now ≡ self.now }
        ensures kept { AreNodes result.now }
    {
        &self.items
    }
}

impl PartialEq for Nodes {
    ghost eq = { pointwise same_node };

    ghost laws = { partial_equiv_from_equiv (lists_equiv nodes_equiv) };

    fn eq(&self, other: &Nodes) -> bool {
        self.items.as_slice() == other.items.as_slice()
    }
}

impl Eq for Nodes {
    ghost laws = { lists_equiv nodes_equiv };
}
