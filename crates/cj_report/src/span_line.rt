ghost use Rattle.std.specs.Prelude.{◌≡◌, ◌&&◌};
ghost use Rattle.cj_case.specs.Leaves.{plain_leaf, same_kind};
ghost use Rattle.cj_meet.specs.Encounters.{follows};

use cj_base::Tick;
use cj_case::{Kind, Leaf, Pair};

/// What a line SPAN tells: leaves of one pair and one kind, of consecutive ticks.
#[derive(Clone, Copy, Debug)]
pub(crate) struct SpanLine {
    pub(crate) pair: Pair,
    pub(crate) first: Tick,
    pub(crate) last: Tick,
    pub(crate) kind: Kind,
}

impl SpanLine {
    ghost use Rattle.cj_report.specs.SpanLines.{leaf_of_line};

    /// The line of this leaf alone.
    pub(crate) fn of(leaf: &Leaf) -> SpanLine
        ensures { leaf_of_line result ≡ plain_leaf leaf.now }
    {
        SpanLine {
            pair: leaf.cell.pair,
            first: leaf.cell.first,
            last: leaf.cell.last,
            kind: leaf.kind,
        }
    }

    /// Whether the line tells of the leaf too.
    pub(crate) fn goes_on(&self, leaf: &Leaf) -> bool
        ensures { result ≡ (follows (leaf_of_line self.now) (plain_leaf leaf.now)
            && same_kind self.now.kind leaf.now.kind) }
    {
        self.pair == leaf.cell.pair
            && self.last.micros + 1 == leaf.cell.first.micros
            && self.kind == leaf.kind
    }
}
