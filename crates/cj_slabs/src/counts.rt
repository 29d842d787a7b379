//! How many leaves some roots have.
ghost use Rattle.std.specs.Prelude.{◌≡◌, ◌+◌, ◌<◌, ◌≤◌, length};
ghost use Rattle.cj_case.specs.Leaves.{plain_leaves};
ghost use Rattle.cj_case.specs.declared.kind.Kind.TheVariants.{Far, Near, Undecided};
ghost use Rattle.cj_slabs.specs.Counts.{count_of};

use crate::leaf_counts::LeafCounts;
use cj_case::{Kind, Leaf};

/// How many leaves are of each kind.
#[derive(Clone, Copy, Debug)]
struct KindCounts {
    far: u64,
    near: u64,
    undecided: u64,
}

/// How many of these leaves are of each kind, in one pass.
fn count_kinds(leaves: &[Leaf]) -> KindCounts
    ensures far { result.far ≡ count_of Far (plain_leaves leaves.now) }
    ensures near { result.near ≡ count_of Near (plain_leaves leaves.now) }
    ensures undecided { result.undecided ≡ count_of Undecided (plain_leaves leaves.now) }
    ensures all { result.far + result.near + result.undecided ≡ length leaves.now }
{
    let mut far = 0;
    let mut near = 0;
    let mut undecided = 0;
    for leaf in leaves {
        match leaf.kind {
            Kind::Far => far += 1,
            Kind::Near => near += 1,
            Kind::Undecided => undecided += 1,
        }
    }
    KindCounts {
        far,
        near,
        undecided,
    }
}

impl LeafCounts {
    /// Those of no root.
    pub(crate) const NONE: LeafCounts = LeafCounts {
        roots: 0,
        leaves: 0,
        far: 0,
        near: 0,
        undecided: 0,
    };

    /// Those of so many roots, which have these leaves: each at least one.
    pub fn of_list(roots: u64, leaves: &[Leaf]) -> LeafCounts
        requires { roots ≤ length leaves.now }
        ensures roots { result.roots ≡ roots }
        ensures leaves { result.leaves ≡ length leaves.now }
        ensures far { result.far ≡ count_of Far (plain_leaves leaves.now) }
        ensures near { result.near ≡ count_of Near (plain_leaves leaves.now) }
        ensures undecided { result.undecided ≡ count_of Undecided (plain_leaves leaves.now) }
    {
        let kinds = count_kinds(leaves);
        LeafCounts {
            roots,
            leaves: leaves.len() as u64,
            far: kinds.far,
            near: kinds.near,
            undecided: kinds.undecided,
        }
    }

    /// With one root more, which has these leaves.
    pub(crate) fn with_root(self, leaves: &[Leaf]) -> LeafCounts
        requires some { 0 < length leaves.now }
        requires few { self.leaves + length leaves.now ≤ u64.MAX }
        ensures roots { result.roots ≡ self.roots + 1 }
        ensures leaves { result.leaves ≡ self.leaves + length leaves.now }
        ensures far { result.far ≡ self.far + count_of Far (plain_leaves leaves.now) }
        ensures near { result.near ≡ self.near + count_of Near (plain_leaves leaves.now) }
        ensures undecided { result.undecided ≡ self.undecided + count_of Undecided (plain_leaves leaves.now) }
    {
        let kinds = count_kinds(leaves);
        LeafCounts {
            roots: self.roots + 1,
            leaves: self.leaves + leaves.len() as u64,
            far: self.far + kinds.far,
            near: self.near + kinds.near,
            undecided: self.undecided + kinds.undecided,
        }
    }

    /// With those of other roots.
    pub(crate) fn with(self, others: LeafCounts) -> LeafCounts
        requires { self.leaves + others.leaves ≤ u64.MAX }
        ensures roots { result.roots ≡ self.roots + others.roots }
        ensures leaves { result.leaves ≡ self.leaves + others.leaves }
        ensures far { result.far ≡ self.far + others.far }
        ensures near { result.near ≡ self.near + others.near }
        ensures undecided { result.undecided ≡ self.undecided + others.undecided }
    {
        LeafCounts {
            roots: self.roots + others.roots,
            leaves: self.leaves + others.leaves,
            far: self.far + others.far,
            near: self.near + others.near,
            undecided: self.undecided + others.undecided,
        }
    }
}
