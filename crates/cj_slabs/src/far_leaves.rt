//! Which leaves are far.
ghost use Rattle.std.specs.Prelude.{◌≡◌};
ghost use Rattle.std.specs.List.{list_all};
ghost use Rattle.cj_case.specs.declared.kind.Kind.TheVariants.{Far};
ghost use Rattle.cj_case.specs.Leaves.{same_kind};

use cj_case::{Kind, Leaf};

/// Whether a leaf is far.
pub fn is_far(leaf: &Leaf) -> bool
    ensures { result ≡ same_kind Far leaf.now.kind }
{
    match leaf.kind {
        Kind::Far => true,
        Kind::Near | Kind::Undecided => false,
    }
}

/// Whether each of these leaves is far.
pub fn are_far(leaves: &[Leaf]) -> bool
    ensures { result ≡ list_all (λ leaf. same_kind Far leaf.kind) leaves.now }
{
    leaves.iter().all(|leaf| is_far(leaf))
}
