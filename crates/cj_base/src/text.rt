ghost use Rattle.std.specs.Prelude.{◌≡◌, ℕ, List, IfOk, map, nat_eq, refl};
ghost use Rattle.std.specs.Cmp.{partial_equiv_from_equiv};
ghost use Rattle.std.specs.Cmp.Lexicographic.{pointwise, slice_cmp, nat_list_eq_equiv, nat_list_cmp_total, texts_po, texts_ties};
ghost use Rattle.std.specs.Ordering.{nat_cmp, as_partial_cmp};
ghost use Rattle.cj_base.specs.Bytes.{spaced as the_spaced};

use std::alloc::{AllocError, Global};
use std::cmp::Ordering;
use std::marker::Model;

/// A short text of any bytes, which contracts see as a list of bytes.
#[derive(Debug, Drop)]
pub struct Text {
    items: Vec<u8>,
}

impl Model for Text {
    ghost Value = { List ℕ };

    ghost view = { λ t. t.items.items };
}

impl Text {
    pub fn new(items: Vec<u8>) -> Self
        ensures { result ≡ items.items }
    {
        Text { items }
    }

    pub fn copy_of(alloc: Global, bytes: &[u8]) -> Result<Self, AllocError>
        ensures { IfOk result (λ t. t ≡ bytes.now) }
    {
        Ok(Text {
            items: Vec::from_slice(alloc, bytes)?,
        })
    }

    /// The text of a value, where each tab is read as a space.
    pub fn of_value(alloc: Global, bytes: &[u8]) -> Result<Self, AllocError>
        ensures { IfOk result (λ t. t ≡ map the_spaced bytes.now) }
    {
        Ok(Text {
            items: bytes.iter().map(|b| spaced(*b)).collect(alloc)?,
        })
    }

    pub fn as_slice(&self) -> &[u8]
        ensures { result.now ≡ self.now }
    {
        &self.items
    }

    pub fn into_vec(self) -> Vec<u8>
        ensures { result.items ≡ self }
    {
        self.items
    }
}

fn spaced(byte: u8) -> u8
    ensures { result ≡ the_spaced byte }
{
    if byte == b'\t' { b' ' } else { byte }
}

impl PartialEq for Text {
    ghost eq = { pointwise nat_eq };

    ghost laws = { partial_equiv_from_equiv nat_list_eq_equiv };

    fn eq(&self, other: &Text) -> bool {
        self.items.as_slice() == other.items.as_slice()
    }
}

impl Eq for Text {
    ghost laws = { nat_list_eq_equiv };
}

impl PartialOrd for Text {
    ghost partial_cmp = { as_partial_cmp (slice_cmp nat_cmp) };

    ghost laws = { texts_po };

    fn partial_cmp(&self, other: &Text) -> Option<Ordering> {
        Some(self.cmp(other))
    }
}

impl Ord for Text {
    ghost cmp = { slice_cmp nat_cmp };

    ghost total = { nat_list_cmp_total };

    ghost matches_partial_cmp = { λ x y. refl };

    ghost matches_eq = { texts_ties };

    fn cmp(&self, other: &Text) -> Ordering {
        self.items.as_slice().cmp(other.items.as_slice())
    }
}
