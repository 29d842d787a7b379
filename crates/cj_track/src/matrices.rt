ghost use Rattle.std.specs.Prelude.{◌≡◌};
ghost use Rattle.std.specs.Cmp.{partial_equiv_from_equiv};
ghost use Rattle.std.specs.Cmp.Lexicographic.{pointwise, lists_equiv};
ghost use Rattle.cj_track.specs.Sameness.{matrices_equiv, same_matrix};

use crate::matrix::Matrix;
use std::marker::Model;

/// The covariances of a segment, as they stand in the file.
#[derive(Debug, Drop)]
pub struct Matrices {
    items: Vec<Matrix>,
}

impl Model for Matrices {
    ghost use Rattle.std.specs.Prelude.{List};
    ghost use Rattle.cj_track.specs.declared.matrix.Matrix.{Matrix};

    ghost Value = { List Matrix };

    ghost view = { λ m. m.items.items };
}

impl Matrices {
    pub fn new(items: Vec<Matrix>) -> Self
        ensures { result ≡ items.items }
    {
        Matrices { items }
    }

    pub fn as_slice(&self) -> &[Matrix]
        ensures { result.now ≡ self.now }
    {
        &self.items
    }
}

impl PartialEq for Matrices {
    ghost eq = { pointwise same_matrix };

    ghost laws = { partial_equiv_from_equiv (lists_equiv matrices_equiv) };

    fn eq(&self, other: &Matrices) -> bool {
        self.items.as_slice() == other.items.as_slice()
    }
}

impl Eq for Matrices {
    ghost laws = { lists_equiv matrices_equiv };
}
