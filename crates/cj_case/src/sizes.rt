ghost use Rattle.std.specs.Prelude.{◌≡◌, ◌≤◌, All};
ghost use Rattle.cj_case.specs.CaseLimits.{MAX_SIZE};

use std::marker::Model;

/// The sizes of the objects of a run, in order of their numbers: the radius of each in nm, at most a kilometre.
#[derive(Debug, Drop)]
pub struct Sizes {
    items: Vec<u64>,
}

impl Model for Sizes {
    ghost use Rattle.std.specs.Prelude.{List, ℕ, All, ◌≤◌};
    ghost use Rattle.cj_case.specs.CaseLimits.{MAX_SIZE};

    ghost Value = { List ℕ };

    ghost view = { λ s. s.items.items };

    ghost invariant = { λ s. All (λ size. size ≤ MAX_SIZE) s.items.items };
}

impl Sizes {
    pub fn new(items: Vec<u64>) -> Self
        requires { All (λ size. size ≤ MAX_SIZE) items.items }
        ensures { result ≡ items.items }
    {
        Sizes { items }
    }

    pub fn as_slice(&self) -> &[u64]
        ensures value { result.now ≡ self.now }
        ensures within { All (λ size. size ≤ MAX_SIZE) self.now }
    {
        &self.items
    }
}
