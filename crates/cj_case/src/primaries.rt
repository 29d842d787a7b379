ghost use Rattle.std.specs.Prelude.{◌≡◌, None, Some, option_map};
ghost use Rattle.cj_case.specs.Pairs.{objects_of};
ghost use Rattle.cj_case.specs.Primaries.{has_primary, is_marked};

use crate::pair::Pair;
use std::marker::Model;

/// The objects of a run whose pairs are looked at: those that are named, or all of them where none are.
#[derive(Debug, Drop)]
pub struct Primaries {
    marks: Option<Vec<bool>>,
}

impl Model for Primaries {
    ghost use Rattle.std.specs.Prelude.{Bool, List, Option, option_map};

    ghost Value = { Option (List Bool) };

    ghost view = { λ p. option_map (λ marks. marks.items) p.marks };
}

impl Primaries {
    /// Each object is a primary.
    pub fn all() -> Self
        ensures { result ≡ None }
    {
        Primaries { marks: None }
    }

    /// Those objects are primaries that are marked, in order of their numbers.
    pub fn marked(marks: Vec<bool>) -> Self
        ensures { result ≡ Some marks.items }
    {
        Primaries { marks: Some(marks) }
    }

    /// The marks of all objects, where primaries are named.
    pub fn marks(&self) -> Option<&[bool]>
        ensures { option_map (λ marks. marks.now) result ≡ self.now }
    {
        self.marks.as_ref().map(|marks| marks.as_slice())
    }

    /// Whether an object is a primary.
    pub fn has(&self, object: u32) -> bool
        ensures { result ≡ is_marked self.now object }
    {
        match &self.marks {
            Some(marks) => marks.get(object as usize).copied().unwrap_or(false),
            None => true,
        }
    }

    /// Whether a pair has a primary.
    #[tactic(auto, unfolding(crate::specs::Primaries::has_primary))]
    pub fn concern(&self, pair: Pair) -> bool
        ensures { result ≡ has_primary self.now (objects_of pair) }
    {
        self.has(pair.a) || self.has(pair.b)
    }
}
