//! Which objects of a problem are those of another.
ghost use Rattle.std.specs.Prelude.{◌≡◌, ◌<◌, map, option_map, length, is_some, IfSome};
ghost use Rattle.cj_case.specs.Pairs.{objects_of};
ghost use Rattle.cj_case.specs.Problems.{plain_problem};
ghost use Rattle.cj_case.specs.Unchanged.{is_unchanged};
ghost use Rattle.cj_again.specs.Matchings.{IsPairOf, all_ends, pair_between, plain_ends};

use crate::ends::Ends;
use cj_case::{Pair, Problem};

/// For each object of a new problem the first and the last object of an old one that it is.
#[derive(Debug, Drop)]
pub struct Matching<'m> {
    pub old: &'m Problem,
    pub new: &'m Problem,
    pub ends: Vec<Option<Ends>>,
    pub ghost matched: { map (option_map plain_ends) ends.items ≡ all_ends (plain_problem old.now) (plain_problem new.now) },
}

/// The first of some objects and the last of others, where that comes behind it.
fn between(one: Option<Ends>, other: Option<Ends>) -> Option<Pair>
    ensures { option_map objects_of result ≡ pair_between (option_map plain_ends one) (option_map plain_ends other) }
{
    let first = one?.first;
    let last = other?.last;
    if first < last {
        Some(Pair { a: first, b: last })
    } else {
        None
    }
}

impl Matching<'_> {
    /// How many new objects there are.
    pub fn objects(&self) -> u32
        ensures { result ≡ length self.now.new.now.tracks }
    {
        self.new.tracks.as_slice().len() as u32
    }

    /// The old pair that a pair of new objects is, where it is unchanged.
    pub fn old_pair(&self, pair: Pair) -> Option<Pair>
        requires { pair.b < length self.now.new.now.tracks }
        ensures found { is_some result ≡ is_unchanged (plain_problem self.now.old.now) (plain_problem self.now.new.now) (objects_of pair) }
        ensures is { IfSome result (λ before. IsPairOf (plain_problem self.now.old.now) (plain_problem self.now.new.now) (objects_of before) (objects_of pair)) }
    {
        between(self.ends[pair.a as usize], self.ends[pair.b as usize])
    }

    /// Whether a pair of new objects is unchanged.
    pub fn is_unchanged(&self, pair: Pair) -> bool
        requires { pair.b < length self.now.new.now.tracks }
        ensures { result ≡ is_unchanged (plain_problem self.now.old.now) (plain_problem self.now.new.now) (objects_of pair) }
    {
        self.old_pair(pair).is_some()
    }
}
